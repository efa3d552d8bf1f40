//! A record of calls.

ghost use Rattle.x86_streams.specs.Outside.Record.{RecordsFlush, RecordsRead, RecordsWrite};

use crate::outside::input::Input;
use crate::outside::output::Output;
use arrayvec::ArrayVec;
use std::io;
use std::io::{Error, ErrorKind};

/// A call, by its answer.
#[derive(Clone, Copy, PartialEq, Eq, Default, Debug, Drop)]
pub enum Event {
    /// A read that returned so many bytes.
    Read(usize),
    /// A write that took so many bytes.
    Write(usize),
    /// A flush that succeeded.
    #[default]
    Flush,
    /// A read that answered an error of this kind.
    ReadFailed(ErrorKind),
    /// A write that answered an error of this kind.
    WriteFailed(ErrorKind),
    /// A flush that answered an error of this kind.
    FlushFailed(ErrorKind),
}

/// What is read from and written to, and each call of it, the first first, with the bytes that were read and written.
#[derive(Drop)]
pub struct Record<E, const CALLS: usize, const BYTES: usize> {
    /// What is read from and written to.
    pub streams: E,
    /// The calls, those that failed or were interrupted too.
    pub events: ArrayVec<Event, CALLS>,
    /// The bytes that the reads returned.
    pub read: ArrayVec<u8, BYTES>,
    /// The bytes that the writes took.
    pub written: ArrayVec<u8, BYTES>,
    /// Whether a call wasn't made, since the record had no room for it.
    pub is_full: bool,
}

impl<E, const CALLS: usize, const BYTES: usize> Record<E, CALLS, BYTES> {
    /// No call yet.
    pub fn new(streams: E) -> Record<E, CALLS, BYTES> {
        Record {
            streams,
            events: ArrayVec::new(),
            read: ArrayVec::new(),
            written: ArrayVec::new(),
            is_full: false,
        }
    }
}

/// Makes the calls of `P`, and records each. A call for which the record may have no room isn't made: it fails.
#[derive(Clone, Copy, Drop)]
pub struct Recorder<P> {
    pub calls: P,
}

fn no_room() -> Error {
    Error::from(ErrorKind::Other)
}

impl<E, P: Input<E>, const CALLS: usize, const BYTES: usize> Input<Record<E, CALLS, BYTES>>
    for Recorder<P> {
    ghost reads = { RecordsRead P.reads };

    fn read(&self, record: &mut Record<E, CALLS, BYTES>, buffer: &mut [u8]) -> io::Result<usize> {
        if record.is_full
            || record.events.is_full()
            || record.read.remaining_capacity() < buffer.len()
        {
            record.is_full = true;
            return Err(no_room());
        }
        match self.calls.read(&mut record.streams, buffer) {
            Ok(count) => {
                record.events.push(Event::Read(count));
                let _ = record.read.try_extend_from_slice(&buffer[..count]);
                Ok(count)
            }
            Err(error) => {
                record.events.push(Event::ReadFailed(error.kind()));
                Err(error)
            }
        }
    }
}

impl<E, P: Output<E>, const CALLS: usize, const BYTES: usize> Output<Record<E, CALLS, BYTES>>
    for Recorder<P> {
    ghost writes = { RecordsWrite P.writes };

    ghost flushes = { RecordsFlush P.flushes };

    ghost gathers = { P.gathers };

    ghost whole = { λ e w v bytes n is. P.whole e w.streams v.streams bytes n is.0 };

    fn gathers(&self) -> bool {
        self.calls.gathers()
    }

    fn write(&self, record: &mut Record<E, CALLS, BYTES>, bytes: &[u8]) -> io::Result<usize> {
        if record.is_full
            || record.events.is_full()
            || record.written.remaining_capacity() < bytes.len()
        {
            record.is_full = true;
            return Err(no_room());
        }
        match self.calls.write(&mut record.streams, bytes) {
            Ok(count) => {
                record.events.push(Event::Write(count));
                let _ = record.written.try_extend_from_slice(&bytes[..count]);
                Ok(count)
            }
            Err(error) => {
                record.events.push(Event::WriteFailed(error.kind()));
                Err(error)
            }
        }
    }

    fn flush(&self, record: &mut Record<E, CALLS, BYTES>) -> io::Result<()> {
        if record.is_full || record.events.is_full() {
            record.is_full = true;
            return Err(no_room());
        }
        match self.calls.flush(&mut record.streams) {
            Ok(()) => {
                record.events.push(Event::Flush);
                Ok(())
            }
            Err(error) => {
                record.events.push(Event::FlushFailed(error.kind()));
                Err(error)
            }
        }
    }
}
