//! A reader and a writer, as one.

ghost use Rattle.std.specs.Prelude.{false, true};
ghost use Rattle.x86_streams.specs.Outside.Joined.{FlushesWriter, ReadsReader, WritesWriter};

use crate::outside::input::Input;
use crate::outside::one_by_one::OneByOne;
use crate::outside::output::Output;
use crate::outside::process::Process;
use crate::outside::sink::Sink;
use crate::outside::source::Source;
use std::io;
use std::io::{Read, Write};

/// A reader and a writer in one value, so that the calls of both have one order. A read leaves the writer, and a write and a
/// flush leave the reader.
#[derive(Drop)]
pub struct Joined<R, W> {
    pub reader: R,
    pub writer: W,
}

impl<R: Read, W> Input<Joined<R, W>> for Process {
    ghost reads = { ReadsReader ⟦<Process as Input<R>>⟧.reads };

    fn read(&self, streams: &mut Joined<R, W>, buffer: &mut [u8]) -> io::Result<usize> {
        self.read(&mut streams.reader, buffer)
    }
}

impl<R, W: Write> Output<Joined<R, W>> for Process {
    ghost writes = { WritesWriter ⟦<Process as Output<W>>⟧.writes };

    ghost flushes = { FlushesWriter ⟦<Process as Output<W>>⟧.flushes };

    ghost gathers = { true };

    ghost whole = { λ e. cc };

    #[inline(always)]
    fn gathers(&self) -> bool {
        true
    }

    fn write(&self, streams: &mut Joined<R, W>, bytes: &[u8]) -> io::Result<usize> {
        self.write(&mut streams.writer, bytes)
    }

    fn flush(&self, streams: &mut Joined<R, W>) -> io::Result<()> {
        self.flush(&mut streams.writer)
    }
}

impl<S: Source, K> Input<Joined<S, K>> for OneByOne {
    ghost reads = { ReadsReader ⟦<OneByOne as Input<S>>⟧.reads };

    fn read(&self, streams: &mut Joined<S, K>, buffer: &mut [u8]) -> io::Result<usize> {
        self.read(&mut streams.reader, buffer)
    }
}

impl<S, K: Sink> Output<Joined<S, K>> for OneByOne {
    ghost writes = { WritesWriter ⟦<OneByOne as Output<K>>⟧.writes };

    ghost flushes = { FlushesWriter ⟦<OneByOne as Output<K>>⟧.flushes };

    ghost gathers = { false };

    ghost whole = { λ e w v bytes n is. is.0.0 };

    fn gathers(&self) -> bool {
        false
    }

    fn write(&self, streams: &mut Joined<S, K>, bytes: &[u8]) -> io::Result<usize> {
        self.write(&mut streams.writer, bytes)
    }

    fn flush(&self, streams: &mut Joined<S, K>) -> io::Result<()> {
        self.flush(&mut streams.writer)
    }
}
