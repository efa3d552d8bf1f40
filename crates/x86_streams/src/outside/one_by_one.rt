//! Sources and sinks, as readers and writers.

ghost use Rattle.std.specs.Prelude.{false};
ghost use Rattle.x86_streams.specs.Outside.OneByOne.{ReadsByte, PutsPiece, HoldsNothing};

use crate::outside::input::Input;
use crate::outside::output::Output;
use crate::outside::sink::Sink;
use crate::outside::source::{Got, Source};
use std::io;
use std::io::{Error, ErrorKind};

/// Sources, of which a read is one call, and sinks, of which a write is one put.
#[derive(Clone, Copy, Drop)]
pub struct OneByOne;

impl<S: Source> Input<S> for OneByOne {
    ghost reads = { ReadsByte S.gives };

    fn read(&self, source: &mut S, buffer: &mut [u8]) -> io::Result<usize> {
        match source.next() {
            Got::End => Ok(0),
            Got::Failed => Err(Error::from(ErrorKind::Other)),
            Got::Byte(byte) => {
                buffer[0] = byte;
                Ok(1)
            }
        }
    }
}

impl<K: Sink> Output<K> for OneByOne {
    ghost writes = { PutsPiece K.takes };

    ghost flushes = { HoldsNothing };

    ghost gathers = { false };

    ghost whole = { λ e w v bytes n is. is.0 };

    fn gathers(&self) -> bool {
        false
    }

    fn write(&self, sink: &mut K, bytes: &[u8]) -> io::Result<usize> {
        match sink.put(bytes) {
            Ok(()) => Ok(bytes.len()),
            Err(_) => Err(Error::from(ErrorKind::Other)),
        }
    }

    fn flush(&self, _sink: &mut K) -> io::Result<()> {
        Ok(())
    }
}
