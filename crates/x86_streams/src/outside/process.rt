//! The readers and writers of std, as the program uses them.

ghost use Rattle.std.specs.Prelude.{true};
ghost use Rattle.std.specs.Io.KnownBytes.{Keeps, ReadConsumes, WriteAppends};

use crate::outside::input::Input;
use crate::outside::output::Output;
use std::io;
use std::io::{Read, Write};

/// Readers and writers of std: each call is one of theirs.
#[derive(Clone, Copy, Drop)]
pub struct Process;

impl<R: Read> Input<R> for Process {
    ghost reads = { λ s buffer r t. ReadConsumes (R.remaining s) (R.remaining t) r buffer };

    fn read(&self, reader: &mut R, buffer: &mut [u8]) -> io::Result<usize> {
        reader.read(buffer)
    }
}

impl<W: Write> Output<W> for Process {
    ghost writes = { λ s bytes r t. WriteAppends (W.contents s) (W.contents t) r bytes };

    ghost flushes = { λ s r t. Keeps (W.contents s) (W.contents t) };

    ghost gathers = { true };

    ghost whole = { λ e. cc };

    #[inline(always)]
    fn gathers(&self) -> bool {
        true
    }

    fn write(&self, writer: &mut W, bytes: &[u8]) -> io::Result<usize> {
        writer.write(bytes)
    }

    fn flush(&self, writer: &mut W) -> io::Result<()> {
        writer.flush()
    }
}
