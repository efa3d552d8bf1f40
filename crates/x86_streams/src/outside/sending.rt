//! Bytes that are sent to a writer whole, and its flush.

ghost use Rattle.std.specs.Prelude.{◌≡◌, ◌↔◌, ◌≤◌, IsTrue, false, length, drop, [], OnOk};
ghost use Rattle.x86_streams.specs.Outside.Chain.{Puts, Sends, SendsAll};
ghost use Rattle.std.specs.declared.io.ErrorKind.TheVariants.{BrokenPipe};
ghost use Rattle.std.specs.IoError.{error_kind};

use crate::outside::output::{Output, flush_once, write_some};
use std::io::{Error, ErrorKind};

/// The writer took no more.
#[derive(Clone, Copy, Drop)]
pub struct WriteFailed {
    /// Whether it answered that nobody reads what is written: a pipe whose other end is closed.
    pub gone: bool,
}

/// What an error of a writer says.
pub fn failed(error: &Error) -> WriteFailed
    ensures { IsTrue result.gone ↔ (error_kind error.now ≡ BrokenPipe) }
{
    WriteFailed {
        gone: error.kind() == ErrorKind::BrokenPipe,
    }
}

/// Writes bytes until all are written or a write fails, and returns how many were written.
pub fn send_out<W, O: Output<W>>(
    output: &O,
    writer: &mut W,
    bytes: &[u8],
) -> (usize, Result<(), WriteFailed>)
    ensures bound { result.0 ≤ length bytes.now }
    ensures all { OnOk result.1 (result.0 ≡ length bytes.now) }
    ensures sends { Sends O.writes O.flushes result.1 [] bytes.now (drop result.0 bytes.now)
        writer.old writer.new }
{
    let mut sent = 0;
    while sent < bytes.len() {
        match write_some(output, writer, &bytes[sent..]) {
            Ok(0) => return (sent, Err(WriteFailed { gone: false })),
            Ok(count) => sent += count,
            Err(error) => return (sent, Err(failed(&error))),
        }
    }
    (sent, Ok(()))
}

/// Writes a piece at once, where pieces aren't gathered.
pub fn put_whole<W, O: Output<W>>(
    output: &O,
    writer: &mut W,
    piece: &[u8],
) -> Result<(), WriteFailed>
    requires { O.gathers ≡ false }
    ensures { Puts O.writes O.flushes O.gathers result piece.now [] [] writer.old writer.new }
{
    match write_some(output, writer, piece) {
        Ok(_) => Ok(()),
        Err(error) => Err(failed(&error)),
    }
}

/// Flushes the writer.
pub fn flush_out<W, O: Output<W>>(output: &O, writer: &mut W) -> Result<(), WriteFailed>
    ensures { SendsAll O.writes O.flushes result [] [] writer.old writer.new }
{
    match flush_once(output, writer) {
        Ok(()) => Ok(()),
        Err(error) => Err(failed(&error)),
    }
}
