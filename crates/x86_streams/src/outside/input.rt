//! What a text is read from.

ghost use Rattle.std.specs.Prelude.{◌<◌, ℕ, List, Result, length};
ghost use Rattle.std.specs.Io.{ReadsAtMost};
ghost use Rattle.std.specs.declared.io.Error.{Error};
ghost use Rattle.x86_streams.specs.Outside.Chain.{ReadsOnce};

use crate::outside::interruptions::{TRIES, is_interrupted};
use std::io;

/// How readers of type `R` are read, with a relation that says which reads there were. Code that is generic over it
/// can't make a read up.
pub trait Input<R> {
    /// What a read may answer, with this in its buffer, and what it may leave of the reader.
    ghost reads: { R → List ℕ → Result ℕ Error → R → Type 0 };

    /// One read, into a buffer with room for a byte at least. It returns how many bytes were read, 0 at the end, and
    /// fails with the error of the reader.
    fn read(&self, reader: &mut R, buffer: &mut [u8]) -> io::Result<usize>
        requires { 0 < length buffer.old }
        ensures bound { ReadsAtMost result buffer.new }
        ensures read { reads reader.old buffer.new result reader.new };
}

/// One read, which is made again where a signal interrupts it.
#[tactic(auto, using(crate::proofs::OutsideLemmas::Calls::interrupted_more))]
pub fn read_some<R, I: Input<R>>(input: &I, reader: &mut R, buffer: &mut [u8]) -> io::Result<usize>
    requires { 0 < length buffer.old }
    ensures bound { ReadsAtMost result buffer.new }
    ensures read { ReadsOnce I.reads buffer.new result reader.old reader.new }
{
    for tried in 0..TRIES {
        match input.read(reader, buffer) {
            Err(error) if is_interrupted(&error) => {}
            answer => return answer,
        }
    }
    input.read(reader, buffer)
}
