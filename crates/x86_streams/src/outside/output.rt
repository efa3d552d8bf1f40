//! What a listing is written to.

ghost use Rattle.std.specs.Prelude.{◌≡◌, ℕ, Bool, false, List, Result, Ok, length, ⊤};
ghost use Rattle.std.specs.Io.{WritesAtMost};
ghost use Rattle.std.specs.declared.io.Error.{Error};
ghost use Rattle.x86_streams.specs.Outside.Chain.{FlushesOnce, WritesOnce};

use crate::outside::interruptions::{TRIES, is_interrupted};
use std::io;

/// How writers of type `W` are written, with relations that say which calls there were. Code that is generic over it
/// can't make a call up.
pub trait Output<W> {
    /// What a write of these bytes may answer, and what it may leave of the writer.
    ghost writes: { W → List ℕ → Result ℕ Error → W → Type 0 };

    /// What a flush may answer, and what it may leave of the writer.
    ghost flushes: { W → Result ⊤ Error → W → Type 0 };

    /// Whether pieces may be gathered before a write.
    ghost gathers: { Bool };

    /// Whether pieces may be gathered before a write. Where they aren't, a write takes all of its piece or fails.
    fn gathers(&self) -> bool
        ensures { result ≡ gathers };

    /// One write. It returns how many of the bytes were taken, from the first on, and fails with the writer's error.
    fn write(&self, writer: &mut W, bytes: &[u8]) -> io::Result<usize>
        ensures bound { WritesAtMost result bytes.now }
        ensures wrote { writes writer.old bytes.now result writer.new };

    /// One flush. It fails with the writer's error.
    fn flush(&self, writer: &mut W) -> io::Result<()>
        ensures { flushes writer.old result writer.new };

    /// Where pieces aren't gathered, a write takes all of its piece or fails.
    ghost whole: { gathers ≡ false → (w v : W) (bytes : List ℕ) (n : ℕ) →
        writes w bytes (Ok n) v → n ≡ length bytes };
}

/// One write, which is made again where a signal interrupts it.
#[tactic(auto, using(crate::proofs::OutsideLemmas::Calls::interrupted_more))]
#[inline(always)]
pub fn write_some<W, O: Output<W>>(output: &O, writer: &mut W, bytes: &[u8]) -> io::Result<usize>
    ensures bound { WritesAtMost result bytes.now }
    ensures wrote { WritesOnce O.writes bytes.now result writer.old writer.new }
{
    for tried in 0..TRIES {
        match output.write(writer, bytes) {
            Err(error) if is_interrupted(&error) => {}
            answer => return answer,
        }
    }
    output.write(writer, bytes)
}

/// One flush, which is made again where a signal interrupts it.
#[tactic(auto, using(crate::proofs::OutsideLemmas::Calls::interrupted_more))]
pub fn flush_once<W, O: Output<W>>(output: &O, writer: &mut W) -> io::Result<()>
    ensures { FlushesOnce O.flushes result writer.old writer.new }
{
    for tried in 0..TRIES {
        match output.flush(writer) {
            Err(error) if is_interrupted(&error) => {}
            answer => return answer,
        }
    }
    output.flush(writer)
}
