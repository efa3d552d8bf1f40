//! Output that is gathered, without an allocation.

ghost use Rattle.std.specs.Prelude.{◌≡◌, ◌+◌, ◌<◌, ◌≤◌, [], false, true, length, take, drop, OnOk};
ghost use Rattle.arrayvec.specs.ArrayVec.{array_vec_len};
ghost use Rattle.x86_streams.specs.Outside.Chain.{Puts, Sends, SendsAll};

use crate::lines::Room;
use crate::outside::output::Output;
use crate::outside::sending::{WriteFailed, flush_out, put_whole, send_out};

const SIZE: usize = 65536;

/// The most bytes that are written after those that are gathered.
const SPARE: usize = 1024;

/// Room for both, 65,536 and 1,024.
pub const HELD_ROOM: usize = 66560;

/// The bytes that are gathered, and then those of a line that is being written.
pub type Held = Room<HELD_ROOM>;

/// At most 64 KiB of bytes that are gathered, and sent where the next don't fit or at a flush. What a failed write leaves
/// unsent stays in the buffer, so no byte is sent twice.
///
/// A line may be written where it stays: its bytes are appended to `bytes`, and `take_written` then takes them.
#[derive(Drop)]
pub struct Gathered {
    /// What was gathered and not sent yet, in order.
    pub bytes: Held,
}

impl Gathered {
    /// Nothing gathered.
    pub fn new() -> Gathered
        ensures { result.bytes.items ≡ [] }
    {
        Gathered { bytes: Room::new() }
    }

    /// Sends what was gathered.
    #[cold]
    #[inline(never)]
    fn send<W, O: Output<W>>(&mut self, output: &O, writer: &mut W) -> Result<(), WriteFailed>
        ensures empty { OnOk result (self.new.bytes.items ≡ []) }
        ensures sends { Sends O.writes O.flushes result [] self.old.bytes.items
            self.new.bytes.items writer.old writer.new }
    {
        let (sent, result) = send_out(output, writer, self.bytes.as_slice());
        self.bytes.leave(sent);
        result
    }

    /// Takes a piece. Where it doesn't fit, what was gathered is sent first. An output that doesn't gather is written at
    /// once.
    #[inline(always)]
    #[tactic(auto, using(crate::proofs::OutsideLemmas::Calls::puts_new, crate::proofs::OutsideLemmas::Calls::puts_fitting))]
    pub fn put<W, O: Output<W>>(
        &mut self,
        output: &O,
        writer: &mut W,
        piece: &[u8],
    ) -> Result<(), WriteFailed>
        requires fits { length piece.now ≤ 65536 }
        requires empty { O.gathers ≡ false → self.old.bytes.items ≡ [] }
        ensures { Puts O.writes O.flushes O.gathers result piece.now
            self.old.bytes.items self.new.bytes.items writer.old writer.new }
    {
        if !output.gathers() {
            return put_whole(output, writer, piece);
        }
        if piece.len() + SPARE > self.bytes.left() {
            self.send(output, writer)?;
        }
        self.bytes.extend(piece);
        Ok(())
    }

    /// Takes as a piece the bytes that were written where they stay, after the first `held`. Where it doesn't fit, those are
    /// sent first. An output that doesn't gather is written at once.
    #[inline(always)]
    #[tactic(auto, using(crate::proofs::OutsideLemmas::Calls::puts_fitting))]
    pub fn take_written<W, O: Output<W>>(
        &mut self,
        output: &O,
        writer: &mut W,
        held: usize,
    ) -> Result<(), WriteFailed>
        requires held { held ≤ array_vec_len self.old.bytes }
        requires fits { array_vec_len self.old.bytes ≤ held + 65536 }
        requires empty { O.gathers ≡ false → held ≡ 0 }
        ensures puts { Puts O.writes O.flushes O.gathers result
            (drop held self.old.bytes.items) (take held self.old.bytes.items)
            self.new.bytes.items writer.old writer.new }
        ensures short { OnOk result (array_vec_len self.new.bytes ≤ 65536) }
    {
        if output.gathers() && self.bytes.len() <= SIZE {
            return Ok(());
        }
        self.send_before(output, writer, held)
    }

    /// Takes the bytes after the first `held` as a piece, where they don't fit or aren't gathered.
    #[cold]
    #[inline(never)]
    fn send_before<W, O: Output<W>>(
        &mut self,
        output: &O,
        writer: &mut W,
        held: usize,
    ) -> Result<(), WriteFailed>
        requires held { held ≤ array_vec_len self.old.bytes }
        requires fits { array_vec_len self.old.bytes ≤ held + 65536 }
        requires empty { O.gathers ≡ false → held ≡ 0 }
        requires full { O.gathers ≡ true → 65536 < array_vec_len self.old.bytes }
        ensures puts { Puts O.writes O.flushes O.gathers result
            (drop held self.old.bytes.items) (take held self.old.bytes.items)
            self.new.bytes.items writer.old writer.new }
        ensures short { OnOk result (array_vec_len self.new.bytes ≤ 65536) }
    {
        if !output.gathers() {
            let result = put_whole(output, writer, self.bytes.as_slice());
            self.bytes.clear();
            return result;
        }
        let (sent, result) = send_out(output, writer, &self.bytes.as_slice()[..held]);
        match result {
            Ok(()) => {
                self.bytes.leave(sent);
                Ok(())
            }
            Err(failed) => {
                self.bytes.truncate(held);
                self.bytes.leave(sent);
                Err(failed)
            }
        }
    }

    /// Sends what was gathered, and flushes the writer.
    pub fn send_all<W, O: Output<W>>(
        &mut self,
        output: &O,
        writer: &mut W,
    ) -> Result<(), WriteFailed>
        ensures { SendsAll O.writes O.flushes result self.old.bytes.items self.new.bytes.items
            writer.old writer.new }
    {
        if self.bytes.as_slice().is_empty() {
            return flush_out(output, writer);
        }
        self.send(output, writer)?;
        flush_out(output, writer)
    }
}
