//! Listings, line by line.

ghost use Rattle.x86_decode.specs.Decoder.{is_strict};
ghost use Rattle.x86_decode.specs.Instruction.{length_of};
ghost use Rattle.std.specs.Prelude.{◌≡◌, ◌≢◌, ℕ, Bool, List, false, ◌+◌, ◌<◌, ◌≤◌, ◌^◌, [], ◌∷◌, ◌++◌, take, drop, length, OnOk};
ghost use Rattle.arrayvec.specs.ArrayVec.{array_vec_len};
ghost use Rattle.x86_text.specs.Widths.{line_width};
ghost use Rattle.x86_cli.specs.Listings.Line.{line};
ghost use Rattle.x86_streams.specs.Outside.Chain.{Puts};
ghost use Rattle.x86_streams.specs.Text.{Text};
ghost use Rattle.x86_cli.specs.Listings.Closes.{Closes};
ghost use Rattle.x86_cli.specs.Listings.Entry.{Appends, IsEntry};
ghost use Rattle.x86_cli.specs.Listings.Listing.{Listing, at_end, listing_at};
ghost use Rattle.x86_cli.specs.Listings.Performs.{Performs};

use crate::laws::decoder_laws;
use crate::listings::line::Lines;
use crate::listings::status::{Finished, Status};
use crate::text::window::{Decoded, decode_next};
use x86_decode::{InstDecoder, Instruction};
use x86_fields::DecodeError;
use x86_streams::lines::Counter;
use x86_streams::{Ending, Gathered, Held, Input, Output, Window, WriteFailed};
use x86_text::{LINE_ROOM, Line, Place, Room, refusal_of};

/// Writes a line with its end.
#[inline(always)]
pub fn put_line<const N: usize, W, O: Output<W>>(
    output: &O,
    out: &mut Gathered,
    writer: &mut W,
    text: &mut Room<N>,
) -> Result<(), WriteFailed>
    requires size { N ≤ 65536 }
    requires room { array_vec_len text.old < N }
    requires empty { O.gathers ≡ false → out.old.bytes.items ≡ [] }
    ensures { Puts O.writes O.flushes O.gathers result (line text.old.items)
        out.old.bytes.items out.new.bytes.items writer.old writer.new }
{
    text.push(b'\n');
    out.put(output, writer, text.as_slice())
}

/// Ends the line that was written after the first `held` bytes.
#[inline(always)]
fn end_line<W, O: Output<W>>(
    output: &O,
    out: &mut Gathered,
    writer: &mut W,
    held: usize,
) -> Result<(), WriteFailed>
    requires held { held ≤ array_vec_len out.old.bytes }
    requires fits { array_vec_len out.old.bytes < held + 65536 }
    requires room { array_vec_len out.old.bytes < 66560 }
    requires empty { O.gathers ≡ false → held ≡ 0 }
    ensures puts { Puts O.writes O.flushes O.gathers result
        (line (drop held out.old.bytes.items)) (take held out.old.bytes.items)
        out.new.bytes.items writer.old writer.new }
    ensures short { OnOk result (array_vec_len out.new.bytes ≤ 65536) }
{
    out.bytes.push(b'\n');
    out.take_written(output, writer, held)
}

/// Sends all that was gathered, at the end of a listing.
#[tactic(auto, using(crate::proofs::ListingLemmas::Closes::closes_flush))]
pub fn close<W, O: Output<W>>(
    output: &O,
    out: &mut Gathered,
    writer: &mut W,
    status: Status,
) -> Finished
    requires status { status ≢ Status.WriteFault }
    requires empty { O.gathers ≡ false → out.old.bytes.items ≡ [] }
    ensures { Closes O.writes O.flushes O.gathers out.old.bytes.items
        (record { lines = []; status = status }) result writer.old writer.new }
{
    match out.send_all(output, writer) {
        Ok(()) => Finished {
            status,
            gone: false,
        },
        Err(failed) => Finished::of_failed(failed),
    }
}

/// Writes the last line of a listing, and sends all.
pub fn put_last_line<W, O: Output<W>>(
    output: &O,
    out: &mut Gathered,
    writer: &mut W,
    mut text: Line,
    status: Status,
) -> Finished
    requires short { array_vec_len text ≤ line_width }
    requires status { status ≢ Status.WriteFault }
    requires empty { O.gathers ≡ false → out.old.bytes.items ≡ [] }
    ensures { Closes O.writes O.flushes O.gathers out.old.bytes.items
        (record { lines = line text.items ∷ []; status = status })
        result writer.old writer.new }
{
    match put_line(output, out, writer, &mut text) {
        Ok(()) => close(output, out, writer, status),
        Err(failed) => Finished::of_failed(failed),
    }
}

/// Writes the line of an end, if it has one, and sends all.
pub fn end<W, O: Output<W>>(
    output: &O,
    out: &mut Gathered,
    writer: &mut W,
    ending: Ending,
) -> Finished
    requires { O.gathers ≡ false → out.old.bytes.items ≡ [] }
    ensures { Closes O.writes O.flushes O.gathers out.old.bytes.items (at_end ending) result
        writer.old writer.new }
{
    let mut text = Line::new();
    match ending {
        Ending::Clean => close(output, out, writer, Status::Done),
        Ending::Bad(position) => {
            text.extend(b"text error at ");
            text.push_u64(position);
            put_last_line(output, out, writer, text, Status::BadText)
        }
        Ending::Large => {
            text.extend(b"text too long");
            put_last_line(output, out, writer, text, Status::TooLarge)
        }
        Ending::Fault => {
            text.extend(b"read fault");
            put_last_line(output, out, writer, text, Status::ReadFault)
        }
    }
}

pub fn length_of(instruction: &Instruction) -> u64
    ensures { result ≡ length_of instruction.now }
{
    instruction.len().to_const()
}

/// The next entry of a listing: a line, or its end.
pub enum Entry {
    /// A line, and how many bytes of the image it is of.
    Line(u64),
    /// A refusal, which ends the listing.
    Refused(DecodeError),
    /// The end of the text.
    Ended(Ending),
    /// Nothing yet: what was read decides no more.
    Undecided,
}

/// What comes next in a listing, place by place, with room for `N` bytes in a line.
pub trait LineSource<const N: usize, P: Counter> {
    /// The listing of a text from a place on.
    ghost lists: { Self → Bool → ℕ → Text → Listing };

    /// What is listed of a text from a place on whatever follows it, and its end.
    ghost knows: { Self → Bool → ℕ → Text → Listing };

    /// The address at which the image begins.
    ghost base: { Self → ℕ };

    /// The next entry at a place. The text of a line is appended to what is held, without its end.
    fn next(
        &self,
        decoder: &InstDecoder,
        window: &Window,
        place: &P,
        inst: &mut Instruction,
        held: &mut Held,
    ) -> Entry
        requires room { array_vec_len held.old ≤ 65536 }
        requires base { P.base place.now ≡ base self.now }
        ensures next { (text : List ℕ) × Appends result text held.old.items held.new.items
            × IsEntry (lists self.now (is_strict decoder.now))
            (knows self.now (is_strict decoder.now)) result (P.place place.now) text
            window.now.ended window.now.bytes.items window.now.text.position
            window.now.text.room }
        ensures short { array_vec_len held.new < array_vec_len held.old + N };
}

/// The listing that ends at a refusal, with these lines.
#[derive(Drop)]
pub struct UpToRefusal<L: Lines + Drop> {
    pub lines: L,
}

impl<L: Lines + Drop> LineSource<LINE_ROOM, Place> for UpToRefusal<L> {
    ghost lists = { λ s strict place text. listing_at strict (L.text s.lines strict) place text };

    ghost knows = { λ s strict place text. listing_at strict (L.text s.lines strict) place text };

    ghost base = { λ s. 0 };

    #[tactic(auto, using(crate::proofs::ListingLemmas::NextEntry::entry_refused))]
    #[inline(always)]
    fn next(
        &self,
        decoder: &InstDecoder,
        window: &Window,
        place: &Place,
        inst: &mut Instruction,
        held: &mut Held,
    ) -> Entry {
        decoder_laws();
        match decode_next(window, decoder, inst) {
            None => Entry::Undecided,
            Some(Decoded::Whole(())) => {
                let length = length_of(inst);
                let bytes = window.bytes.as_slice();
                self.lines
                    .push(decoder, place, inst, &bytes[..length as usize], held);
                Entry::Line(length)
            }
            Some(Decoded::Refused(error)) => Entry::Refused(error),
            Some(Decoded::Ended(ending)) => Entry::Ended(ending),
        }
    }
}

/// Writes the listing of the reader's text. Each line is gathered as soon as it is decided. A read is made only where what
/// was read decides no more, once all that was gathered is sent. `first` is the first place.
pub fn list<const N: usize, P: Counter + Drop, C: LineSource<N, P>, E, O: Input<E> + Output<E>>(
    decoder: &InstDecoder,
    line_source: &C,
    first: P,
    max: u64,
    outside: &O,
    streams: &mut E,
) -> Finished
    requires size { N ≤ 1024 }
    requires first { P.place first ≡ 0 }
    requires base { P.base first ≡ C.base line_source.now }
    requires max { max < 2 ^ 62 }
    ensures { Performs O.reads O.writes O.flushes O.gathers (record {
      max = max;
      known = C.knows line_source.now (is_strict decoder.now) 0;
      lists = C.lists line_source.now (is_strict decoder.now) 0;
    }) result streams.old streams.new }
{
    let mut window = Window::new(max);
    let mut out = Gathered::new();
    let mut inst = Instruction::invalid();
    let mut place = first;
    'lines: loop {
        window.take_known();
        let held = out.bytes.len();
        match line_source.next(decoder, &window, &place, &mut inst, &mut out.bytes) {
            Entry::Line(length) => {
                match end_line(outside, &mut out, streams, held) {
                    Ok(()) => {}
                    Err(failed) => return Finished::of_failed(failed),
                }
                window.bytes.leave(length as usize);
                place.advance(length);
            }
            Entry::Undecided => {
                if !window.step() {
                    match out.send_all(outside, streams) {
                        Ok(()) => {}
                        Err(failed) => return Finished::of_failed(failed),
                    }
                    window.fill(outside, streams);
                }
            }
            Entry::Refused(error) => {
                let text = refusal_of(place.place(), error);
                return put_last_line(outside, &mut out, streams, text, Status::Refused);
            }
            Entry::Ended(ending) => return end(outside, &mut out, streams, ending),
        }
    }
}
