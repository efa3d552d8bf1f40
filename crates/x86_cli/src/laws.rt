//! Laws of listings and runs, and those of the decoder on which the window rests. The laws of hex text, and of what
//! calls of sources and sinks say, are those of x86_streams.

ghost use Rattle.std.specs.Prelude.{◌≡◌, ◌≢◌, ◌↔◌, ℕ, ◌+◌, ◌≤◌, Bool, IsTrue, true, false, List, Option, length};
ghost use Rattle.x86_decode.specs.declared.instructions.Instruction.{Instruction};
ghost use Rattle.x86_decode.specs.Grammar.{Decides, IsSentence};
ghost use Rattle.x86_decode.specs.Head.{Rows};
ghost use Rattle.x86_decode.specs.Instruction.{length_of};
ghost use Rattle.x86_fields.specs.Linear.{raw_form, value_at};
ghost use Rattle.x86_fields.specs.declared.errors.DecodeError.{DecodeError};
ghost use Rattle.x86_fields.specs.declared.raw.Raw.{Raw};
ghost use Rattle.x86_forms.specs.Rows.{printed_row};
ghost use Rattle.x86_forms.specs.Words.{rows_of, packed};
ghost use Rattle.x86_layout.specs.Parts.OfBytes.{parts_of};
ghost use Rattle.x86_layout.specs.Sweeps.Cuts.{cuts_from};
ghost use Rattle.x86_layout.specs.Tightening.Least.{shortest_length};
ghost use Rattle.x86_layout.specs.declared.sweeps.cuts.Cut.{Cut};
ghost use Rattle.x86_text.specs.Lines.{line_of};
ghost use Rattle.x86_text.specs.Parts.{fields_line};
ghost use Rattle.x86_cli.specs.Addresses.{encoded_address};
ghost use Rattle.x86_cli.specs.DecoderLaws.{DecoderLaws};
ghost use Rattle.x86_cli.specs.Commands.Command.{goes_past_refusals};
ghost use Rattle.x86_cli.specs.Commands.Request.{Runs, task_of, up_to_refusal};
ghost use Rattle.x86_cli.specs.Commands.Complete.{CompletesTexts};
ghost use Rattle.x86_cli.specs.Commands.Follows.{IsExact, HasReadFault, Completes};
ghost use Rattle.x86_cli.specs.Listings.Certain.{AwaitsMore, BeforeReads, KnowsAll, SentAllCertain};
ghost use Rattle.x86_cli.specs.Listings.Grammar.{AreCuts, IsListing};
ghost use Rattle.x86_cli.specs.Functions.{functions};
ghost use Rattle.x86_cli.specs.Consequences.{AreSame, Consequences};
ghost use Rattle.x86_cli.specs.Headline.{Functions, Headline};
ghost use Rattle.x86_cli.specs.Sentences.{Encodes, HasError};
ghost use Rattle.x86_cli.specs.declared.listings.fields.FieldLines.{FieldLines};
ghost use Rattle.x86_cli.specs.declared.listings.line.Plain.{Plain};
ghost use Rattle.x86_cli.specs.declared.listings.listing.UpToRefusal.{UpToRefusal};
ghost use Rattle.x86_cli.specs.declared.listings.sweep.PastRefusals.{PastRefusals};
ghost use Rattle.x86_cli.specs.declared.listings.tightening.LeastLines.{LeastLines};
ghost use Rattle.x86_cli.specs.Listings.Listing.{Listing, LinesLeaveStatus, listing_at};
ghost use Rattle.x86_cli.specs.Listings.Sweep.{known_sweep_at, sweep_at};
ghost use Rattle.x86_cli.specs.Listings.Tighten.{least_text};
ghost use Rattle.x86_streams.specs.Text.{Text};
ghost use Rattle.x86_cli.specs.Commands.Make.{made_listing};
ghost use Rattle.x86_cli.specs.Commands.Program.{EndsAt, Has, Leaves};
ghost use Rattle.x86_cli.specs.Listings.Performs.{Performs, Task};
ghost use Rattle.x86_streams.specs.Outside.Record.{IsRecordOf};
ghost use Rattle.x86_streams.specs.declared.outside.recorder.Record.{Record};
ghost use Rattle.x86_streams.specs.Outside.Chain.{WriterCalls, received, stop_of};
ghost use Rattle.x86_cli.specs.Commands.Says.{Makes, Says, Streams, streams_of};
ghost use Rattle.x86_streams.specs.Outside.FaultCounts.{Rose};
ghost use Rattle.x86_streams.specs.declared.outside.joined.Joined.{Joined};

pub mod worked;

use crate::commands::command::Command;
use crate::commands::program::Program;
use crate::commands::request::Request;
use crate::listings::fields::FieldLines;
use crate::listings::line::{Lines, Plain};
use crate::listings::listing::{LineSource, UpToRefusal};
use crate::listings::status::{Finished, Status};
use crate::listings::sweep::PastRefusals;
use crate::listings::tightening::LeastLines;
use std::io::{Read, Write};
use x86_decode::laws;
pub use x86_streams::laws::{first, sequences};
use x86_streams::{
    Got, Input, Joined, Output, Process, Record, Recorder, Sink, SinkFailed, Source,
};
use x86_text::{LINE_ROOM, Place};

/// The headline, under either choice: what is proved of every byte string, of every run over a source and a sink, and of
/// what the program leaves of a reader and a writer whose bytes are known.
pub fn headline<S: Source, K: Sink, R: Read, W: Write>()
    ensures bytes { (strict : Bool) → Headline printed_row strict (functions strict) }
    ensures runs { (c : Command) (status : Status) (a b : Joined S K)
        → Runs S.gives K.takes (Request.Reads c) status a b
        → Says status c (streams_of S.left S.faults K.written K.faults a)
        (streams_of S.left S.faults K.written K.faults b) }
    ensures program { (c : Command) (outcome : Finished) (s t : Joined R W) →
        Performs ⟦<Process as Input<Joined<R, W>>>⟧.reads
        ⟦<Process as Output<Joined<R, W>>>⟧.writes
        ⟦<Process as Output<Joined<R, W>>>⟧.flushes true (task_of (Request.Reads c)) outcome s t
        → Leaves outcome.status c (R.remaining s.reader) (W.contents s.writer)
        (W.contents t.writer) }
{
    headline_of_bytes();
    decoder_laws();
    program::<R, W>();
}

/// The headline, as far as it is of bytes.
fn headline_of_bytes()
    ensures { (strict : Bool) → Headline printed_row strict (functions strict) }
{
    laws::answer_is();
    laws::one_answer();
    laws::lengths();
    laws::decided_bytes_are_refused();
    addresses_are_by_the_bits();
    x86_forms::laws::printed_words_are_the_printed_rows();
    x86_layout::laws::memory_operands_have_their_address();
    x86_layout::laws::parts_are_those_of_the_bytes();
    x86_layout::laws::permitted_fields_are_the_parts_of_sentences();
    x86_layout::laws::shortest_relatives_have_the_least_length();
    x86_layout::laws::relatives_are_the_same_instruction();
}

/// What follows of the headline. It fixes its functions: any that have it agree wherever it speaks of them. And what the
/// fields together say of answers, listings, parts and relatives holds of any functions that have it over the printed rows.
pub fn consequences()
    ensures same { (rows : Rows) (strict : Bool) (does other : Functions)
        → Headline rows strict does → Headline rows strict other → AreSame rows strict does other }
    ensures follow { (strict : Bool) (does : Functions) → Headline printed_row strict does
        → Consequences printed_row strict does }
{
    headline_of_bytes();
    by_grammar();
    laws::answer_is();
    laws::lengths();
    laws::decided_bytes_are_refused();
    x86_forms::laws::printed_words_are_the_printed_rows();
    x86_layout::laws::permitted_fields_are_split_again();
    x86_layout::laws::accepted_encodings_are_emitted_again();
    x86_layout::laws::relatives_are_the_same_instruction();
}

/// The sentences of the headline, over any rows, are those of the grammar of x86_decode, and the bytes that have an error are
/// those that decide it there.
pub fn sentences()
    ensures sentences { (rows : Rows) (strict : Bool) (s : List ℕ) (i : Instruction)
        → IsSentence rows strict s i ↔ Encodes rows strict true s i }
    ensures errors { (rows : Rows) (strict : Bool) (q : List ℕ) (e : DecodeError)
        → Decides rows strict q e ↔ HasError rows strict q e }
{}

/// The value of the form of raw fields is the address that their bits encode.
#[tactic(auto, using(crate::proofs::AddressLemmas::by_the_bits))]
pub fn addresses_are_by_the_bits()
    ensures { (raw : Raw) (regs : List ℕ) (next : ℕ)
        → value_at (raw_form raw) regs next ≡ encoded_address raw regs next }
{}

/// The line of each command, the listing of each of the two line sources and where it begins, what is known of that as the
/// text is read, and the task of each request.
pub fn commands_have_their_lines<L: Lines + Drop>()
    ensures list { (l : Plain) (strict : Bool) (place : ℕ) (i : Instruction) (bytes : List ℕ) →
        ⟦<Plain as Lines>⟧.text l strict place i bytes ≡ line_of place i }
    ensures fields { (l : FieldLines) (strict : Bool) (place : ℕ) (i : Instruction)
        (bytes : List ℕ) → ⟦<FieldLines as Lines>⟧.text l strict place i bytes
        ≡ fields_line place (parts_of strict bytes) }
    ensures tighten { (l : LeastLines) (strict : Bool) (place : ℕ) (i : Instruction)
        (bytes : List ℕ) → ⟦<LeastLines as Lines>⟧.text l strict place i bytes
        ≡ least_text place (length_of i) (shortest_length strict bytes) }
    ensures up_to_refusal { (c : UpToRefusal L) (strict : Bool) (place : ℕ) (t : Text) →
        ⟦<UpToRefusal<L> as LineSource<LINE_ROOM, Place>>⟧.lists c strict place t
        ≡ listing_at strict (L.text c.lines strict) place t }
    ensures known_up_to_refusal { (c : UpToRefusal L) (strict : Bool) (place : ℕ) (t : Text) →
        ⟦<UpToRefusal<L> as LineSource<LINE_ROOM, Place>>⟧.knows c strict place t
        ≡ listing_at strict (L.text c.lines strict) place t }
    ensures past_refusals { (c : PastRefusals) (strict : Bool) (place : ℕ) (t : Text) →
        ⟦<PastRefusals as LineSource<LINE_ROOM, Place>>⟧.lists c strict place t
        ≡ sweep_at strict place t }
    ensures known_past_refusals { (c : PastRefusals) (strict : Bool) (place : ℕ) (t : Text) →
        ⟦<PastRefusals as LineSource<LINE_ROOM, Place>>⟧.knows c strict place t
        ≡ known_sweep_at strict place t }
    ensures base { (c : UpToRefusal L) →
        ⟦<UpToRefusal<L> as LineSource<LINE_ROOM, Place>>⟧.base c ≡ 0 }
    ensures sweep_base { (c : PastRefusals) →
        ⟦<PastRefusals as LineSource<LINE_ROOM, Place>>⟧.base c ≡ 0 }
    ensures tasks { (request : Request) → ⟦<Request as Program>⟧.task request ≡ task_of request }
{}

/// A listing ends with the same status whatever its lines are, as those of `list` and `fields` do.
#[tactic(auto, using(crate::proofs::ListingLemmas::Listing::lines_leave_status))]
pub fn statuses()
    ensures { LinesLeaveStatus }
{}

/// The listing of a text is the one that the grammar has: a line for each sentence, one after the other, and then what
/// ends it. The cuts of bytes are the grammar's too: each sentence, and each byte at which none begins.
pub fn by_grammar()
    ensures listing { (strict : Bool) (text : ℕ → Instruction → List ℕ → List ℕ)
        (place : ℕ) (t : Text) (l : Listing)
        → IsListing (rows_of packed) strict text place t.image t.ending l
        ↔ (l ≡ listing_at strict text place t) }
    ensures cuts { (strict : Bool) (place : ℕ) (bytes : List ℕ) (cs : List Cut)
        → AreCuts (rows_of packed) strict place bytes cs ↔ (cs ≡ cuts_from strict place bytes) }
{
    laws::lengths();
    laws::answer_is();
}

/// What is known of a text before a read is all that is certain: the listing of every text that goes on so begins with these
/// lines, and with no more. So it is up to a refusal, and of `sweep` where at least thirty bytes of text may still come.
/// Before each read of a command the listing wasn't decided, and what had been written was flushed; of all but `targets`,
/// which lists once the text has ended, that was all that is certain.
pub fn known_is_all<E, O: Input<E> + Output<E>>()
    ensures up_to_refusal { (strict : Bool) (text : ℕ → Instruction → List ℕ → List ℕ)
        (bytes : List ℕ) → KnowsAll (up_to_refusal strict text) bytes }
    ensures sweep { (bytes : List ℕ) → length bytes + 30 ≤ 67108864
        → KnowsAll (task_of (Request.Reads Command.Sweep)) bytes }
    ensures awaits { (c : Command) (outcome : Finished) (s t : E)
        → (h : Performs O.reads O.writes O.flushes O.gathers (task_of (Request.Reads c)) outcome
        s t)
        → BeforeReads (AwaitsMore (task_of (Request.Reads c))) h.calls }
    ensures listed { (c : Command) (outcome : Finished) (s t : E)
        → goes_past_refusals c ≡ false
        → (h : Performs O.reads O.writes O.flushes O.gathers (task_of (Request.Reads c)) outcome
        s t)
        → BeforeReads (SentAllCertain (task_of (Request.Reads c))) h.calls }
    ensures swept { (outcome : Finished) (s t : E)
        → (h : Performs O.reads O.writes O.flushes O.gathers
        (task_of (Request.Reads Command.Sweep)) outcome s t)
        → BeforeReads (λ cs. length (received cs) + 30 ≤ 67108864
        → SentAllCertain (task_of (Request.Reads Command.Sweep)) cs) h.calls }
{
    decoder_laws();
    laws::lengths();
}

/// What the window needs of the decoder, under either choice.
pub fn decoder_laws()
    ensures { (strict : Bool) → DecoderLaws strict }
{
    laws::answer_is();
    laws::answers_of_more();
    laws::lengths();
    laws::fifteen_are_enough();
    laws::empty_input();
}

/// The answers of a source, the refusals of a sink, and statuses are equal exactly where they are the same.
pub fn values_are_equal()
    ensures answers { (a b : Got) → IsTrue (⟦<Got as PartialEq>⟧.eq a b) ↔ (a ≡ b) }
    ensures refusals { (a b : SinkFailed) → IsTrue (⟦<SinkFailed as PartialEq>⟧.eq a b) ↔ (a ≡ b) }
    ensures statuses { (a b : Status) → IsTrue (⟦<Status as PartialEq>⟧.eq a b) ↔ (a ≡ b) }
{
    x86_streams::laws::values_are_equal();
}

/// What a run of `make` says, where the sink's bytes are known. It makes no call but writes and flushes, so it leaves a
/// source, and a reader, as they were.
pub fn made<E, O: Input<E> + Output<E>, S: Source, K: Sink>()
    ensures says { (n : ℕ) (status : Status) (a b : Joined S K)
        → Runs S.gives K.takes (Request.Makes n) status a b
        → (b.reader ≡ a.reader) × Makes n status (K.written a.writer) (K.written b.writer)
        (K.faults a.writer) (K.faults b.writer) }
    ensures unread { (n : ℕ) (outcome : Finished) (s t : E)
        → (h : Performs O.reads O.writes O.flushes O.gathers (task_of (Request.Makes n)) outcome
        s t)
        → WriterCalls O.writes O.flushes h.calls s t }
{}

/// Where the source's bytes are known and neither count of faults rose, a run ends with a status exactly where the
/// listing of all the bytes does.
#[tactic(auto, using(crate::proofs::CommandLemmas::Says::exact))]
pub fn exact()
    ensures { (c : Command) (status : Status) (old new : Streams)
        → Says status c old new → IsExact status c old new }
{}

/// A read fault comes only where the source's count rose, and the listing of the bytes taken reaches it.
#[tactic(auto, using(crate::proofs::CommandLemmas::Says::has_read_fault))]
pub fn read_faults()
    ensures { (c : Command) (status : Status) (old new : Streams)
        → Says status c old new → HasReadFault status c old new }
{}

/// A write fault comes only where the sink's count rose.
pub fn write_faults()
    ensures reads { (c : Command) (old new : Streams)
        → Says Status.WriteFault c old new → Rose old.sink_faults new.sink_faults }
    ensures made { (n : ℕ) (written later : Option (List ℕ)) (old new : ℕ)
        → Makes n Status.WriteFault written later old new → Rose old new }
{}

/// `sweep` and `targets` are never refused.
pub fn unrefused<S: Source, K: Sink>()
    ensures { (c : Command) (status : Status) (a b : Joined S K)
        → Runs S.gives K.takes (Request.Reads c) status a b
        → IsTrue (goes_past_refusals c) → status ≢ Status.Refused }
{}

/// Where a command goes through the image of a clean text, its listing ends as done. So where the source is known to
/// have such a text and neither count of faults rose, the run is done and has written the whole listing.
#[tactic(auto, using(crate::proofs::CommandLemmas::Causes::text_done, crate::proofs::CommandLemmas::Says::completes))]
pub fn complete()
    ensures listing { CompletesTexts }
    ensures run { (c : Command) (status : Status) (old new : Streams)
        → Says status c old new → Completes status c old new }
{
    decoder_laws();
}

/// How the reads of a command ended: `Done` comes only after a read that returned no byte, `ReadFault` only where the
/// last read answered an error, `Refused`, `BadText` and `TooLarge` only where none did. So it is of the calls of a
/// source.
pub fn ends<E, O: Input<E> + Output<E>, S: Source, K: Sink>()
    ensures listed { (c : Command) (outcome : Finished) (s t : E)
        → (h : Performs O.reads O.writes O.flushes O.gathers (task_of (Request.Reads c)) outcome
        s t)
        → EndsAt outcome.status (stop_of h.calls) }
    ensures run { (c : Command) (status : Status) (a b : Joined S K)
        → (h : Runs S.gives K.takes (Request.Reads c) status a b)
        → EndsAt status (stop_of h.1.calls) }
{}

/// Over a record of all calls, those that `Performs` speaks of are the calls that were made, and no others.
pub fn recorded<E, P: Input<E> + Output<E>, const CALLS: usize, const BYTES: usize>()
    ensures { (task : Task) (outcome : Finished) (s t : Record E CALLS BYTES)
        → (h : Performs ⟦<Recorder<P> as Input<Record<E, CALLS, BYTES>>>⟧.reads
        ⟦<Recorder<P> as Output<Record<E, CALLS, BYTES>>>⟧.writes
        ⟦<Recorder<P> as Output<Record<E, CALLS, BYTES>>>⟧.flushes P.gathers task outcome s t)
        → IsRecordOf h.calls s t }
{
    x86_streams::laws::recorded::<E, P, CALLS, BYTES>();
}

/// What `listed` leaves, where the bytes that the reader has left and those that the writer has are known: the
/// writer has what it had and then the listing of these bytes, or a prefix of that where a write failed.
pub fn program<R: Read, W: Write>()
    ensures lists { (c : Command) (outcome : Finished) (s t : Joined R W) →
        Performs ⟦<Process as Input<Joined<R, W>>>⟧.reads
        ⟦<Process as Output<Joined<R, W>>>⟧.writes
        ⟦<Process as Output<Joined<R, W>>>⟧.flushes true (task_of (Request.Reads c)) outcome s t
        → Leaves outcome.status c (R.remaining s.reader) (W.contents s.writer)
        (W.contents t.writer) }
    ensures made { (n : ℕ) (outcome : Finished) (s t : Joined R W) →
        Performs ⟦<Process as Input<Joined<R, W>>>⟧.reads
        ⟦<Process as Output<Joined<R, W>>>⟧.writes
        ⟦<Process as Output<Joined<R, W>>>⟧.flushes true (task_of (Request.Makes n)) outcome s t
        → Has outcome.status (made_listing n) (W.contents s.writer) (W.contents t.writer) }
{
    decoder_laws();
}
