//! Laws of hex text, and of what calls of sources, sinks, readers and writers say.

ghost use Rattle.std.specs.Prelude.{◌≡◌, ◌↔◌, ℕ, IsTrue, List, [], ◌∷◌, Some, None, Result, false, true, ⊤};
ghost use Rattle.std.specs.Io.KnownBytes.{Keeps, ReadConsumes, WriteAppends, prepend_known};
ghost use Rattle.std.specs.Borrow.{MutBor};
ghost use Rattle.std.specs.declared.io.Error.{Error};
ghost use Rattle.x86_streams.specs.declared.outside.joined.Joined.{Joined};
ghost use Rattle.x86_streams.specs.Outside.Joined.{FlushesWriter, ReadsReader, WritesWriter};
ghost use Rattle.x86_streams.specs.Outside.ByNumber.{ByNumber, PutByNumber};
ghost use Rattle.x86_streams.specs.Outside.OneByOne.{HoldsNothing, PutsPiece, ReadsByte};
ghost use Rattle.x86_streams.specs.Outside.Seen.{slice_call, slice_fails, array_call, array_fails, sink_writer, source_reader, source_bytes};
ghost use Rattle.x86_streams.specs.Outside.Sink.{ReportsPut};
ghost use Rattle.x86_streams.specs.Outside.Chain.{Call, Read, Flush, Calls, PutsByWrites};
ghost use Rattle.x86_streams.specs.Outside.Order.{ListsFlush, ListsRead, ListsWrite};
ghost use Rattle.x86_streams.specs.Outside.Record.{IsRecordOf};
ghost use Rattle.x86_streams.specs.declared.outside.recorder.Record.{Record};
ghost use Rattle.x86_streams.specs.Outside.Source.{ReportsGot, ReturnsNext};
ghost use Rattle.x86_streams.specs.Text.Pairs.{SequencesAreSound, BadIsFirst};

use crate::{
    ArraySink, Got, Input, Joined, NullSink, OneByOne, Output, Process, Record, Recorder, Sink,
    SinkFailed, SliceSource, SoundSource, Source, StdSink, StdSource,
};
use std::io::{Read, Write};

/// No byte is bad exactly in a sequence of blanks and pairs.
#[tactic(auto, using(crate::proofs::TextLemmas::Pair::sequences_sound))]
pub fn sequences()
    ensures { SequencesAreSound }
{}

/// A bad place is the first: no beginning up to it has a bad byte.
pub fn first()
    ensures { BadIsFirst }
{}

/// A call of a source over a slice fails where its number was chosen; the others return the bytes, and then the end.
pub fn slices<'a>()
    ensures { (s t : SliceSource) (g : Got) → ⟦<SliceSource<'a> as Source>⟧.gives s g t →
        ByNumber g s.source.bytes.now (slice_call s) (slice_call t)
        (slice_fails s) (slice_fails t) }
{}

/// A put to an array fails where its number was chosen or its piece doesn't fit; any other appends its piece.
pub fn arrays<const N: usize>()
    ensures { (s t : ArraySink N) (piece : List ℕ) (r : Result ⊤ SinkFailed) →
        ⟦<ArraySink<N> as Sink>⟧.takes s piece r t →
        PutByNumber r N piece s.bytes.items t.bytes.items (array_call s) (array_call t)
        (array_fails s) (array_fails t) }
{}

/// No call of a `SoundSource` fails.
pub fn sources_of_slices<'a>()
    ensures no_faults { (s : SoundSource) → ⟦<SoundSource<'a> as Source>⟧.faults s ≡ 0 }
    ensures sound { (s t : SoundSource) (g : Got) → ⟦<SoundSource<'a> as Source>⟧.gives s g t →
        ReportsGot g (Some s.bytes.now) (Some t.bytes.now) 0 0 }
{}

/// The source over a reader has what it holds of the bytes that were read, and then those of the reader. It returns the
/// first that it holds, and reads where it holds none.
pub fn sources_of_readers<R: Read + Drop>()
    ensures left { (s : StdSource R _) → ⟦<StdSource<R> as Source>⟧.left s
        ≡ prepend_known (source_bytes s) (R.remaining (source_reader s)) }
    ensures calls { (s t : StdSource R _) (g : Got) → ⟦<StdSource<R> as Source>⟧.gives s g t
        → ReturnsNext ⟦<Process as Input<R>>⟧.reads (source_bytes s) g (source_bytes t)
        (source_reader s) (source_reader t) }
{}

/// The sink over a writer has what the writer has. A put writes its piece until all is written or a write fails: it appends
/// it to that or fails.
pub fn sinks_of_writers<W: Write + Drop>()
    ensures bytes { (k : StdSink W) →
        ⟦<StdSink<W> as Sink>⟧.written k ≡ W.contents (sink_writer k) }
    ensures takes { (k l : StdSink W) (piece : List ℕ) (r : Result ⊤ SinkFailed) →
        ⟦<StdSink<W> as Sink>⟧.takes k piece r l →
        ReportsPut r piece (W.contents (sink_writer k)) (W.contents (sink_writer l))
        (⟦<StdSink<W> as Sink>⟧.faults k) (⟦<StdSink<W> as Sink>⟧.faults l) }
    ensures calls { (k l : StdSink W) (piece : List ℕ) (r : Result ⊤ SinkFailed) →
        ⟦<StdSink<W> as Sink>⟧.takes k piece r l →
        PutsByWrites ⟦<Process as Output<W>>⟧.writes ⟦<Process as Output<W>>⟧.flushes r piece
        (sink_writer k) (sink_writer l) }
{}

/// A read of the process takes the next of the bytes that std's contract says are left.
pub fn readers<R: Read>()
    ensures { (s t : R) (buffer : List ℕ) (r : Result ℕ Error) →
        ⟦<Process as Input<R>>⟧.reads s buffer r t
        → ReadConsumes (R.remaining s) (R.remaining t) r buffer }
{}

/// A write of the process appends the bytes that it took to those that std's contract says are written, and a flush
/// none. Pieces are gathered before a write.
pub fn writers<W: Write>()
    ensures writes { (s t : W) (bytes : List ℕ) (r : Result ℕ Error) →
        ⟦<Process as Output<W>>⟧.writes s bytes r t
        → WriteAppends (W.contents s) (W.contents t) r bytes }
    ensures flushes { (s t : W) (r : Result ⊤ Error) →
        ⟦<Process as Output<W>>⟧.flushes s r t → Keeps (W.contents s) (W.contents t) }
    ensures gathers { ⟦<Process as Output<W>>⟧.gathers ≡ true }
{}

/// One by one, a read is a call of the source, a write a put, and a flush nothing. No piece is gathered.
pub fn one_by_one<S: Source, K: Sink>()
    ensures reads { (s t : S) (buffer : List ℕ) (r : Result ℕ Error) →
        ⟦<OneByOne as Input<S>>⟧.reads s buffer r t → ReadsByte S.gives s buffer r t }
    ensures writes { (k l : K) (bytes : List ℕ) (r : Result ℕ Error) →
        ⟦<OneByOne as Output<K>>⟧.writes k bytes r l → PutsPiece K.takes k bytes r l }
    ensures flushes { (k l : K) (r : Result ⊤ Error) →
        ⟦<OneByOne as Output<K>>⟧.flushes k r l → HoldsNothing k r l }
    ensures gathers { ⟦<OneByOne as Output<K>>⟧.gathers ≡ false }
{}

/// A call of a reader and a writer that are joined is one of that which it is of, and leaves the other.
pub fn joined<R: Read, W: Write, S: Source, K: Sink>()
    ensures reads { (s t : Joined R W) (buffer : List ℕ) (r : Result ℕ Error) →
        ⟦<Process as Input<Joined<R, W>>>⟧.reads s buffer r t
        → ReadsReader ⟦<Process as Input<R>>⟧.reads s buffer r t }
    ensures writes { (s t : Joined R W) (bytes : List ℕ) (r : Result ℕ Error) →
        ⟦<Process as Output<Joined<R, W>>>⟧.writes s bytes r t
        → WritesWriter ⟦<Process as Output<W>>⟧.writes s bytes r t }
    ensures flushes { (s t : Joined R W) (r : Result ⊤ Error) →
        ⟦<Process as Output<Joined<R, W>>>⟧.flushes s r t
        → FlushesWriter ⟦<Process as Output<W>>⟧.flushes s r t }
    ensures gathers { ⟦<Process as Output<Joined<R, W>>>⟧.gathers ≡ true }
    ensures gives { (s t : Joined S K) (buffer : List ℕ) (r : Result ℕ Error) →
        ⟦<OneByOne as Input<Joined<S, K>>>⟧.reads s buffer r t
        → ReadsReader (ReadsByte S.gives) s buffer r t }
    ensures takes { (s t : Joined S K) (bytes : List ℕ) (r : Result ℕ Error) →
        ⟦<OneByOne as Output<Joined<S, K>>>⟧.writes s bytes r t
        → WritesWriter (PutsPiece K.takes) s bytes r t }
    ensures holds_nothing { (s t : Joined S K) (r : Result ⊤ Error) →
        ⟦<OneByOne as Output<Joined<S, K>>>⟧.flushes s r t
        → FlushesWriter HoldsNothing s r t }
    ensures at_once { ⟦<OneByOne as Output<Joined<S, K>>>⟧.gathers ≡ false }
{}

/// Over a record, the calls of a chain are those that were made, in their order, failed and interrupted ones too.
pub fn recorded<E, P: Input<E> + Output<E>, const CALLS: usize, const BYTES: usize>()
    ensures calls { (cs : List Call) (s t : Record E CALLS BYTES) →
        Calls ⟦<Recorder<P> as Input<Record<E, CALLS, BYTES>>>⟧.reads
        ⟦<Recorder<P> as Output<Record<E, CALLS, BYTES>>>⟧.writes
        ⟦<Recorder<P> as Output<Record<E, CALLS, BYTES>>>⟧.flushes cs s t
        → IsRecordOf cs s t }
    ensures gathers { ⟦<Recorder<P> as Output<Record<E, CALLS, BYTES>>>⟧.gathers ≡ P.gathers }
{}

/// A source and a sink that are lent have what they have, and their calls are those of them.
pub fn lent<'a, S: Source, K: Sink>()
    ensures left { (s : MutBor S) → ⟦<&'a mut S as Source>⟧.left s ≡ S.left s.now }
    ensures source_faults { (s : MutBor S) → ⟦<&'a mut S as Source>⟧.faults s ≡ S.faults s.now }
    ensures gives { (s t : MutBor S) (g : Got) → ⟦<&'a mut S as Source>⟧.gives s g t
        → S.gives s.now g t.now × (t.ghost_name ≡ s.ghost_name) }
    ensures written { (k : MutBor K) → ⟦<&'a mut K as Sink>⟧.written k ≡ K.written k.now }
    ensures sink_faults { (k : MutBor K) → ⟦<&'a mut K as Sink>⟧.faults k ≡ K.faults k.now }
    ensures takes { (k l : MutBor K) (piece : List ℕ) (r : Result ⊤ SinkFailed)
        → ⟦<&'a mut K as Sink>⟧.takes k piece r l
        → K.takes k.now piece r l.now × (l.ghost_name ≡ k.ghost_name) }
{}

/// Calls have one order: where a flush and then a read led from one state to another, a read and then a flush need not.
pub fn calls_have_an_order()
    ensures flushed_first { Calls ListsRead ListsWrite ListsFlush
        (Read [] (Ok 0) ∷ Flush (Ok tt) ∷ []) [] (1 ∷ 3 ∷ []) }
    ensures not_read_first { Calls ListsRead ListsWrite ListsFlush
        (Flush (Ok tt) ∷ Read [] (Ok 0) ∷ []) [] (1 ∷ 3 ∷ []) → ⊥ }
{}

/// The bytes of a `NullSink` aren't known, and none of its puts fails.
pub fn sinks_of_nothing()
    ensures unknown { (k : NullSink) → ⟦<NullSink as Sink>⟧.written k ≡ None }
    ensures no_faults { (k : NullSink) → ⟦<NullSink as Sink>⟧.faults k ≡ 0 }
    ensures takes { (k l : NullSink) (piece : List ℕ) (r : Result ⊤ SinkFailed) →
        ⟦<NullSink as Sink>⟧.takes k piece r l → ReportsPut r piece None None 0 0 }
{}

/// The answers of a source, and the refusals of a sink, are equal exactly where they are the same.
pub fn values_are_equal()
    ensures answers { (a b : Got) → IsTrue (⟦<Got as PartialEq>⟧.eq a b) ↔ (a ≡ b) }
    ensures refusals { (a b : SinkFailed) → IsTrue (⟦<SinkFailed as PartialEq>⟧.eq a b) ↔ (a ≡ b) }
{}
