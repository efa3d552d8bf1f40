//! What a listing is written to.

ghost use Rattle.std.specs.Prelude.{◌≡◌, ℕ, List, Option, Result, ⊤};
ghost use Rattle.x86_streams.specs.Outside.Sink.{ReportsPut};
ghost use Rattle.x86_streams.specs.declared.outside.sink.SinkFailed.{SinkFailed};

/// The sink took no more.
#[derive(Clone, Copy, PartialEq, Eq, Debug, Drop)]
pub struct SinkFailed;

/// What is written to, piece by piece, and a count of the calls that failed, which stops at `u64::MAX`.
pub trait Sink {
    /// The bytes written, where they are known.
    ghost written: { Self → Option (List ℕ) };

    /// The count of faults.
    ghost faults: { Self → ℕ };

    /// What a put of a piece may answer, and what it may leave of the sink.
    ghost takes: { Self → List ℕ → Result ⊤ SinkFailed → Self → Type 0 };

    /// Appends the piece. A failed call appends a prefix of it.
    fn put(&mut self, piece: &[u8]) -> Result<(), SinkFailed>
        ensures { takes self.old piece.now result self.new };

    /// What a put says, where the sink's bytes are known.
    ghost reports: { (s : Self) (piece : List ℕ) (r : Result ⊤ SinkFailed) (t : Self) →
        takes s piece r t → ReportsPut r piece (written s) (written t) (faults s) (faults t) };
}

/// A sink that is lent: its calls are those of the sink.
impl<K: Sink> Sink for &mut K {
    ghost written = { λ s. K.written s.now };

    ghost faults = { λ s. K.faults s.now };

    ghost takes = { λ s piece r t. K.takes s.now piece r t.now × (t.ghost_name ≡ s.ghost_name) };

    ghost reports = { λ s piece r t h. K.reports s.now piece r t.now h.0 };

    fn put(&mut self, piece: &[u8]) -> Result<(), SinkFailed> {
        (**self).put(piece)
    }
}
