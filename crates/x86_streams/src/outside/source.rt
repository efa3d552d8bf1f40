//! What a text is read from.

ghost use Rattle.std.specs.Prelude.{◌≡◌, ℕ, List, Option};
ghost use Rattle.x86_streams.specs.Outside.Source.{ReportsGot};
ghost use Rattle.x86_streams.specs.declared.outside.source.Got.{Got};

/// What a call of a source returns.
#[derive(Clone, Copy, PartialEq, Eq, Debug, Drop)]
pub enum Got {
    /// The next byte, which was taken.
    Byte(u8),
    /// No byte is left.
    End,
    /// The call failed and took no byte; a later one may succeed.
    Failed,
}

/// Bytes that are taken one by one, and a count of the calls that failed, which stops at `u64::MAX`.
pub trait Source {
    /// The bytes left, where they are known.
    ghost left: { Self → Option (List ℕ) };

    /// The count of faults.
    ghost faults: { Self → ℕ };

    /// What a call may answer, and what it may leave of the source.
    ghost gives: { Self → Got → Self → Type 0 };

    /// The first byte left, if the source doesn't fail. A failed call takes no byte.
    fn next(&mut self) -> Got
        ensures { gives self.old result self.new };

    /// What a call says, where the source's bytes are known.
    ghost reports: { (s : Self) (g : Got) (t : Self) → gives s g t →
        ReportsGot g (left s) (left t) (faults s) (faults t) };
}

/// A source that is lent: its calls are those of the source.
impl<S: Source> Source for &mut S {
    ghost left = { λ s. S.left s.now };

    ghost faults = { λ s. S.faults s.now };

    ghost gives = { λ s g t. S.gives s.now g t.now × (t.ghost_name ≡ s.ghost_name) };

    ghost reports = { λ s g t h. S.reports s.now g t.now h.0 };

    fn next(&mut self) -> Got {
        (**self).next()
    }
}
