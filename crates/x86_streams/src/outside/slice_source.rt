//! A source over a slice, of which chosen calls fail.

ghost use Rattle.std.specs.Prelude.{◌≡◌, Some};
ghost use Rattle.x86_streams.specs.Outside.Source.{ReportsGot};
ghost use Rattle.x86_streams.specs.Outside.ByNumber.{ByNumber};

use crate::outside::sound_source::SoundSource;
use crate::outside::source::{Got, Source};

/// The bytes of a slice. The calls whose numbers, from 0, are in `fails` answer `Failed`; the number of a call stops
/// at `u64::MAX`, and a call with that number doesn't fail.
#[derive(Drop)]
pub struct SliceSource<'a> {
    source: SoundSource<'a>,
    fails: &'a [u64],
    call: u64,
    faults: u64,
}

impl<'a> SliceSource<'a> {
    ghost use Rattle.x86_streams.specs.Outside.Seen.{slice_call, slice_fails};

    /// A source of these bytes, at its call 0.
    pub fn new(bytes: &'a [u8], fails: &'a [u64]) -> SliceSource<'a>
        ensures bytes { ⟦<SliceSource<'a> as Source>⟧.left result ≡ Some bytes.entry.now }
        ensures sound { ⟦<SliceSource<'a> as Source>⟧.faults result ≡ 0 }
        ensures fails { slice_fails result ≡ fails.entry.now }
        ensures call { slice_call result ≡ 0 }
    {
        SliceSource {
            source: SoundSource::new(bytes),
            fails,
            call: 0,
            faults: 0,
        }
    }

    /// A count that rises by one with each call that fails, and stops at `u64::MAX`.
    pub fn faults(&self) -> u64
        ensures { result ≡ ⟦<SliceSource<'a> as Source>⟧.faults self.now }
    {
        self.faults
    }
}

impl<'a> Source for SliceSource<'a> {
    ghost use Rattle.x86_streams.specs.Outside.Seen.{slice_call, slice_fails};

    ghost left = { λ s. Some s.source.bytes.now };

    ghost faults = { λ s. s.faults };

    ghost gives = { λ s g t. ReportsGot g (Some s.source.bytes.now)
        (Some t.source.bytes.now) s.faults t.faults
        × ByNumber g s.source.bytes.now (slice_call s) (slice_call t) (slice_fails s)
        (slice_fails t) };

    ghost reports = { λ s g t h. h.0 };

    fn next(&mut self) -> Got {
        let call = self.call;
        let failed = call < u64::MAX && self.fails.contains(&call);
        self.call = self.call.saturating_add(1);
        if failed {
            self.faults = self.faults.saturating_add(1);
            return Got::Failed;
        }
        self.source.next()
    }
}
