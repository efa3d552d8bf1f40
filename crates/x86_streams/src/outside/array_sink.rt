//! A sink of fixed size, of which a chosen put fails.

ghost use Rattle.std.specs.Prelude.{◌≡◌, Some, []};
ghost use Rattle.x86_streams.specs.Outside.Sink.{ReportsPut};
ghost use Rattle.x86_streams.specs.Outside.ByNumber.{PutByNumber, is_chosen};
ghost use Rattle.x86_streams.specs.Outside.Seen.{array_call, array_fails};

use crate::outside::sink::{Sink, SinkFailed};
use arrayvec::ArrayVec;

/// At most `N` bytes. The call with the number `fails`, from 0, fails and appends nothing; `u64::MAX` chooses no call.
/// A piece that doesn't fit is appended as far as it fits, and fails.
#[derive(Drop)]
pub struct ArraySink<const N: usize> {
    bytes: ArrayVec<u8, N>,
    fails: u64,
    call: u64,
    faults: u64,
}

impl<const N: usize> ArraySink<N> {
    /// A sink with nothing written, at its call 0.
    pub fn new(fails: u64) -> ArraySink<N>
        ensures bytes { ⟦<ArraySink<N> as Sink>⟧.written result ≡ Some [] }
        ensures sound { ⟦<ArraySink<N> as Sink>⟧.faults result ≡ 0 }
        ensures fails { array_fails result ≡ fails }
        ensures call { array_call result ≡ 0 }
    {
        ArraySink {
            bytes: ArrayVec::new(),
            fails,
            call: 0,
            faults: 0,
        }
    }

    /// The bytes written.
    pub fn written(&self) -> &[u8]
        ensures { ⟦<ArraySink<N> as Sink>⟧.written self.now ≡ Some result.now }
    {
        self.bytes.as_slice()
    }

    /// A count that rises by one with each call that fails, and stops at `u64::MAX`.
    pub fn faults(&self) -> u64
        ensures { result ≡ ⟦<ArraySink<N> as Sink>⟧.faults self.now }
    {
        self.faults
    }

    fn fails_now(&self) -> bool
        ensures { result ≡ is_chosen (array_call self.now) (array_fails self.now) }
    {
        self.call < u64::MAX && self.call == self.fails
    }
}

impl<const N: usize> Sink for ArraySink<N> {
    ghost written = { λ s. Some s.bytes.items };

    ghost faults = { λ s. s.faults };

    ghost takes = { λ s piece r t. ReportsPut r piece (Some s.bytes.items)
        (Some t.bytes.items) s.faults t.faults
        × PutByNumber r N piece s.bytes.items t.bytes.items (array_call s) (array_call t)
        (array_fails s) (array_fails t) };

    ghost reports = { λ s piece r t h. h.0 };

    fn put(&mut self, piece: &[u8]) -> Result<(), SinkFailed> {
        let failed = self.fails_now();
        self.call = self.call.saturating_add(1);
        if !failed {
            let fits = piece.len().min(self.bytes.remaining_capacity());
            let _ = self.bytes.try_extend_from_slice(&piece[..fits]);
            if fits == piece.len() {
                return Ok(());
            }
        }
        self.faults = self.faults.saturating_add(1);
        Err(SinkFailed)
    }
}
