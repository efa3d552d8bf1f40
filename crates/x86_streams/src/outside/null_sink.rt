//! A sink that takes everything.

ghost use Rattle.std.specs.Prelude.{◌≡◌, None};
ghost use Rattle.x86_streams.specs.Outside.Sink.{ReportsPut};

use crate::outside::sink::{Sink, SinkFailed};

/// Takes everything; its bytes aren't known.
#[derive(Drop)]
pub struct NullSink;

impl NullSink {
    /// A sink that never fails.
    pub fn new() -> NullSink {
        NullSink
    }
}

impl Sink for NullSink {
    ghost written = { λ s. None };

    ghost faults = { λ s. 0 };

    ghost takes = { λ s piece r t. ReportsPut r piece None None 0 0 };

    ghost reports = { λ s piece r t h. h };

    fn put(&mut self, _piece: &[u8]) -> Result<(), SinkFailed>
        ensures takes { ⟦<NullSink as Sink>⟧.takes self.old _piece.now result self.new }
        ensures sound { result ≡ Ok tt }
    {
        Ok(())
    }
}
