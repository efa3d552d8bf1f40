//! A sink over a writer.

ghost use Rattle.std.specs.Prelude.{◌≡◌};
ghost use Rattle.x86_streams.specs.Outside.Sink.{CountsPut, ReportsPut};
ghost use Rattle.x86_streams.specs.Outside.Chain.{PutsByWrites};
ghost use Rattle.x86_streams.specs.Outside.Seen.{sink_writer};

use crate::outside::output::Output;
use crate::outside::process::Process;
use crate::outside::sending::send_out;
use crate::outside::sink::{Sink, SinkFailed};
use std::io::Write;

/// Pieces that go to a writer. Its bytes are known where the writer's are. A write that takes none of a piece that
/// isn't empty fails, and one that a signal interrupts is made again.
#[derive(Drop)]
pub struct StdSink<W: Write + Drop> {
    writer: W,
    faults: u64,
}

impl<W: Write + Drop> StdSink<W> {
    /// A sink over the writer.
    pub fn new(writer: W) -> StdSink<W>
        ensures sound { ⟦<StdSink<W> as Sink>⟧.faults result ≡ 0 }
        ensures writer { sink_writer result ≡ writer }
    {
        StdSink { writer, faults: 0 }
    }

    /// Returns the writer.
    pub fn into_writer(self) -> W
        ensures { result ≡ sink_writer self }
    {
        self.writer
    }

    /// Puts a piece, by writes of `output`.
    #[inline(always)]
    fn put_by<O: Output<W>>(&mut self, output: &O, piece: &[u8]) -> Result<(), SinkFailed>
        ensures calls { PutsByWrites O.writes O.flushes result piece.now
            self.old.writer self.new.writer }
        ensures faults { CountsPut result self.old.faults self.new.faults }
    {
        if send_out(output, &mut self.writer, piece).1.is_err() {
            self.faults = self.faults.saturating_add(1);
            return Err(SinkFailed);
        }
        Ok(())
    }

    /// A count that rises by one with each put that fails, and stops at `u64::MAX`.
    pub fn faults(&self) -> u64
        ensures { result ≡ ⟦<StdSink<W> as Sink>⟧.faults self.now }
    {
        self.faults
    }
}

impl<W: Write + Drop> Sink for StdSink<W> {
    ghost written = { λ s. W.contents s.writer };

    ghost faults = { λ s. s.faults };

    ghost takes = { λ s piece r t. ReportsPut r piece (W.contents s.writer)
        (W.contents t.writer) s.faults t.faults
        × PutsByWrites ⟦<Process as Output<W>>⟧.writes ⟦<Process as Output<W>>⟧.flushes r piece
        s.writer t.writer };

    ghost reports = { λ s piece r t h. h.0 };

    #[inline(always)]
    fn put(&mut self, piece: &[u8]) -> Result<(), SinkFailed> {
        self.put_by(&Process, piece)
    }
}
