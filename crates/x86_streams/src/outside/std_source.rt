//! A source over a reader.

ghost use Rattle.std.specs.Prelude.{◌≡◌, ◌≤◌, []};
ghost use Rattle.std.specs.Io.KnownBytes.{prepend_known};
ghost use Rattle.x86_streams.specs.Outside.Source.{CountsFailed, ReportsGot, ReturnsNext};

use crate::outside::input::{Input, read_some};
use crate::outside::process::Process;
use crate::outside::source::{Got, Source};
use std::io::Read;

/// How many bytes one read may return.
const BUFFER: usize = 65536;

/// The bytes of a reader, one read a buffer. Its bytes are known where the reader's are: first what is buffered, then
/// those of the reader. A read that returns no byte is the end. One that a signal interrupts is made again.
#[derive(Drop)]
pub struct StdSource<R: Read + Drop> {
    reader: R,
    buffer: [u8; BUFFER],
    position: usize,
    filled: usize,
    faults: u64,
    ghost in_range: { filled ≤ 65536 },
    ghost in_order: { position ≤ filled },
}

impl<R: Read + Drop> StdSource<R> {
    ghost use Rattle.x86_streams.specs.Outside.Seen.{source_reader, source_bytes};

    /// A source over the reader, with nothing read.
    pub fn new(reader: R) -> StdSource<R>
        ensures bytes { ⟦<StdSource<R> as Source>⟧.left result ≡ R.remaining reader }
        ensures sound { ⟦<StdSource<R> as Source>⟧.faults result ≡ 0 }
        ensures reader { source_reader result ≡ reader }
        ensures empty { source_bytes result ≡ [] }
    {
        StdSource {
            reader,
            buffer: [0; BUFFER],
            position: 0,
            filled: 0,
            faults: 0,
        }
    }

    /// Returns the reader. What is still buffered is dropped.
    pub fn into_reader(self) -> R
        ensures { result ≡ source_reader self }
    {
        self.reader
    }

    /// A count that rises by one with each read that fails, and stops at `u64::MAX`.
    pub fn faults(&self) -> u64
        ensures { result ≡ ⟦<StdSource<R> as Source>⟧.faults self.now }
    {
        self.faults
    }

    /// Reads on, where no byte of the buffer is left, and returns the first byte that was read.
    #[cold]
    #[inline(never)]
    fn refill<I: Input<R>>(&mut self, input: &I) -> Got
        requires { self.old.position ≡ self.old.filled }
        ensures calls { ReturnsNext I.reads (source_bytes self.old) result (source_bytes self.new)
            self.old.reader self.new.reader }
        ensures faults { CountsFailed result self.old.faults self.new.faults }
    {
        match read_some(input, &mut self.reader, &mut self.buffer) {
            Ok(0) => Got::End,
            Ok(count) => {
                self.position = 1;
                self.filled = count;
                Got::Byte(self.buffer[0])
            }
            Err(_) => {
                self.faults = self.faults.saturating_add(1);
                Got::Failed
            }
        }
    }

    /// The next byte, by reads of `input`.
    #[inline(always)]
    fn next_by<I: Input<R>>(&mut self, input: &I) -> Got
        ensures calls { ReturnsNext I.reads (source_bytes self.old) result (source_bytes self.new)
            self.old.reader self.new.reader }
        ensures faults { CountsFailed result self.old.faults self.new.faults }
    {
        if self.position == self.filled {
            return self.refill(input);
        }
        let byte = self.buffer[self.position];
        self.position += 1;
        Got::Byte(byte)
    }
}

impl<R: Read + Drop> Source for StdSource<R> {
    ghost use Rattle.x86_streams.specs.Outside.Seen.{source_bytes};

    ghost left = { λ s. prepend_known (source_bytes s) (R.remaining s.reader) };

    ghost faults = { λ s. s.faults };

    ghost gives = { λ s g t. ReportsGot g (prepend_known (source_bytes s) (R.remaining s.reader))
        (prepend_known (source_bytes t) (R.remaining t.reader)) s.faults t.faults
        × ReturnsNext ⟦<Process as Input<R>>⟧.reads (source_bytes s) g (source_bytes t)
        s.reader t.reader };

    ghost reports = { λ s g t h. h.0 };

    #[inline(always)]
    fn next(&mut self) -> Got {
        self.next_by(&Process)
    }
}
