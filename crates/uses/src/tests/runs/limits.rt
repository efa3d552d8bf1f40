//! Runs over long texts, which sources and readers make.

ghost use Rattle.std.specs.Prelude.{None};
ghost use Rattle.x86_streams.specs.Outside.Source.{ReportsGot};
ghost use Rattle.x86_streams.specs.Outside.Sink.{ReportsPut};

use crate::tests::runs::support::{arguments, ending};
use std::alloc::Global;
use std::io;
use std::io::{Read, Write};
use x86_cli::Status::{Done, TooLarge};
use x86_cli::{
    Got, Joined, Process, Sink, SinkFailed, Source, Status, TARGETS_MAX, TEXT_MAX, listed,
};

/// So many times a unit, then a tail.
#[derive(Drop)]
struct Repeated<'a> {
    unit: &'a [u8],
    left: u64,
    place: usize,
    tail: &'a [u8],
}

impl Repeated<'_> {
    /// Takes the next byte.
    fn take(&mut self) -> Option<u8> {
        if self.left > 0 && self.place < self.unit.len() {
            let byte = self.unit[self.place];
            self.place += 1;
            if self.place == self.unit.len() {
                self.place = 0;
                self.left -= 1;
            }
            return Some(byte);
        }
        let (first, rest) = self.tail.split_first()?;
        self.tail = rest;
        Some(*first)
    }
}

impl Source for Repeated<'_> {
    ghost left = { λ s. None };

    ghost faults = { λ s. 0 };

    ghost gives = { λ s g t. ReportsGot g None None 0 0 };

    ghost reports = { λ s g t h. h };

    fn next(&mut self) -> Got {
        match self.take() {
            Some(byte) => Got::Byte(byte),
            None => Got::End,
        }
    }
}

impl Read for Repeated<'_> {
    fn read(&mut self, buf: &mut [u8]) -> io::Result<usize> {
        for i in 0..buf.len() {
            match self.take() {
                Some(byte) => buf[i] = byte,
                None => return Ok(i),
            }
        }
        Ok(buf.len())
    }
}

/// Counts the pieces, and compares each with what is wanted of the last.
#[derive(Drop)]
struct LastPiece<'a> {
    wanted: &'a [u8],
    is_wanted: bool,
    pieces: u64,
}

impl LastPiece<'_> {
    fn take(&mut self, piece: &[u8]) {
        self.is_wanted = piece == self.wanted;
        self.pieces = self.pieces.saturating_add(1);
    }
}

impl Sink for LastPiece<'_> {
    ghost written = { λ s. None };

    ghost faults = { λ s. 0 };

    ghost takes = { λ s piece r t. ReportsPut r piece None None 0 0 };

    ghost reports = { λ s piece r t h. h };

    fn put(&mut self, piece: &[u8]) -> Result<(), SinkFailed> {
        self.take(piece);
        Ok(())
    }
}

impl Write for LastPiece<'_> {
    fn write(&mut self, buf: &[u8]) -> io::Result<usize> {
        self.take(buf);
        Ok(buf.len())
    }

    fn flush(&mut self) -> io::Result<()> {
        Ok(())
    }
}

/// A run over a long text: the command, the text as so many times a unit and then a tail, how many pieces are
/// written, the last of them, and how the run ends.
type Run = (
    &'static str,
    (u64, &'static str, &'static str),
    u64,
    &'static str,
    Status,
);

const ADD: &str = "0 2 ADD eax, ebx m4\n";

const LAST_ADD: &str = "19998 2 ADD eax, ebx m4\n";

const TOO_LONG: &str = "text too long\n";

const SHORT: &[Run] = &[
    ("list", (4096, " ", ""), 0, "", Done),
    ("list", (4097, " ", ""), 0, "", Done),
    ("list", (10000, "01 d8 ", ""), 10000, LAST_ADD, Done),
    ("targets", (16385, " ", ""), 1, TOO_LONG, TooLarge),
    ("targets", (8190, "90", "ebfe"), 1, "8190\n", Done),
    ("targets", (8190, "90", "ebfe9"), 2, TOO_LONG, TooLarge),
];

const UP_TO_THE_LIMIT: &[Run] = &[
    ("list", (67108864, " ", ""), 0, "", Done),
    ("list", (67108860, " ", "01d8"), 1, ADD, Done),
];

const PAST_THE_LIMIT: &[Run] = &[
    ("list", (67108865, " ", ""), 1, TOO_LONG, TooLarge),
    ("list", (67108861, " ", "01d8"), 1, TOO_LONG, TooLarge),
];

/// The text of a run, and what counts its pieces.
fn ends_of(
    (_, (left, unit, tail), pieces, last, _): Run,
) -> (Repeated<'static>, LastPiece<'static>) {
    let text = Repeated {
        unit: unit.as_bytes(),
        left,
        place: 0,
        tail: tail.as_bytes(),
    };
    let listing = LastPiece {
        wanted: last.as_bytes(),
        is_wanted: pieces == 0,
        pieces: 0,
    };
    (text, listing)
}

/// Whether a run is so, over a source and a sink.
fn is_run(alloc: Global, run: Run) -> bool {
    let (mut source, mut sink) = ends_of(run);
    let (command, _, pieces, _, status) = run;
    ending(alloc, command, &mut source, &mut sink) == Ok(status)
        && sink.pieces == pieces
        && sink.is_wanted
}

/// Whether a run is so, over a reader and a writer.
fn is_listed(alloc: Global, run: Run) -> bool {
    let (reader, writer) = ends_of(run);
    let (command, _, pieces, _, status) = run;
    let Ok(words) = arguments(alloc, command) else {
        return false;
    };
    let mut streams = Joined { reader, writer };
    let outcome = listed(words.as_slice(), &Process, &mut streams);
    outcome.status == status && streams.writer.pieces == pieces && streams.writer.is_wanted
}

#[test]
fn short_texts(rt: HostRuntime) {
    for (i, run) in SHORT.iter().enumerate() {
        assert!(&rt; is_run(rt.alloc(), *run), "run {i}");
    }
}

#[test]
fn texts_up_to_the_limit(rt: HostRuntime) {
    for (i, run) in UP_TO_THE_LIMIT.iter().enumerate() {
        assert!(&rt; is_listed(rt.alloc(), *run), "run {i}");
    }
}

#[test]
fn texts_past_the_limit(rt: HostRuntime) {
    for (i, run) in PAST_THE_LIMIT.iter().enumerate() {
        assert!(&rt; is_listed(rt.alloc(), *run), "run {i}");
    }
}

#[test]
fn the_limits(rt: HostRuntime) {
    assert!(&rt; TEXT_MAX == 67108864 && TARGETS_MAX == 16384);
}
