//! The calls of the program, in their order, as a record of them has them.

use crate::tests::runs::support::{ShortReader, ShortWriter, arguments};
use std::alloc::Global;
use std::io::ErrorKind;
use x86_cli::Event::{Flush, FlushFailed, Read, ReadFailed, Write, WriteFailed};
use x86_cli::{Event, Joined, Process, Record, Recorder, listed};

/// A run of `list`, and its calls.
struct Run {
    text: &'static [u8],
    /// The most bytes of a read, and which read answers which error.
    read: (usize, u64, ErrorKind),
    /// The most bytes of a write, of which each third is interrupted, and whether flushes succeed.
    write: (usize, bool),
    calls: &'static [Event],
}

const NONE: u64 = u64::MAX;

/// What was written is flushed before each read and at the end, and nothing is read after a refusal or an error. The lines
/// are `0 1 NOP m0`, that of a refusal, and `read fault`.
const RUNS: &[Run] = &[
    Run {
        text: b"90",
        read: (usize::MAX, NONE, ErrorKind::Other),
        write: (usize::MAX, true),
        calls: &[Flush, Read(2), Write(11), Flush, Read(0), Flush],
    },
    Run {
        text: b"90 06",
        read: (2, 1, ErrorKind::Interrupted),
        write: (usize::MAX, true),
        calls: &[
            Flush,
            Read(2),
            Write(11),
            Flush,
            ReadFailed(ErrorKind::Interrupted),
            Read(2),
            Flush,
            Read(1),
            Write(24),
            Flush,
        ],
    },
    Run {
        text: b"90",
        read: (usize::MAX, 1, ErrorKind::Other),
        write: (usize::MAX, true),
        calls: &[
            Flush,
            Read(2),
            Write(11),
            Flush,
            ReadFailed(ErrorKind::Other),
            Write(11),
            Flush,
        ],
    },
    Run {
        text: b"90",
        read: (usize::MAX, NONE, ErrorKind::Other),
        write: (5, true),
        calls: &[
            Flush,
            Read(2),
            Write(5),
            Write(5),
            WriteFailed(ErrorKind::Interrupted),
            Write(1),
            Flush,
            Read(0),
            Flush,
        ],
    },
    Run {
        text: b"90",
        read: (usize::MAX, NONE, ErrorKind::Other),
        write: (usize::MAX, false),
        calls: &[FlushFailed(ErrorKind::Other)],
    },
];

/// Whether the program makes these calls.
fn has_calls(alloc: Global, run: &Run) -> bool {
    let Ok(words) = arguments(alloc, "list") else {
        return false;
    };
    let (most, fails, error) = run.read;
    let reader = ShortReader {
        bytes: run.text,
        most,
        read: 0,
        fails,
        error,
    };
    let (most, flushes) = run.write;
    let writer = ShortWriter {
        kept: Vec::new(alloc),
        most,
        write: 0,
        flushes,
    };
    let mut record: Record<_, 16, 70000> = Record::new(Joined { reader, writer });
    listed(words.as_slice(), &Recorder { calls: Process }, &mut record);
    !record.is_full && record.events.as_slice() == run.calls
}

#[test]
fn calls_in_their_order(rt: HostRuntime) {
    for (i, run) in RUNS.iter().enumerate() {
        assert!(&rt; has_calls(rt.alloc(), run), "run {i}");
    }
}
