//! Runs over sources and sinks that fail, and over readers and writers.

use crate::tests::runs::support::{ShortReader, ending};
use std::alloc::Global;
use std::io;
use std::io::{ErrorKind, Write};
use x86_cli::outside::gathered::Gathered;
use x86_cli::{ArraySink, NullSink, Process, Sink, SoundSource, Status, StdSink, StdSource};

/// Two instructions.
const TEXT: &[u8] = b"01 d8 01 d8";

/// Their listing.
const WHOLE: &str = "0 2 ADD eax, ebx m4\n2 2 ADD eax, ebx m4\n";

/// Whether a run over a sink writes this to it and ends so.
fn stops_at<const N: usize>(
    alloc: Global,
    command: &str,
    text: &[u8],
    mut sink: ArraySink<N>,
    written: &str,
    status: Status,
) -> bool {
    let ended = ending(alloc, command, &mut SoundSource::new(text), &mut sink);
    ended == Ok(status) && sink.written() == written.as_bytes()
}

/// Which call of the sink fails, what is written, and the status.
const FAILING: &[(u64, &str, Status)] = &[
    (0, "", Status::WriteFault),
    (1, "0 2 ADD eax, ebx m4\n", Status::WriteFault),
    (2, WHOLE, Status::Done),
];

#[test]
fn failing_sinks(rt: HostRuntime) {
    for (fails, written, status) in FAILING {
        let sink = ArraySink::<64>::new(*fails);
        assert!(&rt;
            stops_at(rt.alloc(), "list", TEXT, sink, written, *status),
            "{fails}"
        );
    }
}

#[test]
fn a_sink_that_fails_at_a_target(rt: HostRuntime) {
    let (text, sink) = (b"74 01 06 eb fb 90", ArraySink::<64>::new(1));
    assert!(&rt; stops_at(rt.alloc(), "targets", text, sink, "0\n", Status::WriteFault));
}

#[test]
fn sinks_without_room(rt: HostRuntime) {
    let (never, status) = (u64::MAX, Status::WriteFault);
    let small = ArraySink::<5>::new(never);
    assert!(&rt; stops_at(rt.alloc(), "list", TEXT, small, "0 2 A", status));
    let between = ArraySink::<24>::new(never);
    let written = "0 2 ADD eax, ebx m4\n2 2 ";
    assert!(&rt; stops_at(rt.alloc(), "list", TEXT, between, written, status));
    let narrow = ArraySink::<15>::new(never);
    assert!(&rt;
        stops_at(
            rt.alloc(),
            "list",
            b"90 90",
            narrow,
            "0 1 NOP m0\n1 1 ",
            status
        )
    );
}

#[test]
fn a_sink_that_keeps_nothing(rt: HostRuntime) {
    let mut source = SoundSource::new(TEXT);
    let ended = ending(rt.alloc(), "list", &mut source, &mut NullSink::new());
    assert!(&rt; ended == Ok(Status::Done));
}

/// Takes so many bytes, and then none.
#[derive(Drop)]
struct NarrowWriter {
    room: usize,
}

impl Write for NarrowWriter {
    fn write(&mut self, buf: &[u8]) -> io::Result<usize> {
        let count = buf.len().min(self.room);
        self.room -= count;
        Ok(count)
    }

    fn flush(&mut self) -> io::Result<()> {
        Ok(())
    }
}

/// Whether a listing of two instructions to this writer ends so, where so many of the sink's calls failed.
fn ends_so<W: Write + Drop>(alloc: Global, writer: W, status: Status, faults: u64) -> bool {
    let mut sink = StdSink::new(writer);
    let ended = ending(alloc, "list", &mut StdSource::new(TEXT), &mut sink);
    ended == Ok(status) && sink.faults() == faults
}

#[test]
fn writers_that_do(rt: HostRuntime) {
    let mut written = [0; 40];
    let mut room: &mut [u8] = &mut written;
    assert!(&rt; ends_so(rt.alloc(), &mut room, Status::Done, 0));
    assert!(&rt; written.as_slice() == WHOLE.as_bytes());
}

#[test]
fn writers_that_fail(rt: HostRuntime) {
    let narrow = NarrowWriter { room: 30 };
    assert!(&rt; ends_so(rt.alloc(), narrow, Status::WriteFault, 1));
}

/// Whether a sink over a writer takes a piece.
fn takes<W: Write + Drop>(writer: W, piece: &[u8]) -> bool {
    let mut sink = StdSink::new(writer);
    sink.put(piece).is_ok() && sink.faults() == 0
}

#[test]
fn a_long_piece(rt: HostRuntime) {
    let mut written = [0; 200];
    let mut room: &mut [u8] = &mut written;
    assert!(&rt; takes(&mut room, &[b'x'; 200]));
    assert!(&rt; written == [b'x'; 200]);
}

/// A buffer that took the listing's lines, over a writer that has less room than they need.
fn gathered(writer: &mut NarrowWriter) -> Option<Gathered> {
    let mut out = Gathered::new();
    for line in WHOLE.lines() {
        out.put(&Process, writer, line.as_bytes()).ok()?;
        out.put(&Process, writer, b"\n").ok()?;
    }
    Some(out)
}

#[test]
fn a_buffer_that_cannot_be_sent(rt: HostRuntime) {
    let mut writer = NarrowWriter { room: 30 };
    let Some(mut out) = gathered(&mut writer) else {
        panic!(&rt; "a put failed");
    };
    assert!(&rt; writer.room == 30);
    let sent = out.send_all(&Process, &mut writer);
    // What the writer didn't take is left, and a writer that takes nothing isn't gone.
    assert!(&rt; matches!(sent, Err(failed) if !failed.gone));
    assert!(&rt; out.bytes.as_slice() == &WHOLE.as_bytes()[30..]);
}

#[test]
fn readers_that_fail(rt: HostRuntime) {
    let mut source = StdSource::new(ShortReader {
        bytes: TEXT,
        most: 6,
        read: 0,
        fails: 2,
        error: ErrorKind::Other,
    });
    let ended = ending(rt.alloc(), "list", &mut source, &mut NullSink::new());
    assert!(&rt; ended == Ok(Status::ReadFault) && source.faults() == 1);
}
