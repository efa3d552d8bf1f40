//! The whole program, over readers and writers that are slow, that are short, and that fail.

use crate::tests::runs::run_table;
use crate::tests::runs::support::{ShortReader, ShortWriter, arguments, shows};
use std::alloc::{AllocError, Global};
use std::io;
use std::io::{ErrorKind, Read, Write};
use x86_cli::{Finished, Joined, Process, Status, listed};

/// How the program ends with `list` over these.
fn program_ending<R: Read, W: Write>(
    alloc: Global,
    reader: &mut R,
    writer: &mut W,
) -> Result<Finished, AllocError> {
    let arguments = arguments(alloc, "list")?;
    let mut streams = Joined { reader, writer };
    Ok(listed(arguments.as_slice(), &Process, &mut streams))
}

/// A long text, its listing, and the place after it.
#[derive(Drop)]
struct Long {
    text: Vec<u8>,
    listing: String,
    place: u64,
}

impl Long {
    /// Appends an instruction so many times: its text, its length, and its line after the place.
    fn append(
        &mut self,
        times: u64,
        text: &[u8],
        length: u64,
        line: &str,
    ) -> Result<(), AllocError> {
        for _ in 0..times {
            self.text.extend_from_slice(text)?;
            write!(self.listing, "{} {line}\n", self.place)?;
            self.place = self.place.wrapping_add(length);
        }
        Ok(())
    }
}

/// So many instructions of two bytes, and then of one.
fn long_text(alloc: Global, pairs: u64, singles: u64) -> Result<Long, AllocError> {
    let mut long = Long {
        text: Vec::new(alloc),
        listing: String::new(alloc),
        place: 0,
    };
    long.append(pairs, b"01 d8 ", 2, "2 ADD eax, ebx m4")?;
    long.append(singles, b"90\n", 1, "1 NOP m0")?;
    Ok(long)
}

/// Whether a long text is listed whole, byte for byte, in writes of at most so many bytes.
fn lists_whole(alloc: Global, pairs: u64, singles: u64, most: usize) -> bool {
    let Ok(long) = long_text(alloc, pairs, singles) else {
        return false;
    };
    let mut writer = ShortWriter {
        kept: Vec::new(alloc),
        most,
        write: 0,
        flushes: true,
    };
    match program_ending(alloc, &mut long.text.as_slice(), &mut writer) {
        Ok(end) => {
            end.status == Status::Done && writer.kept.as_slice() == long.listing.as_bytes()
        }
        Err(_) => false,
    }
}

/// Long texts: pairs, singles, and how many bytes a write takes. 65,536 bytes of output end at the last line of the
/// first; the second is a line longer.
const LONG: &[(u64, u64, usize)] = &[
    (4, 4753, usize::MAX),
    (4, 4754, usize::MAX),
    (0, 24000, 1000),
    (0, 24000, 65535),
];

#[test]
fn long_outputs(rt: HostRuntime) {
    for (pairs, singles, most) in LONG {
        assert!(&rt;
            lists_whole(rt.alloc(), *pairs, *singles, *most),
            "{pairs} {singles} {most}"
        );
    }
}

/// Whether the program over a reader writes these lines, and ends so.
fn program_shows<R: Read + Drop>(alloc: Global, mut reader: R, wanted: &str) -> bool {
    let mut written = Vec::new(alloc);
    match program_ending(alloc, &mut reader, &mut written) {
        Ok(end) => shows(alloc, written.as_slice(), Ok(end.status), wanted),
        Err(_) => false,
    }
}

/// A reader of two instructions that returns at most so many bytes a read, and whose read with a number fails.
fn two_singles(most: usize, fails: u64, error: ErrorKind) -> ShortReader<'static> {
    ShortReader {
        bytes: b"90 90",
        most,
        read: 0,
        fails,
        error,
    }
}

// Listings of `90 90`: none of the two is listed before a fault, one is, both are, and all is read.
const NONE: &str = "read fault / ReadFault";

const ONE: &str = "0 1 NOP m0 / read fault / ReadFault";

const BOTH: &str = "0 1 NOP m0 / 1 1 NOP m0 / read fault / ReadFault";

const WHOLE: &str = "0 1 NOP m0 / 1 1 NOP m0 / Done";

/// How many bytes a read returns, which read fails, and what the listing is.
const FAILING: &[(usize, u64, &str)] = &[
    (1, 0, NONE),
    (1, 1, NONE),
    (1, 2, ONE),
    (1, 3, ONE),
    (1, 4, ONE),
    (1, 5, BOTH),
    (1, 6, WHOLE),
    // Reads of more than one byte.
    (2, 1, ONE),
    (2, 2, ONE),
    (2, 3, BOTH),
    (2, 4, WHOLE),
    (4, 1, ONE),
    (4, 2, BOTH),
    (4, 3, WHOLE),
    (64, 0, NONE),
    (64, 1, BOTH),
    (64, 2, WHOLE),
];

#[test]
fn readers_that_fail(rt: HostRuntime) {
    for (most, fails, wanted) in FAILING {
        let reader = two_singles(*most, *fails, ErrorKind::Other);
        assert!(&rt; program_shows(rt.alloc(), reader, wanted), "{most} {fails}");
    }
}

/// Texts, each with its listing.
const ENDS: &[(&str, &str)] = &[
    ("90", "0 1 NOP m0 / Done"),
    ("90 06 90", run_table::REFUSED),
    ("90 4", "0 1 NOP m0 / text error at 4 / BadText"),
];

#[test]
fn ends_of_the_program(rt: HostRuntime) {
    for (text, wanted) in ENDS {
        assert!(&rt;
            program_shows(rt.alloc(), text.as_bytes(), wanted),
            "{text}"
        );
    }
}

#[test]
fn an_interrupted_read_is_made_again(rt: HostRuntime) {
    for fails in [0, 1, 2, 6] {
        let reader = two_singles(1, fails, ErrorKind::Interrupted);
        assert!(&rt; program_shows(rt.alloc(), reader, WHOLE), "{fails}");
    }
}

#[test]
fn a_read_that_times_out_is_a_fault(rt: HostRuntime) {
    let reader = two_singles(1, 3, ErrorKind::WouldBlock);
    assert!(&rt; program_shows(rt.alloc(), reader, ONE));
}

/// Whether the listing of this text makes so many reads, where each returns one byte.
fn makes_reads(alloc: Global, text: &[u8], reads: u64) -> bool {
    let mut reader = ShortReader {
        bytes: text,
        most: 1,
        read: 0,
        fails: u64::MAX,
        error: ErrorKind::Other,
    };
    program_ending(alloc, &mut reader, &mut Vec::new(alloc)).is_ok() && reader.read == reads
}

/// Texts, each with how many reads its listing makes.
const READS: &[(&str, u64)] = &[
    // A read for each byte of the text, and one that returns none.
    ("", 1),
    ("90 90", 6),
    // After a byte that isn't allowed at its place, nothing is read.
    ("90 9z90", 5),
    // After the pair that is refused, nothing is read; fourteen prefixes decide nothing, and a fifteenth does.
    ("06 90909090909090909090909090909090909090909090", 2),
    ("2e2e2e2e2e2e2e2e2e2e2e2e2e2e", 29),
    ("2e2e2e2e2e2e2e2e2e2e2e2e2e2e2e90", 30),
];

#[test]
fn the_end_is_read_once(rt: HostRuntime) {
    for (text, reads) in READS {
        assert!(&rt; makes_reads(rt.alloc(), text.as_bytes(), *reads), "{text}");
    }
}

/// Fails at each write, and counts them.
#[derive(Drop)]
struct FailingWriter {
    writes: u64,
    error: ErrorKind,
}

impl Write for FailingWriter {
    fn write(&mut self, _buf: &[u8]) -> io::Result<usize> {
        self.writes = self.writes.saturating_add(1);
        Err(io::Error::from(self.error))
    }

    fn flush(&mut self) -> io::Result<()> {
        Ok(())
    }
}

/// Whether the writer is called once, and the run ends so: nobody reads on exactly at a broken pipe.
fn fails_once(alloc: Global, error: ErrorKind) -> bool {
    let mut text: &[u8] = b"90";
    let mut writer = FailingWriter { writes: 0, error };
    match program_ending(alloc, &mut text, &mut writer) {
        Ok(end) => {
            let gone = matches!(error, ErrorKind::BrokenPipe);
            end.status == Status::WriteFault && end.gone == gone && writer.writes == 1
        }
        Err(_) => false,
    }
}

#[test]
fn a_failed_write_is_not_tried_again(rt: HostRuntime) {
    assert!(&rt; fails_once(rt.alloc(), ErrorKind::Other));
    assert!(&rt; fails_once(rt.alloc(), ErrorKind::BrokenPipe));
    assert!(&rt; fails_once(rt.alloc(), ErrorKind::OutOfMemory));
}

/// Whether the program over a writer whose flush fails reads nothing, writes these lines, and ends so.
fn unflushed_shows(alloc: Global, wanted: &str) -> bool {
    let text: &[u8] = b"90";
    let mut reader = text;
    let mut writer = ShortWriter {
        kept: Vec::new(alloc),
        most: usize::MAX,
        write: 0,
        flushes: false,
    };
    match program_ending(alloc, &mut reader, &mut writer) {
        Ok(end) => reader == text && shows(alloc, writer.kept.as_slice(), Ok(end.status), wanted),
        Err(_) => false,
    }
}

#[test]
fn flushes_that_fail(rt: HostRuntime) {
    // The writer is flushed before each read, so nothing is read.
    assert!(&rt; unflushed_shows(rt.alloc(), "WriteFault"));
}

#[test]
fn without_words_nothing_is_read(rt: HostRuntime) {
    let text: &[u8] = b"90";
    let mut streams = Joined {
        reader: text,
        writer: Vec::new(rt.alloc()),
    };
    let end = listed(&[], &Process, &mut streams);
    assert!(&rt; end.status == Status::Usage && streams.writer.as_slice().is_empty());
    assert!(&rt; streams.reader == text);
}
