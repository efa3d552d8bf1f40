//! What tests of runs have in common.

use std::alloc::{AllocError, Global};
use std::io;
use std::io::{ErrorKind, Read, Write};
use x86_cli::{Sink, Source, Status, run};

fn push_word(arguments: &mut Vec<String>, alloc: Global, word: &str) -> Result<(), AllocError> {
    Ok(arguments.push(String::from_str(alloc, word)?)?)
}

/// The words of a command, as `main` collects them. There is a blank after each but the last, where that is not empty.
pub fn arguments(alloc: Global, command: &str) -> Result<Vec<String>, AllocError> {
    let mut arguments = Vec::new(alloc);
    for word in command.split_terminator(" ") {
        push_word(&mut arguments, alloc, word)?;
    }
    Ok(arguments)
}

/// How a run ends.
pub fn ending<S: Source, K: Sink>(
    alloc: Global,
    command: &str,
    source: &mut S,
    sink: &mut K,
) -> Result<Status, AllocError> {
    let arguments = arguments(alloc, command)?;
    Ok(run(arguments.as_slice(), source, sink))
}

/// What was written, and the name of the status after it.
fn shown(alloc: Global, written: &[u8], status: Status) -> Result<String, AllocError> {
    let written = std::str::from_utf8(written).unwrap_or("not text");
    format!(in alloc; "{written}{status:?}")
}

/// Whether these lines were written, and the run ended so: `LINES / STATUS`.
pub fn shows(
    alloc: Global,
    written: &[u8],
    ended: Result<Status, AllocError>,
    wanted: &str,
) -> bool {
    match ended {
        Ok(status) => shown(alloc, written, status) == wanted.replace(alloc, " / ", "\n"),
        Err(_) => false,
    }
}

/// Returns at most so many bytes a read, and fails at the read with a number, from 0.
#[derive(Drop)]
pub struct ShortReader<'a> {
    pub bytes: &'a [u8],
    pub most: usize,
    pub read: u64,
    pub fails: u64,
    pub error: ErrorKind,
}

impl Read for ShortReader<'_> {
    fn read(&mut self, buf: &mut [u8]) -> io::Result<usize> {
        let read = self.read;
        self.read = read.saturating_add(1);
        if read == self.fails {
            return Err(io::Error::from(self.error));
        }
        let count = self.most.min(buf.len()).min(self.bytes.len());
        buf[..count].copy_from_slice(&self.bytes[..count]);
        self.bytes = &self.bytes[count..];
        Ok(count)
    }
}

/// Keeps what it takes, at most so many bytes a write. Each third write is interrupted, and a flush fails if it is to.
#[derive(Drop)]
pub struct ShortWriter {
    pub kept: Vec<u8>,
    pub most: usize,
    pub write: u64,
    pub flushes: bool,
}

impl Write for ShortWriter {
    fn write(&mut self, buf: &[u8]) -> io::Result<usize> {
        self.write = self.write.saturating_add(1);
        if self.write % 3 == 0 {
            return Err(io::Error::from(ErrorKind::Interrupted));
        }
        let count = buf.len().min(self.most);
        self.kept.write(&buf[..count])
    }

    fn flush(&mut self) -> io::Result<()> {
        if self.flushes {
            Ok(())
        } else {
            Err(io::Error::from(ErrorKind::Other))
        }
    }
}
