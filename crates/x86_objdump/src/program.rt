//! The program over its words, a reader and a writer.

ghost use Rattle.std.specs.Prelude.{◌≡◌, ◌↔◌, None, IfSome, false, map, string_bytes};
ghost use Rattle.std.specs.Process.{exit_status};
ghost use Rattle.x86_cli.specs.Commands.Process.{Reports};
ghost use Rattle.x86_cli.specs.Listings.Performs.{Performs};
ghost use Rattle.x86_cli.specs.Listings.Status.{code};
ghost use Rattle.x86_objdump.specs.Program.{base_number, base_in, said};
ghost use Rattle.x86_objdump.specs.Listing.{showing};

use crate::listing::ShowAt;
use std::process::ExitCode;
use x86_cli::commands::process::report;
use x86_cli::{Finished, Program, Status};
use x86_streams::lines::cells::put_bytes;
use x86_streams::{Input, Output};

/// What is printed where the words are no address.
pub const USAGE: &str = "usage: show [BASE]";

fn base_number(digits: &[u8]) -> Option<u64>
    ensures { result ≡ base_number digits.now }
{
    if digits.is_empty() || digits.len() > 16 {
        return None;
    }
    let mut padded = [b'0'; 16];
    put_bytes(&mut padded, 16 - digits.len(), digits);
    let mut bytes = [0; 8];
    hex::decode_to_slice(padded, &mut bytes).ok()?;
    Some(u64::from_be_bytes(bytes))
}

/// The address that the words say, 0 where there is none, or `None` where they are no address.
pub fn base_in(words: &[String]) -> Option<u64>
    ensures { result ≡ base_in (map string_bytes words.now) }
{
    match words {
        [] => Some(0),
        [word] => match word.as_str().as_bytes() {
            [b'0', b'x' | b'X', digits @ ..] => base_number(digits),
            digits => base_number(digits),
        },
        _ => None,
    }
}

/// Shows the hex text of a reader, whose image begins at the address that the words say. What is written is gathered in
/// a buffer, and sent and flushed before each read and at the end.
pub fn shown<E, O: Input<E> + Output<E>>(words: &[String], outside: &O, streams: &mut E) -> Finished
    ensures performs { IfSome (base_in (map string_bytes words.now))
        (λ base. Performs O.reads O.writes O.flushes O.gathers (showing base) result
        streams.old streams.new) }
    ensures usage { (result.status ≡ Status.Usage) ↔ (base_in (map string_bytes words.now) ≡ None) }
    ensures nothing { result.status ≡ Status.Usage
        → (streams.new ≡ streams.old) × (result.gone ≡ false) }
{
    match base_in(words) {
        Some(base) => ShowAt { base }.run(outside, streams),
        None => Finished {
            status: Status::Usage,
            gone: false,
        },
    }
}

/// How the process ends. The usage line, or `write fault` unless nobody reads it, is written to `errors`.
pub fn finish<E, O: Output<E>>(outcome: Finished, output: &O, errors: &mut E) -> ExitCode
    ensures code { exit_status result ≡ code outcome.status }
    ensures says { Reports O.writes O.flushes (said outcome.status outcome.gone)
        errors.old errors.new }
{
    match outcome.status {
        Status::Usage => {
            report(USAGE, output, errors);
            ExitCode::from(2)
        }
        _ => x86_cli::finish(outcome, output, errors),
    }
}
