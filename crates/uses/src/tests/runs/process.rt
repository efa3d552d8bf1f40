//! What `main` does around the program: its words, and how the process ends.

use crate::tests::runs::support::arguments;
use std::alloc::Global;
use std::process::ExitCode;
use x86_cli::{Finished, Process, Status, USAGE, finish, words};

/// Whether these are the words of a process with these arguments.
fn has_words(alloc: Global, given: &str, wanted: &str) -> bool {
    match (arguments(alloc, given), arguments(alloc, wanted)) {
        (Ok(given), Ok(wanted)) => match words(alloc, given.into_iter()) {
            Ok(words) => words == wanted,
            Err(_) => false,
        },
        _ => false,
    }
}

#[test]
fn words_are_all_arguments_but_the_first(rt: HostRuntime) {
    assert!(&rt; has_words(rt.alloc(), "x86 list --strict", "list --strict"));
    assert!(&rt; has_words(rt.alloc(), "", ""));
    let given = "x86 a b c d e f g h i j k l m n o p q r s t";
    assert!(&rt; has_words(rt.alloc(), given, "a b c d e f g h i j k l m n o p q r s t"));
}

/// Whether the process ends with this code, and this is in its third stream. The output may be gone.
fn finishes(alloc: Global, status: Status, gone: bool, code: u8, written: &str) -> bool {
    let mut errors = Vec::new(alloc);
    let ended = finish(Finished { status, gone }, &Process, &mut errors);
    ended == ExitCode::from(code) && errors.as_slice() == written.as_bytes()
}

/// Whether the usage line is written at `Usage`, whether or not the output is gone.
fn writes_usage(alloc: Global, gone: bool) -> bool {
    match format!(in alloc; "{USAGE}\n") {
        Ok(line) => finishes(alloc, Status::Usage, gone, 2, line.as_str()),
        Err(_) => false,
    }
}

#[test]
fn the_usage_line_is_written_at_usage(rt: HostRuntime) {
    assert!(&rt; writes_usage(rt.alloc(), false));
    assert!(&rt; writes_usage(rt.alloc(), true));
    assert!(&rt; USAGE.starts_with("usage: list [--strict] | make N | "));
}

#[test]
fn a_write_fault_is_said_unless_nobody_reads(rt: HostRuntime) {
    assert!(&rt; finishes(rt.alloc(), Status::WriteFault, false, 6, "write fault\n"));
    assert!(&rt; finishes(rt.alloc(), Status::WriteFault, true, 6, ""));
}

/// The other statuses, each with its code.
const CODES: &[(Status, u8)] = &[
    (Status::Done, 0),
    (Status::Refused, 3),
    (Status::BadText, 4),
    (Status::ReadFault, 5),
    (Status::TooLarge, 7),
];

#[test]
fn nothing_is_written_at_other_statuses(rt: HostRuntime) {
    for (status, code) in CODES {
        assert!(&rt; finishes(rt.alloc(), *status, false, *code, ""), "{code}");
    }
}
