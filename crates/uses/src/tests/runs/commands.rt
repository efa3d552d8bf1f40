//! Worked runs of the commands.

use crate::tests::runs::run_table;
use crate::tests::runs::support::{ending, shows};
use std::alloc::Global;
use x86_cli::{ArraySink, SliceSource};

/// Whether a run over a text, some of whose calls fail, writes this and ends so.
fn runs(alloc: Global, command: &str, text: &str, fails: &[u64], wanted: &str) -> bool {
    let mut source = SliceSource::new(text.as_bytes(), fails);
    let mut sink = ArraySink::<256>::new(u64::MAX);
    let ended = ending(alloc, command, &mut source, &mut sink);
    shows(alloc, sink.written(), ended, wanted)
}

/// Whether this is so of a run, at whichever of these calls its source fails: `-` is no call.
fn is_run(alloc: Global, command: &str, text: &str, calls: &str, wanted: &str) -> bool {
    if calls == "-" {
        return runs(alloc, command, text, &[], wanted);
    }
    for call in calls.split(" ") {
        match call.parse() {
            Ok(call) if runs(alloc, command, text, &[call], wanted) => {}
            _ => return false,
        }
    }
    true
}

/// Whether a line of a table is so.
fn is_worked(alloc: Global, row: &str) -> Option<bool> {
    let (given, wanted) = row.split_once(" => ")?;
    let (run, calls) = given.rsplit_once(" | ")?;
    let (command, text) = run.split_once(" | ")?;
    Some(is_run(alloc, command, text, calls, wanted))
}

#[test]
fn worked_runs(rt: HostRuntime) {
    for row in run_table::RUNS.lines() {
        assert!(&rt; is_worked(rt.alloc(), row) == Some(true), "{row}");
    }
}

#[test]
fn blanks_of_all_kinds(rt: HostRuntime) {
    let both = "0 2 ADD eax, ebx m4 / 2 2 ADD eax, ebx m4 / Done";
    assert!(&rt; runs(rt.alloc(), "list", "01D8\t01\r\nd8", &[], both));
}
