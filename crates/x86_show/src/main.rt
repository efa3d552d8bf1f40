//! A listing for people of the x86-64 instructions of a hex text: the words, three streams, and the code of the end.
#![tactic(auto)]

use std::process::ExitCode;
use std::{env, io};
use x86_cli::{Joined, Process, words};
use x86_objdump::{finish, shown};

/// The words after the program's name.
fn arguments(rt: &HostRuntime) -> io::Result<Vec<String>> {
    Ok(words(rt.alloc(), env::args(rt)?)?)
}

fn main(rt: HostRuntime) -> ExitCode {
    match arguments(&rt) {
        Err(_) => ExitCode::from(1),
        Ok(words) => {
            let mut streams = Joined {
                reader: rt.reader(),
                writer: io::writer(&rt),
            };
            let outcome = shown(words.as_slice(), &Process, &mut streams);
            finish(outcome, &Process, &mut rt.stderr())
        }
    }
}
