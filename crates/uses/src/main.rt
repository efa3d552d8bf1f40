//! The five programs of docs/GUIDE.md, each a module whose `main` is the program. The first word names the one to run;
//! without a word all run. `two_buffers` is a call of that page with a contract; `tests` are the tests of the repository.
#![tactic(auto)]

mod blocks;
mod first;
mod listing;
mod mover;
mod shown;
#[cfg(test)]
mod tests;
mod two_buffers;

use std::process::ExitCode;
use std::{env, io};

/// The function of examples/count.hex, which has a loop.
const LOOP: [u8; 54] = [
    0x0f, 0xb6, 0x07, 0x31, 0xd2, 0x84, 0xc0, 0x74, 0x29, 0x0f, 0x1f, 0x80, 0x00, 0x00, 0x00, 0x00,
    0x0f, 0xb6, 0xc0, 0x48, 0x83, 0x04, 0xc5, 0x00, 0x00, 0x00, 0x00, 0x01, 0x31, 0xc0, 0x80, 0x3f,
    0x0a, 0x0f, 0x94, 0xc0, 0x48, 0x83, 0xc7, 0x01, 0x48, 0x01, 0xc2, 0x0f, 0xb6, 0x07, 0x84, 0xc0,
    0x75, 0xde, 0x48, 0x89, 0xd0, 0xc3,
];

/// A load and a call that lead out of the code, and two branches inside it.
const CALLS: [u8; 17] = [
    0x48, 0x8b, 0x05, 0x10, 0x00, 0x00, 0x00, 0xe8, 0xfb, 0xef, 0x00, 0x00, 0x74, 0x02, 0xeb, 0xf0,
    0xc3,
];

/// Prints the digits of moved code.
fn print_moved(rt: &HostRuntime, code: &[u8]) -> io::Result<()> {
    let mut out: Vec<u8> = Vec::new(rt.alloc());
    if mover::move_code(code, &mut out).is_some() {
        for byte in out.as_slice() {
            print!(rt; "{byte:02x}")?;
        }
    }
    println!(rt; "")
}

/// Runs each program: the listing over standard input, and the last two over the code above.
fn run_all(rt: HostRuntime) -> io::Result<ExitCode> {
    first::main(rt)?;
    shown::main(rt)?;
    let ended = listing::main(rt);
    blocks::find_blocks(&rt, &LOOP)?;
    print_moved(&rt, &CALLS)?;
    Ok(ended)
}

/// Runs the program with a name. There are no others.
fn run(rt: HostRuntime, name: &str) -> io::Result<ExitCode> {
    match name {
        "first" => first::main(rt)?,
        "shown" => shown::main(rt)?,
        "listing" => return Ok(listing::main(rt)),
        "blocks" => blocks::main(rt)?,
        "mover" => return mover::main(rt),
        _ => return Ok(ExitCode::from(2)),
    }
    Ok(ExitCode::from(0))
}

fn main(rt: HostRuntime) -> io::Result<ExitCode> {
    match env::args(&rt)?.nth(1) {
        Some(name) => run(rt, name.as_str()),
        None => run_all(rt),
    }
}
