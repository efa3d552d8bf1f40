//! Finds the basic blocks of the code on standard input: a line for each has where it begins, where it ends, and how
//! control leaves it. A block begins at each target, and after each instruction that control doesn't simply pass.
#![tactic(auto)]

ghost use Rattle.std.specs.Prelude.{◌≡◌, length};

use std::io;
use std::io::Read;
use x86_decode::InstDecoder;
use x86_layout::{Cut, Flow, Sweep, flow, laws, mark_targets};

/// How control leaves a cut. Where no instruction begins it goes nowhere.
fn leaves(cut: &Cut, next: usize) -> Flow {
    match &cut.answer {
        Ok(instruction) => flow(instruction, next as u64),
        Err(_) => Flow::Stop,
    }
}

/// Prints the blocks of some code, of which each byte has a mark where an instruction branches to it.
fn print_blocks(rt: &HostRuntime, code: &[u8], is_target: &[bool]) -> io::Result<()>
    requires { length code.now ≡ length is_target.now }
{
    let mut begin = 0;
    laws::cuts_cover();
    for cut in Sweep::new(InstDecoder::default(), code) {
        if is_target[cut.place] && begin < cut.place {
            println!(rt; "{begin} {} Next", cut.place)?;
            begin = cut.place;
        }
        let end = cut.place + cut.length;
        let how = leaves(&cut, end);
        if how != Flow::Next {
            println!(rt; "{begin} {end} {how:?}")?;
            begin = end;
        }
    }
    if begin < code.len() {
        println!(rt; "{begin} {} Next", code.len())?;
    }
    Ok(())
}

/// Finds the blocks of some code, and prints them.
pub fn find_blocks(rt: &HostRuntime, code: &[u8]) -> io::Result<()> {
    let mut is_target: Vec<bool> = Vec::new(rt.alloc());
    is_target.resize(code.len(), false)?;
    mark_targets(&InstDecoder::default(), code, is_target.as_mut_slice());
    print_blocks(rt, code, is_target.as_slice())
}

pub fn main(rt: HostRuntime) -> io::Result<()> {
    let mut code: Vec<u8> = Vec::new(rt.alloc());
    rt.reader().read_to_end(&mut code)?;
    find_blocks(&rt, code.as_slice())
}
