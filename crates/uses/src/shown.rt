//! Prints the line that `show` has of the instruction that some bytes begin with.
#![tactic(auto)]

use std::io;
use x86_decode::InstDecoder;
use x86_objdump::shown_line;

pub fn main(rt: HostRuntime) -> io::Result<()> {
    match shown_line(&InstDecoder::default(), 0x401007, &[0x74, 0x29]) {
        Ok(line) => println!(rt; "{line}"),
        Err(error) => println!(rt; "{error}"),
    }
}
