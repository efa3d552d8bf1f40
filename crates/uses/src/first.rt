//! Prints the instruction that some bytes begin with.
#![tactic(auto)]

use std::io;
use x86_decode::InstDecoder;
use x86_text::instruction_text;

pub fn main(rt: HostRuntime) -> io::Result<()> {
    match InstDecoder::default().decode_slice(&[0x48, 0x01, 0xd8]) {
        Ok(instruction) => println!(rt; "{}", instruction_text(&instruction)),
        Err(error) => println!(rt; "{error}"),
    }
}
