//! Moves the code on standard input from one address to another, and writes it to standard output: what is relative to
//! the next instruction, and is outside of the code, is corrected.
#![tactic(auto)]

use arrayvec::ArrayVec;
use std::io;
use std::io::{Read, Write};
use std::process::ExitCode;
use x86_decode::{InstDecoder, Instruction};
use x86_fields::RegFile;
use x86_layout::{Fields, Flow, Sweep, emit, flow, laws, split_decoded};

/// Where the code was, and where it goes.
const FROM: u64 = 0x40_1000;

const TO: u64 = 0x7000_0000;

/// Whether an address is of the code, which moves as a whole.
fn moves_too(address: u64, size: usize) -> bool {
    address.wrapping_sub(FROM) < size as u64
}

/// The target of a branch, where the encoding has its distance.
fn target_of(instruction: &Instruction, next: u64) -> Option<u64> {
    match flow(instruction, next) {
        Flow::Call(target) | Flow::Jump(target) => target,
        Flow::Branch(target) => Some(target),
        _ => None,
    }
}

/// The address of an operand that is relative to the next instruction.
fn relative_address(instruction: &Instruction, next: u64) -> Option<u64> {
    let none = RegFile { regs: [0; 16] };
    for i in 0..instruction.operand_count() {
        let operand = instruction.operand(i);
        if operand.is_ip_relative() {
            return operand.address(instruction.prefixes.address_size(), &none, next);
        }
    }
    None
}

/// Corrects a distance, where it has four bytes and fits in them again.
fn correct(distance: &mut [u8]) -> Option<()> {
    if distance.len() != 4 {
        return None;
    }
    let old = i32::from_le_bytes([distance[0], distance[1], distance[2], distance[3]]);
    let moved = (old as i64).checked_add(FROM.wrapping_sub(TO).cast_signed())?;
    distance.copy_from_slice(&i32::try_from(moved).ok()?.to_le_bytes());
    Some(())
}

/// The encoding of an instruction where it goes, or `None` where a distance doesn't fit.
fn moved(
    instruction: &Instruction,
    fields: &mut Fields,
    next: u64,
    size: usize,
) -> Option<ArrayVec<u8, 15>> {
    if let Some(target) = target_of(instruction, next) {
        if !moves_too(target, size) {
            correct(fields.immediate.as_mut_slice())?;
        }
    }
    if let Some(address) = relative_address(instruction, next) {
        if !moves_too(address, size) {
            correct(fields.displacement.as_mut_slice())?;
        }
    }
    emit(&InstDecoder::default(), fields).ok()
}

/// Moves code, and appends it to what is moved; `None` where an instruction can't be moved, or there is none.
pub fn move_code(code: &[u8], out: &mut Vec<u8>) -> Option<()> {
    let decoder = InstDecoder::default();
    laws::cuts_cover();
    for cut in Sweep::new(InstDecoder::default(), code) {
        let bytes = &code[cut.place..];
        let next = FROM.wrapping_add((cut.place + cut.length) as u64);
        let instruction = decoder.decode_slice(bytes).ok()?;
        let mut fields = Fields::of(&split_decoded(&decoder, &instruction, bytes));
        let encoding = moved(&instruction, &mut fields, next, code.len())?;
        out.extend_from_slice(encoding.as_slice()).ok()?;
    }
    Some(())
}

pub fn main(rt: HostRuntime) -> io::Result<ExitCode> {
    let mut code: Vec<u8> = Vec::new(rt.alloc());
    let mut out: Vec<u8> = Vec::new(rt.alloc());
    rt.reader().read_to_end(&mut code)?;
    if move_code(code.as_slice(), &mut out).is_none() {
        return Ok(ExitCode::from(1));
    }
    io::writer(&rt).write_all(out.as_slice())?;
    Ok(ExitCode::from(0))
}
