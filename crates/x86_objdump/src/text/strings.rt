//! The operands of string operations.

ghost use Rattle.std.specs.Prelude.{◌≡◌, ◌+◌, ◌≤◌, ◌++◌, length, take};
ghost use Rattle.x86_objdump.specs.Text.Operands.{string_size, source_text, destination_text, string_first, string_second, string_text};

use crate::text::context::Context;
use crate::text::memory::put_segment;
use crate::text::registers::put_accumulator;
use crate::text::sizes::put_size;
use x86_decode::Instruction;
use x86_opcodes::Opcode;
use x86_streams::lines::cells::{put, put_bytes};

/// The bytes that a string operation moves at a time.
fn string_size(context: &Context, inst: &Instruction) -> u8
    ensures { result ≡ string_size context.now inst.now }
{
    if context.opcode % 2 == 0 {
        return 1;
    }
    match inst.opcode() {
        Opcode::INS | Opcode::OUTS if context.has_two_bytes() => 2,
        Opcode::INS | Opcode::OUTS => 4,
        _ => context.prefixes.v_class().width(),
    }
}

/// Writes memory at rSI.
fn put_source(cells: &mut [u8], at: usize, context: &Context, size: u8) -> usize
    requires { at + 32 ≤ length cells.old }
    ensures text { take result cells.new ≡ take at cells.old ++ source_text context.now size }
    ensures short { result ≤ at + 24 }
{
    let at = put_size(cells, at, size);
    let at = put_segment(cells, at, context, b"ds: ", 3);
    if context.prefixes.address_size() {
        put_bytes(cells, at, b"[esi]")
    } else {
        put_bytes(cells, at, b"[rsi]")
    }
}

/// Writes memory at rDI.
fn put_destination(cells: &mut [u8], at: usize, context: &Context, size: u8) -> usize
    requires { at + 32 ≤ length cells.old }
    ensures text { take result cells.new ≡ take at cells.old ++ destination_text context.now size }
    ensures short { result ≤ at + 24 }
{
    let at = put_size(cells, at, size);
    if context.prefixes.address_size() {
        put_bytes(cells, at, b"es:[edi]")
    } else {
        put_bytes(cells, at, b"es:[rdi]")
    }
}

fn put_string_first(
    cells: &mut [u8],
    at: usize,
    context: &Context,
    inst: &Instruction,
    size: u8,
) -> usize
    requires { at + 32 ≤ length cells.old }
    ensures text { take result cells.new ≡
        take at cells.old ++ string_first context.now inst.now size }
    ensures short { result ≤ at + 24 }
{
    match inst.opcode() {
        Opcode::LODS | Opcode::SCAS => put_accumulator(cells, at, size),
        Opcode::OUTS => put_bytes(cells, at, b"dx"),
        Opcode::CMPS => put_source(cells, at, context, size),
        _ => put_destination(cells, at, context, size),
    }
}

fn put_string_second(
    cells: &mut [u8],
    at: usize,
    context: &Context,
    inst: &Instruction,
    size: u8,
) -> usize
    requires { at + 32 ≤ length cells.old }
    ensures text { take result cells.new ≡
        take at cells.old ++ string_second context.now inst.now size }
    ensures short { result ≤ at + 24 }
{
    match inst.opcode() {
        Opcode::STOS => put_accumulator(cells, at, size),
        Opcode::INS => put_bytes(cells, at, b"dx"),
        Opcode::SCAS | Opcode::CMPS => put_destination(cells, at, context, size),
        _ => put_source(cells, at, context, size),
    }
}

/// Writes both operands of a string operation.
pub fn put_string(cells: &mut [u8], at: usize, context: &Context, inst: &Instruction) -> usize
    requires { at + 64 ≤ length cells.old }
    ensures text { take result cells.new ≡ take at cells.old ++ string_text context.now inst.now }
    ensures short { result ≤ at + 49 }
{
    let size = string_size(context, inst);
    let at = put_string_first(cells, at, context, inst, size);
    let at = put(cells, at, b',');
    put_string_second(cells, at, context, inst, size)
}
