//! The sizes of registers and of memory, where the row has others than the processor.

ghost use Rattle.std.specs.Prelude.{◌≡◌, ◌==◌, ◌+◌, ◌≤◌, ◌++◌, IsTrue, if◌then◌else◌, length, take};
ghost use Rattle.x86_operands.specs.declared.operands.Slot.{Slot};
ghost use Rattle.x86_text.specs.Operands.{register_text};
ghost use Rattle.x86_objdump.specs.Text.Sizes.{stack_class, class_by_67, class_by_letter, register_with, slot_letter, register_in, size_by_letter, memory_size, size_words};

use crate::text::choices::is_special;
use crate::text::context::Context;
use crate::text::names::Entry;
use x86_decode::Instruction;
use x86_forms::Map;
use x86_operands::Slot;
use x86_regs::{RegSpec, RegisterClass};
use x86_streams::lines::cells::put_first;
use x86_text::{put_register, size_number};

#[inline(always)]
pub fn stack_class(context: &Context) -> RegisterClass
    ensures { result ≡ stack_class context.now }
{
    if context.has_two_bytes() {
        RegisterClass::W
    } else {
        RegisterClass::Q
    }
}

#[inline(always)]
pub fn class_by_67(context: &Context) -> RegisterClass
    ensures { result ≡ class_by_67 context.now }
{
    if context.prefixes.address_size() {
        RegisterClass::D
    } else {
        RegisterClass::Q
    }
}

/// The class of a letter, or none where the register is as the row has it.
fn class_by_letter(context: &Context, letter: u8) -> Option<RegisterClass>
    ensures { result ≡ class_by_letter context.now letter }
{
    match letter {
        b'v' => Some(context.prefixes.v_class()),
        b'y' => Some(context.prefixes.dq_class()),
        b'd' => Some(RegisterClass::D),
        b'p' if matches!(context.map, Map::One) => Some(stack_class(context)),
        b'a' => Some(class_by_67(context)),
        b'b' if context.opcode % 2 == 1 => Some(context.prefixes.v_class()),
        b'e' if matches!(context.map, Map::Of) => Some(RegisterClass::D),
        b't' if matches!(context.map, Map::Of3a) => Some(RegisterClass::D),
        _ => None,
    }
}

fn register_with(reg: &RegSpec, class: Option<RegisterClass>) -> RegSpec
    ensures { result ≡ register_with reg.now class }
{
    match class {
        Some(class) => RegSpec::of(reg.num(), class),
        None => *reg,
    }
}

#[inline(always)]
fn slot_letter(entry: &Entry, slot: Slot) -> u8
    ensures { result ≡ slot_letter entry.now slot }
{
    match slot {
        Slot::Reg => entry.reg_letter(),
        Slot::Rm => entry.rm_letter(),
        _ => b'-',
    }
}

/// Whether the registers of both fields are as the row has them.
#[inline(always)]
#[tactic(auto, using(crate::proofs::Letters::every_slot))]
fn is_as_row(entry: &Entry) -> bool
    ensures { IsTrue result → (slot : Slot) → slot_letter entry.now slot ≡ 45 }
{
    entry.reg_letter() == b'-' && entry.rm_letter() == b'-'
}

/// Writes a register with the size of a letter.
#[inline(never)]
fn put_lettered(cells: &mut [u8], at: usize, context: &Context, letter: u8, reg: &RegSpec) -> usize
    requires { at + 8 ≤ length cells.old }
    ensures text { take result cells.new ≡ take at cells.old
        ++ (if letter == 45 then register_text reg.now
        else register_text (register_with reg.now (class_by_letter context.now letter))) }
    ensures short { result ≤ at + 6 }
{
    if letter == b'-' {
        put_register(cells, at, reg)
    } else {
        put_register(
            cells,
            at,
            &register_with(reg, class_by_letter(context, letter)),
        )
    }
}

/// Calls `put_lettered` with a copy of the context, so that the caller's needs no memory.
#[inline(always)]
fn put_apart(cells: &mut [u8], at: usize, context: &Context, letter: u8, reg: &RegSpec) -> usize
    requires { at + 8 ≤ length cells.old }
    ensures text { take result cells.new ≡ take at cells.old
        ++ (if letter == 45 then register_text reg.now
        else register_text (register_with reg.now (class_by_letter context.now letter))) }
    ensures short { result ≤ at + 6 }
{
    let context = *context;
    put_lettered(cells, at, &context, letter, reg)
}

/// Writes a register in a slot.
#[inline(always)]
pub fn put_register_in(
    cells: &mut [u8],
    at: usize,
    context: &Context,
    entry: &Entry,
    slot: Slot,
    reg: &RegSpec,
) -> usize
    requires { at + 8 ≤ length cells.old }
    ensures text { take result cells.new ≡
        take at cells.old ++ register_in context.now entry.now slot reg.now }
    ensures short { result ≤ at + 6 }
{
    if is_as_row(entry) {
        return put_register(cells, at, reg);
    }
    put_apart(cells, at, context, slot_letter(entry, slot), reg)
}

#[inline(never)]
fn size_by_letter(context: &Context, letter: u8) -> u8
    ensures { result ≡ size_by_letter context.now letter }
{
    match letter {
        b'0' => 0,
        b'1' => 1,
        b'8' => 8,
        b'o' => 17,
        b'f' if context.prefixes.operand_size() => 4,
        b'f' => 6,
        b'b' if context.opcode % 2 == 0 => 1,
        b'h' if is_special(context) => 1,
        b'y' => context.prefixes.dq_class().width(),
        b'p' => stack_class(context).width(),
        _ => context.prefixes.v_class().width(),
    }
}

/// The size of a letter, by a copy of the context.
#[inline(always)]
fn size_apart(context: &Context, letter: u8) -> u8
    ensures { result ≡ size_by_letter context.now letter }
{
    let context = *context;
    size_by_letter(&context, letter)
}

/// The size of memory.
#[inline(always)]
pub fn memory_size(context: &Context, inst: &Instruction, entry: &Entry) -> u8
    ensures { result ≡ memory_size context.now inst.now entry.now }
{
    if entry.memory_letter() == b'-' {
        size_number(inst)
    } else {
        size_apart(context, entry.memory_letter())
    }
}

/// Writes a size of memory.
#[inline(always)]
pub fn put_size(cells: &mut [u8], at: usize, size: u8) -> usize
    requires { at + 16 ≤ length cells.old }
    ensures text { take result cells.new ≡ take at cells.old ++ size_words size }
    ensures short { result ≤ at + 12 }
{
    match size {
        1 => put_first(cells, at, b"BYTE PTR        ", 9),
        2 => put_first(cells, at, b"WORD PTR        ", 9),
        4 => put_first(cells, at, b"DWORD PTR       ", 10),
        6 => put_first(cells, at, b"FWORD PTR       ", 10),
        8 => put_first(cells, at, b"QWORD PTR       ", 10),
        10 => put_first(cells, at, b"TBYTE PTR       ", 10),
        16 => put_first(cells, at, b"XMMWORD PTR     ", 12),
        17 => put_first(cells, at, b"OWORD PTR       ", 10),
        _ => at,
    }
}
