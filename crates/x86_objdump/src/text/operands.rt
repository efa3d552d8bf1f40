//! The operands of instructions.

ghost use Rattle.std.specs.Prelude.{◌≡◌, ◌+◌, ◌*◌, ◌<◌, ◌≤◌, ◌++◌, length, take};
ghost use Rattle.x86_decode.specs.Instruction.{operands_of, slot_at};
ghost use Rattle.x86_objdump.specs.Text.Memory.{memory_text};
ghost use Rattle.x86_objdump.specs.Text.Sizes.{memory_size, size_words};
ghost use Rattle.x86_objdump.specs.Text.Operands.{operand_by, listed_operand, following_operands, list_text, first_text, target_text, is_rare_move, is_as_answered, is_target_alone, unlisted_text, listed_operands, comma};
ghost use Rattle.x86_objdump.specs.Text.Shown.{IsRead, parts_in};

use crate::text::context::Context;
use crate::text::immediates::put_immediate;
use crate::text::memory::put_memory;
use crate::text::numbers::signed_of;
use crate::text::rare::put_rarely;
use crate::text::shown::{Shown, immediate_in, parts_in};
use crate::text::sizes::{memory_size, put_register_in, put_size};
use x86_forms::Map;
use x86_operands::{Operand, Slot};
use x86_streams::lines::cells::put;
use x86_streams::lines::hexadecimal::put_prefixed;

/// Writes memory with its size.
#[inline(always)]
fn put_sized_memory(cells: &mut [u8], at: usize, shown: &Shown) -> usize
    requires read { IsRead shown.now }
    requires room { at + 64 ≤ length cells.old }
    ensures text { take result cells.new ≡ take at cells.old
        ++ (size_words (memory_size shown.now.context.now shown.now.inst.now shown.now.entry.now)
        ++ memory_text shown.now.context.now (parts_in shown.now)) }
    ensures short { result ≤ at + 52 }
{
    let at = put_size(
        cells,
        at,
        memory_size(shown.context, shown.inst, shown.entry),
    );
    put_memory(cells, at, shown.context, &parts_in(shown))
}

/// Writes an operand that comes from a slot.
#[inline(always)]
fn put_operand(cells: &mut [u8], at: usize, shown: &Shown, slot: Slot, operand: &Operand) -> usize
    requires read { IsRead shown.now }
    requires room { at + 64 ≤ length cells.old }
    ensures text { take result cells.new ≡ take at cells.old
        ++ operand_by shown.now.context.now shown.now.inst.now shown.now.entry.now (parts_in shown.now)
        slot operand.now }
    ensures short { result ≤ at + 52 }
{
    match operand {
        Operand::Register { reg } => {
            put_register_in(cells, at, shown.context, shown.entry, slot, reg)
        }
        Operand::ImmediateI8 { .. }
        | Operand::ImmediateU8 { .. }
        | Operand::ImmediateI16 { .. }
        | Operand::ImmediateU16 { .. }
        | Operand::ImmediateI32 { .. }
        | Operand::ImmediateU32 { .. }
        | Operand::ImmediateI64 { .. }
        | Operand::ImmediateU64 { .. } => {
            put_immediate(cells, at, shown.context, immediate_in(shown))
        }
        _ => put_sized_memory(cells, at, shown),
    }
}

/// Writes the operand at an index.
#[inline(never)]
pub fn put_operand_at(cells: &mut [u8], at: usize, shown: &Shown, k: u8) -> usize
    requires read { IsRead shown.now }
    requires there { k < 4 }
    requires room { at + 64 ≤ length cells.old }
    ensures text { take result cells.new ≡ take at cells.old
        ++ listed_operand shown.now.context.now shown.now.inst.now shown.now.entry.now
        (parts_in shown.now) k }
    ensures short { result ≤ at + 52 }
{
    put_operand(cells, at, shown, shown.inst.slot(k), &shown.inst.operand(k))
}

/// Writes operands from an index on, each after a comma.
#[inline(never)]
fn put_others(cells: &mut [u8], at: usize, shown: &Shown, k: u8, others: &[Operand]) -> usize
    requires read { IsRead shown.now }
    requires there { k + length others.now ≤ 4 }
    requires room { at + 53 * length others.now + 64 ≤ length cells.old }
    ensures text { take result cells.new ≡ take at cells.old
        ++ following_operands shown.now.context.now shown.now.inst.now shown.now.entry.now (parts_in shown.now)
        k others.now }
    ensures short { result ≤ at + 53 * length others.now }
{
    match others {
        [] => at,
        [first, rest @ ..] => {
            let at = put(cells, at, b',');
            let at = put_operand(cells, at, shown, shown.inst.slot(k), first);
            put_others(cells, at, shown, k + 1, rest)
        }
    }
}

/// Writes the operands after the second, each after a comma. Few instructions have any.
#[inline(always)]
fn put_after_second(cells: &mut [u8], at: usize, shown: &Shown, others: &[Operand]) -> usize
    requires read { IsRead shown.now }
    requires few { length others.now ≤ 2 }
    requires room { at + 170 ≤ length cells.old }
    ensures text { take result cells.new ≡ take at cells.old
        ++ following_operands shown.now.context.now shown.now.inst.now shown.now.entry.now (parts_in shown.now)
        2 others.now }
    ensures short { result ≤ at + 106 }
{
    if others.is_empty() {
        return at;
    }
    let context = *shown.context;
    let shown = Shown {
        context: &context,
        decoder: shown.decoder,
        inst: shown.inst,
        bytes: shown.bytes,
        entry: shown.entry,
        is_common: shown.is_common,
    };
    put_others(cells, at, &shown, 2, others)
}

/// Writes the second operand after a comma.
#[inline(always)]
fn put_second(cells: &mut [u8], at: usize, shown: &Shown, second: &Operand) -> usize
    requires read { IsRead shown.now }
    requires room { at + 65 ≤ length cells.old }
    ensures text { take result cells.new ≡ take at cells.old
        ++ comma ++ operand_by shown.now.context.now shown.now.inst.now shown.now.entry.now (parts_in shown.now)
        (slot_at shown.now.inst.now 1) second.now }
    ensures short { result ≤ at + 53 }
{
    let at = put(cells, at, b',');
    put_operand(cells, at, shown, shown.inst.slot(1), second)
}

/// Writes the operands after the first, each after a comma.
#[inline(always)]
fn put_after_first(cells: &mut [u8], at: usize, shown: &Shown, others: &[Operand]) -> usize
    requires read { IsRead shown.now }
    requires few { length others.now ≤ 3 }
    requires room { at + 224 ≤ length cells.old }
    ensures text { take result cells.new ≡ take at cells.old
        ++ following_operands shown.now.context.now shown.now.inst.now shown.now.entry.now (parts_in shown.now)
        1 others.now }
    ensures short { result ≤ at + 159 }
{
    match others {
        [] => at,
        [second, rest @ ..] => {
            let at = put_second(cells, at, shown, second);
            put_after_second(cells, at, shown, rest)
        }
    }
}

/// Writes the first operands, joined by commas.
#[inline(always)]
fn put_list(cells: &mut [u8], at: usize, shown: &Shown, operands: &[Operand]) -> usize
    requires read { IsRead shown.now }
    requires few { length operands.now ≤ 4 }
    requires room { at + 276 ≤ length cells.old }
    ensures text { take result cells.new ≡ take at cells.old
        ++ list_text shown.now.context.now shown.now.inst.now shown.now.entry.now (parts_in shown.now)
        operands.now }
    ensures short { result ≤ at + 212 }
{
    match operands {
        [] => at,
        [first, others @ ..] => {
            let at = put_operand(cells, at, shown, shown.inst.slot(0), first);
            put_after_first(cells, at, shown, others)
        }
    }
}

/// Writes the first operands by calls: few instructions need it, so it is no second caller of `put_list`, which then is
/// inlined.
#[inline(never)]
fn put_list_apart(cells: &mut [u8], at: usize, shown: &Shown, operands: &[Operand]) -> usize
    requires read { IsRead shown.now }
    requires few { length operands.now ≤ 4 }
    requires room { at + 276 ≤ length cells.old }
    ensures text { take result cells.new ≡ take at cells.old
        ++ list_text shown.now.context.now shown.now.inst.now shown.now.entry.now (parts_in shown.now)
        operands.now }
    ensures short { result ≤ at + 212 }
{
    match operands {
        [] => at,
        [first, others @ ..] => {
            let at = put_operand(cells, at, shown, shown.inst.slot(0), first);
            put_others(cells, at, shown, 1, others)
        }
    }
}

/// Writes all operands as the decoder answers them.
#[inline(always)]
fn put_all(cells: &mut [u8], at: usize, shown: &Shown) -> usize
    requires read { IsRead shown.now }
    requires room { at + 276 ≤ length cells.old }
    ensures text { take result cells.new ≡ take at cells.old
        ++ list_text shown.now.context.now shown.now.inst.now shown.now.entry.now (parts_in shown.now)
        (operands_of shown.now.inst.now) }
    ensures short { result ≤ at + 212 }
{
    let operands = shown.inst.operands();
    if shown.is_common {
        put_list(cells, at, shown, operands)
    } else {
        put_list_apart(cells, at, shown, operands)
    }
}

/// The first operands, or all where there are fewer.
fn first_operands(operands: &[Operand], count: usize) -> &[Operand]
    ensures { result.now ≡ take count operands.now }
{
    if count < operands.len() {
        &operands[..count]
    } else {
        operands
    }
}

/// Writes so many operands, or all where there are fewer.
pub fn put_first_operands(cells: &mut [u8], at: usize, shown: &Shown, count: u8) -> usize
    requires read { IsRead shown.now }
    requires room { at + 276 ≤ length cells.old }
    ensures text { take result cells.new ≡ take at cells.old
        ++ first_text shown.now.context.now shown.now.inst.now shown.now.entry.now (parts_in shown.now)
        count }
    ensures short { result ≤ at + 212 }
{
    let operands = first_operands(shown.inst.operands(), count as usize);
    put_list_apart(cells, at, shown, operands)
}

/// Writes the address that a relative branch leads to.
#[inline(always)]
fn put_target(cells: &mut [u8], at: usize, next: u64, bytes: &[u8]) -> usize
    requires { at + 18 ≤ length cells.old }
    ensures text { take result cells.new ≡ take at cells.old ++ target_text next bytes.now }
    ensures short { result ≤ at + 18 }
{
    put_prefixed(cells, at, next.wrapping_add_signed(signed_of(bytes)))
}

/// Whether a MOV isn't as its operands are.
#[inline(always)]
fn is_rare_move(context: &Context) -> bool
    ensures { result ≡ is_rare_move context.now }
{
    matches!(context.map, Map::One)
        && (context.is_offset()
            || matches!(context.opcode, 0x8c | 0x8e) && !context.modrm.is_memory())
}

/// Whether the operands are written as the decoder answers them.
#[inline(always)]
fn is_as_answered(shown: &Shown) -> bool
    ensures { result ≡ is_as_answered shown.now.context.now shown.now.entry.now }
{
    match shown.entry.shape_letter() {
        b'-' => true,
        b'k' => !is_rare_move(shown.context),
        _ => false,
    }
}

/// Whether the operand is the address that a relative branch leads to.
#[inline(always)]
fn is_target_alone(shown: &Shown) -> bool
    ensures { result ≡ is_target_alone shown.now.context.now shown.now.entry.now }
{
    match shown.entry.shape_letter() {
        b'j' => true,
        b'J' => !shown.context.has_modrm,
        _ => false,
    }
}

/// Writes operands that are neither.
#[inline(never)]
fn put_unlisted(cells: &mut [u8], at: usize, shown: &Shown) -> usize
    requires read { IsRead shown.now }
    requires room { at + 276 ≤ length cells.old }
    ensures text { take result cells.new ≡ take at cells.old
        ++ unlisted_text shown.now.context.now shown.now.inst.now shown.now.entry.now (parts_in shown.now) }
    ensures short { result ≤ at + 250 }
{
    match shown.entry.shape_letter() {
        b'J' => put_operand_at(cells, at, shown, 0),
        _ => put_rarely(cells, at, shown),
    }
}

/// Calls `put_unlisted` with copies, so that what the caller shows needs no memory.
#[inline(always)]
fn put_apart(cells: &mut [u8], at: usize, shown: &Shown) -> usize
    requires read { IsRead shown.now }
    requires room { at + 276 ≤ length cells.old }
    ensures text { take result cells.new ≡ take at cells.old
        ++ unlisted_text shown.now.context.now shown.now.inst.now shown.now.entry.now (parts_in shown.now) }
    ensures short { result ≤ at + 250 }
{
    let context = *shown.context;
    let shown = Shown {
        context: &context,
        decoder: shown.decoder,
        inst: shown.inst,
        bytes: shown.bytes,
        entry: shown.entry,
        is_common: shown.is_common,
    };
    put_unlisted(cells, at, &shown)
}

/// Writes the operands of an instruction, where the next instruction is at the address `next`.
#[inline(always)]
#[tactic(auto, unfolding(crate::specs::Text::Operands::listed_operands))]
pub fn put_operands(cells: &mut [u8], at: usize, shown: &Shown, next: u64) -> usize
    requires read { IsRead shown.now }
    requires room { at + 276 ≤ length cells.old }
    ensures text { take result cells.new ≡ take at cells.old
        ++ listed_operands shown.now.context.now shown.now.inst.now shown.now.entry.now (parts_in shown.now)
        next }
    ensures short { result ≤ at + 250 }
{
    if is_as_answered(shown) {
        put_all(cells, at, shown)
    } else if is_target_alone(shown) {
        put_target(cells, at, next, immediate_in(shown))
    } else {
        put_apart(cells, at, shown)
    }
}
