//! Operands that aren't written as the decoder answers them.

ghost use Rattle.std.specs.Prelude.{◌≡◌, ◌+◌, ◌<◌, ◌≤◌, ◌++◌, drop, length, take};
ghost use Rattle.x86_objdump.specs.Text.Operands.{table_text, two_numbers, exchange_text, rm_register, offset_address, offset_accumulator, offset_text, segment_move_text, x87_register, two_registers, x87_registers, x87_text, hint_text, field_text, without_named, last_text, rare_text};
ghost use Rattle.x86_objdump.specs.Text.Shown.{IsRead, parts_in};

use crate::text::context::Context;
use crate::text::memory::put_segment;
use crate::text::names::is_in_name;
use crate::text::numbers::plain_number;
use crate::text::operands::{put_first_operands, put_operand_at};
use crate::text::registers::put_register_of;
use crate::text::shown::{Shown, immediate_in};
use crate::text::strings::put_string;
use x86_fields::extend;
use x86_operands::Operand;
use x86_regs::RegisterClass;
use x86_streams::lines::cells::{put, put_bytes};
use x86_streams::lines::hexadecimal::put_prefixed;
use x86_text::put_register;

/// Writes the operand of XLAT.
fn put_table(cells: &mut [u8], at: usize, context: &Context) -> usize
    requires { at + 32 ≤ length cells.old }
    ensures text { take result cells.new ≡ take at cells.old ++ table_text context.now }
    ensures short { result ≤ at + 24 }
{
    let at = put_bytes(cells, at, b"BYTE PTR ");
    let at = put_segment(cells, at, context, b"ds: ", 3);
    if context.prefixes.address_size() {
        put_bytes(cells, at, b"[ebx]")
    } else {
        put_bytes(cells, at, b"[rbx]")
    }
}

/// Writes two immediates: the first has so many bytes.
fn put_two_numbers(cells: &mut [u8], at: usize, count: usize, bytes: &[u8]) -> usize
    requires { at + 37 ≤ length cells.old }
    ensures text { take result cells.new ≡ take at cells.old ++ two_numbers count bytes.now }
    ensures short { result ≤ at + 37 }
{
    let (first, second) = bytes.split_at(count.min(bytes.len()));
    let at = put_prefixed(cells, at, plain_number(first));
    let at = put(cells, at, b',');
    put_prefixed(cells, at, plain_number(second))
}

/// Writes the operands of XCHG by its opcode byte.
fn put_exchange(cells: &mut [u8], at: usize, context: &Context) -> usize
    requires { at + 16 ≤ length cells.old }
    ensures text { take result cells.new ≡ take at cells.old ++ exchange_text context.now }
    ensures short { result ≤ at + 13 }
{
    if context.opcode == 0x90 && (context.prefixes.rep() || !context.is_exchange()) {
        return at;
    }
    let class = context.prefixes.v_class();
    let num = extend(context.prefixes.has_b(), context.opcode % 8);
    let at = put_register_of(cells, at, class, num);
    let at = put(cells, at, b',');
    put_register_of(cells, at, class, 0)
}

fn put_rm_register(cells: &mut [u8], at: usize, class: RegisterClass, context: &Context) -> usize
    requires { at + 8 ≤ length cells.old }
    ensures text { take result cells.new ≡ take at cells.old ++ rm_register class context.now }
    ensures short { result ≤ at + 6 }
{
    put_register_of(cells, at, class, context.prefixes.rm_number(context.modrm))
}

fn put_offset_address(cells: &mut [u8], at: usize, shown: &Shown) -> usize
    requires read { IsRead shown.now }
    requires room { at + 24 ≤ length cells.old }
    ensures text { take result cells.new ≡
        take at cells.old ++ offset_address shown.now.context.now (parts_in shown.now) }
    ensures short { result ≤ at + 21 }
{
    let at = put_segment(cells, at, shown.context, b"ds: ", 3);
    put_prefixed(cells, at, plain_number(immediate_in(shown)))
}

fn put_offset_accumulator(cells: &mut [u8], at: usize, context: &Context) -> usize
    requires { at + 8 ≤ length cells.old }
    ensures text { take result cells.new ≡ take at cells.old ++ offset_accumulator context.now }
    ensures short { result ≤ at + 6 }
{
    if context.opcode % 2 == 0 {
        put_register_of(cells, at, RegisterClass::B, 0)
    } else {
        put_register_of(cells, at, context.prefixes.v_class(), 0)
    }
}

/// Writes the operands of MOV between the accumulator and an absolute address.
fn put_offset(cells: &mut [u8], at: usize, shown: &Shown) -> usize
    requires read { IsRead shown.now }
    requires room { at + 48 ≤ length cells.old }
    ensures text { take result cells.new ≡
        take at cells.old ++ offset_text shown.now.context.now (parts_in shown.now) }
    ensures short { result ≤ at + 28 }
{
    if shown.context.opcode < 0xa2 {
        let at = put_offset_accumulator(cells, at, shown.context);
        let at = put(cells, at, b',');
        put_offset_address(cells, at, shown)
    } else {
        let at = put_offset_address(cells, at, shown);
        let at = put(cells, at, b',');
        put_offset_accumulator(cells, at, shown.context)
    }
}

/// Writes the operands of MOV between a segment register and a general one.
fn put_segment_move(cells: &mut [u8], at: usize, shown: &Shown) -> usize
    requires read { IsRead shown.now }
    requires room { at + 96 ≤ length cells.old }
    ensures text { take result cells.new ≡ take at cells.old
        ++ segment_move_text shown.now.context.now shown.now.inst.now shown.now.entry.now
        (parts_in shown.now) }
    ensures short { result ≤ at + 59 }
{
    let class = shown.context.prefixes.v_class();
    if shown.context.opcode == 0x8c {
        let at = put_rm_register(cells, at, class, shown.context);
        let at = put(cells, at, b',');
        put_operand_at(cells, at, shown, 1)
    } else {
        let at = put_operand_at(cells, at, shown, 0);
        let at = put(cells, at, b',');
        put_rm_register(cells, at, class, shown.context)
    }
}

fn put_x87_register(cells: &mut [u8], at: usize, operand: &Operand) -> usize
    requires { at + 8 ≤ length cells.old }
    ensures text { take result cells.new ≡ take at cells.old ++ x87_register operand.now }
    ensures short { result ≤ at + 6 }
{
    match operand {
        Operand::Register { reg } => put_register(cells, at, reg),
        _ => at,
    }
}

fn put_two_registers(cells: &mut [u8], at: usize, shown: &Shown) -> usize
    requires read { IsRead shown.now }
    requires room { at + 16 ≤ length cells.old }
    ensures text { take result cells.new ≡ take at cells.old
        ++ two_registers shown.now.context.now shown.now.inst.now shown.now.entry.now
        (parts_in shown.now) }
    ensures short { result ≤ at + 9 }
{
    if matches!(shown.context.opcode, 0xdc | 0xde) {
        let at = put_x87_register(cells, at, &shown.inst.operand(0));
        let at = put(cells, at, b',');
        put_bytes(cells, at, b"st")
    } else {
        let at = put_bytes(cells, at, b"st");
        let at = put(cells, at, b',');
        put_x87_register(cells, at, &shown.inst.operand(1))
    }
}

fn put_x87_registers(cells: &mut [u8], at: usize, shown: &Shown) -> usize
    requires read { IsRead shown.now }
    requires room { at + 16 ≤ length cells.old }
    ensures text { take result cells.new ≡ take at cells.old
        ++ x87_registers shown.now.context.now shown.now.inst.now shown.now.entry.now
        (parts_in shown.now) }
    ensures short { result ≤ at + 9 }
{
    if shown.inst.operand_count() < 2 {
        return put_x87_register(cells, at, &shown.inst.operand(0));
    }
    match shown.entry.shape_letter() {
        b'l' => put_x87_register(cells, at, &shown.inst.operand(1)),
        b't' => put_x87_register(cells, at, &shown.inst.operand(0)),
        _ => put_two_registers(cells, at, shown),
    }
}

fn put_x87(cells: &mut [u8], at: usize, shown: &Shown) -> usize
    requires read { IsRead shown.now }
    requires room { at + 64 ≤ length cells.old }
    ensures text { take result cells.new ≡ take at cells.old
        ++ x87_text shown.now.context.now shown.now.inst.now shown.now.entry.now (parts_in shown.now) }
    ensures short { result ≤ at + 52 }
{
    if !shown.context.modrm.is_memory() {
        return put_x87_registers(cells, at, shown);
    }
    if shown.inst.slot(0).is_memory() {
        put_operand_at(cells, at, shown, 0)
    } else {
        put_operand_at(cells, at, shown, 1)
    }
}

fn put_hint(cells: &mut [u8], at: usize, shown: &Shown) -> usize
    requires read { IsRead shown.now }
    requires room { at + 276 ≤ length cells.old }
    ensures text { take result cells.new ≡ take at cells.old
        ++ hint_text shown.now.context.now shown.now.inst.now shown.now.entry.now (parts_in shown.now) }
    ensures short { result ≤ at + 212 }
{
    if !shown.context.has_modrm {
        return put_exchange(cells, at, shown.context);
    }
    if shown.context.opcode == 0x1e && shown.context.is_shadow_read() {
        put_rm_register(cells, at, shown.context.prefixes.dq_class(), shown.context)
    } else {
        put_first_operands(cells, at, shown, 1)
    }
}

fn put_fields(cells: &mut [u8], at: usize, shown: &Shown) -> usize
    requires read { IsRead shown.now }
    requires room { at + 276 ≤ length cells.old }
    ensures text { take result cells.new ≡ take at cells.old
        ++ field_text shown.now.context.now shown.now.inst.now shown.now.entry.now (parts_in shown.now) }
    ensures short { result ≤ at + 250 }
{
    match immediate_in(shown) {
        [] => put_first_operands(cells, at, shown, 4),
        bytes => {
            let count = shown.inst.operand_count().saturating_sub(2);
            let at = put_first_operands(cells, at, shown, count);
            let at = put(cells, at, b',');
            put_two_numbers(cells, at, 1, bytes)
        }
    }
}

fn put_without_named(cells: &mut [u8], at: usize, shown: &Shown) -> usize
    requires read { IsRead shown.now }
    requires room { at + 276 ≤ length cells.old }
    ensures text { take result cells.new ≡ take at cells.old
        ++ without_named shown.now.context.now shown.now.inst.now shown.now.entry.now
        (parts_in shown.now) }
    ensures short { result ≤ at + 212 }
{
    if is_in_name(shown.entry.name_letter(), immediate_in(shown)) {
        let count = shown.inst.operand_count().saturating_sub(1);
        put_first_operands(cells, at, shown, count)
    } else {
        put_first_operands(cells, at, shown, 4)
    }
}

/// Writes operands of which the last isn't as the decoder answers it.
#[tactic(auto, unfolding(crate::specs::Text::Operands::last_text))]
fn put_last(cells: &mut [u8], at: usize, shown: &Shown) -> usize
    requires read { IsRead shown.now }
    requires room { at + 276 ≤ length cells.old }
    ensures text { take result cells.new ≡ take at cells.old
        ++ last_text shown.now.context.now shown.now.inst.now shown.now.entry.now (parts_in shown.now) }
    ensures short { result ≤ at + 250 }
{
    match shown.entry.shape_letter() {
        b'm' => {
            let at = put_first_operands(cells, at, shown, 2);
            put_bytes(cells, at, b",xmm0")
        }
        b'2' => put_fields(cells, at, shown),
        b'i' if shown.context.opcode == 0xcd => put_first_operands(cells, at, shown, 4),
        b'i' => at,
        _ => put_without_named(cells, at, shown),
    }
}

/// Writes the operands of the instructions that have a shape of their own.
#[inline(never)]
pub fn put_rarely(cells: &mut [u8], at: usize, shown: &Shown) -> usize
    requires read { IsRead shown.now }
    requires room { at + 276 ≤ length cells.old }
    ensures text { take result cells.new ≡ take at cells.old
        ++ rare_text shown.now.context.now shown.now.inst.now shown.now.entry.now (parts_in shown.now) }
    ensures short { result ≤ at + 250 }
{
    match shown.entry.shape_letter() {
        b's' => put_string(cells, at, shown.context, shown.inst),
        b'x' => put_table(cells, at, shown.context),
        b'e' => put_two_numbers(cells, at, 2, immediate_in(shown)),
        b'f' | b'l' | b't' => put_x87(cells, at, shown),
        b'w' if shown.context.modrm.is_memory() => put_operand_at(cells, at, shown, 0),
        b'w' => put_bytes(cells, at, b"ax"),
        b'h' => put_hint(cells, at, shown),
        b'r' if shown.context.has_modrm => put_first_operands(cells, at, shown, 4),
        b'r' => put_exchange(cells, at, shown.context),
        b'n' => at,
        b'k' if shown.context.is_offset() => put_offset(cells, at, shown),
        b'k' => put_segment_move(cells, at, shown),
        _ => put_last(cells, at, shown),
    }
}
