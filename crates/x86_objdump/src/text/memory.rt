//! The text of memory, from ModRM, SIB and the displacement.

ghost use Rattle.std.specs.Prelude.{◌≡◌, ℤ, ◌+◌, ◌^◌, ◌<◌, ◌≤◌, ◌++◌, length, take, unsigned_abs};
ghost use Rattle.std.specs.Int.{w64, cast_unsigned};
ghost use Rattle.x86_fields.specs.Parts.{lists_of};
ghost use Rattle.x86_objdump.specs.Text.Memory.{segment_text, addressing_register, distance_text, absolute_text, is_relative, relative_text, modrm_distance, base_and_distance, plain_memory, has_base, index_number, has_no_register, writes_index, sib_base, index_name, scale_text, sib_index, sib_distance, sib_memory, memory_text};

use crate::text::context::Context;
use crate::text::numbers::signed_of;
use x86_fields::{Parts, Sib, extend};
use x86_regs::{RegSpec, RegisterClass, Segment};
use x86_streams::lines::cells::{put, put_first};
use x86_streams::lines::hexadecimal::put_prefixed;
use x86_text::put_register;

/// Writes the segment that 64 or 65 chose, or the first bytes of another block where none did.
#[inline(always)]
pub fn put_segment(
    cells: &mut [u8],
    at: usize,
    context: &Context,
    other: &[u8; 4],
    count: usize,
) -> usize
    requires room { at + 4 ≤ length cells.old }
    requires count { count ≤ 3 }
    ensures text { take result cells.new ≡
        take at cells.old ++ segment_text context.now (take count other.now) }
    ensures short { result ≤ at + 3 }
{
    match context.prefixes.segment() {
        Segment::FS => put_first(cells, at, b"fs: ", 3),
        Segment::GS => put_first(cells, at, b"gs: ", 3),
        _ => put_first(cells, at, other, count),
    }
}

#[inline(always)]
fn put_address_register(cells: &mut [u8], at: usize, context: &Context, num: u8) -> usize
    requires { at + 8 ≤ length cells.old }
    ensures text { take result cells.new ≡
        take at cells.old ++ addressing_register context.now num }
    ensures short { result ≤ at + 6 }
{
    if context.prefixes.address_size() {
        put_register(cells, at, &RegSpec::of(num, RegisterClass::D))
    } else {
        put_register(cells, at, &RegSpec::of(num, RegisterClass::Q))
    }
}

#[inline(always)]
fn put_distance(cells: &mut [u8], at: usize, disp: i64) -> usize
    requires { at + 19 ≤ length cells.old }
    ensures text { take result cells.new ≡ take at cells.old ++ distance_text disp }
    ensures short { result ≤ at + 19 }
{
    let at = put(cells, at, if disp < 0 { b'-' } else { b'+' });
    put_prefixed(cells, at, disp.unsigned_abs())
}

#[inline(always)]
fn put_absolute(cells: &mut [u8], at: usize, disp: i64) -> usize
    requires { at + 18 ≤ length cells.old }
    ensures text { take result cells.new ≡ take at cells.old ++ absolute_text disp }
    ensures short { result ≤ at + 18 }
{
    put_prefixed(cells, at, disp.cast_unsigned())
}

/// Whether ModRM spells an address that is relative to the next instruction.
#[inline(always)]
pub fn is_relative(context: &Context) -> bool
    ensures { result ≡ is_relative context.now }
{
    context.has_modrm && (context.modrm.mod_field() == 0 && context.modrm.rm_field() == 5)
}

#[inline(always)]
fn put_relative(cells: &mut [u8], at: usize, context: &Context, disp: i64) -> usize
    requires { at + 22 ≤ length cells.old }
    ensures text { take result cells.new ≡ take at cells.old ++ relative_text context.now disp }
    ensures short { result ≤ at + 22 }
{
    let at = if context.prefixes.address_size() {
        put_first(cells, at, b"eip+", 4)
    } else {
        put_first(cells, at, b"rip+", 4)
    };
    put_absolute(cells, at, disp)
}

#[inline(always)]
fn put_modrm_distance(cells: &mut [u8], at: usize, context: &Context, disp: i64) -> usize
    requires { at + 19 ≤ length cells.old }
    ensures text { take result cells.new ≡ take at cells.old ++ modrm_distance context.now disp }
    ensures short { result ≤ at + 19 }
{
    if context.modrm.mod_field() == 0 {
        at
    } else {
        put_distance(cells, at, disp)
    }
}

#[inline(always)]
fn put_base(cells: &mut [u8], at: usize, context: &Context, disp: i64) -> usize
    requires { at + 27 ≤ length cells.old }
    ensures text { take result cells.new ≡ take at cells.old ++ base_and_distance context.now disp }
    ensures short { result ≤ at + 25 }
{
    let num = context.prefixes.rm_number(context.modrm);
    let at = put_address_register(cells, at, context, num);
    put_modrm_distance(cells, at, context, disp)
}

#[inline(always)]
fn put_plain_memory(cells: &mut [u8], at: usize, context: &Context, disp: i64) -> usize
    requires { at + 48 ≤ length cells.old }
    ensures text { take result cells.new ≡ take at cells.old ++ plain_memory context.now disp }
    ensures short { result ≤ at + 32 }
{
    let at = put_segment(cells, at, context, b"    ", 0);
    let at = put(cells, at, b'[');
    let at = if is_relative(context) {
        put_relative(cells, at, context, disp)
    } else {
        put_base(cells, at, context, disp)
    };
    put(cells, at, b']')
}

#[inline(always)]
fn has_base(context: &Context, sib: Sib) -> bool
    ensures { result ≡ has_base context.now sib }
{
    !(context.modrm.mod_field() == 0 && sib.base_field() == 5)
}

#[inline(always)]
fn index_number(context: &Context, sib: Sib) -> u8
    ensures value { result ≡ index_number context.now sib }
    ensures small { result < 16 }
{
    extend(context.prefixes.has_x(), sib.index_field())
}

#[inline(always)]
fn has_no_register(context: &Context, sib: Sib) -> bool
    ensures { result ≡ has_no_register context.now sib }
{
    !has_base(context, sib)
        && (index_number(context, sib) == 4
            && (sib.scale_field() == 0 && !context.prefixes.address_size()))
}

#[inline(always)]
fn writes_index(context: &Context, sib: Sib) -> bool
    ensures { result ≡ writes_index context.now sib }
{
    if index_number(context, sib) != 4 || sib.scale_field() != 0 {
        return true;
    }
    if has_base(context, sib) {
        sib.base_field() != 4
    } else {
        context.prefixes.address_size()
    }
}

#[inline(always)]
fn put_sib_base(cells: &mut [u8], at: usize, context: &Context, sib: Sib) -> usize
    requires { at + 8 ≤ length cells.old }
    ensures text { take result cells.new ≡ take at cells.old ++ sib_base context.now sib }
    ensures short { result ≤ at + 6 }
{
    if has_base(context, sib) {
        let num = extend(context.prefixes.has_b(), sib.base_field());
        put_address_register(cells, at, context, num)
    } else {
        at
    }
}

#[inline(always)]
fn put_index_name(cells: &mut [u8], at: usize, context: &Context, sib: Sib) -> usize
    requires { at + 8 ≤ length cells.old }
    ensures text { take result cells.new ≡ take at cells.old ++ index_name context.now sib }
    ensures short { result ≤ at + 6 }
{
    let num = index_number(context, sib);
    if num != 4 {
        put_address_register(cells, at, context, num)
    } else if context.prefixes.address_size() {
        put_first(cells, at, b"eiz ", 3)
    } else {
        put_first(cells, at, b"riz ", 3)
    }
}

#[inline(always)]
fn put_scale(cells: &mut [u8], at: usize, sib: Sib) -> usize
    requires { at + 2 ≤ length cells.old }
    ensures text { take result cells.new ≡ take at cells.old ++ scale_text sib }
    ensures place { result ≡ at + 2 }
{
    match sib.scale_field() {
        0 => put_first(cells, at, b"*1", 2),
        1 => put_first(cells, at, b"*2", 2),
        2 => put_first(cells, at, b"*4", 2),
        _ => put_first(cells, at, b"*8", 2),
    }
}

#[inline(always)]
fn put_sib_index(cells: &mut [u8], at: usize, context: &Context, sib: Sib) -> usize
    requires { at + 12 ≤ length cells.old }
    ensures text { take result cells.new ≡ take at cells.old ++ sib_index context.now sib }
    ensures short { result ≤ at + 9 }
{
    if !writes_index(context, sib) {
        return at;
    }
    let at = if has_base(context, sib) {
        put(cells, at, b'+')
    } else {
        at
    };
    let at = put_index_name(cells, at, context, sib);
    put_scale(cells, at, sib)
}

#[inline(always)]
fn put_sib_distance(cells: &mut [u8], at: usize, context: &Context, sib: Sib, disp: i64) -> usize
    requires { at + 19 ≤ length cells.old }
    ensures text { take result cells.new ≡
        take at cells.old ++ sib_distance context.now sib disp }
    ensures short { result ≤ at + 19 }
{
    let short = index_number(context, sib) == 4 && context.prefixes.address_size();
    if !has_base(context, sib) && short {
        let at = put(cells, at, b'+');
        return put_prefixed(cells, at, disp.cast_unsigned() % 4_294_967_296);
    }
    if context.modrm.mod_field() == 0 && sib.base_field() != 5 {
        at
    } else {
        put_distance(cells, at, disp)
    }
}

#[inline(never)]
fn put_sib_memory(cells: &mut [u8], at: usize, context: &Context, sib: Sib, disp: i64) -> usize
    requires { at + 48 ≤ length cells.old }
    ensures text { take result cells.new ≡ take at cells.old ++ sib_memory context.now sib disp }
    ensures short { result ≤ at + 40 }
{
    if has_no_register(context, sib) {
        let at = put_segment(cells, at, context, b"ds: ", 3);
        return put_absolute(cells, at, disp);
    }
    let at = put_segment(cells, at, context, b"    ", 0);
    let at = put(cells, at, b'[');
    let at = put_sib_base(cells, at, context, sib);
    let at = put_sib_index(cells, at, context, sib);
    let at = put_sib_distance(cells, at, context, sib, disp);
    put(cells, at, b']')
}

/// Calls `put_sib_memory` with a copy of the context, so that the caller's needs no memory.
#[inline(always)]
fn put_apart(cells: &mut [u8], at: usize, context: &Context, sib: Sib, disp: i64) -> usize
    requires { at + 48 ≤ length cells.old }
    ensures text { take result cells.new ≡ take at cells.old ++ sib_memory context.now sib disp }
    ensures short { result ≤ at + 40 }
{
    let context = *context;
    put_sib_memory(cells, at, &context, sib, disp)
}

/// Writes memory that ModRM spells, without its size.
#[inline(always)]
#[tactic(auto, unfolding(crate::specs::Text::Memory::memory_text))]
pub fn put_memory(cells: &mut [u8], at: usize, context: &Context, parts: &Parts) -> usize
    requires { at + 48 ≤ length cells.old }
    ensures text { take result cells.new ≡
        take at cells.old ++ memory_text context.now (lists_of parts.now) }
    ensures short { result ≤ at + 40 }
{
    let disp = signed_of(parts.displacement);
    match parts.sib {
        [] => put_plain_memory(cells, at, context, disp),
        [sib, ..] => put_apart(cells, at, context, Sib::new(*sib), disp),
    }
}
