//! The text of immediates.

ghost use Rattle.std.specs.Prelude.{◌≡◌, ◌+◌, ◌≤◌, ◌++◌, length, take};
ghost use Rattle.x86_objdump.specs.Text.Immediates.{extended, extended_to_v, byte_number, four_number, immediate_number, immediate_text};

use crate::text::context::Context;
use crate::text::numbers::{plain_number, signed_of};
use x86_forms::Map;
use x86_streams::lines::cells::put;
use x86_streams::lines::hexadecimal::put_prefixed;

/// The number of bytes, sign-extended to 64 bits.
#[inline(always)]
fn extended(bytes: &[u8]) -> u64
    ensures { result ≡ extended bytes.now }
{
    signed_of(bytes).cast_unsigned()
}

/// The number of a byte that is extended to the operand size.
#[inline(always)]
fn extended_to_v(context: &Context, bytes: &[u8]) -> u64
    ensures { result ≡ extended_to_v context.now bytes.now }
{
    if context.prefixes.has_w() {
        extended(bytes)
    } else if context.prefixes.operand_size() {
        extended(bytes) % 65_536
    } else {
        extended(bytes) % 4_294_967_296
    }
}

#[inline(always)]
fn byte_number(context: &Context, bytes: &[u8]) -> u64
    ensures { result ≡ byte_number context.now bytes.now }
{
    if matches!(context.map, Map::One) && matches!(context.opcode, 0x83 | 0x6b) {
        return extended_to_v(context, bytes);
    }
    if !context.is_one(0x6a) {
        return plain_number(bytes);
    }
    if context.has_two_bytes() {
        extended(bytes) % 65_536
    } else {
        extended(bytes)
    }
}

#[inline(always)]
fn four_number(context: &Context, bytes: &[u8]) -> u64
    ensures { result ≡ four_number context.now bytes.now }
{
    if context.prefixes.has_w() || context.is_one(0x68) {
        extended(bytes)
    } else {
        plain_number(bytes)
    }
}

#[inline(always)]
fn immediate_number(context: &Context, bytes: &[u8]) -> u64
    ensures { result ≡ immediate_number context.now bytes.now }
{
    match bytes {
        [_] => byte_number(context, bytes),
        [_, _, _, _] => four_number(context, bytes),
        _ => plain_number(bytes),
    }
}

/// Writes the immediate of these bytes.
#[inline(always)]
#[tactic(auto, unfolding(crate::specs::Text::Immediates::immediate_text))]
pub fn put_immediate(cells: &mut [u8], at: usize, context: &Context, bytes: &[u8]) -> usize
    requires { at + 18 ≤ length cells.old }
    ensures text { take result cells.new ≡
        take at cells.old ++ immediate_text context.now bytes.now }
    ensures short { result ≤ at + 18 }
{
    match bytes {
        [] => put(cells, at, b'1'),
        _ => put_prefixed(cells, at, immediate_number(context, bytes)),
    }
}
