//! The text of operands.

ghost use Rattle.std.specs.Prelude.{◌≡◌, ◌+◌, ◌++◌, length, take, decimal, codes, ◌≤◌};
ghost use Rattle.std.specs.Fmt.{signed_decimal};
ghost use Rattle.arrayvec.specs.ArrayVec.{array_vec_len};
ghost use Rattle.x86_text.specs.Widths.{line_room, operand_text_width};
ghost use Rattle.x86_text.specs.Operands.{operand_text, deref_text, moved_text, index_text, moved_index_text, scaled_text, displacement_text, register_text, base_text, plus_text};

use crate::names::put_register;
use x86_operands::Operand;
use x86_regs::RegSpec;
use x86_streams::lines::Line;
use x86_streams::lines::cells::{put, put_bytes, put_first};
use x86_streams::lines::digits::{put_signed, put_u8, put_u32, put_u64};

/// Writes an immediate after the first bytes of a block, which name its type.
fn put_immediate(cells: &mut [u8], at: usize, label: &[u8; 4], count: usize, n: i64) -> usize
    requires room { at + 24 ≤ length cells.old }
    requires count { count ≤ 4 }
    ensures text { take result cells.new ≡
        take at cells.old ++ take count label.now ++ signed_decimal n }
    ensures short { result ≤ at + 24 }
{
    let at = put_first(cells, at, label, count);
    put_signed(cells, at, n)
}

/// Writes an unsigned immediate after the first bytes of a block, which name its type.
#[inline(never)]
fn put_unsigned(cells: &mut [u8], at: usize, label: &[u8; 4], count: usize, n: u64) -> usize
    requires room { at + 24 ≤ length cells.old }
    requires count { count ≤ 4 }
    ensures text { take result cells.new ≡ take at cells.old ++ take count label.now ++ decimal n }
    ensures short { result ≤ at + 24 }
{
    let at = put_first(cells, at, label, count);
    put_u64(cells, at, n)
}

#[inline(always)]
fn put_displacement(cells: &mut [u8], at: usize, disp: i32) -> usize
    requires { at + 11 ≤ length cells.old }
    ensures text { take result cells.new ≡ take at cells.old ++ displacement_text disp }
    ensures short { result ≤ at + 11 }
{
    let at = put(cells, at, if disp < 0 { b'-' } else { b'+' });
    put_u32(cells, at, disp.unsigned_abs())
}

/// Writes a base and a plus, where there is a base, and an index with its scale.
#[inline(always)]
pub fn put_scaled(
    cells: &mut [u8],
    at: usize,
    base: Option<RegSpec>,
    index: &RegSpec,
    scale: u8,
) -> usize
    requires { at + 23 ≤ length cells.old }
    ensures text { take result cells.new ≡
        take at cells.old ++ base_text base ++ plus_text base ++ scaled_text index.now scale }
    ensures short { result ≤ at + 17 }
{
    let mut at = at;
    if let Some(base) = base {
        at = put_register(cells, at, &base);
        at = put(cells, at, b'+');
    }
    let at = put_register(cells, at, index);
    let at = put(cells, at, b'*');
    put_u8(cells, at, scale)
}

#[inline(always)]
#[tactic(auto, unfolding(crate::specs::Operands::deref_text))]
fn put_deref(cells: &mut [u8], at: usize, base: &RegSpec) -> usize
    requires { at + 30 ≤ length cells.old }
    ensures text { take result cells.new ≡ take at cells.old ++ deref_text base.now }
    ensures short { result ≤ at + 30 }
{
    let at = put(cells, at, b'[');
    let at = put_register(cells, at, base);
    put(cells, at, b']')
}

#[inline(always)]
#[tactic(auto, unfolding(crate::specs::Operands::moved_text))]
fn put_moved(cells: &mut [u8], at: usize, base: &RegSpec, disp: i32) -> usize
    requires { at + 30 ≤ length cells.old }
    ensures text { take result cells.new ≡ take at cells.old ++ moved_text base.now disp }
    ensures short { result ≤ at + 30 }
{
    let at = put(cells, at, b'[');
    let at = put_register(cells, at, base);
    let at = put_displacement(cells, at, disp);
    put(cells, at, b']')
}

#[inline(never)]
#[tactic(auto, unfolding(crate::specs::Operands::index_text))]
fn put_index(
    cells: &mut [u8],
    at: usize,
    base: Option<RegSpec>,
    index: &RegSpec,
    scale: u8,
) -> usize
    requires { at + 30 ≤ length cells.old }
    ensures text { take result cells.new ≡ take at cells.old ++ index_text base index.now scale }
    ensures short { result ≤ at + 30 }
{
    let at = put(cells, at, b'[');
    let at = put_scaled(cells, at, base, index, scale);
    put(cells, at, b']')
}

#[inline(never)]
#[tactic(auto, unfolding(crate::specs::Operands::moved_index_text))]
fn put_moved_index(
    cells: &mut [u8],
    at: usize,
    base: Option<RegSpec>,
    index: &RegSpec,
    scale: u8,
    disp: i32,
) -> usize
    requires { at + 30 ≤ length cells.old }
    ensures text { take result cells.new ≡
        take at cells.old ++ moved_index_text base index.now scale disp }
    ensures short { result ≤ at + 30 }
{
    let at = put(cells, at, b'[');
    let at = put_scaled(cells, at, base, index, scale);
    let at = put_displacement(cells, at, disp);
    put(cells, at, b']')
}

#[inline(never)]
fn put_absolute(cells: &mut [u8], at: usize, label: &[u8; 7], addr: u64) -> usize
    requires { at + 28 ≤ length cells.old }
    ensures text { take result cells.new ≡
        take at cells.old ++ label.now ++ decimal addr ++ codes "]" }
    ensures short { result ≤ at + 28 }
{
    let at = put_bytes(cells, at, label);
    let at = put_u64(cells, at, addr);
    put(cells, at, b']')
}

/// Writes the text of an operand.
#[inline(always)]
#[tactic(auto, unfolding(crate::specs::Operands::operand_text))]
pub(crate) fn put_operand(cells: &mut [u8], at: usize, operand: &Operand) -> usize
    requires { at + 30 ≤ length cells.old }
    ensures text { take result cells.new ≡ take at cells.old ++ operand_text operand.now }
    ensures short { result ≤ at + 30 }
{
    match operand {
        Operand::ImmediateI8 { imm } => put_immediate(cells, at, b"i8: ", 3, *imm as i64),
        Operand::ImmediateU8 { imm } => put_unsigned(cells, at, b"u8: ", 3, *imm as u64),
        Operand::ImmediateI16 { imm } => put_immediate(cells, at, b"i16:", 4, *imm as i64),
        Operand::ImmediateU16 { imm } => put_unsigned(cells, at, b"u16:", 4, *imm as u64),
        Operand::ImmediateI32 { imm } => put_immediate(cells, at, b"i32:", 4, *imm as i64),
        Operand::ImmediateU32 { imm } => put_unsigned(cells, at, b"u32:", 4, *imm as u64),
        Operand::ImmediateI64 { imm } => put_immediate(cells, at, b"i64:", 4, *imm),
        Operand::ImmediateU64 { imm } => put_unsigned(cells, at, b"u64:", 4, *imm),
        Operand::Register { reg }
        | Operand::RegisterMaskMerge { reg, .. }
        | Operand::RegisterMaskMergeSae { reg, .. }
        | Operand::RegisterMaskMergeSaeNoround { reg, .. } => put_register(cells, at, reg),
        Operand::AbsoluteU32 { addr } => put_absolute(cells, at, b"[abs32:", *addr as u64),
        Operand::AbsoluteU64 { addr } => put_absolute(cells, at, b"[abs64:", *addr),
        Operand::MemDeref { base } | Operand::MemDerefMasked { base, .. } => {
            put_deref(cells, at, base)
        }
        Operand::Disp { base, disp } | Operand::DispMasked { base, disp, .. } => {
            put_moved(cells, at, base, *disp)
        }
        Operand::MemIndexScale { index, scale }
        | Operand::MemIndexScaleMasked { index, scale, .. } => {
            put_index(cells, at, None, index, *scale)
        }
        Operand::MemIndexScaleDisp { index, scale, disp }
        | Operand::MemIndexScaleDispMasked {
            index,
            scale,
            disp,
            ..
        } => { put_moved_index(cells, at, None, index, *scale, *disp) }
        Operand::MemBaseIndexScale { base, index, scale }
        | Operand::MemBaseIndexScaleMasked {
            base,
            index,
            scale,
            ..
        } => { put_index(cells, at, Some(*base), index, *scale) }
        Operand::MemBaseIndexScaleDisp {
            base,
            index,
            scale,
            disp,
        }
        | Operand::MemBaseIndexScaleDispMasked {
            base,
            index,
            scale,
            disp,
            ..
        } => { put_moved_index(cells, at, Some(*base), index, *scale, *disp) }
        Operand::Nothing => at,
    }
}

/// Appends the text of an operand, at most 30 bytes, as `operand_text` returns it.
pub fn push_operand(line: &mut Line, operand: &Operand)
    requires { array_vec_len line.old + operand_text_width ≤ line_room }
    ensures text { line.new.items ≡ line.old.items ++ operand_text operand.now }
    ensures short { array_vec_len line.new ≤ array_vec_len line.old + operand_text_width }
{
    line.len = put_operand(&mut line.cells, line.len, operand);
}

/// The text of an operand. A register is its name; an immediate its type and decimal; memory its base, its index with
/// the scale, and its displacement in brackets, each where it is named; an absolute address its width and decimal. Of
/// a masked operand this is the register or the memory, and `Operand::Nothing` has none.
///
/// Examples are `rax`, `i8:-1`, `[rbx+rcx*4-16]` and `[abs32:4096]`.
pub fn operand_text(operand: &Operand) -> Line
    ensures text { result.items ≡ operand_text operand.now }
    ensures short { array_vec_len result ≤ operand_text_width }
{
    let mut line = Line::new();
    push_operand(&mut line, operand);
    line
}
