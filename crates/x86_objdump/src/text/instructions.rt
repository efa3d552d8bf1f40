//! The text of instructions.

ghost use Rattle.std.specs.Prelude.{◌≡◌, ◌+◌, ◌-◌, ◌≤◌, ◌++◌, Ok, length, replicate, take};
ghost use Rattle.x86_fields.specs.Parts.{lists_of, HasFieldLengths};
ghost use Rattle.x86_fields.specs.Run.{reading_of};
ghost use Rattle.x86_decode.specs.Answer.{answer_of};
ghost use Rattle.x86_decode.specs.Decoder.{is_strict};
ghost use Rattle.x86_layout.specs.Parts.OfBytes.{parts_of};
ghost use Rattle.x86_objdump.specs.Text.Context.{context_of};
ghost use Rattle.x86_objdump.specs.Text.Shown.{IsRead, parts_in};
ghost use Rattle.x86_objdump.specs.Text.Instructions.{remark_text, head_text, shown_by, listed_text};

use crate::text::context::Context;
use crate::text::memory::is_relative;
use crate::text::names::{entry_for, put_name};
use crate::text::numbers::signed_of;
use crate::text::operands::put_operands;
use crate::text::rex::names_memory;
use crate::text::shown::{Shown, displacement_in, immediate_in};
use crate::text::words::put_prefixes;
use x86_decode::{InstDecoder, Instruction};
use x86_fields::{Parts, Prefixes, is_rex, reading_of};
use x86_layout::split_decoded;
use x86_streams::lines::cells::put_first;
use x86_streams::lines::hexadecimal::put_prefixed;

/// Writes the address of memory that is relative to the next instruction, where an operand is such memory.
#[inline(always)]
fn put_remark(cells: &mut [u8], at: usize, shown: &Shown, next: u64) -> usize
    requires read { IsRead shown.now }
    requires room { at + 34 ≤ length cells.old }
    ensures text { take result cells.new ≡ take at cells.old
        ++ remark_text shown.now.context.now shown.now.inst.now (parts_in shown.now) next }
    ensures short { result ≤ at + 28 }
{
    if is_relative(shown.context) && names_memory(shown.inst) {
        let at = put_first(cells, at, b"        # 0x    ", 10);
        let disp = signed_of(displacement_in(shown));
        put_prefixed(cells, at, next.wrapping_add_signed(disp))
    } else {
        at
    }
}

/// Writes the words and the name.
#[inline(always)]
fn put_head(cells: &mut [u8], at: usize, shown: &Shown, run: &[u8]) -> usize
    requires read { IsRead shown.now }
    requires short { shown.now.entry.now.len ≤ 16 }
    requires lengths { HasFieldLengths (parts_in shown.now) }
    requires run { run.now ≡ (parts_in shown.now).prefixes }
    requires room { at + 176 ≤ length cells.old }
    ensures text { take result cells.new ≡ take at cells.old
        ++ head_text shown.now.context.now shown.now.inst.now shown.now.entry.now
        (parts_in shown.now) }
    ensures short { result ≤ at + 158 }
{
    let at = put_prefixes(cells, at, shown.context, shown.inst, shown.entry, run);
    put_name(cells, at, shown.context, shown.entry, immediate_in(shown))
}

/// Writes the blanks after a head that ends at `head`: up to seven bytes, and at least one.
#[inline(always)]
#[tactic(auto, using(crate::proofs::Blanks::first_of_eight))]
fn put_blanks(cells: &mut [u8], at: usize, head: usize) -> usize
    requires after { at ≤ head }
    requires room { head + 8 ≤ length cells.old }
    ensures text { take result cells.new
        ≡ take head cells.old ++ replicate (6 - (head - at) + 1) 32 }
    ensures place { result ≡ head + (6 - (head - at) + 1) }
{
    put_first(cells, head, b"        ", (at + 7).max(head + 1) - head)
}

/// Writes the text of an instruction by what the rules read of it.
#[inline(always)]
fn put_shown(cells: &mut [u8], at: usize, shown: &Shown, run: &[u8], next: u64) -> usize
    requires read { IsRead shown.now }
    requires short { shown.now.entry.now.len ≤ 16 }
    requires lengths { HasFieldLengths (parts_in shown.now) }
    requires run { run.now ≡ (parts_in shown.now).prefixes }
    requires room { at + 449 ≤ length cells.old }
    ensures text { take result cells.new ≡ take at cells.old
        ++ shown_by shown.now.context.now shown.now.inst.now shown.now.entry.now
        (parts_in shown.now) next }
    ensures short { result ≤ at + 443 }
{
    let head = put_head(cells, at, shown, run);
    let blank = put_blanks(cells, at, head);
    let end = put_operands(cells, blank, shown, next);
    if end == blank {
        head
    } else {
        put_remark(cells, end, shown, next)
    }
}

/// Writes the text of an instruction with these parts, whose run selects these prefixes.
#[inline(always)]
#[tactic(auto, unfolding(crate::specs::Text::Instructions::listed_text))]
fn put_selected(
    cells: &mut [u8],
    at: usize,
    decoder: &InstDecoder,
    inst: &Instruction,
    bytes: &[u8],
    parts: &Parts,
    prefixes: Prefixes,
    is_common: bool,
    next: u64,
) -> usize
    requires decoded { answer_of (is_strict decoder.now) bytes.now ≡ Ok inst.now }
    requires parts { lists_of parts.now ≡ parts_of (is_strict decoder.now) bytes.now }
    requires reading { prefixes ≡ reading_of parts.now.prefixes.now }
    requires lengths { HasFieldLengths (lists_of parts.now) }
    requires room { at + 449 ≤ length cells.old }
    ensures text { take result cells.new ≡ take at cells.old
        ++ listed_text inst.now (parts_of (is_strict decoder.now) bytes.now) next }
    ensures short { result ≤ at + 443 }
{
    let shown = Shown {
        context: &Context::of(parts, prefixes),
        decoder,
        inst,
        bytes,
        entry: entry_for(inst.opcode()),
        is_common,
    };
    put_shown(cells, at, &shown, parts.prefixes, next)
}

/// Writes the text of an instruction by what its whole run selects.
#[inline(never)]
fn put_by_run(
    cells: &mut [u8],
    at: usize,
    decoder: &InstDecoder,
    inst: &Instruction,
    bytes: &[u8],
    next: u64,
) -> usize
    requires decoded { answer_of (is_strict decoder.now) bytes.now ≡ Ok inst.now }
    requires room { at + 449 ≤ length cells.old }
    ensures text { take result cells.new ≡ take at cells.old
        ++ listed_text inst.now (parts_of (is_strict decoder.now) bytes.now) next }
    ensures short { result ≤ at + 443 }
{
    let parts = split_decoded(decoder, inst, bytes);
    let prefixes = reading_of(parts.prefixes);
    put_selected(
        cells, at, decoder, inst, bytes, &parts, prefixes, false, next,
    )
}

/// Writes the text of an instruction, where the next instruction is at the address `next`. The decoder reads the bytes as
/// it. Most have no prefix but a REX: of those no test of another prefix is left.
#[inline(always)]
pub fn put_instruction(
    cells: &mut [u8],
    at: usize,
    decoder: &InstDecoder,
    inst: &Instruction,
    bytes: &[u8],
    next: u64,
) -> usize
    requires decoded { answer_of (is_strict decoder.now) bytes.now ≡ Ok inst.now }
    requires room { at + 449 ≤ length cells.old }
    ensures text { take result cells.new ≡ take at cells.old
        ++ listed_text inst.now (parts_of (is_strict decoder.now) bytes.now) next }
    ensures short { result ≤ at + 443 }
{
    let parts = split_decoded(decoder, inst, bytes);
    let prefixes = match parts.prefixes {
        [] => Prefixes::none(),
        [byte] if is_rex(*byte) => Prefixes::none().after(*byte),
        _ => return put_by_run(cells, at, decoder, inst, bytes, next),
    };
    put_selected(
        cells, at, decoder, inst, bytes, &parts, prefixes, true, next,
    )
}
