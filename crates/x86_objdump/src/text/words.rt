//! The words of prefixes.

ghost use Rattle.std.specs.Prelude.{◌≡◌, ◌+◌, ◌*◌, ◌<◌, ◌≤◌, ◌++◌, ◌∷◌, [], IsTrue, get_or, length, take};
ghost use Rattle.x86_opcodes.specs.Kinds.{is_among};
ghost use Rattle.x86_opcodes.specs.Names.{INS, OUTS, MOVS, LODS, STOS};
ghost use Rattle.x86_fields.specs.Run.{holds};
ghost use Rattle.x86_objdump.specs.Text.Words.{size_read, reads_67, is_segment_prefix, holds_segment, reads_segment, is_near_indirect, is_bounded, is_elidable, is_release, is_tracked, is_read, rex_words, word_of_f2, word_of_f3, prefix_word, word_text, words_text};

use crate::text::choices::{chooser_of, reads_66, size_read};
use crate::text::context::Context;
use crate::text::names::Entry;
use crate::text::rex::{live_rex_is_read, names_memory};
use x86_decode::Instruction;
use x86_fields::is_rex;
use x86_forms::Map;
use x86_opcodes::Opcode;
use x86_regs::Segment;
use x86_streams::lines::cells::put_bytes;

/// Whether 67 has an effect.
fn reads_67(context: &Context, inst: &Instruction) -> bool
    ensures { result ≡ reads_67 context.now inst.now }
{
    matches!(
        inst.opcode(),
        Opcode::JRCXZ | Opcode::JECXZ | Opcode::UMONITOR | Opcode::XLAT
    ) || names_memory(inst) && !context.is_offset()
}

fn is_segment_prefix(byte: u8) -> bool
    ensures { result ≡ is_segment_prefix byte }
{
    matches!(byte, 0x26 | 0x2e | 0x36 | 0x3e | 0x64 | 0x65)
}

fn holds_segment(bytes: &[u8]) -> bool
    ensures { result ≡ holds_segment bytes.now }
{
    for byte in bytes {
        if is_segment_prefix(*byte) {
            return true;
        }
    }
    false
}

fn holds(byte: u8, bytes: &[u8]) -> bool
    ensures { result ≡ holds byte bytes.now }
{
    for other in bytes {
        if *other == byte {
            return true;
        }
    }
    false
}

/// Whether a segment prefix has an effect.
fn reads_segment(context: &Context, inst: &Instruction) -> bool
    ensures { result ≡ reads_segment context.now inst.now }
{
    match inst.opcode() {
        Opcode::MOVS | Opcode::CMPS | Opcode::LODS | Opcode::OUTS | Opcode::XLAT => true,
        Opcode::STOS | Opcode::SCAS | Opcode::INS => false,
        _ => names_memory(inst) && !matches!(context.prefixes.segment(), Segment::DS),
    }
}

fn is_near_indirect(context: &Context) -> bool
    ensures { result ≡ is_near_indirect context.now }
{
    context.is_one(0xff) && matches!(context.modrm.reg_field(), 2 | 4)
}

fn is_bounded(context: &Context) -> bool
    ensures { result ≡ is_bounded context.now }
{
    match context.map {
        Map::One => {
            matches!(
                context.opcode,
                0x70..=0x7f | 0xc2 | 0xc3 | 0xe8 | 0xe9 | 0xeb
            ) || is_near_indirect(context)
        }
        Map::Of => matches!(context.opcode, 0x80..=0x8f),
        _ => false,
    }
}

fn is_elidable(context: &Context, inst: &Instruction) -> bool
    ensures { result ≡ is_elidable context.now inst.now }
{
    context.prefixes.lock() && !(inst.opcode() == Opcode::CMPXCHG16B)
        || matches!(context.map, Map::One)
            && matches!(context.opcode, 0x86 | 0x87)
            && context.modrm.is_memory()
}

fn is_release(context: &Context) -> bool
    ensures { result ≡ is_release context.now }
{
    matches!(context.map, Map::One)
        && matches!(context.opcode, 0x88 | 0x89 | 0xc6 | 0xc7)
        && context.modrm.is_memory()
        && context.prefixes.rep()
}

fn is_tracked(context: &Context) -> bool
    ensures { result ≡ is_tracked context.now }
{
    is_near_indirect(context) && !context.prefixes.operand_size()
}

/// Whether the instruction reads a byte of its run, which these bytes follow.
fn is_read(
    context: &Context,
    inst: &Instruction,
    entry: &Entry,
    letter: u8,
    byte: u8,
    rest: &[u8],
) -> bool
    ensures { result ≡ is_read context.now inst.now entry.now letter byte rest.now }
{
    if is_rex(byte) {
        return match rest {
            [] => live_rex_is_read(context, inst, letter),
            _ => false,
        };
    }
    if is_segment_prefix(byte) {
        return !holds_segment(rest)
            && (reads_segment(context, inst) && !(byte == 0x3e && is_tracked(context)));
    }
    if holds(byte, rest) {
        return false;
    }
    match byte {
        0x66 => reads_66(context, entry, letter),
        0x67 => reads_67(context, inst),
        0xf2 => context.prefixes.repnz() && matches!(chooser_of(context, entry), b'a' | b'r'),
        0xf3 => {
            context.prefixes.rep() && matches!(chooser_of(context, entry), b'a' | b'r' | b'3')
        }
        _ => false,
    }
}

/// The words of REX by its bits.
fn rex_word(bits: u8) -> &'static [u8]
    requires { bits < 16 }
    ensures text { result.now ≡ get_or rex_words bits [] }
    ensures short { length result.now ≤ 9 }
{
    match bits {
        0 => b"rex ",
        1 => b"rex.B ",
        2 => b"rex.X ",
        3 => b"rex.XB ",
        4 => b"rex.R ",
        5 => b"rex.RB ",
        6 => b"rex.RX ",
        7 => b"rex.RXB ",
        8 => b"rex.W ",
        9 => b"rex.WB ",
        10 => b"rex.WX ",
        11 => b"rex.WXB ",
        12 => b"rex.WR ",
        13 => b"rex.WRB ",
        14 => b"rex.WRX ",
        _ => b"rex.WRXB ",
    }
}

fn word_of_f2(context: &Context, inst: &Instruction, last: bool) -> &'static [u8]
    ensures text { result.now ≡ word_of_f2 context.now inst.now last }
    ensures short { length result.now ≤ 9 }
{
    if last && is_bounded(context) {
        b"bnd "
    } else if last && is_elidable(context, inst) {
        b"xacquire "
    } else {
        b"repnz "
    }
}

fn is_repeated(opcode: Opcode) -> bool
    ensures { result ≡ is_among (INS ∷ OUTS ∷ MOVS ∷ LODS ∷ STOS ∷ []) opcode }
{
    matches!(
        opcode,
        Opcode::INS | Opcode::OUTS | Opcode::MOVS | Opcode::LODS | Opcode::STOS
    )
}

fn word_of_f3(context: &Context, inst: &Instruction, last: bool) -> &'static [u8]
    ensures text { result.now ≡ word_of_f3 context.now inst.now last }
    ensures short { length result.now ≤ 9 }
{
    if last && is_repeated(inst.opcode()) {
        b"rep "
    } else if last && (is_elidable(context, inst) || is_release(context)) {
        b"xrelease "
    } else {
        b"repz "
    }
}

/// The word of a prefix byte that these bytes follow.
fn prefix_word(context: &Context, inst: &Instruction, byte: u8, rest: &[u8]) -> &'static [u8]
    ensures text { result.now ≡ prefix_word context.now inst.now byte rest.now }
    ensures short { length result.now ≤ 9 }
{
    if is_rex(byte) {
        return rex_word(byte % 16);
    }
    match byte {
        0x66 => b"data16 ",
        0x67 => b"addr32 ",
        0xf0 => b"lock ",
        0xf2 => word_of_f2(context, inst, !holds(byte, rest)),
        0xf3 => word_of_f3(context, inst, !holds(byte, rest)),
        0x26 => b"es ",
        0x2e => b"cs ",
        0x36 => b"ss ",
        0x3e if is_tracked(context) && !holds_segment(rest) => b"notrack ",
        0x3e => b"ds ",
        0x64 => b"fs ",
        _ => b"gs ",
    }
}

#[tactic(auto, unfolding(crate::specs::Text::Words::word_text))]
fn put_word(
    cells: &mut [u8],
    at: usize,
    context: &Context,
    inst: &Instruction,
    entry: &Entry,
    letter: u8,
    byte: u8,
    rest: &[u8],
) -> usize
    requires { at + 9 ≤ length cells.old }
    ensures text { take result cells.new ≡ take at cells.old
        ++ word_text context.now inst.now entry.now letter byte rest.now }
    ensures short { result ≤ at + 9 }
{
    if is_read(context, inst, entry, letter, byte, rest) {
        at
    } else {
        put_bytes(cells, at, prefix_word(context, inst, byte, rest))
    }
}

/// Writes the words of a run, in the order of its bytes.
fn put_words(
    cells: &mut [u8],
    at: usize,
    context: &Context,
    inst: &Instruction,
    entry: &Entry,
    letter: u8,
    run: &[u8],
) -> usize
    requires { at + 9 * length run.now ≤ length cells.old }
    ensures text { take result cells.new ≡ take at cells.old
        ++ words_text context.now inst.now entry.now letter run.now }
    ensures short { result ≤ at + 9 * length run.now }
{
    match run {
        [] => at,
        [byte, rest @ ..] => {
            let at = put_word(cells, at, context, inst, entry, letter, *byte, rest);
            put_words(cells, at, context, inst, entry, letter, rest)
        }
    }
}

/// Writes the words of the prefixes that an encoding doesn't read.
#[inline(never)]
fn put_run(
    cells: &mut [u8],
    at: usize,
    context: &Context,
    inst: &Instruction,
    entry: &Entry,
    run: &[u8],
) -> usize
    requires { at + 9 * length run.now ≤ length cells.old }
    ensures text { take result cells.new ≡ take at cells.old
        ++ words_text context.now inst.now entry.now (size_read context.now entry.now) run.now }
    ensures short { result ≤ at + 9 * length run.now }
{
    put_words(
        cells,
        at,
        context,
        inst,
        entry,
        size_read(context, entry),
        run,
    )
}

/// Calls `put_run` with a copy of the context, so that the caller's needs no memory.
#[inline(always)]
fn put_apart(
    cells: &mut [u8],
    at: usize,
    context: &Context,
    inst: &Instruction,
    entry: &Entry,
    run: &[u8],
) -> usize
    requires { at + 9 * length run.now ≤ length cells.old }
    ensures text { take result cells.new ≡ take at cells.old
        ++ words_text context.now inst.now entry.now (size_read context.now entry.now) run.now }
    ensures short { result ≤ at + 9 * length run.now }
{
    let context = *context;
    put_run(cells, at, &context, inst, entry, run)
}

/// Whether a run is a REX that the instruction reads.
#[inline(always)]
#[tactic(auto, unfolding(crate::specs::Text::Words::word_text))]
fn is_read_rex(context: &Context, inst: &Instruction, entry: &Entry, run: &[u8]) -> bool
    ensures { IsTrue result →
        words_text context.now inst.now entry.now (size_read context.now entry.now) run.now ≡ [] }
{
    match run {
        [byte] => is_rex(*byte) && live_rex_is_read(context, inst, size_read(context, entry)),
        _ => false,
    }
}

/// Writes the words of the prefixes that an encoding doesn't read. Most have none.
#[inline(always)]
pub fn put_prefixes(
    cells: &mut [u8],
    at: usize,
    context: &Context,
    inst: &Instruction,
    entry: &Entry,
    run: &[u8],
) -> usize
    requires { at + 9 * length run.now ≤ length cells.old }
    ensures text { take result cells.new ≡ take at cells.old
        ++ words_text context.now inst.now entry.now (size_read context.now entry.now) run.now }
    ensures short { result ≤ at + 9 * length run.now }
{
    if run.is_empty() || is_read_rex(context, inst, entry, run) {
        at
    } else {
        put_apart(cells, at, context, inst, entry, run)
    }
}
