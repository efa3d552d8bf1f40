//! The five calls that decode, and the short walk over a slice.

ghost use Rattle.std.specs.Prelude.{◌≡◌, ◌≢◌, ℕ, Bool, List, Ok, take, true, false, OnErr, OnOk};
ghost use Rattle.std.proofs.Common.{rules};
ghost use Rattle.std.specs.Cmp.{partial_order_from_own_ties};
ghost use Rattle.std.specs.Cmp.Rules.{comparing};
ghost use Rattle.std.specs.Ordering.{on, bool_cmp, flip_args, as_partial_cmp};
ghost use Rattle.x86_fields.specs.Prefixes.{lock};
ghost use Rattle.x86_fields.specs.Steps.{next_byte, outcome};
ghost use Rattle.x86_forms.specs.declared.TableRow.{TableRow};
ghost use Rattle.x86_forms.specs.Words.{rows_of, packed};
ghost use Rattle.x86_operands.specs.Records.{RowRecord};
ghost use Rattle.x86_operands.specs.RowSteps.{no_operands, read_modrm};
ghost use Rattle.x86_groups.specs.Bytes.{IsByteRow, IsListed, after_byte};
ghost use Rattle.x86_groups.specs.Heads.{Continues};
ghost use Rattle.x86_decode.specs.Decoder.{is_strict};
ghost use Rattle.x86_decode.specs.Answer.{answer_of, count_of};
ghost use Rattle.x86_decode.specs.Answers.{Answers, HasMoved};
ghost use Rattle.x86_decode.specs.Instruction.{holding, invalid_instruction};
ghost use Rattle.x86_decode.specs.Walk.{placed_in, row_placed, walk_placed};

use crate::instructions::Instruction;
use crate::rows::read_operands;
use crate::walk::{walk, walk_into, walk_rarely};
use std::cmp::Ordering;
use x86_arch::{ReadIf, Reader, U8Reader};
use x86_fields::{DecodeError, ModRM, next_byte};
use x86_forms::{Packed, Words};
use x86_groups::{ByteRow, Choice, Next, byte_row, escaped_row, sure_byte_row};
use x86_operands::place_of;

/// How instructions are read. By default the fences LFENCE, MFENCE and SFENCE are read whatever rm is; a strict
/// decoder refuses them where rm isn't 0.
#[derive(Clone, Copy, PartialEq, Eq, Hash, Drop)]
pub struct InstDecoder {
    strict: bool,
}

/// Makes an instruction blank again. It is a call, so the common path has nothing of it; and cold, so the compiler lays
/// out that path without jumps over it.
#[cold]
#[inline(never)]
fn make_invalid(inst: &mut Instruction)
    ensures { inst.new ≡ invalid_instruction }
{
    *inst = Instruction::INVALID;
}

/// The ModRM byte that follows.
#[inline(always)]
fn next_modrm<T: Reader<u64, u8>>(reader: &mut T) -> Result<ModRM, DecodeError>
    ensures { outcome result (T.state reader.new) ≡ next_byte (T.state reader.old) }
{
    Ok(ModRM::new(next_byte(reader)?))
}

/// ModRM where one follows, else C0. What is common has an arm of its own: so it isn't tested again.
#[inline(always)]
fn read_next<T: Reader<u64, u8>>(next: Next, reader: &mut T) -> Result<ModRM, DecodeError>
    requires { next ≢ Next.Chosen Choice.Search }
    ensures { (r : RowRecord) → Continues (after_byte next) r →
        outcome result (T.state reader.new) ≡ read_modrm r.modrm (T.state reader.old) }
{
    match next {
        Next::Either => next_modrm(reader),
        Next::Nothing => Ok(ModRM::absent()),
        Next::Chosen(_) => next_modrm(reader),
    }
}

/// What a byte's row has after it, where it is read at once. An error says only that this walk can't go on.
#[inline(always)]
fn read_byte_row<T: Reader<u64, u8>>(
    row: &'static ByteRow,
    reader: &mut T,
    inst: &mut Instruction,
) -> Result<(), DecodeError>
    requires listed { IsListed row.now }
    requires blank { inst.old.operand_list ≡ no_operands }
    requires no_suffix { inst.old.places.has_suffix ≡ false }
    ensures read { (strict : Bool) (found : TableRow) → IsByteRow row.now found →
        OnOk result (outcome (Ok (placed_in inst.new)) (T.state reader.new)
        ≡ row_placed strict found inst.old.prefixes (T.state reader.old)) }
    ensures has_row { OnOk result (row.now.next ≢ Next.Chosen Choice.Search) }
    ensures same_prefixes { inst.new.prefixes ≡ inst.old.prefixes }
{
    if matches!(row.next, Next::Chosen(Choice::Search)) {
        return Err(DecodeError::InvalidOpcode);
    }
    inst.places.opcode_end = place_of(reader.offset());
    let modrm = read_next(row.next, reader)?;
    match sure_byte_row(row, modrm) {
        Some(sure) => read_operands(sure, modrm, reader, inst),
        None => Err(DecodeError::InvalidOpcode),
    }
}

/// The encoding where it has no legacy prefix, its opcode byte follows nothing or 0F, and its row is read at once. An
/// error says only that this walk can't go on: a legacy prefix and the beginning of a longer escape have no row.
#[inline(always)]
fn read_plain<T: ReadIf>(reader: &mut T, inst: &mut Instruction) -> Result<(), DecodeError>
    requires { inst.old ≡ invalid_instruction }
    ensures read { OnOk result ((strict : Bool) →
        outcome (Ok (placed_in inst.new)) (T.state reader.new)
        ≡ walk_placed (rows_of packed) strict (T.state reader.old)) }
    ensures no_lock { lock inst.new.prefixes ≡ false }
{
    let first = reader.next()?;
    // Most encodings have a REX, and many have none: so no branch depends on it.
    let is_rex = inst.prefixes.set_rex(first);
    let byte = reader.next_if(is_rex, first)?;
    let escaped = byte == 0x0f;
    let row = if escaped {
        escaped_row(reader.next()?)
    } else {
        byte_row(byte)
    };
    read_byte_row(row, reader, inst)
}

/// The walk over the first fifteen bytes of an input, or over all where there are fewer, into a blank instruction.
///
/// Most encodings have no legacy prefix, and their opcode byte follows nothing or 0F: `read_plain` reads these. Whatever it
/// refuses is walked from the beginning.
#[inline(always)]
fn walk_beginning(strict: bool, within: &[u8], inst: &mut Instruction) -> Result<(), DecodeError>
    requires { inst.old ≡ invalid_instruction }
    ensures { (bytes : List ℕ) → within.now ≡ take 15 bytes →
        holding inst.new result ≡ answer_of strict bytes }
{
    let mut reader = U8Reader::new(within);
    if let Ok(()) = read_plain(&mut reader, inst) {
        inst.length = reader.offset();
        return Ok(());
    }
    make_invalid(inst);
    walk_rarely(strict, within, inst)
}

/// The same as a call, for inputs of fewer bytes, where each read tests for the end.
#[inline(never)]
fn walk_short(strict: bool, within: &[u8], inst: &mut Instruction) -> Result<(), DecodeError>
    requires { inst.old ≡ invalid_instruction }
    ensures { (bytes : List ℕ) → within.now ≡ take 15 bytes →
        holding inst.new result ≡ answer_of strict bytes }
{
    walk_beginning(strict, within, inst)
}

/// The walk over a slice, into a blank instruction. Where fifteen bytes are there their number is a constant, and no
/// encoding has more: so no read of the short walk tests for an end.
#[inline(always)]
fn walk_slice(strict: bool, bytes: &[u8], inst: &mut Instruction) -> Result<(), DecodeError>
    requires { inst.old ≡ invalid_instruction }
    ensures { holding inst.new result ≡ answer_of strict bytes.now }
{
    if bytes.len() < 15 {
        walk_short(strict, bytes, inst)
    } else {
        walk_beginning(strict, &bytes[..15], inst)
    }
}

impl InstDecoder {
    /// The decoder that refuses LFENCE, MFENCE and SFENCE with rm other than 0.
    pub fn strict() -> InstDecoder
        ensures { is_strict result ≡ true }
    {
        InstDecoder { strict: true }
    }

    /// Whether it refuses LFENCE, MFENCE and SFENCE with rm other than 0.
    pub fn is_strict(&self) -> bool
        ensures { result ≡ is_strict self.now }
    {
        self.strict
    }

    /// The instruction at the beginning of what the reader has left, with the rows of a table in place of the printed
    /// ones.
    ///
    /// The prefix bytes, 0F, C4, C5 and 62 keep their meaning whatever row the table has for them, and so do 38 and
    /// 3A after 0F. The reader is marked. On `Ok` it has moved by the length, after a refusal by the bytes that
    /// decide it, and after `ExhaustedInput` it is before the number that didn't fit, or at the end of the input.
    ///
    /// A caller uses `answers`: the result is the grammar's answer of what was left, it comes exactly where its cause
    /// is, and the items since the mark are its count, at most 15. `moved`: the reader has taken these and no other.
    pub fn decode_by<W: Words, T: Reader<u64, u8>>(
        &self,
        rows: &W,
        words: &mut T,
    ) -> Result<Instruction, DecodeError>
        ensures answers { Answers (rows_of (W.word rows.now)) (is_strict self.now)
            (T.state words.old).left result (T.state words.new).since_mark }
        ensures moved { HasMoved (T.state words.old) (T.state words.new) }
    {
        walk(self.strict, rows, words)
    }

    /// The instruction at the beginning of what the reader has left. The reader is marked, and moves as `decode_by`
    /// says.
    ///
    /// A caller uses `answers` and `moved` as of `decode_by`, and `value` and `count`: the result and the items since
    /// the mark are functions of the bytes that were left.
    pub fn decode<T: Reader<u64, u8>>(&self, words: &mut T) -> Result<Instruction, DecodeError>
        ensures answers { Answers (rows_of packed) (is_strict self.now)
            (T.state words.old).left result (T.state words.new).since_mark }
        ensures value { result ≡ answer_of (is_strict self.now) (T.state words.old).left }
        ensures count { (T.state words.new).since_mark
            ≡ count_of (is_strict self.now) (T.state words.old).left }
        ensures moved { HasMoved (T.state words.old) (T.state words.new) }
    {
        self.decode_by(&Packed, words)
    }

    /// As `decode`, written to an instruction. What it held before doesn't matter, and after a refusal it is
    /// `Instruction::invalid()`.
    ///
    /// A caller uses the clauses of `decode`, which speak of `Ok` with this instruction where the status is `Ok`, and
    /// of the error otherwise; `laws::statuses_are_results` says the same of the status.
    pub fn decode_into<T: Reader<u64, u8>>(
        &self,
        inst: &mut Instruction,
        words: &mut T,
    ) -> Result<(), DecodeError>
        ensures answers { Answers (rows_of packed) (is_strict self.now) (T.state words.old).left
            (holding inst.new result) (T.state words.new).since_mark }
        ensures value { holding inst.new result
            ≡ answer_of (is_strict self.now) (T.state words.old).left }
        ensures count { (T.state words.new).since_mark
            ≡ count_of (is_strict self.now) (T.state words.old).left }
        ensures moved { HasMoved (T.state words.old) (T.state words.new) }
        ensures invalid { OnErr result (inst.new ≡ invalid_instruction) }
    {
        *inst = Instruction::INVALID;
        match walk_into(self.strict, &Packed, words, inst) {
            Ok(()) => Ok(()),
            Err(error) => {
                make_invalid(inst);
                Err(error)
            }
        }
    }

    /// The instruction at the beginning of the bytes: of `[0x90, 0x06]` it is NOP with length 1, whatever comes after
    /// it.
    ///
    /// A caller uses `value`: the result is a function of the bytes; and `answers`: it comes exactly where its cause
    /// is.
    #[inline(always)]
    pub fn decode_slice(&self, bytes: &[u8]) -> Result<Instruction, DecodeError>
        ensures answers { Answers (rows_of packed) (is_strict self.now) bytes.now result
            (count_of (is_strict self.now) bytes.now) }
        ensures value { result ≡ answer_of (is_strict self.now) bytes.now }
    {
        let mut inst = Instruction::INVALID;
        match walk_slice(self.strict, bytes, &mut inst) {
            Ok(()) => Ok(inst),
            Err(error) => Err(error),
        }
    }

    /// As `decode_slice`, written to an instruction, for loops over code. What it held before doesn't matter, and
    /// after a refusal it is `Instruction::invalid()`.
    ///
    /// A caller uses the clauses of `decode_slice`, which speak of `Ok` with this instruction where the status is
    /// `Ok`, and of the error otherwise.
    #[inline(always)]
    pub fn decode_slice_into(&self, inst: &mut Instruction, bytes: &[u8]) -> Result<(), DecodeError>
        ensures answers { Answers (rows_of packed) (is_strict self.now) bytes.now
            (holding inst.new result) (count_of (is_strict self.now) bytes.now) }
        ensures value { holding inst.new result ≡ answer_of (is_strict self.now) bytes.now }
        ensures invalid { OnErr result (inst.new ≡ invalid_instruction) }
    {
        *inst = Instruction::INVALID;
        match walk_slice(self.strict, bytes, inst) {
            Ok(()) => Ok(()),
            Err(error) => {
                make_invalid(inst);
                Err(error)
            }
        }
    }
}

impl Default for InstDecoder {
    /// The decoder that reads LFENCE, MFENCE and SFENCE whatever rm is.
    fn default() -> InstDecoder
        ensures { is_strict result ≡ false }
    {
        InstDecoder { strict: false }
    }
}

/// The strict decoder is below the default one.
impl Ord for InstDecoder {
    ghost cmp = { flip_args (on (λ d. (is_strict d)) bool_cmp) };

    ghost total = { Prim.search (comparing, rules) };

    ghost matches_partial_cmp = { Prim.search (comparing, rules) };

    ghost matches_eq = { Prim.search (comparing, rules) };

    fn cmp(&self, other: &InstDecoder) -> Ordering {
        other.strict.cmp(&self.strict)
    }
}

impl PartialOrd for InstDecoder {
    ghost partial_cmp = { as_partial_cmp (flip_args (on (λ d. (is_strict d)) bool_cmp)) };

    ghost laws = { partial_order_from_own_ties (Prim.search (comparing, rules))
        (Prim.search (comparing, rules)) };

    fn partial_cmp(&self, other: &InstDecoder) -> Option<Ordering> {
        Some(self.cmp(other))
    }
}
