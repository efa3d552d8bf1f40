//! The walk over the bytes of an encoding, within fifteen of them.
ghost use Rattle.std.specs.Prelude.{◌≡◌, ◌≤◌, ℕ, Bool, List, IfOk, IfSome, Err, false, take};
ghost use Rattle.x86_arch.specs.Reader.{marked};
ghost use Rattle.x86_fields.specs.Steps.{outcome, then_from};
ghost use Rattle.x86_forms.specs.Words.{rows_of};
ghost use Rattle.x86_operands.specs.OperandList.{value_if_ok};
ghost use Rattle.x86_operands.specs.RowSteps.{no_operands};
ghost use Rattle.x86_decode.specs.Answer.{answer_of};
ghost use Rattle.x86_decode.specs.Grammar.{allows_lock};
ghost use Rattle.x86_decode.specs.Instruction.{holding, invalid_instruction};
ghost use Rattle.x86_decode.specs.Walk.{body_placed, limit_step, placed_in, unread_step, walk_bounded, walk_placed, decode_step, takes_lock, judgement, error_at_limit};

use crate::bounded::{Bounded, Start, takes_rest};
use crate::head::{read_prefixes, read_word};
use crate::instructions::Instruction;
use crate::rows::{Unread, read_row, read_unread};
use std::marker::{Brand, PhantomData};
use x86_arch::{Reader, U8Reader};
use x86_fields::{DecodeError, Prefixes};
use x86_forms::{Packed, Words, word_row};
use x86_opcodes::Opcode;
use x86_operands::{Reading, Slot};

/// Whether F0 is absent, or precedes an operation that takes it, with memory as its first operand.
pub fn allows_lock(reading: &Reading) -> bool
    ensures { result ≡ allows_lock reading.now }
{
    judgement(&reading.prefixes, reading.opcode, reading.slots[0]).is_ok()
}

/// Refuses F0 where the operation doesn't take it, or its first operand isn't memory.
#[inline(always)]
fn judgement(prefixes: &Prefixes, opcode: Opcode, first: Slot) -> Result<(), DecodeError>
    ensures { result ≡ judgement (takes_lock prefixes.now opcode first) }
{
    if prefixes.lock() && !(opcode.can_lock() && first.is_memory()) {
        Err(DecodeError::InvalidPrefixes)
    } else {
        Ok(())
    }
}

/// Reads what follows the prefixes, where its row is read at once; `byte` is the first byte after them.
#[inline(always)]
fn read_body<W: Words, T: Reader<u64, u8>>(
    rows: &W,
    reader: &mut T,
    inst: &mut Instruction,
    byte: u8,
) -> Result<Option<Unread>, DecodeError>
    requires blank { inst.old.operand_list ≡ no_operands }
    requires no_suffix { inst.old.places.has_suffix ≡ false }
    ensures blank { IfOk result (λ unread.
        IfSome unread (λ _. inst.new.operand_list ≡ no_operands)) }
    ensures read { (strict : Bool) →
        then_from result (T.state reader.new) (unread_step strict inst.new) ≡ body_placed
        (rows_of (W.word rows.now)) strict inst.old.prefixes byte (T.state reader.old) }
{
    let word = read_word(rows, reader, &mut inst.prefixes, byte)?;
    match word_row(word) {
        None => Err(DecodeError::InvalidOpcode),
        Some(found) => read_row(&found, reader, inst),
    }
}

/// The encoding, into a blank instruction, where its row is read at once.
#[inline(always)]
fn read_encoding<W: Words, T: Reader<u64, u8>>(
    rows: &W,
    reader: &mut T,
    inst: &mut Instruction,
) -> Result<Option<Unread>, DecodeError>
    requires { inst.old ≡ invalid_instruction }
    ensures blank { IfOk result (λ unread.
        IfSome unread (λ _. inst.new.operand_list ≡ no_operands)) }
    ensures read { (strict : Bool) →
        then_from result (T.state reader.new) (unread_step strict inst.new)
        ≡ walk_placed (rows_of (W.word rows.now)) strict (T.state reader.old) }
{
    let byte = read_prefixes(reader, &mut inst.prefixes)?;
    read_body(rows, reader, inst, byte)
}

/// The encoding up to its last byte, into a blank instruction. The reader comes back: so it stays in registers where the
/// row is read at once.
#[inline(always)]
fn walk_within<W: Words, T: Reader<u64, u8>>(
    strict: bool,
    rows: &W,
    reader: T,
    inst: &mut Instruction,
) -> (Result<(), DecodeError>, T)
    requires { inst.old ≡ invalid_instruction }
    ensures { outcome (value_if_ok result.0 (placed_in inst.new)) (T.state result.1)
        ≡ walk_placed (rows_of (W.word rows.now)) strict (T.state reader) }
{
    let mut reader = reader;
    match read_encoding(rows, &mut reader, inst) {
        Err(error) => (Err(error), reader),
        Ok(None) => (Ok(()), reader),
        Ok(Some(unread)) => {
            let mut moved = reader;
            let read = read_unread(strict, unread, &mut moved, inst);
            (read, moved)
        }
    }
}

/// The refusal of a walk that saw at most fifteen bytes. Where all fifteen were there (`full`), one that needs more is
/// `TooLong`.
fn error_at_limit(error: DecodeError, full: bool) -> DecodeError
    ensures { result ≡ error_at_limit error full }
{
    match error {
        DecodeError::ExhaustedInput if full => DecodeError::TooLong,
        other => other,
    }
}

/// The refusal of a walk that may take `allowed` more items. Where it met its limit, and not the end of the input, it takes
/// these items.
fn error_within<T: Reader<u64, u8>>(error: DecodeError, reader: &mut T, allowed: u8) -> DecodeError
    requires { allowed ≤ 15 }
    ensures { outcome (Err result) (T.state reader.new)
        ≡ limit_step error allowed (T.state reader.old) }
{
    let full = matches!(error, DecodeError::ExhaustedInput) && takes_rest(reader, allowed);
    error_at_limit(error, full)
}

/// The walk within fifteen items. The reference comes back.
fn walk_bounded<'a, W: Words, T: Reader<u64, u8>, K: Start>(
    strict: bool,
    rows: &W,
    reader: &'a mut T,
    inst: &mut Instruction,
) -> (Result<(), DecodeError>, &'a mut T)
    requires same_reference { reader.ghost_name ≡ K.name }
    requires here { T.state reader.old ≡ K.state }
    requires marked { (T.state reader.old).since_mark ≡ 0 }
    requires blank { inst.old ≡ invalid_instruction }
    ensures same_reference { result.1.ghost_name ≡ reader.entry.ghost_name }
    ensures walked { outcome (holding inst.new result.0) (T.state result.1.now)
        ≡ walk_bounded (rows_of (W.word rows.now)) strict (T.state reader.old) }
{
    let bounded: Bounded<'a, T, K> = Bounded {
        reader,
        allowed: 15,
        start: PhantomData,
    };
    let (result, mut back) = walk_within(strict, rows, bounded, inst);
    inst.length = back.offset();
    let Bounded {
        reader,
        allowed,
        start: _,
    } = back;
    match result {
        Ok(()) => (
            judgement(&inst.prefixes, inst.opcode, inst.operand_list.slots[0]),
            reader,
        ),
        Err(error) => (Err(error_within(error, reader, allowed)), reader),
    }
}

/// The walk over the first fifteen bytes of an input, or over all where there are fewer, into a blank instruction.
#[cold]
#[inline(never)]
pub fn walk_rarely(strict: bool, within: &[u8], inst: &mut Instruction) -> Result<(), DecodeError>
    requires { inst.old ≡ invalid_instruction }
    ensures { (bytes : List ℕ) → within.now ≡ take 15 bytes →
        holding inst.new result ≡ answer_of strict bytes }
{
    let (result, mut back) = walk_within(strict, &Packed, U8Reader::new(within), inst);
    inst.length = back.offset();
    match result {
        Ok(()) => judgement(&inst.prefixes, inst.opcode, inst.operand_list.slots[0]),
        Err(error) => Err(error_at_limit(error, within.len() == 15)),
    }
}

/// The instruction at the beginning of what the reader has left, into a blank one. The reader is marked, and then
/// moves by what the answer takes.
#[tactic(auto, unfolding(crate::specs::Walk::decode_step))]
pub fn walk_into<W: Words, T: Reader<u64, u8>>(
    strict: bool,
    rows: &W,
    reader: &mut T,
    inst: &mut Instruction,
) -> Result<(), DecodeError>
    requires { inst.old ≡ invalid_instruction }
    ensures { outcome (holding inst.new result) (T.state reader.new)
        ≡ decode_step (rows_of (W.word rows.now)) strict (T.state reader.old) }
{
    reader.mark();
    let (result, _back) = walk_bounded::<W, T, Brand>(strict, rows, reader, inst);
    result
}

/// The same by value.
pub fn walk<W: Words, T: Reader<u64, u8>>(
    strict: bool,
    rows: &W,
    reader: &mut T,
) -> Result<Instruction, DecodeError>
    ensures { outcome result (T.state reader.new)
        ≡ decode_step (rows_of (W.word rows.now)) strict (T.state reader.old) }
{
    let mut inst = Instruction::invalid();
    walk_into(strict, rows, reader, &mut inst)?;
    Ok(inst)
}
