//! Fields written as bytes.

ghost use Rattle.std.specs.Prelude.{◌≡◌, ℕ, ◌+◌, ◌≤◌, ◌++◌, List, length, is_some, IfSome, IsOk, IfOk, IfErr, ◌↔◌, Some};
ghost use Rattle.arrayvec.specs.ArrayVec.{array_vec_len};
ghost use Rattle.x86_fields.specs.Pieces.{option_bytes};
ghost use Rattle.x86_forms.specs.Words.{IsForm};
ghost use Rattle.x86_decode.specs.Decoder.{is_strict};
ghost use Rattle.x86_decode.specs.Head.{is_run};
ghost use Rattle.x86_layout.specs.Parts.Split.{joined};
ghost use Rattle.x86_layout.specs.Parts.Fields.{lists_in};
ghost use Rattle.x86_layout.specs.Parts.OfBytes.{Decodes};
ghost use Rattle.x86_layout.specs.Parts.Permitted.{passes_record, displacement_length, has_row_parts, tail_of, has_lawful_lock, is_short, first_failing, IsPermitted};

use crate::laws;
use crate::parts::entries::{Entry, entry_of};
use crate::parts::fields::Fields;
use arrayvec::ArrayVec;
use thiserror::Error;
use x86_arch::U8Reader;
use x86_decode::InstDecoder;
use x86_decode::builders::{allows_lock, is_prefix, read_row};
use x86_fields::{ModRM, displacement_width};
use x86_groups::row_at;
use x86_operands::vocabulary::Verdict;
use x86_operands::{RecordAt, suffix_opcode};

/// Why fields aren't written: the first condition that fails, in this order.
#[derive(Clone, Copy, PartialEq, Eq, Debug, Drop, Error)]
pub enum EmitError {
    /// One of the prefix bytes is neither a legacy prefix nor a REX.
    #[error("not a prefix byte")]
    Prefixes,
    /// The escape is none of the four, the opcode byte has no row, or the row's record refuses at the opcode, for the
    /// ModRM that is there, or for the suffix that is there.
    #[error("no row for these fields")]
    Row,
    /// A part that the row has is missing or has another length, or one is there that the row doesn't have.
    #[error("a part is missing, extra or of the wrong length")]
    Shape,
    /// F0 is there and isn't allowed.
    #[error("lock prefix not allowed")]
    Lock,
    /// There are more than 15 bytes.
    #[error("more than 15 bytes")]
    Length,
}

fn is_run(prefixes: &[u8]) -> bool
    ensures { result ≡ is_run prefixes.now }
{
    prefixes.iter().all(|byte| is_prefix(*byte))
}

/// Whether a record refuses neither at the opcode nor for the ModRM and the suffix that are there.
fn passes_record(row: &RecordAt, fields: &Fields) -> bool
    ensures { result ≡ passes_record row.now fields.now }
{
    let lacks_modrm = row.ask.modrm && fields.modrm.is_none();
    let passes = match (row.verdict, fields.suffix) {
        (Verdict::Refuses(_), _) => lacks_modrm,
        (Verdict::NamedBySuffix, Some(suffix)) => suffix_opcode(suffix).is_some(),
        _ => true,
    };
    row.at_opcode.is_none() && passes
}

/// How many bytes of displacement there are at ModRM and SIB.
fn displacement_length(modrm: ModRM, sib: Option<u8>) -> u8
    ensures { result ≡ displacement_length modrm sib }
{
    if modrm.is_memory() {
        displacement_width(modrm.byte(), sib)
    } else {
        0
    }
}

/// Whether each part that a record has is there with its length, and no other part is.
fn has_row_parts(row: &RecordAt, fields: &Fields) -> bool
    ensures { result ≡ has_row_parts row.now fields.now }
{
    let ask = row.ask;
    let rm = row.modrm.rm_field();
    let displacement = usize::from(displacement_length(row.modrm, fields.sib));
    let modrm_fits = fields.modrm.is_some() == ask.modrm;
    let sib_fits = fields.sib.is_some() == (ask.memory && rm == 4);
    let displacement_fits = fields.displacement.len() == displacement;
    let immediate_fits = fields.immediate.len() == usize::from(ask.immediate);
    let suffix_fits = fields.suffix.is_some() == ask.suffix;
    modrm_fits && sib_fits && displacement_fits && immediate_fits && suffix_fits
}

/// Appends a part of an encoding.
fn push(bytes: &mut ArrayVec<u8, 15>, part: &[u8])
    requires { array_vec_len bytes.old + length part.now ≤ 15 }
    ensures text { bytes.new.items ≡ bytes.old.items ++ part.now }
    ensures len { array_vec_len bytes.new ≡ array_vec_len bytes.old + length part.now }
{
    let _ = bytes.try_extend_from_slice(part);
}

/// Appends a part of one byte, where it is there.
fn push_byte(bytes: &mut ArrayVec<u8, 15>, part: Option<u8>)
    requires { array_vec_len bytes.old + length (option_bytes part) ≤ 15 }
    ensures text { bytes.new.items ≡ bytes.old.items ++ option_bytes part }
    ensures len { array_vec_len bytes.new ≡ array_vec_len bytes.old + length (option_bytes part) }
{
    if let Some(byte) = part {
        bytes.push(byte);
    }
}

/// What follows the opcode byte, at most 15 bytes.
#[tactic(auto, using(crate::proofs::PartLemmas::Part::option_short))]
fn tail_of(fields: &Fields) -> ArrayVec<u8, 15>
    ensures { result.items ≡ tail_of fields.now }
{
    let mut tail = ArrayVec::new();
    push_byte(&mut tail, fields.modrm);
    push_byte(&mut tail, fields.sib);
    push(&mut tail, &fields.displacement);
    push(&mut tail, &fields.immediate);
    push_byte(&mut tail, fields.suffix);
    tail
}

/// Whether F0 is absent, or allowed for the reading of what follows the opcode byte.
fn has_lawful_lock(strict: bool, entry: &Entry, fields: &Fields) -> bool
    requires { IsForm entry.now.row.form }
    ensures { result ≡ has_lawful_lock strict entry.now fields.now }
{
    let tail = tail_of(fields);
    let mut reader = U8Reader::new(tail.as_slice());
    match read_row(&mut reader, entry.row, entry.prefixes, strict) {
        Ok(reading) => allows_lock(&reading),
        Err(_) => false,
    }
}

/// The parts in order, where they have at most 15 bytes in all.
pub fn joined(fields: &Fields) -> Option<ArrayVec<u8, 15>>
    ensures short { is_some result ≡ is_short fields.now }
    ensures bytes { IfSome result (λ bytes. bytes.items ≡ joined (lists_in fields.now)) }
{
    let mut bytes = ArrayVec::new();
    bytes.try_extend_from_slice(&fields.prefixes).ok()?;
    bytes.try_extend_from_slice(&fields.escape).ok()?;
    bytes.try_push(fields.opcode).ok()?;
    bytes.try_extend_from_slice(&tail_of(fields)).ok()?;
    Some(bytes)
}

/// The encoding that has these parts, where they are permitted: the prefixes are a legal run; the opcode byte has a
/// row, and its record doesn't refuse; each part that the row has is there with its length, and no other part; F0 is
/// absent or allowed; and the parts have at most 15 bytes in all. Else the error says which of these fails first
/// (Intel SDM volume 2, section 2.1). What is written is read again as an instruction of the same parts, whatever
/// follows it.
///
/// The fields of the split of `48 03 44 25 00` yield these bytes again, and `Shape` where their SIB is taken away.
#[tactic(auto, unfolding(crate::specs::Parts::Permitted::first_failing))]
pub fn emit(decoder: &InstDecoder, fields: &Fields) -> Result<ArrayVec<u8, 15>, EmitError>
    ensures permitted { IsOk result ↔ IsPermitted (is_strict decoder.now) fields.now }
    ensures bytes { IfOk result (λ bytes. bytes.items ≡ joined (lists_in fields.now)) }
    ensures decodes { IfOk result (λ bytes. (rest : List ℕ) →
        Decodes (is_strict decoder.now) (bytes.items ++ rest) (lists_in fields.now)) }
    ensures first { IfErr result
        (λ error. first_failing (is_strict decoder.now) fields.now ≡ Some error) }
{
    laws::permitted_fields_are_split_again();
    let strict = decoder.is_strict();
    if !is_run(&fields.prefixes) {
        return Err(EmitError::Prefixes);
    }
    let entry = entry_of(fields).ok_or(EmitError::Row)?;
    let record = row_at(entry.row, entry.prefixes, fields.modrm, strict);
    if !passes_record(&record, fields) {
        return Err(EmitError::Row);
    }
    if !has_row_parts(&record, fields) {
        return Err(EmitError::Shape);
    }
    if !has_lawful_lock(strict, &entry, fields) {
        return Err(EmitError::Lock);
    }
    joined(fields).ok_or(EmitError::Length)
}
