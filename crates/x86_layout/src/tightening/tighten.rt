//! The shortest encoding of an address. Source: Intel SDM volume 2, sections 2.1.5 and 2.2.1.

ghost use Rattle.std.specs.Prelude.{◌≡◌, ◌<◌, ℕ, Bool, false, true, length, MatchResult, Ok};
ghost use Rattle.x86_forms.specs.Words.{rows_of, packed};
ghost use Rattle.x86_operands.specs.Operands.{is_memory_slot};
ghost use Rattle.x86_decode.specs.Decoder.{is_strict};
ghost use Rattle.x86_decode.specs.declared.instructions.Instruction.{Instruction};
ghost use Rattle.x86_decode.specs.Grammar.{IsSentence};
ghost use Rattle.x86_decode.specs.Instruction.{slot_at};
ghost use Rattle.x86_layout.specs.Parts.Split.{IsSentenceOf};
ghost use Rattle.x86_layout.specs.Tightening.Least.{shortest_length, HasShortestLength};
ghost use Rattle.x86_decode.specs.Answer.{answer_of};
ghost use Rattle.x86_layout.specs.Tightening.Tighten.{has_memory_form, IsTightened, IsAddressed, HasNoRelative, OfFirstSentence, IsNotTightened};

use crate::parts::emit::joined;
use crate::parts::split::{encoding_of, parts_in};
use crate::tightening::registers::is_ip_relative;
use crate::tightening::respell::{address_length, raw_of, respelled};
use crate::tightening::shortest::shortest;
use arrayvec::ArrayVec;
use thiserror::Error;
use x86_decode::{InstDecoder, Instruction, laws};
use x86_fields::{DecodeError, ModRM, Parts, Raw};

/// Why `tighten` has no shorter encoding to seek.
#[derive(Debug, Drop, Error)]
pub enum TightenError {
    /// The bytes are refused as `InstDecoder::decode_slice` refuses them.
    #[error("{0}")]
    Refused(DecodeError),
    /// The encoding has no memory operand that is read from ModRM, as where mod isn't looked at (`0f 20 05`).
    #[error("no memory form")]
    NoMemoryForm,
    /// That operand is relative to the next instruction: mod 00 with rm 101.
    #[error("ip-relative form")]
    IpRelative,
}

/// The parts of an encoding, and the raw fields of its memory operand.
#[derive(Clone, Copy, Drop)]
struct Addressed<'a> {
    parts: Parts<'a>,
    raw: Raw,
}

/// Whether an operand is in memory.
#[inline(always)]
fn names_memory(instruction: &Instruction) -> bool
    ensures none { result ≡ false → (k : ℕ) → k < 4 →
        is_memory_slot (slot_at instruction.now k) ≡ false }
    ensures some { result ≡ true →
        (k : ℕ) × (is_memory_slot (slot_at instruction.now k) ≡ true) }
{
    for i in 0..4 {
        if instruction.slot(i).is_memory() {
            return true;
        }
    }
    false
}

/// Whether a ModRM byte is there, and its mod is that of memory.
#[inline(always)]
fn has_memory_form(modrm: &[u8]) -> bool
    ensures { result ≡ has_memory_form modrm.now }
{
    match modrm {
        [byte] => ModRM::new(*byte).is_memory(),
        _ => false,
    }
}

/// What an encoding has that may have a shorter relative; else why there is none to seek.
#[inline(always)]
fn addressed_in<'a>(
    instruction: &Instruction,
    encoding: &'a [u8],
) -> Result<Addressed<'a>, TightenError>
    requires { IsSentenceOf encoding.now instruction.now }
    ensures { (strict : Bool)
        (is : IsSentence (rows_of packed) strict encoding.now instruction.now) →
        MatchResult result (λ found. IsAddressed strict encoding.now is.reading is.whole found)
        (λ error. HasNoRelative strict encoding.now is.reading is.whole error) }
{
    laws::memory_operands_denote_their_raw_fields();
    if !names_memory(instruction) {
        return Err(TightenError::NoMemoryForm);
    }
    let parts = parts_in(encoding, instruction);
    if !has_memory_form(parts.modrm) {
        return Err(TightenError::NoMemoryForm);
    }
    let raw = raw_of(&parts, &instruction.prefixes);
    if is_ip_relative(&raw) {
        return Err(TightenError::IpRelative);
    }
    Ok(Addressed { parts, raw })
}

/// How many bytes a shortest relative of an encoding has that was decoded, and the encoding itself where it has none
/// to seek: the length of what [`tighten`] answers, with no second decode. `instruction` is what the decoder answers
/// for the bytes.
///
/// For `48 8b 84 25 00 00 00 00` and its instruction this is 4 (Intel SDM volume 2, section 2.1.5).
pub fn shortest_length(decoder: &InstDecoder, instruction: &Instruction, bytes: &[u8]) -> u64
    requires decoded { answer_of (is_strict decoder.now) bytes.now ≡ Ok instruction.now }
    ensures { result ≡ shortest_length (is_strict decoder.now) bytes.now }
{
    let encoding = encoding_of(decoder, instruction, bytes);
    let length = encoding.len() as u64;
    match addressed_in(instruction, encoding) {
        Ok(found) => length - address_length(&found.raw) + address_length(&shortest(&found.raw)),
        Err(_) => length,
    }
}

/// The shortest encoding with the same address as the accepted encoding at the beginning of the bytes.
///
/// Its parts are those of that encoding, but for mod and rm of ModRM, SIB, the displacement, and the bits X and B of
/// a live REX. Base and index may change places at scale 1, and the processor's default segment with them. Refused as
/// `InstDecoder::decode_slice` refuses; `NoMemoryForm` where no operand is memory that ModRM spells, and else `IpRelative`
/// at mod 00 with rm 101.
///
/// For `48 8b 84 25 00 00 00 00`, which is MOV rax, [rbp], this is `48 8b 45 00` (Intel SDM volume 2, section 2.1.5).
pub fn tighten(decoder: &InstDecoder, bytes: &[u8]) -> Result<ArrayVec<u8, 15>, TightenError>
    ensures shortest { MatchResult result
        (λ t. OfFirstSentence (is_strict decoder.now) bytes.now
        (λ strict s a v. IsTightened strict s a v t.items))
        (λ error. IsNotTightened (is_strict decoder.now) bytes.now error) }
    ensures least { MatchResult result
        (λ t. length t.items ≡ shortest_length (is_strict decoder.now) bytes.now)
        (λ _. HasShortestLength (is_strict decoder.now) bytes.now) }
{
    let instruction = match decoder.decode_slice(bytes) {
        Ok(instruction) => instruction,
        Err(error) => return Err(TightenError::Refused(error)),
    };
    let found = addressed_in(&instruction, encoding_of(decoder, &instruction, bytes))?;
    Ok(joined(&respelled(&found.parts, &shortest(&found.raw))).unwrap())
}
