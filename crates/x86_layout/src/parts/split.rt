//! The parts of an encoding.

ghost use Rattle.std.specs.Prelude.{◌≡◌, ◌≤◌, ◌++◌, true, Bool, List, Option, ℕ, MatchResult, IfOk, Ok, Err, length};
ghost use Rattle.x86_fields.specs.declared.prefixes.Prefixes.{Prefixes};
ghost use Rattle.x86_fields.specs.Parts.{lists_of, HasFieldLengths};
ghost use Rattle.x86_forms.specs.declared.Map.{Map};
ghost use Rattle.x86_forms.specs.Words.{rows_of, packed};
ghost use Rattle.x86_operands.specs.Asks.{modrm_of};
ghost use Rattle.x86_fields.specs.declared.raw.Raw.{Raw};
ghost use Rattle.x86_operands.specs.Pieces.{SpellsMemory, modrm_width};
ghost use Rattle.x86_operands.specs.declared.vocabulary.ModrmUse.{ModrmUse};
ghost use Rattle.x86_operands.specs.declared.order.Position.TheVariants.{First};
ghost use Rattle.x86_decode.specs.declared.instructions.Instruction.{Instruction};
ghost use Rattle.x86_decode.specs.Decoder.{is_strict};
ghost use Rattle.x86_decode.specs.Answer.{answer_of};
ghost use Rattle.x86_decode.specs.Grammar.{IsSentence};
ghost use Rattle.x86_decode.specs.Head.{is_run, escape_bytes};
ghost use Rattle.x86_layout.specs.Parts.Split.{HasParts, IsFirstSentence, IsSentenceOf, IsSplit, sib_width};
ghost use Rattle.x86_layout.specs.Parts.OfBytes.{parts_of};

use x86_decode::{InstDecoder, Instruction, laws};
use x86_fields::{DecodeError, ModRM, Parts};

/// How many bytes the escape has with which these bytes end: they are a run of prefixes and an escape.
#[inline(always)]
fn escape_at_end(before: &[u8]) -> usize
    ensures within { result ≤ length before.now }
    ensures escape { (run : List ℕ) (map : Map) → is_run run ≡ true →
        before.now ≡ run ++ escape_bytes map → result ≡ length (escape_bytes map) }
{
    match before {
        [.., 0x0f] => 1,
        [.., 0x0f, 0x38 | 0x3a] => 2,
        _ => 0,
    }
}

/// ModRM, SIB and displacement, of which the first is there where any is.
#[inline(always)]
fn split_address(fields: &[u8]) -> (&[u8], &[u8], &[u8])
    ensures { (usage : ModrmUse) (p : Prefixes) (modrm address : List ℕ) (memory : Option Raw) →
        length modrm ≡ modrm_width usage →
        SpellsMemory First p (modrm_of usage modrm) address memory →
        fields.now ≡ modrm ++ address →
        (result.0.now ≡ modrm)
        × (length result.1.now ≡ sib_width (modrm_of usage modrm))
        × (result.1.now ++ result.2.now ≡ address) }
{
    let (modrm, address) = fields.split_at(usize::from(!fields.is_empty()));
    let has_sib = !address.is_empty() && ModRM::new(fields[0]).rm_field() == 4;
    let (sib, displacement) = address.split_at(usize::from(has_sib));
    (modrm, sib, displacement)
}

/// The parts of an encoding, by the places of their ends that its instruction keeps.
#[inline(always)]
pub fn parts_in<'a>(encoding: &'a [u8], instruction: &Instruction) -> Parts<'a>
    requires { IsSentenceOf encoding.now instruction.now }
    ensures { (strict : Bool)
        (is : IsSentence (rows_of packed) strict encoding.now instruction.now) →
        HasParts strict encoding.now is.reading is.whole (lists_of result) }
{
    let places = instruction.places();
    let opcode_end = usize::from(places.opcode_end);
    let (head, tail) = encoding.split_at(opcode_end);
    let (before, opcode) = head.split_at(opcode_end - 1);
    let (prefixes, escape) = before.split_at(before.len() - escape_at_end(before));
    let (fields, last) = tail.split_at(usize::from(places.address_end) - opcode_end);
    let (modrm, sib, displacement) = split_address(fields);
    let (immediate, suffix) = last.split_at(last.len() - usize::from(places.has_suffix));
    Parts {
        prefixes,
        escape,
        opcode,
        modrm,
        sib,
        displacement,
        immediate,
        suffix,
    }
}

/// The encoding of an instruction: the beginning of the bytes that it was decoded from.
#[inline(always)]
pub fn encoding_of<'a>(
    decoder: &InstDecoder,
    instruction: &Instruction,
    bytes: &'a [u8],
) -> &'a [u8]
    requires decoded { answer_of (is_strict decoder.now) bytes.now ≡ Ok instruction.now }
    ensures { IsFirstSentence (is_strict decoder.now) bytes.now result.now instruction.now }
{
    laws::lengths();
    laws::answer_is();
    &bytes[..instruction.len().to_const() as usize]
}

/// The parts of an encoding that was decoded: what [`split`] answers, with no second decode. `instruction` is what
/// the decoder answers for the bytes.
///
/// For `48 03 44 25 00` and its instruction the displacement is 00 (Intel SDM volume 2, section 2.1).
#[inline(always)]
pub fn split_decoded<'a>(
    decoder: &InstDecoder,
    instruction: &Instruction,
    bytes: &'a [u8],
) -> Parts<'a>
    requires decoded { answer_of (is_strict decoder.now) bytes.now ≡ Ok instruction.now }
    ensures pieces { IsSplit (is_strict decoder.now) bytes.now result }
    ensures value { lists_of result ≡ parts_of (is_strict decoder.now) bytes.now }
    ensures lengths { HasFieldLengths (lists_of result) }
{
    parts_in(encoding_of(decoder, instruction, bytes), instruction)
}

/// The parts of the accepted encoding at the beginning of the bytes, in order; their concatenation is that encoding.
/// Refused as `InstDecoder::decode_slice` refuses.
///
/// For `48 03 44 25 00 90` the prefixes are 48, the opcode is 03, ModRM is 44, SIB is 25 and the displacement is 00.
pub fn split<'a>(decoder: &InstDecoder, bytes: &'a [u8]) -> Result<Parts<'a>, DecodeError>
    ensures pieces { MatchResult result (λ parts. IsSplit (is_strict decoder.now) bytes.now parts)
        (λ error. answer_of (is_strict decoder.now) bytes.now ≡ Err error) }
    ensures value { IfOk result
        (λ parts. lists_of parts ≡ parts_of (is_strict decoder.now) bytes.now) }
    ensures lengths { IfOk result (λ parts. HasFieldLengths (lists_of parts)) }
{
    let instruction = decoder.decode_slice(bytes)?;
    Ok(split_decoded(decoder, &instruction, bytes))
}
