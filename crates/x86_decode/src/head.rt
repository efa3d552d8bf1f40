//! The head of an encoding: the run of prefixes, the escape and the opcode byte.

ghost use Rattle.std.specs.Prelude.{◌≡◌, ℕ, List};
ghost use Rattle.x86_fields.specs.Steps.{outcome, pure, then_from};
ghost use Rattle.x86_fields.specs.Run.{is_prefix, reading_of};
ghost use Rattle.x86_forms.specs.Words.{rows_of};
ghost use Rattle.x86_decode.specs.Head.{column_of, is_vex, vex_refusal, seen_by};
ghost use Rattle.x86_decode.specs.ByteClass.{byte_class};
ghost use Rattle.x86_decode.specs.Walk.{head_from, escape_step, found_word, read_word};

use x86_arch::Reader;
use x86_fields::{DecodeError, Mandatory, Prefixes};
use x86_forms::{Column, Map, Words};

/// What a byte is at the beginning of an encoding.
#[derive(Clone, Copy, Drop)]
pub enum ByteClass {
    /// A legacy prefix.
    Legacy,
    Rex,
    Opcode,
    /// 0F.
    Escape,
    /// C4, C5 or 62.
    Vex,
}

const OPC: ByteClass = ByteClass::Opcode;

const LEG: ByteClass = ByteClass::Legacy;

const REX: ByteClass = ByteClass::Rex;

const ESC: ByteClass = ByteClass::Escape;

const VEX: ByteClass = ByteClass::Vex;

/// By the byte: sixteen on a line, followed by the first of them.
const BYTE_CLASSES: &[ByteClass; 256] = &[
    OPC, OPC, OPC, OPC, OPC, OPC, OPC, OPC, OPC, OPC, OPC, OPC, OPC, OPC, OPC, ESC, // 00
    OPC, OPC, OPC, OPC, OPC, OPC, OPC, OPC, OPC, OPC, OPC, OPC, OPC, OPC, OPC, OPC, // 10
    OPC, OPC, OPC, OPC, OPC, OPC, LEG, OPC, OPC, OPC, OPC, OPC, OPC, OPC, LEG, OPC, // 20
    OPC, OPC, OPC, OPC, OPC, OPC, LEG, OPC, OPC, OPC, OPC, OPC, OPC, OPC, LEG, OPC, // 30
    REX, REX, REX, REX, REX, REX, REX, REX, REX, REX, REX, REX, REX, REX, REX, REX, // 40
    OPC, OPC, OPC, OPC, OPC, OPC, OPC, OPC, OPC, OPC, OPC, OPC, OPC, OPC, OPC, OPC, // 50
    OPC, OPC, VEX, OPC, LEG, LEG, LEG, LEG, OPC, OPC, OPC, OPC, OPC, OPC, OPC, OPC, // 60
    OPC, OPC, OPC, OPC, OPC, OPC, OPC, OPC, OPC, OPC, OPC, OPC, OPC, OPC, OPC, OPC, // 70
    OPC, OPC, OPC, OPC, OPC, OPC, OPC, OPC, OPC, OPC, OPC, OPC, OPC, OPC, OPC, OPC, // 80
    OPC, OPC, OPC, OPC, OPC, OPC, OPC, OPC, OPC, OPC, OPC, OPC, OPC, OPC, OPC, OPC, // 90
    OPC, OPC, OPC, OPC, OPC, OPC, OPC, OPC, OPC, OPC, OPC, OPC, OPC, OPC, OPC, OPC, // A0
    OPC, OPC, OPC, OPC, OPC, OPC, OPC, OPC, OPC, OPC, OPC, OPC, OPC, OPC, OPC, OPC, // B0
    OPC, OPC, OPC, OPC, VEX, VEX, OPC, OPC, OPC, OPC, OPC, OPC, OPC, OPC, OPC, OPC, // C0
    OPC, OPC, OPC, OPC, OPC, OPC, OPC, OPC, OPC, OPC, OPC, OPC, OPC, OPC, OPC, OPC, // D0
    OPC, OPC, OPC, OPC, OPC, OPC, OPC, OPC, OPC, OPC, OPC, OPC, OPC, OPC, OPC, OPC, // E0
    LEG, OPC, LEG, LEG, OPC, OPC, OPC, OPC, OPC, OPC, OPC, OPC, OPC, OPC, OPC, OPC, // F0
];

/// What a byte is at the beginning of an encoding, by the table.
#[inline(always)]
pub fn byte_class(byte: u8) -> ByteClass
    ensures { result ≡ byte_class byte }
{
    BYTE_CLASSES[byte as usize]
}

/// Whether the byte is a legacy prefix or a REX.
#[inline(always)]
#[tactic(auto, using(crate::proofs::ByteClassLemmas::prefix_class))]
pub fn is_prefix(byte: u8) -> bool
    ensures { result ≡ is_prefix byte }
{
    matches!(byte_class(byte), ByteClass::Legacy | ByteClass::Rex)
}

/// The rest of a run of which some bytes were read, and the byte after it. The prefixes stay where they are: by value
/// they would be packed and taken apart again.
pub fn read_prefixes<T: Reader<u64, u8>>(
    reader: &mut T,
    prefixes: &mut Prefixes,
) -> Result<u8, DecodeError>
    ensures { (beginning : List ℕ) → prefixes.old ≡ reading_of beginning →
        then_from result (T.state reader.new) (λ byte. pure (prefixes.new, byte))
        ≡ head_from beginning (T.state reader.old) }
{
    'run: loop {
        let byte = reader.next()?;
        if !is_prefix(byte) {
            return Ok(byte);
        }
        *prefixes = prefixes.after(byte);
    }
}

/// Whether the byte is C4, C5 or 62.
pub fn is_vex(byte: u8) -> bool
    ensures { result ≡ is_vex byte }
{
    byte == 0xc4 || byte == 0xc5 || byte == 0x62
}

fn vex_refusal(prefixes: &Prefixes) -> DecodeError
    ensures { result ≡ vex_refusal prefixes.now }
{
    if prefixes.operand_size() || prefixes.lock() || prefixes.rex().is_some() {
        DecodeError::InvalidPrefixes
    } else {
        DecodeError::IncompleteDecoder
    }
}

/// The map and the opcode byte after 0F.
#[inline(always)]
fn read_escaped<T: Reader<u64, u8>>(reader: &mut T) -> Result<(Map, u8), DecodeError>
    ensures { outcome result (T.state reader.new) ≡ escape_step (T.state reader.old) }
{
    match reader.next()? {
        0x38 => Ok((Map::Of38, reader.next()?)),
        0x3a => Ok((Map::Of3a, reader.next()?)),
        opcode => Ok((Map::Of, opcode)),
    }
}

/// The column of the opcode tables after a run that reads so.
#[inline(always)]
pub fn column_of(prefixes: &Prefixes) -> Column
    ensures { result ≡ column_of prefixes.now }
{
    match prefixes.mandatory() {
        Mandatory::Absent => Column::Plain,
        Mandatory::OperandSize => Column::P66,
        Mandatory::F3 => Column::F3,
        Mandatory::F2 => Column::F2,
    }
}

/// The prefixes as a record sees them: 66 that chooses the operation is cleared.
#[inline(always)]
pub fn seen_by(map: Map, byte: u8, prefixes: Prefixes) -> Prefixes
    ensures { result ≡ seen_by map byte prefixes }
{
    match (map, column_of(&prefixes)) {
        (Map::Of38, Column::P66) if byte != 0xf0 && byte != 0xf1 => prefixes.without_operand_size(),
        _ => prefixes,
    }
}

/// The word of the row at an opcode byte, which is this byte or follows the escape that it begins. Where 66
/// chooses the operation it is cleared.
#[inline(always)]
pub fn read_word<W: Words, T: Reader<u64, u8>>(
    rows: &W,
    reader: &mut T,
    prefixes: &mut Prefixes,
    byte: u8,
) -> Result<u64, DecodeError>
    ensures { then_from result (T.state reader.new) (found_word prefixes.new)
        ≡ read_word (rows_of (W.word rows.now)) prefixes.old byte (T.state reader.old) }
{
    match byte_class(byte) {
        ByteClass::Escape => {
            let (map, opcode) = read_escaped(reader)?;
            let word = rows.word(map, column_of(prefixes), opcode);
            *prefixes = seen_by(map, opcode, *prefixes);
            Ok(word)
        }
        ByteClass::Vex => Err(vex_refusal(prefixes)),
        _ => Ok(rows.word(Map::One, column_of(prefixes), byte)),
    }
}
