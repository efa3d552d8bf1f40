//! The decoder against a plain loop over the printed rows.

use x86_arch::{Reader, U8Reader};
use x86_decode::{InstDecoder, Instruction};
use x86_fields::{DecodeError, Prefixes, is_legacy, is_rex, next_byte};
use x86_forms::{Column, Map, row};
use x86_groups::read_group;
use x86_operands::{Reading, read_form};

fn column(prefixes: &Prefixes) -> Column {
    if prefixes.repnz() {
        Column::F2
    } else if prefixes.rep() {
        Column::F3
    } else if prefixes.operand_size() {
        Column::P66
    } else {
        Column::Plain
    }
}

/// The map and the opcode byte, where `byte` is the first after the prefixes.
fn opcode<T: Reader<u64, u8>>(reader: &mut T, byte: u8) -> Result<(Map, u8), DecodeError> {
    if byte != 0x0f {
        return Ok((Map::One, byte));
    }
    let second = next_byte(reader)?;
    let map = match second {
        0x38 => Map::Of38,
        0x3a => Map::Of3a,
        _ => return Ok((Map::Of, second)),
    };
    Ok((map, next_byte(reader)?))
}

/// Why no opcode may begin with a byte of VEX or EVEX after these prefixes.
fn vex_refusal(prefixes: &Prefixes) -> DecodeError {
    if prefixes.operand_size() || prefixes.lock() || prefixes.rex().is_some() {
        DecodeError::InvalidPrefixes
    } else {
        DecodeError::IncompleteDecoder
    }
}

/// The prefixes that a row sees.
fn seen(prefixes: Prefixes, map: Map, byte: u8) -> Prefixes {
    if map == Map::Of38 && byte != 0xf0 && byte != 0xf1 {
        prefixes.without_operand_size()
    } else {
        prefixes
    }
}

fn read_row<T: Reader<u64, u8>>(
    reader: &mut T,
    prefixes: Prefixes,
    map: Map,
    byte: u8,
    strict: bool,
) -> Result<Reading, DecodeError> {
    let column = column(&prefixes);
    let seen = if column == Column::P66 {
        seen(prefixes, map, byte)
    } else {
        prefixes
    };
    match row(map, column, byte) {
        None => Err(DecodeError::InvalidOpcode),
        Some(found) if found.form.is_group() => read_group(reader, found, seen, strict),
        Some(found) => read_form(reader, found, seen),
    }
}

fn read_after<T: Reader<u64, u8>>(
    reader: &mut T,
    prefixes: Prefixes,
    byte: u8,
    strict: bool,
) -> Result<Reading, DecodeError> {
    if byte == 0xc4 || byte == 0xc5 || byte == 0x62 {
        return Err(vex_refusal(&prefixes));
    }
    match opcode(reader, byte) {
        Ok((map, byte)) => read_row(reader, prefixes, map, byte, strict),
        Err(error) => Err(error),
    }
}

fn read_all<T: Reader<u64, u8>>(reader: &mut T, strict: bool) -> Result<Reading, DecodeError> {
    let mut prefixes = Prefixes::none();
    for _ in 0..16u8 {
        match next_byte(reader) {
            Ok(byte) if is_legacy(byte) || is_rex(byte) => prefixes = prefixes.after(byte),
            Ok(byte) => return read_after(reader, prefixes, byte, strict),
            Err(error) => return Err(error),
        }
    }
    Err(DecodeError::TooLong)
}

/// Whether F0 is there and isn't allowed.
fn refuses_lock(reading: &Reading) -> bool {
    reading.prefixes.lock() && !(reading.opcode.can_lock() && reading.slots[0].is_memory())
}

/// The memory size in bytes: 0 for none, and 63 where the processor decides.
fn size_of(instruction: &Instruction) -> u8 {
    match instruction.mem_size() {
        None => 0,
        Some(size) => size.bytes_size().unwrap_or(63),
    }
}

fn has_operands(instruction: &Instruction, reading: &Reading) -> bool {
    for i in 0..4u8 {
        let same = instruction.operand(i) == reading.operands[i as usize]
            && instruction.slot(i) == reading.slots[i as usize];
        if !same {
            return false;
        }
    }
    instruction.operand_count() == reading.count
}

/// Whether an instruction is what the loop reads.
fn is_same(instruction: &Instruction, reading: &Reading) -> bool {
    instruction.opcode() == reading.opcode
        && size_of(instruction) == reading.mem_size
        && instruction.prefixes == reading.prefixes
        && has_operands(instruction, reading)
}

/// Whether an instruction of so many bytes is what the loop reads of as many.
fn is_read(instruction: &Instruction, strict: bool, bytes: &[u8]) -> bool {
    let mut reader = U8Reader::new(bytes);
    match &read_all(&mut reader, strict) {
        Ok(reading) => is_same(instruction, reading)
            && !refuses_lock(reading)
            && instruction.len().to_const() == reader.offset(),
        Err(_) => false,
    }
}

/// Why the loop refuses the bytes, and how many it takes.
fn refusal(bytes: &[u8], strict: bool) -> Option<(DecodeError, u64)> {
    let mut reader = U8Reader::new(bytes);
    match &read_all(&mut reader, strict) {
        Ok(reading) if refuses_lock(reading) => Some((
            DecodeError::InvalidPrefixes,
            reader.offset(),
        )),
        Ok(_) => None,
        Err(DecodeError::ExhaustedInput) if bytes.len() == 15 => Some((DecodeError::TooLong, 15)),
        Err(error) => Some((*error, reader.offset())),
    }
}

fn agree(decoder: &InstDecoder, strict: bool, bytes: &[u8]) -> bool {
    let mut reader = U8Reader::new(bytes);
    let read = &bytes[..bytes.len().min(15)];
    match &decoder.decode(&mut reader) {
        Ok(instruction) => instruction.len().to_const() == reader.offset()
            && is_read(instruction, strict, read),
        Err(error) => refusal(read, strict) == Some((*error, reader.offset())),
    }
}

/// Whether decoder and loop answer the same for these bytes, under both choices.
pub fn agree_on(bytes: &[u8]) -> bool {
    agree(&InstDecoder::default(), false, bytes) && agree(&InstDecoder::strict(), true, bytes)
}

/// Whether they agree on an opcode byte of a map, with this ModRM after it.
fn byte_agrees(prefix: u8, escape: [u8; 3], byte: u8, modrm: u8) -> bool {
    let [a, b, c] = escape;
    agree_on(&[
        prefix, a, b, c, byte, modrm, 0x24, 1, 2, 3, 4, 5, 6, 7, 8, 9,
    ])
}

/// The first opcode byte of a map on which they don't agree, with a register form or with a memory form after it.
fn unlike(prefix: u8, escape: [u8; 3]) -> Option<u8> {
    for byte in 0..=255u8 {
        if !byte_agrees(prefix, escape, byte, 0xc1) || !byte_agrees(prefix, escape, byte, 0x44) {
            return Some(byte);
        }
    }
    None
}

/// The maps, each as what is before its opcode byte.
const ESCAPES: [[u8; 3]; 4] = [
    [0x2e, 0x2e, 0x48],
    [0x2e, 0x2e, 0x0f],
    [0x2e, 0x0f, 0x38],
    [0x2e, 0x0f, 0x3a],
];

#[test]
fn every_opcode_by_a_plain_loop(rt: HostRuntime) {
    for prefix in [0x2eu8, 0x66, 0xf2, 0xf3, 0xf0, 0x67] {
        for escape in ESCAPES {
            let byte = unlike(prefix, escape);
            assert!(rt; byte.is_none(), "{prefix} {escape:?} {byte:?}");
        }
    }
}
