//! Lines of instructions, worked by hand from the rows.
use crate::tests::decoding::decoded;
use crate::tests::plain_tests::agree_on;
use crate::tests::{group_table, mixed_table, plain_table, row_table, x87_table};
use arrayvec::ArrayVec;
use x86_arch::{ChunkReader, Reader};
use x86_decode::{DecodeError, InstDecoder, Instruction};
use x86_text::line_of;

/// The tables of worked lines, `HEX => LINE`.
fn tables() -> [&'static str; 18] {
    [
        plain_table::PART_1,
        plain_table::PART_2,
        plain_table::PART_3,
        plain_table::PART_4,
        group_table::PART_1,
        group_table::PART_2,
        group_table::PART_3,
        group_table::PART_4,
        group_table::PART_5,
        x87_table::PART_1,
        x87_table::PART_2,
        mixed_table::PART_1,
        mixed_table::PART_2,
        row_table::PART_1,
        row_table::PART_2,
        row_table::PART_3,
        row_table::PART_4,
        row_table::PART_5,
    ]
}

/// The bytes of hex digits, in groups with a blank between them.
pub fn bytes_of(digits: &str) -> Option<ArrayVec<u8, 24>> {
    let mut bytes = ArrayVec::new();
    for group in digits.split(" ") {
        let mut room = [0; 24];
        let count = group.len() / 2;
        if count > room.len() || hex::decode_to_slice(group, &mut room[..count]).is_err() {
            return None;
        }
        if bytes.try_extend_from_slice(&room[..count]).is_err() {
            return None;
        }
    }
    Some(bytes)
}

/// Whether each proper prefix of an encoding answers `ExhaustedInput`.
fn is_open_before_its_end(bytes: &[u8]) -> bool {
    for end in 0..bytes.len() {
        match &InstDecoder::default().decode_slice(&bytes[..end]) {
            Err(DecodeError::ExhaustedInput) => {}
            _ => return false,
        }
    }
    true
}

/// Whether an encoding with FF after it, in another slice, is this instruction too.
fn stays(instruction: &Instruction, bytes: &[u8]) -> bool {
    if bytes.len() > 15 {
        return false;
    }
    let mut reader = ChunkReader::new(bytes, &[0xff]);
    match &InstDecoder::default().decode(&mut reader) {
        Ok(read) => *read == *instruction && reader.offset() == bytes.len() as u64,
        Err(_) => false,
    }
}

/// Whether an instruction has all of these bytes, and this is its line at place 0.
fn is_listed(instruction: &Instruction, bytes: &[u8], line: &str) -> bool {
    instruction.len().to_const() == bytes.len() as u64
        && line_of(0, instruction).as_slice() == line.as_bytes()
}

/// Whether the bytes are one instruction, with this line.
fn is_worked(bytes: &[u8], line: &str) -> bool {
    let instruction = decoded(bytes);
    is_listed(&instruction, bytes, line)
        && is_open_before_its_end(bytes)
        && stays(&instruction, bytes)
        && agree_on(bytes)
}

/// Whether a line of a table is so.
fn is_worked_row(row: &str) -> bool {
    match row.split_once(" => ") {
        Some((digits, line)) => match bytes_of(digits) {
            Some(bytes) => is_worked(bytes.as_slice(), line),
            None => false,
        },
        None => false,
    }
}

#[test]
fn worked_lines(rt: HostRuntime) {
    for table in tables() {
        for row in table.lines() {
            assert!(rt; is_worked_row(row), "{row}");
        }
    }
}
