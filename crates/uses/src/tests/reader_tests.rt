//! Readers, and one instruction used again.
use crate::tests::decoding::decoded;
use x86_arch::{ChunkReader, ReadError, Reader, U8Reader};
use x86_decode::{InstDecoder, Instruction, Opcode};
use x86_fields::DecodeError;

#[test]
fn a_number_that_is_too_long_takes_nothing(rt: HostRuntime) {
    let mut reader = U8Reader::new(&[1, 2, 3]);
    let mut four = [0; 4];
    assert!(rt; reader.next_n(&mut four).is_err());
    assert!(rt; reader.offset() == 0);
    assert!(rt; matches!(reader.next(), Ok(1)));
}

/// Whether this is the instruction that is read.
fn reads<T: Reader<u64, u8>>(reader: &mut T, wanted: &Instruction) -> bool {
    match &InstDecoder::default().decode(reader) {
        Ok(instruction) => *instruction == *wanted,
        Err(_) => false,
    }
}

#[test]
fn split_input(rt: HostRuntime) {
    let bytes = [0x03, 0x05, 0x00, 0x00, 0x00, 0x00];
    let whole = decoded(&bytes);
    for seam in 0..=6usize {
        let mut reader = ChunkReader::new(&bytes[..seam], &bytes[seam..]);
        assert!(rt; reads(&mut reader, &whole), "a seam at {seam}");
    }
}

/// Whether the next three bytes are these, and so many are taken since the mark and since the beginning.
fn reads_three(reader: &mut ChunkReader<'_>, wanted: [u8; 3], since: u64, total: u64) -> bool {
    let mut buf = [0; 3];
    reader.next_n(&mut buf).is_ok()
        && buf == wanted
        && reader.offset() == since
        && reader.total_offset() == total
}

#[test]
fn a_number_lies_across_the_seam(rt: HostRuntime) {
    let mut reader = ChunkReader::new(&[1, 2], &[3, 4, 5]);
    assert!(rt; matches!(reader.next(), Ok(1)));
    reader.mark();
    assert!(rt; reads_three(&mut reader, [2, 3, 4], 3, 4));
    assert!(rt; matches!(reader.next(), Ok(5)));
    assert!(rt; matches!(reader.next(), Err(ReadError::ExhaustedInput)));
}

/// Whether the next encoding is refused, and leaves the instruction blank.
fn is_refused(instruction: &mut Instruction, reader: &mut U8Reader<'_>) -> bool {
    let refused = InstDecoder::default().decode_into(instruction, reader);
    matches!(refused, Err(DecodeError::InvalidOpcode)) && *instruction == Instruction::invalid()
}

#[test]
fn one_instruction_used_again(rt: HostRuntime) {
    let decoder = InstDecoder::default();
    let mut instruction = Instruction::default();
    let mut reader = U8Reader::new(&[0xf0, 0x01, 0x18, 0x06, 0x90]);
    assert!(rt; decoder.decode_into(&mut instruction, &mut reader).is_ok());
    assert!(rt; is_refused(&mut instruction, &mut reader));
    assert!(rt; decoder.decode_into(&mut instruction, &mut reader).is_ok());
    assert!(rt; instruction == decoded(&[0x90]));
}

/// Whether the instruction at the beginning is read, of this operation and so many bytes.
fn takes(instruction: &mut Instruction, bytes: &[u8], opcode: Opcode, length: u64) -> bool {
    let read = InstDecoder::default().decode_slice_into(instruction, bytes);
    read.is_ok() && instruction.opcode() == opcode && instruction.len().to_const() == length
}

#[test]
fn one_instruction_over_slices(rt: HostRuntime) {
    let mut instruction = Instruction::default();
    assert!(rt; takes(&mut instruction, &[0x48, 0x01, 0xd8, 0x90], Opcode::ADD, 3));
    let refused = InstDecoder::default().decode_slice_into(&mut instruction, &[0x06]);
    assert!(rt; matches!(refused, Err(DecodeError::InvalidOpcode)));
    assert!(rt; instruction == Instruction::invalid() && instruction.len().to_const() == 0);
}

#[test]
fn equality_looks_at_slots(rt: HostRuntime) {
    let to_rm = decoded(&[0x01, 0xd8]);
    let to_reg = decoded(&[0x03, 0xc3]);
    assert!(rt; to_rm.opcode() == Opcode::ADD && to_reg.opcode() == Opcode::ADD);
    assert!(rt; !(to_rm == to_reg));
    // The length is not looked at.
    assert!(rt; to_rm == decoded(&[0x2e, 0x01, 0xd8]));
}

#[test]
fn strict_fences(rt: HostRuntime) {
    let strict = InstDecoder::strict();
    let refused = strict.decode_slice(&[0x0f, 0xae, 0xe9]);
    assert!(rt; matches!(refused, Err(DecodeError::InvalidOperand)));
    assert!(rt; matches!(strict.decode_slice(&[0x41, 0x0f, 0xae, 0xe8]), Ok(_)));
}
