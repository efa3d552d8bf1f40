//! The examples of docs/GUIDE.md, as they are there.
use crate::tests::decoding::decoded;
use crate::tests::rebuilder::Rebuilder;
use arrayvec::ArrayVec;
use x86_decode::{DecodeError, InstDecoder, Instruction, Opcode, Operand, RegSpec};
use x86_fields::RegFile;
use x86_layout::{Fields, Sweep, TightenError, branch_target, emit, mark_targets, split, tighten};
use x86_text::{Line, line_of, operand_text, push_instruction, refusal_of};

fn opcode_and_length(bytes: &[u8]) -> Result<(Opcode, u64), DecodeError> {
    let instruction = InstDecoder::default().decode_slice(bytes)?;
    Ok((instruction.opcode(), instruction.len().to_const()))
}

#[test]
fn decode_a_slice(rt: HostRuntime) {
    let read = opcode_and_length(&[0x48, 0x01, 0xd8, 0x90]);
    assert!(rt; matches!(read, Ok((opcode, 3)) if opcode == Opcode::ADD));
}

/// What a tool does about bytes that are no instruction.
#[derive(PartialEq, Eq, Drop)]
enum Advice {
    Decoded,
    ReadMore,
    Skip,
}

fn advice_for(bytes: &[u8]) -> Advice {
    match InstDecoder::default().decode_slice(bytes) {
        Ok(_) => Advice::Decoded,
        Err(DecodeError::ExhaustedInput) => Advice::ReadMore,
        Err(_) => Advice::Skip,
    }
}

#[test]
fn tell_refusals_apart(rt: HostRuntime) {
    assert!(rt; advice_for(&[0x90]) == Advice::Decoded);
    assert!(rt; advice_for(&[0x0f]) == Advice::ReadMore);
    assert!(rt; advice_for(&[0x06]) == Advice::Skip);
}

#[test]
fn read_over_two_buffers(rt: HostRuntime) {
    // lea rax, [rip + 16], cut inside the displacement
    let read = crate::two_buffers::decode_over(&[0x48, 0x8d, 0x05, 0x10], &[0x00, 0x00, 0x00]);
    assert!(rt; matches!(read, Ok(instruction) if instruction.opcode() == Opcode::LEA));
}

fn address_of_operand(instruction: &Instruction, regs: &RegFile, place: u64) -> Option<u64> {
    let next = place.wrapping_add(instruction.len().to_const());
    let short = instruction.prefixes.address_size();
    let operand = instruction.operand(1);
    operand.address(short, regs, next)
}

#[test]
fn compute_an_address(rt: HostRuntime) {
    let mut regs = RegFile { regs: [0; 16] };
    regs.regs[5] = 0x7fff_0000;
    // mov eax, [rbp - 4]
    let address = address_of_operand(&decoded(&[0x8b, 0x45, 0xfc]), &regs, 0x40_1000);
    assert!(rt; matches!(address, Some(0x7ffe_fffc)));
}

/// Whether an operand is memory.
fn has_memory(instruction: &Instruction) -> bool {
    for operand in instruction.operands() {
        if operand.is_memory() {
            return true;
        }
    }
    false
}

/// The displacement of memory that is relative to the next instruction.
fn relative_displacement(instruction: &Instruction, i: u8) -> Option<i32> {
    let operand = instruction.operand(i);
    let parts = operand.address_parts(instruction.prefixes.address_size())?;
    if operand.is_ip_relative() {
        Some(parts.disp)
    } else {
        None
    }
}

#[test]
fn match_an_operand(rt: HostRuntime) {
    // add [rax + 8], ebx
    let sum = decoded(&[0x01, 0x58, 0x08]);
    assert!(rt; has_memory(&sum));
    assert!(rt; relative_displacement(&sum, 0).is_none());
    // mov eax, [rip - 8]
    let load = decoded(&[0x8b, 0x05, 0xf8, 0xff, 0xff, 0xff]);
    assert!(rt; has_memory(&load));
    assert!(rt; relative_displacement(&load, 1) == Some(-8));
    assert!(rt; relative_displacement(&load, 4).is_none());
}

/// Whether the visitor answers this operand.
fn visits(instruction: &Instruction, index: u8, operand: Operand) -> bool {
    match &instruction.visit_operand(index, &mut Rebuilder) {
        Ok(rebuilt) => *rebuilt == operand,
        Err(_) => false,
    }
}

#[test]
fn walk_the_operands(rt: HostRuntime) {
    // add [rax + 8], ebx
    let sum = decoded(&[0x01, 0x58, 0x08]);
    let (base, reg) = (RegSpec::rax(), RegSpec::ebx());
    assert!(rt; visits(&sum, 0, Operand::Disp { base, disp: 8 }));
    assert!(rt; visits(&sum, 1, Operand::Register { reg }));
    assert!(rt; visits(&sum, 2, Operand::Nothing));
    assert!(rt; visits(&sum, 255, Operand::Nothing));
    assert!(rt; sum.operand_count() == 2);
}

/// The encoding at the beginning without its prefixes, where that is one.
fn without_prefixes(bytes: &[u8]) -> Option<ArrayVec<u8, 15>> {
    let decoder = InstDecoder::default();
    match split(&decoder, bytes) {
        Ok(parts) => {
            let mut fields = Fields::of(&parts);
            fields.prefixes.clear();
            emit(&decoder, &fields).ok()
        }
        Err(_) => None,
    }
}

#[test]
fn change_a_part(rt: HostRuntime) {
    let bytes = without_prefixes(&[0x66, 0x48, 0x01, 0xd8]).expect(&rt, "an encoding");
    assert!(rt; bytes.as_slice() == [0x01, 0xd8].as_slice());
}

/// How many bytes a shorter form of the address spares.
fn spared(bytes: &[u8]) -> Result<u64, TightenError> {
    let decoder = InstDecoder::default();
    let length = decoder.decode_slice(bytes).map_err(TightenError::Refused)?;
    let short = tighten(&decoder, bytes)?;
    Ok(length.len().to_const().saturating_sub(short.len() as u64))
}

#[test]
fn take_the_shortest_address(rt: HostRuntime) {
    assert!(rt; matches!(spared(&[0x48, 0x8b, 0x84, 0x25, 0, 0, 0, 0]), Ok(4)));
    assert!(rt; matches!(spared(&[0x8b, 0xc0]), Err(TightenError::NoMemoryForm)));
}

/// The place of the last instruction of a sweep.
fn last_place(bytes: &[u8]) -> Option<usize> {
    let mut last = None;
    for cut in Sweep::new(InstDecoder::default(), bytes) {
        let place = cut.place;
        match cut.answer {
            Ok(_) => last = Some(place),
            Err(_) => {}
        }
    }
    last
}

/// The target of the instruction at the beginning, if it is a relative branch. The bytes are at `place`.
fn target(bytes: &[u8], place: u64) -> Option<u64> {
    match InstDecoder::default().decode_slice(bytes) {
        Ok(instruction) => {
            let next = place.wrapping_add(instruction.len().to_const());
            branch_target(&instruction, next)
        }
        Err(_) => None,
    }
}

/// Which of six bytes are branched to.
fn marked(bytes: &[u8; 6]) -> [bool; 6] {
    let mut marks = [false; 6];
    mark_targets(&InstDecoder::default(), bytes, &mut marks);
    marks
}

#[test]
fn go_over_any_bytes(rt: HostRuntime) {
    assert!(rt; last_place(&[0x06, 0x90, 0xc3, 0x06]) == Some(2));
    assert!(rt; target(&[0xeb, 0xfe], 0x40_1000) == Some(0x40_1000));
    let [a, b, c, d, e, f] = marked(&[0x74, 0x01, 0x06, 0xeb, 0xfb, 0x90]);
    assert!(rt; a && !b && !c && d && !e && !f);
}

/// The line of the instruction at the beginning, or of its refusal. The bytes are at `place`.
fn line_at(bytes: &[u8], place: u64) -> Line {
    match InstDecoder::default().decode_slice(bytes) {
        Ok(instruction) => line_of(place, &instruction),
        Err(error) => refusal_of(place, error),
    }
}

/// The length of an instruction and its text, separated by a tab.
fn columns(instruction: &Instruction) -> Line {
    let mut line = Line::new();
    line.push_u64(instruction.len().to_const());
    line.push(b'\t');
    push_instruction(&mut line, instruction);
    line
}

#[test]
fn print(rt: HostRuntime) {
    assert!(rt; line_at(&[0x48, 0x01, 0xd8], 4).as_slice() == b"4 3 ADD rax, rbx m8".as_slice());
    let refusal = refusal_of(7, DecodeError::InvalidOpcode);
    assert!(rt; line_at(&[0x06], 7).as_slice() == refusal.as_slice());
}

/// Whether these are the columns of an instruction, and this the text of its operand 1.
fn is_printed(instruction: &Instruction, line: &[u8], operand: &[u8]) -> bool {
    columns(instruction).as_slice() == line
        && operand_text(&instruction.operand(1)).as_slice() == operand
}

#[test]
fn print_other_columns(rt: HostRuntime) {
    let (line, operand) = (b"4\tADD eax, [rbx+rcx*4-16] m4", b"[rbx+rcx*4-16]");
    assert!(rt; is_printed(&decoded(&[0x03, 0x44, 0x8b, 0xf0]), line, operand));
}
