//! What the accessors of an instruction return.
use crate::tests::decoding::decoded;
use x86_arch::AddressDiff;
use x86_decode::{ConditionCode, InstDecoder, Instruction, Opcode, Operand, Segment, Slot};

/// Whether an instruction is read, and this is what its operation tests.
fn tests(bytes: &[u8], wanted: Option<ConditionCode>) -> bool {
    let instruction = decoded(bytes);
    instruction.len().to_const() > 0 && instruction.opcode().condition() == wanted
}

#[test]
fn conditions(rt: HostRuntime) {
    assert!(rt; tests(&[0x73, 0x00], Some(ConditionCode::AE)));
    assert!(rt; tests(&[0x0f, 0x96, 0xc0], Some(ConditionCode::BE)));
    assert!(rt; tests(&[0x0f, 0x46, 0xc0], Some(ConditionCode::BE)));
    assert!(rt; tests(&[0x89, 0xc0], None));
}

/// The conditions in the order of their encodings (Intel SDM volume 1, table B-1).
const CONDITIONS: [ConditionCode; 16] = [
    ConditionCode::O,
    ConditionCode::NO,
    ConditionCode::B,
    ConditionCode::AE,
    ConditionCode::Z,
    ConditionCode::NZ,
    ConditionCode::BE,
    ConditionCode::A,
    ConditionCode::S,
    ConditionCode::NS,
    ConditionCode::P,
    ConditionCode::NP,
    ConditionCode::L,
    ConditionCode::GE,
    ConditionCode::LE,
    ConditionCode::G,
];

/// Whether the operation of an encoding tests this condition, and is of these kinds: a jump, a move, a setting.
fn is_of_kind(bytes: &[u8], condition: ConditionCode, kind: [bool; 3]) -> bool {
    let opcode = decoded(bytes).opcode();
    opcode.condition() == Some(condition)
        && [opcode.is_jcc(), opcode.is_cmovcc(), opcode.is_setcc()] == kind
}

#[test]
fn kinds_of_conditional_operations(rt: HostRuntime) {
    // The low half of the opcode byte is the encoding of the condition.
    for (at, condition) in CONDITIONS.into_iter().enumerate() {
        let low = at as u8;
        let near = [0x0f, 0x80 + low, 0, 0, 0, 0];
        assert!(rt;
            is_of_kind(&[0x70 + low, 0], condition, [true, false, false]),
            "short jump {low}"
        );
        assert!(rt;
            is_of_kind(&near, condition, [true, false, false]),
            "near jump {low}"
        );
        assert!(rt;
            is_of_kind(&[0x0f, 0x40 + low, 0xc0], condition, [false, true, false]),
            "move {low}"
        );
        assert!(rt;
            is_of_kind(&[0x0f, 0x90 + low, 0xc0], condition, [false, false, true]),
            "setting {low}"
        );
    }
}

/// Whether an instruction is read, and its hints are these.
fn hints(bytes: &[u8], acquire: bool, release: bool) -> bool {
    let instruction = decoded(bytes);
    instruction.len().to_const() > 0
        && instruction.xacquire() == acquire
        && instruction.xrelease() == release
}

#[test]
fn lock_hints(rt: HostRuntime) {
    assert!(rt; hints(&[0xf2, 0xf0, 0x01, 0x18], true, false));
    assert!(rt; hints(&[0xf2, 0x87, 0x08], true, false));
    assert!(rt; hints(&[0xf2, 0x87, 0xc8], false, false));
    assert!(rt; hints(&[0xf3, 0xc7, 0, 0, 0, 0, 0], false, true));
}

/// Whether an instruction of two operands takes these segments where they aren't DS.
fn goes_by(instruction: &Instruction, first: Segment, second: Segment) -> bool {
    instruction.segment_override_for_op(0) == Some(first)
        && instruction.segment_override_for_op(1) == Some(second)
        && instruction.segment_override_for_op(2).is_none()
}

#[test]
fn segments(rt: HostRuntime) {
    assert!(rt; goes_by(&decoded(&[0x64, 0xa4]), Segment::ES, Segment::FS));
}

#[test]
fn the_store_of_stos_goes_by_es(rt: HostRuntime) {
    // Whatever the prefixes say.
    let prefixes = decoded(&[0x64, 0xab]).prefixes;
    assert!(rt; prefixes.es() && prefixes.segment() == Segment::ES);
}

/// Whether an instruction has what `01 d8` has: two operands, the first of rm, and two bytes.
fn is_sum(sum: &Instruction) -> bool {
    sum.operand_count() == 2
        && sum.slot(0) == Slot::Rm
        && sum.operand(3) == Operand::Nothing
        && !sum.operand_present(3)
        && sum.len() == AddressDiff::from_const(2)
}

#[test]
fn operands_by_their_index(rt: HostRuntime) {
    assert!(rt; is_sum(&decoded(&[0x01, 0xd8])));
}

#[test]
fn the_strict_decoder_is_below(rt: HostRuntime) {
    assert!(rt; InstDecoder::strict() < InstDecoder::default());
}

/// Whether an instruction is read, and this is whether 66 is left in its prefixes.
fn keeps_operand_size(bytes: &[u8], kept: bool) -> bool {
    let instruction = decoded(bytes);
    instruction.len().to_const() > 0 && instruction.prefixes.operand_size() == kept
}

#[test]
fn cleared_prefixes(rt: HostRuntime) {
    assert!(rt; keeps_operand_size(&[0x66, 0x0f, 0xae, 0xf1, 0x00], false));
    assert!(rt; keeps_operand_size(&[0x66, 0x0f, 0x38, 0x00, 0xc1], false));
    assert!(rt; keeps_operand_size(&[0x66, 0x0f, 0x38, 0xf1, 0x00], true));
}
