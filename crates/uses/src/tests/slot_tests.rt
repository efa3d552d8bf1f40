//! Where operands come from, worked by hand: reg, rm and immediates from the manual's operand encodings (Intel SDM volume
//! 2, section 3.1.1.4), the rest from what each slot means (`Slot`). No line of a listing shows it.
use crate::tests::decoding::decoded;
use x86_decode::Slot;

/// Whether an instruction has operands from these slots, and no others.
fn has_slots(bytes: &[u8], wanted: &[Slot]) -> bool {
    let instruction = decoded(bytes);
    for at in 0..4 {
        let slot = wanted.get(at).copied().unwrap_or(Slot::Nothing);
        if instruction.slot(at as u8) != slot {
            return false;
        }
    }
    instruction.operand_count() as usize == wanted.len()
}

#[test]
fn registers_of_modrm(rt: HostRuntime) {
    assert!(rt; has_slots(&[0x01, 0xd8], &[Slot::Rm, Slot::Reg]));
    assert!(rt; has_slots(&[0x03, 0xc3], &[Slot::Reg, Slot::Rm]));
    assert!(rt; has_slots(&[0x8c, 0xd8], &[Slot::Rm, Slot::Reg]));
    assert!(rt; has_slots(&[0x8e, 0xd8], &[Slot::Reg, Slot::Rm]));
    assert!(rt; has_slots(&[0x0f, 0x20, 0xc0], &[Slot::Rm, Slot::Reg]));
    assert!(rt; has_slots(&[0x0f, 0x23, 0xc0], &[Slot::Reg, Slot::Rm]));
    assert!(rt; has_slots(&[0x0f, 0x6f, 0xc1], &[Slot::Reg, Slot::Rm]));
    assert!(rt; has_slots(&[0x0f, 0x7f, 0xc1], &[Slot::Rm, Slot::Reg]));
    assert!(rt; has_slots(&[0x0f, 0xd7, 0xc1], &[Slot::Reg, Slot::Rm]));
    assert!(rt; has_slots(&[0x66, 0x0f, 0xd7, 0xc1], &[Slot::Reg, Slot::Rm]));
    assert!(rt; has_slots(&[0xf7, 0xd8], &[Slot::Rm]));
}

#[test]
fn registers_of_the_opcode_byte(rt: HostRuntime) {
    assert!(rt; has_slots(&[0x50], &[Slot::Reg]));
    assert!(rt; has_slots(&[0x0f, 0xc8], &[Slot::Reg]));
    assert!(rt; has_slots(&[0xb0, 0x7f], &[Slot::Reg, Slot::ImmU8]));
    // The accumulator, and the register of the opcode byte.
    assert!(rt; has_slots(&[0x91], &[Slot::Reg, Slot::Rm]));
}

#[test]
fn registers_that_names_imply(rt: HostRuntime) {
    assert!(rt; has_slots(&[0xec], &[Slot::Reg, Slot::Rm]));
    assert!(rt; has_slots(&[0xef], &[Slot::Rm, Slot::Reg]));
    assert!(rt; has_slots(&[0xd2, 0xc0], &[Slot::Rm, Slot::Reg]));
    assert!(rt; has_slots(&[0x0f, 0xa5, 0xd8], &[Slot::Rm, Slot::Reg, Slot::Third]));
    assert!(rt; has_slots(&[0x0f, 0xa0], &[Slot::Reg]));
    assert!(rt; has_slots(&[0x0f, 0x01, 0xd8], &[Slot::Reg]));
    assert!(rt; has_slots(&[0x0f, 0x01, 0xde], &[Slot::Reg]));
    assert!(rt; has_slots(&[0x0f, 0x01, 0xdf], &[Slot::Reg, Slot::Rm]));
    assert!(rt; has_slots(&[0x0f, 0x01, 0xfe], &[Slot::Reg, Slot::Rm, Slot::Third]));
    assert!(rt; has_slots(&[0xf2, 0x0f, 0xae, 0xf1], &[Slot::Reg]));
    assert!(rt; has_slots(&[0xd8, 0xc1], &[Slot::Reg, Slot::Rm]));
    assert!(rt; has_slots(&[0xdc, 0xc1], &[Slot::Rm, Slot::Reg]));
}

#[test]
fn immediates(rt: HostRuntime) {
    assert!(rt; has_slots(&[0x6a, 0x01], &[Slot::ImmI8]));
    assert!(rt; has_slots(&[0xd0, 0xc0], &[Slot::Rm, Slot::ImmI8]));
    assert!(rt; has_slots(&[0xcd, 0x80], &[Slot::ImmU8]));
    assert!(rt; has_slots(&[0xcc], &[Slot::ImmU8]));
    assert!(rt; has_slots(&[0xf1], &[Slot::ImmU8]));
    assert!(rt; has_slots(&[0x66, 0x05, 0x01, 0x00], &[Slot::Reg, Slot::ImmI16]));
    assert!(rt; has_slots(&[0x05, 0x01, 0x00, 0x00, 0x00], &[Slot::Reg, Slot::ImmI32]));
    assert!(rt;
        has_slots(
            &[0x48, 0x05, 0x01, 0x00, 0x00, 0x00],
            &[Slot::Reg, Slot::ImmI64]
        )
    );
    assert!(rt; has_slots(&[0xc2, 0x10, 0x00], &[Slot::ImmU16]));
    assert!(rt; has_slots(&[0x66, 0xc7, 0xf8, 0x01, 0x00], &[Slot::ImmI32]));
    // A second number has the place of a displacement.
    assert!(rt; has_slots(&[0xc8, 0x10, 0x00, 0x01], &[Slot::ImmInDisp, Slot::ImmU8]));
    let extract = [0x66, 0x0f, 0x78, 0xc1, 0x04, 0x05];
    assert!(rt; has_slots(&extract, &[Slot::Rm, Slot::ImmU8, Slot::ImmInDisp]));
    let insert = [0xf2, 0x0f, 0x78, 0xc1, 0x04, 0x05];
    assert!(rt;
        has_slots(
            &insert,
            &[Slot::Reg, Slot::Rm, Slot::ImmU8, Slot::ImmInDisp]
        )
    );
}

#[test]
fn memory(rt: HostRuntime) {
    assert!(rt; has_slots(&[0x8b, 0x00], &[Slot::Reg, Slot::Deref]));
    assert!(rt; has_slots(&[0x89, 0x40, 0x08], &[Slot::Disp, Slot::Reg]));
    assert!(rt; has_slots(&[0x8b, 0x04, 0x48], &[Slot::Reg, Slot::BaseIndexScale]));
    assert!(rt;
        has_slots(
            &[0x8b, 0x44, 0x48, 0x08],
            &[Slot::Reg, Slot::BaseIndexScaleDisp]
        )
    );
    assert!(rt;
        has_slots(
            &[0x8b, 0x04, 0x4d, 0, 0, 0, 0],
            &[Slot::Reg, Slot::IndexScale]
        )
    );
    assert!(rt;
        has_slots(
            &[0x8b, 0x04, 0x4d, 8, 0, 0, 0],
            &[Slot::Reg, Slot::IndexScaleDisp]
        )
    );
    assert!(rt; has_slots(&[0x8b, 0x04, 0x25, 0, 0, 0, 0], &[Slot::Reg, Slot::DispU32]));
    assert!(rt; has_slots(&[0x67, 0xa0, 0, 0, 0, 0], &[Slot::Reg, Slot::DispU32]));
    assert!(rt; has_slots(&[0xa2, 0, 0, 0, 0, 0, 0, 0, 0], &[Slot::DispU64, Slot::Reg]));
}

#[test]
fn strings(rt: HostRuntime) {
    assert!(rt; has_slots(&[0xa4], &[Slot::DerefRdi, Slot::DerefRsi]));
    assert!(rt; has_slots(&[0x67, 0xa5], &[Slot::DerefEdi, Slot::DerefEsi]));
    assert!(rt; has_slots(&[0xac], &[Slot::Reg, Slot::Deref]));
    assert!(rt; has_slots(&[0x67, 0xaa], &[Slot::Deref, Slot::Reg]));
    assert!(rt; has_slots(&[0x6c], &[Slot::Deref, Slot::Reg]));
    assert!(rt; has_slots(&[0x6f], &[Slot::Reg, Slot::Deref]));
}
