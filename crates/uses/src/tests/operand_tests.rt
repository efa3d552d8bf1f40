//! Operands: the visitor, and the addresses that operands denote.

use crate::tests::decoding::decoded;
use crate::tests::rebuilder::Rebuilder;
use x86_arch::U8Reader;
use x86_decode::InstDecoder;
use x86_fields::{ModRM, Prefixes, RegFile, address_of, read_raw, reading_of};
use x86_operands::Operand;
use x86_regs::{MergeMode, RegSpec, SaeMode};

/// Whether the call that an operand makes on a visitor names its variant, with its fields.
fn is_decoded(operand: Operand) -> bool {
    match &operand.visit(&mut Rebuilder) {
        Ok(rebuilt) => *rebuilt == operand,
        Err(_) => false,
    }
}

#[test]
fn visited_immediates_and_registers(rt: HostRuntime) {
    let reg = RegSpec::rax();
    let mask = RegSpec::mask(1);
    let merge = MergeMode::Zero;
    let sae = SaeMode::RoundDown;
    let operands = [
        Operand::ImmediateI8 { imm: -1 },
        Operand::ImmediateU8 { imm: 2 },
        Operand::ImmediateI16 { imm: -3 },
        Operand::ImmediateU16 { imm: 4 },
        Operand::ImmediateI32 { imm: -5 },
        Operand::ImmediateU32 { imm: 6 },
        Operand::ImmediateI64 { imm: -7 },
        Operand::ImmediateU64 { imm: 8 },
        Operand::Register { reg },
        Operand::RegisterMaskMerge { reg, mask, merge },
        Operand::RegisterMaskMergeSae {
            reg,
            mask,
            merge,
            sae,
        },
        Operand::RegisterMaskMergeSaeNoround { reg, mask, merge },
        Operand::AbsoluteU32 { addr: 9 },
        Operand::AbsoluteU64 { addr: 10 },
        Operand::Nothing,
    ];
    for (at, operand) in operands.into_iter().enumerate() {
        assert!(rt; is_decoded(operand), "operand {at}");
    }
}

#[test]
fn visited_memory(rt: HostRuntime) {
    let base = RegSpec::rax();
    let index = RegSpec::rcx();
    let mask = RegSpec::mask(1);
    let (scale, disp) = (4, -8);
    let operands = [
        Operand::MemDeref { base },
        Operand::Disp { base, disp },
        Operand::MemIndexScale { index, scale },
        Operand::MemIndexScaleDisp { index, scale, disp },
        Operand::MemBaseIndexScale { base, index, scale },
        Operand::MemBaseIndexScaleDisp {
            base,
            index,
            scale,
            disp,
        },
        Operand::MemDerefMasked { base, mask },
        Operand::DispMasked { base, disp, mask },
        Operand::MemIndexScaleMasked { index, scale, mask },
        Operand::MemIndexScaleDispMasked {
            index,
            scale,
            disp,
            mask,
        },
        Operand::MemBaseIndexScaleMasked {
            base,
            index,
            scale,
            mask,
        },
        Operand::MemBaseIndexScaleDispMasked {
            base,
            index,
            scale,
            disp,
            mask,
        },
    ];
    for (at, operand) in operands.into_iter().enumerate() {
        assert!(rt; is_decoded(operand), "operand {at}");
    }
}

/// The address of operand 1, with all registers 0 and the next instruction at `next`.
fn address(bytes: &[u8], next: u64) -> Option<u64> {
    let regs = RegFile { regs: [0; 16] };
    match InstDecoder::default().decode_slice(bytes) {
        Ok(instruction) => {
            let short = instruction.prefixes.address_size();
            instruction.operand(1).address(short, &regs, next)
        }
        Err(_) => None,
    }
}

#[test]
fn addresses(rt: HostRuntime) {
    let negative = [0x03, 0x04, 0x25, 0x00, 0x00, 0x00, 0x80];
    assert!(rt; matches!(address(&negative, 0), Some(0xffff_ffff_8000_0000)));
    let short = [0x67, 0x03, 0x04, 0x25, 0x00, 0x00, 0x00, 0x80];
    assert!(rt; matches!(address(&short, 0), Some(0x8000_0000)));
    let long = [0x48, 0xa1, 0x88, 0x77, 0x66, 0x55, 0x44, 0x33, 0x22, 0x11];
    assert!(rt; matches!(address(&long, 0), Some(0x1122_3344_5566_7788)));
    // rip is the address of the next instruction.
    assert!(rt;
        matches!(
            address(&[0x03, 0x05, 0xff, 0xff, 0xff, 0xff], 0x1000),
            Some(0xfff)
        )
    );
    assert!(rt; matches!(address(&[0x03, 0xc0], 0), None));
}

#[test]
fn sib_address_by_hand(rt: HostRuntime) {
    // mod 01, rm 100; SIB 44: scale 2, index rax, base rsp: rsp + 2 * rax - 8.
    let raw = x86_fields::Raw {
        rex_b: false,
        rex_x: false,
        address_size: false,
        modrm: 0x44,
        sib: Some(0x44),
        disp: -8,
    };
    let mut regs = RegFile { regs: [0; 16] };
    regs.regs[0] = 0x10;
    regs.regs[4] = 0x1000;
    assert!(rt; raw.fits());
    if raw.fits() {
        assert!(rt; address_of(&raw, &regs, 0) == 0x1018);
    }
}

/// Whether the raw fields after a ModRM byte have this address, with the next instruction at 400000.
fn adds_up(prefixes: &Prefixes, modrm: u8, bytes: &[u8], regs: &RegFile, sum: u64) -> bool {
    if !ModRM::new(modrm).is_memory() {
        return false;
    }
    match read_raw(&mut U8Reader::new(bytes), prefixes, modrm) {
        Ok(raw) => address_of(&raw, regs, 0x40_0000) == sum,
        Err(_) => false,
    }
}

/// Registers of which few aren't 0.
fn few_registers() -> RegFile {
    let mut regs = [0; 16];
    regs[1] = 0x1000;
    regs[4] = 0x2000;
    regs[12] = 0x0fff_ffff_ffff_ffff;
    regs[13] = 7;
    RegFile { regs }
}

/// The run of prefixes, ModRM, what is after it, and the address.
const ADDRESSES: &[(&[u8], u8, &[u8], u64)] = &[
    (&[], 0x04, &[0x25, 0, 0, 0, 0x80], 0xffff_ffff_8000_0000),
    (&[0x67], 0x04, &[0x25, 0, 0, 0, 0x80], 0x8000_0000),
    (&[], 0x04, &[0x8d, 0x10, 0, 0, 0], 0x4010),
    (&[], 0x05, &[0, 0, 0, 0], 0x40_0000),
    (&[0x67], 0x05, &[0x01, 0, 0, 0], 0x40_0001),
    (&[0x43], 0x44, &[0x25, 0], 0x1000_0000_0000_0006),
    (&[0x41], 0x04, &[0x24], 0x0fff_ffff_ffff_ffff),
];

#[test]
fn addresses_by_hand(rt: HostRuntime) {
    let regs = few_registers();
    for (run, modrm, bytes, sum) in ADDRESSES {
        assert!(rt;
            adds_up(&reading_of(run), *modrm, bytes, &regs, *sum),
            "at {sum}"
        );
    }
}

/// Whether operand 1 of some bytes is relative to the next instruction.
fn is_relative(bytes: &[u8]) -> bool {
    decoded(bytes).operand(1).is_ip_relative()
}

#[test]
fn relative_to_the_next_instruction(rt: HostRuntime) {
    assert!(rt; is_relative(&[0x8b, 0x05, 0x00, 0x00, 0x00, 0x00]));
    assert!(rt; is_relative(&[0x8b, 0x05, 0x08, 0x00, 0x00, 0x00]));
    assert!(rt; is_relative(&[0x67, 0x8b, 0x05, 0x08, 0x00, 0x00, 0x00]));
    assert!(rt; !is_relative(&[0x8b, 0x00]));
    assert!(rt; !is_relative(&[0x8b, 0x04, 0x25, 0x10, 0x00, 0x00, 0x00]));
    assert!(rt; !is_relative(&[0x83, 0xc0, 0xff]));
}

/// Whether operand 1 of some bytes has these parts of its address.
fn has_parts(
    bytes: &[u8],
    base: Option<RegSpec>,
    index: Option<RegSpec>,
    scale: u8,
    disp: i32,
) -> bool {
    match decoded(bytes).operand(1).address_parts(false) {
        Some(parts) => {
            let registers = parts.base == base && parts.index == index && parts.scale == scale;
            registers && parts.disp == disp && !parts.address_size
        }
        None => false,
    }
}

#[test]
fn parts_of_addresses(rt: HostRuntime) {
    let (rax, rcx) = (Some(RegSpec::rax()), Some(RegSpec::rcx()));
    assert!(rt; has_parts(&[0x8b, 0x44, 0x88, 0xf8], rax, rcx, 4, -8));
    assert!(rt; has_parts(&[0x8b, 0x04, 0x88], rax, rcx, 4, 0));
    assert!(rt; has_parts(&[0x8b, 0x40, 0x7f], rax, None, 1, 127));
    assert!(rt; has_parts(&[0x8b, 0x00], rax, None, 1, 0));
    assert!(rt; has_parts(&[0x8b, 0x04, 0xcd, 0x00, 0x00, 0x00, 0x00], None, rcx, 8, 0));
    assert!(rt;
        has_parts(
            &[0x8b, 0x04, 0xcd, 0x10, 0x00, 0x00, 0x00],
            None,
            rcx,
            8,
            16
        )
    );
    assert!(rt;
        has_parts(
            &[0x8b, 0x04, 0x25, 0xff, 0xff, 0xff, 0xff],
            None,
            None,
            1,
            -1
        )
    );
    assert!(rt;
        has_parts(
            &[0x8b, 0x05, 0x00, 0x00, 0x00, 0x00],
            Some(RegSpec::rip()),
            None,
            1,
            0
        )
    );
    assert!(rt; !has_parts(&[0xa1, 0x10, 0, 0, 0, 0, 0, 0, 0], None, None, 1, 16));
}

/// Whether an operand of some bytes is an immediate of this number.
fn has_number(bytes: &[u8], i: u8, wanted: i64) -> bool {
    decoded(bytes).operand(i).immediate() == Some(wanted)
}

#[test]
fn numbers_of_immediates(rt: HostRuntime) {
    assert!(rt; has_number(&[0x83, 0xc0, 0xff], 1, -1));
    assert!(rt; has_number(&[0xcd, 0x80], 0, 128));
    assert!(rt; has_number(&[0x66, 0x05, 0xfe, 0xff], 1, -2));
    assert!(rt; has_number(&[0xc2, 0xff, 0xff], 0, 65535));
    assert!(rt; has_number(&[0x05, 0x00, 0x00, 0x00, 0x80], 1, -2147483648));
    assert!(rt; has_number(&[0x48, 0xc7, 0xc0, 0xff, 0xff, 0xff, 0xff], 1, -1));
    assert!(rt; has_number(&[0x48, 0xb8, 0, 0, 0, 0, 0, 0, 0, 0x80], 1, i64::MIN));
    assert!(rt; Operand::ImmediateU32 { imm: u32::MAX }.immediate() == Some(4294967295));
    assert!(rt; Operand::ImmediateU64 { imm: u64::MAX }.immediate() == Some(-1));
    assert!(rt; decoded(&[0x8b, 0x00]).operand(1).immediate().is_none());
}
