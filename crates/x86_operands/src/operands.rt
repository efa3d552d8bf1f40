//! Operands and where they come from.
ghost use Rattle.std.specs.Prelude.{◌≡◌, IfSome, Some, false};
ghost use Rattle.x86_fields.specs.Linear.{parts_form};
ghost use Rattle.x86_operands.specs.OperandParts.{adds_next_pointer, immediate_of, is_next_pointer, operand_parts};
ghost use Rattle.x86_operands.specs.Operands.{operand_address, operand_form, is_memory_operand, is_memory_slot, operand_width, access_size, bytes_size};

use x86_fields::{AddressParts, RegFile, UNDECIDED_SIZE};
use x86_regs::{MergeMode, RegSpec, RegisterClass, SaeMode};

/// An operand of an instruction. The examples are as a listing prints them: numbers are decimal.
#[derive(Clone, Copy, PartialEq, Eq, Debug, Drop)]
pub enum Operand {
    /// No operand. It is the first variant, so that the blank operands of an instruction are zeros.
    Nothing,
    /// A signed immediate of 1 byte, as `i8:-1` of `83 c0 ff`.
    ImmediateI8 {
        imm: i8,
    },
    /// An unsigned immediate of 1 byte, as `u8:128` of `cd 80`.
    ImmediateU8 {
        imm: u8,
    },
    /// A signed immediate of 2 bytes, as `i16:-2` of `66 05 fe ff`.
    ImmediateI16 {
        imm: i16,
    },
    /// An unsigned immediate of 2 bytes, as `u16:8` of `c2 08 00`.
    ImmediateU16 {
        imm: u16,
    },
    /// A signed immediate of 32 bits, as `i32:-2` of `05 fe ff ff ff`, or from 2 bytes in XBEGIN under 66.
    ImmediateI32 {
        imm: i32,
    },
    /// An unsigned immediate of 32 bits, printed as `u32:7`. No instruction here has one.
    ImmediateU32 {
        imm: u32,
    },
    /// A signed immediate of 64 bits, from 8 bytes or from 4, as `i64:-1` of `48 c7 c0 ff ff ff ff`.
    ImmediateI64 {
        imm: i64,
    },
    /// An unsigned immediate of 64 bits, printed as `u64:7`. No instruction here has one.
    ImmediateU64 {
        imm: u64,
    },
    /// A register, as `eax` of `01 d8`.
    Register {
        reg: RegSpec,
    },
    /// A register under a mask register, printed as the register. No instruction here has one.
    RegisterMaskMerge {
        reg: RegSpec,
        mask: RegSpec,
        merge: MergeMode,
    },
    /// The same with a rounding mode. No instruction here has one.
    RegisterMaskMergeSae {
        reg: RegSpec,
        mask: RegSpec,
        merge: MergeMode,
        sae: SaeMode,
    },
    /// The same where exceptions are suppressed and the rounding mode is that of MXCSR. No instruction here has
    /// one.
    RegisterMaskMergeSaeNoround {
        reg: RegSpec,
        mask: RegSpec,
        merge: MergeMode,
    },
    /// Memory at an address of 32 bits without a register, as `[abs32:16]` of `8b 04 25 10 00 00 00`.
    AbsoluteU32 {
        addr: u32,
    },
    /// Memory at an address of 64 bits, as `[abs64:16]` of `a1 10 00 00 00 00 00 00 00`.
    AbsoluteU64 {
        addr: u64,
    },
    /// Memory at a register, as `[rax]` of `8b 00`.
    MemDeref {
        base: RegSpec,
    },
    /// Memory at a register and a displacement other than 0, as `[rax-8]` of `8b 40 f8`.
    Disp {
        base: RegSpec,
        disp: i32,
    },
    /// Memory at an index times its scale, as `[rcx*4]` of `8b 04 8d 00 00 00 00`.
    MemIndexScale {
        index: RegSpec,
        scale: u8,
    },
    /// The same with a displacement other than 0, as `[rcx*4+16]` of `8b 04 8d 10 00 00 00`.
    MemIndexScaleDisp {
        index: RegSpec,
        scale: u8,
        disp: i32,
    },
    /// Memory at a base and an index times its scale, as `[rax+rcx*4]` of `8b 04 88`.
    MemBaseIndexScale {
        base: RegSpec,
        index: RegSpec,
        scale: u8,
    },
    /// The same with a displacement other than 0, as `[rax+rcx*4-8]` of `8b 44 88 f8`.
    MemBaseIndexScaleDisp {
        base: RegSpec,
        index: RegSpec,
        scale: u8,
        disp: i32,
    },
    /// `MemDeref` under a mask register, printed without it. No instruction here has one, nor one of the five
    /// below.
    MemDerefMasked {
        base: RegSpec,
        mask: RegSpec,
    },
    /// `Disp` under a mask register.
    DispMasked {
        base: RegSpec,
        disp: i32,
        mask: RegSpec,
    },
    /// `MemIndexScale` under a mask register.
    MemIndexScaleMasked {
        index: RegSpec,
        scale: u8,
        mask: RegSpec,
    },
    /// `MemIndexScaleDisp` under a mask register.
    MemIndexScaleDispMasked {
        index: RegSpec,
        scale: u8,
        disp: i32,
        mask: RegSpec,
    },
    /// `MemBaseIndexScale` under a mask register.
    MemBaseIndexScaleMasked {
        base: RegSpec,
        index: RegSpec,
        scale: u8,
        mask: RegSpec,
    },
    /// `MemBaseIndexScaleDisp` under a mask register.
    MemBaseIndexScaleDispMasked {
        base: RegSpec,
        index: RegSpec,
        scale: u8,
        disp: i32,
        mask: RegSpec,
    },
}

/// Where in the encoding an operand comes from. Immediates and displacements are little-endian.
///
/// Source: Intel SDM volume 2, sections 2.1.3 to 2.1.5.
#[derive(Clone, Copy, PartialEq, Eq, Debug, Drop)]
pub enum Slot {
    /// No operand.
    Nothing,
    /// A register of the field reg or of the opcode byte, or one that the operation names, as the accumulator.
    Reg,
    /// The register of the field rm, that of the opcode byte of XCHG, or one that the operation names, as the port dx.
    Rm,
    /// A register that the operation names after two others, as cl of SHLD.
    Third,
    /// A signed immediate of 1 byte. The 1 of a shift by one, which no byte spells, is one too.
    ImmI8,
    /// An unsigned immediate of 1 byte. The 1 of F1 and the 3 of CC, which no byte spells, are such too.
    ImmU8,
    /// A signed immediate of 2 bytes.
    ImmI16,
    /// An unsigned immediate of 2 bytes.
    ImmU16,
    /// A signed immediate of 4 bytes, or of 2 where it is the distance of XBEGIN under 66.
    ImmI32,
    /// A signed immediate of 8 bytes, or of 4 that are extended to 64 bits.
    ImmI64,
    /// An unsigned immediate beside another one: the first of ENTER, of 2 bytes, and the last of EXTRQ and INSERTQ,
    /// of 1 byte.
    ImmInDisp,
    /// An address of 4 bytes: a displacement without base and index, or that of A0 to A3 under 67.
    DispU32,
    /// An address of 8 bytes, that of A0 to A3.
    DispU64,
    /// Memory at a base, or at the register of a string operation with one memory operand.
    Deref,
    /// Memory at esi: of MOVS and CMPS under 67.
    DerefEsi,
    /// Memory at edi: of MOVS and CMPS under 67.
    DerefEdi,
    /// Memory at rsi: of MOVS and CMPS.
    DerefRsi,
    /// Memory at rdi: of MOVS and CMPS.
    DerefRdi,
    /// Memory at a base and a displacement other than 0.
    Disp,
    /// Memory at an index times its scale.
    IndexScale,
    /// Memory at an index times its scale and a displacement other than 0.
    IndexScaleDisp,
    /// Memory at a base and an index times its scale.
    BaseIndexScale,
    /// Memory at a base, an index times its scale and a displacement other than 0.
    BaseIndexScaleDisp,
}

/// A memory size in bytes, as the row of an instruction has it, whether or not an operand is memory.
#[derive(Clone, Copy, PartialEq, Eq, Debug, Drop)]
pub struct MemoryAccessSize {
    size: u8,
}

impl MemoryAccessSize {
    /// The size of so many bytes, which are at most 64 in what is decoded; 63 means one that the processor
    /// decides.
    pub fn new(size: u8) -> MemoryAccessSize
        ensures { result ≡ access_size size }
    {
        MemoryAccessSize { size }
    }

    /// The size in bytes, or `None` where the processor decides it, as for the state that XSAVE stores.
    pub fn bytes_size(&self) -> Option<u8>
        ensures { result ≡ bytes_size self.now }
    {
        if self.size == UNDECIDED_SIZE {
            None
        } else {
            Some(self.size)
        }
    }
}

impl Slot {
    /// Whether the slot is one of memory.
    pub fn is_memory(&self) -> bool
        ensures { result ≡ is_memory_slot self.now }
    {
        *self as usize >= Slot::DispU32 as usize
    }
}

/// Whether a register is there and is rip or eip.
fn is_next_pointer(reg: Option<RegSpec>) -> bool
    ensures { result ≡ is_next_pointer reg }
{
    match reg {
        Some(reg) => matches!(reg.class(), RegisterClass::RIP | RegisterClass::EIP),
        None => false,
    }
}

impl Operand {
    /// Whether the operand is memory, masked memory among it.
    pub fn is_memory(&self) -> bool
        ensures { result ≡ is_memory_operand self.now }
    {
        matches!(
            *self,
            Operand::AbsoluteU32 { .. }
                | Operand::AbsoluteU64 { .. }
                | Operand::MemDeref { .. }
                | Operand::Disp { .. }
                | Operand::MemIndexScale { .. }
                | Operand::MemIndexScaleDisp { .. }
                | Operand::MemBaseIndexScale { .. }
                | Operand::MemBaseIndexScaleDisp { .. }
                | Operand::MemDerefMasked { .. }
                | Operand::DispMasked { .. }
                | Operand::MemIndexScaleMasked { .. }
                | Operand::MemIndexScaleDispMasked { .. }
                | Operand::MemBaseIndexScaleMasked { .. }
                | Operand::MemBaseIndexScaleDispMasked { .. }
        )
    }

    /// The width in bytes of an immediate, or of a register that isn't rounded. Memory has none: its size is the
    /// instruction's.
    pub fn width(&self) -> Option<u8>
        ensures { result ≡ operand_width self.now }
    {
        match *self {
            Operand::Register { reg } => Some(reg.width()),
            Operand::RegisterMaskMerge { reg, .. } => Some(reg.width()),
            Operand::ImmediateI8 { .. } | Operand::ImmediateU8 { .. } => Some(1),
            Operand::ImmediateI16 { .. } | Operand::ImmediateU16 { .. } => Some(2),
            Operand::ImmediateI32 { .. } | Operand::ImmediateU32 { .. } => Some(4),
            Operand::ImmediateI64 { .. } | Operand::ImmediateU64 { .. } => Some(8),
            _ => None,
        }
    }

    /// The parts that the address of a memory operand is the sum of: base, index, scale and displacement. They hold
    /// `address_size` (67), which decides the modulus of the sum.
    ///
    /// `[rax+rcx*4-8]` has rax, rcx, 4 and -8, and `[rip]` of `8b 05 00 00 00 00` has rip and 0. An address of 32 bits
    /// is a displacement alone. `None` where the operand isn't memory, is masked, or is an address of 64 bits, as
    /// `[abs64:16]`. Source: Intel SDM volume 1, section 3.7.5.
    pub fn address_parts(&self, address_size: bool) -> Option<AddressParts>
        ensures parts { result ≡ operand_parts address_size self.now }
        ensures address { IfSome result (λ parts.
            operand_form address_size self.now ≡ Some (parts_form parts)) }
    {
        let (base, index, scale, disp) = match *self {
            Operand::AbsoluteU32 { addr } => (None, None, 1, addr.cast_signed()),
            Operand::MemDeref { base } => (Some(base), None, 1, 0),
            Operand::Disp { base, disp } => (Some(base), None, 1, disp),
            Operand::MemIndexScale { index, scale } => (None, Some(index), scale, 0),
            Operand::MemIndexScaleDisp { index, scale, disp } => (None, Some(index), scale, disp),
            Operand::MemBaseIndexScale { base, index, scale } => {
                (Some(base), Some(index), scale, 0)
            }
            Operand::MemBaseIndexScaleDisp {
                base,
                index,
                scale,
                disp,
            } => (Some(base), Some(index), scale, disp),
            _ => return None,
        };
        Some(AddressParts {
            address_size,
            base,
            index,
            scale,
            disp,
        })
    }

    /// Whether the operand is memory relative to the next instruction: rip or eip is its base.
    ///
    /// So are `[rip+8]`, `[eip+8]`, and `[rip]` of `8b 05 00 00 00 00`, which has no displacement in its operand but
    /// one of 4 bytes in the encoding. Source: Intel SDM volume 2, section 2.2.1.6.
    pub fn is_ip_relative(&self) -> bool
        ensures { result ≡ adds_next_pointer (operand_parts false self.now) }
    {
        match self.address_parts(false) {
            Some(parts) => is_next_pointer(parts.base) || is_next_pointer(parts.index),
            None => false,
        }
    }

    /// The number of an immediate with its sign, -1 of `83 c0 ff` and 128 of `cd 80`; `None` of what isn't an
    /// immediate.
    ///
    /// An `ImmediateU64` from 2^63 on, which no instruction here has, is its number less 2^64.
    pub fn immediate(&self) -> Option<i64>
        ensures { result ≡ immediate_of self.now }
    {
        match *self {
            Operand::ImmediateI8 { imm } => Some(imm as i64),
            Operand::ImmediateU8 { imm } => Some(imm as i64),
            Operand::ImmediateI16 { imm } => Some(imm as i64),
            Operand::ImmediateU16 { imm } => Some(imm as i64),
            Operand::ImmediateI32 { imm } => Some(imm as i64),
            Operand::ImmediateU32 { imm } => Some(imm as i64),
            Operand::ImmediateI64 { imm } => Some(imm),
            Operand::ImmediateU64 { imm } => Some(imm.cast_signed()),
            _ => None,
        }
    }

    /// The address of a memory operand, modulo 2^64, or modulo 2^32 where `address_size` (67) holds; `next` is the
    /// address after the instruction. `None` where the operand isn't memory or is masked.
    ///
    /// Segment bases are not added. Source: Intel SDM volume 1, section 3.7.5.
    pub fn address(&self, address_size: bool, regs: &RegFile, next: u64) -> Option<u64>
        ensures { result ≡ operand_address address_size self.now regs.now.regs next }
    {
        match *self {
            Operand::AbsoluteU64 { addr } if address_size => Some(addr % 0x1_0000_0000),
            Operand::AbsoluteU64 { addr } => Some(addr),
            _ => match self.address_parts(address_size) {
                Some(parts) => Some(parts.value(regs, next)),
                None => None,
            },
        }
    }
}
