//! The vocabulary of the rows' records.
pub use x86_fields::UNDECIDED_SIZE;
use x86_fields::Width;
use x86_regs::RegisterClass;

/// The slot of a register that isn't known from the encoding of its operand.
#[derive(Clone, Copy, Drop)]
pub enum RegisterSlot {
    Reg,
    Rm,
    Third,
}

/// The slot of a string operand.
#[derive(Clone, Copy, Drop)]
pub enum PointerSlot {
    Deref,
    DerefEsi,
    DerefEdi,
    DerefRsi,
    DerefRdi,
}

/// An operand of a row, of a template or of an instance, in the letters of the Intel SDM, volume 2, appendix A.2.
#[derive(Clone, Copy, Drop)]
pub enum OperandEncoding {
    /// The register of reg, with R.
    G(Width),
    /// The mm register of reg, without R.
    Gmm,
    /// The register of rm with B, or the memory operand.
    E(Width),
    /// The mm register of rm without B, or the memory operand.
    Emm,
    /// The control register of reg, with R.
    Cr,
    /// The debug register of reg, with R.
    Dr,
    /// The segment register of reg, with R.
    Sr,
    /// st(rm).
    StRm,
    /// The register of 4 bytes of rm with B, in the slot of reg.
    RdInReg,
    /// Register 0.
    A(Width),
    /// A register that the name implies: its slot, number and class.
    Implied(RegisterSlot, u8, RegisterClass),
    /// Memory at a register that the name implies: its slot, and the register's number and class.
    At(PointerSlot, u8, RegisterClass),
    /// Memory at rsi, or at esi under 67.
    Source,
    /// Memory at rdi, or at edi under 67.
    Destination,
    /// A signed immediate of 1 byte.
    I8,
    /// A signed immediate of 2 bytes.
    I16,
    /// A signed immediate of 4 bytes.
    I32,
    /// A signed immediate of 4 bytes, extended to 64 bits.
    I64,
    /// A signed immediate of 2 bytes, extended to 32 bits.
    I32From16,
    /// A signed immediate of 8 bytes.
    I64Whole,
    /// An unsigned immediate of 1 byte.
    U8,
    /// An unsigned immediate of 2 bytes.
    U16,
    /// An unsigned number of 16 bits in slot `ImmInDisp`, from 1 byte.
    X8,
    /// An unsigned number of 16 bits in slot `ImmInDisp`, from 2 bytes.
    X16,
    /// An immediate that no byte spells.
    ConstantI8(i8),
    /// An unsigned immediate that no byte spells.
    ConstantU8(u8),
    /// An address of 4 bytes.
    Address32,
    /// An address of 8 bytes.
    Address64,
    /// The register of the opcode byte, with B: its slot, its width, and in an instance its number.
    Z(RegisterSlot, Width, u8),
    /// An immediate of v, at most 4 bytes. It is none of an instance, as those below.
    Iv,
    /// An immediate of v, with its whole width.
    Ivq,
    /// The immediate of PUSH.
    Ip,
    /// A distance of v: 2 bytes, or 4.
    Jv,
    /// An absolute address: 4 bytes under 67, else 8.
    Offset,
}

impl OperandEncoding {
    /// The last operand of a template that has none.
    pub const ABSENT: OperandEncoding = OperandEncoding::ConstantU8(0);
}

/// Why a record refuses. No record refuses for want of bytes or for length.
#[derive(Clone, Copy, Drop)]
pub enum Fault {
    BadOpcode,
    BadOperand,
    Incomplete,
}

/// Whether a record accepts or refuses.
#[derive(Clone, Copy, Drop)]
pub enum Verdict {
    Accepts,
    /// A last byte names the opcode, as in 3DNow, or is refused.
    NamedBySuffix,
    /// It refuses after the bytes of its operands.
    Refuses(Fault),
}

/// What a record changes in the prefixes of its answer.
#[derive(Clone, Copy, Drop)]
pub enum PrefixChange {
    Keeps,
    ClearsOperandSize,
    SetsEs,
}

/// Whether a row has a ModRM byte, and how it is read.
#[derive(Clone, Copy, Drop)]
pub enum ModrmUse {
    /// No ModRM byte.
    Absent,
    /// A ModRM byte, whose memory forms have SIB and displacement.
    EitherForm,
    /// A ModRM byte of which every mod is a register form.
    Registers,
}
