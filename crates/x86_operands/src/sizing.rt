//! Sizes of memory, by W and 66, or by the operation.
ghost use Rattle.std.specs.Prelude.{◌≡◌, true, false};
ghost use Rattle.x86_fields.specs.Sizes.{size_prefixes};
ghost use Rattle.x86_operands.specs.Vocabulary.{Prefixes};
ghost use Rattle.x86_operands.specs.Encodings.{bytes_under, is_free, operation_size};

use x86_fields::SizePrefixes;
use x86_opcodes::Opcode;

/// A memory size in bytes, by itself, by W and 66, or by the operation: of what is read or written, or, where nothing is
/// accessed, as of LEA, NOP and prefetches, the size that the row has.
#[derive(Clone, Copy, Drop)]
pub enum Size {
    Zero,
    One,
    Two,
    Four,
    Eight,
    Ten,
    Sixteen,
    FortyEight,
    /// The processor decides it.
    Undecided,
    SixtyFour,
    V,
    Dq,
    Vq,
    /// A selector of 2 bytes, and an offset of v.
    FarPointer,
    Call,
    Bare,
    Return,
    Duplicate,
    Stream,
    Scalar,
    Extract,
    Insert,
    Unpack,
    Extend,
}

/// The sizes that W and 66 decide, or nothing does. The columns: neither, W, 66, both.
const SIZES: &[[u8; 4]; 14] = &[
    [0, 0, 0, 0], // Zero
    [1, 1, 1, 1], // One
    [2, 2, 2, 2], // Two
    [4, 4, 4, 4], // Four
    [8, 8, 8, 8], // Eight
    [10, 10, 10, 10], // Ten
    [16, 16, 16, 16], // Sixteen
    [48, 48, 48, 48], // FortyEight
    [63, 63, 63, 63], // Undecided
    [64, 64, 64, 64], // SixtyFour
    [4, 8, 2, 8], // V
    [4, 8, 4, 8], // Dq
    [8, 8, 2, 2], // Vq
    [6, 10, 4, 10], // FarPointer
];

impl Size {
    /// The bytes of a size that no operation decides.
    #[inline(always)]
    pub fn bytes(self, sizes: SizePrefixes) -> u8
        requires { is_free self ≡ true }
        ensures { (p : Prefixes) → sizes ≡ size_prefixes p → result ≡ bytes_under self p }
    {
        SIZES[self as usize][sizes as usize]
    }

    /// Whether no operation decides it: from `Size::Call` on the operation alone does.
    #[inline(always)]
    pub fn is_free(self) -> bool
        ensures { result ≡ is_free self }
    {
        (self as usize) < Size::Call as usize
    }

    /// The size that it is for an operation. `opcode` is the one of the opcode map.
    #[inline(always)]
    pub fn of_operation(self, opcode: Opcode) -> Size
        ensures size { result ≡ operation_size self opcode }
        ensures free { is_free result ≡ true }
    {
        if self.is_free() {
            return self;
        }
        operation_size(self, opcode)
    }
}

/// A size that the operation decides. It is a call, since few rows have one.
#[inline(never)]
fn operation_size(size: Size, opcode: Opcode) -> Size
    requires { is_free size ≡ false }
    ensures size { result ≡ operation_size size opcode }
    ensures free { is_free result ≡ true }
{
    match size {
        Size::Call => match opcode {
            Opcode::CALL => Size::Eight,
            _ => Size::Zero,
        },
        Size::Bare => match opcode {
            Opcode::RETURN | Opcode::PUSHF | Opcode::POPF | Opcode::LEAVE => Size::Eight,
            Opcode::RETF => Size::Ten,
            Opcode::XLAT => Size::One,
            _ => Size::Zero,
        },
        Size::Return => match opcode {
            Opcode::RETURN => Size::Eight,
            Opcode::RETF => Size::Ten,
            _ => Size::Zero,
        },
        Size::Duplicate => match opcode {
            Opcode::MOVDDUP => Size::Eight,
            _ => Size::Sixteen,
        },
        Size::Stream => match opcode {
            Opcode::MOVNTSS => Size::Four,
            Opcode::MOVNTPS | Opcode::MOVNTPD | Opcode::MOVNTDQ => Size::Sixteen,
            _ => Size::Eight,
        },
        Size::Scalar => match opcode {
            Opcode::CMPSS | Opcode::ROUNDSS => Size::Four,
            Opcode::CMPSD | Opcode::ROUNDSD => Size::Eight,
            _ => Size::Sixteen,
        },
        Size::Extract => match opcode {
            Opcode::PEXTRB => Size::One,
            Opcode::PEXTRW => Size::Two,
            Opcode::EXTRACTPS => Size::Four,
            _ => Size::Zero,
        },
        Size::Insert => match opcode {
            Opcode::PINSRB => Size::One,
            Opcode::INSERTPS => Size::Four,
            _ => Size::Zero,
        },
        Size::Unpack => match opcode {
            Opcode::PUNPCKLBW | Opcode::PUNPCKLWD | Opcode::PUNPCKLDQ => Size::Four,
            _ => Size::Eight,
        },
        Size::Extend => match opcode {
            Opcode::PMOVSXBQ | Opcode::PMOVZXBQ => Size::Two,
            Opcode::PMOVSXBD
            | Opcode::PMOVZXBD
            | Opcode::PMOVSXWQ
            | Opcode::PMOVZXWQ
            | Opcode::UCOMISS
            | Opcode::COMISS
            | Opcode::CVTSS2SD => Size::Four,
            _ => Size::Eight,
        },
        size => size,
    }
}
