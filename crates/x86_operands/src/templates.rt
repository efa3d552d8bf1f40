//! Operand templates: which part of an encoding each operand of a row is.

ghost use Rattle.std.specs.Prelude.{◌≡◌, ℕ, true};
ghost use Rattle.x86_fields.specs.Sizes.{size_prefixes};
ghost use Rattle.x86_operands.specs.Vocabulary.{Prefixes};
ghost use Rattle.x86_operands.specs.Encodings.{bytes_under, resolved};
ghost use Rattle.x86_operands.specs.Templates.{has_address, has_free_sizes, size_at, with_sizes};

use crate::order::Order;
use crate::sizing::Size;
use crate::vocabulary::OperandEncoding;
use x86_fields::{Prefixes, SizePrefixes, Width};
use x86_opcodes::Opcode;

/// The operands of a row: their order, what each of them is, and the memory size.
#[derive(Clone, Copy, Drop)]
pub struct Template {
    /// The order of reg, rm and the last operands.
    pub order: Order,
    /// The width of the register of the field reg, of the opcode byte, or of the accumulator.
    pub reg: Width,
    /// Where there is no operand of rm: whether that register is the one of the opcode byte, and not the accumulator.
    pub of_opcode: bool,
    /// The width of the register of the field rm.
    pub rm: Width,
    /// The operand that is none of these: an immediate, or what neither a byte nor ModRM names.
    pub last: OperandEncoding,
    /// Another one, whose bytes come after those of the last one.
    pub extra: OperandEncoding,
    /// The memory size, where the operand of rm is memory.
    pub in_memory: Size,
    /// The same in the register form, and where no operand is of rm.
    pub in_register: Size,
}

impl OperandEncoding {
    /// The operand under these prefixes. `num` is the number of the opcode byte, which `Z` has; an immediate whose size the
    /// prefixes choose becomes the one of that size.
    #[inline(always)]
    pub fn resolved(self, num: u8, prefixes: &Prefixes) -> OperandEncoding
        ensures { result ≡ resolved self num prefixes.now }
    {
        let of_word = prefixes.operand_size() && !prefixes.has_w();
        match self {
            OperandEncoding::Z(slot, width, _) => OperandEncoding::Z(slot, width, num),
            OperandEncoding::Iv | OperandEncoding::Ivq | OperandEncoding::Ip if of_word =>
                OperandEncoding::I16,
            OperandEncoding::Iv if prefixes.has_w() => OperandEncoding::I64,
            OperandEncoding::Ivq if prefixes.has_w() => OperandEncoding::I64Whole,
            OperandEncoding::Jv if of_word => OperandEncoding::I32From16,
            OperandEncoding::Iv
            | OperandEncoding::Ivq
            | OperandEncoding::Ip
            | OperandEncoding::Jv => OperandEncoding::I32,
            OperandEncoding::Offset if prefixes.address_size() => OperandEncoding::Address32,
            OperandEncoding::Offset => OperandEncoding::Address64,
            encoding => encoding,
        }
    }
}

impl Template {
    /// The template with the sizes that it has for an operation. `opcode` is the one of the opcode map.
    #[inline(always)]
    pub fn with_sizes(&self, opcode: Opcode) -> Template
        ensures sizes { result ≡ with_sizes self.now opcode }
        ensures free { has_free_sizes result ≡ true }
    {
        Template {
            in_memory: self.in_memory.of_operation(opcode),
            in_register: self.in_register.of_operation(opcode),
            ..*self
        }
    }

    /// The memory size in bytes, where SIB and displacement are there and where they aren't.
    #[inline(always)]
    pub fn mem_size(&self, addressed: bool, sizes: SizePrefixes) -> u8
        requires { has_free_sizes self.now ≡ true }
        ensures { (modrm : ℕ) (p : Prefixes) → addressed ≡ has_address self.now.order.rm modrm
            → sizes ≡ size_prefixes p → result ≡ bytes_under (size_at self.now modrm) p }
    {
        let size = if addressed {
            self.in_memory
        } else {
            self.in_register
        };
        size.bytes(sizes)
    }
}
