//! What an instruction set offers to tools that work over any of them.

ghost use Rattle.std.specs.Prelude.{◌≡◌, Bool, List, ℕ, Result, Ok, Err, IfErr, OnOk, OnErr};
ghost use Rattle.x86_arch.specs.Reader.{State};

use crate::{Address, Reader};

/// Why the bytes don't begin with an instruction.
pub trait DecodeError {
    ghost data_exhausted: { Self → Bool };

    ghost bad_opcode: { Self → Bool };

    ghost bad_operand: { Self → Bool };

    ghost description: { Self → List ℕ };

    /// Whether the bytes end before anything is decided.
    fn data_exhausted(&self) -> bool
        ensures { result ≡ data_exhausted self.now };

    fn bad_opcode(&self) -> bool
        ensures { result ≡ bad_opcode self.now };

    fn bad_operand(&self) -> bool
        ensures { result ≡ bad_operand self.now };

    /// The description that a listing prints.
    fn description(&self) -> &'static str
        ensures { result.now ≡ description self.now };
}

/// An instruction, as far as every instruction set has one.
pub trait Instruction {
    ghost well_defined: { Self → Bool };

    fn well_defined(&self) -> bool
        ensures { result ≡ well_defined self.now };
}

/// An instruction that knows the length of its encoding.
pub trait LengthedInstruction {
    type Unit;

    ghost len: { Self → Self.Unit };

    ghost min_size: { Self.Unit };

    fn len(&self) -> Self::Unit
        ensures { result ≡ len self.now };

    /// The least length that an instruction may have.
    fn min_size() -> Self::Unit
        ensures { result ≡ min_size };
}

/// The types of an instruction set.
pub trait Arch {
    type Address: Address;

    type Word;

    type Instruction;

    type DecodeError;

    type Decoder;

    type Operand;
}

/// A decoder of an instruction set, over any reader of its words.
pub trait Decoder<A: Arch> {
    ghost decodes: { Self → State A.Word → Result A.Instruction A.DecodeError
        → State A.Word → Type 0 };

    ghost blank: { A.Instruction };

    fn decode<T: Reader<A::Address, A::Word>>(
        &self,
        words: &mut T,
    ) -> Result<A::Instruction, A::DecodeError>
        ensures { decodes self.now (T.state words.old) result (T.state words.new) };

    /// As `decode`, into an instruction that is there. What it held before does not matter.
    fn decode_into<T: Reader<A::Address, A::Word>>(
        &self,
        inst: &mut A::Instruction,
        words: &mut T,
    ) -> Result<(), A::DecodeError>
        ensures decoded { OnOk result
            (decodes self.now (T.state words.old) (Ok inst.new) (T.state words.new)) }
        ensures refused { IfErr result
            (λ error. decodes self.now (T.state words.old) (Err error) (T.state words.new)) }
        ensures blanked { OnErr result (inst.new ≡ blank) };
}
