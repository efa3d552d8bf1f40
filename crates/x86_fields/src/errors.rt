//! Why bytes don't begin with an instruction, and what such an error says.

ghost use Rattle.std.specs.Prelude.{◌≡◌, Some};
ghost use Rattle.x86_fields.specs.declared.errors.DecodeError.TheVariants.{ExhaustedInput};
ghost use Rattle.x86_fields.specs.Errors.{is_exhausted, is_bad_opcode, is_bad_operand, description_of};

use std::error::Error;
use std::fmt;
use x86_arch::ReadError;

/// Why bytes don't begin with an instruction.
#[derive(Clone, Copy, PartialEq, Eq, Debug, Drop)]
pub enum DecodeError {
    /// The bytes end before an encoding is whole and before anything refuses it.
    ExhaustedInput,
    /// No instruction has this opcode, or none has it with this ModRM or suffix.
    InvalidOpcode,
    /// The instruction does not take this operand.
    InvalidOperand,
    /// These prefixes are not allowed on this instruction.
    InvalidPrefixes,
    /// The encoding would have more than 15 bytes.
    TooLong,
    /// The encoding is one that this decoder leaves out.
    IncompleteDecoder,
}

impl x86_arch::DecodeError for DecodeError {
    ghost data_exhausted = { is_exhausted };

    ghost bad_opcode = { is_bad_opcode };

    ghost bad_operand = { is_bad_operand };

    ghost description = { description_of };

    fn data_exhausted(&self) -> bool {
        matches!(self, DecodeError::ExhaustedInput)
    }

    fn bad_opcode(&self) -> bool {
        matches!(self, DecodeError::InvalidOpcode)
    }

    fn bad_operand(&self) -> bool {
        matches!(self, DecodeError::InvalidOperand)
    }

    fn description(&self) -> &'static str {
        match self {
            DecodeError::ExhaustedInput => "exhausted input",
            DecodeError::InvalidOpcode => "invalid opcode",
            DecodeError::InvalidOperand => "invalid operand",
            DecodeError::InvalidPrefixes => "invalid prefixes",
            DecodeError::TooLong => "too long",
            DecodeError::IncompleteDecoder => "the decoder is incomplete",
        }
    }
}

impl fmt::Display for DecodeError {
    ghost output = { λ error. Some (description_of error) };

    fn fmt<W: fmt::Write>(&self, f: &mut fmt::Formatter<W>) -> fmt::Result {
        f.write_str(x86_arch::DecodeError::description(self))
    }
}

impl Error for DecodeError {}

/// What a reader lacks, an encoding lacks.
impl From<ReadError> for DecodeError {
    ghost from_gives = { λ _ error. error ≡ ExhaustedInput };

    fn from(_error: ReadError) -> DecodeError {
        DecodeError::ExhaustedInput
    }
}
