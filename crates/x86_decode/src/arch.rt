//! The decoder for tools that work over any instruction set.

ghost use Rattle.x86_forms.specs.Words.{rows_of, packed};
ghost use Rattle.x86_decode.specs.Decoder.{is_strict};
ghost use Rattle.x86_decode.specs.Grammar.{IsAnswer};
ghost use Rattle.x86_decode.specs.Answers.{HasMoved};
ghost use Rattle.x86_decode.specs.Instruction.{invalid_instruction};

use crate::decoder::InstDecoder;
use crate::instructions::Instruction;
use x86_arch::{Decoder, Reader};
use x86_fields::DecodeError;
use x86_operands::Operand;

/// The instruction set x86-64, as tools over any instruction set name it.
#[derive(Clone, Copy, PartialEq, Eq, Hash, Debug, Drop)]
pub struct Arch;

impl x86_arch::Arch for Arch {
    type Address = u64;

    type Word = u8;

    type Instruction = Instruction;

    type DecodeError = DecodeError;

    type Decoder = InstDecoder;

    type Operand = Operand;
}

impl Decoder<Arch> for InstDecoder {
    ghost decodes = { λ d old result new.
        IsAnswer (rows_of packed) (is_strict d) old.left result new.since_mark
        × HasMoved old new };

    ghost blank = { invalid_instruction };

    fn decode<T: Reader<u64, u8>>(&self, words: &mut T) -> Result<Instruction, DecodeError> {
        InstDecoder::decode(self, words)
    }

    fn decode_into<T: Reader<u64, u8>>(
        &self,
        inst: &mut Instruction,
        words: &mut T,
    ) -> Result<(), DecodeError> {
        InstDecoder::decode_into(self, inst, words)
    }
}
