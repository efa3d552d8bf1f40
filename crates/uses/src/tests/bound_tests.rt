//! A decoder through the bound `Decoder`.
ghost use Rattle.std.specs.Prelude.{◌≡◌, ◌∷◌, IfOk};

use x86_arch::{Arch, Decoder, ReadError, Reader, U8Reader};
use x86_decode::{DecodeError, InstDecoder, Instruction, Opcode, Operand, RegSpec};

/// An instruction set whose instructions are single bytes.
struct ByteArch;

impl Arch for ByteArch {
    type Address = u64;

    type Word = u8;

    type Instruction = u8;

    type DecodeError = ReadError;

    type Decoder = ByteDecoder;

    type Operand = ();
}

struct ByteDecoder;

impl Decoder<ByteArch> for ByteDecoder {
    ghost decodes = { λ decoder old result new. IfOk result (λ byte. old.left ≡ byte ∷ new.left) };

    ghost blank = { 0 };

    fn decode<T: Reader<u64, u8>>(&self, words: &mut T) -> Result<u8, ReadError> {
        words.next()
    }

    fn decode_into<T: Reader<u64, u8>>(
        &self,
        inst: &mut u8,
        words: &mut T,
    ) -> Result<(), ReadError> {
        match words.next() {
            Ok(byte) => {
                *inst = byte;
                Ok(())
            }
            Err(error) => {
                *inst = 0;
                Err(error)
            }
        }
    }
}

fn first<A: Arch, D: Decoder<A>, T: Reader<A::Address, A::Word>>(
    decoder: &D,
    words: &mut T,
) -> Result<A::Instruction, A::DecodeError> {
    decoder.decode(words)
}

#[test]
fn a_decoder_through_its_bound(rt: HostRuntime) {
    let mut words = U8Reader::new(&[9, 8]);
    let mut inst = 7;
    let read = first::<ByteArch, ByteDecoder, U8Reader>(&ByteDecoder, &mut words);
    assert!(rt; matches!(read, Ok(9)));
    assert!(rt; matches!(ByteDecoder.decode_into(&mut inst, &mut words), Ok(())));
    assert!(rt; inst == 8);
    let refused = ByteDecoder.decode_into(&mut inst, &mut words);
    assert!(rt; matches!(refused, Err(ReadError::ExhaustedInput)) && inst == 0);
}

/// As a tool over any instruction set reads: into an instruction that it keeps, by the decoder of the set.
fn read_into<A: Arch, T: Reader<A::Address, A::Word>>(
    decoder: &A::Decoder,
    inst: &mut A::Instruction,
    words: &mut T,
) -> Result<(), A::DecodeError>
where
    A::Decoder: Decoder<A>,
{
    decoder.decode_into(inst, words)
}

/// An operand of an instruction set, unchanged: the argument is of the type that the set names.
fn operand_of<A: Arch>(operand: A::Operand) -> A::Operand {
    operand
}

/// Whether an instruction adds to rax.
fn adds_to_rax(inst: &Instruction) -> bool {
    let rax = Operand::Register {
        reg: RegSpec::rax(),
    };
    inst.opcode() == Opcode::ADD && operand_of::<x86_decode::Arch>(inst.operand(0)) == rax
}

/// Whether the first instruction adds to rax.
fn first_adds(words: &mut U8Reader<'_>) -> bool {
    match &first::<x86_decode::Arch, InstDecoder, U8Reader>(&InstDecoder::default(), words) {
        Ok(inst) => adds_to_rax(inst),
        Err(_) => false,
    }
}

/// How the next instruction is read into one that is there.
fn read_next(inst: &mut Instruction, words: &mut U8Reader<'_>) -> Result<(), DecodeError> {
    read_into::<x86_decode::Arch, U8Reader>(&InstDecoder::default(), inst, words)
}

#[test]
fn instructions_of_x86_through_the_bounds(rt: HostRuntime) {
    let mut words = U8Reader::new(&[0x48, 0x01, 0xd8, 0x90, 0xfe, 0xd0]);
    let mut inst = Instruction::default();
    assert!(rt; first_adds(&mut words));
    assert!(rt; matches!(read_next(&mut inst, &mut words), Ok(())));
    assert!(rt; inst.opcode() == Opcode::NOP);
    assert!(rt;
        matches!(
            read_next(&mut inst, &mut words),
            Err(DecodeError::InvalidOpcode)
        )
    );
    assert!(rt; inst == Instruction::invalid());
}
