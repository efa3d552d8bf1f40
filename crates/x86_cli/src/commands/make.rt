//! Encodings that the program makes by itself, decodes and counts.

ghost use Rattle.std.specs.Prelude.{[], ◌≡◌, ◌↔◌, IsTrue, ◌+◌, ◌≤◌, ◌++◌, ℕ, IfSome, Some, None, codes, decimal};
ghost use Rattle.arrayvec.specs.ArrayVec.{array_vec_len};
ghost use Rattle.x86_decode.specs.Instruction.{holding};
ghost use Rattle.x86_text.specs.Widths.{line_width};
ghost use Rattle.x86_cli.specs.Listings.Closes.{Closes};
ghost use Rattle.x86_cli.specs.Commands.Make.{generate, is_at_rip, is_absolute, answer_has, tally_of, made_listing};

use crate::listings::listing::put_last_line;
use crate::listings::status::{Finished, Status};
use arrayvec::ArrayVec;
use itoa::Buffer;
use x86_decode::{InstDecoder, Instruction};
use x86_fields::{DecodeError, MEMORY_FORMS, ModRM, displacement_width};
use x86_operands::Operand;
use x86_regs::RegisterClass;
use x86_streams::{Gathered, Output};
use x86_text::Line;

/// The most encodings that `make` makes.
pub const MAKE_MAX: u32 = 1_000_000;

/// What is counted of the encodings.
#[derive(Clone, Copy, Drop)]
pub struct Tally {
    bytes: u64,
    at_rip: u64,
    absolute: u64,
}

/// Encoding `i` of `make`: `ADD r32, m32` with ModRM `i` modulo `MEMORY_FORMS`.
#[tactic(auto, unfolding(crate::specs::Commands::Make::generate))]
pub fn generate(i: u32) -> ArrayVec<u8, 15>
    ensures { result.items ≡ generate i }
{
    let modrm = (i % MEMORY_FORMS as u32) as u8;
    let sib = if ModRM::new(modrm).rm_field() == 4 {
        Some((i / MEMORY_FORMS as u32 % 256) as u8)
    } else {
        None
    };
    let mut encoding = ArrayVec::new();
    let _ = encoding.try_extend_from_slice(&[0x03, modrm]);
    if let Some(sib) = sib {
        let _ = encoding.try_extend_from_slice(&[sib]);
    }
    let _ = match displacement_width(modrm, sib) {
        1 => encoding.try_extend_from_slice(&[(i % 256) as u8]),
        4 => encoding.try_extend_from_slice(&i.to_le_bytes()),
        _ => Ok(()),
    };
    encoding
}

fn is_at_rip(operand: Operand) -> bool
    ensures { result ≡ is_at_rip operand }
{
    match operand {
        Operand::MemDeref { base }
        | Operand::Disp { base, .. }
        | Operand::MemBaseIndexScale { base, .. }
        | Operand::MemBaseIndexScaleDisp { base, .. } => {
            matches!(base.class(), RegisterClass::RIP)
        }
        _ => false,
    }
}

fn is_absolute(operand: Operand) -> bool
    ensures { result ≡ is_absolute operand }
{
    matches!(operand, Operand::AbsoluteU32 { .. })
}

fn has_operand_at_rip(inst: &Instruction, answer: Result<(), DecodeError>) -> bool
    ensures { result ≡ answer_has is_at_rip (holding inst.now answer) }
{
    answer.is_ok()
        && (is_at_rip(inst.operand(0))
            || is_at_rip(inst.operand(1))
            || is_at_rip(inst.operand(2))
            || is_at_rip(inst.operand(3)))
}

fn has_absolute_operand(inst: &Instruction, answer: Result<(), DecodeError>) -> bool
    ensures { result ≡ answer_has is_absolute (holding inst.now answer) }
{
    answer.is_ok()
        && (is_absolute(inst.operand(0))
            || is_absolute(inst.operand(1))
            || is_absolute(inst.operand(2))
            || is_absolute(inst.operand(3)))
}

/// Makes and decodes the first encodings.
#[tactic(auto, unfolding(crate::specs::Commands::Make::tally_of))]
fn tally_of(count: u32) -> Tally
    ensures { result ≡ tally_of count }
{
    let decoder = InstDecoder::default();
    let mut inst = Instruction::invalid();
    let mut bytes = 0u64;
    let mut at_rip = 0u64;
    let mut absolute = 0u64;
    for i in 0..count {
        let encoding = generate(i);
        let answer = decoder.decode_slice_into(&mut inst, encoding.as_slice());
        bytes += encoding.len() as u64;
        at_rip += has_operand_at_rip(&inst, answer) as u64;
        absolute += has_absolute_operand(&inst, answer) as u64;
    }
    Tally {
        bytes,
        at_rip,
        absolute,
    }
}

fn tally_line(count: u32, tally: &Tally) -> Line
    ensures text { result.items ≡ decimal count ++ codes " instructions "
        ++ decimal tally.now.bytes ++ codes " bytes " ++ decimal tally.now.at_rip
        ++ codes " rip " ++ decimal tally.now.absolute ++ codes " abs" }
    ensures short { array_vec_len result ≤ line_width }
{
    let mut line = Line::new();
    line.push_u32(count);
    line.extend(b" instructions ");
    line.push_u64(tally.bytes);
    line.extend(b" bytes ");
    line.push_u64(tally.at_rip);
    line.extend(b" rip ");
    line.push_u64(tally.absolute);
    line.extend(b" abs");
    line
}

/// Whether an argument is the decimal of a count, without a sign or a leading zero.
fn is_decimal(argument: &str, count: u32) -> bool
    ensures { IsTrue result ↔ (argument.now ≡ decimal count) }
{
    let mut buffer = Buffer::new();
    buffer.format(count) == argument
}

/// The count that an argument spells: a decimal from 1 to `MAKE_MAX`, without a sign or a leading zero.
pub fn count_from(argument: &str) -> Option<u32>
    ensures found { IfSome result (λ n. (1 ≤ n) × (n ≤ 1000000) × (argument.now ≡ decimal n)) }
    ensures every { (n : ℕ) → 1 ≤ n → n ≤ 1000000 → argument.now ≡ decimal n → result ≡ Some n }
{
    let count = argument.parse::<u32>().ok()?;
    if count == 0 || count > MAKE_MAX || !is_decimal(argument, count) {
        None
    } else {
        Some(count)
    }
}

/// Makes, decodes and counts `count` encodings, and writes the line of it.
pub fn make<W, O: Output<W>>(count: u32, output: &O, writer: &mut W) -> Finished
    ensures { Closes O.writes O.flushes O.gathers [] (made_listing count) result
        writer.old writer.new }
{
    let tally = tally_of(count);
    let line = tally_line(count, &tally);
    let mut out = Gathered::new();
    put_last_line(output, &mut out, writer, line, Status::Done)
}
