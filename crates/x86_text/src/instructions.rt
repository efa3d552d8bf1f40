//! The text of instructions, and their lines.

ghost use Rattle.std.specs.Prelude.{◌≡◌, ◌+◌, ◌*◌, ◌++◌, length, take, drop, codes, decimal, ◌≤◌, ◌<◌};
ghost use Rattle.arrayvec.specs.ArrayVec.{array_vec_len};
ghost use Rattle.x86_opcodes.specs.Mnemonics.{mnemonic};
ghost use Rattle.x86_decode.specs.Instruction.{mem_size_number, operand_count, operands_of};
ghost use Rattle.x86_text.specs.Widths.{instruction_text_width, line_room, line_width};
ghost use Rattle.x86_text.specs.Operands.{operand_text, operands_text, others_text};
ghost use Rattle.x86_text.specs.Lines.{size_text, instruction_text, line_of};

use crate::names::{mnemonic, put_name, size_name};
use crate::operands::put_operand;
use x86_decode::Instruction;
use x86_operands::Operand;
use x86_streams::lines::cells::{put, put_first};
use x86_streams::lines::digits::{put_u8, put_u64};
use x86_streams::lines::{Line, Place, Room};

/// Writes an operand after a comma and a space.
#[inline(always)]
fn put_other(cells: &mut [u8], at: usize, operand: &Operand) -> usize
    requires { at + 32 ≤ length cells.old }
    ensures text { take result cells.new ≡
        take at cells.old ++ codes ", " ++ operand_text operand.now }
    ensures short { result ≤ at + 32 }
{
    let at = put(cells, at, b',');
    let at = put(cells, at, b' ');
    put_operand(cells, at, operand)
}

/// Writes the operands after the second, each after a comma and a space. Few instructions have any.
#[inline(never)]
fn put_after_second(cells: &mut [u8], at: usize, instruction: &Instruction) -> usize
    requires room { at + 64 ≤ length cells.old }
    requires many { 2 < operand_count instruction.now }
    ensures text { take result cells.new ≡
        take at cells.old ++ others_text (drop 2 (operands_of instruction.now)) }
    ensures short { result ≤ at + 64 }
{
    let others = &instruction.operands()[2..];
    let mut at = at;
    for operand in others {
        at = put_other(cells, at, operand);
    }
    at
}

/// Writes the operands, after a space where there are any.
#[inline(always)]
#[tactic(auto, unfolding(crate::specs::Operands::operands_text))]
fn put_operands(cells: &mut [u8], at: usize, instruction: &Instruction) -> usize
    requires { at + 128 ≤ length cells.old }
    ensures text { take result cells.new ≡
        take at cells.old ++ operands_text (operands_of instruction.now) }
    ensures short { result ≤ at + 128 }
{
    match instruction.operands() {
        [] => at,
        [first, others @ ..] => {
            let at = put(cells, at, b' ');
            let at = put_operand(cells, at, first);
            match others {
                [] => at,
                [second, ..] => {
                    let at = put_other(cells, at, second);
                    if instruction.operand_count() > 2 {
                        put_after_second(cells, at, instruction)
                    } else {
                        at
                    }
                }
            }
        }
    }
}

/// The memory size of an instruction in bytes: 0 where its row has none, and 63 where the processor decides.
#[inline(always)]
pub fn size_number(instruction: &Instruction) -> u8
    ensures { result ≡ mem_size_number instruction.now }
{
    match instruction.mem_size() {
        None => 0,
        Some(size) => match size.bytes_size() {
            None => 63,
            Some(bytes) => bytes,
        },
    }
}

/// Writes a size after a space and an m.
#[inline(always)]
fn put_size(cells: &mut [u8], at: usize, size: u8) -> usize
    requires { at + 5 ≤ length cells.old }
    ensures text { take result cells.new ≡ take at cells.old ++ codes " m" ++ size_text size }
    ensures short { result ≤ at + 5 }
{
    match size_name(size) {
        Some(name) => put_name(cells, at, name),
        None => put_large_size(cells, at, size),
    }
}

/// Writes a size that no decoded instruction has.
#[cold]
#[inline(never)]
fn put_large_size(cells: &mut [u8], at: usize, size: u8) -> usize
    requires room { at + 5 ≤ length cells.old }
    requires large { 65 ≤ size }
    ensures text { take result cells.new ≡ take at cells.old ++ codes " m" ++ size_text size }
    ensures short { result ≤ at + 5 }
{
    let at = put(cells, at, b' ');
    let at = put(cells, at, b'm');
    put_u8(cells, at, size)
}

/// Each length of one digit between spaces, and a space more.
static LENGTHS: [[u8; 4]; 10] = [
    *b" 0  ", *b" 1  ", *b" 2  ", *b" 3  ", *b" 4  ", *b" 5  ", *b" 6  ", *b" 7  ", *b" 8  ",
    *b" 9  ",
];

/// A length of one digit between spaces, and a space more.
#[inline(always)]
fn length_of_one_digit(n: u64) -> &'static [u8; 4]
    requires { n < 10 }
    ensures { take 3 result.now ≡ codes " " ++ decimal n ++ codes " " }
{
    &LENGTHS[n as usize]
}

/// Writes the length of an encoding between spaces.
#[inline(always)]
#[tactic(auto, using(itoa::proofs::Decimal::length_one))]
fn put_length(cells: &mut [u8], at: usize, n: u64) -> usize
    requires { at + 22 ≤ length cells.old }
    ensures text { take result cells.new ≡
        take at cells.old ++ codes " " ++ decimal n ++ codes " " }
    ensures short { result ≤ at + 22 }
{
    if n < 10 {
        put_first(cells, at, length_of_one_digit(n), 3)
    } else {
        put_long_length(cells, at, n)
    }
}

/// Writes a length that has more than one digit.
#[cold]
#[inline(never)]
fn put_long_length(cells: &mut [u8], at: usize, n: u64) -> usize
    requires { at + 22 ≤ length cells.old }
    ensures text { take result cells.new ≡
        take at cells.old ++ codes " " ++ decimal n ++ codes " " }
    ensures short { result ≤ at + 22 }
{
    let at = put(cells, at, b' ');
    let at = put_u64(cells, at, n);
    put(cells, at, b' ')
}

/// Writes the text of an instruction without its place and length.
#[inline(always)]
#[tactic(auto, unfolding(crate::specs::Lines::instruction_text))]
fn put_instruction(cells: &mut [u8], at: usize, instruction: &Instruction) -> usize
    requires { at + instruction_text_width ≤ length cells.old }
    ensures text { take result cells.new ≡ take at cells.old ++ instruction_text instruction.now }
    ensures short { result ≤ at + instruction_text_width }
{
    let at = put_name(cells, at, mnemonic(instruction.opcode()));
    let at = put_operands(cells, at, instruction);
    put_size(cells, at, size_number(instruction))
}

/// Appends the text of an instruction without its place and length, at most 149 bytes, as `ADD rax, rbx m8`.
pub fn push_instruction(line: &mut Line, instruction: &Instruction)
    requires { array_vec_len line.old + instruction_text_width ≤ line_room }
    ensures text { line.new.items ≡ line.old.items ++ instruction_text instruction.now }
    ensures short { array_vec_len line.new ≤ array_vec_len line.old + instruction_text_width }
{
    line.len = put_instruction(&mut line.cells, line.len, instruction);
}

/// The text of an instruction without its place and length: the mnemonic, a space and the operands, joined by a comma
/// and a space, and an m with the memory size in bytes. That is 0 where its row has none, and `?` where the processor
/// decides. For `48 01 d8` this is `ADD rax, rbx m8`.
pub fn instruction_text(instruction: &Instruction) -> Line
    ensures text { result.items ≡ instruction_text instruction.now }
    ensures short { array_vec_len result ≤ instruction_text_width }
{
    let mut line = Line::new();
    push_instruction(&mut line, instruction);
    line
}

/// Appends the line of an instruction at a place, without its end, as `4 3 ADD rax, rbx m8`.
#[inline(always)]
#[tactic(auto, unfolding(crate::specs::Lines::line_of))]
pub fn push_line<const N: usize>(line: &mut Room<N>, place: &Place, instruction: &Instruction)
    requires { array_vec_len line.old + line_room ≤ N }
    ensures text { line.new.items ≡ line.old.items ++ line_of place.now instruction.now }
    ensures short { array_vec_len line.new ≤ array_vec_len line.old + line_width }
{
    let digits = place.digits();
    let at = put_first(&mut line.cells, line.len, &digits.cells, digits.len);
    let at = put_length(&mut line.cells, at, instruction.len().to_const());
    line.len = put_instruction(&mut line.cells, at, instruction);
}

/// The line of an instruction at a place, without its end: the place, the length in bytes, and the text of the
/// instruction.
///
/// For `48 01 d8` at place 4 this is `4 3 ADD rax, rbx m8`.
pub fn line_of(place: u64, instruction: &Instruction) -> Line
    ensures text { result.items ≡ line_of place instruction.now }
    ensures short { array_vec_len result ≤ line_width }
{
    let mut line = Line::new();
    push_line(&mut line, &Place::at(place), instruction);
    line
}
