//! Names as blocks of fixed size, so that they are copied without a loop.

ghost use Rattle.std.specs.Prelude.{◌≡◌, ◌+◌, ◌++◌, ◌≤◌, IsTrue, IfSome, IfNone, length, map, take, codes};
ghost use Rattle.x86_opcodes.specs.Mnemonics.{mnemonic};
ghost use Rattle.x86_regs.specs.Names.{names_of};
ghost use Rattle.x86_text.specs.Operands.{register_text};
ghost use Rattle.x86_text.specs.Names.{name_text, are_short};
ghost use Rattle.x86_text.specs.Lines.{size_text};

use crate::mnemonics::MNEMONICS;
use crate::registers;
use crate::sizes::SIZES;
use x86_opcodes::Opcode;
use x86_opcodes::laws::names_are_in_the_order_of_their_numbers;
use x86_regs::{RegSpec, RegisterClass};
use x86_streams::lines::cells::put_first;

/// A text of at most `M` bytes: a block that begins with it, and its length.
pub(crate) struct Name<const M: usize> {
    pub bytes: [u8; M],
    pub len: usize,
}

/// A name by its block and its length.
macro_rules! name {
    ($bytes:literal, $len:literal) => {
        $crate::names::Name {
            bytes: *$bytes,
            len: $len,
        }
    };
}

pub(crate) use name;

/// Writes a name.
#[inline(always)]
pub(crate) fn put_name<const M: usize>(cells: &mut [u8], at: usize, name: &Name<M>) -> usize
    requires room { at + M ≤ length cells.old }
    requires short { name.now.len ≤ M }
    ensures text { take result cells.new ≡ take at cells.old ++ name_text name.now }
    ensures place { result ≡ at + name.now.len }
{
    put_first(cells, at, &name.bytes, name.len)
}

/// The mnemonic of an opcode.
#[inline(always)]
pub(crate) fn mnemonic(opcode: Opcode) -> &'static Name<16>
    ensures text { name_text result.now ≡ mnemonic opcode }
    ensures short { result.now.len ≤ 16 }
{
    names_are_in_the_order_of_their_numbers();
    &MNEMONICS[opcode.number() as usize]
}

/// Writes the mnemonic of an opcode.
#[inline(always)]
pub fn put_mnemonic(cells: &mut [u8], at: usize, opcode: Opcode) -> usize
    requires { at + 16 ≤ length cells.old }
    ensures text { take result cells.new ≡ take at cells.old ++ mnemonic opcode }
    ensures short { result ≤ at + 16 }
{
    put_name(cells, at, mnemonic(opcode))
}

/// A size after a space and an m, of the sizes that instructions have. With `inline(always)` this would be three tests in
/// the caller, in place of one.
pub(crate) fn size_name(size: u8) -> Option<&'static Name<4>>
    ensures text { IfSome result (λ name. name_text name.now ≡ codes " m" ++ size_text size) }
    ensures short { IfSome result (λ name. name.now.len ≤ 4) }
    ensures large { IfNone result (65 ≤ size) }
{
    if size < 65 {
        Some(&SIZES[size as usize])
    } else {
        None
    }
}

/// The names of the registers of a class, by number.
fn names_of(class: RegisterClass) -> &'static [Name<8>]
    ensures text { map name_text result.now ≡ names_of class }
    ensures short { IsTrue (are_short 6 result.now) }
{
    match class {
        RegisterClass::B => &registers::B,
        RegisterClass::W => &registers::W,
        RegisterClass::D => &registers::D,
        RegisterClass::RB => &registers::RB,
        RegisterClass::Q => &registers::Q,
        RegisterClass::CR => &registers::CR,
        RegisterClass::DR => &registers::DR,
        RegisterClass::S => &registers::S,
        RegisterClass::X => &registers::X,
        RegisterClass::Y => &registers::Y,
        RegisterClass::Z => &registers::Z,
        RegisterClass::ST => &registers::ST,
        RegisterClass::MM => &registers::MM,
        RegisterClass::K => &registers::K,
        RegisterClass::EIP => &registers::EIP,
        RegisterClass::RIP => &registers::RIP,
        RegisterClass::EFlags => &registers::EFLAGS,
        RegisterClass::RFlags => &registers::RFLAGS,
    }
}

/// Writes the name of a register, or nothing where its class has no such number.
#[inline(always)]
#[tactic(auto, unfolding(crate::specs::Operands::register_text))]
pub fn put_register(cells: &mut [u8], at: usize, register: &RegSpec) -> usize
    requires { at + 8 ≤ length cells.old }
    ensures text { take result cells.new ≡ take at cells.old ++ register_text register.now }
    ensures short { result ≤ at + 6 }
{
    match names_of(register.class()).get(register.num() as usize) {
        Some(name) => put_name(cells, at, name),
        None => at,
    }
}
