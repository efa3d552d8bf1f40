//! Registers that no operand of the decoder has.

ghost use Rattle.std.specs.Prelude.{◌≡◌, ◌+◌, ◌≤◌, ◌++◌, length, take};
ghost use Rattle.x86_objdump.specs.Text.Operands.{register_named, accumulator_text};

use x86_regs::{RegSpec, RegisterClass};
use x86_text::put_register;

/// Writes the register of a class and a number.
pub fn put_register_of(cells: &mut [u8], at: usize, class: RegisterClass, num: u8) -> usize
    requires { at + 8 ≤ length cells.old }
    ensures text { take result cells.new ≡ take at cells.old ++ register_named class num }
    ensures short { result ≤ at + 6 }
{
    put_register(cells, at, &RegSpec::of(num, class))
}

/// Writes the accumulator with so many bytes.
pub fn put_accumulator(cells: &mut [u8], at: usize, size: u8) -> usize
    requires { at + 8 ≤ length cells.old }
    ensures text { take result cells.new ≡ take at cells.old ++ accumulator_text size }
    ensures short { result ≤ at + 6 }
{
    match size {
        1 => put_register_of(cells, at, RegisterClass::B, 0),
        2 => put_register_of(cells, at, RegisterClass::W, 0),
        4 => put_register_of(cells, at, RegisterClass::D, 0),
        _ => put_register_of(cells, at, RegisterClass::Q, 0),
    }
}
