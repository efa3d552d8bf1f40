//! The text of instructions, as `objdump -d -M intel` prints it.

mod choices;
mod context;
mod immediates;
mod instructions;
mod letters;
mod memory;
mod names;
mod numbers;
mod operands;
mod rare;
mod registers;
mod rex;
mod shown;
mod sizes;
mod strings;
mod tables;
mod words;

pub use instructions::put_instruction;
