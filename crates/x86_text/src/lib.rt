//! Instructions, refusals and parts of encodings as text.
//!
//! ```
//! let instruction = InstDecoder::default().decode_slice(&[0x48, 0x01, 0xd8])?;
//! line_of(4, &instruction).as_slice()             // b"4 3 ADD rax, rbx m8"
//! instruction_text(&instruction).as_slice()       // b"ADD rax, rbx m8"
//! operand_text(&instruction.operand(1)).as_slice() // b"rbx"
//! ```
//!
//! Each text is a `Line`, which takes no memory. The calls that begin with `push` append to what is there, as a caller's
//! columns, or the bytes that a `Gathered` holds. Those that begin with `put` write a part of a text at a place in cells,
//! as the calls of x86_streams do, for lines of a caller's own.
#![tactic(auto)]

mod instructions;
pub mod laws;
mod mnemonics;
mod names;
mod operands;
mod parts;
mod refusals;
mod registers;
mod sizes;

pub use instructions::{instruction_text, line_of, push_instruction, push_line, size_number};
pub use names::{put_mnemonic, put_register};
pub use operands::{operand_text, push_operand, put_scaled};
pub use parts::{fields_line, push_fields};
pub use refusals::{push_refusal, refusal_of};
pub use x86_streams::lines::{LINE_MAX, LINE_ROOM, Line, Place, Room};
