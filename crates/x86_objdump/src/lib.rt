//! A listing for people of the x86-64 instructions of a hex text, which prints what `objdump -d -w -M intel` prints, and
//! its lines one by one.
//!
//! ```
//! let line = shown_line(&InstDecoder::default(), 0x401007, &[0x74, 0x29])?;
//! line.as_slice() // b"401007:\t74 29                \tje     0x401032"
//! ```
//!
//! `shown` lists what a reader has, to a writer, as the program of crates/x86_show does.
#![tactic(auto)]

pub mod laws;
mod lines;
mod listing;
mod program;
mod text;
mod vectors;

pub use lines::{SHOWN_ROOM, ShownLine, push_shown, shown_line};
pub use program::{USAGE, base_in, finish, shown};
