//! Lines of text in room of a fixed size, and the digits of numbers.
//!
//! ```
//! let mut line = Line::new();
//! line.extend(b"place ");
//! line.push_u64(4096);
//! line.push(b' ');
//! line.push_hex(&[0x48, 0x01]);
//! line.as_slice() // b"place 4096 4801"
//! ```
//!
//! A `Room` takes no memory, and its calls require room where they append. A `Place` counts on, and keeps its decimal; an
//! `Address` keeps its hexadecimal.
//! The modules `cells`, `digits` and `hexadecimal` write a text by its pieces, without a length that is kept at each one.

mod address;
pub mod cells;
pub mod digits;
pub mod hexadecimal;
pub mod laws;
mod place;
mod room;

pub use address::Address;
pub use place::{Counter, Place};
pub use room::{LINE_MAX, LINE_ROOM, Line, Room};
