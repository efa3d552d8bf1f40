//! The shortest encoding of an address.

pub mod registers;
pub mod respell;
pub mod shortest;
pub mod tighten;
