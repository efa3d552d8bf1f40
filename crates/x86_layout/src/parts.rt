//! The parts of an encoding: split off its bytes, owned, and written as bytes.

pub mod emit;
pub mod entries;
pub mod fields;
pub mod split;
