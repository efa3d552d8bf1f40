//! The bytes of encodings: their parts, parts written as bytes, the cuts of a sweep over any bytes, and where the
//! instructions in them branch to.
#![tactic(auto)]

pub mod laws;
mod parts;
mod sweeps;
mod tightening;

pub use parts::emit::{EmitError, emit};
pub use parts::fields::Fields;
pub use parts::split::{split, split_decoded};
pub use sweeps::control::Flow;
pub use sweeps::cuts::Cut;
pub use sweeps::flows::{branch_target, flow};
pub use sweeps::marks::mark_targets;
pub use sweeps::sweep::Sweep;
pub use tightening::tighten::{TightenError, shortest_length, tighten};
pub use x86_fields::Parts;
