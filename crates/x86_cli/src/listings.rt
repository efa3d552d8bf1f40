//! What commands list of a text.

pub mod fields;
pub mod line;
pub mod listing;
pub mod status;
pub mod sweep;
pub mod targets;
pub mod tightening;
