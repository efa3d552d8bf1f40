//! The cuts of a sweep over any bytes, and where the instructions in them branch to.

pub mod control;
pub mod cuts;
pub mod flows;
pub mod marks;
pub mod sweep;
