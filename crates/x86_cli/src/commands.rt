//! Commands, what words request, and the program.

pub mod command;
pub mod make;
pub mod process;
pub mod program;
pub mod request;
