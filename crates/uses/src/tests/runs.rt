//! Tests of x86_cli and x86_streams: commands, runs over sources and sinks, the program over readers and writers, and
//! hex text that is read without the decoder.

mod commands;
mod limits;
mod process;
mod program;
mod records;
mod run_table;
mod streams;
pub mod support;
mod texts;
