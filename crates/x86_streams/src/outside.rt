//! What is outside of the code that reads and writes: sources, sinks, and the buffer before a writer.

pub mod array_sink;
pub mod gathered;
pub mod input;
mod interruptions;
pub mod joined;
pub mod null_sink;
pub mod one_by_one;
pub mod output;
pub mod process;
pub mod recorder;
pub mod sending;
pub mod sink;
pub mod slice_source;
pub mod sound_source;
pub mod source;
pub mod std_sink;
pub mod std_source;
