//! The program's parts: hex text in, listings out, over any source and sink, and over any reader and writer.
//! Sources, sinks and the reader of hex text are those of x86_streams.
//!
//! `run` obeys words over a `Source` and a `Sink`, and `listed` over a reader and a writer of std, as one value:
//!
//! ```
//! let mut source = SoundSource::new(b"48 01 d8");
//! let mut sink = ArraySink::<64>::new(u64::MAX);
//! run(words, &mut source, &mut sink)   // Status::Done, where `words` is `["list"]`
//! sink.written()                       // b"0 3 ADD rax, rbx m8\n"
//!
//! let mut streams = Joined { reader, writer };
//! listed(words, &Process, &mut streams).status
//! ```
//!
//! `Program::run` runs a program of yours over such streams, as x86_show does.
#![tactic(auto)]

pub mod commands;
pub mod laws;
pub mod listings;
pub mod text;

pub use commands::command::{TARGETS_MAX, TEXT_MAX};
pub use commands::make::generate;
pub use commands::process::{finish, words};
pub use commands::program::{Program, listed, run};
pub use commands::request::{Request, USAGE};
pub use listings::status::{Finished, Status};
pub use x86_streams::{
    ArraySink, Event, Got, Joined, NullSink, OneByOne, Process, Record, Recorder, Sink, SinkFailed,
    SliceSource, SoundSource, Source, StdSink, StdSource, outside,
};
pub use x86_text::{fields_line, line_of, refusal_of};
