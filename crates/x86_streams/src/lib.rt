//! Where bytes come from and where they go, hex text that is read from there, and lines of text (`lines`). No decoder is
//! needed.
//!
//! A `Source` returns its bytes one by one, and a `Sink` takes them piece by piece. Each is there over slices and
//! arrays, with faults that the caller chooses, and over any reader or writer of std. A program reads by `Input` and
//! writes by `Output`: of `Process`, the readers and writers of std, or of `OneByOne`, a source and a sink. Contracts
//! name each call, so code that is generic over them can't make one up. A `Window` has the next bytes of the image that
//! a hex text spells:
//!
//! ```
//! let mut reader: &[u8] = b"48 d8\n";
//! let mut window = Window::new(1024); // over a text of at most 1024 bytes
//! window.fill(&Process, &mut reader); // one read
//! while window.step() {}              // each blank, and each pair
//! window.bytes.as_slice()             // [0x48, 0xd8]
//! ```
#![tactic(auto)]

pub mod laws;
pub mod lines;
pub mod outside;
pub mod text;

pub use outside::array_sink::ArraySink;
pub use outside::gathered::{Gathered, HELD_ROOM, Held};
pub use outside::input::Input;
pub use outside::joined::Joined;
pub use outside::null_sink::NullSink;
pub use outside::one_by_one::OneByOne;
pub use outside::output::Output;
pub use outside::process::Process;
pub use outside::recorder::{Event, Record, Recorder};
pub use outside::sending::WriteFailed;
pub use outside::sink::{Sink, SinkFailed};
pub use outside::slice_source::SliceSource;
pub use outside::sound_source::SoundSource;
pub use outside::source::{Got, Source};
pub use outside::std_sink::StdSink;
pub use outside::std_source::StdSource;
pub use text::image_bytes::ImageBytes;
pub use text::reader::{Ending, TextReader};
pub use text::window::Window;
