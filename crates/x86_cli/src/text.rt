//! What the window over the image of a hex text decodes to.

pub mod window;

pub use x86_streams::text::{image_bytes, reader};
