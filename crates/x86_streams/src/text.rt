//! Hex text.

pub mod beginning;
pub mod image_bytes;
pub mod kinds;
pub mod pairs;
pub mod reader;
pub mod window;
