//! What words request.

ghost use Rattle.std.specs.Prelude.{◌≡◌, ℕ, IfSome, Some, map, string_bytes};
ghost use Rattle.x86_cli.specs.Commands.Request.{Denotes};

use crate::commands::command::{Command, command_of};
use crate::commands::make::count_from;

/// What is printed where the words request nothing.
pub const USAGE: &str = "usage: list [--strict] | make N | fields | tighten | sweep | targets";

/// What words request.
#[derive(Clone, Copy, Drop)]
pub enum Request {
    /// A command that reads a text and writes its listing.
    Reads(Command),
    /// The line of so many encodings that the program makes. Nothing is read.
    Makes(u32),
}

/// How many encodings the words request.
fn made_from(words: &[String]) -> Option<u32>
    ensures found { IfSome result
        (λ n. Denotes (map string_bytes words.now) (Request.Makes n)) }
    ensures every { (n : ℕ) → Denotes (map string_bytes words.now) (Request.Makes n)
        → result ≡ Some n }
{
    match words {
        [make, count] if make.as_str() == "make" => count_from(count.as_str()),
        _ => None,
    }
}

/// What the words request.
pub fn request_of(words: &[String]) -> Option<Request>
    ensures found { IfSome result (λ request. Denotes (map string_bytes words.now) request) }
    ensures every { (request : Request) → Denotes (map string_bytes words.now) request
        → result ≡ Some request }
{
    match command_of(words) {
        Some(command) => Some(Request::Reads(command)),
        None => Some(Request::Makes(made_from(words)?)),
    }
}
