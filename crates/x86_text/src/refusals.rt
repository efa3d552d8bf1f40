//! The lines of refusals.

ghost use Rattle.std.specs.Prelude.{◌≡◌, ◌+◌, ◌≤◌, ◌++◌};
ghost use Rattle.arrayvec.specs.ArrayVec.{array_vec_len};
ghost use Rattle.x86_text.specs.Widths.{line_room, line_width};
ghost use Rattle.x86_text.specs.Lines.{refusal_of};

use x86_fields::DecodeError;
use x86_streams::lines::{Line, Place, Room};

/// Appends the line of a refusal at a place, without its end.
#[tactic(auto, unfolding(crate::specs::Lines::refusal_of))]
pub fn push_refusal<const N: usize>(line: &mut Room<N>, place: &Place, error: DecodeError)
    requires { array_vec_len line.old + line_room ≤ N }
    ensures text { line.new.items ≡ line.old.items ++ refusal_of place.now error }
    ensures short { array_vec_len line.new ≤ array_vec_len line.old + line_width }
{
    line.append(place.digits());
    line.extend(b" error: ");
    line.extend(x86_arch::DecodeError::description(&error).as_bytes());
}

/// The line of a refusal at a place, without its end: the place, `error: `, and the description of the error.
pub fn refusal_of(place: u64, error: DecodeError) -> Line
    ensures text { result.items ≡ refusal_of place error }
    ensures short { array_vec_len result ≤ line_width }
{
    let mut line = Line::new();
    push_refusal(&mut line, &Place::at(place), error);
    line
}
