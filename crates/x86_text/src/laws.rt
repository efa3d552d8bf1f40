//! What the sizes of lines are.

ghost use Rattle.std.specs.Prelude.{◌≡◌};
ghost use Rattle.x86_text.specs.Widths.{line_room, line_width};

use x86_streams::lines::{LINE_MAX, LINE_ROOM};

/// A line has room for 192 bytes: the longest text, of 191, and its end.
pub fn lines_have_room()
    ensures most { LINE_MAX ≡ line_width }
    ensures room { LINE_ROOM ≡ line_room }
{}
