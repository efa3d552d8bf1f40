//! The lines of the parts of encodings.

ghost use Rattle.std.specs.Prelude.{◌≡◌, ◌+◌, ◌*◌, ◌≤◌, ◌++◌, length, take};
ghost use Rattle.std.specs.List.{sum_by};
ghost use Rattle.arrayvec.specs.ArrayVec.{array_vec_len};
ghost use Rattle.x86_fields.specs.Parts.{lists_of, HasFieldLengths};
ghost use Rattle.x86_text.specs.Widths.{line_room, line_width};
ghost use Rattle.x86_text.specs.Parts.{in_order, spaced, fields_line};

use x86_fields::Parts;
use x86_streams::lines::cells::put;
use x86_streams::lines::digits::{put_hex, put_u64};
use x86_streams::lines::{Line, Place, Room};

/// How many bytes the parts have together.
fn parts_length(parts: &Parts) -> usize
    requires { HasFieldLengths (lists_of parts.now) }
    ensures { result ≡ sum_by length (in_order (lists_of parts.now)) }
{
    parts.prefixes.len()
        + parts.escape.len()
        + parts.opcode.len()
        + parts.modrm.len()
        + parts.sib.len()
        + parts.displacement.len()
        + parts.immediate.len()
        + parts.suffix.len()
}

/// Writes a part after a space.
#[inline(always)]
fn put_part(cells: &mut [u8], at: usize, part: &[u8]) -> usize
    requires { at + 2 + 2 * length part.now ≤ length cells.old }
    ensures text { take result cells.new ≡ take at cells.old ++ spaced part.now }
    ensures short { result ≤ at + 2 + 2 * length part.now }
{
    let at = put(cells, at, b' ');
    if part.is_empty() {
        put(cells, at, b'-')
    } else {
        put_hex(cells, at, part)
    }
}

/// Appends the line of the parts of an encoding at a place, without its end, as `fields_line` returns it.
#[tactic(auto, unfolding(crate::specs::Parts::fields_line))]
pub fn push_fields<const N: usize>(line: &mut Room<N>, place: &Place, parts: &Parts)
    requires fields { HasFieldLengths (lists_of parts.now) }
    requires room { array_vec_len line.old + line_room ≤ N }
    ensures text { line.new.items ≡ line.old.items ++ fields_line place.now (lists_of parts.now) }
    ensures short { array_vec_len line.new ≤ array_vec_len line.old + line_width }
{
    line.append(place.digits());
    let at = line.len;
    let cells: &mut [u8] = &mut line.cells;
    let at = put(cells, at, b' ');
    let at = put_u64(cells, at, parts_length(parts) as u64);
    let at = put_part(cells, at, parts.prefixes);
    let at = put_part(cells, at, parts.escape);
    let at = put_part(cells, at, parts.opcode);
    let at = put_part(cells, at, parts.modrm);
    let at = put_part(cells, at, parts.sib);
    let at = put_part(cells, at, parts.displacement);
    let at = put_part(cells, at, parts.immediate);
    line.len = put_part(cells, at, parts.suffix);
}

/// The line of the parts of an encoding at a place, without its end: the place, how many bytes the parts have
/// together, and each part as hex digits, or a dash where it is empty. It requires the lengths that `Fields::of`
/// requires, which the parts of `split` have.
///
/// For `48 03 44 25 00` at place 0 this is `0 5 48 - 03 44 25 00 - -`.
pub fn fields_line(place: u64, parts: &Parts) -> Line
    requires { HasFieldLengths (lists_of parts.now) }
    ensures text { result.items ≡ fields_line place (lists_of parts.now) }
    ensures short { array_vec_len result ≤ line_width }
{
    let mut line = Line::new();
    push_fields(&mut line, &Place::at(place), parts);
    line
}
