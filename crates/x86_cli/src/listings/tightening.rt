//! The lines of the shortest encodings.

ghost use Rattle.std.specs.Prelude.{◌≡◌, ◌+◌, ◌≤◌, ◌++◌, length};
ghost use Rattle.arrayvec.specs.ArrayVec.{array_vec_len};
ghost use Rattle.x86_decode.specs.Instruction.{length_of};
ghost use Rattle.x86_layout.specs.Tightening.Least.{shortest_length};
ghost use Rattle.x86_text.specs.Widths.{line_width};
ghost use Rattle.x86_cli.specs.Listings.Tighten.{least_text};

use crate::listings::line::Lines;
use x86_decode::{InstDecoder, Instruction};
use x86_layout::shortest_length;
use x86_streams::Held;
use x86_text::Place;

/// The lines of `tighten`, which show how short each encoding could be.
#[derive(Clone, Copy, Drop)]
pub struct LeastLines;

impl Lines for LeastLines {
    ghost text = { λ s strict place instruction bytes. least_text place (length_of instruction)
        (shortest_length strict bytes) };

    fn push(
        &self,
        decoder: &InstDecoder,
        place: &Place,
        instruction: &Instruction,
        bytes: &[u8],
        held: &mut Held,
    ) {
        let least = shortest_length(decoder, instruction, bytes);
        push_least(held, place, instruction.len().to_const(), least);
    }
}

/// Appends the line of an encoding at a place, without its end: the place, how many bytes the encoding has, and how many
/// a shortest relative has.
///
/// For `48 8b 84 25 00 00 00 00` at place 0 this is `0 8 4`.
#[tactic(auto, unfolding(crate::specs::Listings::Tighten::least_text))]
fn push_least(held: &mut Held, place: &Place, length: u64, least: u64)
    requires { array_vec_len held.old ≤ 65536 }
    ensures text { held.new.items ≡ held.old.items ++ least_text place.now length least }
    ensures short { array_vec_len held.new ≤ array_vec_len held.old + line_width }
{
    held.append(place.digits());
    held.push(b' ');
    held.push_u64(length);
    held.push(b' ');
    held.push_u64(least);
}
