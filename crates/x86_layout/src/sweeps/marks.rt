//! The places of bytes that the instructions of a sweep branch to.

ghost use Rattle.x86_decode.specs.Decoder.{is_strict};
ghost use Rattle.std.specs.Prelude.{◌≡◌, ◌+◌, ◌^◌, ◌<◌, ◌≤◌, ◌&&◌, ◌||◌, ℕ, nat_le, nat_lt, not, false, length, slice_index_or};
ghost use Rattle.std.specs.List.{list_any};
ghost use Rattle.x86_layout.specs.Sweeps.Cuts.{cuts_of};
ghost use Rattle.x86_layout.specs.Sweeps.Marks.{target_of_cut, targets, begins_at, is_marked};

use crate::sweeps::cuts::Cut;
use crate::sweeps::flows::branch_target;
use crate::sweeps::sweep::Sweep;
use x86_decode::{InstDecoder, laws};

/// The target of a cut's instruction.
fn target(cut: &Cut) -> Option<u64>
    requires { cut.now.place + cut.now.length < 2 ^ 64 }
    ensures { result ≡ target_of_cut cut.now }
{
    match cut.answer {
        Ok(instruction) => branch_target(&instruction, (cut.place + cut.length) as u64),
        Err(_) => None,
    }
}

/// Marks the target of a cut.
fn mark_target(cut: &Cut, marks: &mut [bool])
    requires { cut.now.place + cut.now.length < 2 ^ 64 }
    ensures { (p : ℕ) → p < length marks.old →
        slice_index_or marks.new p false ≡ (slice_index_or marks.old p false || targets p cut.now) }
{
    if let Some(place) = target(cut) {
        if place < marks.len() as u64 {
            marks[place as usize] = true;
        }
    }
}

/// Takes the marks in a range of places away.
fn clear(from: usize, to: usize, marks: &mut [bool])
    requires order { from ≤ to }
    requires within { to ≤ length marks.old }
    ensures { (p : ℕ) → p < length marks.old →
        slice_index_or marks.new p false
        ≡ (slice_index_or marks.old p false && not (nat_le from p && nat_lt p to)) }
{
    for place in from..to {
        marks[place] = false;
    }
}

/// Marks the target of each cut.
fn mark_targets_of(decoder: &InstDecoder, bytes: &[u8], marks: &mut [bool])
    requires { length bytes.now ≡ length marks.old }
    ensures { (p : ℕ) → p < length marks.old →
        slice_index_or marks.new p false
        ≡ (slice_index_or marks.old p false || list_any (targets p)
        (cuts_of (is_strict decoder.now) bytes.now)) }
{
    laws::lengths();
    for cut in Sweep::new(*decoder, bytes) {
        mark_target(&cut, marks);
    }
}

/// Takes the marks inside the cuts away, so that marks are left at their places alone.
fn clear_inside_all(decoder: &InstDecoder, bytes: &[u8], marks: &mut [bool])
    requires { length bytes.now ≡ length marks.old }
    ensures { (p : ℕ) → p < length marks.old →
        slice_index_or marks.new p false
        ≡ (slice_index_or marks.old p false && list_any (begins_at p)
        (cuts_of (is_strict decoder.now) bytes.now)) }
{
    laws::lengths();
    for cut in Sweep::new(*decoder, bytes) {
        clear(cut.place + 1, cut.place + cut.length, marks);
    }
}

/// Marks the places that the instructions of a sweep branch to. `marks[p]` becomes true exactly where a cut of the
/// sweep begins at p and an instruction of the sweep has the target p, by [`branch_target`] with places as addresses.
/// A target inside a cut or outside the bytes isn't marked.
///
/// Over `eb fe` the marks are true and false.
pub fn mark_targets(decoder: &InstDecoder, bytes: &[u8], marks: &mut [bool])
    requires { length bytes.now ≡ length marks.old }
    ensures { (p : ℕ) → p < length marks.old →
        slice_index_or marks.new p false ≡ is_marked (is_strict decoder.now) bytes.now p }
{
    clear(0, marks.len(), marks);
    mark_targets_of(decoder, bytes, marks);
    clear_inside_all(decoder, bytes, marks);
}
