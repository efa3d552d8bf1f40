//! The places that the instructions of a sweep branch to.

ghost use Rattle.x86_decode.specs.Decoder.{is_strict};
ghost use Rattle.std.specs.Prelude.{◌≡◌, ℕ, ◌+◌, ◌*◌, ◌<◌, ◌≤◌, ◌++◌, length, slice_index_or, false};
ghost use Rattle.arrayvec.specs.ArrayVec.{array_vec_len};
ghost use Rattle.x86_layout.specs.Sweeps.Marks.{is_marked};
ghost use Rattle.x86_cli.specs.Listings.Listing.{at_end};
ghost use Rattle.x86_cli.specs.Listings.Performs.{Performs};
ghost use Rattle.x86_cli.specs.Listings.Targets.{ReadsWhole, image_max, targets_at};

use crate::listings::listing::{end, put_line};
use crate::listings::status::Finished;
use arrayvec::ArrayVec;
use x86_decode::InstDecoder;
use x86_layout::mark_targets;
use x86_streams::outside::sending::flush_out;
use x86_streams::{Ending, Gathered, Input, Output, Window, WriteFailed};
use x86_text::Line;

/// The most bytes of an image that is held whole.
const IMAGE_MAX: usize = 8192;

/// A text that is read to its end, its image held whole.
#[derive(Drop)]
struct WholeText {
    image: ArrayVec<u8, IMAGE_MAX>,
    ending: Ending,
}

/// Appends the bytes of a window to an image. It returns how many they are.
fn append(image: &mut ArrayVec<u8, IMAGE_MAX>, window: &Window) -> usize
    requires { array_vec_len image.old + length window.now.bytes.items ≤ image_max }
    ensures image { image.new.items ≡ image.old.items ++ window.now.bytes.items }
    ensures count { result ≡ length window.now.bytes.items }
{
    let bytes = window.bytes.as_slice();
    for byte in bytes {
        image.push(*byte);
    }
    bytes.len()
}

/// Reads a text to its end. Each byte of the image takes at least two bytes of text. The writer is flushed before each
/// read.
fn read_whole<E, O: Input<E> + Output<E>>(
    max: u64,
    outside: &O,
    streams: &mut E,
) -> Result<WholeText, WriteFailed>
    requires { max ≤ 2 * image_max }
    ensures { ReadsWhole O.reads O.writes O.flushes max result streams.old streams.new }
{
    let mut image = ArrayVec::new();
    let mut window = Window::new(max);
    'windows: loop {
        window.take_known();
        let count = append(&mut image, &window);
        window.bytes.leave(count);
        if let Some(ending) = window.ended {
            return Ok(WholeText { image, ending });
        }
        if !window.step() {
            match flush_out(outside, streams) {
                Ok(()) => window.fill(outside, streams),
                Err(failed) => return Err(failed),
            }
        }
    }
}

/// Marks the places of an image that the instructions of its sweep branch to.
fn mark(decoder: &InstDecoder, image: &[u8], marks: &mut [bool; IMAGE_MAX])
    requires { length image.now ≤ image_max }
    ensures { (p : ℕ) → p < length image.now →
        slice_index_or marks.new p false ≡ is_marked (is_strict decoder.now) image.now p }
{
    mark_targets(decoder, image, &mut marks[..image.len()]);
}

/// Writes the places that the instructions of a text branch to, of a text that is short enough to be held whole.
pub fn targets<E, O: Input<E> + Output<E>>(
    decoder: &InstDecoder,
    max: u64,
    outside: &O,
    streams: &mut E,
) -> Finished
    requires { max ≤ 2 * image_max }
    ensures { Performs O.reads O.writes O.flushes O.gathers (record {
      max = max;
      known = λ t. at_end t.ending;
      lists = targets_at (is_strict decoder.now) 0;
    }) result streams.old streams.new }
{
    let text = match read_whole(max, outside, streams) {
        Ok(text) => text,
        Err(failed) => return Finished::of_failed(failed),
    };
    let image = text.image.as_slice();
    let mut marks = [false; IMAGE_MAX];
    mark(decoder, image, &mut marks);
    let mut out = Gathered::new();
    'places: for place in 0..image.len() {
        if marks[place] {
            let mut line = Line::new();
            line.push_u64(place as u64);
            match put_line(outside, &mut out, streams, &mut line) {
                Ok(()) => {}
                Err(failed) => return Finished::of_failed(failed),
            }
        }
    }
    end(outside, &mut out, streams, text.ending)
}
