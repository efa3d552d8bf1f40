//! One piece of a sweep.

ghost use Rattle.x86_decode.specs.Decoder.{is_strict};
ghost use Rattle.std.specs.Prelude.{◌≡◌, ◌<◌, ◌≤◌, length};
ghost use Rattle.x86_layout.specs.Sweeps.Cuts.{cut_at, cut_length};

use x86_decode::{InstDecoder, Instruction, laws};
use x86_fields::DecodeError;

/// A piece of a sweep: an instruction, or one byte at which there is none.
#[derive(Clone, Copy, Debug, Drop)]
pub struct Cut {
    /// Where it begins, counted from 0.
    pub place: usize,
    /// How many bytes it has: those of the instruction, else 1.
    pub length: usize,
    /// What `InstDecoder::decode_slice` answers for the bytes from the place on.
    pub answer: Result<Instruction, DecodeError>,
}

/// How long the cut with this answer is.
fn length_by(answer: &Result<Instruction, DecodeError>) -> u64
    ensures { result ≡ cut_length answer.now }
{
    match answer {
        Ok(instruction) => instruction.len().to_const(),
        Err(_) => 1,
    }
}

/// The cut at the beginning of the bytes, whose first has this place.
pub fn first_cut(decoder: &InstDecoder, place: usize, rest: &[u8]) -> Cut
    requires { 0 < length rest.now }
    ensures cut { result ≡ cut_at (is_strict decoder.now) place rest.now }
    ensures some { 0 < result.length }
    ensures within { result.length ≤ length rest.now }
{
    laws::lengths();
    let answer = decoder.decode_slice(rest);
    Cut {
        place,
        length: length_by(&answer) as usize,
        answer,
    }
}
