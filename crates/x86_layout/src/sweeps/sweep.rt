//! Sweeps: bytes cut into pieces from the first to the last, past every refusal.

ghost use Rattle.x86_decode.specs.Decoder.{is_strict};
ghost use Rattle.std.specs.Prelude.{◌≡◌, ◌+◌, ◌^◌, ◌<◌, length};

use crate::sweeps::cuts::{Cut, first_cut};
use x86_decode::InstDecoder;

/// The cuts of bytes, in order. Every byte belongs to exactly one of them.
///
/// A loop that indexes the bytes by `place`, or adds `place` and `length`, has the line `x86_layout::laws::cuts_cover();`
/// before it: by that law each cut has some bytes and lies within the input.
#[derive(Drop)]
pub struct Sweep<'a> {
    decoder: InstDecoder,
    place: usize,
    rest: &'a [u8],
    ghost in_range: { place + length rest.now < 2 ^ 64 },
}

impl<'a> Sweep<'a> {
    ghost use Rattle.x86_layout.specs.Sweeps.Cuts.{cuts_of};
    ghost use Rattle.x86_layout.specs.Sweeps.Sweep.{cuts_left};

    /// The cuts of the bytes, from place 0 on.
    pub fn new(decoder: InstDecoder, bytes: &'a [u8]) -> Sweep<'a>
        ensures { cuts_left result ≡ cuts_of (is_strict decoder) bytes.now }
    {
        Sweep {
            decoder,
            place: 0,
            rest: bytes,
        }
    }
}

impl<'a> Iterator for Sweep<'a> {
    ghost use Rattle.std.specs.Iterator.{YieldsFirst, item_count};
    ghost use Rattle.x86_layout.specs.Sweeps.Sweep.{cuts_left};

    type Item = Cut;

    ghost next_gives = { YieldsFirst cuts_left };

    ghost remaining = { item_count cuts_left };

    #[tactic(auto, using(crate::proofs::SweepLemmas::Place::cut_laws))]
    fn next(&mut self) -> Option<Cut> {
        if self.rest.is_empty() {
            return None;
        }
        let cut = first_cut(&self.decoder, self.place, self.rest);
        self.place += cut.length;
        (_, self.rest) = self.rest.split_at(cut.length);
        Some(cut)
    }
}
