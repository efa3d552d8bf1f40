//! The listing of a text, line by line.

ghost use Rattle.x86_objdump.specs.Listing.{shown_at, known_at, showing};

use crate::lines::{SHOWN_ROOM, push_bad, push_shown_at, push_vector};
use crate::vectors::{Vector, vector_at};
use x86_cli::laws::decoder_laws;
use x86_cli::listings::listing::{Entry, LineSource, length_of, list};
use x86_cli::listings::sweep::shown_at;
use x86_cli::text::window::AtRefusal;
use x86_cli::{Finished, Program};
use x86_decode::{InstDecoder, Instruction};
use x86_streams::lines::Address;
use x86_streams::{Held, Input, Output, Window};

/// The listing of an image that begins at an address.
#[derive(Drop)]
pub struct ShowAt {
    pub base: u64,
}

impl LineSource<SHOWN_ROOM, Address> for ShowAt {
    ghost lists = { λ s strict place text. shown_at strict s.base place text };

    ghost knows = { λ s strict place text. known_at strict s.base place text };

    ghost base = { λ s. s.base };

    #[inline(always)]
    fn next(
        &self,
        decoder: &InstDecoder,
        window: &Window,
        place: &Address,
        inst: &mut Instruction,
        held: &mut Held,
    ) -> Entry {
        decoder_laws();
        let bytes = window.bytes.as_slice();
        match decoder.decode_slice_into(inst, bytes) {
            Ok(()) => {
                let length = length_of(inst);
                push_shown_at(held, decoder, place, inst, bytes);
                Entry::Line(length)
            }
            Err(error) => match shown_at(window, error) {
                AtRefusal::Nothing => match window.ended {
                    Some(ending) => Entry::Ended(ending),
                    None => Entry::Undecided,
                },
                AtRefusal::Refused => match vector_at(bytes, window.ended.is_some()) {
                    Vector::Cut => Entry::Undecided,
                    Vector::Whole(length) => {
                        push_vector(held, place, &bytes[..length]);
                        Entry::Line(length as u64)
                    }
                    Vector::Absent => {
                        push_bad(held, place, &bytes[..1]);
                        Entry::Line(1)
                    }
                },
            },
        }
    }
}

/// Shows the hex text of a reader, whose image begins at the address `base`: a line for each instruction, for each VEX, EVEX
/// or XOP encoding, and for each byte that begins none, as soon as it is decided. The status is as of `sweep`.
impl Program for ShowAt {
    ghost task = { λ s. showing s.base };

    fn run<E, O: Input<E> + Output<E>>(&self, outside: &O, streams: &mut E) -> Finished {
        let decoder = InstDecoder::default();
        list(
            &decoder,
            self,
            Address::at(self.base),
            u64::MAX / 4,
            outside,
            streams,
        )
    }
}
