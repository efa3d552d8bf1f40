//! The sweep: a listing that continues after a refusal.

ghost use Rattle.x86_cli.specs.Listings.Sweep.{known_sweep_at, sweep_at};
ghost use Rattle.x86_cli.specs.Text.Window.{IsAtCut};

use crate::laws::decoder_laws;
use crate::listings::listing::{Entry, LineSource, length_of};
use crate::text::window::AtRefusal;
use x86_decode::{InstDecoder, Instruction};
use x86_fields::DecodeError;
use x86_streams::{Held, Window};
use x86_text::{LINE_ROOM, Place, push_line, push_refusal};

/// The listing of `sweep`: a line for each cut.
pub struct PastRefusals;

/// What the window shows where its bytes begin with no instruction: a refusal that more bytes can't lift is a cut.
#[cold]
#[inline(never)]
pub fn shown_at(window: &Window, error: DecodeError) -> AtRefusal
    ensures { IsAtCut result error window.now.ended window.now.bytes.items }
{
    match window.ended {
        None => match error {
            DecodeError::ExhaustedInput => AtRefusal::Nothing,
            _ => AtRefusal::Refused,
        },
        Some(_) => {
            if window.bytes.is_empty() {
                AtRefusal::Nothing
            } else {
                AtRefusal::Refused
            }
        }
    }
}

impl LineSource<LINE_ROOM, Place> for PastRefusals {
    ghost lists = { λ s strict place text. sweep_at strict place text };

    ghost knows = { λ s strict place text. known_sweep_at strict place text };

    ghost base = { λ s. 0 };

    #[inline(always)]
    fn next(
        &self,
        decoder: &InstDecoder,
        window: &Window,
        place: &Place,
        inst: &mut Instruction,
        held: &mut Held,
    ) -> Entry {
        decoder_laws();
        match decoder.decode_slice_into(inst, window.bytes.as_slice()) {
            Ok(()) => {
                push_line(held, place, inst);
                Entry::Line(length_of(inst))
            }
            Err(error) => match shown_at(window, error) {
                AtRefusal::Nothing => match window.ended {
                    Some(ending) => Entry::Ended(ending),
                    None => Entry::Undecided,
                },
                AtRefusal::Refused => {
                    push_refusal(held, place, error);
                    Entry::Line(1)
                }
            },
        }
    }
}
