//! The lines of the parts of encodings.

ghost use Rattle.x86_layout.specs.Parts.OfBytes.{parts_of};
ghost use Rattle.x86_text.specs.Parts.{fields_line};

use crate::listings::line::Lines;
use x86_decode::{InstDecoder, Instruction};
use x86_layout::split_decoded;
use x86_streams::Held;
use x86_text::{Place, push_fields};

/// The lines of `fields`, which show the parts of each encoding.
#[derive(Clone, Copy, Drop)]
pub struct FieldLines;

impl Lines for FieldLines {
    ghost text = { λ s strict place instruction bytes. fields_line place (parts_of strict bytes) };

    fn push(
        &self,
        decoder: &InstDecoder,
        place: &Place,
        instruction: &Instruction,
        bytes: &[u8],
        held: &mut Held,
    ) {
        push_fields(held, place, &split_decoded(decoder, instruction, bytes));
    }
}
