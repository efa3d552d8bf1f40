//! The lines of a listing.

ghost use Rattle.std.specs.Prelude.{Bool, ℕ, List, Ok, ◌≡◌, ◌+◌, ◌≤◌, ◌++◌};
ghost use Rattle.arrayvec.specs.ArrayVec.{array_vec_len};
ghost use Rattle.x86_decode.specs.Decoder.{is_strict};
ghost use Rattle.x86_decode.specs.declared.instructions.Instruction.{Instruction};
ghost use Rattle.x86_decode.specs.Answer.{answer_of};
ghost use Rattle.x86_text.specs.Lines.{line_of};
ghost use Rattle.x86_text.specs.Widths.{line_width};

use x86_decode::{InstDecoder, Instruction};
use x86_streams::Held;
use x86_text::{Place, push_line};

/// What a command writes for an instruction.
pub trait Lines {
    /// The line of an instruction at a place, under a choice, from its bytes.
    ghost text: { Self → Bool → ℕ → Instruction → List ℕ → List ℕ };

    /// Appends that line to what is held, without its end. The bytes are those of the instruction.
    fn push(
        &self,
        decoder: &InstDecoder,
        place: &Place,
        instruction: &Instruction,
        bytes: &[u8],
        held: &mut Held,
    )
        requires answer { answer_of (is_strict decoder.now) bytes.now ≡ Ok instruction.now }
        requires room { array_vec_len held.old ≤ 65536 }
        ensures text { held.new.items ≡ held.old.items
            ++ text self.now (is_strict decoder.now) place.now instruction.now bytes.now }
        ensures short { array_vec_len held.new ≤ array_vec_len held.old + line_width };
}

/// The lines of `list`, which don't look at the bytes.
#[derive(Clone, Copy, Drop)]
pub struct Plain;

impl Lines for Plain {
    ghost text = { λ s strict place instruction bytes. line_of place instruction };

    fn push(
        &self,
        _decoder: &InstDecoder,
        place: &Place,
        instruction: &Instruction,
        _bytes: &[u8],
        held: &mut Held,
    ) {
        push_line(held, place, instruction);
    }
}
