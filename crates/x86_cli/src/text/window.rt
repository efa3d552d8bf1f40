//! What the next bytes of an image decode to.

ghost use Rattle.std.specs.Prelude.{◌≡◌, ℕ, List, None, Err, IfSome};
ghost use Rattle.x86_fields.specs.declared.errors.DecodeError.TheVariants.{ExhaustedInput};
ghost use Rattle.x86_decode.specs.Answer.{answer_of};
ghost use Rattle.x86_decode.specs.Decoder.{is_strict};
ghost use Rattle.x86_streams.specs.Outside.Stop.{Stop};
ghost use Rattle.x86_streams.specs.Text.Window.{rest_of};
ghost use Rattle.x86_cli.specs.Listings.Listing.{decoded_of};
ghost use Rattle.x86_cli.specs.Text.Window.{decoded_with, IsAtRefusal, Shows};

use crate::laws::decoder_laws;
use x86_decode::{InstDecoder, Instruction};
use x86_fields::DecodeError;
use x86_streams::Ending;
pub use x86_streams::Window;

/// What decoding the next bytes of an image yields. In contracts `I` is the instruction; in code it is `()`, and the
/// instruction is written beside it.
#[derive(Drop)]
pub enum Decoded<I> {
    Whole(I),
    Refused(DecodeError),
    Ended(Ending),
}

/// What comes where the bytes that are held begin with no instruction.
#[derive(Drop)]
pub enum AtRefusal {
    /// The refusal.
    Refused,
    /// The end of the text, if it has ended. Otherwise more bytes decide what comes.
    Nothing,
}

/// What the window shows where its bytes begin with no instruction.
#[cold]
#[inline(never)]
fn shown_at(window: &Window, error: DecodeError) -> AtRefusal
    ensures { IsAtRefusal result error window.now.ended window.now.bytes.items }
{
    match (window.ended, error) {
        (None, DecodeError::ExhaustedInput) => AtRefusal::Nothing,
        (None, _) => AtRefusal::Refused,
        (Some(_), _) if window.bytes.is_empty() => AtRefusal::Nothing,
        (Some(Ending::Clean), _) => AtRefusal::Refused,
        (Some(_), DecodeError::ExhaustedInput) => AtRefusal::Nothing,
        (Some(_), _) => AtRefusal::Refused,
    }
}

/// What decoding the image that a window has left yields, or `None` where more bytes decide that. An instruction is
/// written to `inst`.
#[inline(always)]
pub fn decode_next(
    window: &Window,
    decoder: &InstDecoder,
    inst: &mut Instruction,
) -> Option<Decoded<()>>
    ensures rest { IfSome result (λ decoded. (xs : List ℕ) (stop : Stop) →
        let rest = rest_of window.now.ended window.now.bytes.items window.now.text.position
        window.now.text.room xs stop in decoded_of (is_strict decoder.now) rest.image rest.ending
        ≡ decoded_with inst.new decoded) }
    ensures shows { IfSome result (λ decoded. Shows (is_strict decoder.now)
        (decoded_with inst.new decoded) window.now.ended window.now.bytes.items) }
    ensures open { result ≡ None → window.now.ended ≡ None }
    ensures more { result ≡ None →
        answer_of (is_strict decoder.now) window.now.bytes.items ≡ Err ExhaustedInput }
{
    decoder_laws();
    match decoder.decode_slice_into(inst, window.bytes.as_slice()) {
        Ok(()) => Some(Decoded::Whole(())),
        Err(error) => match shown_at(window, error) {
            AtRefusal::Refused => Some(Decoded::Refused(error)),
            AtRefusal::Nothing => match window.ended {
                Some(ending) => Some(Decoded::Ended(ending)),
                None => None,
            },
        },
    }
}
