//! An instruction with what the rules of the text read of it.

ghost use Rattle.std.specs.Prelude.{◌≡◌};
ghost use Rattle.x86_fields.specs.Parts.{lists_of};
ghost use Rattle.x86_objdump.specs.Text.Shown.{IsRead, parts_in};

use crate::text::context::Context;
use crate::text::names::Entry;
use x86_decode::{InstDecoder, Instruction};
use x86_fields::Parts;
use x86_layout::split_decoded;

/// An instruction, the bytes of its encoding, and what the rules read of it. Of its parts most instructions need few, so
/// each call reads those that it needs.
#[derive(Clone, Copy)]
pub struct Shown<'a> {
    pub context: &'a Context,
    pub decoder: &'a InstDecoder,
    pub inst: &'a Instruction,
    pub bytes: &'a [u8],
    pub entry: &'a Entry,
    /// Whether there is no prefix but a REX, as in most. Operands of others are written by calls.
    pub is_common: bool,
}

/// The parts of the encoding.
#[inline(always)]
pub fn parts_in<'a>(shown: &Shown<'a>) -> Parts<'a>
    requires { IsRead shown.now }
    ensures { lists_of result ≡ parts_in shown.now }
{
    split_decoded(shown.decoder, shown.inst, shown.bytes)
}

/// The immediates.
#[inline(always)]
pub fn immediate_in<'a>(shown: &Shown<'a>) -> &'a [u8]
    requires { IsRead shown.now }
    ensures { result.now ≡ (parts_in shown.now).immediate }
{
    parts_in(shown).immediate
}

/// The displacement.
#[inline(always)]
pub fn displacement_in<'a>(shown: &Shown<'a>) -> &'a [u8]
    requires { IsRead shown.now }
    ensures { result.now ≡ (parts_in shown.now).displacement }
{
    parts_in(shown).displacement
}
