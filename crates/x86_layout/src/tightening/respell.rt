//! Parts with other raw fields.

ghost use Rattle.std.specs.Prelude.{◌≡◌, ◌≤◌, length};
ghost use Rattle.x86_fields.specs.Parts.{HasFieldLengths, lists_of};
ghost use Rattle.x86_fields.specs.Pieces.{signed_by};
ghost use Rattle.x86_fields.specs.Prefixes.{address_size, rex};
ghost use Rattle.x86_fields.specs.Run.{reading_of};
ghost use Rattle.x86_layout.specs.Parts.Fields.{lists_in};
ghost use Rattle.x86_layout.specs.Tightening.Shortest.{address_length};
ghost use Rattle.x86_layout.specs.Tightening.Tighten.{byte_with, raw_of, respelled, run_with};

use crate::parts::fields::{Fields, array_of};
use arrayvec::ArrayVec;
use x86_fields::{Parts, Prefixes, Raw, displacement_width, is_rex};

/// The number of a displacement of one or four bytes, and 0 where there is none.
fn signed(displacement: &[u8]) -> i32
    ensures { result ≡ signed_by (length displacement.now) displacement.now }
{
    match displacement {
        [byte] => byte.cast_signed() as i32,
        [a, b, c, d] => i32::from_le_bytes([*a, *b, *c, *d]),
        _ => 0,
    }
}

/// The raw fields of parts that have a ModRM of the memory form. `prefixes` are those of their instruction.
pub fn raw_of(parts: &Parts, prefixes: &Prefixes) -> Raw
    requires rex { rex prefixes.now ≡ rex (reading_of parts.now.prefixes.now) }
    requires size { address_size prefixes.now ≡ address_size (reading_of parts.now.prefixes.now) }
    ensures { result ≡ raw_of (lists_of parts.now) }
{
    Raw {
        rex_b: prefixes.has_b(),
        rex_x: prefixes.has_x(),
        address_size: prefixes.address_size(),
        modrm: parts.modrm.first().copied().unwrap_or(0),
        sib: parts.sib.first().copied(),
        disp: signed(parts.displacement),
    }
}

/// How many bytes SIB and displacement of raw fields have.
pub fn address_length(raw: &Raw) -> u64
    ensures value { result ≡ address_length raw.now }
    ensures small { result ≤ 5 }
{
    u64::from(raw.sib.is_some()) + u64::from(displacement_width(raw.modrm, raw.sib))
}

/// A REX byte with these bits X and B; another byte stays.
fn byte_with(x: bool, b: bool, byte: u8) -> u8
    ensures { result ≡ byte_with x b byte }
{
    if is_rex(byte) {
        byte / 4 * 4 + u8::from(x) * 2 + u8::from(b)
    } else {
        byte
    }
}

/// A run whose live REX has these bits X and B.
#[tactic(auto, unfolding(crate::specs::Tightening::Tighten::run_with), using(crate::proofs::TightenLemmas::Rex::run_at_end))]
fn run_with(x: bool, b: bool, run: &[u8]) -> ArrayVec<u8, 14>
    requires { length run.now ≤ 14 }
    ensures { result.items ≡ run_with x b run.now }
{
    let mut changed = array_of(run);
    if let Some(last) = changed.pop() {
        changed.push(byte_with(x, b, last));
    }
    changed
}

/// The parts with other raw fields.
pub fn respelled(parts: &Parts, raw: &Raw) -> Fields
    requires { HasFieldLengths (lists_of parts.now) }
    ensures { lists_in result ≡ respelled (lists_of parts.now) raw.now }
{
    let displacement = raw.disp.to_le_bytes();
    let width = usize::from(displacement_width(raw.modrm, raw.sib));
    let mut fields = Fields::of(parts);
    fields.prefixes = run_with(raw.rex_x, raw.rex_b, parts.prefixes);
    fields.modrm = Some(raw.modrm);
    fields.sib = raw.sib;
    fields.displacement = array_of(&displacement[..width]);
    fields
}
