//! The raw fields of an address with the fewest bytes. Source: Intel SDM volume 2, sections 2.1.5 and 2.2.1.

ghost use Rattle.std.specs.Prelude.{◌≡◌, ◌<◌};
ghost use Rattle.x86_layout.specs.Tightening.Shortest.{requires_displacement, arranged, mod_of, fourth_bit, sib_byte, spelled, shortest};

use crate::tightening::registers::{AddressRegisters, Scale, registers_of};
use x86_fields::{ModRM, Raw, Sib};

/// Whether a base requires a displacement, also of 0: its number ends in 101.
fn requires_displacement(base: u8) -> bool
    ensures { result ≡ requires_displacement base }
{
    base % 8 == 5
}

/// The base and the index of the shortest form: an index alone is the base where it counts once, and both where it
/// counts twice; base and index change places where that spares a displacement of 0.
fn arranged(disp: i32, at: AddressRegisters) -> AddressRegisters
    ensures { result ≡ arranged disp at.base at.index at.scale }
{
    let (base, index, scale) = match (at.base, at.index, at.scale) {
        (base, None, _) => (base, None, Scale::One),
        (None, index, Scale::One) => (index, None, Scale::One),
        (None, index, Scale::Two) => (index, index, Scale::One),
        (Some(base), Some(index), Scale::One)
            if disp == 0 && requires_displacement(base) && !requires_displacement(index) => {
            (Some(index), Some(base), Scale::One)
        }
        same => same,
    };
    AddressRegisters { base, index, scale }
}

/// The mod field: no displacement, one of a byte, or one of four bytes.
fn mod_of(disp: i32, base: Option<u8>) -> u8
    ensures value { result ≡ mod_of disp base }
    ensures small { result < 3 }
{
    match base {
        None => 0,
        Some(base) if disp == 0 && !requires_displacement(base) => 0,
        Some(_) if -128 <= disp && disp < 128 => 1,
        Some(_) => 2,
    }
}

/// The fourth bit of a register's number.
fn fourth_bit(number: Option<u8>) -> bool
    ensures { result ≡ fourth_bit number }
{
    8 <= number.unwrap_or(0)
}

/// The SIB byte: an index of 100 is none, and a base of 101 beside mod 00.
fn sib_byte(at: &AddressRegisters) -> u8
    ensures { result ≡ sib_byte at.now }
{
    let index = at.index.unwrap_or(4) % 8;
    let base = at.base.unwrap_or(5) % 8;
    Sib::of_fields(at.scale as u8, index, base).byte()
}

/// The raw fields with this base and index. A base alone, whose number doesn't end in 100, needs no SIB.
fn spelled(raw: &Raw, at: &AddressRegisters) -> Raw
    ensures { result ≡ spelled raw.now at.now }
{
    let mod_field = mod_of(raw.disp, at.base);
    let reg_field = ModRM::new(raw.modrm).reg_field();
    let (rm_field, sib) = match (at.base, at.index) {
        (Some(base), None) if base % 8 != 4 => (base % 8, None),
        _ => (4, Some(sib_byte(at))),
    };
    Raw {
        rex_b: fourth_bit(at.base),
        rex_x: fourth_bit(at.index),
        address_size: raw.address_size,
        modrm: ModRM::of_fields(mod_field, reg_field, rm_field).byte(),
        sib,
        disp: raw.disp,
    }
}

/// Raw fields of the same address with the fewest bytes, for fields that aren't relative to the next instruction.
#[tactic(auto, unfolding(crate::specs::Tightening::Shortest::shortest))]
pub fn shortest(raw: &Raw) -> Raw
    ensures { result ≡ shortest raw.now }
{
    spelled(raw, &arranged(raw.disp, registers_of(raw)))
}
