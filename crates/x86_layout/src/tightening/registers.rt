//! Which registers an address adds, as base or as index.

ghost use Rattle.std.specs.Prelude.{◌≡◌};
ghost use Rattle.x86_layout.specs.Tightening.Registers.{scale_named, registers_of, is_ip_relative};

use x86_fields::{ModRM, Raw};

/// What an index is multiplied by, in the order of the scale field's bits.
#[derive(Clone, Copy, Drop)]
pub enum Scale {
    One,
    Two,
    Four,
    Eight,
}

/// The base and the index of an address, by their numbers from 0 to 15.
#[derive(Clone, Copy, Drop)]
pub struct AddressRegisters {
    pub base: Option<u8>,
    pub index: Option<u8>,
    pub scale: Scale,
}

/// The scale by its factor.
fn scale_named(factor: u8) -> Scale
    ensures { result ≡ scale_named factor }
{
    match factor {
        1 => Scale::One,
        2 => Scale::Two,
        4 => Scale::Four,
        _ => Scale::Eight,
    }
}

/// The registers of raw fields that aren't relative to the next instruction.
pub fn registers_of(raw: &Raw) -> AddressRegisters
    ensures { result ≡ registers_of raw.now }
{
    AddressRegisters {
        base: raw.base().map(|register| register.num()),
        index: raw.index().map(|register| register.num()),
        scale: scale_named(raw.scale()),
    }
}

/// Whether the base is the next instruction: mod 00 with rm 101.
pub fn is_ip_relative(raw: &Raw) -> bool
    ensures { result ≡ is_ip_relative raw.now }
{
    let modrm = ModRM::new(raw.modrm);
    raw.sib.is_none() && modrm.mod_field() == 0 && modrm.rm_field() == 5
}
