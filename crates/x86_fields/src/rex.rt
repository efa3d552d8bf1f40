//! The bits of a REX. Source: Intel SDM volume 2, section 2.2.1.

ghost use Rattle.std.specs.Prelude.{◌≡◌, ◌<◌, Some, is_some};
ghost use Rattle.x86_fields.specs.Address.{extend};
ghost use Rattle.x86_fields.specs.ModRM.{reg_field, rm_field};
ghost use Rattle.x86_fields.specs.Prefixes.{rex, with_rex};
ghost use Rattle.x86_fields.specs.Raw.{has_w, has_r, has_x, has_b};
ghost use Rattle.x86_fields.specs.Rex.{w, r, x, b, is_rex, rex_bits, rex_named};

use crate::modrm::ModRM;
use crate::prefixes::Prefixes;
use std::marker::Model;

/// Whether the byte is a REX.
#[inline(always)]
pub fn is_rex(byte: u8) -> bool
    ensures { result ≡ is_rex byte }
{
    0x40 <= byte && byte < 0x50
}

/// A field of three bits under its fourth, which a REX has.
#[inline(always)]
pub fn extend(bit: bool, num: u8) -> u8
    requires { num < 8 }
    ensures { result ≡ extend bit num }
{
    if bit { num + 8 } else { num }
}

/// The four bits of a live REX.
#[derive(Clone, Copy, PartialEq, Eq, Debug, Drop)]
pub struct PrefixRex {
    pub(crate) w: bool,
    pub(crate) r: bool,
    pub(crate) x: bool,
    pub(crate) b: bool,
}

impl PrefixRex {
    pub(crate) fn of(byte: u8) -> PrefixRex
        ensures { result ≡ rex_bits byte }
    {
        PrefixRex {
            w: byte / 8 % 2 == 1,
            r: byte / 4 % 2 == 1,
            x: byte / 2 % 2 == 1,
            b: byte % 2 == 1,
        }
    }

    /// Whether operands have 64 bits.
    pub fn w(&self) -> bool
        ensures { result ≡ w self.now }
    {
        self.w
    }

    /// The fourth bit of the reg field of ModRM.
    pub fn r(&self) -> bool
        ensures { result ≡ r self.now }
    {
        self.r
    }

    /// The fourth bit of the index field of SIB.
    pub fn x(&self) -> bool
        ensures { result ≡ x self.now }
    {
        self.x
    }

    /// The fourth bit of the rm field of ModRM, of the base field of SIB, or of a register in the opcode.
    pub fn b(&self) -> bool
        ensures { result ≡ b self.now }
    {
        self.b
    }
}

/// The REX that is live, if one is: its byte, or 0 for none. A clause sees its bits.
#[derive(Clone, Copy, PartialEq, Eq, Debug, Drop)]
pub(crate) struct LiveRex {
    byte: u8,
}

impl Model for LiveRex {
    ghost use Rattle.std.specs.Prelude.{◌≡◌, Option, Some, true};
    ghost use Rattle.x86_fields.specs.declared.rex.PrefixRex.{PrefixRex};
    ghost use Rattle.x86_fields.specs.Rex.{rex_named, rex_byte, is_rex_or_zero};

    ghost Value = { Option PrefixRex };

    ghost view = { λ r. rex_named (Some r.byte) };

    ghost invariant = { λ r. is_rex_or_zero r.byte ≡ true };

    ghost inverse = { λ rex. record { byte = rex_byte rex } };
}

impl LiveRex {
    /// None is live.
    pub(crate) const NONE: LiveRex = LiveRex { byte: 0 };

    #[inline(always)]
    pub(crate) fn is_some(self) -> bool
        ensures { result ≡ is_some self }
    {
        self.byte != 0
    }
}

impl Prefixes {
    /// The REX that is live is this byte, if it is a REX; else none is live. It returns whether it is a REX.
    #[inline(always)]
    pub fn set_rex(&mut self, byte: u8) -> bool
        ensures is_rex { result ≡ is_rex byte }
        ensures live { self.new ≡ with_rex self.old (rex_named (Some byte)) }
    {
        let is_rex = is_rex(byte);
        self.rex = LiveRex {
            byte: if is_rex { byte } else { 0 },
        };
        is_rex
    }

    /// The bits of the REX that is live, if one is.
    #[inline(always)]
    pub fn rex(&self) -> Option<PrefixRex>
        ensures { result ≡ rex self.now }
    {
        if self.rex.byte == 0 {
            None
        } else {
            Some(PrefixRex::of(self.rex.byte))
        }
    }

    /// Whether a live REX has W.
    #[inline(always)]
    pub fn has_w(&self) -> bool
        ensures { result ≡ has_w self.now }
    {
        self.rex.byte / 8 % 2 == 1
    }

    /// Whether a live REX has X.
    #[inline(always)]
    pub fn has_x(&self) -> bool
        ensures { result ≡ has_x self.now }
    {
        self.rex.byte / 2 % 2 == 1
    }

    /// Whether a live REX has B.
    #[inline(always)]
    pub fn has_b(&self) -> bool
        ensures { result ≡ has_b self.now }
    {
        self.rex.byte % 2 == 1
    }

    /// The number of reg, with R.
    #[inline(always)]
    pub fn reg_number(&self, modrm: ModRM) -> u8
        ensures value { result ≡ extend (has_r self.now) (reg_field modrm) }
        ensures small { result < 16 }
    {
        // The fourth bit as a number, with no branch: this is faster than `extend`.
        self.rex.byte / 4 % 2 * 8 + modrm.reg_field()
    }

    /// The number of rm, with B.
    #[inline(always)]
    pub fn rm_number(&self, modrm: ModRM) -> u8
        ensures value { result ≡ extend (has_b self.now) (rm_field modrm) }
        ensures small { result < 16 }
    {
        // As in `reg_number`.
        self.rex.byte % 2 * 8 + modrm.rm_field()
    }
}
