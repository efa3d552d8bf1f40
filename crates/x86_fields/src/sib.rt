//! The byte SIB and its fields. Source: Intel SDM volume 2, section 2.1.5.

ghost use Rattle.std.specs.Prelude.{◌≡◌, ◌<◌, ℕ};
ghost use Rattle.x86_fields.specs.ModRM.{base_field, index_field, packed_byte, scale_field};

use std::marker::Model;

/// A SIB byte: the fields scale, index and base (Intel SDM volume 2, section 2.1.5). A clause sees its byte.
#[derive(Clone, Copy)]
pub struct Sib {
    byte: u8,
}

impl Model for Sib {
    ghost Value = { ℕ };

    ghost view = { λ s. s.byte };

    ghost invariant = { λ s. s.byte < 256 };

    ghost inverse = { λ n. record { byte = n } };
}

impl Sib {
    /// The SIB with this byte: scale is in its bits 7 and 6, index in its bits 5 to 3, and base in its bits 2 to 0
    /// (Intel SDM volume 2, section 2.1.3).
    #[inline(always)]
    pub fn new(byte: u8) -> Sib
        ensures { result ≡ byte }
    {
        Sib { byte }
    }

    /// The SIB of these fields: scale below 4, index and base below 8.
    #[inline(always)]
    pub fn of_fields(scale_field: u8, index_field: u8, base_field: u8) -> Sib
        requires scale { scale_field < 4 }
        requires index { index_field < 8 }
        requires base { base_field < 8 }
        ensures { result ≡ packed_byte scale_field index_field base_field }
    {
        Sib {
            byte: scale_field * 64 + index_field * 8 + base_field,
        }
    }

    /// Its byte, which has the three fields (Intel SDM volume 2, section 2.1.3).
    #[inline(always)]
    pub fn byte(self) -> u8
        ensures { result ≡ self }
    {
        self.byte
    }

    /// The field scale, from 0 to 3: the index counts 2 to the power of it.
    #[inline(always)]
    pub fn scale_field(self) -> u8
        ensures value { result ≡ scale_field self }
        ensures small { result < 4 }
    {
        self.byte / 64
    }

    /// The field index, without X: from 0 to 7.
    #[inline(always)]
    pub fn index_field(self) -> u8
        ensures value { result ≡ index_field self }
        ensures small { result < 8 }
    {
        self.byte / 8 % 8
    }

    /// The field base, without B: from 0 to 7.
    #[inline(always)]
    pub fn base_field(self) -> u8
        ensures value { result ≡ base_field self }
        ensures small { result < 8 }
    {
        self.byte % 8
    }
}
