//! The byte ModRM and its fields. Source: Intel SDM volume 2, section 2.1.3.

ghost use Rattle.std.specs.Prelude.{◌≡◌, ◌<◌, ℕ, true};
ghost use Rattle.x86_fields.specs.ModRM.{absent_modrm, as_register, is_memory, mod_field, packed_byte, reg_field, rm_field};
ghost use Rattle.x86_fields.specs.Address.{extend};
ghost use Rattle.x86_fields.specs.Raw.{has_b, has_r};
ghost use Rattle.x86_fields.specs.Sizes.{class_of, is_regular, register_of, size_prefixes};

use crate::prefixes::Prefixes;
use crate::sizes::{SizePrefixes, Width};
use std::marker::Model;
use x86_regs::RegSpec;

/// A ModRM byte below this one is a memory form, and every other is a register form: mod is 11 from here on.
pub const MEMORY_FORMS: u8 = 0xc0;

/// A ModRM byte: the fields mod, reg and rm (Intel SDM volume 2, section 2.1.3). A clause sees its byte.
#[derive(Clone, Copy)]
pub struct ModRM {
    byte: u8,
}

impl Model for ModRM {
    ghost Value = { ℕ };

    ghost view = { λ m. m.byte };

    ghost invariant = { λ m. m.byte < 256 };

    ghost inverse = { λ n. record { byte = n } };
}

impl ModRM {
    /// The ModRM with this byte: mod is in its bits 7 and 6, reg in its bits 5 to 3, and rm in its bits 2 to 0 (Intel
    /// SDM volume 2, section 2.1.3).
    #[inline(always)]
    pub fn new(byte: u8) -> ModRM
        ensures { result ≡ byte }
    {
        ModRM { byte }
    }

    /// The ModRM of these fields: mod below 4, reg and rm below 8.
    #[inline(always)]
    pub fn of_fields(mod_field: u8, reg_field: u8, rm_field: u8) -> ModRM
        requires mode { mod_field < 4 }
        requires reg { reg_field < 8 }
        requires rm { rm_field < 8 }
        ensures { result ≡ packed_byte mod_field reg_field rm_field }
    {
        ModRM {
            byte: mod_field * 64 + reg_field * 8 + rm_field,
        }
    }

    /// What a ModRM that isn't there reads as: C0, the register form of reg 0 and rm 0.
    #[inline(always)]
    pub fn absent() -> ModRM
        ensures { result ≡ absent_modrm }
    {
        ModRM::of_fields(3, 0, 0)
    }

    /// Its byte, which has the three fields (Intel SDM volume 2, section 2.1.3).
    #[inline(always)]
    pub fn byte(self) -> u8
        ensures { result ≡ self }
    {
        self.byte
    }

    /// The field mod, from 0 to 3: 3 is a register form.
    #[inline(always)]
    pub fn mod_field(self) -> u8
        ensures value { result ≡ mod_field self }
        ensures small { result < 4 }
    {
        self.byte / 64
    }

    /// The field reg, without R: from 0 to 7.
    #[inline(always)]
    pub fn reg_field(self) -> u8
        ensures value { result ≡ reg_field self }
        ensures small { result < 8 }
    {
        self.byte / 8 % 8
    }

    /// The field rm, without B: from 0 to 7.
    #[inline(always)]
    pub fn rm_field(self) -> u8
        ensures value { result ≡ rm_field self }
        ensures small { result < 8 }
    {
        self.byte % 8
    }

    /// Whether it is a memory form: mod isn't 11.
    #[inline(always)]
    pub fn is_memory(self) -> bool
        ensures { result ≡ is_memory self }
    {
        self.byte < MEMORY_FORMS
    }

    /// The register form with the same reg and rm.
    #[inline(always)]
    pub fn as_register(self) -> ModRM
        ensures { result ≡ as_register self }
    {
        ModRM::of_fields(3, self.reg_field(), self.rm_field())
    }
}

/// A ModRM byte under the prefixes of its encoding: which registers its fields name, and what chooses their sizes.
#[derive(Drop)]
pub struct PrefixedModRM<'a> {
    pub prefixes: &'a Prefixes,
    pub modrm: ModRM,
    /// Which of W and 66 are in force.
    pub sizes: SizePrefixes,
    /// Whether it is a memory form.
    pub in_memory: bool,
    ghost sizes_are: { sizes ≡ size_prefixes prefixes.now },
    ghost form_is: { in_memory ≡ is_memory modrm },
}

impl<'a> PrefixedModRM<'a> {
    /// The ModRM byte under these prefixes, with its sizes and its form read once.
    #[inline(always)]
    pub fn of(prefixes: &'a Prefixes, modrm: ModRM) -> PrefixedModRM<'a>
        ensures prefixes { result.prefixes.now ≡ prefixes.now }
        ensures modrm { result.modrm ≡ modrm }
    {
        PrefixedModRM {
            prefixes,
            modrm,
            sizes: prefixes.size_prefixes(),
            in_memory: modrm.is_memory(),
        }
    }
}

impl PrefixedModRM<'_> {
    /// The register of a regular width with a number.
    #[inline(always)]
    pub fn register(&self, width: Width, number: u8) -> RegSpec
        requires { is_regular width ≡ true }
        ensures { result ≡ register_of (class_of width self.now.prefixes.now)
            self.now.prefixes.now number }
    {
        RegSpec::of(number, width.class(self.sizes))
    }

    /// The register of reg, with R, of a width.
    #[inline(always)]
    pub fn reg(&self, width: Width) -> RegSpec
        ensures { result ≡ register_of (class_of width self.now.prefixes.now)
            self.now.prefixes.now
            (extend (has_r self.now.prefixes.now) (reg_field self.now.modrm)) }
    {
        let class = width.class(self.sizes);
        self.prefixes
            .register(class, self.prefixes.reg_number(self.modrm))
    }

    /// The register of rm, with B, of a width.
    #[inline(always)]
    pub fn rm(&self, width: Width) -> RegSpec
        ensures { result ≡ register_of (class_of width self.now.prefixes.now)
            self.now.prefixes.now
            (extend (has_b self.now.prefixes.now) (rm_field self.now.modrm)) }
    {
        let class = width.class(self.sizes);
        self.prefixes
            .register(class, self.prefixes.rm_number(self.modrm))
    }
}
