//! The raw fields of a memory operand: ModRM, SIB and displacement. Source: Intel SDM volume 2, section 2.1.5.

ghost use Rattle.std.specs.Prelude.{◌≡◌, IsTrue, IfOk};
ghost use Rattle.x86_arch.specs.Reader.{State};
ghost use Rattle.x86_regs.specs.Register.{reg_spec};
ghost use Rattle.x86_fields.specs.Steps.{outcome};
ghost use Rattle.x86_fields.specs.Address.{base_of, index_of, scale_by, address_class, next_pointer};
ghost use Rattle.x86_fields.specs.Linear.{raw_form, parts_form};
ghost use Rattle.x86_fields.specs.ModRM.{is_memory};
ghost use Rattle.x86_fields.specs.Raw.{read_raw, read_displacement, read_sib, displacement_width, fits, sib_fits, disp_fits};

use crate::address_parts::AddressParts;
use crate::errors::DecodeError;
use crate::modrm::ModRM;
use crate::numbers::{next_byte, read_u8, read_u32};
use crate::prefixes::Prefixes;
use crate::rex::extend;
use crate::sib::Sib;
use x86_arch::Reader;
use x86_regs::{RegSpec, RegisterClass};

/// The raw fields of a memory operand, as they are in the encoding. `read_raw` returns them, and `base`, `index` and
/// `scale` read them.
///
/// Source: Intel SDM volume 2, sections 2.1.5 and 2.2.1.
#[derive(Clone, Copy, PartialEq, Eq, Debug, Drop)]
pub struct Raw {
    /// The bit B of a live REX.
    pub rex_b: bool,
    /// The bit X of a live REX.
    pub rex_x: bool,
    /// Whether 67 is in force.
    pub address_size: bool,
    /// The ModRM byte, of a memory form: below C0.
    pub modrm: u8,
    /// The SIB byte, where rm is 100.
    pub sib: Option<u8>,
    /// The displacement with its sign, 0 where there is none.
    pub disp: i32,
}

/// How many bytes of displacement a memory form has, by ModRM and SIB (Intel SDM volume 2, section 2.1.5).
#[inline(always)]
pub fn displacement_width(modrm: u8, sib: Option<u8>) -> u8
    ensures { result ≡ displacement_width modrm sib }
{
    let modrm = ModRM::new(modrm);
    let base = match sib {
        Some(sib) => Sib::new(sib).base_field(),
        None => modrm.rm_field(),
    };
    match modrm.mod_field() {
        1 => 1,
        2 => 4,
        _ => { if base == 5 { 4 } else { 0 } }
    }
}

impl Raw {
    /// Whether these are the fields of some bytes: SIB exactly where ModRM requires it, and a displacement of the
    /// width that ModRM and SIB require.
    pub fn fits(&self) -> bool
        ensures { result ≡ fits self.now }
    {
        let modrm = ModRM::new(self.modrm);
        let disp_fits = match displacement_width(self.modrm, self.sib) {
            0 => self.disp == 0,
            1 => -128 <= self.disp && self.disp < 128,
            _ => true,
        };
        modrm.is_memory() && self.sib.is_some() == (modrm.rm_field() == 4) && disp_fits
    }

    /// The register that base and index have with this number.
    fn register(&self, num: u8) -> RegSpec
        ensures { result ≡ reg_spec num (address_class self.now) }
    {
        if self.address_size {
            RegSpec::of(num, RegisterClass::D)
        } else {
            RegSpec::of(num, RegisterClass::Q)
        }
    }

    /// The base, where there is one. At mod 00 with rm 101 it is rip, or eip under 67.
    #[inline(always)]
    pub fn base(&self) -> Option<RegSpec>
        ensures { result ≡ base_of self.now }
    {
        let modrm = ModRM::new(self.modrm);
        match self.sib {
            None if modrm.mod_field() == 0 && modrm.rm_field() == 5 => Some(self.next_pointer()),
            None => Some(self.register(extend(self.rex_b, modrm.rm_field()))),
            Some(sib) if modrm.mod_field() == 0 && Sib::new(sib).base_field() == 5 => None,
            Some(sib) => Some(self.register(extend(self.rex_b, Sib::new(sib).base_field()))),
        }
    }

    #[inline(always)]
    fn next_pointer(&self) -> RegSpec
        ensures { result ≡ next_pointer self.now }
    {
        if self.address_size {
            RegSpec::eip()
        } else {
            RegSpec::rip()
        }
    }

    /// The index, where there is one. SIB index 100 is none without X, and r12 with it.
    #[inline(always)]
    pub fn index(&self) -> Option<RegSpec>
        ensures { result ≡ index_of self.now }
    {
        match self.sib {
            None => None,
            Some(sib) if Sib::new(sib).index_field() == 4 && !self.rex_x => None,
            Some(sib) => Some(self.register(extend(self.rex_x, Sib::new(sib).index_field()))),
        }
    }

    /// What the index is multiplied by: 1, 2, 4 or 8.
    #[inline(always)]
    pub fn scale(&self) -> u8
        ensures { result ≡ scale_by self.now.sib }
    {
        match self.sib {
            None => 1,
            Some(sib) => match Sib::new(sib).scale_field() {
                0 => 1,
                1 => 2,
                2 => 4,
                _ => 8,
            },
        }
    }

    /// What the address is the sum of.
    pub(crate) fn parts(&self) -> AddressParts
        ensures { parts_form result ≡ raw_form self.now }
    {
        AddressParts {
            address_size: self.address_size,
            base: self.base(),
            index: self.index(),
            scale: self.scale(),
            disp: self.disp,
        }
    }
}

#[inline(always)]
fn read_sib<T: Reader<u64, u8>>(reader: &mut T, modrm: ModRM) -> Result<Option<u8>, DecodeError>
    ensures read { outcome result (T.state reader.new) ≡ read_sib modrm (T.state reader.old) }
    ensures fits { IfOk result (λ sib. IsTrue (sib_fits modrm sib)) }
{
    if modrm.rm_field() == 4 {
        let sib = next_byte(reader)?;
        Ok(Some(sib))
    } else {
        Ok(None)
    }
}

#[inline(always)]
fn read_displacement<T: Reader<u64, u8>>(reader: &mut T, width: u8) -> Result<i32, DecodeError>
    ensures read { outcome result (T.state reader.new) ≡
        read_displacement width (T.state reader.old) }
    ensures fits { IfOk result (λ disp. IsTrue (disp_fits width disp)) }
{
    match width {
        1 => {
            let byte = read_u8(reader)?;
            Ok(byte.cast_signed() as i32)
        }
        4 => {
            let number = read_u32(reader)?;
            Ok(number.cast_signed())
        }
        _ => Ok(0),
    }
}

/// SIB and displacement after a ModRM of the memory form.
///
/// Where the bytes end before both are whole, a SIB that ModRM requires is taken if it is there, and nothing of the
/// displacement.
#[tactic(auto, unfolding(crate::specs::Raw::read_raw))]
#[inline(always)]
pub fn read_raw<T: Reader<u64, u8>>(
    words: &mut T,
    prefixes: &Prefixes,
    modrm: u8,
) -> Result<Raw, DecodeError>
    requires { IsTrue (is_memory modrm) }
    ensures read { outcome result (T.state words.new) ≡
        read_raw prefixes.now modrm (T.state words.old) }
    ensures fits { IfOk result (λ raw. IsTrue (fits raw)) }
{
    let sib = read_sib(words, ModRM::new(modrm))?;
    let disp = read_displacement(words, displacement_width(modrm, sib))?;
    Ok(Raw {
        rex_b: prefixes.has_b(),
        rex_x: prefixes.has_x(),
        address_size: prefixes.address_size,
        modrm,
        sib,
        disp,
    })
}
