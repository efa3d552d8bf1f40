//! Every memory form, at three register files, against the sum written out.

use crate::tests::decoding::decoded;
use arrayvec::ArrayVec;
use x86_fields::{ModRM, RegFile, Sib};

/// Whether there is a SIB after a ModRM of the memory form.
fn requires_sib(modrm: ModRM) -> bool {
    modrm.rm_field() == 4
}

/// One memory form of `ADD r32, m32`.
#[derive(Clone, Copy, Drop)]
struct MemoryForm {
    rex_x: bool,
    rex_b: bool,
    address_size: bool,
    modrm: ModRM,
    sib: Sib,
    disp: i32,
}

impl MemoryForm {
    fn has_sib(&self) -> bool {
        requires_sib(self.modrm)
    }

    /// How many bytes of displacement there are.
    fn displacement_width(&self) -> u8 {
        let base = if self.has_sib() {
            self.sib.base_field()
        } else {
            self.modrm.rm_field()
        };
        match self.modrm.mod_field() {
            1 => 1,
            2 => 4,
            _ => { if base == 5 { 4 } else { 0 } }
        }
    }

    fn bytes(&self) -> ArrayVec<u8, 15> {
        let mut bytes = ArrayVec::new();
        if self.address_size {
            let _ = bytes.try_push(0x67);
        }
        let rex = 0x40 + 2 * self.rex_x as u8 + self.rex_b as u8;
        let _ = bytes.try_extend_from_slice(&[rex, 0x03, self.modrm.byte()]);
        if self.has_sib() {
            let _ = bytes.try_push(self.sib.byte());
        }
        let disp = self.disp.to_le_bytes();
        let _ = match self.displacement_width() {
            1 => bytes.try_extend_from_slice(&disp[..1]),
            4 => bytes.try_extend_from_slice(&disp),
            _ => Ok(()),
        };
        bytes
    }

    /// The displacement, where there is one.
    fn distance(&self) -> u64 {
        if self.displacement_width() == 0 {
            0
        } else {
            (self.disp as i64).cast_unsigned()
        }
    }

    fn full_sum(&self, regs: &[u64; 16], next: u64) -> u64 {
        let b = 8 * self.rex_b as u8;
        let x = 8 * self.rex_x as u8;
        let mode = self.modrm.mod_field();
        let rm = self.modrm.rm_field();
        if !self.has_sib() {
            if mode == 0 && rm == 5 {
                return next.wrapping_add(self.distance());
            }
            return regs[(rm + b) as usize].wrapping_add(self.distance());
        }
        let index = self.sib.index_field();
        let base = self.sib.base_field();
        let base = if mode == 0 && base == 5 {
            0
        } else {
            regs[(base + b) as usize]
        };
        let index = if index == 4 && !self.rex_x {
            0
        } else {
            regs[(index + x) as usize]
        };
        let scale = match self.sib.scale_field() {
            0 => 1,
            1 => 2,
            2 => 4,
            _ => 8,
        };
        base.wrapping_add(index.wrapping_mul(scale))
            .wrapping_add(self.distance())
    }

    fn sum(&self, regs: &[u64; 16], next: u64) -> u64 {
        let sum = self.full_sum(regs, next);
        if self.address_size {
            sum % 0x1_0000_0000
        } else {
            sum
        }
    }

    fn is_right(&self) -> bool {
        let memory = decoded(self.bytes().as_slice()).operand(1);
        let next = 0xffff_ffff_0000_1000;
        for regs in files() {
            let address = memory.address(self.address_size, &RegFile { regs }, next);
            if address != Some(self.sum(&regs, next)) {
                return false;
            }
        }
        true
    }
}

/// Small numbers, numbers that wrap, and numbers without a pattern.
fn files() -> [[u64; 16]; 3] {
    let mut small = [0; 16];
    let mut wide = [0; 16];
    let mut mixed = [0; 16];
    for i in 0..16u64 {
        small[i as usize] = 16 * i + 1;
        wide[i as usize] = u64::MAX - 0x100 * i;
        mixed[i as usize] = (i + 1).wrapping_mul(0x9e37_79b9_7f4a_7c15);
    }
    [small, wide, mixed]
}

/// The encoding of the first form that is wrong, of those with each REX bit, 67 or none, and three displacements.
fn wrong_variant(modrm: ModRM, sib: Sib) -> Option<ArrayVec<u8, 15>> {
    for bits in 0..8u8 {
        for disp in [0, 5, -3] {
            let form = MemoryForm {
                rex_x: bits % 2 == 1,
                rex_b: bits / 2 % 2 == 1,
                address_size: bits / 4 == 1,
                modrm,
                sib,
                disp,
            };
            if !form.is_right() {
                return Some(form.bytes());
            }
        }
    }
    None
}

/// The same of the forms of a ModRM, with each SIB where there is one.
fn wrong_form(modrm: ModRM) -> Option<ArrayVec<u8, 15>> {
    if !requires_sib(modrm) {
        return wrong_variant(modrm, Sib::new(0));
    }
    for sib in 0..=255u8 {
        let wrong = wrong_variant(modrm, Sib::new(sib));
        if wrong.is_some() {
            return wrong;
        }
    }
    None
}

#[test]
fn every_memory_form(rt: HostRuntime) {
    for byte in 0..=255u8 {
        let modrm = ModRM::new(byte);
        if modrm.is_memory() {
            let wrong = wrong_form(modrm);
            assert!(rt; wrong.is_none(), "{byte} {wrong:?}");
        }
    }
}
