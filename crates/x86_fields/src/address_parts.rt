//! The sum that an address is. Source: Intel SDM volume 1, section 3.7.5.

ghost use Rattle.std.specs.Prelude.{◌≡◌, ◌<◌, ◌^◌};
ghost use Rattle.x86_fields.specs.Linear.{part_value, value_at, parts_form};

use crate::reg_file::RegFile;
use x86_regs::{RegSpec, RegisterClass};

/// What an address is the sum of: a base, an index times a scale, and a displacement.
///
/// Source: Intel SDM volume 1, section 3.7.5.
#[derive(Clone, Copy, Drop)]
pub struct AddressParts {
    /// Whether 67 is in force, so that the sum is taken modulo 2^32.
    pub address_size: bool,
    /// A general register, or rip.
    pub base: Option<RegSpec>,
    /// A general register.
    pub index: Option<RegSpec>,
    /// How often the index counts: 1, 2, 4 or 8.
    pub scale: u8,
    /// The displacement with its sign, in bytes.
    pub disp: i32,
}

/// What a register adds to an address.
fn part_value(reg: Option<RegSpec>, times: u8, regs: &RegFile, next: u64) -> u128
    ensures value { result ≡ part_value reg times regs.now.regs next }
    ensures small { result < 2 ^ 72 }
{
    match reg {
        None => 0,
        Some(reg) => {
            let value = match reg.class() {
                RegisterClass::EIP | RegisterClass::RIP => next,
                _ => regs.regs[(reg.num() % 16) as usize],
            };
            times as u128 * value as u128
        }
    }
}

impl AddressParts {
    /// The sum modulo 2^64, or modulo 2^32 under 67. A base or index rip or eip means `next`.
    pub fn value(&self, regs: &RegFile, next: u64) -> u64
        ensures { result ≡ value_at (parts_form self.now) regs.now.regs next }
    {
        let base = part_value(self.base, 1, regs, next);
        let index = part_value(self.index, self.scale, regs, next);
        if self.address_size {
            let sum = base + index + self.disp.cast_unsigned() as u128;
            (sum % 0x1_0000_0000) as u64
        } else {
            let sum = base + index + (self.disp as i64).cast_unsigned() as u128;
            (sum % 0x1_0000_0000_0000_0000) as u64
        }
    }
}
