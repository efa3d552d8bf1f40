//! The address that raw fields denote. Source: Intel SDM volume 2, sections 2.1.5 and 2.2.1, and volume 1, section
//! 3.7.5.

ghost use Rattle.std.specs.Prelude.{◌≡◌, IsTrue};
ghost use Rattle.x86_fields.specs.Linear.{value_at, raw_form};
ghost use Rattle.x86_fields.specs.Raw.{fits};

use crate::raw::Raw;
use crate::reg_file::RegFile;

/// The address that raw fields denote at a register file and the address of the next instruction.
///
/// Segment bases are not added.
pub fn address_of(raw: &Raw, regs: &RegFile, next: u64) -> u64
    requires { IsTrue (fits raw.now) }
    ensures { result ≡ value_at (raw_form raw.now) regs.now.regs next }
{
    raw.parts().value(regs, next)
}
