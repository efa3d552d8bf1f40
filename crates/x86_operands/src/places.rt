//! Where the parts of an encoding end.

ghost use Rattle.std.specs.Prelude.{◌≡◌};
ghost use Rattle.x86_operands.specs.Places.{no_places, place_of};

/// Where the parts of an encoding end, counted from its first byte.
///
/// Prefixes, escape and opcode byte come first. ModRM, SIB and displacement follow, then the immediates, and last the
/// suffix, which 3DNow alone has. Source: Intel SDM volume 2, section 2.1; AMD APM volume 3, section 1.2.
#[derive(Clone, Copy, Debug, Drop)]
pub struct Places {
    /// The place after the opcode byte.
    pub opcode_end: u8,
    /// The place after ModRM, SIB and displacement. Where there are none it is the place after the opcode byte.
    pub address_end: u8,
    /// Whether the last byte is a suffix, which names the operation.
    pub has_suffix: bool,
}

impl Places {
    /// `Places::none()` as a constant.
    pub const NONE: Places = Places {
        opcode_end: 0,
        address_end: 0,
        has_suffix: false,
    };

    /// The places of no encoding: all are 0.
    pub fn none() -> Places
        ensures { result ≡ no_places }
    {
        Places::NONE
    }
}

/// A place as a byte. An encoding has at most fifteen bytes, so it has no place that is larger.
#[inline(always)]
pub fn place_of(offset: u64) -> u8
    ensures { result ≡ place_of offset }
{
    (offset % 256) as u8
}
