//! The parts of an encoding, owned.

ghost use Rattle.std.specs.Prelude.{◌≡◌, ◌≤◌, length};
ghost use Rattle.x86_fields.specs.Pieces.{option_bytes};
ghost use Rattle.x86_fields.specs.Parts.{lists_of, HasFieldLengths};
ghost use Rattle.x86_layout.specs.Parts.Fields.{lists_in};

use arrayvec::ArrayVec;
use x86_fields::Parts;

/// The parts of an encoding, owned, so that one can be changed alone (Intel SDM volume 2, section 2.1).
#[derive(Debug, Drop)]
pub struct Fields {
    /// The legacy prefixes and REX bytes.
    pub prefixes: ArrayVec<u8, 14>,
    /// Nothing, or 0F, 0F 38 or 0F 3A.
    pub escape: ArrayVec<u8, 2>,
    /// The opcode byte, which follows the escape.
    pub opcode: u8,
    /// ModRM, where the row has one.
    pub modrm: Option<u8>,
    /// SIB, where rm of a memory form is 100.
    pub sib: Option<u8>,
    /// The displacement, little-endian: 1 or 4 bytes, or none.
    pub displacement: ArrayVec<u8, 4>,
    /// The immediates in order. The absolute addresses of opcodes A0 to A3 count as immediates.
    pub immediate: ArrayVec<u8, 8>,
    /// The byte that names the operation, as in 3DNow.
    pub suffix: Option<u8>,
}

/// The bytes of a part, held in place.
pub fn array_of<const N: usize>(bytes: &[u8]) -> ArrayVec<u8, N>
    requires { length bytes.now ≤ N }
    ensures { result.items ≡ bytes.now }
{
    let mut held = ArrayVec::new();
    let _ = held.try_extend_from_slice(bytes);
    held
}

/// The byte of a part that is there or not.
fn single(bytes: &[u8]) -> Option<u8>
    requires { length bytes.now ≤ 1 }
    ensures { option_bytes result ≡ bytes.now }
{
    bytes.first().copied()
}

impl Fields {
    /// The same parts, owned. The parts that [`split`](crate::split) returns have the lengths that this requires.
    ///
    /// Of the parts of `48 03 44 25 00`, ModRM is `Some(0x44)` and the displacement holds 00.
    pub fn of(parts: &Parts) -> Fields
        requires { HasFieldLengths (lists_of parts.now) }
        ensures { lists_in result ≡ lists_of parts.now }
    {
        Fields {
            prefixes: array_of(parts.prefixes),
            escape: array_of(parts.escape),
            opcode: parts.opcode[0],
            modrm: single(parts.modrm),
            sib: single(parts.sib),
            displacement: array_of(parts.displacement),
            immediate: array_of(parts.immediate),
            suffix: single(parts.suffix),
        }
    }
}
