//! The parts of an encoding, as slices of its bytes.

/// The parts of an encoding, in order. Their concatenation is the encoding (Intel SDM volume 2, section 2.1).
#[derive(Clone, Copy, Debug, Drop)]
pub struct Parts<'a> {
    /// The legacy prefixes and REX bytes.
    pub prefixes: &'a [u8],
    /// Nothing, or 0F, 0F 38 or 0F 3A.
    pub escape: &'a [u8],
    /// The opcode byte.
    pub opcode: &'a [u8],
    /// ModRM, where the row has one.
    pub modrm: &'a [u8],
    /// SIB, where rm of a memory form is 100.
    pub sib: &'a [u8],
    /// The displacement, little-endian: 1 or 4 bytes, or none.
    pub displacement: &'a [u8],
    /// The immediates in order. The absolute addresses of opcodes A0 to A3 count as immediates.
    pub immediate: &'a [u8],
    /// The byte that names the operation, as in 3DNow.
    pub suffix: &'a [u8],
}
