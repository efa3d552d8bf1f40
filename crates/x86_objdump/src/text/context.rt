//! What the rules of the text read of an encoding.

ghost use Rattle.std.specs.Prelude.{◌≡◌, slice_index};
ghost use Rattle.x86_fields.specs.Parts.{lists_of};
ghost use Rattle.x86_fields.specs.Run.{reading_of};
ghost use Rattle.x86_objdump.specs.Text.Context.{map_after, modrm_or_absent, context_of, is_some_byte, has_two_bytes, is_one, is_0f, is_offset, is_exchange, is_shadow_read};

use x86_fields::{ModRM, Parts, Prefixes};
use x86_forms::Map;

/// What the rules of the text read of an encoding.
#[derive(Clone, Copy, Drop)]
pub struct Context {
    /// The opcode map, by the escape.
    pub map: Map,
    /// The opcode byte.
    pub opcode: u8,
    /// ModRM, or what an absent one reads as.
    pub modrm: ModRM,
    /// Whether there is a ModRM.
    pub has_modrm: bool,
    /// What the prefixes select.
    pub prefixes: Prefixes,
}

/// The map of an escape.
#[inline(always)]
fn map_after(escape: &[u8]) -> Map
    ensures { result ≡ map_after escape.now }
{
    match escape {
        [] => Map::One,
        [_] => Map::Of,
        [_, 0x38, ..] => Map::Of38,
        _ => Map::Of3a,
    }
}

/// The first byte, or 0 where there is none.
#[inline(always)]
fn first_of(bytes: &[u8]) -> u8
    ensures { result ≡ slice_index bytes.now 0 }
{
    match bytes {
        [byte, ..] => *byte,
        [] => 0,
    }
}

/// Whether there is a byte.
#[inline(always)]
fn is_some_byte(bytes: &[u8]) -> bool
    ensures { result ≡ is_some_byte bytes.now }
{
    match bytes {
        [_, ..] => true,
        [] => false,
    }
}

/// ModRM, or what an absent one reads as.
#[inline(always)]
fn modrm_or_absent(bytes: &[u8]) -> ModRM
    ensures { result ≡ modrm_or_absent bytes.now }
{
    match bytes {
        [byte, ..] => ModRM::new(*byte),
        [] => ModRM::absent(),
    }
}

impl Context {
    /// What the rules read of these parts, whose run selects these prefixes.
    #[inline(always)]
    pub fn of(parts: &Parts, prefixes: Prefixes) -> Context
        requires { prefixes ≡ reading_of parts.now.prefixes.now }
        ensures { result ≡ context_of (lists_of parts.now) }
    {
        Context {
            map: map_after(parts.escape),
            opcode: first_of(parts.opcode),
            modrm: modrm_or_absent(parts.modrm),
            has_modrm: is_some_byte(parts.modrm),
            prefixes,
        }
    }

    /// Whether 66 selects operands of 2 bytes: it does nothing beside W.
    #[inline(always)]
    pub fn has_two_bytes(&self) -> bool
        ensures { result ≡ has_two_bytes self.now }
    {
        self.prefixes.operand_size() && !self.prefixes.has_w()
    }

    /// Whether the opcode is this one of the one-byte map.
    #[inline(always)]
    pub fn is_one(&self, opcode: u8) -> bool
        ensures { result ≡ is_one self.now opcode }
    {
        matches!(self.map, Map::One) && self.opcode == opcode
    }

    /// Whether the opcode is this one of the map 0F.
    #[inline(always)]
    pub fn is_0f(&self, opcode: u8) -> bool
        ensures { result ≡ is_0f self.now opcode }
    {
        matches!(self.map, Map::Of) && self.opcode == opcode
    }

    /// Whether the opcode is one of A0 to A3, whose immediate is an address.
    #[inline(always)]
    pub fn is_offset(&self) -> bool
        ensures { result ≡ is_offset self.now }
    {
        matches!(self.map, Map::One) && self.opcode / 4 == 0x28
    }

    /// Whether 90 exchanges registers: under B or 66.
    #[inline(always)]
    pub fn is_exchange(&self) -> bool
        ensures { result ≡ is_exchange self.now }
    {
        self.prefixes.has_b() || self.prefixes.operand_size()
    }

    /// Whether F3 is before a ModRM of the register form with reg 1: of 0F 1E this is RDSSP.
    #[inline(always)]
    pub fn is_shadow_read(&self) -> bool
        ensures { result ≡ is_shadow_read self.now }
    {
        self.prefixes.rep() && !self.modrm.is_memory() && self.modrm.reg_field() == 1
    }
}
