//! VEX, EVEX and XOP encodings by their length alone.

ghost use Rattle.std.specs.Prelude.{◌≡◌, ◌+◌, ◌≤◌, length, take, drop};
ghost use Rattle.x86_objdump.specs.Vectors.{precedes, fewest, longer, sib_bytes, bytes_from_modrm, immediate_bytes, after_head, after_c5, after_c4, after_8f, third_of_62, after_62, at_lead, after_prefixes, fitting, vector_of, once_ended};

use x86_fields::{ModRM, displacement_width};

/// What bytes begin with.
#[derive(Clone, Copy, Drop)]
pub enum Vector {
    /// No VEX, EVEX or XOP encoding.
    Absent,
    /// One of which more bytes are to come.
    Cut,
    /// One of so many bytes.
    Whole(usize),
}

/// How many bytes an encoding has, or a part of one.
#[derive(Clone, Copy, Drop)]
enum Extent {
    /// It is none.
    Empty,
    /// At least so many: bytes to come decide it.
    AtLeast(usize),
    /// So many.
    Exactly(usize),
}

/// Whether a byte may precede such an encoding.
fn precedes(byte: u8) -> bool
    ensures { result ≡ precedes byte }
{
    matches!(byte, 0x67 | 0x2e | 0x36 | 0x3e | 0x26 | 0x64 | 0x65)
}

/// So many bytes, and then a part.
fn longer(n: usize, part: Extent) -> Extent
    requires { n + fewest part ≤ 1000 }
    ensures value { result ≡ longer n part }
    ensures few { fewest result ≤ n + fewest part }
{
    match part {
        Extent::Empty => Extent::Empty,
        Extent::AtLeast(m) => Extent::AtLeast(n + m),
        Extent::Exactly(m) => Extent::Exactly(n + m),
    }
}

fn sib_bytes(modrm: u8, bytes: &[u8]) -> Extent
    ensures value { result ≡ sib_bytes modrm bytes.now }
    ensures few { fewest result ≤ 6 }
{
    match bytes {
        [] => Extent::AtLeast(2 + usize::from(displacement_width(modrm, Some(0)))),
        [sib, ..] => Extent::Exactly(2 + usize::from(displacement_width(modrm, Some(*sib)))),
    }
}

/// How many bytes ModRM, SIB and displacement have.
fn bytes_from_modrm(bytes: &[u8]) -> Extent
    ensures value { result ≡ bytes_from_modrm bytes.now }
    ensures few { fewest result ≤ 6 }
{
    match bytes {
        [] => Extent::AtLeast(1),
        [modrm, ..] if !ModRM::new(*modrm).is_memory() => Extent::Exactly(1),
        [modrm, rest @ ..] if ModRM::new(*modrm).rm_field() == 4 => sib_bytes(*modrm, rest),
        [modrm, ..] => Extent::Exactly(1 + usize::from(displacement_width(*modrm, None))),
    }
}

/// How many bytes the immediate has.
fn immediate_bytes(map: u8, opcode: u8) -> usize
    ensures value { result ≡ immediate_bytes map opcode }
    ensures few { result ≤ 4 }
{
    let chosen = matches!(
        opcode,
        0x70 | 0x71 | 0x72 | 0x73 | 0xc2 | 0xc4 | 0xc5 | 0xc6
    );
    match map {
        3 | 8 => 1,
        1 if chosen => 1,
        10 => 4,
        _ => 0,
    }
}

/// What so many bytes of a head begin, which the opcode byte of a map follows.
fn after_head(n: usize, map: u8, vex: bool, bytes: &[u8]) -> Extent
    requires { n ≤ 4 }
    ensures value { result ≡ after_head n map vex bytes.now }
    ensures few { fewest result ≤ 15 }
{
    match bytes {
        [] if vex && map == 1 => Extent::AtLeast(n + 1),
        [] => Extent::AtLeast(n + 2 + immediate_bytes(map, 0)),
        [0x77, ..] if vex && map == 1 => Extent::Exactly(n + 1),
        [opcode, rest @ ..] => longer(
            n + 1 + immediate_bytes(map, *opcode),
            bytes_from_modrm(rest),
        ),
    }
}

fn without_first(bytes: &[u8]) -> &[u8]
    ensures { result.now ≡ drop 1 bytes.now }
{
    match bytes {
        [] => bytes,
        [_, rest @ ..] => rest,
    }
}

fn after_c5(bytes: &[u8]) -> Extent
    ensures value { result ≡ after_c5 bytes.now }
    ensures few { fewest result ≤ 15 }
{
    after_head(2, 1, true, without_first(bytes))
}

fn after_c4(bytes: &[u8]) -> Extent
    ensures value { result ≡ after_c4 bytes.now }
    ensures few { fewest result ≤ 15 }
{
    match bytes {
        [] => Extent::AtLeast(4),
        [a, rest @ ..] if matches!(*a % 32, 1 | 2 | 3) => {
            after_head(3, *a % 32, true, without_first(rest))
        }
        _ => Extent::Empty,
    }
}

fn after_8f(bytes: &[u8]) -> Extent
    ensures value { result ≡ after_8f bytes.now }
    ensures few { fewest result ≤ 15 }
{
    match bytes {
        [] => Extent::AtLeast(5),
        [a, rest @ ..] if matches!(*a % 32, 8 | 9 | 10) => {
            after_head(3, *a % 32, false, without_first(rest))
        }
        _ => Extent::Empty,
    }
}

fn third_of_62(map: u8, bytes: &[u8]) -> Extent
    ensures value { result ≡ third_of_62 map bytes.now }
    ensures few { fewest result ≤ 15 }
{
    match bytes {
        [] => after_head(4, map, false, bytes),
        [b, rest @ ..] if *b / 4 % 2 == 1 => after_head(4, map, false, without_first(rest)),
        _ => Extent::Empty,
    }
}

fn after_62(bytes: &[u8]) -> Extent
    ensures value { result ≡ after_62 bytes.now }
    ensures few { fewest result ≤ 15 }
{
    match bytes {
        [] => Extent::AtLeast(6),
        [a, rest @ ..] if matches!(*a % 16, 1 | 2 | 3 | 5 | 6) => third_of_62(*a % 16, rest),
        _ => Extent::Empty,
    }
}

fn at_lead(byte: u8, rest: &[u8]) -> Extent
    ensures value { result ≡ at_lead byte rest.now }
    ensures few { fewest result ≤ 15 }
{
    match byte {
        0xc5 => after_c5(rest),
        0xc4 => after_c4(rest),
        0x62 => after_62(rest),
        0x8f => after_8f(rest),
        _ => Extent::Empty,
    }
}

/// What bytes begin with, however long it is.
#[tactic(auto, unfolding(crate::specs::Vectors::after_prefixes))]
fn after_prefixes(bytes: &[u8]) -> Extent
    requires { length bytes.now ≤ 15 }
    ensures value { result ≡ after_prefixes bytes.now }
    ensures few { fewest result ≤ 15 + length bytes.now }
{
    match bytes {
        [] => Extent::AtLeast(3),
        [byte, rest @ ..] if precedes(*byte) => longer(1, after_prefixes(rest)),
        [byte, rest @ ..] => at_lead(*byte, rest),
    }
}

fn fitting(there: usize, extent: Extent) -> Vector
    ensures { result ≡ fitting there extent }
{
    match extent {
        Extent::AtLeast(n) if there < 15 && n <= 15 => Vector::Cut,
        Extent::Exactly(n) if n <= 15 && n <= there => Vector::Whole(n),
        Extent::Exactly(n) if n <= 15 => Vector::Cut,
        _ => Vector::Absent,
    }
}

fn first_fifteen(bytes: &[u8]) -> &[u8]
    ensures value { result.now ≡ take 15 bytes.now }
    ensures few { length result.now ≤ 15 }
{
    if bytes.len() > 15 {
        &bytes[..15]
    } else {
        bytes
    }
}

/// What bytes begin with.
#[tactic(auto, unfolding(crate::specs::Vectors::vector_of))]
fn vector_of(bytes: &[u8]) -> Vector
    ensures { result ≡ vector_of bytes.now }
{
    fitting(bytes.len(), after_prefixes(first_fifteen(bytes)))
}

/// What bytes begin with, where they may have ended: then no encoding is cut.
#[cold]
#[inline(never)]
pub fn vector_at(bytes: &[u8], ended: bool) -> Vector
    ensures { result ≡ once_ended ended (vector_of bytes.now) }
{
    match vector_of(bytes) {
        Vector::Cut if ended => Vector::Absent,
        vector => vector,
    }
}
