//! The numbers of bytes, the lowest first.

ghost use Rattle.std.specs.Prelude.{◌≡◌};
ghost use Rattle.x86_objdump.specs.Text.Numbers.{plain_number, signed_of};

/// The number of 1, 2, 4 or 8 bytes.
#[inline(always)]
pub fn plain_number(bytes: &[u8]) -> u64
    ensures { result ≡ plain_number bytes.now }
{
    match bytes {
        [a] => *a as u64,
        [a, b] => u16::from_le_bytes([*a, *b]) as u64,
        [a, b, c, d] => u32::from_le_bytes([*a, *b, *c, *d]) as u64,
        [a, b, c, d, e, f, g, h] => u64::from_le_bytes([*a, *b, *c, *d, *e, *f, *g, *h]),
        _ => 0,
    }
}

/// The number of 1, 2 or 4 bytes, with a sign.
#[inline(always)]
pub fn signed_of(bytes: &[u8]) -> i64
    ensures { result ≡ signed_of bytes.now }
{
    match bytes {
        [a] => a.cast_signed() as i64,
        [a, b] => i16::from_le_bytes([*a, *b]) as i64,
        [a, b, c, d] => i32::from_le_bytes([*a, *b, *c, *d]) as i64,
        _ => 0,
    }
}
