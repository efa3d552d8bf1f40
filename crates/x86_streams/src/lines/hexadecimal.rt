//! Numbers in hexadecimal, and bytes as pairs of digits. Each call writes at a place in cells, and returns the place
//! after what it wrote, as those of `cells`.

ghost use Rattle.std.specs.Prelude.{◌≡◌, ℕ, List, ◌+◌, ◌*◌, ◌/◌, ◌<◌, ◌≤◌, ◌^◌, ◌++◌, length, max, take};
ghost use Rattle.x86_streams.specs.Lines.Hexadecimal.{hexadecimal, pair, eight_digits, prefixed, spaced_byte, spaced_bytes};

use crate::lines::cells::{put, put_first};
use crate::lines::digits::{hex_of, put_hex_pair};

/// Writes the two digits of each of four bytes, the highest first.
#[inline(always)]
fn put_eight(cells: &mut [u8], at: usize, n: u32) -> usize
    requires { at + 8 ≤ length cells.old }
    ensures text { take result cells.new ≡ take at cells.old ++ eight_digits n }
    ensures place { result ≡ at + 8 }
{
    let at = put_hex_pair(cells, at, (n / 16_777_216) as u8);
    let at = put_hex_pair(cells, at, (n / 65_536 % 256) as u8);
    let at = put_hex_pair(cells, at, (n / 256 % 256) as u8);
    put_hex_pair(cells, at, (n % 256) as u8)
}

/// How many digits follow the first of a number of at most eight.
#[inline(always)]
fn digits_after_first(n: u32) -> u32
    ensures few { result ≤ 7 }
    ensures most { n < 2 ^ (4 * result + 4) }
    ensures least { 2 ^ (4 * result) ≤ max n 1 }
{
    n.max(1).ilog2() / 4
}

/// Writes a number of at most eight digits. It is moved so that its first digit is the first of eight: what is then
/// written after its own digits are zeros.
#[inline(always)]
fn put_at_most_eight(cells: &mut [u8], at: usize, n: u32) -> usize
    requires { at + 8 ≤ length cells.old }
    ensures text { take result cells.new ≡ take at cells.old ++ hexadecimal n }
    ensures short { result ≤ at + 8 }
{
    let last = digits_after_first(n);
    put_eight(cells, at, n << (28 - 4 * last));
    at + last as usize + 1
}

/// Writes a number of more than eight digits.
#[cold]
#[inline(never)]
fn put_more_than_eight(cells: &mut [u8], at: usize, n: u64) -> usize
    requires many { 2 ^ 32 ≤ n }
    requires room { at + 16 ≤ length cells.old }
    ensures text { take result cells.new ≡ take at cells.old ++ hexadecimal n }
    ensures short { result ≤ at + 16 }
{
    let at = put_at_most_eight(cells, at, (n / 4_294_967_296) as u32);
    put_eight(cells, at, (n % 4_294_967_296) as u32)
}

/// Writes a number of at most two digits.
#[inline(always)]
fn put_at_most_two(cells: &mut [u8], at: usize, byte: u8) -> usize
    requires { at + 2 ≤ length cells.old }
    ensures text { take result cells.new ≡ take at cells.old ++ hexadecimal byte }
    ensures short { result ≤ at + 2 }
{
    if byte < 16 {
        put(cells, at, hex_of(byte)[1])
    } else {
        put_hex_pair(cells, at, byte)
    }
}

/// Writes a number in lower case and without leading zeros, as `1f` of 31. It has at most sixteen digits.
#[inline(never)]
pub fn put_hexadecimal(cells: &mut [u8], at: usize, n: u64) -> usize
    requires { at + 16 ≤ length cells.old }
    ensures text { take result cells.new ≡ take at cells.old ++ hexadecimal n }
    ensures short { result ≤ at + 16 }
{
    if n < 256 {
        put_at_most_two(cells, at, n as u8)
    } else if n < 4_294_967_296 {
        put_at_most_eight(cells, at, n as u32)
    } else {
        put_more_than_eight(cells, at, n)
    }
}

/// Writes a number after `0x`.
#[inline(always)]
pub fn put_prefixed(cells: &mut [u8], at: usize, n: u64) -> usize
    requires { at + 18 ≤ length cells.old }
    ensures text { take result cells.new ≡ take at cells.old ++ prefixed n }
    ensures short { result ≤ at + 18 }
{
    let at = put_first(cells, at, b"0x", 2);
    put_hexadecimal(cells, at, n)
}

/// Writes the two digits of a byte, and a space. Another space is written after them.
#[inline(always)]
fn put_spaced_byte(cells: &mut [u8], at: usize, byte: u8) -> usize
    requires { at + 4 ≤ length cells.old }
    ensures text { take result cells.new ≡ take at cells.old ++ spaced_byte byte }
    ensures place { result ≡ at + 3 }
{
    put_first(cells, at, hex_of(byte), 3)
}

/// Writes the two digits of each byte, with a space after each, as `48 01 d8 `.
#[inline(always)]
pub fn put_spaced_bytes(cells: &mut [u8], at: usize, bytes: &[u8]) -> usize
    requires { at + 3 * length bytes.now + 1 ≤ length cells.old }
    ensures text { take result cells.new ≡ take at cells.old ++ spaced_bytes bytes.now }
    ensures place { result ≡ at + 3 * length bytes.now }
{
    let mut at = at;
    for byte in bytes {
        at = put_spaced_byte(cells, at, *byte);
    }
    at
}
