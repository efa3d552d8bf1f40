//! Pairs of digits, read many at once.

ghost use Rattle.std.specs.Prelude.{◌≡◌, ℕ, ◌+◌, ◌*◌, ◌%◌, ◌<◌, ◌≤◌, length, slice_index_or, take, List, Some, true};
ghost use Rattle.x86_streams.specs.Text.{is_blank, value_of};
ghost use Rattle.x86_streams.specs.Text.Spells.{Spells};

use crate::text::kinds::{Kind, kind_of};

/// How many pairs a block has.
pub const BLOCK: usize = 16;

/// How many digits a block has.
const DIGITS: usize = 2 * BLOCK;

/// How many bytes a block has with a blank between each two pairs.
const SPACED: usize = 3 * BLOCK - 1;

/// The fewest pairs that are read as a block.
const RUN_MIN: usize = 8;

/// The most pairs that are read one by one.
const LINE: usize = 48;

/// The value of a digit. That of another byte is above 15.
#[inline(always)]
#[tactic(auto, unfolding(crate::specs::Text::value_of))]
fn digit_of(byte: u8) -> u8
    ensures { result < 16 → value_of byte ≡ Some result }
{
    let number = byte.wrapping_sub(b'0');
    let decimal = if number < 10 { number } else { 255 };
    let capital = byte.wrapping_sub(b'A').saturating_add(10);
    let small = byte.wrapping_sub(b'a').saturating_add(10);
    decimal.min(capital).min(small)
}

/// The values of the digits from a place on.
#[inline(always)]
#[tactic(auto, using(crate::proofs::TextLemmas::Spells::more_set))]
fn digits_at(text: &[u8], at: usize) -> [u8; DIGITS]
    requires { at + 32 ≤ length text.now }
    ensures { (k : ℕ) → k < 32 → slice_index_or result k 0 < 16 →
        value_of (slice_index_or text.now (at + k) 0) ≡ Some (slice_index_or result k 0) }
{
    let mut digits = [255; DIGITS];
    for i in 0..DIGITS {
        digits[i] = digit_of(text[at + i]);
    }
    digits
}

/// Whether all are values of digits.
#[inline(always)]
fn are_digits(digits: &[u8; DIGITS]) -> bool
    ensures { result ≡ true → (k : ℕ) → k < 32 → slice_index_or digits.now k 0 < 16 }
{
    let mut most = 0;
    for i in 0..DIGITS {
        most = most.max(digits[i]);
    }
    most < 16
}

/// How many pairs are before the first byte that is no digit.
#[inline(always)]
fn run_of(digits: &[u8; DIGITS]) -> usize
    ensures few { result ≤ 16 }
    ensures digits { (k : ℕ) → k < 2 * result → slice_index_or digits.now k 0 < 16 }
{
    if are_digits(digits) {
        return BLOCK;
    }
    let mut run = 0;
    while run < BLOCK && digits[2 * run] < 16 && digits[2 * run + 1] < 16 {
        run += 1;
    }
    run
}

/// Writes the values of pairs.
#[inline(always)]
fn put_values(digits: &[u8; DIGITS], values: &mut [u8], count: usize)
    requires { count + 16 ≤ length values.old }
    ensures before { take count values.new ≡ take count values.old }
    ensures values { (k : ℕ) → k < 16 → slice_index_or values.new (count + k) 0
        ≡ 16 * (slice_index_or digits.now (2 * k) 0 % 16)
        + slice_index_or digits.now (2 * k + 1) 0 % 16 }
{
    for i in 0..BLOCK {
        values[count + i] = 16 * (digits[2 * i] % 16) + digits[2 * i + 1] % 16;
    }
}

/// Reads the pairs at a position as one block, where enough of them are whole. It returns how many, and the position
/// after them.
#[inline(always)]
fn read_run(text: &[u8], at: usize, values: &mut [u8], count: usize) -> (usize, usize)
    requires inside { at + 32 ≤ length text.now }
    requires room { count + 16 ≤ length values.old }
    requires spells { Spells text.now at (take count values.old) }
    ensures few { result.0 ≤ 16 }
    ensures spells { Spells text.now result.1 (take (count + result.0) values.new) }
{
    let digits = digits_at(text, at);
    let run = run_of(&digits);
    if run < RUN_MIN {
        return (0, at);
    }
    put_values(&digits, values, count);
    (run, at + 2 * run)
}

/// The bytes of 16 pairs from a position on, between which there is one byte.
#[inline(always)]
#[tactic(auto, using(crate::proofs::TextLemmas::Spells::more_pair))]
fn spaced_at(text: &[u8], at: usize) -> [u8; DIGITS]
    requires { at + 47 ≤ length text.now }
    ensures { (k : ℕ) → k < 16 →
        (slice_index_or result (2 * k) 0 ≡ slice_index_or text.now (at + 3 * k) 0)
        × (slice_index_or result (2 * k + 1) 0 ≡ slice_index_or text.now (at + 3 * k + 1) 0) }
{
    let mut pairs = [0; DIGITS];
    for i in 0..BLOCK {
        pairs[2 * i] = text[at + 3 * i];
        pairs[2 * i + 1] = text[at + 3 * i + 1];
    }
    pairs
}

/// Whether the bytes between 16 pairs are blanks.
#[inline(always)]
fn are_spaced(text: &[u8], at: usize) -> bool
    requires { at + 47 ≤ length text.now }
    ensures { result ≡ true → (k : ℕ) → k < 15 →
        is_blank (slice_index_or text.now (at + 3 * k + 2) 0) ≡ true }
{
    for i in 0..BLOCK - 1 {
        if !matches!(kind_of(text[at + 3 * i + 2]), Kind::Blank) {
            return false;
        }
    }
    true
}

/// Reads 16 pairs with a blank between each two as one block, where all are whole. It returns as `read_run`.
#[inline(always)]
fn read_spaced(text: &[u8], at: usize, values: &mut [u8], count: usize) -> (usize, usize)
    requires inside { at + 47 ≤ length text.now }
    requires room { count + 16 ≤ length values.old }
    requires spells { Spells text.now at (take count values.old) }
    ensures few { result.0 ≤ 16 }
    ensures spells { Spells text.now result.1 (take (count + result.0) values.new) }
{
    if !are_spaced(text, at) {
        return (0, at);
    }
    let digits = digits_at(&spaced_at(text, at), 0);
    if !are_digits(&digits) {
        return (0, at);
    }
    put_values(&digits, values, count);
    (BLOCK, at + SPACED)
}

/// The position after the blanks at a position.
#[inline(always)]
#[tactic(auto, using(crate::proofs::TextLemmas::Spells::spells_blank))]
fn after_blanks(text: &[u8], from: usize) -> usize
    requires { from ≤ length text.now }
    ensures inside { result ≤ length text.now }
    ensures spells { (values : List ℕ) → Spells text.now from values →
        Spells text.now result values }
{
    let mut at = from;
    'blanks: while at < text.len() && matches!(kind_of(text[at]), Kind::Blank) {
        at += 1;
    }
    at
}

/// The position after the one blank at a position, or that position.
#[inline(always)]
#[tactic(auto, using(crate::proofs::TextLemmas::Spells::spells_blank))]
fn after_blank(text: &[u8], at: usize) -> usize
    requires { at < length text.now }
    ensures ordered { at ≤ result }
    ensures near { result ≤ at + 1 }
    ensures spells { (values : List ℕ) → Spells text.now at values →
        Spells text.now result values }
{
    match kind_of(text[at]) {
        Kind::Blank => at + 1,
        Kind::Digit(_) | Kind::Other => at,
    }
}

/// Reads pairs from a position on, and the blanks between them, up to the end of the line, at most 48 of them.
/// It returns how many there are then, and the position.
#[inline(never)]
fn read_line(text: &[u8], from: usize, values: &mut [u8], before: usize) -> (usize, usize)
    requires room { before + 48 ≤ length values.old }
    requires spells { Spells text.now from (take before values.old) }
    ensures more { before ≤ result.0 }
    ensures fits { result.0 ≤ before + 48 }
    ensures spells { Spells text.now result.1 (take result.0 values.new) }
{
    let most = before + LINE;
    let mut at = from;
    let mut count = before;
    'pairs: while count < most && at + 2 < text.len() && text[at] != b'\n' {
        let first = after_blank(text, at);
        match kind_of(text[first]) {
            Kind::Blank => at = first + 1,
            Kind::Other => break 'pairs,
            Kind::Digit(high) => {
                let Kind::Digit(low) = kind_of(text[first + 1]) else {
                    break 'pairs;
                };
                values[count] = 16 * high + low;
                at = first + 2;
                count += 1;
            }
        }
    }
    (count, at)
}

/// Reads more pairs from a position on, after the bytes that there are. It returns how many bytes there are then, and
/// the position.
#[inline(always)]
pub fn read_more(text: &[u8], from: usize, values: &mut [u8], count: usize) -> (usize, usize)
    requires room { count + 48 ≤ length values.old }
    requires spells { Spells text.now from (take count values.old) }
    ensures more { count ≤ result.0 }
    ensures fits { result.0 ≤ count + 48 }
    ensures spells { Spells text.now result.1 (take result.0 values.new) }
{
    let at = after_blanks(text, from);
    if text.len() - at < SPACED {
        return read_line(text, at, values, count);
    }
    let (run, next) = if text[at + 2] == b' ' {
        read_spaced(text, at, values, count)
    } else {
        read_run(text, at, values, count)
    };
    if run == 0 {
        return read_line(text, next, values, count);
    }
    (count + run, next)
}
