//! What a byte is in a text.

ghost use Rattle.x86_streams.specs.Text.Beginning.{IsKind};

/// What a byte is in a text.
#[derive(Clone, Copy, Drop)]
pub enum Kind {
    /// A hex digit, and its value.
    Digit(u8),
    Blank,
    Other,
}

/// The kinds of bytes, by a sign for each: the value of a digit, `+` for a blank, and `-` for another byte.
macro_rules! kinds {
    (@ +) => { Kind::Blank };
    (@ -) => { Kind::Other };
    (@ $value:literal) => { Kind::Digit($value) };
    ($($sign:tt)*) => { &[$(kinds!(@ $sign)),*] };
}

/// By the byte: sixteen on a line, followed by the first of them.
const KINDS: &[Kind; 256] = kinds![
    - - - - - - - - - + + - - + - - // 00
    - - - - - - - - - - - - - - - - // 10
    + - - - - - - - - - - - - - - - // 20
    0 1 2 3 4 5 6 7 8 9 - - - - - - // 30
    - 10 11 12 13 14 15 - - - - - - - - - // 40
    - - - - - - - - - - - - - - - - // 50
    - 10 11 12 13 14 15 - - - - - - - - - // 60
    - - - - - - - - - - - - - - - - // 70
    - - - - - - - - - - - - - - - - // 80
    - - - - - - - - - - - - - - - - // 90
    - - - - - - - - - - - - - - - - // A0
    - - - - - - - - - - - - - - - - // B0
    - - - - - - - - - - - - - - - - // C0
    - - - - - - - - - - - - - - - - // D0
    - - - - - - - - - - - - - - - - // E0
    - - - - - - - - - - - - - - - - // F0
];

/// What a byte is.
#[inline(always)]
pub fn kind_of(byte: u8) -> Kind
    ensures { IsKind result byte }
{
    KINDS[byte as usize]
}
