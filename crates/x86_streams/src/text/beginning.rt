//! What a text begins with.

ghost use Rattle.x86_streams.specs.Text.Beginning.{IsBeginning};

use crate::text::kinds::{Kind, kind_of};

/// What a text begins with.
#[derive(Clone, Copy, Drop)]
pub enum Beginning {
    Blank,
    /// A pair of digits, and its value.
    Pair(u8),
    /// A byte that isn't allowed where it is: the first, or the second after a digit.
    Bad(u64),
    /// A byte more than may be taken.
    Large,
    /// Nothing, or a digit: the next bytes decide what.
    Open,
}

/// What a text begins with, of which `room` many bytes may be taken.
pub fn beginning_of(text: &[u8], room: u64) -> Beginning
    ensures { IsBeginning result text.now room }
{
    if text.is_empty() {
        return Beginning::Open;
    }
    if room == 0 {
        return Beginning::Large;
    }
    let high = match kind_of(text[0]) {
        Kind::Blank => return Beginning::Blank,
        Kind::Other => return Beginning::Bad(0),
        Kind::Digit(high) => high,
    };
    if text.len() == 1 {
        return Beginning::Open;
    }
    if room == 1 {
        return Beginning::Large;
    }
    match kind_of(text[1]) {
        Kind::Digit(low) => Beginning::Pair(16 * high + low),
        Kind::Blank | Kind::Other => Beginning::Bad(1),
    }
}
