//! The bytes of an image that a window holds.

ghost use Rattle.std.specs.Prelude.{◌≡◌, ℕ, ◌+◌, ◌<◌, ◌≤◌, ◌++◌, ◌∷◌, [], length, drop, take, nat_le, ◌==◌};
ghost use Rattle.x86_streams.specs.Text.Spells.{Brings, Spells};
ghost use Rattle.x86_streams.specs.Text.Window.{instruction_max, taken_max, window_room};

use crate::text::pairs::read_more;
use std::marker::Model;

/// The most bytes that an instruction may have.
const INSTRUCTION_MAX: usize = 15;

/// From so many bytes on no more are read at once.
const ENOUGH: usize = 256;

/// Room for the bytes that are read at once, and for those before them.
const ROOM: usize = 320;

/// Bytes of an image: those from `start` to `end`. Those before were let go, and the rest is room.
#[derive(Drop)]
pub struct ImageBytes {
    values: [u8; ROOM],
    start: usize,
    end: usize,
}

impl Model for ImageBytes {
    ghost use Rattle.std.specs.Prelude.{ℕ, ◌≤◌, take, drop};
    ghost use Rattle.x86_streams.specs.Text.Window.{WindowBytes, window_room};

    ghost Value = { WindowBytes };

    ghost view = { λ b. record { items = drop b.start (take b.end b.values) } };

    ghost invariant = { λ b. (b.start ≤ b.end) × (b.end ≤ window_room) };
}

impl ImageBytes {
    /// No bytes.
    pub const NONE: ImageBytes = ImageBytes {
        values: [0; ROOM],
        start: 0,
        end: 0,
    };

    /// How many bytes there are.
    #[inline(always)]
    pub fn len(&self) -> usize
        ensures { result ≡ length self.now.items }
    {
        self.end - self.start
    }

    /// Whether there are as many bytes as an instruction may have.
    #[inline(always)]
    pub fn is_full(&self) -> bool
        ensures { result ≡ nat_le instruction_max (length self.now.items) }
    {
        INSTRUCTION_MAX <= self.len()
    }

    /// Whether there is no byte.
    #[inline(always)]
    pub fn is_empty(&self) -> bool
        ensures { result ≡ (length self.now.items == 0) }
    {
        self.len() == 0
    }

    /// The bytes, in order.
    #[inline(always)]
    pub fn as_slice(&self) -> &[u8]
        ensures { result.now ≡ self.now.items }
    {
        &self.values[self.start..self.end]
    }

    /// Lets the first bytes go.
    #[inline(always)]
    pub fn leave(&mut self, count: usize)
        requires { count ≤ length self.old.items }
        ensures { self.new.items ≡ drop count self.old.items }
    {
        self.start += count;
    }

    /// Appends a byte.
    pub fn push(&mut self, byte: u8)
        requires { length self.old.items < instruction_max }
        ensures { self.new.items ≡ self.old.items ++ byte ∷ [] }
    {
        let count = move_to_beginning(&mut self.values, self.start, self.end);
        self.values[count] = byte;
        self.start = 0;
        self.end = count + 1;
    }

    /// Appends bytes that the pairs at the beginning of a text spell. It returns how many bytes of the text were read.
    pub fn read(&mut self, text: &[u8]) -> usize
        requires { length self.old.items < instruction_max }
        ensures { Brings text.now result self.old.items self.new.items }
    {
        let before = move_to_beginning(&mut self.values, self.start, self.end);
        let (count, read) = read_pairs(text, &mut self.values[before..]);
        self.start = 0;
        self.end = before + count;
        read
    }
}

/// Moves the bytes of a range to the beginning. It returns how many they are.
#[tactic(auto, using(crate::proofs::TextLemmas::Cells::moved))]
fn move_to_beginning(values: &mut [u8; ROOM], start: usize, end: usize) -> usize
    requires ordered { start ≤ end }
    requires inside { end ≤ window_room }
    ensures bytes { take result values.new ≡ drop start (take end values.old) }
    ensures count { start + result ≡ end }
{
    values.copy_within(start..end, 0);
    end - start
}

/// Writes bytes that the pairs at the beginning of a text spell. It returns how many they are, and how many bytes of
/// the text were read.
fn read_pairs(text: &[u8], values: &mut [u8]) -> (usize, usize)
    requires { taken_max ≤ length values.old }
    ensures fits { result.0 ≤ taken_max }
    ensures spells { Spells text.now result.1 (take result.0 values.new) }
{
    let mut count = 0;
    let mut read = 0;
    'pairs: loop {
        let (more, next) = read_more(text, read, values, count);
        if more == count || ENOUGH <= more {
            return (more, next);
        }
        count = more;
        read = next;
    }
}
