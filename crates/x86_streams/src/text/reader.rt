//! Hex text, read block by block.

ghost use Rattle.std.specs.Prelude.{◌≡◌, ◌+◌, ◌≤◌, [], drop, length, take};
ghost use Rattle.x86_streams.specs.Text.Reader.{ReadsBlock};

use crate::outside::input::{Input, read_some};
use std::io;
use std::marker::Model;

/// How many bytes one read may return.
const BLOCK: usize = 65536;

/// Room for those, and for half a pair that is left of the block before.
const ROOM: usize = BLOCK + 1;

/// How a text ends.
#[derive(Clone, Copy, Drop)]
pub enum Ending {
    /// At the end of what is read, and not inside a pair.
    Clean,
    /// At the position of a byte that isn't allowed there, or at the end inside a pair.
    Bad(u64),
    /// At a byte more than may be taken.
    Large,
    /// At a read that failed.
    Fault,
}

/// A text as far as it was read: the bytes that aren't taken yet, their position in it, and the position up to which
/// bytes may be taken.
#[derive(Drop)]
pub struct TextReader {
    block: [u8; ROOM],
    at: usize,
    filled: usize,
    position: u64,
    end: u64,
}

impl Model for TextReader {
    ghost use Rattle.std.specs.Prelude.{◌<◌, ◌≤◌, ◌-◌, ◌^◌, drop, take};
    ghost use Rattle.x86_streams.specs.Text.Reader.{TextPosition};

    ghost Value = { TextPosition };

    ghost view = { λ r. record {
      position = r.position;
      room = r.end - r.position;
      unread = drop r.at (take r.filled r.block);
    } };

    ghost invariant = { λ r. (r.at ≤ r.filled) × (r.filled ≤ 65537) × (r.position ≤ r.end)
        × (r.end < 2 ^ 64) };
}

impl TextReader {
    /// A reader of a text of at most `max` bytes, with nothing read.
    pub fn new(max: u64) -> TextReader
        ensures position { result.position ≡ 0 }
        ensures room { result.room ≡ max }
        ensures unread { result.unread ≡ [] }
    {
        TextReader {
            block: [0; ROOM],
            at: 0,
            filled: 0,
            position: 0,
            end: max,
        }
    }

    /// The position after so many of the bytes that may be taken.
    pub fn position_after(&self, count: u64) -> u64
        requires { count ≤ self.now.room }
        ensures { result ≡ self.now.position + count }
    {
        self.position + count
    }

    /// How many bytes may still be taken.
    pub fn room(&self) -> u64
        ensures { result ≡ self.now.room }
    {
        self.end - self.position
    }

    /// The bytes that were read and not taken.
    pub fn unread(&self) -> &[u8]
        ensures { result.now ≡ self.now.unread }
    {
        &self.block[self.at..self.filled]
    }

    /// Those of them that may be taken.
    #[inline(always)]
    pub fn within(&self) -> &[u8]
        ensures { result.now ≡ take self.now.room self.now.unread }
    {
        let unread = &self.block[self.at..self.filled];
        let count = (unread.len() as u64).min(self.end - self.position);
        &unread[..count as usize]
    }

    /// Takes bytes.
    #[inline(always)]
    pub fn advance_by(&mut self, count: usize)
        requires unread { count ≤ length self.old.unread }
        requires room { count ≤ self.old.room }
        ensures position { self.new.position ≡ self.old.position + count }
        ensures room { self.new.room + count ≡ self.old.room }
        ensures unread { self.new.unread ≡ drop count self.old.unread }
    {
        self.at += count;
        self.position += count as u64;
    }

    /// Reads on, where at most half a pair is left. It returns how many bytes were read.
    #[tactic(auto, using(crate::proofs::TextLemmas::Cells::read_after, crate::proofs::TextLemmas::Cells::read_none))]
    pub fn read<R, I: Input<R>>(&mut self, input: &I, reader: &mut R) -> io::Result<usize>
        requires { length self.old.unread ≤ 1 }
        ensures reads { ReadsBlock I.reads result self.old.unread self.new.unread
            reader.old reader.new }
        ensures position { self.new.position ≡ self.old.position }
        ensures room { self.new.room ≡ self.old.room }
    {
        let left = self.filled - self.at;
        self.block.copy_within(self.at..self.filled, 0);
        self.at = 0;
        self.filled = left;
        let count = read_some(input, reader, &mut self.block[left..left + BLOCK])?;
        self.filled = left + count;
        Ok(count)
    }
}
