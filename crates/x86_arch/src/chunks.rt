//! A reader of two slices, one after the other.

ghost use Rattle.std.specs.Prelude.{◌≡◌, ◌+◌, ◌-◌, ◌<◌, ◌≤◌, ◌^◌, ◌++◌, drop, length};

use crate::{ReadError, Reader};

/// A reader of the bytes of two slices, as if they were one slice.
#[derive(Drop)]
pub struct ChunkReader<'a> {
    first: &'a [u8],
    rest: &'a [u8],
    place: usize,
    mark: usize,
    ghost in_range: { (mark ≤ place) × (place ≤ length first.now + length rest.now) ×
        (length first.now + length rest.now < 2 ^ 64) },
}

impl<'a> ChunkReader<'a> {
    /// The bytes of `first` are left, and then those of `rest`. A number may lie across the seam.
    pub fn new(first: &'a [u8], rest: &'a [u8]) -> ChunkReader<'a>
        requires { length first.now + length rest.now ≤ usize.MAX }
        ensures { ⟦<ChunkReader<'a> as Reader<u64, u8>>⟧.state result ≡
            record { left = first.now ++ rest.now; since_mark = 0; since_made = 0 } }
    {
        ChunkReader {
            first,
            rest,
            place: 0,
            mark: 0,
        }
    }
}

impl Reader<u64, u8> for ChunkReader<'_> {
    ghost state = { λ r. record { left = drop r.place (r.first.now ++ r.rest.now); since_mark = r.place - r.mark; since_made = r.place } };

    fn next(&mut self) -> Result<u8, ReadError> {
        let seam = self.first.len();
        if self.place < seam {
            let item = self.first[self.place];
            self.place += 1;
            Ok(item)
        } else if self.place - seam < self.rest.len() {
            let item = self.rest[self.place - seam];
            self.place += 1;
            Ok(item)
        } else {
            Err(ReadError::ExhaustedInput)
        }
    }

    fn next_n(&mut self, buf: &mut [u8]) -> Result<(), ReadError> {
        let seam = self.first.len();
        if seam + self.rest.len() - self.place < buf.len() {
            return Err(ReadError::ExhaustedInput);
        }
        let end = self.place + buf.len();
        if end <= seam {
            buf.copy_from_slice(&self.first[self.place..end]);
        } else if seam <= self.place {
            buf.copy_from_slice(&self.rest[self.place - seam..end - seam]);
        } else {
            let (before, tail) = buf.split_at_mut(seam - self.place);
            before.copy_from_slice(&self.first[self.place..]);
            tail.copy_from_slice(&self.rest[..end - seam]);
        }
        self.place = end;
        Ok(())
    }

    fn mark(&mut self) {
        self.mark = self.place;
    }

    fn offset(&mut self) -> u64 {
        (self.place - self.mark) as u64
    }

    fn total_offset(&mut self) -> u64 {
        self.place as u64
    }
}
