//! A reader that yields at most the fifteen bytes that an encoding may have (Intel SDM volume 2, section 2.3.11).
ghost use Rattle.std.specs.Prelude.{◌≡◌, ℕ, ◌-◌, ◌≤◌, nat_le, Bool, false, [], length, IsTrue};
ghost use Rattle.x86_arch.specs.Reader.{State, advanced};
ghost use Rattle.x86_decode.specs.Bound.{bounded, HasAdvanced};

use std::marker::{Brand, PhantomData};
use x86_arch::{ReadError, Reader};

/// Where a bounded reader began, and over which reference.
pub trait Start {
    ghost name: { ℕ };

    ghost state: { State ℕ };
}

impl Start for Brand {
    ghost name = { 0 };

    ghost state = { record { left = []; since_mark = 0; since_made = 0 } };
}

/// A reader of at most `allowed` items.
pub struct Bounded<'a, T: Reader<u64, u8>, K: Start> {
    pub reader: &'a mut T,
    pub allowed: u8,
    pub start: PhantomData<K>,
    ghost few: { allowed ≤ 15 },
    ghost same_reference: { reader.ghost_name ≡ K.name },
    ghost moved: { HasAdvanced (15 - allowed) K.state (T.state reader.now) },
}

impl<T: Reader<u64, u8>, K: Start> Reader<u64, u8> for Bounded<'_, T, K> {
    ghost state = { λ r. bounded r.allowed (T.state r.reader.now) };

    fn next(&mut self) -> Result<u8, ReadError> {
        if self.allowed == 0 {
            return Err(ReadError::ExhaustedInput);
        }
        let item = self.reader.next()?;
        self.allowed -= 1;
        Ok(item)
    }

    fn next_n(&mut self, buf: &mut [u8]) -> Result<(), ReadError> {
        if buf.len() > self.allowed as usize {
            return Err(ReadError::ExhaustedInput);
        }
        self.reader.next_n(buf)?;
        self.allowed -= buf.len() as u8;
        Ok(())
    }

    fn mark(&mut self) {
        self.reader.mark();
    }

    fn offset(&mut self) -> u64 {
        self.reader.offset()
    }

    fn total_offset(&mut self) -> u64 {
        self.reader.total_offset()
    }
}

/// Whether the items still allowed are there; then they are taken.
pub fn takes_rest<T: Reader<u64, u8>>(reader: &mut T, allowed: u8) -> bool
    requires { allowed ≤ 15 }
    ensures there { result ≡ nat_le allowed (length (T.state reader.old).left) }
    ensures taken { IsTrue result → T.state reader.new ≡ advanced allowed (T.state reader.old) }
    ensures unmoved { result ≡ false → T.state reader.new ≡ T.state reader.old }
{
    let mut buffer = [0; 15];
    reader.next_n(&mut buffer[..allowed as usize]).is_ok()
}
