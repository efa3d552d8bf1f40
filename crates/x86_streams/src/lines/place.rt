//! Places in an image.

ghost use Rattle.std.specs.Prelude.{◌≡◌, ℕ, ◌+◌, ◌≤◌, ◌<◌, ◌^◌, decimal};
ghost use Rattle.arrayvec.specs.ArrayVec.{array_vec_len};

use crate::lines::room::Room;
use std::marker::Model;

/// A place in an image that increases.
pub trait Counter {
    /// How many bytes of the image are before it.
    ghost place: { Self → ℕ };

    /// The address at which the image begins.
    ghost base: { Self → ℕ };

    /// How many bytes of the image are before it.
    fn place(&self) -> u64
        ensures { result ≡ place self.now };

    /// Increases the place by so many bytes.
    fn advance(&mut self, by: u64)
        requires { place self.old + by < 2 ^ 64 }
        ensures place { place self.new ≡ place self.old + by }
        ensures base { base self.new ≡ base self.old };
}

/// A place in an image, with its decimal. As the place increases, only the digits that change are written.
#[derive(Drop)]
pub struct Place {
    /// The place at which all digits are written again.
    end: u64,
    /// How far it is to there.
    spare: u64,
    digits: Room<32>,
}

impl Model for Place {
    ghost use Rattle.std.specs.Prelude.{ℕ, ◌≡◌, ◌≤◌, ◌<◌, ◌+◌, ◌-◌, ◌%◌, decimal, length};

    ghost Value = { ℕ };

    ghost view = { λ p. p.end - p.spare };

    ghost invariant = { λ p. (p.digits.items ≡ decimal (p.end - p.spare)) ×
        (0 < p.spare → (100 ≤ p.end - p.spare) × (p.spare + (p.end - p.spare) % 100 ≡ 100)) ×
        (length p.digits.items ≤ 20) × (p.spare ≤ p.end) };
}

impl Place {
    /// A place by its number.
    pub fn at(number: u64) -> Place
        ensures { result ≡ number }
    {
        let mut digits = Room::new();
        digits.push_u64(number);
        Place {
            end: number,
            spare: 0,
            digits,
        }
    }

    /// The decimal.
    #[inline(always)]
    pub fn digits(&self) -> &Room<32>
        ensures text { result.now.items ≡ decimal self.now }
        ensures short { array_vec_len result.now ≤ 20 }
    {
        &self.digits
    }

    /// Goes on by so many bytes, and writes all digits. Below 100 the last two never change alone.
    #[inline(never)]
    fn renew(&mut self, by: u64)
        requires { self.old + by < 2 ^ 64 }
        ensures { self.new ≡ self.old + by }
    {
        let number = self.end - self.spare + by;
        self.spare = if number < 100 || number > u64::MAX - 100 {
            0
        } else {
            100 - number % 100
        };
        self.end = number + self.spare;
        self.digits.clear();
        self.digits.push_u64(number);
    }
}

impl Counter for Place {
    ghost place = { λ p. p };

    ghost base = { λ p. 0 };

    #[inline(always)]
    fn place(&self) -> u64 {
        self.end - self.spare
    }

    #[inline(always)]
    fn advance(&mut self, by: u64) {
        if by < self.spare {
            self.spare -= by;
            self.digits.set_last_digits(100 - self.spare);
        } else {
            self.renew(by);
        }
    }
}
