//! The addresses of places in an image.

ghost use Rattle.std.specs.Prelude.{◌≡◌, ◌+◌, ◌<◌, ◌^◌};
ghost use Rattle.x86_streams.specs.Lines.Hexadecimal.{hexadecimal};
ghost use Rattle.x86_streams.specs.Lines.Address.{ImagePlace, address_number};

use crate::lines::hexadecimal::put_hexadecimal;
use crate::lines::place::Counter;
use crate::lines::room::Room;
use std::marker::Model;

/// A place in an image that begins at a base, with the digits of its address in hexadecimal. As the place increases, only
/// the digits that change are written.
#[derive(Drop)]
pub struct Address {
    base: u64,
    place: u64,
    digits: Room<16>,
    /// How far the last two digits still count on, and 0 where there are fewer than three.
    spare: u64,
}

impl Model for Address {
    ghost use Rattle.std.specs.Prelude.{◌≡◌, ◌≤◌, ◌<◌, ◌+◌, ◌%◌};
    ghost use Rattle.x86_streams.specs.Lines.Hexadecimal.{hexadecimal};
    ghost use Rattle.x86_streams.specs.Lines.Address.{ImagePlace, address_of};

    ghost Value = { ImagePlace };

    ghost view = { λ a. record { base = a.base; place = a.place } };

    ghost invariant = { λ a. (a.digits.items ≡ hexadecimal (address_of a.base a.place)) ×
        (0 < a.spare → (256 ≤ address_of a.base a.place)
        × (a.spare + address_of a.base a.place % 256 ≡ 256)) };
}

impl Address {
    /// The first place of an image that begins at a base.
    pub fn at(base: u64) -> Address
        ensures { result ≡ record { base = base; place = 0 } }
    {
        let mut digits = Room::new();
        digits.len = put_hexadecimal(&mut digits.cells, 0, base);
        Address {
            base,
            place: 0,
            digits,
            spare: 0,
        }
    }

    /// The address: the base and the place, modulo 2^64.
    #[inline(always)]
    pub fn number(&self) -> u64
        ensures { result ≡ address_number self.now }
    {
        self.base.wrapping_add(self.place)
    }

    /// The digits of the address, in lower case and without leading zeros.
    #[inline(always)]
    pub fn digits(&self) -> &Room<16>
        ensures { result.now.items ≡ hexadecimal (address_number self.now) }
    {
        &self.digits
    }

    /// Goes to a place, whose digits are all written.
    #[inline(never)]
    fn renew(&mut self, place: u64)
        ensures { self.new ≡ record { base = self.old.base; place = place } }
    {
        let address = self.base.wrapping_add(place);
        self.place = place;
        self.spare = if address < 256 {
            0
        } else {
            256 - address % 256
        };
        self.digits.len = put_hexadecimal(&mut self.digits.cells, 0, address);
    }
}

impl Counter for Address {
    ghost place = { λ a. a.place };

    ghost base = { λ a. a.base };

    #[inline(always)]
    fn place(&self) -> u64 {
        self.place
    }

    #[inline(always)]
    fn advance(&mut self, by: u64) {
        if by < self.spare {
            self.place += by;
            self.spare -= by;
            self.digits.set_last_hex((256 - self.spare) as u8);
        } else {
            self.renew(self.place + by);
        }
    }
}
