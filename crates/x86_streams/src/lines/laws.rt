//! Laws of a room as a value of std's traits, and of places.

ghost use Rattle.std.specs.Prelude.{◌≡◌, ℕ, Some};
ghost use Rattle.arrayvec.specs.ArrayVec.{ArrayVec};
ghost use Rattle.std.specs.Fmt.{padded};
ghost use Rattle.x86_streams.specs.Lines.Address.{ImagePlace};

use crate::lines::address::Address;
use crate::lines::place::{Counter, Place};
use crate::lines::room::Room;
use std::fmt::Display;

/// A clone of a room is the room, and is always made.
pub fn clones<const N: usize>()
    ensures same { (room copy : ArrayVec ℕ) →
        ⟦<Room<N> as Clone>⟧.is_clone room copy → copy ≡ room }
    ensures made { (room : ArrayVec ℕ) → ⟦<Room<N> as Clone>⟧.is_infallible room }
{}

/// How many bytes of an image are before a place, and where the image begins.
pub fn places()
    ensures place { (p : ℕ) → ⟦<Place as Counter>⟧.place p ≡ p }
    ensures first { (p : ℕ) → ⟦<Place as Counter>⟧.base p ≡ 0 }
    ensures address { (a : ImagePlace) → ⟦<Address as Counter>⟧.place a ≡ a.place }
    ensures base { (a : ImagePlace) → ⟦<Address as Counter>⟧.base a ≡ a.base }
{}

/// A room is printed as its bytes, padded as the format says.
pub fn prints<const N: usize>()
    ensures plain { (room : ArrayVec ℕ) → ⟦<Room<N> as Display>⟧.output room ≡ Some room.items }
    ensures padded { (room : ArrayVec ℕ) (spec : _) →
        ⟦<Room<N> as Display>⟧.styled_output room spec ≡ Some (padded spec room.items) }
{}
