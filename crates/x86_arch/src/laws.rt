//! What code over any reader learns, and what equality says.

ghost use Rattle.std.specs.Prelude.{◌≡◌, ◌↔◌, ℕ, ◌+◌, ◌<◌, ◌∷◌, [], length, take, IsTrue, IfOk, OnOk, OnErr};

use crate::{Address, AddressDiff, ReadError, Reader, U8Reader};

/// Over any reader `next` returns what it returns over a slice with the same bytes left: the same answer, and the
/// same count taken.
pub fn next_is_that_of_a_slice<T: Reader<u64, u8>>(
    reader: &mut T,
    bytes: &[u8],
) -> (Result<u8, ReadError>, Result<u8, ReadError>, u64)
    requires { (T.state reader.old).left ≡ bytes.now }
    ensures taken { IfOk result.0 (λ item. bytes.now ≡ item ∷ (T.state reader.new).left) }
    ensures none_left { OnErr result.0 (bytes.now ≡ []) }
    ensures same_answer { result.0 ≡ result.1 }
    ensures same_count { (T.state reader.new).since_made ≡
        (T.state reader.old).since_made + result.2 }
{
    let mut slice = U8Reader::new(bytes);
    let over_reader = reader.next();
    let over_slice = slice.next();
    (over_reader, over_slice, slice.total_offset())
}

/// Over any reader `next_n` returns what it returns over a slice with the same bytes left: the same answer, on Ok the
/// same bytes, and the same count taken.
pub fn next_n_is_that_of_a_slice<T: Reader<u64, u8>>(
    reader: &mut T,
    bytes: &[u8],
    over_reader: &mut [u8],
    over_slice: &mut [u8],
) -> (Result<(), ReadError>, Result<(), ReadError>, u64)
    requires same_left { (T.state reader.old).left ≡ bytes.now }
    requires same_room { length over_reader.old ≡ length over_slice.old }
    ensures filled { OnOk result.0 (over_reader.new ≡ take (length over_reader.old) bytes.now) }
    ensures too_few { OnErr result.0 (length bytes.now < length over_reader.old) }
    ensures same_answer { result.0 ≡ result.1 }
    ensures same_bytes { OnOk result.0 (over_reader.new ≡ over_slice.new) }
    ensures same_count { (T.state reader.new).since_made ≡
        (T.state reader.old).since_made + result.2 }
{
    let mut slice = U8Reader::new(bytes);
    let answer = reader.next_n(over_reader);
    let answer_over_slice = slice.next_n(over_slice);
    (answer, answer_over_slice, slice.total_offset())
}

/// A number of 64 bits counts as many items as it says.
pub fn addresses_are_their_numbers()
    ensures { (n : ℕ) → ⟦<u64 as Address>⟧.to_u64 n ≡ n }
{}

/// Distances are equal exactly where their numbers are, and any two refusals of a reader are equal.
pub fn values_are_equal()
    ensures distances { (a b : AddressDiff ℕ) →
        IsTrue (⟦<AddressDiff<u64> as PartialEq>⟧.eq a b) ↔ (a ≡ b) }
    ensures refusals { (a b : ReadError) → IsTrue (⟦<ReadError as PartialEq>⟧.eq a b) ↔ (a ≡ b) }
{}
