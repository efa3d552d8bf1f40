//! Room for bytes that are being gathered, and that of a line.

ghost use Rattle.std.specs.Prelude.{◌≡◌, ℕ, ◌+◌, ◌-◌, ◌*◌, ◌/◌, ◌%◌, ◌<◌, ◌≤◌, ◌++◌, ◌∷◌, [], length, take, drop, decimal};
ghost use Rattle.std.specs.Fmt.{signed_decimal};
ghost use Rattle.std.specs.Prelude.{MatchOption, IsUtf8};
ghost use Rattle.arrayvec.specs.ArrayVec.{array_vec_len};
ghost use Rattle.hex.specs.Hex.{encode_lower};

use crate::lines::cells::{put, put_bytes, put_first};
use crate::lines::digits::{pair_of, put_hex, put_hex_pair, put_signed, put_u8, put_u32, put_u64};
use std::alloc::AllocError;
use std::fmt;
use std::fmt::Display;
use std::marker::Model;
use std::str::from_utf8;

/// How many bytes a line has room for, its end included. The longest line of x86_text and its end have as many.
pub const LINE_ROOM: usize = 192;

/// The most bytes of a line without its end.
pub const LINE_MAX: usize = 191;

/// At most `N` bytes, which contracts see as those of an `ArrayVec`. What is let go isn't blanked.
///
/// The fields are public for the calls of `cells` and `digits`, which write a text by its pieces. The prover requires
/// of whoever writes them that the length is at most `N`.
#[derive(Drop)]
pub struct Room<const N: usize> {
    /// The bytes, and then cells of which no clause says anything.
    pub cells: [u8; N],
    /// How many bytes there are.
    pub len: usize,
}

/// The text of one line, with room for its end.
///
/// ```
/// let mut line = Line::new();
/// line.extend(b"at ");
/// line.push_u64(4);
/// println!(rt; "{line}")?; // at 4
/// ```
pub type Line = Room<LINE_ROOM>;

impl<const N: usize> Model for Room<N> {
    ghost use Rattle.std.specs.Prelude.{ℕ, ◌≡◌, ◌≤◌, length, take};
    ghost use Rattle.arrayvec.specs.ArrayVec.{ArrayVec as Items};

    ghost Value = { Items ℕ };

    ghost view = { λ l. record { items = take l.len l.cells } };

    ghost invariant = { λ l. l.len ≤ N };
}

impl<const N: usize> Room<N> {
    /// Nothing yet.
    pub fn new() -> Room<N>
        ensures { result.items ≡ [] }
    {
        Room {
            cells: [0; N],
            len: 0,
        }
    }

    /// Takes all bytes away.
    #[inline(always)]
    pub fn clear(&mut self)
        ensures { self.new.items ≡ [] }
    {
        self.len = 0;
    }

    /// Writes the two digits of a number below 100 over the last two bytes.
    #[inline(always)]
    pub fn set_last_digits(&mut self, n: u64)
        requires pair { n < 100 }
        requires some { 2 ≤ array_vec_len self.old }
        ensures { self.new.items ≡ take (array_vec_len self.old - 2) self.old.items ++
            (48 + n / 10) ∷ (48 + n % 10) ∷ [] }
    {
        let _ = put_first(&mut self.cells, self.len - 2, pair_of(n), 2);
    }

    /// Writes the two hex digits of a byte over the last two bytes.
    #[inline(always)]
    pub fn set_last_hex(&mut self, byte: u8)
        requires { 2 ≤ array_vec_len self.old }
        ensures { self.new.items ≡ take (array_vec_len self.old - 2) self.old.items
            ++ encode_lower (byte ∷ []) }
    {
        let _ = put_hex_pair(&mut self.cells, self.len - 2, byte);
    }

    /// Appends the bytes of a room, all of whose cells are copied. Only rooms of a power of two, at most 64 bytes, can be
    /// compiled.
    #[inline(always)]
    pub fn append<const M: usize>(&mut self, bytes: &Room<M>)
        requires { array_vec_len self.old + M ≤ N }
        ensures text { self.new.items ≡ self.old.items ++ bytes.now.items }
        ensures len { array_vec_len self.new ≡ array_vec_len self.old + array_vec_len bytes.now }
    {
        self.len = put_first(&mut self.cells, self.len, &bytes.cells, bytes.len);
    }

    /// Lets the bytes after the first go.
    #[inline(always)]
    pub fn truncate(&mut self, count: usize)
        requires { count ≤ array_vec_len self.old }
        ensures { self.new.items ≡ take count self.old.items }
    {
        self.len = count;
    }

    /// Lets the first bytes go.
    pub fn leave(&mut self, count: usize)
        requires { count ≤ array_vec_len self.old }
        ensures { self.new.items ≡ drop count self.old.items }
    {
        let len = self.len;
        self.cells.copy_within(count..len, 0);
        self.len = len - count;
    }

    /// The bytes.
    #[inline(always)]
    pub fn as_slice(&self) -> &[u8]
        ensures { result.now ≡ self.now.items }
    {
        &self.cells[..self.len]
    }

    /// The bytes as text, or `None` where they aren't UTF-8.
    pub fn as_str(&self) -> Option<&str>
        ensures { MatchOption result (¬ (IsUtf8 self.now.items))
            (λ text. text.now ≡ self.now.items) }
    {
        match from_utf8(self.as_slice()) {
            Ok(text) => Some(text),
            Err(_) => None,
        }
    }

    /// How many bytes there are.
    #[inline(always)]
    pub fn len(&self) -> usize
        ensures { result ≡ array_vec_len self.now }
    {
        self.len
    }

    /// How many bytes still fit.
    #[inline(always)]
    pub fn left(&self) -> usize
        ensures { array_vec_len self.now + result ≡ N }
    {
        N - self.len
    }

    /// Appends a byte.
    #[inline(always)]
    pub fn push(&mut self, byte: u8)
        requires { array_vec_len self.old + 1 ≤ N }
        ensures text { self.new.items ≡ self.old.items ++ byte ∷ [] }
        ensures len { array_vec_len self.new ≡ array_vec_len self.old + 1 }
    {
        self.len = put(&mut self.cells, self.len, byte);
    }

    /// Appends bytes.
    #[inline(always)]
    pub fn extend(&mut self, bytes: &[u8])
        requires { array_vec_len self.old + length bytes.now ≤ N }
        ensures text { self.new.items ≡ self.old.items ++ bytes.now }
        ensures len { array_vec_len self.new ≡ array_vec_len self.old + length bytes.now }
    {
        self.len = put_bytes(&mut self.cells, self.len, bytes);
    }

    /// Appends the hex digits of some bytes.
    pub fn push_hex(&mut self, bytes: &[u8])
        requires { array_vec_len self.old + 2 * length bytes.now ≤ N }
        ensures text { self.new.items ≡ self.old.items ++ encode_lower bytes.now }
        ensures len { array_vec_len self.new ≡ array_vec_len self.old + 2 * length bytes.now }
    {
        self.len = put_hex(&mut self.cells, self.len, bytes);
    }

    /// Appends the decimal of a number.
    #[inline(always)]
    pub fn push_u64(&mut self, n: u64)
        requires { array_vec_len self.old + 20 ≤ N }
        ensures text { self.new.items ≡ self.old.items ++ decimal n }
        ensures short { array_vec_len self.new ≤ array_vec_len self.old + 20 }
    {
        self.len = put_u64(&mut self.cells, self.len, n);
    }

    /// Appends the decimal of a number, which has at most ten digits.
    #[inline(always)]
    pub fn push_u32(&mut self, n: u32)
        requires { array_vec_len self.old + 10 ≤ N }
        ensures text { self.new.items ≡ self.old.items ++ decimal n }
        ensures short { array_vec_len self.new ≤ array_vec_len self.old + 10 }
    {
        self.len = put_u32(&mut self.cells, self.len, n);
    }

    /// Appends the decimal of a number, which has at most three digits.
    #[inline(always)]
    pub fn push_u8(&mut self, n: u8)
        requires { array_vec_len self.old + 3 ≤ N }
        ensures text { self.new.items ≡ self.old.items ++ decimal n }
        ensures short { array_vec_len self.new ≤ array_vec_len self.old + 3 }
    {
        self.len = put_u8(&mut self.cells, self.len, n);
    }

    /// Appends the decimal of a number with its sign.
    #[inline(always)]
    pub fn push_i64(&mut self, n: i64)
        requires { array_vec_len self.old + 20 ≤ N }
        ensures text { self.new.items ≡ self.old.items ++ signed_decimal n }
        ensures short { array_vec_len self.new ≤ array_vec_len self.old + 20 }
    {
        self.len = put_signed(&mut self.cells, self.len, n);
    }
}

impl<const N: usize> Clone for Room<N> {
    ghost use Rattle.std.specs.Prelude.{◌≡◌, ⊤};

    ghost is_clone = { λ room copy. copy ≡ room };

    ghost is_infallible = { λ _. ⊤ };

    /// The same bytes. This takes no memory, and never fails.
    fn clone(&self) -> Result<Room<N>, AllocError> {
        Ok(Room {
            cells: self.cells,
            len: self.len,
        })
    }
}

impl<const N: usize> Display for Room<N> {
    ghost use Rattle.std.specs.Prelude.{Some};
    ghost use Rattle.std.specs.Fmt.{padded};

    ghost output = { λ room. Some room.items };

    ghost styled_output = { λ room spec. Some (padded spec room.items) };

    /// Writes the bytes as text, with the width, fill and precision of the format. Where they aren't UTF-8, this is an
    /// error of the formatter.
    fn fmt<W: fmt::Write>(&self, f: &mut fmt::Formatter<W>) -> fmt::Result {
        match self.as_str() {
            Some(text) => f.pad(text),
            None => Err(fmt::Error),
        }
    }
}
