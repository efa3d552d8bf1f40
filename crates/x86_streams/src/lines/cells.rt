//! Writing bytes at a place in cells. Each call returns the place after what it wrote.
//!
//! A call keeps the cells before its place, and may change those after the place that it returns. So the pieces of a
//! text are written in their order.
//!
//! ```
//! let at = put(&mut line.cells, line.len, b' ');
//! line.len = put_bytes(&mut line.cells, at, b"rax");
//! ```

ghost use Rattle.std.specs.Prelude.{◌≡◌, ◌+◌, ◌*◌, ◌≤◌, ◌++◌, ◌∷◌, [], length, take};

use std::simd::Simd;

/// Writes a byte.
#[inline(always)]
pub fn put(cells: &mut [u8], at: usize, byte: u8) -> usize
    requires { at + 1 ≤ length cells.old }
    ensures text { take result cells.new ≡ take at cells.old ++ byte ∷ [] }
    ensures place { result ≡ at + 1 }
{
    cells[at] = byte;
    at + 1
}

/// Writes the first bytes of a block. The whole block is copied, which takes no loop. Only blocks of a power of two, at
/// most 64 bytes, can be compiled.
#[inline(always)]
pub fn put_first<const M: usize>(
    cells: &mut [u8],
    at: usize,
    block: &[u8; M],
    count: usize,
) -> usize
    requires room { at + M ≤ length cells.old }
    requires count { count ≤ M }
    ensures text { take result cells.new ≡ take at cells.old ++ take count block.now }
    ensures place { result ≡ at + count }
{
    Simd::<u8, M>::from_slice(block).copy_to_slice(&mut cells[at..]);
    at + count
}

/// Writes bytes. Where their number is known, and a power of two, `put_first` is quicker.
#[inline(always)]
pub fn put_bytes(cells: &mut [u8], at: usize, bytes: &[u8]) -> usize
    requires { at + length bytes.now ≤ length cells.old }
    ensures text { take result cells.new ≡ take at cells.old ++ bytes.now }
    ensures place { result ≡ at + length bytes.now }
{
    let end = at + bytes.len();
    copy_short(&mut cells[at..end], bytes);
    end
}

/// Copies bytes. Of 16 to 64, as a line mostly has, this takes no loop.
#[inline(always)]
fn copy_short(to: &mut [u8], from: &[u8])
    requires { length to.old ≡ length from.now }
    ensures { to.new ≡ from.now }
{
    let count = from.len();
    if count >= 16 && count <= 32 {
        copy_ends::<16>(to, from);
    } else if count > 32 && count <= 64 {
        copy_ends::<32>(to, from);
    } else {
        to.copy_from_slice(from);
    }
}

/// Copies `M` to twice `M` bytes, as two blocks that may overlap.
#[inline(always)]
fn copy_ends<const M: usize>(to: &mut [u8], from: &[u8])
    requires same { length to.old ≡ length from.now }
    requires least { M ≤ length from.now }
    requires most { length from.now ≤ 2 * M }
    ensures { to.new ≡ from.now }
{
    let last = from.len() - M;
    Simd::<u8, M>::from_slice(from).copy_to_slice(to);
    Simd::<u8, M>::from_slice(&from[last..]).copy_to_slice(&mut to[last..]);
}
