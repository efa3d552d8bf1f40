//! The lines of a listing: an address, the bytes, and what they are.

ghost use Rattle.std.specs.Prelude.{◌≡◌, ◌+◌, ◌*◌, ◌<◌, ◌≤◌, ◌++◌, Err, MatchResult, Ok, length, take};
ghost use Rattle.arrayvec.specs.ArrayVec.{array_vec_len};
ghost use Rattle.x86_decode.specs.Answer.{answer_of};
ghost use Rattle.x86_decode.specs.Decoder.{is_strict};
ghost use Rattle.x86_decode.specs.Instruction.{length_of};
ghost use Rattle.x86_streams.specs.Lines.Address.{address_number};
ghost use Rattle.x86_objdump.specs.Lines.{shown_room, column, beginning, shown_line, vector_text, refused_text};

use crate::text::put_instruction;
use x86_cli::laws::decoder_laws;
use x86_cli::listings::listing::length_of;
use x86_decode::laws::lengths;
use x86_decode::{DecodeError, InstDecoder, Instruction};
use x86_streams::lines::cells::{put, put_bytes, put_first};
use x86_streams::lines::hexadecimal::put_spaced_bytes;
use x86_streams::lines::{Address, Room};

/// How many bytes a line has room for, its end included.
pub const SHOWN_ROOM: usize = 528;

/// The text of one line, with room for its end.
pub type ShownLine = Room<SHOWN_ROOM>;

/// Writes so many of the first seven bytes in a column that is as wide as they are: all of them, and blanks over the others.
/// So no loop depends on the number.
#[inline(always)]
fn put_some_of_seven(cells: &mut [u8], at: usize, known: &[u8], count: usize) -> usize
    requires there { 7 ≤ length known.now }
    requires few { count ≤ 7 }
    requires room { at + 64 ≤ length cells.old }
    ensures text { take result cells.new ≡ take at cells.old ++ column (take count known.now) }
    ensures short { result ≤ at + 21 }
{
    put_spaced_bytes(cells, at, &known[..7]);
    put_first(
        cells,
        at + 3 * count,
        b"                                ",
        21 - 3 * count,
    )
}

/// Writes bytes in a column that is as wide as seven of them, or wider where they are more.
#[inline(never)]
fn put_any_bytes(cells: &mut [u8], at: usize, bytes: &[u8]) -> usize
    requires few { length bytes.now ≤ 15 }
    requires room { at + 80 ≤ length cells.old }
    ensures text { take result cells.new ≡ take at cells.old ++ column bytes.now }
    ensures short { result ≤ at + 45 }
{
    let at = put_spaced_bytes(cells, at, bytes);
    let blanks = 21usize.saturating_sub(3 * bytes.len());
    put_first(cells, at, b"                                ", blanks)
}

/// Writes the first bytes of those that are known, in their column.
#[inline(always)]
fn put_column(cells: &mut [u8], at: usize, known: &[u8], count: usize) -> usize
    requires few { count ≤ 15 }
    requires there { count ≤ length known.now }
    requires room { at + 80 ≤ length cells.old }
    ensures text { take result cells.new ≡ take at cells.old ++ column (take count known.now) }
    ensures short { result ≤ at + 45 }
{
    if count <= 7 && known.len() >= 7 {
        put_some_of_seven(cells, at, known, count)
    } else {
        put_any_bytes(cells, at, &known[..count])
    }
}

/// Writes the address, and the first bytes of those that are known, in a column that is as wide as seven of them.
#[inline(always)]
#[tactic(auto, unfolding(crate::specs::Lines::beginning))]
fn put_beginning(
    cells: &mut [u8],
    at: usize,
    address: &Address,
    known: &[u8],
    count: usize,
) -> usize
    requires room { at + 128 ≤ length cells.old }
    requires few { count ≤ 15 }
    requires there { count ≤ length known.now }
    ensures text { take result cells.new
        ≡ take at cells.old ++ beginning (address_number address.now) (take count known.now) }
    ensures short { result ≤ at + 64 }
{
    let digits = address.digits();
    let at = put_first(cells, at, &digits.cells, digits.len);
    let at = put(cells, at, b':');
    let at = put(cells, at, b'\t');
    let at = put_column(cells, at, known, count);
    put(cells, at, b'\t')
}

/// Appends the line of an instruction, without its end, as [`shown_line`] answers it. `instruction` is what the decoder
/// answers for the bytes, which may go on after it; its first byte is at the address. The line has at most 527 bytes.
///
/// ```
/// let bytes = [0x74, 0x29, 0xc3];
/// let instruction = decoder.decode_slice(&bytes)?;
/// push_shown(&mut line, &decoder, 0x401007, &instruction, &bytes);
/// ```
pub fn push_shown<const N: usize>(
    line: &mut Room<N>,
    decoder: &InstDecoder,
    address: u64,
    instruction: &Instruction,
    bytes: &[u8],
)
    requires decoded { answer_of (is_strict decoder.now) bytes.now ≡ Ok instruction.now }
    requires room { array_vec_len line.old + shown_room ≤ N }
    ensures text { line.new.items ≡ line.old.items
        ++ shown_line (is_strict decoder.now) address bytes.now instruction.now }
    ensures short { array_vec_len line.new < array_vec_len line.old + shown_room }
{
    push_shown_at(line, decoder, &Address::at(address), instruction, bytes);
}

/// The same of an address with its digits, for listings.
pub fn push_shown_at<const N: usize>(
    line: &mut Room<N>,
    decoder: &InstDecoder,
    address: &Address,
    instruction: &Instruction,
    bytes: &[u8],
)
    requires decoded { answer_of (is_strict decoder.now) bytes.now ≡ Ok instruction.now }
    requires room { array_vec_len line.old + shown_room ≤ N }
    ensures text { line.new.items ≡ line.old.items
        ++ shown_line (is_strict decoder.now) (address_number address.now) bytes.now instruction.now }
    ensures short { array_vec_len line.new < array_vec_len line.old + shown_room }
{
    decoder_laws();
    lengths();
    let count = length_of(instruction) as usize;
    let at = put_beginning(&mut line.cells, line.len, address, bytes, count);
    let next = address.number().wrapping_add(length_of(instruction));
    line.len = put_instruction(
        &mut line.cells,
        at,
        decoder,
        instruction,
        &bytes[..count],
        next,
    );
}

/// The line that `show` prints of the instruction at the beginning of the bytes, without its end, where its first byte is
/// at `address`: the address, a colon, a tab, the bytes in a column of 21 characters or more, a tab, and the text of
/// GNU objdump 2.40 by `-d -w -M intel`. Refused as `InstDecoder::decode_slice` refuses. The longest line has 527 bytes.
///
/// ```
/// let line = shown_line(&InstDecoder::default(), 0x401007, &[0x74, 0x29])?;
/// println!(rt; "{line}")?; // 401007: 74 29 je 0x401032, with tabs
/// ```
pub fn shown_line(
    decoder: &InstDecoder,
    address: u64,
    bytes: &[u8],
) -> Result<ShownLine, DecodeError>
    ensures line { MatchResult result
        (λ line. (i : Instruction) × (answer_of (is_strict decoder.now) bytes.now ≡ Ok i)
        × (line.items ≡ shown_line (is_strict decoder.now) address bytes.now i))
        (λ error. answer_of (is_strict decoder.now) bytes.now ≡ Err error) }
{
    let mut line = ShownLine::new();
    let instruction = decoder.decode_slice(bytes)?;
    push_shown(&mut line, decoder, address, &instruction, bytes);
    Ok(line)
}

/// Appends the line of a VEX, EVEX or XOP encoding, without its end.
pub fn push_vector<const N: usize>(line: &mut Room<N>, address: &Address, bytes: &[u8])
    requires few { length bytes.now ≤ 15 }
    requires room { array_vec_len line.old + shown_room ≤ N }
    ensures text { line.new.items ≡ line.old.items
        ++ vector_text (address_number address.now) bytes.now }
    ensures short { array_vec_len line.new < array_vec_len line.old + shown_room }
{
    let at = put_beginning(&mut line.cells, line.len, address, bytes, bytes.len());
    line.len = put_bytes(&mut line.cells, at, b"(vex)");
}

/// Appends the line of a byte that begins nothing, without its end.
pub fn push_bad<const N: usize>(line: &mut Room<N>, address: &Address, bytes: &[u8])
    requires few { length bytes.now ≤ 15 }
    requires room { array_vec_len line.old + shown_room ≤ N }
    ensures text { line.new.items ≡ line.old.items
        ++ refused_text (address_number address.now) bytes.now }
    ensures short { array_vec_len line.new < array_vec_len line.old + shown_room }
{
    let at = put_beginning(&mut line.cells, line.len, address, bytes, bytes.len());
    line.len = put_bytes(&mut line.cells, at, b"(bad)");
}
