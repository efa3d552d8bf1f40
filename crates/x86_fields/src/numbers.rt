//! Little-endian numbers.

ghost use Rattle.std.specs.Prelude.{◌≡◌, IsTrue};
ghost use Rattle.std.specs.Int.{w8, w16, w32, w64};
ghost use Rattle.x86_arch.specs.Reader.{State};
ghost use Rattle.x86_fields.specs.Steps.{outcome, next_bytes, next_byte, number_step, read_num, read_imm_signed, is_number_width, is_signed_width};

use crate::DecodeError;
use x86_arch::Reader;

/// One byte.
#[tactic(auto, unfolding(crate::specs::Steps::next_byte))]
pub fn next_byte<T: Reader<u64, u8>>(reader: &mut T) -> Result<u8, DecodeError>
    ensures { outcome result (T.state reader.new) ≡ next_byte (T.state reader.old) }
{
    Ok(reader.next()?)
}

/// As many bytes as the array has.
#[tactic(auto, unfolding(crate::specs::Steps::next_bytes))]
pub fn next_bytes<const N: usize, T: Reader<u64, u8>>(
    reader: &mut T,
) -> Result<[u8; N], DecodeError>
    ensures { outcome result (T.state reader.new) ≡ next_bytes N (T.state reader.old) }
{
    let mut bytes = [0; N];
    reader.next_n(&mut bytes)?;
    Ok(bytes)
}

/// A number of one byte.
#[tactic(auto, unfolding(crate::specs::Steps::number_step))]
pub fn read_u8<T: Reader<u64, u8>>(reader: &mut T) -> Result<u8, DecodeError>
    ensures { outcome result (T.state reader.new) ≡ number_step w8 (T.state reader.old) }
{
    let bytes = next_bytes::<1, T>(reader)?;
    Ok(u8::from_le_bytes(bytes))
}

/// A number of two bytes.
#[tactic(auto, unfolding(crate::specs::Steps::number_step))]
pub fn read_u16<T: Reader<u64, u8>>(reader: &mut T) -> Result<u16, DecodeError>
    ensures { outcome result (T.state reader.new) ≡ number_step w16 (T.state reader.old) }
{
    let bytes = next_bytes::<2, T>(reader)?;
    Ok(u16::from_le_bytes(bytes))
}

/// A number of four bytes.
#[tactic(auto, unfolding(crate::specs::Steps::number_step))]
pub fn read_u32<T: Reader<u64, u8>>(reader: &mut T) -> Result<u32, DecodeError>
    ensures { outcome result (T.state reader.new) ≡ number_step w32 (T.state reader.old) }
{
    let bytes = next_bytes::<4, T>(reader)?;
    Ok(u32::from_le_bytes(bytes))
}

/// A number of eight bytes.
#[tactic(auto, unfolding(crate::specs::Steps::number_step))]
pub fn read_u64<T: Reader<u64, u8>>(reader: &mut T) -> Result<u64, DecodeError>
    ensures { outcome result (T.state reader.new) ≡ number_step w64 (T.state reader.old) }
{
    let bytes = next_bytes::<8, T>(reader)?;
    Ok(u64::from_le_bytes(bytes))
}

/// A number of 1, 2, 4 or 8 bytes. Where fewer are left, none is taken.
#[tactic(auto, unfolding(crate::specs::Steps::read_num))]
pub fn read_num<T: Reader<u64, u8>>(words: &mut T, width: u8) -> Result<u64, DecodeError>
    requires { IsTrue (is_number_width width) }
    ensures { outcome result (T.state words.new) ≡ read_num width (T.state words.old) }
{
    match width {
        1 => Ok(read_u8(words)? as u64),
        2 => Ok(read_u16(words)? as u64),
        4 => Ok(read_u32(words)? as u64),
        _ => read_u64(words),
    }
}

/// A signed number of 1, 2 or 4 bytes. Where fewer are left, none is taken.
#[tactic(auto, unfolding(crate::specs::Steps::read_imm_signed))]
pub fn read_imm_signed<T: Reader<u64, u8>>(words: &mut T, width: u8) -> Result<i64, DecodeError>
    requires { IsTrue (is_signed_width width) }
    ensures { outcome result (T.state words.new) ≡ read_imm_signed width (T.state words.old) }
{
    match width {
        1 => Ok(read_u8(words)?.cast_signed() as i64),
        2 => Ok(read_u16(words)?.cast_signed() as i64),
        _ => Ok(read_u32(words)?.cast_signed() as i64),
    }
}
