//! Decoding in tests.
use x86_decode::{DecodeError, InstDecoder, Instruction};

/// The instruction at the beginning of the bytes, or the invalid one, of no bytes, where there is none.
pub fn decoded(bytes: &[u8]) -> Instruction {
    match InstDecoder::default().decode_slice(bytes) {
        Ok(instruction) => instruction,
        Err(_) => Instruction::invalid(),
    }
}

/// The error that a worked line names.
pub fn error_named(name: &str) -> Option<DecodeError> {
    match name {
        "ExhaustedInput" => Some(DecodeError::ExhaustedInput),
        "InvalidOpcode" => Some(DecodeError::InvalidOpcode),
        "InvalidOperand" => Some(DecodeError::InvalidOperand),
        "InvalidPrefixes" => Some(DecodeError::InvalidPrefixes),
        "TooLong" => Some(DecodeError::TooLong),
        "IncompleteDecoder" => Some(DecodeError::IncompleteDecoder),
        _ => None,
    }
}
