//! Refusals, worked by hand from the rows.
use crate::tests::decoding::error_named;
use crate::tests::line_tests::bytes_of;
use crate::tests::plain_tests::agree_on;
use crate::tests::refusal_table;
use x86_arch::{Reader, U8Reader};
use x86_decode::InstDecoder;

/// The tables of refusals, `HEX => TAKEN ERROR`.
fn tables() -> [&'static str; 4] {
    [
        refusal_table::PART_1,
        refusal_table::PART_2,
        refusal_table::PART_3,
        refusal_table::PART_4,
    ]
}

/// Whether bytes are refused with the error of this name, and so many of them are taken.
fn is_refused(bytes: &[u8], taken: &str, name: &str) -> bool {
    let mut reader = U8Reader::new(bytes);
    match &InstDecoder::default().decode(&mut reader) {
        Ok(_) => false,
        Err(error) => {
            error_named(name) == Some(*error)
                && matches!(taken.parse::<u64>(), Ok(count) if count == reader.offset())
        }
    }
}

/// Whether a line of a table is so.
fn is_refused_row(row: &str) -> bool {
    match row.split_once(" => ") {
        Some((digits, answer)) => match (bytes_of(digits), answer.split_once(" ")) {
            (Some(bytes), Some((taken, name))) => {
                let bytes = bytes.as_slice();
                is_refused(bytes, taken, name) && agree_on(bytes)
            }
            _ => false,
        },
        None => false,
    }
}

#[test]
fn worked_refusals(rt: HostRuntime) {
    for table in tables() {
        for row in table.lines() {
            assert!(rt; is_refused_row(row), "{row}");
        }
    }
}
