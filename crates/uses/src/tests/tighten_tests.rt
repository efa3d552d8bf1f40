//! Shortest encodings: worked by hand, and by GNU objdump among all spellings of an address.
use crate::tests::line_tests::bytes_of;
use crate::tests::shortest_table::SPELLINGS;
use x86_decode::InstDecoder;
use x86_fields::DecodeError;
use x86_layout::{TightenError, tighten};

/// Whether this is what the encoding at the beginning becomes.
fn becomes(pairs: &str, wanted: &str) -> bool {
    let (Some(bytes), Some(wanted)) = (bytes_of(pairs), bytes_of(wanted)) else {
        return false;
    };
    match tighten(&InstDecoder::default(), bytes.as_slice()) {
        Ok(encoding) => encoding.as_slice() == wanted.as_slice(),
        Err(_) => false,
    }
}

/// Encodings, each with a shortest one.
const SHORTEST: &[(&str, &str)] = &[
    ("48 8b 84 25 00 00 00 00", "48 8b 45 00"),
    ("43 8b 44 25 00", "43 8b 04 2c"),
    ("8b 44 05 00", "8b 04 28"),
    ("8b 44 24 00", "8b 04 24"),
    ("8b 04 45 00 00 00 00", "8b 04 00"),
    ("8b 84 85 fc ff ff ff 90", "8b 44 85 fc"),
    ("67 8b 80 80 00 00 00", "67 8b 80 80 00 00 00"),
];

#[test]
fn the_shortest_addresses(rt: HostRuntime) {
    for (pairs, wanted) in SHORTEST {
        assert!(rt; becomes(pairs, wanted), "{pairs}");
    }
}

/// Whether a line of the table is so: an encoding, and its shortest spellings, of which it becomes one.
fn is_shortest_row(row: &str) -> bool {
    match row.split_once(" => ") {
        Some((pairs, spellings)) => spellings
            .split(" | ")
            .any(|spelling| becomes(pairs, spelling)),
        None => false,
    }
}

#[test]
fn the_shortest_of_all_spellings(rt: HostRuntime) {
    for row in SPELLINGS.lines() {
        assert!(rt; is_shortest_row(row), "{row}");
    }
}

#[test]
fn nothing_to_tighten(rt: HostRuntime) {
    let decoder = InstDecoder::default();
    let ip_relative = tighten(&decoder, &[0x8b, 0x05, 0, 0, 0, 0]);
    assert!(rt; matches!(ip_relative, Err(TightenError::IpRelative)));
    let registers = tighten(&decoder, &[0x8b, 0xc0]);
    assert!(rt; matches!(registers, Err(TightenError::NoMemoryForm)));
    let refused = tighten(&decoder, &[0x06]);
    assert!(rt;
        matches!(
            refused,
            Err(TightenError::Refused(DecodeError::InvalidOpcode))
        )
    );
}
