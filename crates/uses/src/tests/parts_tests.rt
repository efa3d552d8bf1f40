//! The parts of encodings, and encodings written from parts.
use crate::tests::line_tests::bytes_of;
use x86_decode::InstDecoder;
use x86_layout::{EmitError, Fields, emit, split};
use x86_text::fields_line;

/// Whether the encoding at the beginning has this line of its parts.
fn has_parts(pairs: &str, line: &str) -> bool {
    let Some(bytes) = bytes_of(pairs) else {
        return false;
    };
    match split(&InstDecoder::default(), bytes.as_slice()) {
        Ok(parts) => fields_line(0, &parts).as_slice() == line.as_bytes(),
        Err(_) => false,
    }
}

/// Encodings, each with the line of its parts.
const PARTS: &[(&str, &str)] = &[
    ("90", "0 1 - - 90 - - - - -"),
    ("48 03 44 25 00 90", "0 5 48 - 03 44 25 00 - -"),
    (
        "48 a1 88 77 66 55 44 33 22 11",
        "0 10 48 - a1 - - - 8877665544332211 -",
    ),
    ("0f 0f c1 9e 06", "0 4 - 0f 0f c1 - - - 9e"),
    ("66 0f 3a 16 c1 02", "0 6 66 0f3a 16 c1 - - 02 -"),
    ("c7 45 fc 00 00 00 00", "0 7 - - c7 45 - fc 00000000 -"),
];

#[test]
fn parts(rt: HostRuntime) {
    for (pairs, line) in PARTS {
        assert!(rt; has_parts(pairs, line), "{pairs}");
    }
}

/// The fields of the encoding at the beginning.
fn fields_of(bytes: &[u8]) -> Option<Fields> {
    match split(&InstDecoder::default(), bytes) {
        Ok(parts) => Some(Fields::of(&parts)),
        Err(_) => None,
    }
}

const ADD: [u8; 5] = [0x48, 0x03, 0x44, 0x25, 0x00];

/// The fields of `ADD` with other prefixes, as many as fit.
fn add_after(prefixes: &[u8]) -> Option<Fields> {
    let mut fields = fields_of(&ADD)?;
    fields.prefixes.clear();
    let _ = fields.prefixes.try_extend_from_slice(prefixes);
    Some(fields)
}

/// The fields of `ADD` with another opcode and ModRM, and without a displacement.
fn with_opcode(opcode: u8, modrm: u8) -> Option<Fields> {
    let mut fields = fields_of(&ADD)?;
    fields.opcode = opcode;
    fields.modrm = Some(modrm);
    fields.displacement.clear();
    Some(fields)
}

fn writes(fields: Option<Fields>, wanted: &[u8]) -> bool {
    match fields {
        Some(fields) => match emit(&InstDecoder::default(), &fields) {
            Ok(bytes) => bytes.as_slice() == wanted,
            Err(_) => false,
        },
        None => false,
    }
}

fn refuses(fields: Option<Fields>, error: EmitError) -> bool {
    match fields {
        Some(fields) => match emit(&InstDecoder::default(), &fields) {
            Ok(_) => false,
            Err(refused) => refused == error,
        },
        None => false,
    }
}

#[test]
fn fields_are_written(rt: HostRuntime) {
    assert!(rt; writes(fields_of(&[0x48, 0x03, 0x44, 0x25, 0x00, 0x90]), &ADD));
    assert!(rt;
        writes(
            add_after(&[0x48, 0x48]),
            &[0x48, 0x48, 0x03, 0x44, 0x25, 0x00]
        )
    );
    let mut run = [0x66; 12];
    run[10] = 0x48;
    let bytes = [
        0x66, 0x66, 0x66, 0x66, 0x66, 0x66, 0x66, 0x66, 0x66, 0x66, 0x48, 0x03, 0x44, 0x25, 0x00,
    ];
    assert!(rt; writes(add_after(&run[..11]), &bytes));
    run[10] = 0x66;
    run[11] = 0x48;
    assert!(rt; refuses(add_after(&run), EmitError::Length));
}

/// The fields of `ADD` without their SIB.
fn without_sib() -> Option<Fields> {
    let mut fields = fields_of(&ADD)?;
    fields.sib = None;
    Some(fields)
}

/// The fields of a 3DNow encoding, with another suffix.
fn with_suffix(suffix: u8) -> Option<Fields> {
    let mut fields = fields_of(&[0x0f, 0x0f, 0xc1, 0x9e])?;
    fields.suffix = Some(suffix);
    Some(fields)
}

#[test]
fn fields_are_refused(rt: HostRuntime) {
    assert!(rt; refuses(add_after(&[0x90]), EmitError::Prefixes));
    assert!(rt; refuses(add_after(&[0xf0]), EmitError::Lock));
    assert!(rt; refuses(without_sib(), EmitError::Shape));
    assert!(rt; refuses(with_opcode(0x06, 0x44), EmitError::Row));
    // the row of FE refuses /2, and the displacement is missing
    assert!(rt; refuses(with_opcode(0xfe, 0x54), EmitError::Row));
    assert!(rt; refuses(with_suffix(0x06), EmitError::Row));
}

#[test]
fn a_strict_decoder_writes_fewer_fences(rt: HostRuntime) {
    let fence = [0x0f, 0xae, 0xe9];
    assert!(rt; writes(fields_of(&fence), &fence));
    let fields = fields_of(&fence).expect(&rt, "fields");
    assert!(rt; matches!(emit(&InstDecoder::strict(), &fields), Err(EmitError::Row)));
}
