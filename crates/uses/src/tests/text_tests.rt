//! Names of registers and opcodes, the order of registers, errors as text, and lines without instructions.
use std::alloc::Global;
use std::fmt::Display;
use x86_fields::DecodeError;
use x86_layout::{EmitError, TightenError};
use x86_opcodes::Opcode;
use x86_regs::{MergeMode, RegSpec, RegisterClass, SaeMode, register_class};
use x86_streams::lines::{Counter, Line, Place};

fn is_named(register: RegSpec, name: &str) -> bool {
    register.name() == name
}

#[test]
fn registers_by_name(rt: HostRuntime) {
    assert!(rt; is_named(RegSpec::rb(4), "spl"));
    assert!(rt; is_named(RegSpec::b(4), "ah"));
    assert!(rt; is_named(RegSpec::r13w(), "r13w"));
    assert!(rt; is_named(RegSpec::zmm(31), "zmm31"));
    assert!(rt; is_named(RegSpec::st0(), "st(0)"));
    assert!(rt; is_named(RegSpec::mask(7), "k7"));
    assert!(rt; is_named(RegSpec::gs(), "gs"));
    assert!(rt; is_named(RegSpec::RIP, "rip"));
}

#[test]
fn classes_by_name(rt: HostRuntime) {
    assert!(rt; RegSpec::zmm0().width() == 64);
    assert!(rt; register_class::RFLAGS.name() == "rflags");
}

#[test]
fn the_number_is_compared_first(rt: HostRuntime) {
    assert!(rt; RegSpec::al() < RegSpec::ax());
    assert!(rt; RegSpec::rax() < RegSpec::cl());
    assert!(rt; RegisterClass::Q < RegisterClass::X);
}

#[test]
fn modes_by_name(rt: HostRuntime) {
    assert!(rt; MergeMode::from(true) == MergeMode::Zero);
    assert!(rt; SaeMode::RoundZero.label() == "{rz-sae}");
}

#[test]
fn spellings(rt: HostRuntime) {
    assert!(rt; Opcode::GF2P8AFFINEINVQB.mnemonic() == "GF2P8AFFINEINVQB");
    assert!(rt; Opcode::Invalid.mnemonic() == "Invalid");
    assert!(rt; Opcode::from_number(u64::MAX).is_none());
    assert!(rt; Opcode::from_number(Opcode::COUNT as u64).is_none());
}

/// Whether `{:?}` of an opcode is this text.
fn is_debugged(alloc: Global, opcode: Opcode, text: &str) -> bool {
    match format!(in alloc; "{opcode:?}") {
        Ok(shown) => shown.as_str() == text,
        Err(_) => false,
    }
}

#[test]
fn opcodes_by_their_names(rt: HostRuntime) {
    assert!(rt; is_debugged(rt.alloc(), Opcode::ADD, "ADD"));
    assert!(rt; is_debugged(rt.alloc(), Opcode::GF2P8AFFINEINVQB, "GF2P8AFFINEINVQB"));
}

/// Whether this is a line where the format has a width of 6.
fn is_padded(alloc: Global, line: &Line, text: &str) -> bool {
    match format!(in alloc; "{line:>6}|{line:<6}|{line:.2}") {
        Ok(shown) => shown.as_str() == text,
        Err(_) => false,
    }
}

#[test]
fn lines_with_a_width(rt: HostRuntime) {
    let mut line = Line::new();
    line.extend(b"rax");
    assert!(rt; is_padded(rt.alloc(), &line, "   rax|rax   |ra"));
}

/// Whether this is the text of a value.
fn is_shown<T: Display>(alloc: Global, value: &T, text: &str) -> bool {
    match format!(in alloc; "{value}") {
        Ok(shown) => shown.as_str() == text,
        Err(_) => false,
    }
}

/// Each error with its text.
const REFUSALS: &[(DecodeError, &str)] = &[
    (DecodeError::ExhaustedInput, "exhausted input"),
    (DecodeError::InvalidOpcode, "invalid opcode"),
    (DecodeError::InvalidOperand, "invalid operand"),
    (DecodeError::InvalidPrefixes, "invalid prefixes"),
    (DecodeError::TooLong, "too long"),
    (DecodeError::IncompleteDecoder, "the decoder is incomplete"),
];

#[test]
fn refusals_by_their_descriptions(rt: HostRuntime) {
    for (error, text) in REFUSALS {
        assert!(&rt; is_shown(rt.alloc(), error, text), "{text}");
    }
}

#[test]
fn a_line_of_191_bytes(rt: HostRuntime) {
    let bytes = [b'7'; 191];
    let mut line = Line::new();
    line.extend(&bytes);
    assert!(&rt; is_shown(rt.alloc(), &line, std::str::from_utf8(&bytes).unwrap_or("")));
}

#[test]
fn errors_of_tighten_by_their_texts(rt: HostRuntime) {
    for (error, text) in REFUSALS {
        let refused = TightenError::Refused(*error);
        assert!(&rt; is_shown(rt.alloc(), &refused, text), "{text}");
    }
    assert!(&rt; is_shown(rt.alloc(), &TightenError::NoMemoryForm, "no memory form"));
    assert!(&rt; is_shown(rt.alloc(), &TightenError::IpRelative, "ip-relative form"));
}

#[test]
fn errors_of_emit_by_their_texts(rt: HostRuntime) {
    assert!(&rt; is_shown(rt.alloc(), &EmitError::Prefixes, "not a prefix byte"));
    assert!(&rt; is_shown(rt.alloc(), &EmitError::Row, "no row for these fields"));
    let shape = "a part is missing, extra or of the wrong length";
    assert!(&rt; is_shown(rt.alloc(), &EmitError::Shape, shape));
    assert!(&rt; is_shown(rt.alloc(), &EmitError::Lock, "lock prefix not allowed"));
    assert!(&rt; is_shown(rt.alloc(), &EmitError::Length, "more than 15 bytes"));
}

/// A place, and bytes as hex digits.
fn dumped(place: u64, bytes: &[u8; 4]) -> Line {
    let mut line = Line::new();
    line.push_u64(place);
    line.extend(b": ");
    line.push_hex(bytes);
    line
}

#[test]
fn lines_of_digits(rt: HostRuntime) {
    let dump = dumped(4096, &[0x7f, 0x45, 0x4c, 0x46]);
    assert!(&rt; is_shown(rt.alloc(), &dump, "4096: 7f454c46"));
}

#[test]
fn a_number_below_zero(rt: HostRuntime) {
    let mut line = Line::new();
    line.push_i64(i64::MIN);
    assert!(rt; line.as_slice() == b"-9223372036854775808".as_slice());
}

/// Whether a place has these digits.
fn has_digits(place: &Place, digits: &[u8]) -> bool {
    place.digits().as_slice() == digits
}

#[test]
fn a_place_counts_on(rt: HostRuntime) {
    let mut place = Place::at(98);
    place.advance(3);
    assert!(rt; has_digits(&place, b"101"));
    place.advance(15);
    assert!(rt; has_digits(&place, b"116"));
}
