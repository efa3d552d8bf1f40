//! Rows of the printed table, and decoding by another one.
use crate::tests::decoding::error_named;
use x86_arch::U8Reader;
use x86_decode::InstDecoder;
use x86_forms::{Column, Form, Map, Packed, Patched, TableRow, Words, packed, row};
use x86_opcodes::Opcode;

#[test]
fn rows(rt: HostRuntime) {
    let popcnt = TableRow {
        opcode: Opcode::POPCNT,
        form: Form::Gv_Ev,
    };
    let xchg = TableRow {
        opcode: Opcode::XCHG,
        form: Form::Zv_AX_R(0),
    };
    assert!(rt; row(Map::Of, Column::F3, 0xB8) == Some(popcnt));
    assert!(rt; row(Map::One, Column::F2, 0x90) == Some(xchg));
    assert!(rt; row(Map::One, Column::Plain, 0x06).is_none());
    assert!(rt; row(Map::Of38, Column::Plain, 0x0F).is_none());
}

/// Whether the bytes are one instruction of this name, or are refused with the error of this name.
fn answers<W: Words>(rows: &W, bytes: &[u8], wanted: &str) -> bool {
    match &InstDecoder::default().decode_by(rows, &mut U8Reader::new(bytes)) {
        Ok(read) => {
            read.opcode().mnemonic() == wanted && read.len().to_const() == bytes.len() as u64
        }
        Err(error) => error_named(wanted) == Some(*error),
    }
}

/// The printed table with this word at a byte of the first map.
fn patched(byte: u8, word: u64) -> Patched {
    Patched {
        map: Map::One,
        column: Column::Plain,
        byte,
        word,
    }
}

/// The printed table with the word of NOP at this byte.
fn nop_at(byte: u8) -> Patched {
    patched(byte, packed(Map::One, Column::Plain, 0x90))
}

#[test]
fn a_row_more(rt: HostRuntime) {
    let table = nop_at(0x06);
    assert!(rt; answers(&Packed, &[0x06], "InvalidOpcode"));
    assert!(rt; answers(&table, &[0x06], "NOP"));
    assert!(rt; answers(&table, &[0x41, 0x06], "XCHG"));
    assert!(rt; answers(&table, &[0x66, 0x06], "InvalidOpcode"));
    assert!(rt; answers(&table, &[0x90], "NOP"));
}

#[test]
fn a_row_less(rt: HostRuntime) {
    let table = patched(0x90, 0);
    assert!(rt; answers(&table, &[0x90], "InvalidOpcode"));
    assert!(rt; answers(&table, &[0x66, 0x90], "NOP"));
}

#[test]
fn vex_has_no_row(rt: HostRuntime) {
    assert!(rt; answers(&nop_at(0xc5), &[0xc5], "IncompleteDecoder"));
}
