//! The row that fields name.

ghost use Rattle.std.specs.Prelude.{◌≡◌, IfSome, IsTrue};
ghost use Rattle.x86_forms.specs.Words.{IsForm};
ghost use Rattle.x86_decode.specs.Head.{is_run, is_opcode};
ghost use Rattle.x86_layout.specs.Parts.Permitted.{map_named, entry_of};

use crate::parts::fields::Fields;
use x86_decode::builders::{column_of, is_prefix, is_vex, seen_by};
use x86_fields::{Prefixes, reading_of};
use x86_forms::{Map, TableRow, packed, unpack};

/// A row, and the prefixes as its record sees them.
#[derive(Clone, Copy, Drop)]
pub struct Entry {
    pub row: TableRow,
    pub prefixes: Prefixes,
}

/// The map of an escape, where it is one of the four.
fn map_named(escape: &[u8]) -> Option<Map>
    ensures { result ≡ map_named escape.now }
{
    match escape {
        [] => Some(Map::One),
        [0x0f] => Some(Map::Of),
        [0x0f, 0x38] => Some(Map::Of38),
        [0x0f, 0x3a] => Some(Map::Of3a),
        _ => None,
    }
}

/// Whether the byte is an opcode of the map, whatever row the table has for it.
fn is_opcode(map: Map, byte: u8) -> bool
    ensures { result ≡ is_opcode map byte }
{
    match map {
        Map::One => !(is_prefix(byte) || byte == 0x0f || is_vex(byte)),
        Map::Of => !(byte == 0x38 || byte == 0x3a),
        Map::Of38 | Map::Of3a => true,
    }
}

/// The row that fields with a legal run name: that of their opcode byte in the map of their escape and the column of
/// the run.
pub fn entry_of(fields: &Fields) -> Option<Entry>
    requires { IsTrue (is_run fields.now.prefixes.items) }
    ensures value { result ≡ entry_of fields.now }
    ensures carried { IfSome result (λ entry. IsForm entry.row.form) }
{
    let map = map_named(&fields.escape)?;
    let run = reading_of(&fields.prefixes);
    if !is_opcode(map, fields.opcode) {
        return None;
    }
    let row = unpack(packed(map, column_of(&run), fields.opcode))?;
    Some(Entry {
        row,
        prefixes: seen_by(map, fields.opcode, run),
    })
}
