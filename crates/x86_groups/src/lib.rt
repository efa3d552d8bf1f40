//! Groups: the forms of which ModRM or a suffix chooses the operation. With them every row can be read.
//!
//! Each group has rows, of which the first that holds counts. The definitions have them as the manual prints them
//! (specs/Rows.antt). Where mod and reg alone choose the row, a cell names it.
#![tactic(auto)]

ghost use Rattle.std.specs.Prelude.{◌≡◌, true};
ghost use Rattle.x86_arch.specs.Reader.{State};
ghost use Rattle.x86_fields.specs.Steps.{outcome};
ghost use Rattle.x86_forms.specs.Groups.{is_group};
ghost use Rattle.x86_operands.specs.RowSteps.{no_operands, reading_with, record_step};
ghost use Rattle.x86_operands.specs.Places.{instance_placed, record_placed};
ghost use Rattle.x86_operands.specs.OperandList.{value_if_ok};
ghost use Rattle.x86_forms.specs.Words.{IsForm};
ghost use Rattle.x86_groups.specs.Groups.{group_record, record_of};

mod byte_tables;
mod bytes;
mod cells;
pub mod laws;
mod rows;
mod tables;

pub use bytes::{ByteRow, Choice, Next, byte_row, escaped_row, sure_byte_row};
use rows::{chosen_row, row_fault, row_modrm};
pub use rows::{SureRow, group_ask, row_ask, row_at, sure_row, word_after};
use x86_arch::Reader;
use x86_fields::{DecodeError, ModRM, Prefixes};
use x86_forms::TableRow;
use x86_opcodes::Opcode;
use x86_operands::{Operands, Places, Reading, read_modrm, refuse_fault};

/// What a row has after a ModRM byte, written into blank operands, and the places of its parts.
#[tactic(auto, using(x86_operands::proofs::PlaceLemmas::instance_is_placed))]
pub fn read_after_modrm<T: Reader<u64, u8>>(
    reader: &mut T,
    row: &TableRow,
    strict: bool,
    modrm: ModRM,
    prefixes: &mut Prefixes,
    opcode: &mut Opcode,
    operand_list: &mut Operands,
    places: &mut Places,
) -> Result<(), DecodeError>
    requires form { IsForm row.now.form }
    requires blank { operand_list.old ≡ no_operands }
    ensures { outcome
        (value_if_ok result (reading_with opcode.new prefixes.new operand_list.new, places.new))
        (T.state reader.new) ≡ instance_placed places.old.opcode_end
        ((record_of strict row.now prefixes.old).instance modrm) prefixes.old modrm
        (T.state reader.old) }
{
    let chosen = chosen_row(row, strict, prefixes, modrm);
    chosen.read_into(row, reader, modrm, prefixes, opcode, operand_list, places)
}

/// What a row has after its opcode byte, written into blank operands, and the places of its parts.
#[inline(never)]
#[tactic(auto, unfolding(x86_operands::specs::Places::record_placed))]
pub fn read_row_into<T: Reader<u64, u8>>(
    reader: &mut T,
    row: TableRow,
    strict: bool,
    prefixes: &mut Prefixes,
    opcode: &mut Opcode,
    operand_list: &mut Operands,
    places: &mut Places,
) -> Result<(), DecodeError>
    requires form { IsForm row.form }
    requires blank { operand_list.old ≡ no_operands }
    ensures { outcome
        (value_if_ok result (reading_with opcode.new prefixes.new operand_list.new, places.new))
        (T.state reader.new) ≡ record_placed places.old.opcode_end
        (record_of strict row prefixes.old) prefixes.old (T.state reader.old) }
{
    refuse_fault(row_fault(&row, prefixes))?;
    let modrm = read_modrm(reader, row_modrm(&row))?;
    read_after_modrm(
        reader,
        &row,
        strict,
        modrm,
        prefixes,
        opcode,
        operand_list,
        places,
    )
}

/// What a row has after its opcode byte.
#[tactic(auto, unfolding(x86_operands::specs::RowSteps::record_step))]
pub fn read_row<T: Reader<u64, u8>>(
    reader: &mut T,
    row: TableRow,
    prefixes: Prefixes,
    strict: bool,
) -> Result<Reading, DecodeError>
    requires { IsForm row.form }
    ensures { outcome result (T.state reader.new) ≡
        record_step (record_of strict row prefixes) prefixes (T.state reader.old) }
{
    refuse_fault(row_fault(&row, &prefixes))?;
    let modrm = read_modrm(reader, row_modrm(&row))?;
    let chosen = chosen_row(&row, strict, &prefixes, modrm);
    chosen.read(&row, reader, modrm, prefixes)
}

/// Reads what a row has after its opcode byte, where its form is a group.
///
/// `strict` chooses whether LFENCE, MFENCE and SFENCE are refused where rm isn't 0; nothing else depends on it. Of
/// the errors come `InvalidOpcode` and `InvalidOperand` where the row's record refuses, `IncompleteDecoder` for 8F
/// with a reg other than 0, and `ExhaustedInput`. After a refusal the bytes that its row takes before are taken:
/// none, ModRM, the address, or all.
#[tactic(auto, using(crate::proofs::GroupLemmas::group_form))]
pub fn read_group<T: Reader<u64, u8>>(
    words: &mut T,
    row: TableRow,
    prefixes: Prefixes,
    strict: bool,
) -> Result<Reading, DecodeError>
    requires group { is_group row.form ≡ true }
    ensures { outcome result (T.state words.new)
        ≡ record_step (group_record strict row prefixes) prefixes (T.state words.old) }
{
    read_row(words, row, prefixes, strict)
}
