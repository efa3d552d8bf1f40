//! What a row has after its opcode byte, written where it stays.

ghost use Rattle.std.specs.Prelude.{◌≡◌, ◌≢◌, ℕ, Bool, IfOk, IfSome, true, false};
ghost use Rattle.x86_fields.specs.Steps.{outcome, then_from};
ghost use Rattle.x86_operands.specs.OperandList.{value_if_ok};
ghost use Rattle.x86_operands.specs.Places.{instance_placed};
ghost use Rattle.x86_operands.specs.Records.{RowRecord};
ghost use Rattle.x86_operands.specs.RowSteps.{no_operands, read_modrm};
ghost use Rattle.x86_operands.specs.declared.heads.After.TheVariants as After;
ghost use Rattle.x86_forms.specs.declared.TableRow.{TableRow};
ghost use Rattle.x86_groups.specs.Heads.{Continues, IsReadAt, IsSure};
ghost use Rattle.x86_operands.specs.Templates.{has_free_sizes};
ghost use Rattle.x86_decode.specs.Walk.{placed_in, instance_at, row_placed, unread_step};

use crate::instructions::Instruction;
use x86_arch::Reader;
use x86_fields::{DecodeError, ModRM};
use x86_forms::{WordRow, unpack};
use x86_groups::{SureRow, read_after_modrm, read_row_into, sure_row, word_after};
use x86_operands::{After, place_of};

/// The row of a word that is yet to be read: more than form, mod and reg chooses among the rows of its form, or it is
/// refused.
#[derive(Clone, Copy, Drop)]
pub struct Unread {
    pub word: u64,
    /// ModRM, where it was read. One that the row doesn't have is C0.
    pub modrm: Option<ModRM>,
}

/// ModRM where a form has one, else C0.
#[inline(always)]
fn read_modrm<T: Reader<u64, u8>>(after: After, reader: &mut T) -> Result<ModRM, DecodeError>
    requires { after ≢ After.Search }
    ensures { (r : RowRecord) → Continues after r →
        outcome result (T.state reader.new) ≡ read_modrm r.modrm (T.state reader.old) }
{
    match after {
        After::Nothing | After::Search => Ok(ModRM::absent()),
        _ => Ok(ModRM::new(reader.next()?)),
    }
}

/// The operands of a row that is read at once.
#[inline(always)]
pub fn read_operands<T: Reader<u64, u8>>(
    sure: SureRow<'_>,
    modrm: ModRM,
    reader: &mut T,
    inst: &mut Instruction,
) -> Result<(), DecodeError>
    requires at_once { IsReadAt modrm sure }
    requires free { has_free_sizes sure.template.now ≡ true }
    requires blank { inst.old.operand_list ≡ no_operands }
    requires no_suffix { inst.old.places.has_suffix ≡ false }
    ensures read { (strict : Bool) (found : TableRow) → IsSure found modrm sure.entry →
        outcome (value_if_ok result (placed_in inst.new)) (T.state reader.new)
        ≡ instance_placed inst.old.places.opcode_end
        (instance_at strict found inst.old.prefixes modrm) inst.old.prefixes modrm
        (T.state reader.old) }
    ensures same_prefixes { inst.new.prefixes ≡ inst.old.prefixes }
{
    inst.opcode = sure.opcode;
    inst.operand_list.read(
        reader,
        sure.template,
        sure.register,
        &inst.prefixes,
        modrm,
        &mut inst.places.address_end,
    )
}

/// What the row of a word has after its opcode byte, if form, mod and reg alone choose it; else the row.
#[inline(always)]
pub fn read_row<T: Reader<u64, u8>>(
    found: &WordRow,
    reader: &mut T,
    inst: &mut Instruction,
) -> Result<Option<Unread>, DecodeError>
    requires blank { inst.old.operand_list ≡ no_operands }
    requires no_suffix { inst.old.places.has_suffix ≡ false }
    ensures read { (strict : Bool) →
        then_from result (T.state reader.new) (unread_step strict inst.new) ≡
        row_placed strict found.now.row inst.old.prefixes (T.state reader.old) }
    ensures blank { IfOk result (λ unread.
        IfSome unread (λ _. inst.new.operand_list ≡ no_operands)) }
    ensures same_prefixes { inst.new.prefixes ≡ inst.old.prefixes }
{
    inst.places.opcode_end = place_of(reader.offset());
    let after = word_after(found);
    if matches!(after, After::Search) {
        return Ok(Some(Unread {
            word: found.word,
            modrm: None,
        }));
    }
    let modrm = read_modrm(after, reader)?;
    match sure_row(found, modrm) {
        Some(sure) => {
            let template = sure.template.with_sizes(sure.opcode);
            let sized = SureRow {
                template: &template,
                ..sure
            };
            read_operands(sized, modrm, reader, inst)?;
            Ok(None)
        }
        None => Ok(Some(Unread {
            word: found.word,
            modrm: Some(modrm),
        })),
    }
}

/// Reads a row by a search of the rows of its form.
#[inline(never)]
pub fn read_unread<T: Reader<u64, u8>>(
    strict: bool,
    unread: Unread,
    reader: &mut T,
    inst: &mut Instruction,
) -> Result<(), DecodeError>
    requires { inst.old.operand_list ≡ no_operands }
    ensures { outcome (value_if_ok result (placed_in inst.new)) (T.state reader.new) ≡
        unread_step strict inst.old (Some unread) (T.state reader.old) }
{
    let Some(row) = unpack(unread.word) else {
        return Err(DecodeError::InvalidOpcode);
    };
    let Instruction {
        prefixes,
        opcode,
        places,
        operand_list,
        ..
    } = inst;
    match unread.modrm {
        None => read_row_into(reader, row, strict, prefixes, opcode, operand_list, places),
        Some(modrm) => read_after_modrm(
            reader,
            &row,
            strict,
            modrm,
            prefixes,
            opcode,
            operand_list,
            places,
        ),
    }
}
