//! The rows of all forms: at the opcode byte, at a ModRM byte, and what they have. Where the form is a group, its rows say
//! it.

ghost use Rattle.std.specs.Prelude.{◌≡◌, ◌≤◌, ◌-◌, Bool, true, false, IfSome, length, take, drop};
ghost use Rattle.std.specs.List.{list_all};
ghost use Rattle.x86_fields.specs.declared.prefixes.Prefixes.{Prefixes};
ghost use Rattle.x86_forms.specs.Groups.{is_group};
ghost use Rattle.x86_forms.specs.Words.{IsForm};
ghost use Rattle.x86_operands.specs.Asks.{ask_of, record_at};
ghost use Rattle.x86_operands.specs.Columns.{is_placed, instance_of_row};
ghost use Rattle.x86_operands.specs.Templates.{is_sound_row};
ghost use Rattle.x86_groups.specs.Groups.{group_record, record_of};
ghost use Rattle.x86_groups.specs.Heads.{Continues, IsSure};
ghost use Rattle.x86_groups.specs.Rows.{group_rows};

use crate::cells::cell_row;
use crate::tables::{ROWS, SPANS};
use x86_fields::{ModRM, Prefixes};
use x86_forms::{Form, TableRow, WordRow};
use x86_opcodes::Opcode;
use x86_operands::rows::{TemplateRow, choose};
use x86_operands::vocabulary::{Fault, ModrmUse};
use x86_operands::{After, Ask, RecordAt, Template, form_modrm, plain_row, used_modrm};
use x86_regs::Segment;

/// A row that is read at once: the operation, the number of the opcode byte's register, and its operands at a ModRM
/// byte.
#[derive(Clone, Copy, Drop)]
pub struct SureRow<'a> {
    pub opcode: Opcode,
    pub register: u8,
    pub template: &'a Template,
}

/// What follows the opcode byte of a word's row.
#[inline(always)]
#[tactic(auto, using(crate::proofs::HeadLemmas::begins))]
pub fn word_after(found: &WordRow) -> After
    ensures { (strict : Bool) (p : Prefixes) → Continues result (record_of strict found.now.row p) }
{
    x86_operands::word_after(found)
}

/// The operation and the operands of a word's row at a ModRM byte, where they are read at once, and the form, mod and reg
/// alone choose the row.
#[inline(always)]
#[tactic(auto, using(crate::proofs::HeadLemmas::plain_is))]
pub fn sure_row(found: &WordRow, modrm: ModRM) -> Option<SureRow<'static>>
    ensures { IfSome result (IsSure found.now.row modrm) }
{
    match x86_operands::word_after(found) {
        After::Search => None,
        After::Cells => cell_row(found.form_number, modrm),
        _ => {
            let template = plain_row(found, modrm)?;
            Some(SureRow {
                opcode: found.row.opcode,
                register: found.number,
                template,
            })
        }
    }
}

/// All rows, the first one of a group, and the one after its last.
fn span_of(form: Form) -> (&'static [TemplateRow], u16, u16)
    ensures ordered { result.1 ≤ result.2 }
    ensures inside { result.2 ≤ length result.0.now }
    ensures rows { take (result.2 - result.1) (drop result.1 result.0.now) ≡ group_rows form }
    ensures sound { list_all is_sound_row
        (take (result.2 - result.1) (drop result.1 result.0.now)) ≡ true }
{
    let (first, end) = SPANS[form.first_ordinal() as usize];
    (ROWS, first, end)
}

/// The rows of a group.
fn group_rows(form: Form) -> &'static [TemplateRow]
    ensures rows { result.now ≡ group_rows form }
    ensures sound { list_all is_sound_row result.now ≡ true }
{
    let (rows, first, end) = span_of(form);
    &rows[first as usize..end as usize]
}

/// The refusal of a row at its opcode byte: of HRESET, unless F3 alone is in force.
#[tactic(auto, unfolding(crate::specs::Groups::is_f3_alone, crate::specs::Groups::group_record, x86_operands::specs::Forms::form_record))]
pub(crate) fn row_fault(row: &TableRow, prefixes: &Prefixes) -> Option<Fault>
    ensures { (strict : Bool) → result ≡ (record_of strict row.now prefixes.now).at_opcode }
{
    let is_f3_alone = prefixes.rep()
        && !prefixes.operand_size()
        && !prefixes.address_size()
        && !prefixes.lock()
        && prefixes.segment() == Segment::DS
        && prefixes.rex().is_none();
    match row.form {
        Form::ModRM_0xf30f3af0 if !is_f3_alone => Some(Fault::BadOpcode),
        _ => None,
    }
}

/// How a row uses a ModRM byte.
#[tactic(auto, using(crate::proofs::GroupLemmas::group_either), unfolding(crate::specs::Groups::group_record, x86_operands::specs::Forms::form_record))]
pub(crate) fn row_modrm(row: &TableRow) -> ModrmUse
    ensures { (strict : Bool) (p : Prefixes) → result ≡ (record_of strict row.now p).modrm }
{
    match row.form {
        Form::Rq_Cq_0 | Form::Rq_Dq_0 | Form::Cq_Rq_0 | Form::Dq_Rq_0 => ModrmUse::Registers,
        form => form_modrm(form),
    }
}

/// The row at a ModRM byte; `own` is the row in the opcode map.
#[tactic(auto, unfolding(crate::specs::Groups::group_record, crate::specs::Groups::group_instance))]
pub(crate) fn chosen_row(
    own: &TableRow,
    strict: bool,
    prefixes: &Prefixes,
    modrm: ModRM,
) -> TemplateRow
    ensures instance { instance_of_row result own.now prefixes.now modrm
        ≡ (record_of strict own.now prefixes.now).instance modrm }
    ensures sound { is_sound_row result ≡ true }
    ensures placed { is_placed result.at.place modrm ≡ true }
{
    if own.form.is_group() {
        choose(group_rows(own.form), own, strict, prefixes, modrm)
    } else {
        x86_operands::chosen_row(own, prefixes, modrm)
    }
}

/// Which parts a row has at a ModRM byte: the same under both choices. Where the row refuses under both choices and with
/// every suffix, the answer is open.
///
/// For the row of F7 at ModRM C0, which is TEST, this is a ModRM, and an immediate of 4 bytes without 66.
#[inline(never)]
#[tactic(auto, using(crate::proofs::ChoiceLemmas::row_same_ask, x86_operands::proofs::TemplateLemmas::row_asks), unfolding(x86_operands::specs::Asks::ask_of))]
pub fn row_ask(row: TableRow, prefixes: Prefixes, modrm: u8) -> Ask
    requires { IsForm row.form }
    ensures { (strict : Bool) → result ≡ ask_of (record_of strict row prefixes) modrm }
{
    let usage = row_modrm(&row);
    let modrm = used_modrm(usage, Some(modrm));
    let chosen = chosen_row(&row, false, &prefixes, modrm);
    chosen.ask(usage, &row, &prefixes, modrm)
}

/// `row_ask` of a row whose form is a group.
#[tactic(auto, using(crate::proofs::GroupLemmas::group_form))]
pub fn group_ask(row: TableRow, prefixes: Prefixes, modrm: u8) -> Ask
    requires { is_group row.form ≡ true }
    ensures { (strict : Bool) → result ≡ ask_of (group_record strict row prefixes) modrm }
{
    row_ask(row, prefixes, modrm)
}

/// The record of a row at a ModRM byte.
#[tactic(auto, using(x86_operands::proofs::TemplateLemmas::row_asks), unfolding(x86_operands::specs::Asks::record_at))]
pub fn row_at(row: TableRow, prefixes: Prefixes, modrm: Option<u8>, strict: bool) -> RecordAt
    requires { IsForm row.form }
    ensures { result ≡ record_at (record_of strict row prefixes) modrm }
{
    let usage = row_modrm(&row);
    let modrm = used_modrm(usage, modrm);
    let chosen = chosen_row(&row, strict, &prefixes, modrm);
    RecordAt {
        at_opcode: row_fault(&row, &prefixes),
        modrm,
        ask: chosen.ask(usage, &row, &prefixes, modrm),
        verdict: chosen.verdict,
    }
}
