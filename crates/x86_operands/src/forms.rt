//! What a row has whose form is a plain form.
ghost use Rattle.std.specs.Prelude.{◌≡◌, ◌≤◌, ◌-◌, length, take, drop, slice_get, false, true};
ghost use Rattle.std.specs.List.{list_all};
ghost use Rattle.x86_fields.specs.Steps.{outcome};
ghost use Rattle.x86_forms.specs.Groups.{is_group};
ghost use Rattle.x86_forms.specs.Words.{IsForm};
ghost use Rattle.x86_operands.specs.Asks.{ask_of};
ghost use Rattle.x86_operands.specs.Columns.{is_placed, instance_of_row};
ghost use Rattle.x86_operands.specs.Forms.{form_record, modrm_use, place_use};
ghost use Rattle.x86_operands.specs.RowSteps.{record_step};
ghost use Rattle.x86_operands.specs.Rows.{form_rows};
ghost use Rattle.x86_operands.specs.Templates.{is_sound_row};

use crate::reader::{Reading, read_modrm};
use crate::rows::{Place, TemplateRow, choose};
use crate::tables::{ROWS, SPANS};
use crate::vocabulary::ModrmUse;
use crate::{Ask, used_modrm};
use x86_arch::Reader;
use x86_fields::{DecodeError, ModRM, Prefixes};
use x86_forms::{Form, TableRow};

/// All rows, the first one of a form, and the one after its last.
fn span_of(form: Form) -> (&'static [TemplateRow], u16, u16)
    ensures ordered { result.1 ≤ result.2 }
    ensures inside { result.2 ≤ length result.0.now }
    ensures rows { take (result.2 - result.1) (drop result.1 result.0.now) ≡ form_rows form }
    ensures sound { list_all is_sound_row
        (take (result.2 - result.1) (drop result.1 result.0.now)) ≡ true }
{
    let (first, end) = SPANS[form.first_ordinal() as usize];
    (ROWS, first, end)
}

/// The rows of a form.
fn form_rows(form: Form) -> &'static [TemplateRow]
    ensures rows { result.now ≡ form_rows form }
    ensures sound { list_all is_sound_row result.now ≡ true }
{
    let (rows, first, end) = span_of(form);
    &rows[first as usize..end as usize]
}

impl Place {
    /// How a row there uses a ModRM byte.
    fn usage(self) -> ModrmUse
        ensures { result ≡ place_use self }
    {
        match self {
            Place::Bare => ModrmUse::Absent,
            _ => ModrmUse::EitherForm,
        }
    }
}

fn first_row(rows: &[TemplateRow]) -> Option<TemplateRow>
    ensures { result ≡ slice_get rows.now 0 }
{
    rows.first().copied()
}

/// How a form uses a ModRM byte, by its first row.
#[tactic(auto, using(crate::proofs::HeadLemmas::no_first_use, crate::proofs::HeadLemmas::first_use))]
pub fn form_modrm(form: Form) -> ModrmUse
    ensures { result ≡ modrm_use form }
{
    match first_row(form_rows(form)) {
        None => ModrmUse::Absent,
        Some(row) => row.at.place.usage(),
    }
}

/// The row of a plain form at a ModRM byte; `own` is the row in the opcode map.
#[tactic(auto, unfolding(crate::specs::Forms::form_instance, crate::specs::Forms::form_record))]
pub fn chosen_row(own: &TableRow, prefixes: &Prefixes, modrm: ModRM) -> TemplateRow
    ensures instance { instance_of_row result own.now prefixes.now modrm
        ≡ (form_record own.now prefixes.now).instance modrm }
    ensures sound { is_sound_row result ≡ true }
    ensures placed { is_placed result.at.place modrm ≡ true }
{
    choose(form_rows(own.form), own, false, prefixes, modrm)
}

/// Reads what a row has after its opcode byte, where its form is a plain form: ModRM, the memory operand, the
/// immediates.
///
/// The bytes taken are exactly those that the record has; after a refusal, those that it takes before; at
/// `ExhaustedInput`, the pieces before the first that isn't whole.
#[tactic(auto, unfolding(crate::specs::Forms::form_record, crate::specs::RowSteps::record_step))]
pub fn read_form<T: Reader<u64, u8>>(
    reader: &mut T,
    row: TableRow,
    prefixes: Prefixes,
) -> Result<Reading, DecodeError>
    requires plain { is_group row.form ≡ false }
    requires carried { IsForm row.form }
    ensures { outcome result (T.state reader.new)
        ≡ record_step (form_record row prefixes) prefixes (T.state reader.old) }
{
    let modrm = read_modrm(reader, form_modrm(row.form))?;
    let chosen = chosen_row(&row, &prefixes, modrm);
    chosen.read(&row, reader, modrm, prefixes)
}

/// Which parts a row has whose form is a plain form, at a ModRM byte. `modrm` is read only where the row has a
/// ModRM. Where the row refuses with every suffix, the answer is open.
///
/// For the row of 03, which is ADD, at ModRM 44 this is a ModRM of the memory form, and nothing else.
#[tactic(auto, using(crate::proofs::TemplateLemmas::row_asks), unfolding(crate::specs::Forms::form_record, crate::specs::Asks::ask_of))]
pub fn form_ask(row: TableRow, prefixes: Prefixes, modrm: u8) -> Ask
    requires plain { is_group row.form ≡ false }
    requires carried { IsForm row.form }
    ensures { result ≡ ask_of (form_record row prefixes) modrm }
{
    let usage = form_modrm(row.form);
    let modrm = used_modrm(usage, Some(modrm));
    let chosen = chosen_row(&row, &prefixes, modrm);
    chosen.ask(usage, &row, &prefixes, modrm)
}
