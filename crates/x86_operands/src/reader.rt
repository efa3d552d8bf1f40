//! What a row has after its ModRM byte.
ghost use Rattle.x86_operands.specs.OperandList.{value_if_ok};
ghost use Rattle.std.specs.Prelude.{◌≡◌, ℕ, true, OnOk};
ghost use Rattle.x86_arch.specs.Reader.{State};
ghost use Rattle.x86_fields.specs.Steps.{outcome};
ghost use Rattle.x86_forms.specs.Words.{IsForm};
ghost use Rattle.x86_operands.specs.Columns.{is_placed, instance_of_row};
ghost use Rattle.x86_operands.specs.Places.{instance_places};
ghost use Rattle.x86_operands.specs.RowSteps.{changed, error_of, no_operands, read_modrm, read_opcode, read_instance, reading_with, refuse_fault, suffix_opcode};
ghost use Rattle.x86_operands.specs.Asks.{uses_suffix};
ghost use Rattle.x86_operands.specs.Templates.{is_sound_row};

use crate::operand_list::Operands;
use crate::places::Places;
use crate::rows::TemplateRow;
use crate::vocabulary::{Fault, ModrmUse, PrefixChange, Verdict};
use crate::{Operand, Slot, Template, used_modrm};
use x86_arch::Reader;
use x86_fields::{DecodeError, ModRM, PrefixedModRM, Prefixes, next_byte};
use x86_forms::TableRow;
use x86_opcodes::Opcode;

/// What was read after an opcode byte.
#[derive(Clone, Copy, Drop)]
pub struct Reading {
    /// The operation: that of the row, or the one that ModRM or a suffix chose.
    pub opcode: Opcode,
    /// How many operands there are, at most 4. At this index and above it slots and operands are `Nothing`.
    pub count: u8,
    /// Where each operand comes from.
    pub slots: [Slot; 4],
    pub operands: [Operand; 4],
    /// The memory size in bytes, which the row has for the operation: 0 where it has none, and 63 where the processor
    /// decides.
    pub mem_size: u8,
    /// The prefixes with the changes that the operation makes.
    pub prefixes: Prefixes,
}

fn error_of(fault: Fault) -> DecodeError
    ensures { result ≡ error_of fault }
{
    match fault {
        Fault::BadOpcode => DecodeError::InvalidOpcode,
        Fault::BadOperand => DecodeError::InvalidOperand,
        Fault::Incomplete => DecodeError::IncompleteDecoder,
    }
}

/// A refusal, if there is a fault, as of a row at its opcode byte.
pub fn refuse_fault(fault: Option<Fault>) -> Result<(), DecodeError>
    ensures { (s : State ℕ) → outcome result s ≡ refuse_fault fault s }
{
    match fault {
        None => Ok(()),
        Some(fault) => Err(error_of(fault)),
    }
}

/// The opcode that a suffix byte names (AMD APM volume 3, appendix A.1.2).
#[tactic(auto, unfolding(crate::specs::RowSteps::suffix_opcode))]
pub fn suffix_opcode(byte: u8) -> Option<Opcode>
    ensures { result ≡ suffix_opcode byte }
{
    match byte {
        0x0c => Some(Opcode::PI2FW),
        0x0d => Some(Opcode::PI2FD),
        0x1c => Some(Opcode::PF2IW),
        0x1d => Some(Opcode::PF2ID),
        0x8a => Some(Opcode::PFNACC),
        0x8e => Some(Opcode::PFPNACC),
        0x90 => Some(Opcode::PFCMPGE),
        0x94 => Some(Opcode::PFMIN),
        0x96 => Some(Opcode::PFRCP),
        0x97 => Some(Opcode::PFRSQRT),
        0x9a => Some(Opcode::PFSUB),
        0x9e => Some(Opcode::PFADD),
        0xa0 => Some(Opcode::PFCMPGT),
        0xa4 => Some(Opcode::PFMAX),
        0xa6 => Some(Opcode::PFRCPIT1),
        0xa7 => Some(Opcode::PFRSQIT1),
        0xaa => Some(Opcode::PFSUBR),
        0xae => Some(Opcode::PFACC),
        0xb0 => Some(Opcode::PFCMPEQ),
        0xb4 => Some(Opcode::PFMUL),
        0xb6 => Some(Opcode::PFRCPIT2),
        0xb7 => Some(Opcode::PMULHRW),
        0xbb => Some(Opcode::PSWAPD),
        0xbf => Some(Opcode::PAVGUSB),
        _ => None,
    }
}

/// The row's opcode, or the one that the suffix names; or the row's refusal.
fn read_opcode<T: Reader<u64, u8>>(
    reader: &mut T,
    verdict: Verdict,
    opcode: Opcode,
) -> Result<Opcode, DecodeError>
    ensures { outcome result (T.state reader.new)
        ≡ read_opcode verdict opcode (T.state reader.old) }
{
    match verdict {
        Verdict::NamedBySuffix => {
            let byte = next_byte(reader)?;
            suffix_opcode(byte).ok_or(DecodeError::InvalidOpcode)
        }
        Verdict::Accepts => Ok(opcode),
        Verdict::Refuses(fault) => Err(error_of(fault)),
    }
}

impl PrefixChange {
    /// The prefixes with the change.
    fn of(self, prefixes: &Prefixes) -> Prefixes
        ensures { result ≡ changed self prefixes.now }
    {
        match self {
            PrefixChange::Keeps => *prefixes,
            PrefixChange::ClearsOperandSize => prefixes.without_operand_size(),
            PrefixChange::SetsEs => prefixes.with_es(),
        }
    }
}

impl TemplateRow {
    /// Whether a last byte names the operation.
    pub(crate) fn has_suffix(&self) -> bool
        ensures { result ≡ uses_suffix self.now.verdict }
    {
        matches!(self.verdict, Verdict::NamedBySuffix)
    }

    /// What the row has after its ModRM, written into blank operands, and the places of its parts; `own` is the row in
    /// the opcode map.
    #[tactic(auto, unfolding(crate::specs::RowSteps::read_instance), using(crate::proofs::TemplateLemmas::sound_template, crate::proofs::TemplateLemmas::sound_parts, crate::proofs::TemplateLemmas::fits_placed, crate::proofs::TemplateLemmas::sizes_with, crate::proofs::TemplateLemmas::in_order))]
    pub fn read_into<T: Reader<u64, u8>>(
        &self,
        own: &TableRow,
        reader: &mut T,
        modrm: ModRM,
        prefixes: &mut Prefixes,
        opcode: &mut Opcode,
        operand_list: &mut Operands,
        places: &mut Places,
    ) -> Result<(), DecodeError>
        requires form { IsForm own.now.form }
        requires blank { operand_list.old ≡ no_operands }
        requires sound { is_sound_row self.now ≡ true }
        requires placed { is_placed self.now.at.place modrm ≡ true }
        ensures read { outcome
            (value_if_ok result (reading_with opcode.new prefixes.new operand_list.new))
            (T.state reader.new) ≡ read_instance
            (instance_of_row self.now own.now prefixes.old modrm) prefixes.old modrm
            (T.state reader.old) }
        ensures places { OnOk result (places.new ≡ instance_places
            (instance_of_row self.now own.now prefixes.old modrm) prefixes.old modrm
            (T.state reader.old) places.old.opcode_end) }
    {
        let template = self.template.with_sizes(own.opcode);
        let Template {
            order,
            last,
            extra,
            ..
        } = template;
        let num = own.form.carried();
        let fields = PrefixedModRM::of(prefixes, modrm);
        operand_list.read_first(reader, &template, num, &fields, &mut places.address_end)?;
        operand_list.read_other(order.last, reader, last, num, prefixes, modrm)?;
        operand_list.read_other(order.extra, reader, extra, num, prefixes, modrm)?;
        places.has_suffix = self.has_suffix();
        *opcode = read_opcode(reader, self.verdict, self.opcode(own, modrm))?;
        *prefixes = self.change.of(prefixes);
        Ok(())
    }

    /// What the row has after its ModRM; `own` is the row in the opcode map.
    pub fn read<T: Reader<u64, u8>>(
        &self,
        own: &TableRow,
        reader: &mut T,
        modrm: ModRM,
        prefixes: Prefixes,
    ) -> Result<Reading, DecodeError>
        requires form { IsForm own.now.form }
        requires sound { is_sound_row self.now ≡ true }
        requires placed { is_placed self.now.at.place modrm ≡ true }
        ensures { outcome result (T.state reader.new) ≡ read_instance
            (instance_of_row self.now own.now prefixes modrm) prefixes modrm
            (T.state reader.old) }
    {
        let mut prefixes = prefixes;
        let mut opcode = own.opcode;
        let mut operand_list = Operands::none();
        let mut places = Places::NONE;
        self.read_into(
            own,
            reader,
            modrm,
            &mut prefixes,
            &mut opcode,
            &mut operand_list,
            &mut places,
        )?;
        Ok(Reading {
            opcode,
            count: operand_list.count,
            slots: operand_list.slots,
            operands: operand_list.operands,
            mem_size: operand_list.mem_size,
            prefixes,
        })
    }
}

/// The ModRM byte as a row uses it.
pub fn read_modrm<T: Reader<u64, u8>>(reader: &mut T, modrm: ModrmUse) -> Result<ModRM, DecodeError>
    ensures { outcome result (T.state reader.new) ≡ read_modrm modrm (T.state reader.old) }
{
    match modrm {
        ModrmUse::Absent => Ok(ModRM::absent()),
        _ => {
            let byte = next_byte(reader)?;
            Ok(used_modrm(modrm, Some(byte)))
        }
    }
}
