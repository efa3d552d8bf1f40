//! Rows of forms: where each is, and what it has there. The first row that holds counts.
ghost use Rattle.std.specs.Prelude.{◌≡◌, ◌&&◌, true};
ghost use Rattle.std.specs.List.{list_all};
ghost use Rattle.x86_operands.specs.Columns.{choose, is_placed, is_prefixed, is_reg, is_rm, is_named, opcode_of};
ghost use Rattle.x86_operands.specs.Templates.{is_sound_row};

use crate::templates::Template;
use crate::vocabulary::{OperandEncoding, PrefixChange, Verdict};
use x86_fields::{Mandatory, ModRM, Prefixes};
use x86_forms::TableRow;
use x86_opcodes::Opcode;

/// In which forms of ModRM a row is.
#[derive(Clone, Copy, Drop)]
pub enum Place {
    /// No ModRM byte.
    Bare,
    Either,
    Memory,
    Register,
}

/// With which reg a row is.
#[derive(Clone, Copy, Drop)]
pub enum Reg {
    Any,
    Is(u8),
    /// The first and the last one.
    From(u8, u8),
}

/// With which rm a row is.
#[derive(Clone, Copy, Drop)]
pub enum Rm {
    Any,
    Is(u8),
    /// 0, and unless the choice is strict any other.
    ZeroIfStrict,
}

/// Under which prefixes a row is.
#[derive(Clone, Copy, Drop)]
pub enum When {
    /// Any.
    Always,
    /// None of 66, F2 and F3.
    NoPrefix,
    /// Neither F2 nor F3.
    NoRepeat,
    /// 66 without F2 and F3.
    Only66,
    F2,
    F3,
    /// 66, whatever else there is.
    With66,
    /// 67, whatever else there is.
    With67,
    /// W of a live REX.
    RexW,
    /// R of a live REX.
    RexR,
    /// Any, where the opcode byte and B choose register 0.
    Register0,
    /// Any, where the opcode map has the opcode of this number.
    Opcode(u16),
}

/// How a row names its operation: by numbers of opcodes, of which 0 is no name.
#[derive(Clone, Copy, Drop)]
pub enum Names {
    /// The opcode of the row in the opcode map.
    Own,
    Name(u16),
    /// Those of /0 to /7. Where it has no name the row isn't there.
    ByReg([u16; 8]),
    /// Those of rm 0 to rm 7, likewise.
    ByRm([u16; 8]),
}

/// With which ModRM bytes a row is.
#[derive(Clone, Copy, Drop)]
pub struct Where {
    pub place: Place,
    pub reg: Reg,
    pub rm: Rm,
}

/// A row of a form: where it is, and what it has there.
#[derive(Clone, Copy, Drop)]
pub struct TemplateRow {
    pub at: Where,
    pub when: When,
    pub names: Names,
    /// The operands and the memory size. A row that refuses takes the bytes of its operands before.
    pub template: Template,
    /// What changes in the prefixes of the answer.
    pub change: PrefixChange,
    pub verdict: Verdict,
}

impl Place {
    /// Whether a row is at a ModRM byte; one that isn't there reads as C0.
    #[inline(always)]
    pub(crate) fn has(self, modrm: ModRM) -> bool
        ensures { result ≡ is_placed self modrm }
    {
        // Most rows are there at any ModRM byte: so one test comes first.
        if self as usize <= Place::Either as usize {
            return true;
        }
        matches!(self, Place::Memory) == modrm.is_memory()
    }
}

impl Where {
    /// Whether a row is at a ModRM byte, if it has a name there.
    fn has(&self, strict: bool, modrm: ModRM) -> bool
        ensures { result ≡ is_placed self.now.place modrm && (is_reg self.now.reg modrm
            && is_rm self.now.rm strict modrm) }
    {
        if !self.place.has(modrm) {
            return false;
        }
        let has_reg = match self.reg {
            Reg::Any => true,
            Reg::Is(reg) => modrm.reg_field() == reg,
            Reg::From(first, last) => (first..=last).contains(&modrm.reg_field()),
        };
        let has_rm = match self.rm {
            Rm::Any => true,
            Rm::Is(rm) => modrm.rm_field() == rm,
            Rm::ZeroIfStrict => !strict || modrm.rm_field() == 0,
        };
        has_reg && has_rm
    }
}

impl TemplateRow {
    /// Whether the row has its prefixes, and a name at a ModRM byte.
    fn holds(&self, own: &TableRow, prefixes: &Prefixes, modrm: ModRM) -> bool
        ensures { result ≡ is_prefixed self.now.when own.now prefixes.now
            && is_named self.now.names modrm }
    {
        self.has_prefixes(own, prefixes)
            && match self.names {
                Names::Own | Names::Name(_) => true,
                Names::ByReg(names) => names[modrm.reg_field() as usize] != 0,
                Names::ByRm(names) => names[modrm.rm_field() as usize] != 0,
            }
    }

    fn has_prefixes(&self, own: &TableRow, prefixes: &Prefixes) -> bool
        ensures { result ≡ is_prefixed self.now.when own.now prefixes.now }
    {
        let mandatory = prefixes.mandatory();
        match self.when {
            When::Always => true,
            When::NoPrefix => matches!(mandatory, Mandatory::Absent),
            When::NoRepeat => matches!(mandatory, Mandatory::Absent | Mandatory::OperandSize),
            When::Only66 => matches!(mandatory, Mandatory::OperandSize),
            When::F2 => matches!(mandatory, Mandatory::F2),
            When::F3 => matches!(mandatory, Mandatory::F3),
            When::With66 => prefixes.operand_size(),
            When::With67 => prefixes.address_size(),
            When::RexW => prefixes.has_w(),
            When::RexR => match prefixes.rex() {
                Some(rex) => rex.r(),
                None => false,
            },
            When::Register0 => own.form.carried() == 0 && !prefixes.has_b(),
            When::Opcode(number) => number == own.opcode.number(),
        }
    }
}

/// The first row that is there; `own` is the row in the opcode map. Where none is, the opcode is refused.
#[tactic(auto, using(crate::proofs::TemplateLemmas::sound_at))]
pub fn choose(
    rows: &[TemplateRow],
    own: &TableRow,
    strict: bool,
    prefixes: &Prefixes,
    modrm: ModRM,
) -> TemplateRow
    ensures row { result ≡ choose rows.now own.now strict prefixes.now modrm }
    ensures sound { list_all is_sound_row rows.now ≡ true → is_sound_row result ≡ true }
    ensures placed { is_placed result.at.place modrm ≡ true }
{
    for row in rows {
        if row.at.has(strict, modrm) && row.holds(own, prefixes, modrm) {
            return *row;
        }
    }
    refused!(Either Reg::Any, Rm::Any; When::Always; NO B false B OperandEncoding::ABSENT, OperandEncoding::ABSENT; BadOpcode)
}

impl TemplateRow {
    /// The operation at a ModRM byte; `own` is the row in the opcode map.
    pub(crate) fn opcode(&self, own: &TableRow, modrm: ModRM) -> Opcode
        ensures { result ≡ opcode_of self.now.names own.now modrm }
    {
        let number = match self.names {
            Names::Own => own.opcode.number(),
            Names::Name(number) => number,
            Names::ByReg(names) => names[modrm.reg_field() as usize],
            Names::ByRm(names) => names[modrm.rm_field() as usize],
        };
        Opcode::from_number(number as u64).unwrap_or(Opcode::Invalid)
    }
}
