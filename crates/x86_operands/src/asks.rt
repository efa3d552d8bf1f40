//! What a row has after its opcode byte, known from a ModRM byte alone.
ghost use Rattle.std.specs.Prelude.{◌≡◌, ◌≤◌};
ghost use Rattle.x86_fields.specs.Pieces.{option_bytes};
ghost use Rattle.x86_operands.specs.Asks.{immediate_width, modrm_of, part_width, template_ask};
ghost use Rattle.x86_forms.specs.Words.{carried};
ghost use Rattle.x86_operands.specs.Encodings.{resolved};

use crate::order::Position;
use crate::rows::TemplateRow;
use crate::templates::Template;
use crate::vocabulary::{Fault, ModrmUse, OperandEncoding, Verdict};
use x86_fields::{ModRM, Prefixes};
use x86_forms::TableRow;

/// Which parts of an encoding a row has after its opcode byte. Whether there is a SIB, and how long the displacement
/// of a memory form is, is known from ModRM and SIB (Intel SDM volume 2, section 2.1.5).
#[derive(Clone, Copy, PartialEq, Eq, Debug, Drop)]
pub struct Ask {
    /// Whether there is a ModRM byte.
    pub modrm: bool,
    /// Whether ModRM is a memory form that is read as such.
    pub memory: bool,
    /// How many bytes the immediates have together. The absolute addresses of opcodes A0 to A3 count as immediates.
    pub immediate: u8,
    /// Whether a last byte names the operation.
    pub suffix: bool,
}

/// A row's record at one ModRM byte. One that isn't there reads as C0.
#[derive(Clone, Copy, Drop)]
pub struct RecordAt {
    /// The refusal at the opcode byte.
    pub at_opcode: Option<Fault>,
    /// ModRM as the row uses it.
    pub modrm: ModRM,
    /// Which parts the row has.
    pub ask: Ask,
    /// Whether the row is read or refused.
    pub verdict: Verdict,
}

fn immediate_width(encoding: OperandEncoding) -> u8
    ensures value { result ≡ immediate_width encoding }
    ensures small { result ≤ 8 }
{
    match encoding {
        OperandEncoding::I8 | OperandEncoding::U8 | OperandEncoding::X8 => 1,
        OperandEncoding::I16
        | OperandEncoding::I32From16
        | OperandEncoding::U16
        | OperandEncoding::X16 => 2,
        OperandEncoding::I32 | OperandEncoding::I64 | OperandEncoding::Address32 => 4,
        OperandEncoding::I64Whole | OperandEncoding::Address64 => 8,
        _ => 0,
    }
}

/// A ModRM byte as a row uses it: C0 where the row has none, and mod 11 where mod isn't looked at. One that isn't there
/// reads as C0.
pub fn used_modrm(usage: ModrmUse, modrm: Option<u8>) -> ModRM
    ensures { result ≡ modrm_of usage (option_bytes modrm) }
{
    match (usage, modrm) {
        (ModrmUse::Absent, _) | (_, None) => ModRM::absent(),
        (ModrmUse::EitherForm, Some(byte)) => ModRM::new(byte),
        (ModrmUse::Registers, Some(byte)) => ModRM::new(byte).as_register(),
    }
}

/// How many bytes of immediate an operand has, if there is one.
fn part_width(at: Position, encoding: OperandEncoding, num: u8, prefixes: &Prefixes) -> u8
    ensures value { result ≡ part_width at (resolved encoding num prefixes.now) }
    ensures small { result ≤ 8 }
{
    match at {
        Position::Nowhere => 0,
        _ => immediate_width(encoding.resolved(num, prefixes)),
    }
}

impl TemplateRow {
    /// Which parts the row has at a ModRM byte that is used so; `own` is the row in the opcode map.
    pub fn ask(&self, usage: ModrmUse, own: &TableRow, prefixes: &Prefixes, modrm: ModRM) -> Ask
        ensures { result ≡ template_ask usage modrm self.now.template (carried own.now.form)
            prefixes.now self.now.verdict }
    {
        let Template {
            order,
            last,
            extra,
            ..
        } = self.template;
        let num = own.form.carried();
        Ask {
            modrm: !matches!(usage, ModrmUse::Absent),
            memory: !matches!(order.rm, Position::Nowhere) && modrm.is_memory(),
            immediate: part_width(order.last, last, num, prefixes)
                + part_width(order.extra, extra, num, prefixes),
            suffix: self.has_suffix(),
        }
    }
}
