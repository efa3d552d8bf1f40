//! Groups of which mod and reg alone choose the row: the row and the operation at each.

ghost use Rattle.std.specs.Prelude.{◌≡◌, ◌<◌, ◌+◌, if◌then◌else◌, true, false, IfSome};
ghost use Rattle.x86_fields.specs.ModRM.{is_memory, reg_field};
ghost use Rattle.x86_forms.specs.declared.Form.{Form};
ghost use Rattle.x86_forms.specs.declared.TableRow.{TableRow};
ghost use Rattle.x86_groups.specs.Bytes.{IsCelled};
ghost use Rattle.x86_groups.specs.Heads.{IsSure, operation_number};
ghost use Rattle.x86_operands.specs.Templates.{has_free_sizes};

use crate::rows::SureRow;
use crate::tables::{CELLS, CELLS_AT, ROWS};
use x86_fields::ModRM;
use x86_opcodes::Opcode;
use x86_operands::rows::{Names, TemplateRow};

/// What mod and reg choose in a group: the row of the table, and the number of its operation, which is 0 where rm names it.
/// Where they choose none alone, the row is the first, which names none.
#[derive(Clone, Copy, Drop)]
pub struct Cell {
    pub row: u8,
    pub number: u16,
}

/// A cell: its row and the number of its operation.
macro_rules! cell {
    ($row:literal $number:literal) => {
        Cell {
            row: $row,
            number: $number,
        }
    };
}

pub(crate) use cell;

impl Cell {
    /// The number of the operation of the cell's row at a ModRM byte, and 0 where the row has none there.
    #[inline(always)]
    fn operation_number(&self, row: &TemplateRow, modrm: ModRM) -> u16
        ensures { result ≡ operation_number self.now.number row.now.names modrm }
    {
        if self.number != 0 {
            return self.number;
        }
        match row.names {
            Names::ByRm(names) => names[modrm.rm_field() as usize],
            _ => 0,
        }
    }
}

/// Where the cell of a ModRM byte is: those of the memory forms come first, by reg.
#[inline(always)]
fn cell_index(modrm: ModRM) -> usize
    ensures index { result ≡ (if is_memory modrm then reg_field modrm else reg_field modrm + 8) }
    ensures small { result < 16 }
    ensures reg { reg_field modrm < 8 }
{
    let reg = modrm.reg_field() as usize;
    if modrm.is_memory() {
        return reg;
    }
    reg + 8
}

/// The operation and the operands of a group's row at a ModRM byte, where mod and reg alone choose the row, and it has an
/// operation there.
#[inline(always)]
pub(crate) fn cell_row(form_number: usize, modrm: ModRM) -> Option<SureRow<'static>>
    requires { (form : Form) × IsCelled form_number form }
    ensures sure { (found : TableRow) → IsCelled form_number found.form →
        IfSome result (IsSure found modrm) }
    ensures free { IfSome result (λ sure. has_free_sizes sure.template.now ≡ true) }
{
    let group = CELLS_AT[form_number];
    let cell = &CELLS[group as usize][cell_index(modrm)];
    let row = &ROWS[cell.row as usize];
    let number = cell.operation_number(row, modrm);
    if number == 0 {
        return None;
    }
    Some(SureRow {
        opcode: Opcode::numbered(number),
        register: 0,
        template: &row.template,
    })
}
