//! How a form goes on after its opcode byte, and its row where the form and mod alone choose it.

ghost use Rattle.std.specs.Prelude.{◌≡◌, IfSome};
ghost use Rattle.x86_operands.specs.Forms.{Follows, IsPlainRow, is_direct};

use crate::tables::{HEADS, ROWS};
use crate::templates::Template;
use x86_fields::ModRM;
use x86_forms::WordRow;

/// What follows an opcode byte, and what chooses the row.
#[derive(Clone, Copy, Drop)]
pub enum After {
    /// No ModRM.
    Nothing,
    /// What a search of the rows finds.
    Search,
    /// A ModRM, whose mod the row may go by.
    Fields,
    /// A ModRM, whose mod and reg choose a cell.
    Cells,
}

impl After {
    /// Whether the form and mod alone choose the row.
    #[inline(always)]
    fn is_direct(self) -> bool
        ensures { result ≡ is_direct self }
    {
        matches!(self, After::Nothing | After::Fields)
    }
}

/// How a form goes on.
#[derive(Clone, Copy, Drop)]
pub struct Head {
    pub after: After,
    /// Its first row, where the form and mod alone choose it.
    pub row: u8,
}

/// A head: what follows the opcode byte, and the row.
macro_rules! head {
    ($after:ident $row:literal) => {
        Head {
            after: After::$after,
            row: $row,
        }
    };
}

pub(crate) use head;

/// What follows the opcode byte of a word's row.
#[inline(always)]
pub fn word_after(found: &WordRow) -> After
    ensures { Follows result found.now.row.form }
{
    HEADS[found.form_number].after
}

/// The operands of a plain form at a ModRM byte, where they are read at once, and the form and mod alone choose its row.
#[inline(always)]
pub fn plain_row(found: &WordRow, modrm: ModRM) -> Option<&'static Template>
    ensures { IfSome result (λ template. IsPlainRow found.now modrm template.now) }
{
    let head = &HEADS[found.form_number];
    if !head.after.is_direct() {
        return None;
    }
    let row = &ROWS[head.row as usize];
    if row.at.place.has(modrm) {
        Some(&row.template)
    } else {
        None
    }
}
