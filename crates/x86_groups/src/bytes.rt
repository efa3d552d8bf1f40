//! The rows of opcode bytes that no legacy prefix precedes, and that follow nothing or 0F: what follows the byte, and what
//! is read there, where form, mod and reg alone choose the row.

ghost use Rattle.std.specs.Prelude.{◌≡◌, true, IfSome};
ghost use Rattle.x86_forms.specs.declared.Map.{Map};
ghost use Rattle.x86_forms.specs.declared.Column.{Column};
ghost use Rattle.x86_forms.specs.declared.TableRow.{TableRow};
ghost use Rattle.x86_forms.specs.Rows.{printed_row};
ghost use Rattle.x86_groups.specs.Bytes.{IsByteRow, IsListed, is_chosen_at, is_direct_at, says};
ghost use Rattle.x86_groups.specs.Heads.{IsReadAt, IsSure};
ghost use Rattle.x86_operands.specs.Templates.{has_free_sizes};

use crate::byte_tables::{OF, ONE};
use crate::cells::cell_row;
use crate::rows::SureRow;
use x86_fields::ModRM;
use x86_opcodes::Opcode;
use x86_operands::Template;

/// What follows an opcode byte, and what chooses the row.
#[derive(Clone, Copy, Drop)]
pub enum Next {
    /// A ModRM of either form.
    Either,
    /// No ModRM.
    Nothing,
    /// What fewer encodings have.
    Chosen(Choice),
}

/// What else chooses the row. They are apart, so that the common bytes need fewer tests.
#[derive(Clone, Copy, Drop)]
pub enum Choice {
    /// A ModRM of the memory form.
    Memory,
    /// A ModRM of the register form.
    Register,
    /// A ModRM, whose mod and reg choose a cell; the number of the group's form.
    Cells(u8),
    /// A search of the rows, if there is one.
    Search,
}

/// The row of an opcode byte.
#[derive(Clone, Copy, Drop)]
pub struct ByteRow {
    pub next: Next,
    /// The number of the opcode byte's register, where form and mod alone choose the row, as those below.
    pub register: u8,
    /// The number of its operation.
    pub operation: u16,
    /// Its operands, with the memory sizes that the operation decides.
    pub template: Template,
}

/// A row that form and mod alone choose: what follows, the numbers of the operation and of the register, the operands,
/// and the two memory sizes.
macro_rules! direct {
    ($next:expr; $operation:literal $register:literal; $order:ident $r:ident $of_opcode:literal $e:ident $last:expr, $extra:expr; $in_memory:ident $in_register:ident) => {
        ByteRow {
            next: $next,
            operation: $operation,
            register: $register,
            template: x86_operands::Template {
                order: x86_operands::order::$order,
                reg: x86_operands::Width::$r,
                of_opcode: $of_opcode,
                rm: x86_operands::Width::$e,
                last: $last,
                extra: $extra,
                in_memory: x86_operands::Size::$in_memory,
                in_register: x86_operands::Size::$in_register,
            },
        }
    };
}

/// A byte of another row, or of none.
macro_rules! other {
    ($next:expr) => {
        ByteRow {
            next: $next,
            operation: 0,
            register: 0,
            template: x86_operands::Template {
                order: x86_operands::order::NO,
                reg: x86_operands::Width::B,
                of_opcode: false,
                rm: x86_operands::Width::B,
                last: ABSENT,
                extra: ABSENT,
                in_memory: x86_operands::Size::Zero,
                in_register: x86_operands::Size::Zero,
            },
        }
    };
}

pub(crate) use direct;
pub(crate) use other;

impl Choice {
    /// Whether form and mod alone choose the row, and it is at a ModRM byte.
    #[inline(always)]
    fn is_direct_at(self, modrm: ModRM) -> bool
        ensures { result ≡ is_chosen_at self modrm }
    {
        match self {
            Choice::Memory => modrm.is_memory(),
            Choice::Register => !modrm.is_memory(),
            Choice::Cells(_) | Choice::Search => false,
        }
    }
}

impl Next {
    /// Whether form and mod alone choose the row, and it is at a ModRM byte.
    #[inline(always)]
    fn is_direct_at(self, modrm: ModRM) -> bool
        ensures { result ≡ is_direct_at self modrm }
    {
        match self {
            Next::Either | Next::Nothing => true,
            Next::Chosen(choice) => choice.is_direct_at(modrm),
        }
    }
}

/// The row of an opcode byte that follows nothing.
#[inline(always)]
pub fn byte_row(byte: u8) -> &'static ByteRow
    ensures { says result.now (printed_row Map.One Column.Plain byte) }
{
    &ONE[byte as usize]
}

/// The row of an opcode byte that follows 0F.
#[inline(always)]
pub fn escaped_row(byte: u8) -> &'static ByteRow
    ensures { says result.now (printed_row Map.Of Column.Plain byte) }
{
    &OF[byte as usize]
}

/// The operation and the operands of a byte's row at a ModRM byte, where they are read at once, and the form, mod and
/// reg alone choose the row.
#[inline(always)]
pub fn sure_byte_row(row: &'static ByteRow, modrm: ModRM) -> Option<SureRow<'static>>
    requires { IsListed row.now }
    ensures sure { (found : TableRow) → IsByteRow row.now found →
        IfSome result (IsSure found modrm) }
    ensures at_once { IfSome result (IsReadAt modrm) }
    ensures free { IfSome result (λ sure. has_free_sizes sure.template.now ≡ true) }
{
    if let Next::Chosen(Choice::Cells(form_number)) = row.next {
        return cell_row(form_number as usize, modrm);
    }
    if !row.next.is_direct_at(modrm) {
        return None;
    }
    Some(SureRow {
        opcode: Opcode::numbered(row.operation),
        register: row.register,
        template: &row.template,
    })
}
