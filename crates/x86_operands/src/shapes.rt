//! The memory operand of raw fields.
ghost use Rattle.std.specs.Prelude.{◌≡◌, ◌<◌};
ghost use Rattle.x86_operands.specs.RowSteps.{put_at};
ghost use Rattle.x86_operands.specs.Operands.{shape};

use crate::operand_list::Operands;
use crate::{Operand, Slot};
use x86_fields::Raw;

/// The memory operand of raw fields, with the parts that are present.
pub fn shape(raw: &Raw) -> (Slot, Operand)
    ensures { result ≡ shape raw.now }
{
    let mut operand_list = Operands::none();
    put_shape(&mut operand_list, 0, raw);
    (operand_list.slots[0], operand_list.operands[0])
}

/// Writes the memory operand of raw fields at an index. Each arm writes: a pair by value would go through the stack.
#[inline(always)]
#[tactic(auto, unfolding(crate::specs::Operands::shape))]
pub(crate) fn put_shape(operand_list: &mut Operands, at: usize, raw: &Raw)
    requires { at < 4 }
    ensures { operand_list.new ≡ put_at at (shape raw.now) operand_list.old }
{
    let disp = raw.disp;
    match raw.base() {
        Some(base) => match raw.index() {
            None => {
                if disp == 0 {
                    operand_list.put_at(at, Slot::Deref, Operand::MemDeref { base });
                } else {
                    operand_list.put_at(at, Slot::Disp, Operand::Disp { base, disp });
                }
            }
            Some(index) => {
                let scale = raw.scale();
                if disp == 0 {
                    let operand = Operand::MemBaseIndexScale { base, index, scale };
                    operand_list.put_at(at, Slot::BaseIndexScale, operand);
                } else {
                    let operand = Operand::MemBaseIndexScaleDisp {
                        base,
                        index,
                        scale,
                        disp,
                    };
                    operand_list.put_at(at, Slot::BaseIndexScaleDisp, operand);
                }
            }
        },
        None => match raw.index() {
            None => {
                let addr = disp.cast_unsigned();
                operand_list.put_at(at, Slot::DispU32, Operand::AbsoluteU32 { addr });
            }
            Some(index) => {
                let scale = raw.scale();
                if disp == 0 {
                    let operand = Operand::MemIndexScale { index, scale };
                    operand_list.put_at(at, Slot::IndexScale, operand);
                } else {
                    let operand = Operand::MemIndexScaleDisp { index, scale, disp };
                    operand_list.put_at(at, Slot::IndexScaleDisp, operand);
                }
            }
        },
    }
}
