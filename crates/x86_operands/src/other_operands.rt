//! The operands that few rows have, written where they stay.

ghost use Rattle.std.specs.Prelude.{◌≡◌, ◌<◌, Option, true, false};
ghost use Rattle.x86_fields.specs.Steps.{outcome};
ghost use Rattle.x86_operands.specs.Vocabulary.{Raw, reg_spec};
ghost use Rattle.x86_operands.specs.RowSteps.{other_read, pointer_class, pointer_slot, put_at, put_encoded};
ghost use Rattle.x86_operands.specs.OperandList.{value_if_ok};
ghost use Rattle.x86_operands.specs.Encodings.{resolved};
ghost use Rattle.x86_operands.specs.Templates.{is_field};

use crate::operand_list::{Operands, put};
use crate::order::Position;
use crate::vocabulary::{OperandEncoding, PointerSlot};
use crate::{Operand, Slot};
use x86_arch::Reader;
use x86_fields::{DecodeError, ModRM, Prefixes, read_u8, read_u16, read_u32, read_u64};
use x86_regs::RegisterClass::{CR, D, DR, Q, S};
use x86_regs::{RegSpec, RegisterClass};

impl Operands {
    fn put_numbered(&mut self, at: usize, num: u8, class: RegisterClass)
        requires { at < 4 }
        ensures { self.new ≡ put_at at (Slot.Reg, Operand.Register (reg_spec num class)) self.old }
    {
        let reg = RegSpec::of(num, class);
        self.put_at(at, Slot::Reg, Operand::Register { reg });
    }

    fn put_memory(&mut self, at: usize, slot: PointerSlot, base: RegSpec)
        requires { at < 4 }
        ensures { self.new ≡ put_at at (pointer_slot slot, Operand.MemDeref base) self.old }
    {
        let slot = match slot {
            PointerSlot::Deref => Slot::Deref,
            PointerSlot::DerefEsi => Slot::DerefEsi,
            PointerSlot::DerefEdi => Slot::DerefEdi,
            PointerSlot::DerefRsi => Slot::DerefRsi,
            PointerSlot::DerefRdi => Slot::DerefRdi,
        };
        self.put_at(at, slot, Operand::MemDeref { base });
    }

    /// Memory at a register of the address size.
    fn put_pointer(&mut self, at: usize, num: u8, prefixes: &Prefixes)
        requires { at < 4 }
        ensures { self.new ≡ put_at at
            (Slot.Deref, Operand.MemDeref (reg_spec num (pointer_class prefixes.now))) self.old }
    {
        let class = if prefixes.address_size() { D } else { Q };
        self.put_memory(at, PointerSlot::Deref, RegSpec::of(num, class));
    }

    /// What an operand yields that is none of the letters of reg and rm, at an index: one call, since it is large.
    #[tactic(auto, unfolding(crate::specs::RowSteps::operand_step))]
    #[inline(never)]
    pub(crate) fn put_other<T: Reader<u64, u8>>(
        &mut self,
        at: usize,
        reader: &mut T,
        encoding: OperandEncoding,
        prefixes: &Prefixes,
        modrm: ModRM,
    ) -> Result<(), DecodeError>
        requires index { at < 4 }
        requires other { is_field encoding ≡ false }
        ensures { (memory : Option Raw) →
            outcome (value_if_ok result self.new) (T.state reader.new)
            ≡ put_encoded at encoding prefixes.now modrm memory self.old (T.state reader.old) }
    {
        let sizes = prefixes.size_prefixes();
        match encoding {
            OperandEncoding::I32From16 => {
                put!(self at ImmI32 ImmediateI32 read_u16(reader)?.cast_signed() as i32)
            }
            OperandEncoding::X8 => put!(self at ImmInDisp ImmediateU16 read_u8(reader)? as u16),
            OperandEncoding::X16 => put!(self at ImmInDisp ImmediateU16 read_u16(reader)?),
            OperandEncoding::Address32 => {
                let addr = read_u32(reader)?;
                self.put_at(at, Slot::DispU32, Operand::AbsoluteU32 { addr });
            }
            OperandEncoding::Address64 => {
                let addr = read_u64(reader)?;
                self.put_at(at, Slot::DispU64, Operand::AbsoluteU64 { addr });
            }
            OperandEncoding::Cr => self.put_numbered(at, prefixes.reg_number(modrm), CR),
            OperandEncoding::Dr => self.put_numbered(at, prefixes.reg_number(modrm), DR),
            OperandEncoding::Sr => self.put_numbered(at, prefixes.reg_number(modrm), S),
            OperandEncoding::RdInReg => self.put_numbered(at, prefixes.rm_number(modrm), D),
            OperandEncoding::Z(slot, width, num) => {
                let num = prefixes.rm_number(ModRM::new(num));
                self.put_in_slot(at, slot, prefixes.register(width.class(sizes), num));
            }
            OperandEncoding::A(width) => {
                let reg = prefixes.register(width.class(sizes), 0);
                self.put_at(at, Slot::Reg, Operand::Register { reg });
            }
            OperandEncoding::At(slot, num, class) => {
                self.put_memory(at, slot, RegSpec::of(num, class));
            }
            OperandEncoding::Source => self.put_pointer(at, 6, prefixes),
            OperandEncoding::Destination => self.put_pointer(at, 7, prefixes),
            // No instance has these.
            OperandEncoding::Jv | OperandEncoding::Offset => put!(self at ImmU8 ImmediateU8 0),
            encoding => return self.put_encoded(at, reader, encoding),
        }
        Ok(())
    }

    /// Another operand, if there is one.
    pub(crate) fn read_other<T: Reader<u64, u8>>(
        &mut self,
        at: Position,
        reader: &mut T,
        encoding: OperandEncoding,
        num: u8,
        prefixes: &Prefixes,
        modrm: ModRM,
    ) -> Result<(), DecodeError>
        requires { is_field encoding ≡ false }
        ensures { outcome (value_if_ok result self.new) (T.state reader.new)
            ≡ other_read at (resolved encoding num prefixes.now) prefixes.now modrm self.old
            (T.state reader.old) }
    {
        match at {
            Position::Nowhere => Ok(()),
            at => {
                let encoding = encoding.resolved(num, prefixes);
                self.put_other(at as usize, reader, encoding, prefixes, modrm)
            }
        }
    }
}
