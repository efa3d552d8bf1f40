//! The operands of an instruction: what their encodings yield, written where it stays.

ghost use Rattle.std.specs.Prelude.{◌≡◌, ◌<◌, ◌≢◌, ℕ, Option, None, true, OnOk};
ghost use Rattle.x86_fields.specs.Steps.{outcome};
ghost use Rattle.x86_operands.specs.Vocabulary.{Nowhere, Prefixes, Raw, is_memory};
ghost use Rattle.x86_operands.specs.RowSteps.{known_operand, leading_read, no_operands, other_read, put_at, put_encoded, put_in, read_instance, reading_with, register_slot, rm_read};
ghost use Rattle.x86_operands.specs.OperandList.{operand_in, sized_by, slot_in, value_if_ok, with_size};
ghost use Rattle.x86_operands.specs.Places.{place_after_address};
ghost use Rattle.x86_operands.specs.Encodings.{resolved};
ghost use Rattle.x86_operands.specs.Records.{template_instance};
ghost use Rattle.x86_operands.specs.Templates.{fits_form, fixed_encoding, has_address, has_free_sizes, is_last, is_read_at, reg_encoding, reg_part, rm_encoding};

use crate::order::Position;
use crate::places::place_of;
use crate::shapes::put_shape;
use crate::vocabulary::{OperandEncoding, RegisterSlot};
use crate::{Operand, Slot, Template};
use x86_arch::Reader;
use x86_fields::{
    DecodeError, ModRM, PrefixedModRM, Prefixes, Width, extend, read_raw, read_u8, read_u16,
    read_u32, read_u64,
};
use x86_regs::{RegSpec, RegisterClass};

/// The operands of an instruction, in the order in which a listing names them.
#[derive(Clone, Copy, Debug, Drop)]
pub struct Operands {
    /// Where each operand comes from.
    pub slots: [Slot; 4],
    pub operands: [Operand; 4],
    /// How many there are, at most 4. At this index and above it there is no operand.
    pub count: u8,
    /// The memory size in bytes, which the row has for the operation: 0 where it has none, and 63 where the processor
    /// decides.
    pub mem_size: u8,
}

/// Writes an immediate at an index: its slot, its kind, and its number.
macro_rules! put {
    ($list:ident $at:ident $slot:ident $operand:ident $imm:expr) => {
        $list.put_at($at, Slot::$slot, Operand::$operand { imm: $imm })
    };
}

pub(crate) use put;

impl Operands {
    /// Writes a slot and its operand at an index.
    pub(crate) fn put_at(&mut self, at: usize, slot: Slot, operand: Operand)
        requires { at < 4 }
        ensures { self.new ≡ put_at at (slot, operand) self.old }
    {
        self.slots[at] = slot;
        self.operands[at] = operand;
    }

    pub(crate) fn put_in_slot(&mut self, at: usize, slot: RegisterSlot, reg: RegSpec)
        requires { at < 4 }
        ensures { self.new ≡ put_at at (register_slot slot, Operand.Register reg) self.old }
    {
        let slot = match slot {
            RegisterSlot::Reg => Slot::Reg,
            RegisterSlot::Rm => Slot::Rm,
            RegisterSlot::Third => Slot::Third,
        };
        self.put_at(at, slot, Operand::Register { reg });
    }

    /// Writes the operand of a last encoding at an index: an immediate, or a constant that no byte spells.
    #[tactic(auto, unfolding(crate::specs::RowSteps::operand_step))]
    #[inline(always)]
    pub(crate) fn put_encoded<T: Reader<u64, u8>>(
        &mut self,
        at: usize,
        reader: &mut T,
        encoding: OperandEncoding,
    ) -> Result<(), DecodeError>
        requires index { at < 4 }
        requires last { is_last encoding ≡ true }
        ensures { (p : Prefixes) (m : ℕ) (memory : Option Raw) →
            outcome (value_if_ok result self.new) (T.state reader.new)
            ≡ put_encoded at encoding p m memory self.old (T.state reader.old) }
    {
        match encoding {
            OperandEncoding::I8 => put!(self at ImmI8 ImmediateI8 read_u8(reader)?.cast_signed()),
            OperandEncoding::U8 => put!(self at ImmU8 ImmediateU8 read_u8(reader)?),
            OperandEncoding::I16 =>
                put!(self at ImmI16 ImmediateI16 read_u16(reader)?.cast_signed()),
            OperandEncoding::U16 => put!(self at ImmU16 ImmediateU16 read_u16(reader)?),
            OperandEncoding::I32 =>
                put!(self at ImmI32 ImmediateI32 read_u32(reader)?.cast_signed()),
            OperandEncoding::I64 => {
                put!(self at ImmI64 ImmediateI64 read_u32(reader)?.cast_signed() as i64)
            }
            OperandEncoding::I64Whole => {
                put!(self at ImmI64 ImmediateI64 read_u64(reader)?.cast_signed())
            }
            OperandEncoding::ConstantI8(imm) => put!(self at ImmI8 ImmediateI8 imm),
            OperandEncoding::ConstantU8(imm) => put!(self at ImmU8 ImmediateU8 imm),
            OperandEncoding::Implied(slot, num, class) => {
                self.put_in_slot(at, slot, RegSpec::of(num, class));
            }
            // No last operand of an instance has another encoding.
            _ => put!(self at ImmU8 ImmediateU8 0),
        }
        Ok(())
    }

    /// The last operand, as its encoding yields it.
    #[tactic(auto, using(crate::proofs::InPlaceLemmas::at_position))]
    #[inline(always)]
    fn read_last<T: Reader<u64, u8>>(
        &mut self,
        at: Position,
        reader: &mut T,
        last: OperandEncoding,
        prefixes: &Prefixes,
    ) -> Result<(), DecodeError>
        requires position { at ≢ Nowhere }
        requires last { is_last last ≡ true }
        ensures { (n m : ℕ) → outcome (value_if_ok result self.new) (T.state reader.new)
            ≡ other_read at (resolved last n prefixes.now) prefixes.now m self.old
            (T.state reader.old) }
    {
        self.put_encoded(at as usize, reader, last.resolved(0, prefixes))
    }

    /// The register of reg, if it is an operand.
    #[inline(always)]
    fn put_reg(&mut self, at: Position, width: Width, fields: &PrefixedModRM<'_>)
        ensures { self.new ≡ put_in at (known_operand (reg_encoding width)
            fields.now.prefixes.now fields.now.modrm None) self.old }
    {
        match at {
            Position::Nowhere => {}
            at => {
                let reg = match width {
                    width if width.is_regular() => {
                        fields.register(width, fields.prefixes.reg_number(fields.modrm))
                    }
                    Width::Mm => RegSpec::mm(fields.modrm.reg_field()),
                    width => fields.reg(width),
                };
                self.put_at(at as usize, Slot::Reg, Operand::Register { reg });
            }
        }
    }

    /// The register of rm.
    #[inline(always)]
    fn put_rm(&mut self, at: Position, width: Width, fields: &PrefixedModRM<'_>)
        requires { at ≢ Nowhere }
        ensures { self.new ≡ put_in at (known_operand (rm_encoding width)
            fields.now.prefixes.now fields.now.modrm None) self.old }
    {
        let reg = match width {
            width if width.is_regular() => {
                fields.register(width, fields.prefixes.rm_number(fields.modrm))
            }
            Width::Mm => RegSpec::mm(fields.modrm.rm_field()),
            Width::St => RegSpec::of(fields.modrm.rm_field(), RegisterClass::ST),
            width => fields.rm(width),
        };
        self.put_at(at as usize, Slot::Rm, Operand::Register { reg });
    }

    /// The register of the opcode byte, or register 0, if it is an operand.
    #[inline(always)]
    fn put_fixed(&mut self, template: &Template, num: u8, fields: &PrefixedModRM<'_>)
        requires { num < 8 }
        ensures { (m : ℕ) → self.new ≡ put_in template.now.order.reg (known_operand
            (fixed_encoding template.now.of_opcode template.now.reg num) fields.now.prefixes.now m
            None) self.old }
    {
        match template.order.reg {
            Position::Nowhere => {}
            at => {
                let class = template.reg.class(fields.sizes);
                let num = if template.of_opcode {
                    extend(fields.prefixes.has_b(), num)
                } else {
                    0
                };
                let reg = fields.prefixes.register(class, num);
                self.put_at(at as usize, Slot::Reg, Operand::Register { reg });
            }
        }
    }

    /// The memory size, where SIB and displacement are there and where they aren't.
    #[inline(always)]
    fn put_size(&mut self, addressed: bool, template: &Template, fields: &PrefixedModRM<'_>)
        requires address { addressed ≡ has_address template.now.order.rm fields.now.modrm }
        requires free { has_free_sizes template.now ≡ true }
        ensures { self.new ≡ with_size template.now fields.now.prefixes.now fields.now.modrm
            self.old }
    {
        self.mem_size = template.mem_size(addressed, fields.sizes);
    }

    /// The operand of rm in the memory form.
    #[tactic(auto, using(crate::proofs::InPlaceLemmas::rm_in_memory))]
    #[inline(always)]
    fn read_memory<T: Reader<u64, u8>>(
        &mut self,
        at: Position,
        reader: &mut T,
        template: &Template,
        fields: &PrefixedModRM<'_>,
    ) -> Result<(), DecodeError>
        requires position { at ≢ Nowhere }
        requires memory { is_memory fields.now.modrm ≡ true }
        requires form { fits_form template.now fields.now.modrm ≡ true }
        ensures { outcome (value_if_ok result self.new) (T.state reader.new)
            ≡ rm_read at (rm_encoding template.now.rm) fields.now.prefixes.now fields.now.modrm
            self.old (T.state reader.old) }
    {
        let raw = read_raw(reader, fields.prefixes, fields.modrm.byte())?;
        put_shape(self, at as usize, &raw);
        Ok(())
    }

    /// The operand of rm, memory in the memory form, else the register; and the memory size. Each arm looks up its own
    /// size: so no other choice is made by the form.
    #[tactic(auto, using(crate::proofs::InPlaceLemmas::rm_in_register))]
    #[inline(always)]
    fn read_rm<T: Reader<u64, u8>>(
        &mut self,
        reader: &mut T,
        template: &Template,
        fields: &PrefixedModRM<'_>,
    ) -> Result<(), DecodeError>
        requires position { template.now.order.rm ≢ Nowhere }
        requires form { fits_form template.now fields.now.modrm ≡ true }
        requires free { has_free_sizes template.now ≡ true }
        ensures { outcome (value_if_ok result self.new) (T.state reader.new)
            ≡ rm_read template.now.order.rm (rm_encoding template.now.rm) fields.now.prefixes.now
            fields.now.modrm
            (with_size template.now fields.now.prefixes.now fields.now.modrm self.old)
            (T.state reader.old) }
    {
        if fields.in_memory {
            self.put_size(true, template, fields);
            self.read_memory(template.order.rm, reader, template, fields)
        } else {
            self.put_size(false, template, fields);
            self.put_rm(template.order.rm, template.rm, fields);
            Ok(())
        }
    }

    /// The operands of ModRM, or a register that no ModRM names; and the memory size.
    #[tactic(auto, using(crate::proofs::InPlaceLemmas::without_modrm, crate::proofs::InPlaceLemmas::with_modrm))]
    #[inline(always)]
    fn read_leading<T: Reader<u64, u8>>(
        &mut self,
        reader: &mut T,
        template: &Template,
        num: u8,
        fields: &PrefixedModRM<'_>,
    ) -> Result<(), DecodeError>
        requires small { num < 8 }
        requires form { fits_form template.now fields.now.modrm ≡ true }
        requires free { has_free_sizes template.now ≡ true }
        ensures { outcome (value_if_ok result self.new) (T.state reader.new)
            ≡ leading_read template.now.order (reg_part template.now num)
            (rm_encoding template.now.rm) fields.now.prefixes.now fields.now.modrm
            (with_size template.now fields.now.prefixes.now fields.now.modrm self.old)
            (T.state reader.old) }
    {
        match template.order.rm {
            Position::Nowhere => {
                self.put_size(false, template, fields);
                self.put_fixed(template, num, fields);
                Ok(())
            }
            _ => {
                self.read_rm(reader, template, fields)?;
                self.put_reg(template.order.reg, template.reg, fields);
                Ok(())
            }
        }
    }

    /// No operands: `Operands::none()` as a constant.
    pub const NONE: Operands = Operands {
        slots: [Slot::Nothing; 4],
        operands: [Operand::Nothing; 4],
        count: 0,
        mem_size: 0,
    };

    /// No operands.
    #[inline(always)]
    pub fn none() -> Operands
        ensures { result ≡ no_operands }
    {
        Operands::NONE
    }

    /// The operands of ModRM or of the opcode byte, how many operands there are, their memory size, and the place after
    /// SIB and displacement.
    #[tactic(auto, using(crate::proofs::InPlaceLemmas::address_is_read))]
    #[inline(always)]
    pub(crate) fn read_first<T: Reader<u64, u8>>(
        &mut self,
        reader: &mut T,
        template: &Template,
        num: u8,
        fields: &PrefixedModRM<'_>,
        address_end: &mut u8,
    ) -> Result<(), DecodeError>
        requires blank { self.old ≡ no_operands }
        requires small { num < 8 }
        requires form { fits_form template.now fields.now.modrm ≡ true }
        requires free { has_free_sizes template.now ≡ true }
        ensures read { outcome (value_if_ok result self.new) (T.state reader.new)
            ≡ leading_read template.now.order (reg_part template.now num)
            (rm_encoding template.now.rm) fields.now.prefixes.now fields.now.modrm
            (sized_by template.now fields.now.prefixes.now fields.now.modrm)
            (T.state reader.old) }
        ensures address { OnOk result (address_end.new ≡ place_after_address
            template.now.order.rm fields.now.prefixes.now fields.now.modrm (T.state reader.old)) }
    {
        self.count = template.order.count;
        self.read_leading(reader, template, num, fields)?;
        *address_end = place_of(reader.offset());
        Ok(())
    }

    /// The operands of a row that has nothing but what is read at once, and the place after SIB and displacement.
    #[tactic(auto, using(crate::proofs::InPlaceLemmas::instance_is_read, crate::proofs::TemplateLemmas::read_parts))]
    #[inline(always)]
    pub fn read<T: Reader<u64, u8>>(
        &mut self,
        reader: &mut T,
        template: &Template,
        num: u8,
        prefixes: &Prefixes,
        modrm: ModRM,
        address_end: &mut u8,
    ) -> Result<(), DecodeError>
        requires blank { self.old ≡ no_operands }
        requires small { num < 8 }
        requires fits { is_read_at template.now modrm ≡ true }
        requires free { has_free_sizes template.now ≡ true }
        ensures read { (opcode : ℕ) →
            outcome (value_if_ok result (reading_with opcode prefixes.now self.new))
            (T.state reader.new) ≡ read_instance
            (template_instance template.now num opcode prefixes.now modrm) prefixes.now modrm
            (T.state reader.old) }
        ensures address { OnOk result
            (address_end.new ≡ place_after_address template.now.order.rm prefixes.now modrm
            (T.state reader.old)) }
    {
        let fields = PrefixedModRM::of(prefixes, modrm);
        self.read_first(reader, template, num, &fields, address_end)?;
        match template.order.last {
            Position::Nowhere => Ok(()),
            at => self.read_last(at, reader, template.last, prefixes),
        }
    }

    /// The slot at an index, counted from 0; at the count and above it `Slot::Nothing`.
    pub fn slot(&self, i: u8) -> Slot
        ensures { result ≡ slot_in self.now i }
    {
        if i < self.count && i < 4 {
            self.slots[i as usize]
        } else {
            Slot::Nothing
        }
    }

    /// The operand at an index, counted from 0; at the count and above it `Operand::Nothing`.
    pub fn operand(&self, i: u8) -> Operand
        ensures { result ≡ operand_in self.now i }
    {
        if i < self.count && i < 4 {
            self.operands[i as usize]
        } else {
            Operand::Nothing
        }
    }
}
