//! What an encoding reads of REX.

ghost use Rattle.std.specs.Prelude.{◌≡◌, ◌≤◌};
ghost use Rattle.x86_objdump.specs.Text.Words.{is_high, is_reg_slot, is_high_reg, reads_r, names_memory, is_high_base, reads_b, reads_x, is_new_byte, names_new_byte, has_some_bit, rex_is_read, live_rex_is_read};

use crate::text::choices::reads_w;
use crate::text::context::Context;
use x86_decode::Instruction;
use x86_fields::PrefixRex;
use x86_opcodes::Opcode;
use x86_operands::{Operand, Slot};
use x86_regs::RegisterClass;

#[inline(always)]
fn is_high(operand: &Operand) -> bool
    ensures { result ≡ is_high operand.now }
{
    match operand {
        Operand::Register { reg } => reg.num() >= 8,
        _ => false,
    }
}

#[inline(always)]
fn is_reg_slot(slot: Slot) -> bool
    ensures { result ≡ is_reg_slot slot }
{
    matches!(slot, Slot::Reg)
}

#[inline(always)]
fn is_high_reg(inst: &Instruction, k: u8) -> bool
    requires { k ≤ 3 }
    ensures { result ≡ is_high_reg inst.now k }
{
    is_reg_slot(inst.slot(k)) && is_high(&inst.operand(k))
}

/// Whether R extends reg.
#[inline(always)]
fn reads_r(context: &Context, inst: &Instruction) -> bool
    ensures { result ≡ reads_r context.now inst.now }
{
    context.has_modrm
        && (is_high_reg(inst, 0) || is_high_reg(inst, 1))
        && !(context.is_0f(0x1e) && context.prefixes.rep())
}

/// Whether an operand is memory.
#[inline(always)]
pub fn names_memory(inst: &Instruction) -> bool
    ensures { result ≡ names_memory inst.now }
{
    inst.slot(0).is_memory() || inst.slot(1).is_memory()
}

#[inline(always)]
fn is_high_base(context: &Context, inst: &Instruction, k: u8) -> bool
    requires { k ≤ 3 }
    ensures { result ≡ is_high_base context.now inst.now k }
{
    !(context.has_modrm && is_reg_slot(inst.slot(k))) && is_high(&inst.operand(k))
}

/// Whether B extends rm, the base of memory, or the register in the opcode byte.
#[inline(always)]
fn reads_b(context: &Context, inst: &Instruction) -> bool
    ensures { result ≡ reads_b context.now inst.now }
{
    context.has_modrm && names_memory(inst)
        || (is_high_base(context, inst, 0) || is_high_base(context, inst, 1))
            && !(inst.opcode() == Opcode::FNSTSW)
}

/// Whether X extends the index of a SIB.
#[inline(always)]
fn reads_x(context: &Context, inst: &Instruction) -> bool
    ensures { result ≡ reads_x context.now inst.now }
{
    context.has_modrm && names_memory(inst) && context.modrm.rm_field() == 4
}

#[inline(always)]
fn is_new_byte(operand: &Operand) -> bool
    ensures { result ≡ is_new_byte operand.now }
{
    match operand {
        Operand::Register { reg } => matches!(reg.class(), RegisterClass::RB),
        _ => false,
    }
}

/// Whether a byte register is named that needs a REX.
#[inline(always)]
fn names_new_byte(inst: &Instruction) -> bool
    ensures { result ≡ names_new_byte inst.now }
{
    is_new_byte(&inst.operand(0)) || is_new_byte(&inst.operand(1))
}

#[inline(always)]
fn has_some_bit(rex: PrefixRex) -> bool
    ensures { result ≡ has_some_bit rex }
{
    (rex.w() || rex.r()) || (rex.x() || rex.b())
}

#[inline(always)]
fn rex_is_read(context: &Context, inst: &Instruction, letter: u8, rex: PrefixRex) -> bool
    ensures { result ≡ rex_is_read context.now inst.now letter rex }
{
    (!rex.w() || reads_w(letter))
        && (!rex.x() || reads_x(context, inst))
        && (!rex.r() || reads_r(context, inst))
        && (!rex.b() || reads_b(context, inst))
        && (has_some_bit(rex) || names_new_byte(inst))
}

/// Whether the instruction reads each bit of its REX, and needs it.
#[inline(always)]
pub fn live_rex_is_read(context: &Context, inst: &Instruction, letter: u8) -> bool
    ensures { result ≡ live_rex_is_read context.now inst.now letter context.now.prefixes.rex }
{
    match context.prefixes.rex() {
        None => false,
        Some(rex) => rex_is_read(context, inst, letter, rex),
    }
}
