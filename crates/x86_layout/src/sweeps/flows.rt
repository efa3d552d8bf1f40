//! Where control goes after an instruction, and where it branches to.

ghost use Rattle.std.specs.Prelude.{◌≡◌};
ghost use Rattle.x86_layout.specs.Sweeps.Flows.{relative_target, direct_target, branch_target, flow_of};

use crate::sweeps::control::Flow;
use x86_decode::Instruction;
use x86_opcodes::Opcode;
use x86_operands::{Operand, Slot};

fn relative_target(inst: &Instruction, next: u64) -> u64
    ensures { result ≡ relative_target inst.now next }
{
    let offset = match inst.operand(0) {
        Operand::ImmediateI8 { imm } => i64::from(imm),
        Operand::ImmediateI32 { imm } => i64::from(imm),
        _ => 0,
    };
    next.wrapping_add_signed(offset)
}

fn direct_target(inst: &Instruction, next: u64) -> Option<u64>
    ensures { result ≡ direct_target inst.now next }
{
    match inst.slot(0) {
        Slot::ImmI8 | Slot::ImmI32 => Some(relative_target(inst, next)),
        _ => None,
    }
}

/// The address that an instruction branches to, where `next` is the address after it: `next` plus its sign-extended
/// immediate, modulo 2^64. `None` where the operation isn't CALL, JMP, a Jcc, LOOPNZ, LOOPZ, LOOP, JRCXZ or JECXZ, or
/// its target isn't an immediate (Intel SDM volume 2, CALL, JMP, Jcc and LOOP/LOOPcc).
///
/// For `eb fe` at address 0, with `next` 2, this is `Some(0)`; for `ff e0`, which is JMP rax, it is `None`. XBEGIN isn't
/// among these operations, though it has a target of this kind: [`flow`] answers it.
pub fn branch_target(inst: &Instruction, next: u64) -> Option<u64>
    ensures { result ≡ branch_target inst.now next }
{
    match inst.opcode() {
        Opcode::CALL
        | Opcode::JMP
        | Opcode::LOOPNZ
        | Opcode::LOOPZ
        | Opcode::LOOP
        | Opcode::JRCXZ
        | Opcode::JECXZ => direct_target(inst, next),
        opcode if opcode.is_jcc() => direct_target(inst, next),
        _ => None,
    }
}

/// Where control goes after an instruction, where `next` is the address after it. A target is `next` plus the
/// sign-extended immediate, modulo 2^64.
///
/// For `eb fe` at address 0, with `next` 2, this is `Jump(Some(0))`; for `ff e0`, which is JMP rax, `Jump(None)`; for
/// `cc` it is `Stop`, and for `cd 03`, the INT n with that number, `Next`.
pub fn flow(inst: &Instruction, next: u64) -> Flow
    ensures { result ≡ flow_of inst.now next }
{
    match inst.opcode() {
        Opcode::CALL | Opcode::CALLF => Flow::Call(direct_target(inst, next)),
        Opcode::JMP | Opcode::JMPF => Flow::Jump(direct_target(inst, next)),
        Opcode::LOOPNZ
        | Opcode::LOOPZ
        | Opcode::LOOP
        | Opcode::JRCXZ
        | Opcode::JECXZ
        | Opcode::XBEGIN => Flow::Branch(relative_target(inst, next)),
        Opcode::RETURN
        | Opcode::RETF
        | Opcode::IRET
        | Opcode::IRETD
        | Opcode::IRETQ
        | Opcode::UIRET
        | Opcode::SYSRET
        | Opcode::SYSEXIT
        | Opcode::RSM => Flow::Return,
        Opcode::HLT | Opcode::UD0 | Opcode::UD1 | Opcode::UD2 => Flow::Stop,
        // INT1 and INT3: INT n ends with its number.
        Opcode::INT if inst.len().to_const() == inst.places().opcode_end as u64 => Flow::Stop,
        opcode if opcode.is_jcc() => Flow::Branch(relative_target(inst, next)),
        _ => Flow::Next,
    }
}
