//! Where control may go after an instruction.

/// Where control goes after an instruction, if it raises no fault but those that it always raises.
///
/// Source: Intel SDM volume 1, section 7.3.8, and volume 2, each operation.
#[derive(Clone, Copy, PartialEq, Eq, Debug, Drop)]
pub enum Flow {
    /// To the next instruction. SYSCALL, SYSENTER and INT n are so: what they call returns there.
    Next,
    /// To a function, which returns to the next instruction: CALL and CALLF, with the target where it is an immediate.
    Call(Option<u64>),
    /// To a target that isn't the next instruction: JMP and JMPF, with the target where it is an immediate.
    Jump(Option<u64>),
    /// To this target or to the next instruction: Jcc, LOOPNZ, LOOPZ, LOOP, JRCXZ and JECXZ by their condition, and
    /// XBEGIN, whose target is where an abort of the transaction continues.
    Branch(u64),
    /// To an address that the stack, a register or saved state has: RETURN, RETF, IRET, IRETD, IRETQ, UIRET, SYSRET,
    /// SYSEXIT and RSM.
    Return,
    /// Nowhere: HLT, which waits, UD0, UD1 and UD2, which raise #UD, and INT1 and INT3, which are for debuggers.
    Stop,
}
