//! The prefixes F2 and F3, of which one is in force. Source: Intel SDM volume 2, section 2.1.1.

/// Which of F2 and F3 is in force.
#[derive(Clone, Copy, PartialEq, Eq, Debug, Drop)]
pub enum Repeat {
    /// REPNZ, or the mandatory prefix F2.
    F2,
    /// REP and REPZ, or the mandatory prefix F3.
    F3,
}

/// Which prefix chooses among the rows of an opcode byte (Intel SDM volume 2, section 2.1.2, mandatory prefixes).
#[derive(Clone, Copy, Drop)]
pub enum Mandatory {
    Absent,
    /// 66.
    OperandSize,
    F3,
    F2,
}
