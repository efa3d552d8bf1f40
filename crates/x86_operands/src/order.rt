//! The order of a row's operands.

/// Which operand something is. As a number it is the index of the operand.
#[derive(Clone, Copy, Drop)]
pub enum Position {
    First,
    Second,
    Third,
    Fourth,
    Nowhere,
}

/// The order of the operands. A constant's name has them in that order: R the register of reg or of the opcode byte (G
/// beside E), E the operand of rm, I the last one, X the one after it.
#[derive(Clone, Copy, Drop)]
pub struct Order {
    /// How many operands there are.
    pub count: u8,
    /// Where the register of reg is, that of the opcode byte, or the accumulator.
    pub reg: Position,
    /// Where the operand of rm is.
    pub rm: Position,
    /// Where the operand is that is none of these: an immediate, a constant, or what the name implies.
    pub last: Position,
    /// Where another such operand is, whose bytes come after those of the last one.
    pub extra: Position,
}

macro_rules! order_of {
    ($count:literal $reg:ident $rm:ident $last:ident $extra:ident) => {
        Order {
            count: $count,
            reg: Position::$reg,
            rm: Position::$rm,
            last: Position::$last,
            extra: Position::$extra,
        }
    };
}

/// No operand.
pub const NO: Order = order_of!(0 Nowhere Nowhere Nowhere Nowhere);
/// The last one alone.
pub const I: Order = order_of!(1 Nowhere Nowhere First Nowhere);
/// The last one, then another.
pub const I_X: Order = order_of!(2 Nowhere Nowhere First Second);
/// The register of reg, that of the opcode byte, or the accumulator.
pub const R: Order = order_of!(1 First Nowhere Nowhere Nowhere);
/// That register, then the last one.
pub const R_I: Order = order_of!(2 First Nowhere Second Nowhere);
/// `R_I`, then another.
pub const R_I_X: Order = order_of!(3 First Nowhere Second Third);
/// The last one, then that register.
pub const I_R: Order = order_of!(2 Second Nowhere First Nowhere);
/// The operand of rm.
pub const E: Order = order_of!(1 Nowhere First Nowhere Nowhere);
/// The operand of rm, then the last one.
pub const E_I: Order = order_of!(2 Nowhere First Second Nowhere);
/// The last one, then the operand of rm.
pub const I_E: Order = order_of!(2 Nowhere Second First Nowhere);
/// `E_I`, then another.
pub const E_I_X: Order = order_of!(3 Nowhere First Second Third);
/// The operand of rm, then the register of reg.
pub const E_G: Order = order_of!(2 Second First Nowhere Nowhere);
/// The register of reg, then the operand of rm.
pub const G_E: Order = order_of!(2 First Second Nowhere Nowhere);
/// `E_G`, then the last one.
pub const E_G_I: Order = order_of!(3 Second First Third Nowhere);
/// `G_E`, then the last one.
pub const G_E_I: Order = order_of!(3 First Second Third Nowhere);
/// `G_E_I`, then another.
pub const G_E_I_X: Order = order_of!(4 First Second Third Fourth);
