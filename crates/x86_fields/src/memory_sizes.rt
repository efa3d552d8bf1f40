//! The memory size that no encoding names.

/// The memory size of an operation for which the processor decides it, as for the state that XSAVE stores.
pub const UNDECIDED_SIZE: u8 = 63;
