//! The general registers and what they hold.

/// The sixteen general registers by number, 64 bits each.
#[derive(Clone, Copy, Drop)]
pub struct RegFile {
    /// rax, rcx, rdx, rbx, rsp, rbp, rsi, rdi, and r8 to r15.
    pub regs: [u64; 16],
}
