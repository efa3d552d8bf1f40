//! The general registers by name.

ghost use Rattle.std.specs.Prelude.{◌≡◌};
ghost use Rattle.x86_regs.specs.Register.{reg_spec};

use crate::{RegSpec, RegisterClass};

// General registers of 64 bits.
impl RegSpec {
    pub fn rax() -> RegSpec
        ensures { result ≡ reg_spec 0 RegisterClass.Q }
    {
        RegSpec::q(0)
    }

    pub fn rcx() -> RegSpec
        ensures { result ≡ reg_spec 1 RegisterClass.Q }
    {
        RegSpec::q(1)
    }

    pub fn rdx() -> RegSpec
        ensures { result ≡ reg_spec 2 RegisterClass.Q }
    {
        RegSpec::q(2)
    }

    pub fn rbx() -> RegSpec
        ensures { result ≡ reg_spec 3 RegisterClass.Q }
    {
        RegSpec::q(3)
    }

    pub fn rsp() -> RegSpec
        ensures { result ≡ reg_spec 4 RegisterClass.Q }
    {
        RegSpec::q(4)
    }

    pub fn rbp() -> RegSpec
        ensures { result ≡ reg_spec 5 RegisterClass.Q }
    {
        RegSpec::q(5)
    }

    pub fn rsi() -> RegSpec
        ensures { result ≡ reg_spec 6 RegisterClass.Q }
    {
        RegSpec::q(6)
    }

    pub fn rdi() -> RegSpec
        ensures { result ≡ reg_spec 7 RegisterClass.Q }
    {
        RegSpec::q(7)
    }

    pub fn r8() -> RegSpec
        ensures { result ≡ reg_spec 8 RegisterClass.Q }
    {
        RegSpec::q(8)
    }

    pub fn r9() -> RegSpec
        ensures { result ≡ reg_spec 9 RegisterClass.Q }
    {
        RegSpec::q(9)
    }

    pub fn r10() -> RegSpec
        ensures { result ≡ reg_spec 10 RegisterClass.Q }
    {
        RegSpec::q(10)
    }

    pub fn r11() -> RegSpec
        ensures { result ≡ reg_spec 11 RegisterClass.Q }
    {
        RegSpec::q(11)
    }

    pub fn r12() -> RegSpec
        ensures { result ≡ reg_spec 12 RegisterClass.Q }
    {
        RegSpec::q(12)
    }

    pub fn r13() -> RegSpec
        ensures { result ≡ reg_spec 13 RegisterClass.Q }
    {
        RegSpec::q(13)
    }

    pub fn r14() -> RegSpec
        ensures { result ≡ reg_spec 14 RegisterClass.Q }
    {
        RegSpec::q(14)
    }

    pub fn r15() -> RegSpec
        ensures { result ≡ reg_spec 15 RegisterClass.Q }
    {
        RegSpec::q(15)
    }
}

// General registers of 32 bits.
impl RegSpec {
    pub fn eax() -> RegSpec
        ensures { result ≡ reg_spec 0 RegisterClass.D }
    {
        RegSpec::d(0)
    }

    pub fn ecx() -> RegSpec
        ensures { result ≡ reg_spec 1 RegisterClass.D }
    {
        RegSpec::d(1)
    }

    pub fn edx() -> RegSpec
        ensures { result ≡ reg_spec 2 RegisterClass.D }
    {
        RegSpec::d(2)
    }

    pub fn ebx() -> RegSpec
        ensures { result ≡ reg_spec 3 RegisterClass.D }
    {
        RegSpec::d(3)
    }

    pub fn esp() -> RegSpec
        ensures { result ≡ reg_spec 4 RegisterClass.D }
    {
        RegSpec::d(4)
    }

    pub fn ebp() -> RegSpec
        ensures { result ≡ reg_spec 5 RegisterClass.D }
    {
        RegSpec::d(5)
    }

    pub fn esi() -> RegSpec
        ensures { result ≡ reg_spec 6 RegisterClass.D }
    {
        RegSpec::d(6)
    }

    pub fn edi() -> RegSpec
        ensures { result ≡ reg_spec 7 RegisterClass.D }
    {
        RegSpec::d(7)
    }

    pub fn r8d() -> RegSpec
        ensures { result ≡ reg_spec 8 RegisterClass.D }
    {
        RegSpec::d(8)
    }

    pub fn r9d() -> RegSpec
        ensures { result ≡ reg_spec 9 RegisterClass.D }
    {
        RegSpec::d(9)
    }

    pub fn r10d() -> RegSpec
        ensures { result ≡ reg_spec 10 RegisterClass.D }
    {
        RegSpec::d(10)
    }

    pub fn r11d() -> RegSpec
        ensures { result ≡ reg_spec 11 RegisterClass.D }
    {
        RegSpec::d(11)
    }

    pub fn r12d() -> RegSpec
        ensures { result ≡ reg_spec 12 RegisterClass.D }
    {
        RegSpec::d(12)
    }

    pub fn r13d() -> RegSpec
        ensures { result ≡ reg_spec 13 RegisterClass.D }
    {
        RegSpec::d(13)
    }

    pub fn r14d() -> RegSpec
        ensures { result ≡ reg_spec 14 RegisterClass.D }
    {
        RegSpec::d(14)
    }

    pub fn r15d() -> RegSpec
        ensures { result ≡ reg_spec 15 RegisterClass.D }
    {
        RegSpec::d(15)
    }
}

// General registers of 16 bits.
impl RegSpec {
    pub fn ax() -> RegSpec
        ensures { result ≡ reg_spec 0 RegisterClass.W }
    {
        RegSpec::w(0)
    }

    pub fn cx() -> RegSpec
        ensures { result ≡ reg_spec 1 RegisterClass.W }
    {
        RegSpec::w(1)
    }

    pub fn dx() -> RegSpec
        ensures { result ≡ reg_spec 2 RegisterClass.W }
    {
        RegSpec::w(2)
    }

    pub fn bx() -> RegSpec
        ensures { result ≡ reg_spec 3 RegisterClass.W }
    {
        RegSpec::w(3)
    }

    pub fn sp() -> RegSpec
        ensures { result ≡ reg_spec 4 RegisterClass.W }
    {
        RegSpec::w(4)
    }

    pub fn bp() -> RegSpec
        ensures { result ≡ reg_spec 5 RegisterClass.W }
    {
        RegSpec::w(5)
    }

    pub fn si() -> RegSpec
        ensures { result ≡ reg_spec 6 RegisterClass.W }
    {
        RegSpec::w(6)
    }

    pub fn di() -> RegSpec
        ensures { result ≡ reg_spec 7 RegisterClass.W }
    {
        RegSpec::w(7)
    }

    pub fn r8w() -> RegSpec
        ensures { result ≡ reg_spec 8 RegisterClass.W }
    {
        RegSpec::w(8)
    }

    pub fn r9w() -> RegSpec
        ensures { result ≡ reg_spec 9 RegisterClass.W }
    {
        RegSpec::w(9)
    }

    pub fn r10w() -> RegSpec
        ensures { result ≡ reg_spec 10 RegisterClass.W }
    {
        RegSpec::w(10)
    }

    pub fn r11w() -> RegSpec
        ensures { result ≡ reg_spec 11 RegisterClass.W }
    {
        RegSpec::w(11)
    }

    pub fn r12w() -> RegSpec
        ensures { result ≡ reg_spec 12 RegisterClass.W }
    {
        RegSpec::w(12)
    }

    pub fn r13w() -> RegSpec
        ensures { result ≡ reg_spec 13 RegisterClass.W }
    {
        RegSpec::w(13)
    }

    pub fn r14w() -> RegSpec
        ensures { result ≡ reg_spec 14 RegisterClass.W }
    {
        RegSpec::w(14)
    }

    pub fn r15w() -> RegSpec
        ensures { result ≡ reg_spec 15 RegisterClass.W }
    {
        RegSpec::w(15)
    }
}

// General registers of 8 bits: those that are named without REX, then those that need it.
impl RegSpec {
    pub fn al() -> RegSpec
        ensures { result ≡ reg_spec 0 RegisterClass.B }
    {
        RegSpec::b(0)
    }

    pub fn cl() -> RegSpec
        ensures { result ≡ reg_spec 1 RegisterClass.B }
    {
        RegSpec::b(1)
    }

    pub fn dl() -> RegSpec
        ensures { result ≡ reg_spec 2 RegisterClass.B }
    {
        RegSpec::b(2)
    }

    pub fn bl() -> RegSpec
        ensures { result ≡ reg_spec 3 RegisterClass.B }
    {
        RegSpec::b(3)
    }

    pub fn ah() -> RegSpec
        ensures { result ≡ reg_spec 4 RegisterClass.B }
    {
        RegSpec::b(4)
    }

    pub fn ch() -> RegSpec
        ensures { result ≡ reg_spec 5 RegisterClass.B }
    {
        RegSpec::b(5)
    }

    pub fn dh() -> RegSpec
        ensures { result ≡ reg_spec 6 RegisterClass.B }
    {
        RegSpec::b(6)
    }

    pub fn bh() -> RegSpec
        ensures { result ≡ reg_spec 7 RegisterClass.B }
    {
        RegSpec::b(7)
    }

    pub fn spl() -> RegSpec
        ensures { result ≡ reg_spec 4 RegisterClass.RB }
    {
        RegSpec::rb(4)
    }

    pub fn bpl() -> RegSpec
        ensures { result ≡ reg_spec 5 RegisterClass.RB }
    {
        RegSpec::rb(5)
    }

    pub fn sil() -> RegSpec
        ensures { result ≡ reg_spec 6 RegisterClass.RB }
    {
        RegSpec::rb(6)
    }

    pub fn dil() -> RegSpec
        ensures { result ≡ reg_spec 7 RegisterClass.RB }
    {
        RegSpec::rb(7)
    }

    pub fn r8b() -> RegSpec
        ensures { result ≡ reg_spec 8 RegisterClass.RB }
    {
        RegSpec::rb(8)
    }

    pub fn r9b() -> RegSpec
        ensures { result ≡ reg_spec 9 RegisterClass.RB }
    {
        RegSpec::rb(9)
    }

    pub fn r10b() -> RegSpec
        ensures { result ≡ reg_spec 10 RegisterClass.RB }
    {
        RegSpec::rb(10)
    }

    pub fn r11b() -> RegSpec
        ensures { result ≡ reg_spec 11 RegisterClass.RB }
    {
        RegSpec::rb(11)
    }

    pub fn r12b() -> RegSpec
        ensures { result ≡ reg_spec 12 RegisterClass.RB }
    {
        RegSpec::rb(12)
    }

    pub fn r13b() -> RegSpec
        ensures { result ≡ reg_spec 13 RegisterClass.RB }
    {
        RegSpec::rb(13)
    }

    pub fn r14b() -> RegSpec
        ensures { result ≡ reg_spec 14 RegisterClass.RB }
    {
        RegSpec::rb(14)
    }

    pub fn r15b() -> RegSpec
        ensures { result ≡ reg_spec 15 RegisterClass.RB }
    {
        RegSpec::rb(15)
    }
}
