//! The other registers that have a separate function.

ghost use Rattle.std.specs.Prelude.{◌≡◌};
ghost use Rattle.x86_regs.specs.Register.{reg_spec};

use crate::{RegSpec, RegisterClass};

// Segment registers.
impl RegSpec {
    pub fn es() -> RegSpec
        ensures { result ≡ reg_spec 0 RegisterClass.S }
    {
        RegSpec::seg(0)
    }

    pub fn cs() -> RegSpec
        ensures { result ≡ reg_spec 1 RegisterClass.S }
    {
        RegSpec::seg(1)
    }

    pub fn ss() -> RegSpec
        ensures { result ≡ reg_spec 2 RegisterClass.S }
    {
        RegSpec::seg(2)
    }

    pub fn ds() -> RegSpec
        ensures { result ≡ reg_spec 3 RegisterClass.S }
    {
        RegSpec::seg(3)
    }

    pub fn fs() -> RegSpec
        ensures { result ≡ reg_spec 4 RegisterClass.S }
    {
        RegSpec::seg(4)
    }

    pub fn gs() -> RegSpec
        ensures { result ≡ reg_spec 5 RegisterClass.S }
    {
        RegSpec::seg(5)
    }
}

// Control registers.
impl RegSpec {
    pub fn cr0() -> RegSpec
        ensures { result ≡ reg_spec 0 RegisterClass.CR }
    {
        RegSpec::cr(0)
    }

    pub fn cr1() -> RegSpec
        ensures { result ≡ reg_spec 1 RegisterClass.CR }
    {
        RegSpec::cr(1)
    }

    pub fn cr2() -> RegSpec
        ensures { result ≡ reg_spec 2 RegisterClass.CR }
    {
        RegSpec::cr(2)
    }

    pub fn cr3() -> RegSpec
        ensures { result ≡ reg_spec 3 RegisterClass.CR }
    {
        RegSpec::cr(3)
    }

    pub fn cr4() -> RegSpec
        ensures { result ≡ reg_spec 4 RegisterClass.CR }
    {
        RegSpec::cr(4)
    }

    pub fn cr5() -> RegSpec
        ensures { result ≡ reg_spec 5 RegisterClass.CR }
    {
        RegSpec::cr(5)
    }

    pub fn cr6() -> RegSpec
        ensures { result ≡ reg_spec 6 RegisterClass.CR }
    {
        RegSpec::cr(6)
    }

    pub fn cr7() -> RegSpec
        ensures { result ≡ reg_spec 7 RegisterClass.CR }
    {
        RegSpec::cr(7)
    }

    pub fn cr8() -> RegSpec
        ensures { result ≡ reg_spec 8 RegisterClass.CR }
    {
        RegSpec::cr(8)
    }

    pub fn cr9() -> RegSpec
        ensures { result ≡ reg_spec 9 RegisterClass.CR }
    {
        RegSpec::cr(9)
    }

    pub fn cr10() -> RegSpec
        ensures { result ≡ reg_spec 10 RegisterClass.CR }
    {
        RegSpec::cr(10)
    }

    pub fn cr11() -> RegSpec
        ensures { result ≡ reg_spec 11 RegisterClass.CR }
    {
        RegSpec::cr(11)
    }

    pub fn cr12() -> RegSpec
        ensures { result ≡ reg_spec 12 RegisterClass.CR }
    {
        RegSpec::cr(12)
    }

    pub fn cr13() -> RegSpec
        ensures { result ≡ reg_spec 13 RegisterClass.CR }
    {
        RegSpec::cr(13)
    }

    pub fn cr14() -> RegSpec
        ensures { result ≡ reg_spec 14 RegisterClass.CR }
    {
        RegSpec::cr(14)
    }

    pub fn cr15() -> RegSpec
        ensures { result ≡ reg_spec 15 RegisterClass.CR }
    {
        RegSpec::cr(15)
    }
}

// The first of each kind of vector, x87 and MMX registers.
impl RegSpec {
    pub fn zmm0() -> RegSpec
        ensures { result ≡ reg_spec 0 RegisterClass.Z }
    {
        RegSpec::zmm(0)
    }

    pub fn ymm0() -> RegSpec
        ensures { result ≡ reg_spec 0 RegisterClass.Y }
    {
        RegSpec::ymm(0)
    }

    pub fn xmm0() -> RegSpec
        ensures { result ≡ reg_spec 0 RegisterClass.X }
    {
        RegSpec::xmm(0)
    }

    pub fn st0() -> RegSpec
        ensures { result ≡ reg_spec 0 RegisterClass.ST }
    {
        RegSpec::st(0)
    }

    pub fn mm0() -> RegSpec
        ensures { result ≡ reg_spec 0 RegisterClass.MM }
    {
        RegSpec::mm(0)
    }
}

// The next instruction's address and the flags.
impl RegSpec {
    pub fn rip() -> RegSpec
        ensures parts { result ≡ reg_spec 0 RegisterClass.RIP }
        ensures constant { result ≡ RegSpec.RIP }
    {
        RegSpec::RIP
    }

    pub fn eip() -> RegSpec
        ensures { result ≡ reg_spec 0 RegisterClass.EIP }
    {
        RegSpec::of(0, RegisterClass::EIP)
    }

    pub fn rflags() -> RegSpec
        ensures { result ≡ reg_spec 0 RegisterClass.RFlags }
    {
        RegSpec::of(0, RegisterClass::RFlags)
    }

    pub fn eflags() -> RegSpec
        ensures { result ≡ reg_spec 0 RegisterClass.EFlags }
    {
        RegSpec::of(0, RegisterClass::EFlags)
    }
}
