//! Classes of operands by prefixes. Source: Intel SDM volume 2, sections 2.2.1.2 and 3.1.1.3, and volume 1, section
//! 3.6.1.

ghost use Rattle.std.specs.Prelude.{◌≡◌, ◌<◌, None};
ghost use Rattle.x86_fields.specs.declared.prefixes.Prefixes.{Prefixes};
ghost use Rattle.x86_fields.specs.Prefixes.{rex};
ghost use Rattle.x86_fields.specs.Sizes.{size_prefixes, class_of, v_class, vq_class, vd_class, dq_class, byte_reg, is_regular, register_of};

use crate::prefixes::Prefixes;
use x86_regs::{RegSpec, RegisterClass};

/// Which of the two prefixes that choose the size of operands are in force: W of a live REX, and 66. As a number it
/// is the index of a column of a table by them.
#[derive(Clone, Copy, Drop)]
pub enum SizePrefixes {
    Neither,
    W,
    OperandSize,
    Both,
}

/// The small letter after G, E or Z: a class of registers, always the same or by W and 66 (Intel SDM volume 2,
/// appendix A.2.2).
#[derive(Clone, Copy, Drop)]
pub enum Width {
    B,
    Mm,
    /// A register of the x87 stack. It has no letter.
    St,
    W,
    D,
    Q,
    X,
    /// Q under REX.W, else W under 66, else D.
    V,
    /// W under 66, else Q.
    Vq,
    /// D under REX.W or without 66, else the class W.
    Vd,
    /// Q under REX.W, else D.
    Dq,
}

const B: RegisterClass = RegisterClass::B;

const MM: RegisterClass = RegisterClass::MM;

const ST: RegisterClass = RegisterClass::ST;

const W: RegisterClass = RegisterClass::W;

const D: RegisterClass = RegisterClass::D;

const Q: RegisterClass = RegisterClass::Q;

const X: RegisterClass = RegisterClass::X;

/// The class of each width. The columns: neither, W, 66, both.
const CLASSES: &[[RegisterClass; 4]; 11] = &[
    [B, B, B, B], // B
    [MM, MM, MM, MM], // Mm
    [ST, ST, ST, ST], // St
    [W, W, W, W], // W
    [D, D, D, D], // D
    [Q, Q, Q, Q], // Q
    [X, X, X, X], // X
    [D, Q, W, Q], // V
    [Q, Q, W, W], // Vq
    [D, D, W, D], // Vd
    [D, Q, D, Q], // Dq
];

impl Width {
    /// The class of registers.
    #[inline(always)]
    pub fn class(self, sizes: SizePrefixes) -> RegisterClass
        ensures { (p : Prefixes) → sizes ≡ size_prefixes p → result ≡ class_of self p }
    {
        CLASSES[self as usize][sizes as usize]
    }

    /// Whether R and B extend the number of each of its registers, and a REX changes no name: so of all but bytes, mm
    /// registers and those of x87.
    #[inline(always)]
    pub fn is_regular(self) -> bool
        ensures { result ≡ is_regular self }
    {
        self as usize > Width::St as usize
    }
}

impl Prefixes {
    /// Which of W and 66 are in force.
    #[inline(always)]
    pub fn size_prefixes(&self) -> SizePrefixes
        ensures { result ≡ size_prefixes self.now }
    {
        match (self.has_w(), self.operand_size) {
            (false, false) => SizePrefixes::Neither,
            (true, false) => SizePrefixes::W,
            (false, true) => SizePrefixes::OperandSize,
            (true, true) => SizePrefixes::Both,
        }
    }

    /// Q under a live W, else W under 66, else D.
    #[inline(always)]
    pub fn v_class(&self) -> RegisterClass
        ensures { result ≡ v_class self.now }
    {
        if self.has_w() {
            RegisterClass::Q
        } else if self.operand_size {
            RegisterClass::W
        } else {
            RegisterClass::D
        }
    }

    /// W under 66, else Q.
    #[inline(always)]
    pub fn vq_class(&self) -> RegisterClass
        ensures { result ≡ vq_class self.now }
    {
        if self.operand_size {
            RegisterClass::W
        } else {
            RegisterClass::Q
        }
    }

    /// D under a live W or without 66, else W.
    #[inline(always)]
    pub fn vd_class(&self) -> RegisterClass
        ensures { result ≡ vd_class self.now }
    {
        if self.has_w() || !self.operand_size {
            RegisterClass::D
        } else {
            RegisterClass::W
        }
    }

    /// Q under a live W, else D.
    #[inline(always)]
    pub fn dq_class(&self) -> RegisterClass
        ensures { result ≡ dq_class self.now }
    {
        if self.has_w() {
            RegisterClass::Q
        } else {
            RegisterClass::D
        }
    }

    /// The byte register of a number: from 4 on `spl` with a live REX, and `ah` without.
    pub fn byte_reg(&self, num: u8) -> RegSpec
        requires number { num < 16 }
        requires without_rex { rex self.now ≡ None → num < 8 }
        ensures { result ≡ byte_reg self.now num }
    {
        self.register(RegisterClass::B, num)
    }

    /// The register of a class and a number, where class B means the byte registers.
    #[inline(always)]
    pub fn register(&self, class: RegisterClass, num: u8) -> RegSpec
        ensures { result ≡ register_of class self.now num }
    {
        match class {
            RegisterClass::B if self.rex.is_some() && 4 <= num => RegSpec::of(
                num,
                RegisterClass::RB,
            ),
            other => RegSpec::of(num, other),
        }
    }
}
