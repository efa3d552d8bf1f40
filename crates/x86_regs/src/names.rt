//! The names of registers and of their classes.

ghost use Rattle.std.specs.Prelude.{◌≡◌, ◌≤◌, [], length, map, slice_get, unwrap_or};
ghost use Rattle.x86_regs.specs.Names.{names_of, name_of, class_name};

use crate::{RegSpec, RegisterClass};

const BYTE: &[&str] = &["al", "cl", "dl", "bl", "ah", "ch", "dh", "bh"];

const WORD: &[&str] = &[
    "ax", "cx", "dx", "bx", "sp", "bp", "si", "di", "r8w", "r9w", "r10w", "r11w", "r12w", "r13w",
    "r14w", "r15w",
];

const DWORD: &[&str] = &[
    "eax", "ecx", "edx", "ebx", "esp", "ebp", "esi", "edi", "r8d", "r9d", "r10d", "r11d", "r12d",
    "r13d", "r14d", "r15d",
];

const REX_BYTE: &[&str] = &[
    "", "", "", "", "spl", "bpl", "sil", "dil", "r8b", "r9b", "r10b", "r11b", "r12b", "r13b",
    "r14b", "r15b",
];

const QWORD: &[&str] = &[
    "rax", "rcx", "rdx", "rbx", "rsp", "rbp", "rsi", "rdi", "r8", "r9", "r10", "r11", "r12", "r13",
    "r14", "r15",
];

const CONTROL: &[&str] = &[
    "cr0", "cr1", "cr2", "cr3", "cr4", "cr5", "cr6", "cr7", "cr8", "cr9", "cr10", "cr11", "cr12",
    "cr13", "cr14", "cr15",
];

const DEBUG: &[&str] = &[
    "dr0", "dr1", "dr2", "dr3", "dr4", "dr5", "dr6", "dr7", "dr8", "dr9", "dr10", "dr11", "dr12",
    "dr13", "dr14", "dr15",
];

const SEGMENT: &[&str] = &["es", "cs", "ss", "ds", "fs", "gs"];

const XMM: &[&str] = &[
    "xmm0", "xmm1", "xmm2", "xmm3", "xmm4", "xmm5", "xmm6", "xmm7", "xmm8", "xmm9", "xmm10",
    "xmm11", "xmm12", "xmm13", "xmm14", "xmm15", "xmm16", "xmm17", "xmm18", "xmm19", "xmm20",
    "xmm21", "xmm22", "xmm23", "xmm24", "xmm25", "xmm26", "xmm27", "xmm28", "xmm29", "xmm30",
    "xmm31",
];

const YMM: &[&str] = &[
    "ymm0", "ymm1", "ymm2", "ymm3", "ymm4", "ymm5", "ymm6", "ymm7", "ymm8", "ymm9", "ymm10",
    "ymm11", "ymm12", "ymm13", "ymm14", "ymm15", "ymm16", "ymm17", "ymm18", "ymm19", "ymm20",
    "ymm21", "ymm22", "ymm23", "ymm24", "ymm25", "ymm26", "ymm27", "ymm28", "ymm29", "ymm30",
    "ymm31",
];

const ZMM: &[&str] = &[
    "zmm0", "zmm1", "zmm2", "zmm3", "zmm4", "zmm5", "zmm6", "zmm7", "zmm8", "zmm9", "zmm10",
    "zmm11", "zmm12", "zmm13", "zmm14", "zmm15", "zmm16", "zmm17", "zmm18", "zmm19", "zmm20",
    "zmm21", "zmm22", "zmm23", "zmm24", "zmm25", "zmm26", "zmm27", "zmm28", "zmm29", "zmm30",
    "zmm31",
];

const X87: &[&str] = &[
    "st(0)", "st(1)", "st(2)", "st(3)", "st(4)", "st(5)", "st(6)", "st(7)",
];

const MMX: &[&str] = &["mm0", "mm1", "mm2", "mm3", "mm4", "mm5", "mm6", "mm7"];

const MASK: &[&str] = &["k0", "k1", "k2", "k3", "k4", "k5", "k6", "k7"];

const EIP: &[&str] = &["eip"];

const RIP: &[&str] = &["rip"];

const EFLAGS: &[&str] = &["eflags"];

const RFLAGS: &[&str] = &["rflags"];

/// The names of a class by number.
fn names_of(class: RegisterClass) -> &'static [&'static str]
    ensures { map (λ name. name.now) result.now ≡ names_of class }
{
    match class {
        RegisterClass::B => BYTE,
        RegisterClass::W => WORD,
        RegisterClass::D => DWORD,
        RegisterClass::RB => REX_BYTE,
        RegisterClass::Q => QWORD,
        RegisterClass::CR => CONTROL,
        RegisterClass::DR => DEBUG,
        RegisterClass::S => SEGMENT,
        RegisterClass::X => XMM,
        RegisterClass::Y => YMM,
        RegisterClass::Z => ZMM,
        RegisterClass::ST => X87,
        RegisterClass::MM => MMX,
        RegisterClass::K => MASK,
        RegisterClass::EIP => EIP,
        RegisterClass::RIP => RIP,
        RegisterClass::EFlags => EFLAGS,
        RegisterClass::RFlags => RFLAGS,
    }
}

/// The text with a number; the empty text for a number after the last.
fn text_at(texts: &[&'static str], number: u8) -> &'static str
    ensures { result.now ≡ unwrap_or (slice_get (map (λ text. text.now) texts.now) number) [] }
{
    match texts.get(number as usize) {
        Some(text) => text,
        None => "",
    }
}

impl RegSpec {
    /// The name in lower case, as `rax`, `r8d` or `st(0)`.
    pub fn name(&self) -> &'static str
        ensures printed { result.now ≡ name_of self.now }
        ensures short { length result.now ≤ 6 }
    {
        text_at(names_of(self.class), self.num)
    }
}

impl RegisterClass {
    /// What the class is called, as `qword`, `rex-byte`, `x87-stack`.
    pub fn name(&self) -> &'static str
        ensures { result.now ≡ class_name self.now }
    {
        match self {
            RegisterClass::B => "byte",
            RegisterClass::W => "word",
            RegisterClass::D => "dword",
            RegisterClass::RB => "rex-byte",
            RegisterClass::Q => "qword",
            RegisterClass::CR => "cr",
            RegisterClass::DR => "dr",
            RegisterClass::S => "segment",
            RegisterClass::X => "xmm",
            RegisterClass::Y => "ymm",
            RegisterClass::Z => "zmm",
            RegisterClass::ST => "x87-stack",
            RegisterClass::MM => "mmx",
            RegisterClass::K => "k",
            RegisterClass::EIP => "eip",
            RegisterClass::RIP => "rip",
            RegisterClass::EFlags => "eflags",
            RegisterClass::RFlags => "rflags",
        }
    }
}
