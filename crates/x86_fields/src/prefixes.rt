//! What a run of prefix bytes selects. Source: Intel SDM volume 2, sections 2.1.1 and 2.2.1.

ghost use Rattle.std.specs.Prelude.{◌≡◌, ◌↔◌, ℕ, ◌∷◌, ◌++◌, List, [], IsTrue};
ghost use Rattle.x86_fields.specs.Prefixes.{operand_size, address_size, lock, segment, without_operand_size, with_es};
ghost use Rattle.x86_fields.specs.Run.{repnz, rep, rep_any, mandatory, reading_of, after_of, is_prefix};

use crate::repeat::{Mandatory, Repeat};
use crate::rex::LiveRex;
use x86_regs::Segment;

/// What a run of prefix bytes selects.
#[derive(Clone, Copy, PartialEq, Eq, Debug, Drop)]
pub struct Prefixes {
    pub(crate) operand_size: bool,
    pub(crate) address_size: bool,
    pub(crate) lock: bool,
    pub(crate) repeat: Option<Repeat>,
    pub(crate) segment: Segment,
    pub(crate) rex: LiveRex,
}

impl Prefixes {
    /// Nothing is set, and the segment is DS: `Prefixes::none()` as a constant.
    pub const NONE: Prefixes = Prefixes {
        operand_size: false,
        address_size: false,
        lock: false,
        repeat: None,
        segment: Segment::DS,
        rex: LiveRex::NONE,
    };

    /// Nothing is set, and the segment is DS.
    #[inline(always)]
    pub fn none() -> Prefixes
        ensures { result ≡ reading_of [] }
    {
        Prefixes::NONE
    }

    /// The effect of one more prefix byte. A REX is live only as the last byte of a run.
    #[tactic(auto, unfolding(crate::specs::Run::after_of), using(crate::proofs::RunLemmas::reading_push))]
    pub fn after(self, byte: u8) -> Prefixes
        requires { IsTrue (is_prefix byte) }
        ensures effect { result ≡ after_of self byte }
        ensures reading { (run : List ℕ) → self ≡ reading_of run →
            result ≡ reading_of (run ++ byte ∷ []) }
    {
        let mut prefixes = self;
        prefixes.set_rex(byte);
        match byte {
            0x66 => prefixes.operand_size = true,
            0x67 => prefixes.address_size = true,
            0xf0 => prefixes.lock = true,
            0xf2 => prefixes.repeat = Some(Repeat::F2),
            0xf3 => prefixes.repeat = Some(Repeat::F3),
            0x64 => prefixes.segment = Segment::FS,
            0x65 => prefixes.segment = Segment::GS,
            _ => {}
        }
        prefixes
    }

    /// 66 is cleared.
    #[inline(always)]
    pub fn without_operand_size(self) -> Prefixes
        ensures { result ≡ without_operand_size self }
    {
        Prefixes {
            operand_size: false,
            ..self
        }
    }

    /// The segment is ES.
    #[inline(always)]
    pub fn with_es(self) -> Prefixes
        ensures { result ≡ with_es self }
    {
        Prefixes {
            segment: Segment::ES,
            ..self
        }
    }

    /// Which of F2, F3 and 66 chooses among the rows of an opcode byte: 66 does where neither F2 nor F3 is in force.
    #[inline(always)]
    pub fn mandatory(&self) -> Mandatory
        ensures { result ≡ mandatory self.now }
    {
        match self.repeat {
            Some(Repeat::F2) => Mandatory::F2,
            Some(Repeat::F3) => Mandatory::F3,
            None if self.operand_size => Mandatory::OperandSize,
            None => Mandatory::Absent,
        }
    }

    /// Whether F3 is in force.
    #[inline(always)]
    pub fn rep(&self) -> bool
        ensures { result ≡ rep self.now }
    {
        matches!(self.repeat, Some(Repeat::F3))
    }

    /// Whether F2 is in force.
    #[inline(always)]
    pub fn repnz(&self) -> bool
        ensures { result ≡ repnz self.now }
    {
        matches!(self.repeat, Some(Repeat::F2))
    }

    /// Whether F2 or F3 is in force.
    pub fn rep_any(&self) -> bool
        ensures { result ≡ rep_any self.now }
    {
        self.repeat.is_some()
    }

    /// Whether 66 is in force.
    #[inline(always)]
    pub fn operand_size(&self) -> bool
        ensures { result ≡ operand_size self.now }
    {
        self.operand_size
    }

    /// Whether 67 is in force.
    pub fn address_size(&self) -> bool
        ensures { result ≡ address_size self.now }
    {
        self.address_size
    }

    /// Whether F0 is in force.
    #[inline(always)]
    pub fn lock(&self) -> bool
        ensures { result ≡ lock self.now }
    {
        self.lock
    }

    /// The segment that 64 or 65 chose, else DS.
    pub fn segment(&self) -> Segment
        ensures { result ≡ segment self.now }
    {
        self.segment
    }

    /// Whether the segment is CS.
    pub fn cs(&self) -> bool
        ensures { IsTrue result ↔ (segment self.now ≡ Segment.CS) }
    {
        self.segment == Segment::CS
    }

    /// Whether the segment is DS.
    pub fn ds(&self) -> bool
        ensures { IsTrue result ↔ (segment self.now ≡ Segment.DS) }
    {
        self.segment == Segment::DS
    }

    /// Whether the segment is ES.
    pub fn es(&self) -> bool
        ensures { IsTrue result ↔ (segment self.now ≡ Segment.ES) }
    {
        self.segment == Segment::ES
    }

    /// Whether the segment is FS.
    pub fn fs(&self) -> bool
        ensures { IsTrue result ↔ (segment self.now ≡ Segment.FS) }
    {
        self.segment == Segment::FS
    }

    /// Whether the segment is GS.
    pub fn gs(&self) -> bool
        ensures { IsTrue result ↔ (segment self.now ≡ Segment.GS) }
    {
        self.segment == Segment::GS
    }

    /// Whether the segment is SS.
    pub fn ss(&self) -> bool
        ensures { IsTrue result ↔ (segment self.now ≡ Segment.SS) }
    {
        self.segment == Segment::SS
    }
}
