//! Instructions and their accessors.
ghost use Rattle.std.specs.Prelude.{◌≡◌, ◌≤◌, true, nat_lt};
ghost use Rattle.std.specs.Cmp.{on_equiv, on_per};
ghost use Rattle.std.specs.Ordering.{on};
ghost use Rattle.x86_decode.specs.contracts.instructions.ShownPartialEq.TheImpl.Laws as shown_eq;
ghost use Rattle.x86_decode.specs.contracts.instructions.ShownEq.TheImpl.Laws as shown_equivalence;
ghost use Rattle.x86_arch.specs.AddressDiff.{from_const};
ghost use Rattle.x86_operands.specs.Operands.{visit_of};
ghost use Rattle.x86_decode.specs.Instruction.{opcode, operand_count, length_of, places_in, invalid_instruction, slot_at, operand_at, operands_of, shown_of, segment_override_for_op, unless_ds, mem_size_of, xacquire, xrelease, exchanges_memory, is_release_slot, is_rm_slot};

use x86_arch::{AddressDiff, LengthedInstruction};
use x86_fields::Prefixes;
use x86_opcodes::Opcode;
use x86_operands::{MemoryAccessSize, Operand, OperandVisitor, Operands, Places, Slot};
use x86_regs::Segment;

/// An instruction: prefixes, opcode, at most four operands with the slots that they come from, the memory size that its
/// row has, and of the encoding its length and the places of its parts.
///
/// Two instructions are equal where all of this but length and places is, so instructions from encodings of different
/// length may be equal.
#[derive(Clone, Copy, Debug, Drop)]
pub struct Instruction {
    /// What the prefixes select, with the changes that the operation makes: where 66 chooses the operation it is
    /// cleared. Nothing ties this field to the operands once a caller has written to it.
    pub prefixes: Prefixes,
    pub(crate) opcode: Opcode,
    pub(crate) places: Places,
    pub(crate) operand_list: Operands,
    pub(crate) length: u64,
}

/// What equality looks at.
#[derive(Clone, Copy, PartialEq, Eq, Drop)]
struct Shown {
    prefixes: Prefixes,
    opcode: Opcode,
    count: u8,
    mem_size: u8,
    slots: [Slot; 4],
    operands: [Operand; 4],
}

fn is_rm_slot(slot: Slot) -> bool
    ensures { result ≡ is_rm_slot slot }
{
    matches!(slot, Slot::Rm)
}

fn is_release_slot(slot: Slot) -> bool
    ensures { result ≡ is_release_slot slot }
{
    matches!(
        slot,
        Slot::Reg | Slot::ImmI8 | Slot::ImmI16 | Slot::ImmI32 | Slot::ImmI64
    )
}

fn unless_ds(segment: Segment) -> Option<Segment>
    ensures { result ≡ unless_ds segment }
{
    match segment {
        Segment::DS => None,
        other => Some(other),
    }
}

impl Instruction {
    /// `Instruction::invalid()` as a constant.
    pub(crate) const INVALID: Instruction = Instruction {
        prefixes: Prefixes::NONE,
        opcode: Opcode::Invalid,
        places: Places::NONE,
        operand_list: Operands::NONE,
        length: 0,
    };

    /// No instruction: opcode `Invalid`, no prefixes, no operand, memory size 0 and length 0.
    pub fn invalid() -> Instruction
        ensures { result ≡ invalid_instruction }
    {
        Instruction::INVALID
    }

    /// The operation.
    pub fn opcode(&self) -> Opcode
        ensures { result ≡ opcode self.now }
    {
        self.opcode
    }

    /// How many operands there are: at most 4.
    pub fn operand_count(&self) -> u8
        ensures count { result ≡ operand_count self.now }
        ensures few { result ≤ 4 }
    {
        self.operand_list.count.min(4)
    }

    /// The operands in order.
    #[inline(always)]
    pub fn operands(&self) -> &[Operand]
        ensures { result.now ≡ operands_of self.now }
    {
        &self.operand_list.operands[..self.operand_count() as usize]
    }

    /// Whether there is an operand at an index, counted from 0.
    pub fn operand_present(&self, i: u8) -> bool
        ensures { result ≡ nat_lt i (operand_count self.now) }
    {
        i < self.operand_count()
    }

    /// The operand at an index, counted from 0; at the count and above it `Operand::Nothing`.
    pub fn operand(&self, i: u8) -> Operand
        ensures { result ≡ operand_at self.now i }
    {
        self.operand_list.operand(i)
    }

    /// Where in the encoding the operand at an index comes from; at the count and above it `Slot::Nothing`.
    pub fn slot(&self, i: u8) -> Slot
        ensures { result ≡ slot_at self.now i }
    {
        self.operand_list.slot(i)
    }

    /// Makes the one call of the visitor that names the operand at an index, and answers what that answers; at the
    /// count and above it that is `visit_other`.
    pub fn visit_operand<T: OperandVisitor>(
        &self,
        i: u8,
        visitor: &mut T,
    ) -> Result<T::Ok, T::Error>
        ensures { T.answers (visit_of (operand_at self.now i)) visitor.old visitor.new result }
    {
        self.operand(i).visit(visitor)
    }

    /// The size in bytes that the row has for the operation, or `None` where it has none.
    ///
    /// It doesn't say that memory is accessed: a form keeps its size in the register form, as `ADD rax, rbx` with 8, and
    /// LEA has one. An instruction names memory where a slot `is_memory`; PUSH, CALL, RETURN and other operations access
    /// the stack unnamed (Intel SDM volume 2, chapters 3 to 5).
    pub fn mem_size(&self) -> Option<MemoryAccessSize>
        ensures { result ≡ mem_size_of self.now }
    {
        if self.operand_list.mem_size == 0 {
            None
        } else {
            Some(MemoryAccessSize::new(self.operand_list.mem_size))
        }
    }

    /// The segment that the operand at an index is in, where it isn't the default one (Intel SDM volume 1, section
    /// 3.7.4).
    ///
    /// MOVS writes to ES and reads from the segment of the prefixes. CMPS names rdi first, which here takes the
    /// segment of the prefixes, and then rsi, which takes ES. Of another operation a memory operand is in the segment
    /// of the prefixes, and `None` means the default one: SS where the base is rbp or rsp, ES of what INS writes, else DS.
    pub fn segment_override_for_op(&self, op: u8) -> Option<Segment>
        ensures { result ≡ segment_override_for_op self.now op }
    {
        let segment = self.prefixes.segment();
        if self.opcode == Opcode::MOVS {
            match op {
                0 => Some(Segment::ES),
                1 => Some(segment),
                _ => None,
            }
        } else if self.opcode == Opcode::CMPS {
            match op {
                0 => Some(segment),
                1 => Some(Segment::ES),
                _ => None,
            }
        } else if self.slot(op).is_memory() {
            unless_ds(segment)
        } else {
            None
        }
    }

    /// XCHG with a memory operand.
    fn exchanges_memory(&self) -> bool
        ensures { result ≡ exchanges_memory self.now }
    {
        self.opcode == Opcode::XCHG && !is_rm_slot(self.slot(0)) && !is_rm_slot(self.slot(1))
    }

    /// Whether F2 is there with F0, or before an XCHG with memory. On a processor it is then a hint that the operation begins
    /// a critical section, if it is one that takes the hint (Intel SDM volume 2, XACQUIRE/XRELEASE): CMPXCHG16B isn't.
    pub fn xacquire(&self) -> bool
        ensures { result ≡ xacquire self.now }
    {
        self.prefixes.repnz() && (self.prefixes.lock() || self.exchanges_memory())
    }

    /// Whether F3 is there with F0, before an XCHG with memory, or before a MOV of a register of reg or of a signed immediate.
    /// On a processor it is then a hint that the operation ends a critical section, if it is one that takes the hint (Intel
    /// SDM volume 2, XACQUIRE/XRELEASE): CMPXCHG16B isn't, nor is `f3 b8`.
    pub fn xrelease(&self) -> bool
        ensures { result ≡ xrelease self.now }
    {
        let stores = self.opcode == Opcode::MOV
            && !is_rm_slot(self.slot(0))
            && is_release_slot(self.slot(1));
        self.prefixes.rep() && (self.prefixes.lock() || self.exchanges_memory() || stores)
    }

    /// How many bytes the encoding has; 0 of the invalid instruction.
    pub fn len(&self) -> AddressDiff<u64>
        ensures { result ≡ from_const (length_of self.now) }
    {
        AddressDiff::from_const(self.length)
    }

    /// Where the parts of the encoding end: of `48 03 44 25 00`, the opcode byte at 2, and ModRM, SIB and displacement
    /// at 5. `answers` of the call that decoded says that these are the lengths of the pieces in the grammar.
    ///
    /// Source: Intel SDM volume 2, section 2.1.
    #[inline(always)]
    pub fn places(&self) -> Places
        ensures { result ≡ places_in self.now }
    {
        self.places
    }

    /// The length of the shortest instructions: 1.
    pub fn min_size() -> AddressDiff<u64>
        ensures { result ≡ from_const 1 }
    {
        AddressDiff::from_const(1)
    }

    /// Always: no instruction is left open.
    pub fn well_defined(&self) -> bool
        ensures { result ≡ true }
    {
        true
    }

    fn shown(&self) -> Shown
        ensures { result ≡ shown_of self.now }
    {
        Shown {
            prefixes: self.prefixes,
            opcode: self.opcode,
            count: self.operand_list.count,
            mem_size: self.operand_list.mem_size,
            slots: [self.slot(0), self.slot(1), self.slot(2), self.slot(3)],
            operands: [
                self.operand(0),
                self.operand(1),
                self.operand(2),
                self.operand(3),
            ],
        }
    }
}

impl Default for Instruction {
    /// `Instruction::invalid()`.
    fn default() -> Instruction
        ensures { result ≡ invalid_instruction }
    {
        Instruction::invalid()
    }
}

impl PartialEq for Instruction {
    ghost eq = { on shown_of ⟦<Shown as PartialEq>⟧.eq };

    ghost laws = { on_per shown_of shown_eq.laws-law };

    fn eq(&self, other: &Instruction) -> bool {
        self.shown() == other.shown()
    }
}

impl Eq for Instruction {
    ghost laws = { on_equiv shown_of shown_equivalence.laws-law };
}

impl x86_arch::Instruction for Instruction {
    ghost well_defined = { λ _. true };

    fn well_defined(&self) -> bool {
        Instruction::well_defined(self)
    }
}

impl LengthedInstruction for Instruction {
    type Unit = AddressDiff<u64>;

    ghost len = { λ i. from_const (length_of i) };

    ghost min_size = { from_const 1 };

    fn len(&self) -> AddressDiff<u64> {
        Instruction::len(self)
    }

    fn min_size() -> AddressDiff<u64> {
        Instruction::min_size()
    }
}
