//! What follows from the definitions of the cuts, of the parts, of the shortest raw fields, and of relatives.

ghost use Rattle.std.specs.Prelude.{◌≡◌, ◌↔◌, ℕ, ◌+◌, ◌^◌, ◌<◌, ◌≤◌, Bool, false, IsTrue, List, [], ◌∷◌, ◌++◌, length, take, drop, Ok, Option, Some, true};
ghost use Rattle.std.specs.Iterator.{YieldsFirst, item_count};
ghost use Rattle.std.specs.List.{sum_by, All};
ghost use Rattle.x86_decode.specs.Addresses.{names_modrm, instance_within, raw_within};
ghost use Rattle.x86_decode.specs.Answer.{answer_of};
ghost use Rattle.x86_layout.specs.Sweeps.Pieces.{CutsGoOn, CutsOfMore, CutsJoin};
ghost use Rattle.x86_layout.specs.declared.sweeps.control.Flow.{Flow};
ghost use Rattle.x86_layout.specs.declared.sweeps.cuts.Cut.{Cut};
ghost use Rattle.x86_layout.specs.declared.sweeps.sweep.Sweep.{Sweep};
ghost use Rattle.x86_layout.specs.Sweeps.Cuts.{cut_length, cut_at, cuts_from, cuts_of, IsWithin};
ghost use Rattle.x86_layout.specs.Sweeps.Flows.{branch_target, flow_of, target_in};
ghost use Rattle.x86_layout.specs.Sweeps.Sweep.{cuts_left};
ghost use Rattle.x86_operands.specs.declared.reader.Reading.{Reading};
ghost use Rattle.x86_layout.specs.Parts.Split.{Encoding, HasParts, joined};
ghost use Rattle.x86_decode.specs.declared.instructions.Instruction.{Instruction};
ghost use Rattle.x86_layout.specs.declared.parts.fields.Fields.{Fields};
ghost use Rattle.x86_layout.specs.Parts.OfBytes.{parts_of};
ghost use Rattle.x86_layout.specs.Parts.Fields.{lists_in};
ghost use Rattle.x86_layout.specs.Parts.Permitted.{IsPermitted, ArePartsOfSentence};
ghost use Rattle.x86_forms.specs.Words.{rows_of, packed};
ghost use Rattle.x86_decode.specs.Grammar.{IsSentence};
ghost use Rattle.x86_decode.specs.Instruction.{length_of};
ghost use Rattle.x86_layout.specs.Tightening.Least.{least_length};
ghost use Rattle.x86_layout.specs.declared.tightening.tighten.TightenError.{TightenError};
ghost use Rattle.x86_layout.specs.Tightening.Tighten.{HasNoRelative, HasOperandForm, IsRelative, IsShortest};
ghost use Rattle.x86_layout.specs.Tightening.Same.{address_at, IsSameButInMemory};
ghost use Rattle.x86_layout.specs.Tightening.Registers.{is_ip_relative};
ghost use Rattle.x86_layout.specs.Tightening.Shortest.{shortest, address_length, IsOfBytes};
ghost use Rattle.x86_fields.specs.declared.raw.Raw.{Raw};
ghost use Rattle.x86_fields.specs.ModRM.{reg_field};
ghost use Rattle.x86_fields.specs.Linear.{raw_form, value_at, IsSameAddress, IsRegFile};
ghost use Rattle.x86_fields.specs.Parts.{HasFieldLengths};

use crate::{EmitError, Flow, Sweep};
use x86_decode::laws;

/// Where bytes are left, a cut begins at the first, and the next cut after it; where none is left there is no cut.
#[tactic(auto, using(crate::proofs::SweepLemmas::Place::cut_laws))]
pub fn cuts_in_order()
    ensures none { (strict : Bool) (place : ℕ) → cuts_from strict place [] ≡ [] }
    ensures next { (strict : Bool) (place : ℕ) (xs : List ℕ) → 0 < length xs →
        let n = cut_length (answer_of strict xs) in cuts_from strict place xs
        ≡ cut_at strict place xs ∷ cuts_from strict (place + n) (drop n xs) }
{
    laws::lengths();
}

/// An input may be swept piece by piece. After cuts at the beginning come those of the rest (`rest`). Cuts at the
/// beginning of a piece that don't answer `ExhaustedInput` are cuts of the piece with more bytes after it (`more`). So
/// each piece begins at the place of the first `ExhaustedInput` of the one before, and the cuts are those of the whole.
#[tactic(auto, using(crate::proofs::SweepLemmas::Pieces::piece_laws))]
pub fn cuts_by_pieces()
    ensures rest { (strict : Bool) → CutsGoOn strict }
    ensures more { (strict : Bool) → CutsOfMore strict }
{
    laws::lengths();
    laws::answers_of_more();
}

/// An input may be swept in pieces that begin anywhere. From a place on at which two sweeps have a cut their cuts are the
/// same. So the cuts of a piece hold up to the first place at which the next piece has a cut too, if none of them answers
/// `ExhaustedInput`, and the cuts of the next piece hold from there on. Pieces are joined from the last to the first.
#[tactic(auto, using(crate::proofs::SweepLemmas::Pieces::piece_laws))]
pub fn cuts_of_pieces_join()
    ensures { (strict : Bool) → CutsJoin strict }
{
    laws::lengths();
    laws::answers_of_more();
}

/// Every cut has some bytes and lies within the input, and the lengths of the cuts add up to that of the input, so
/// there are at most as many cuts as bytes.
#[tactic(auto, using(crate::proofs::SweepLemmas::Place::cut_laws))]
pub fn cuts_cover()
    ensures within { (strict : Bool) (xs : List ℕ) →
        All (IsWithin (length xs)) (cuts_of strict xs) }
    ensures sum { (strict : Bool) (xs : List ℕ) →
        sum_by (λ c. c.length) (cuts_of strict xs) ≡ length xs }
    ensures count { (strict : Bool) (xs : List ℕ) → length (cuts_of strict xs) ≤ length xs }
{
    laws::lengths();
}

/// A sweep as an iterator: it yields the first of the cuts that it has left, and no more items come than these.
pub fn sweeps_yield_their_cuts<'a>()
    ensures first { (old new : Sweep) (cut : Option Cut) →
        ⟦<Sweep<'a> as Iterator>⟧.next_gives old cut new ↔ YieldsFirst cuts_left old cut new }
    ensures no_more { (s : Sweep) → ⟦<Sweep<'a> as Iterator>⟧.remaining s ≡ item_count cuts_left s }
{}

/// The pieces of every whole encoding at the beginning of bytes are the parts of those bytes, whatever follows it.
pub fn parts_are_those_of_the_bytes()
    ensures { (strict : Bool) (s rest : List ℕ) (reading : Reading)
        (w : Encoding strict s reading) →
        HasParts strict s reading w (parts_of strict (s ++ rest)) }
{}

/// The parts of an accepted encoding have lengths that fields can hold.
#[tactic(auto, using(crate::proofs::PartLemmas::Emit::parts_fit))]
pub fn parts_fit_fields()
    ensures { (strict : Bool) (bytes : List ℕ) (i : Instruction) → answer_of strict bytes ≡ Ok i →
        HasFieldLengths (parts_of strict bytes) }
{
    laws::answer_is();
}

/// Fields are permitted exactly where they are the parts of a sentence of the encoding grammar (docs/ENCODING.md).
#[tactic(auto, using(crate::proofs::PartLemmas::Emit::permitted_are_parts))]
pub fn permitted_fields_are_the_parts_of_sentences()
    ensures { (strict : Bool) (f : Fields) → IsPermitted strict f ↔ ArePartsOfSentence strict f }
{}

/// What permitted fields spell is accepted, whatever follows it, and has these fields again: `split` of the
/// bytes that `emit` wrote answers parts that are equal to the fields.
#[tactic(auto, using(crate::proofs::PartLemmas::Emit::split_again))]
pub fn permitted_fields_are_split_again()
    ensures { (strict : Bool) (f : Fields) (rest : List ℕ) → IsPermitted strict f →
        (i : Instruction) × (answer_of strict (joined (lists_in f) ++ rest) ≡ Ok i)
        × (parts_of strict (joined (lists_in f) ++ rest) ≡ lists_in f) }
{
    laws::answer_is();
}

/// Fields that hold the parts of an accepted encoding are permitted, and spell that encoding: `emit` of the fields of
/// a split yields its very bytes.
pub fn accepted_encodings_are_emitted_again()
    ensures { (strict : Bool) (bytes : List ℕ) (i : Instruction) (f : Fields) →
        answer_of strict bytes ≡ Ok i → lists_in f ≡ parts_of strict bytes →
        IsPermitted strict f × (joined (lists_in f) ≡ take (length_of i) bytes) }
{
    laws::answer_is();
    laws::lengths();
}

/// The shortest raw fields have the address of the original ones and the same reg field, need no bit of a REX where
/// the original ones have none, and no raw fields of that address have fewer bytes of SIB and displacement.
///
/// This is said of raw fields that aren't relative to the next instruction. Source: Intel SDM volume 2, sections
/// 2.1.5 and 2.2.1.
pub fn shortest_raw_fields()
    ensures of_bytes { (raw : Raw) → IsOfBytes raw → IsOfBytes (shortest raw) }
    ensures same_address { (raw : Raw) → IsOfBytes raw → is_ip_relative raw ≡ false →
        IsSameAddress (raw_form (shortest raw)) (raw_form raw) }
    ensures same_register { (raw : Raw) → reg_field (shortest raw).modrm ≡ reg_field raw.modrm }
    ensures no_new_bits { (raw : Raw) → raw.rex_b ≡ false → raw.rex_x ≡ false →
        ((shortest raw).rex_b ≡ false) × ((shortest raw).rex_x ≡ false) }
    ensures none_shorter { (raw other : Raw) → IsOfBytes raw → IsOfBytes other →
        is_ip_relative raw ≡ false → IsSameAddress (raw_form other) (raw_form raw) →
        address_length (shortest raw) ≤ address_length other }
{}

/// A memory operand that ModRM spells has the address of its raw fields, by the address size of its instruction, at every
/// register file and next pointer. Source: Intel SDM volume 2, section 2.1.5.
pub fn memory_operands_have_their_address()
    ensures { (strict : Bool) (s : List ℕ) (a : Instruction)
        (is : IsSentence (rows_of packed) strict s a) (raw : Raw) (k : ℕ) →
        raw_within (rows_of packed) strict s is.reading is.whole ≡ Some raw →
        names_modrm (instance_within (rows_of packed) strict s is.reading is.whole) k ≡ true →
        All (λ byte. byte < 256) s → (regs : List ℕ) (next : ℕ) →
        address_at a k regs next ≡ Some (value_at (raw_form raw) regs next) }
{
    laws::memory_operands_denote_their_raw_fields();
    x86_operands::laws::shapes_have_the_address();
}

/// An encoding with a memory operand of ModRM that isn't relative to the next instruction has a shortest relative, of
/// bytes, and its length is the one that `shortest_length` computes from the bytes.
pub fn shortest_relatives_have_the_least_length()
    ensures { (strict : Bool) (s : List ℕ) (a : Instruction)
        (is : IsSentence (rows_of packed) strict s a) → All (λ byte. byte < 256) s →
        HasOperandForm strict s is.reading is.whole false →
        (t : List ℕ) × All (λ byte. byte < 256) t
        × IsShortest strict s is.reading is.whole t × (length t ≡ least_length strict s) }
{}

/// An encoding that has no relative to seek, for want of a memory operand of ModRM or since that is relative to the
/// next instruction, keeps its length: it is the one that `shortest_length` computes from the bytes.
pub fn encodings_without_a_relative_keep_their_length()
    ensures { (strict : Bool) (s : List ℕ) (a : Instruction)
        (is : IsSentence (rows_of packed) strict s a) (error : TightenError) →
        HasNoRelative strict s is.reading is.whole error → least_length strict s ≡ length s }
{}

/// A relative of an encoding is the same instruction, but for the bits X and B of a live REX and for memory operands of
/// ModRM: these are the shapes of raw fields that have the same address. So each operand has the address that it has in
/// the encoding, at every register file and next pointer.
///
/// This is said of every relative, and so of what `tighten` answers. Source: Intel SDM volume 2, sections 2.1.5 and
/// 2.2.1.
pub fn relatives_are_the_same_instruction()
    ensures but_in_memory { (strict : Bool) (s : List ℕ) (a : Instruction)
        (is : IsSentence (rows_of packed) strict s a) (t : List ℕ) (b : Instruction)
        (other : IsSentence (rows_of packed) strict t b)
        (relative : IsRelative strict s is.reading is.whole t other.reading other.whole) →
        IsSameButInMemory relative.address.from relative.address.to a b }
    ensures address { (strict : Bool) (s : List ℕ) (a : Instruction)
        (is : IsSentence (rows_of packed) strict s a) (t : List ℕ) (b : Instruction)
        (other : IsSentence (rows_of packed) strict t b) →
        IsRelative strict s is.reading is.whole t other.reading other.whole →
        All (λ byte. byte < 256) s → All (λ byte. byte < 256) t →
        (k : ℕ) (regs : List ℕ) (next : ℕ) → IsRegFile regs → next < 2 ^ 64 →
        address_at b k regs next ≡ address_at a k regs next }
{
    x86_operands::laws::shapes_have_the_address();
    x86_fields::laws::raw_forms_are_reduced();
    x86_fields::laws::forms_are_their_values();
}

/// Errors of `emit` are equal exactly where they are the same, and so are flows.
pub fn values_are_equal()
    ensures errors { (a b : EmitError) → IsTrue (⟦<EmitError as PartialEq>⟧.eq a b) ↔ (a ≡ b) }
    ensures flows { (a b : Flow) → IsTrue (⟦<Flow as PartialEq>⟧.eq a b) ↔ (a ≡ b) }
{}

/// Where `branch_target` answers a target, `flow` has that target.
pub fn flows_have_the_branch_targets()
    ensures { (i : Instruction) (next t : ℕ) → branch_target i next ≡ Some t →
        target_in (flow_of i next) ≡ Some t }
{}
