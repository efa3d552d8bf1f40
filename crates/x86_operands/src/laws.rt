//! What holds of operands, of the records of all plain forms, and of what is read of any record, over the definitions
//! alone.

ghost use Rattle.std.specs.Prelude.{◌≡◌, ◌≢◌, ◌↔◌, ◌≤◌, ◌⊎◌, ◌++◌, if◌then◌else◌, ℕ, IsTrue, List, [], ◌∷◌, map, length, Some, None, true, false, Ok, Err, FitsSigned};
ghost use Rattle.std.specs.Int.{w32};
ghost use Rattle.x86_arch.specs.Reader.{State, advanced};
ghost use Rattle.x86_fields.specs.declared.errors.DecodeError.TheVariants.{ExhaustedInput, InvalidPrefixes, TooLong, IncompleteDecoder};
ghost use Rattle.x86_fields.specs.Linear.{raw_form, value_at};
ghost use Rattle.x86_fields.specs.Pieces.{total};
ghost use Rattle.x86_fields.specs.Steps.{outcome};
ghost use Rattle.x86_forms.specs.Groups.{is_group};
ghost use Rattle.x86_operands.specs.Vocabulary.{DecodeError, Fault, Incomplete, Prefixes, Raw, Reading, Refuses, TableRow, address_size};
ghost use Rattle.x86_operands.specs.Columns.{is_prefixed};
ghost use Rattle.x86_operands.specs.Forms.{form_record};
ghost use Rattle.x86_operands.specs.Operands.{operand_form, operand_address, shape};
ghost use Rattle.x86_operands.specs.Pieces.{SpellsRow, RefusesRow, IsReadRow, IsRefusedRow, IsOpenRow, AreTied, names_modrm, instance_spelled, HasShapeAt};
ghost use Rattle.x86_operands.specs.Records.{RowRecord};
ghost use Rattle.x86_operands.specs.RowSteps.{record_step, error_of};
ghost use Rattle.x86_operands.specs.declared.rows.When.TheVariants.{NoPrefix, Only66, F2, F3};

use crate::{Ask, MemoryAccessSize, Operand, Slot};

/// Operands, slots, memory sizes and values of `Ask` are equal exactly where they are the same.
pub fn values_are_equal()
    ensures operands { (a b : Operand) → IsTrue (⟦<Operand as PartialEq>⟧.eq a b) ↔ (a ≡ b) }
    ensures slots { (a b : Slot) → IsTrue (⟦<Slot as PartialEq>⟧.eq a b) ↔ (a ≡ b) }
    ensures sizes { (a b : MemoryAccessSize) →
        IsTrue (⟦<MemoryAccessSize as PartialEq>⟧.eq a b) ↔ (a ≡ b) }
    ensures asks { (a b : Ask) → IsTrue (⟦<Ask as PartialEq>⟧.eq a b) ↔ (a ≡ b) }
{}

/// No record of a plain form refuses at the opcode byte.
#[tactic(auto, unfolding(crate::specs::Forms::form_record))]
pub fn plain_forms_pass_the_opcode()
    ensures { (row : TableRow) (p : Prefixes) → (form_record row p).at_opcode ≡ None }
{}

/// Each plain form is built: no instance of its record refuses as `Incomplete`, so `read_form` never answers
/// `IncompleteDecoder`.
#[tactic(auto, using(crate::proofs::PlainLemmas::plain_built, crate::proofs::PlainLemmas::plain_read))]
pub fn plain_forms_are_built()
    ensures instance { (row : TableRow) (p : Prefixes) (m : ℕ) →
        is_group row.form ≡ false → ((form_record row p).instance m).verdict ≢ Refuses Incomplete }
    ensures answer { (row : TableRow) (p : Prefixes) (s : State ℕ) → is_group row.form ≡ false →
        (record_step (form_record row p) p s).answer ≢ Err IncompleteDecoder }
{}

/// Of the columns NP, 66, F2 and F3 exactly one holds under any prefixes. Source: Intel SDM volume 2, section 3.1.1.1.
pub fn one_prefix_column_holds()
    ensures { (own : TableRow) (p : Prefixes) →
        total (map (λ w. if is_prefixed w own p then 1 else 0) (NoPrefix ∷ Only66 ∷ F2 ∷ F3 ∷ []))
        ≡ 1 }
{}

/// The memory size of each instance is at most 64 bytes.
#[tactic(auto, using(crate::proofs::PlainLemmas::plain_small))]
pub fn plain_sizes_are_small()
    ensures { (row : TableRow) (p : Prefixes) (m : ℕ) → ((form_record row p).instance m).size ≤ 64 }
{}

/// The shape of raw fields has their address form, so `address_of` and `Operand::address` of the shape agree at every
/// register file and next pointer. Source: Intel SDM volume 2, section 2.1.5.
#[tactic(auto, using(crate::proofs::OperandLemmas::shape_has_form, crate::proofs::OperandLemmas::shape_has_address))]
pub fn shapes_have_the_address()
    ensures form { (raw : Raw) → FitsSigned w32 raw.disp →
        operand_form raw.address_size (shape raw).1 ≡ Some (raw_form raw) }
    ensures address { (raw : Raw) (regs : List ℕ) (next : ℕ) →
        FitsSigned w32 raw.disp → operand_address raw.address_size (shape raw).1 regs next
        ≡ Some (value_at (raw_form raw) regs next) }
{}

/// What `read_form` and `read_group` take, and any reader of a record. On Ok these are the pieces that the record
/// has, wherever the bytes begin with them; after a refusal those that the record takes before; and at
/// `ExhaustedInput` those before the first that isn't whole.
#[tactic(auto, using(crate::proofs::RecordLemmas::row_read, crate::proofs::RecordLemmas::row_refused, crate::proofs::RecordLemmas::row_open))]
pub fn rows_are_read()
    ensures whole { (r : RowRecord) (p : Prefixes) (s : State ℕ) (reading : Reading) →
        (record_step r p s).answer ≡ Ok reading →
        IsReadRow r p reading s (record_step r p s).after }
    ensures refused { (r : RowRecord) (p : Prefixes) (s : State ℕ) (e : DecodeError) →
        (record_step r p s).answer ≡ Err e →
        e ≢ ExhaustedInput → IsRefusedRow r p e s (record_step r p s).after }
    ensures exhausted { (r : RowRecord) (p : Prefixes) (s : State ℕ) →
        (record_step r p s).answer ≡ Err ExhaustedInput →
        IsOpenRow r p s (record_step r p s).after }
    ensures wherever { (r : RowRecord) (p : Prefixes) (s : State ℕ) (bytes rest : List ℕ)
        (reading : Reading) → s.left ≡ bytes ++ rest → SpellsRow r p bytes reading →
        record_step r p s ≡ outcome (Ok reading) (advanced (length bytes) s) }
    ensures refuses { (r : RowRecord) (p : Prefixes) (s : State ℕ) (bytes rest : List ℕ)
        (fault : Fault) → s.left ≡ bytes ++ rest → RefusesRow r p bytes fault →
        record_step r p s ≡ outcome (Err (error_of fault)) (advanced (length bytes) s) }
{}

/// No reader of a record answers `InvalidPrefixes` or `TooLong`, and `IncompleteDecoder` comes only where the record
/// or one of its instances refuses so.
#[tactic(auto, using(crate::proofs::RecordLemmas::row_has_no_prefixes, crate::proofs::RecordLemmas::row_has_no_length, crate::proofs::RecordLemmas::row_left_out))]
pub fn rows_refuse_by_faults()
    ensures no_prefixes { (r : RowRecord) (p : Prefixes) (s : State ℕ) →
        (record_step r p s).answer ≢ Err InvalidPrefixes }
    ensures no_length { (r : RowRecord) (p : Prefixes) (s : State ℕ) →
        (record_step r p s).answer ≢ Err TooLong }
    ensures left_out { (r : RowRecord) (p : Prefixes) (s : State ℕ) →
        (record_step r p s).answer ≡ Err IncompleteDecoder → (r.at_opcode ≡ Some Incomplete)
        ⊎ ((m : ℕ) × ((r.instance m).verdict ≡ Refuses Incomplete)) }
{}

/// A reading has at most four operands. None of them is `Nothing`, masked, rounded or an unsigned immediate of 32 or
/// 64 bits, the slot of an immediate has that immediate, and after the last operand there is `Nothing`.
#[tactic(auto, using(crate::proofs::TieLemmas::read_tied))]
pub fn readings_are_tied()
    ensures read { (r : RowRecord) (p : Prefixes) (s : State ℕ) (reading : Reading) →
        (record_step r p s).answer ≡ Ok reading → AreTied reading }
    ensures spelled { (r : RowRecord) (p : Prefixes) (bytes : List ℕ) (reading : Reading) →
        SpellsRow r p bytes reading → AreTied reading }
{}

/// Where a record writes ModRM's memory operand, it is the shape of the raw fields. Their 67 is that of the prefixes.
#[tactic(auto, using(crate::proofs::TieLemmas::memory_size_is))]
pub fn memory_operands_are_shapes()
    ensures shapes { (r : RowRecord) (p : Prefixes)
        (bytes : List ℕ) (reading : Reading) (row_spelled : SpellsRow r p bytes reading)
        (raw : Raw) →
        row_spelled.tail_spelled.pieces.memory ≡ Some raw → (k : ℕ) →
        names_modrm (instance_spelled r p bytes reading row_spelled) k ≡ true
        → HasShapeAt reading k raw }
    ensures address_size { (r : RowRecord) (p : Prefixes)
        (bytes : List ℕ) (reading : Reading) (row_spelled : SpellsRow r p bytes reading)
        (raw : Raw) →
        row_spelled.tail_spelled.pieces.memory ≡ Some raw → raw.address_size ≡ address_size p }
{}
