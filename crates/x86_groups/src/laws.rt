//! What holds of the records of all groups, over the definitions alone, and where the default and the strict choice
//! differ.

ghost use Rattle.std.specs.Prelude.{◌≡◌, ◌≢◌, ◌≤◌, ◌⊎◌, ℕ, Bool, true, false, All, Option, Some, None, Err};
ghost use Rattle.x86_arch.specs.Reader.{State};
ghost use Rattle.x86_fields.specs.declared.errors.DecodeError.TheVariants.{IncompleteDecoder};
ghost use Rattle.x86_fields.specs.declared.prefixes.Prefixes.{Prefixes};
ghost use Rattle.x86_fields.specs.ModRM.{reg_field};
ghost use Rattle.x86_fields.specs.declared.raw.Raw.{Raw};
ghost use Rattle.x86_forms.specs.declared.TableRow.{TableRow};
ghost use Rattle.x86_forms.specs.Groups.{is_group};
ghost use Rattle.x86_operands.specs.declared.vocabulary.Fault.TheVariants.{Incomplete};
ghost use Rattle.x86_operands.specs.declared.vocabulary.Verdict.TheVariants.{Refuses};
ghost use Rattle.x86_operands.specs.declared.vocabulary.OperandEncoding.TheVariants.{ConstantU8};
ghost use Rattle.x86_operands.specs.RowSteps.{immediate_read, known_operand, record_step};
ghost use Rattle.x86_groups.specs.Groups.{IsFenceWithRm, TakesAddress, group_record, group_instance, operandless, bad_operand, operand_encodings, record_of};

use x86_forms::Form;
use x86_operands::{Operand, Slot};

/// Every group has an instance, and of the groups only 8F with a reg other than 0 isn't built: no other instance of a record
/// refuses as `Incomplete`, and no record does so at the opcode byte. That of 8F takes the address before. So
/// `read_group` answers `IncompleteDecoder` for 8F alone. Source: Intel SDM volume 2, appendix A.4, group 1A.
#[tactic(auto, using(crate::proofs::GroupLemmas::no_fault, crate::proofs::GroupLemmas::gap_form, crate::proofs::GroupLemmas::gap_reg, crate::proofs::GroupLemmas::gap_address, crate::proofs::GroupLemmas::group_left_out))]
pub fn groups_are_built()
    ensures at_opcode { (strict : Bool) (row : TableRow) (p : Prefixes) →
        (group_record strict row p).at_opcode ≢ Some Incomplete }
    ensures form { (strict : Bool) (row : TableRow) (p : Prefixes) (m : ℕ) →
        is_group row.form ≡ true →
        ((group_record strict row p).instance m).verdict ≡ Refuses Incomplete →
        row.form ≡ Form.ModRM_0x8f }
    ensures reg { (strict : Bool) (row : TableRow) (p : Prefixes) (m : ℕ) →
        is_group row.form ≡ true →
        ((group_record strict row p).instance m).verdict ≡ Refuses Incomplete → reg_field m ≢ 0 }
    ensures address { (strict : Bool) (row : TableRow) (p : Prefixes) (m : ℕ) →
        is_group row.form ≡ true →
        ((group_record strict row p).instance m).verdict ≡ Refuses Incomplete →
        TakesAddress ((group_record strict row p).instance m) }
    ensures answer { (strict : Bool) (row : TableRow) (p : Prefixes) (s : State ℕ) →
        is_group row.form ≡ true →
        (record_step (group_record strict row p) p s).answer ≡ Err IncompleteDecoder →
        row.form ≡ Form.ModRM_0x8f }
{}

/// The memory size of each instance is at most 64 bytes.
#[tactic(auto, using(crate::proofs::GroupLemmas::group_small))]
pub fn group_sizes_are_small()
    ensures { (strict : Bool) (row : TableRow) (p : Prefixes) (m : ℕ) →
        ((group_record strict row p).instance m).size ≤ 64 }
{}

/// The default and the strict choice differ on LFENCE, MFENCE and SFENCE with rm other than 0, and on nothing else:
/// there the default reads the fence, without an operand, and the strict choice refuses its operand after ModRM.
#[tactic(auto, unfolding(crate::specs::Groups::group_record))]
pub fn choices_differ_on_fences()
    ensures at_opcode { (row : TableRow) (p : Prefixes) →
        (group_record true row p).at_opcode ≡ (group_record false row p).at_opcode }
    ensures modrm { (row : TableRow) (p : Prefixes) →
        (group_record true row p).modrm ≡ (group_record false row p).modrm }
    ensures elsewhere { (row : TableRow) (p : Prefixes) (m : ℕ) →
        (group_instance row p m true ≡ group_instance row p m false) ⊎ IsFenceWithRm row.form p m }
    ensures by_default { (row : TableRow) (p : Prefixes) (m : ℕ)
        (fence : IsFenceWithRm row.form p m) → group_instance row p m false
        ≡ operandless fence.opcode p }
    ensures strictly { (row : TableRow) (p : Prefixes) (m : ℕ) →
        IsFenceWithRm row.form p m → group_instance row p m true ≡ bad_operand p }
{}

/// Of a part in the instance of any row, for which no byte is read, `known_operand` makes an unsigned 0 only where the row
/// has this constant: so its last line, for what no instance has, is reached by none.
pub fn operands_are_known()
    ensures { (strict : Bool) (row : TableRow) (p q : Prefixes) (m n : ℕ) (memory : Option Raw) →
        All (λ s. immediate_read s ≡ None → known_operand s q m memory
        ≡ (Slot.ImmU8, Operand.ImmediateU8 0) → s ≡ ConstantU8 0)
        (operand_encodings ((record_of strict row p).instance n)) }
{}
