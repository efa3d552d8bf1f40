//! What holds of opcodes and conditions over the definitions alone: each law is the contract of a function that does
//! nothing.
ghost use Rattle.std.specs.Prelude.{◌≡◌, ◌&&◌, ◌↔◌, ℕ, IfSome, IsTrue, Some, false, is_some, slice_get};
ghost use Rattle.x86_opcodes.specs.declared.ConditionCode.{ConditionCode};
ghost use Rattle.x86_opcodes.specs.Equality.{equal_codes, equal_opcodes};
ghost use Rattle.x86_opcodes.specs.Kinds.{condition, is_among, is_conditional, jumps, moves, settings};
ghost use Rattle.x86_opcodes.specs.Mnemonics.{all_names, mnemonic};

use crate::{ConditionCode, Opcode};
use std::fmt::Debug;
use std::hash::Hash;

/// The nth name of the list, counted from 0, is that of the opcode with number n, and is how this opcode is spelled.
pub fn names_are_in_the_order_of_their_numbers()
    ensures { (n : ℕ) → IfSome (slice_get all_names n)
        (λ named. (named.opcode ≡ n) × (named.spelled ≡ mnemonic n)) }
{}

/// `{:?}` writes the name as spelled.
pub fn debug_writes_the_name()
    ensures { (o : ℕ) → ⟦<Opcode as Debug>⟧.debug_output o ≡ Some (mnemonic o) }
{}

/// An operation has a condition exactly where it is a conditional jump, move or setting.
pub fn condition_is_of_the_three_kinds()
    ensures { (o : ℕ) → is_some (condition o) ≡ is_conditional o }
{}

/// An operation is of one of the three kinds at most.
pub fn kinds_exclude_each_other()
    ensures jump_or_move { (o : ℕ) → (is_among jumps o && is_among moves o) ≡ false }
    ensures jump_or_setting { (o : ℕ) → (is_among jumps o && is_among settings o) ≡ false }
    ensures move_or_setting { (o : ℕ) → (is_among moves o && is_among settings o) ≡ false }
{}

/// `==` holds exactly of the same opcode, and of the same condition. Equal conditions hash equally, and others from other
/// bytes.
#[tactic(auto, using(crate::proofs::HashLemmas::codes_apart), unfolding(crate::specs::Equality::equal_opcodes))]
pub fn equality_is_of_the_name()
    ensures opcodes { (o p : ℕ) → IsTrue (equal_opcodes o p) ↔ (o ≡ p) }
    ensures codes { (c d : ConditionCode) → IsTrue (equal_codes c d) ↔ (c ≡ d) }
    ensures hashed { (c d : ConditionCode) → IsTrue (equal_codes c d) →
        ⟦<ConditionCode as Hash>⟧.hash_input c ≡ ⟦<ConditionCode as Hash>⟧.hash_input d }
    ensures apart { (c d : ConditionCode) → ⟦<ConditionCode as Hash>⟧.hash_input c
        ≡ ⟦<ConditionCode as Hash>⟧.hash_input d → c ≡ d }
{}
