//! What equality, order and hash of registers and classes say.

ghost use Rattle.std.specs.Prelude.{◌≡◌, ◌↔◌, ◌∷◌, [], Bool, IsTrue, if◌then◌else◌};
ghost use Rattle.std.specs.Ordering.{ordering_then, nat_cmp};
ghost use Rattle.std.specs.Cmp.{IsTotalOrder};
ghost use Rattle.x86_regs.specs.Class.{class_code};
ghost use Rattle.x86_regs.specs.Register.{num, class};

use crate::register_class::{
    B, CR, D, DR, EFLAGS, EIP, K, MM, Q, RB, RFLAGS, RIP, S, ST, W, X, Y, Z,
};
use crate::{MergeMode, RegSpec, RegisterClass, SaeMode, Segment};
use std::cmp::Ordering;
use std::hash::Hash;

/// Registers are ordered by number, then by the code of their class, and the order is total.
pub fn registers_are_ordered()
    ensures by_number_then_code { (a b : RegSpec) →
        ⟦<RegSpec as Ord>⟧.cmp a b ≡
        ordering_then (nat_cmp (num a) (num b))
        (nat_cmp (class_code (class a)) (class_code (class b))) }
    ensures partly { (a b : RegSpec) →
        ⟦<RegSpec as PartialOrd>⟧.partial_cmp a b ≡ Some (⟦<RegSpec as Ord>⟧.cmp a b) }
    ensures total { IsTotalOrder ⟦<RegSpec as Ord>⟧.cmp }
    ensures agrees { (a b : RegSpec) → ⟦<RegSpec as Ord>⟧.cmp a b ≡ Ordering.Equal ↔ (a ≡ b) }
{}

/// Two registers are equal exactly where number and class are. Equal registers hash equally, and others from other
/// bytes.
#[tactic(auto, using(crate::proofs::HashLemmas::registers_apart))]
pub fn registers_are_equal()
    ensures exactly { (a b : RegSpec) → IsTrue (⟦<RegSpec as PartialEq>⟧.eq a b) ↔ (a ≡ b) }
    ensures hashed { (a b : RegSpec) → IsTrue (⟦<RegSpec as PartialEq>⟧.eq a b) →
        ⟦<RegSpec as Hash>⟧.hash_input a ≡ ⟦<RegSpec as Hash>⟧.hash_input b }
    ensures apart { (a b : RegSpec) → ⟦<RegSpec as Hash>⟧.hash_input a
        ≡ ⟦<RegSpec as Hash>⟧.hash_input b → a ≡ b }
{}

/// Classes are ordered by their codes, and the order is total.
pub fn classes_are_ordered()
    ensures by_code { (a b : RegisterClass) →
        ⟦<RegisterClass as Ord>⟧.cmp a b ≡ nat_cmp (class_code a) (class_code b) }
    ensures partly { (a b : RegisterClass) →
        ⟦<RegisterClass as PartialOrd>⟧.partial_cmp a b ≡ Some (⟦<RegisterClass as Ord>⟧.cmp a b) }
    ensures total { IsTotalOrder ⟦<RegisterClass as Ord>⟧.cmp }
    ensures agrees { (a b : RegisterClass) →
        ⟦<RegisterClass as Ord>⟧.cmp a b ≡ Ordering.Equal ↔ (a ≡ b) }
{}

/// Two classes are equal exactly where they are the same. Equal classes hash equally, and others from other bytes.
#[tactic(auto, using(crate::proofs::HashLemmas::classes_apart))]
pub fn classes_are_equal()
    ensures exactly { (a b : RegisterClass) →
        IsTrue (⟦<RegisterClass as PartialEq>⟧.eq a b) ↔ (a ≡ b) }
    ensures hashed { (a b : RegisterClass) → IsTrue (⟦<RegisterClass as PartialEq>⟧.eq a b) →
        ⟦<RegisterClass as Hash>⟧.hash_input a ≡ ⟦<RegisterClass as Hash>⟧.hash_input b }
    ensures apart { (a b : RegisterClass) → ⟦<RegisterClass as Hash>⟧.hash_input a
        ≡ ⟦<RegisterClass as Hash>⟧.hash_input b → a ≡ b }
{}

/// Segments and modes are equal exactly where they are the same. Equal segments hash equally, and others from other
/// bytes.
#[tactic(auto, using(crate::proofs::HashLemmas::segments_apart))]
pub fn modes_are_equal()
    ensures segments { (a b : Segment) → IsTrue (⟦<Segment as PartialEq>⟧.eq a b) ↔ (a ≡ b) }
    ensures hashed { (a b : Segment) → IsTrue (⟦<Segment as PartialEq>⟧.eq a b) →
        ⟦<Segment as Hash>⟧.hash_input a ≡ ⟦<Segment as Hash>⟧.hash_input b }
    ensures apart { (a b : Segment) → ⟦<Segment as Hash>⟧.hash_input a
        ≡ ⟦<Segment as Hash>⟧.hash_input b → a ≡ b }
    ensures merging { (a b : MergeMode) → IsTrue (⟦<MergeMode as PartialEq>⟧.eq a b) ↔ (a ≡ b) }
    ensures rounding { (a b : SaeMode) → IsTrue (⟦<SaeMode as PartialEq>⟧.eq a b) ↔ (a ≡ b) }
{}

/// The mode of a bit is zeroing where the bit is set, and merging where it is clear (Intel SDM volume 2, section
/// 2.7.4, the bit z of EVEX).
pub fn merge_modes_are_of_the_bit_z()
    ensures { (zeroes : Bool) (mode : MergeMode) →
        ⟦<MergeMode as From<bool>>⟧.from_gives zeroes mode
        ↔ (mode ≡ (if zeroes then MergeMode.Zero else MergeMode.Merge)) }
{}

/// The constants are the classes of their names.
pub fn constants_are_classes()
    ensures general { (B ∷ W ∷ D ∷ RB ∷ Q ∷ []) ≡
        (RegisterClass.B ∷ RegisterClass.W ∷ RegisterClass.D ∷ RegisterClass.RB
        ∷ RegisterClass.Q ∷ []) }
    ensures system { (CR ∷ DR ∷ S ∷ []) ≡
        (RegisterClass.CR ∷ RegisterClass.DR ∷ RegisterClass.S ∷ []) }
    ensures vector { (X ∷ Y ∷ Z ∷ ST ∷ MM ∷ K ∷ []) ≡
        (RegisterClass.X ∷ RegisterClass.Y ∷ RegisterClass.Z ∷ RegisterClass.ST
        ∷ RegisterClass.MM ∷ RegisterClass.K ∷ []) }
    ensures pointers { (EIP ∷ RIP ∷ EFLAGS ∷ RFLAGS ∷ []) ≡
        (RegisterClass.EIP ∷ RegisterClass.RIP ∷ RegisterClass.EFlags ∷ RegisterClass.RFlags ∷ []) }
{}
