//! What prefixes, address forms and equality say, over the definitions alone.

ghost use Rattle.std.specs.Prelude.{◌≡◌, ◌↔◌, ◌≤◌, ◌++◌, ◌||◌, ℕ, List, [], ◌∷◌, length, map, replicate, IsTrue, true, false, FitsSigned, Ok, Err, Some, None};
ghost use Rattle.std.specs.Int.{w32};
ghost use Rattle.std.specs.List.{fold};
ghost use Rattle.x86_arch.specs.Reader.{State, advanced};
ghost use Rattle.x86_fields.specs.Address.{scale_by};
ghost use Rattle.x86_fields.specs.Errors.{is_exhausted, is_bad_opcode, is_bad_operand, description_of};
ghost use Rattle.x86_fields.specs.Linear.{Linear, raw_form, IsSameAddress, IsReduced, AgreeEverywhere, AgreeAtUnits};
ghost use Rattle.x86_fields.specs.Pieces.{SpellsRaw, IsReadRaw, sib_taken};
ghost use Rattle.x86_fields.specs.Raw.{read_raw};
ghost use Rattle.x86_fields.specs.Steps.{outcome};
ghost use Rattle.x86_fields.specs.Address.{next_pointer};
ghost use Rattle.x86_fields.specs.Tables.{at_each_reg, at_each_sib, base_at_sib, base_named, base_there, by_base, by_index, index_at_sib, index_named, scale_at_sib, width_at_sib, width_there, with_sib, without_sib};
ghost use Rattle.x86_fields.specs.Run.{repnz, rep, rep_any, reading_of, after_of};

use crate::{DecodeError, PrefixRex, Prefixes, Raw};
use std::fmt::Display;
use x86_arch::ReadError;

/// What code over any instruction set learns of an error: its kind and its description, which is its text too.
pub fn errors_through_the_traits()
    ensures exhausted { (e : DecodeError) →
        ⟦<DecodeError as x86_arch::DecodeError>⟧.data_exhausted e ≡ is_exhausted e }
    ensures opcode { (e : DecodeError) →
        ⟦<DecodeError as x86_arch::DecodeError>⟧.bad_opcode e ≡ is_bad_opcode e }
    ensures operand { (e : DecodeError) →
        ⟦<DecodeError as x86_arch::DecodeError>⟧.bad_operand e ≡ is_bad_operand e }
    ensures description { (e : DecodeError) →
        ⟦<DecodeError as x86_arch::DecodeError>⟧.description e ≡ description_of e }
    ensures text { (e : DecodeError) →
        ⟦<DecodeError as Display>⟧.output e ≡ Some (description_of e) }
    ensures of_reader { (lack : ReadError) (e : DecodeError) →
        ⟦<DecodeError as From<ReadError>>⟧.from_gives lack e ↔ (e ≡ DecodeError.ExhaustedInput) }
{}

/// The reading of a run is what its bytes do one after another, from no prefix on.
#[tactic(auto, using(crate::proofs::RunLemmas::reading_folds, crate::proofs::RunLemmas::reading_push))]
pub fn runs_are_folded()
    ensures folded { (run : List ℕ) → reading_of run ≡ fold after_of (reading_of []) run }
    ensures longer { (run : List ℕ) (byte : ℕ) →
        reading_of (run ++ byte ∷ []) ≡ after_of (reading_of run) byte }
{}

/// F2 and F3 are never in force together, and one of them is exactly where `rep_any` holds.
pub fn repeats_exclude()
    ensures never_both { (p : Prefixes) → IsTrue (rep p) → repnz p ≡ false }
    ensures one_of_them { (p : Prefixes) → rep_any p ≡ (rep p || repnz p) }
{}

/// Two reduced address forms of one modulus are the same address exactly where their values agree at every register
/// file and next pointer. The zero file, the sixteen unit files and the unit next pointer show it.
#[tactic(auto, using(crate::proofs::FormLemmas::units_show))]
pub fn forms_are_their_values()
    ensures exactly { (f g : Linear) → f.modulus ≡ g.modulus → IsReduced f → IsReduced g →
        (IsSameAddress f g ↔ AgreeEverywhere f g) }
    ensures shown_by_units { (f g : Linear) → f.modulus ≡ g.modulus → IsReduced f → IsReduced g →
        AgreeAtUnits f g → IsSameAddress f g }
{}

/// What `read_raw` takes. It returns the fields that a prefix of the bytes spells, wherever there is one, and takes
/// that prefix. It refuses only where bytes are missing. It has then taken a SIB that ModRM requires, if it is there,
/// and nothing of a displacement.
#[tactic(auto, using(crate::proofs::ReadLemmas::raw_whole, crate::proofs::ReadLemmas::raw_short))]
pub fn raw_fields_are_read()
    ensures whole { (p : Prefixes) (modrm : ℕ) (s : State ℕ) (raw : Raw) →
        (read_raw p modrm s).answer ≡ Ok raw → IsReadRaw p modrm raw s (read_raw p modrm s).after }
    ensures wherever { (p : Prefixes) (modrm : ℕ) (s : State ℕ) (bytes rest : List ℕ) (raw : Raw) →
        s.left ≡ bytes ++ rest → SpellsRaw p modrm bytes raw →
        read_raw p modrm s ≡ outcome (Ok raw) (advanced (length bytes) s) }
    ensures short { (p : Prefixes) (modrm : ℕ) (s : State ℕ) (e : DecodeError) →
        (read_raw p modrm s).answer ≡ Err e → (e ≡ DecodeError.ExhaustedInput) ×
        ((read_raw p modrm s).after ≡ advanced (sib_taken modrm s.left) s) }
{}

/// The address forms of raw fields are reduced, so that the law on forms speaks of any two of one modulus.
#[tactic(auto, using(crate::proofs::FormLemmas::raw_reduced))]
pub fn raw_forms_are_reduced()
    ensures { (raw : Raw) → scale_by raw.sib ≤ 8 → FitsSigned w32 raw.disp →
        IsReduced (raw_form raw) }
{}

/// The bytes of a displacement, base, index and scale are those of tables 2-2 and 2-3 of Intel SDM volume 2, at every ModRM
/// byte of the memory forms and every SIB byte, under each bit of a REX and under 67.
pub fn memory_forms_are_those_of_the_tables()
    ensures widths_0 { without_sib 0 width_there
        ≡ at_each_reg (0 ∷ 0 ∷ 0 ∷ 0 ∷ 4 ∷ 0 ∷ 0 ∷ []) }
    ensures widths_1 { without_sib 1 width_there ≡ at_each_reg (replicate 7 1) }
    ensures widths_2 { without_sib 2 width_there ≡ at_each_reg (replicate 7 4) }
    ensures sib_widths_0 { with_sib 0 width_at_sib
        ≡ at_each_reg (by_base (0 ∷ 0 ∷ 0 ∷ 0 ∷ 0 ∷ 4 ∷ 0 ∷ 0 ∷ [])) }
    ensures sib_widths_1 { with_sib 1 width_at_sib ≡ at_each_reg (by_base (replicate 8 1)) }
    ensures sib_widths_2 { with_sib 2 width_at_sib ≡ at_each_reg (by_base (replicate 8 4)) }
    ensures bases_0 { (raw : Raw) → without_sib 0 (base_there raw)
        ≡ at_each_reg (map (base_named raw) (0 ∷ 1 ∷ 2 ∷ 3 ∷ []) ++ Some (next_pointer raw)
        ∷ map (base_named raw) (6 ∷ 7 ∷ [])) }
    ensures bases_1 { (raw : Raw) → without_sib 1 (base_there raw)
        ≡ at_each_reg (map (base_named raw) (0 ∷ 1 ∷ 2 ∷ 3 ∷ 5 ∷ 6 ∷ 7 ∷ [])) }
    ensures bases_2 { (raw : Raw) → without_sib 2 (base_there raw)
        ≡ without_sib 1 (base_there raw) }
    ensures sib_bases_0 { (raw : Raw) → with_sib 0 (base_at_sib raw)
        ≡ at_each_reg (by_base (map (base_named raw) (0 ∷ 1 ∷ 2 ∷ 3 ∷ 4 ∷ []) ++ None
        ∷ map (base_named raw) (6 ∷ 7 ∷ []))) }
    ensures sib_bases_1 { (raw : Raw) → with_sib 1 (base_at_sib raw)
        ≡ at_each_reg (by_base (map (base_named raw) (0 ∷ 1 ∷ 2 ∷ 3 ∷ 4 ∷ 5 ∷ 6 ∷ 7 ∷ []))) }
    ensures sib_bases_2 { (raw : Raw) → with_sib 2 (base_at_sib raw)
        ≡ with_sib 1 (base_at_sib raw) }
    ensures indexes { (raw : Raw) → at_each_sib (index_at_sib raw false)
        ≡ by_index (map (index_named raw false) (0 ∷ 1 ∷ 2 ∷ 3 ∷ []) ++ None
        ∷ map (index_named raw false) (5 ∷ 6 ∷ 7 ∷ [])) }
    ensures indexes_of_x { (raw : Raw) → at_each_sib (index_at_sib raw true)
        ≡ by_index (map (index_named raw true) (0 ∷ 1 ∷ 2 ∷ 3 ∷ 4 ∷ 5 ∷ 6 ∷ 7 ∷ [])) }
    ensures scales { at_each_sib scale_at_sib
        ≡ map (λ scale. replicate 8 (replicate 8 scale)) (1 ∷ 2 ∷ 4 ∷ 8 ∷ []) }
{}

/// Errors, prefixes and raw fields are equal exactly where all their fields, and the results of their calls, are
/// equal.
pub fn values_are_equal()
    ensures errors { (a b : DecodeError) → IsTrue (⟦<DecodeError as PartialEq>⟧.eq a b) ↔ (a ≡ b) }
    ensures prefixes { (a b : Prefixes) → IsTrue (⟦<Prefixes as PartialEq>⟧.eq a b) ↔ (a ≡ b) }
    ensures rex { (a b : PrefixRex) → IsTrue (⟦<PrefixRex as PartialEq>⟧.eq a b) ↔ (a ≡ b) }
    ensures raw { (a b : Raw) → IsTrue (⟦<Raw as PartialEq>⟧.eq a b) ↔ (a ≡ b) }
{}
