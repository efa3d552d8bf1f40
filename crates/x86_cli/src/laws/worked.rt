//! Sentences and refusals of the headline, worked by hand. Their derivations are in proofs/WorkedLemmas.antt.

ghost use Rattle.std.specs.Prelude.{◌≡◌, ◌≤◌, ◌++◌, ℕ, replicate, Bool, true, List, [], ◌∷◌, pos, negsuc, Some, None, Ok, Err};
ghost use Rattle.x86_fields.specs.declared.errors.DecodeError.TheVariants.{IncompleteDecoder, InvalidOpcode, InvalidOperand, InvalidPrefixes, TooLong};
ghost use Rattle.x86_forms.specs.Rows.{printed_row};
ghost use Rattle.x86_decode.specs.Answer.{answer_of};
ghost use Rattle.x86_decode.specs.Instruction.{instruction_of};
ghost use Rattle.x86_cli.specs.Addresses.{encoded_address};
ghost use Rattle.x86_layout.specs.declared.parts.fields.Fields.{Fields};
ghost use Rattle.x86_layout.specs.Parts.Fields.{lists_in};
ghost use Rattle.x86_layout.specs.Parts.Permitted.{IsPermitted};
ghost use Rattle.x86_layout.specs.Tightening.Least.{least_length};
ghost use Rattle.x86_cli.specs.Headline.{Sentence};
ghost use Rattle.x86_cli.specs.Sentences.{HasError};
ghost use Rattle.x86_cli.specs.Worked.{add_rax_rbx, mov_rax_at_rbp, neg_eax, add_at_rbx_rax, places_at, pshufb_xmm0_xmm1, add_parts, no_row_parts, hundreds, plain_raw};

use crate::laws::headline_of_bytes;

/// `48 01 d8` is ADD rax, rbx, with a memory size of 8 bytes, whatever follows it.
pub fn add()
    ensures sentence { (strict : Bool) →
        Sentence printed_row strict (0x48 ∷ 0x01 ∷ 0xd8 ∷ []) (instruction_of add_rax_rbx (places_at 2 3) 3) }
    ensures answer { (strict : Bool) (rest : List ℕ) →
        answer_of strict (0x48 ∷ 0x01 ∷ 0xd8 ∷ rest)
        ≡ Ok (instruction_of add_rax_rbx (places_at 2 3) 3) }
{
    headline_of_bytes();
}

/// `48 8b 45 00` is MOV rax, [rbp], with a memory size of 8 bytes, whatever follows it.
pub fn load()
    ensures sentence { (strict : Bool) →
        Sentence printed_row strict (0x48 ∷ 0x8b ∷ 0x45 ∷ 0x00 ∷ [])
        (instruction_of mov_rax_at_rbp (places_at 2 4) 4) }
    ensures answer { (strict : Bool) (rest : List ℕ) →
        answer_of strict (0x48 ∷ 0x8b ∷ 0x45 ∷ 0x00 ∷ rest)
        ≡ Ok (instruction_of mov_rax_at_rbp (places_at 2 4) 4) }
{
    headline_of_bytes();
}

/// `f7 d8` is NEG eax, with a memory size of 4 bytes: a row of group 3, which reg 3 chooses.
pub fn group()
    ensures sentence { (strict : Bool) →
        Sentence printed_row strict (0xf7 ∷ 0xd8 ∷ []) (instruction_of neg_eax (places_at 1 2) 2) }
    ensures answer { (strict : Bool) (rest : List ℕ) →
        answer_of strict (0xf7 ∷ 0xd8 ∷ rest) ≡ Ok (instruction_of neg_eax (places_at 1 2) 2) }
{
    headline_of_bytes();
}

/// `f0 48 01 03` is ADD [rbx], rax, with a memory size of 8 bytes: F0 before an operation that takes it, with memory in
/// its first slot.
pub fn locked_add()
    ensures sentence { (strict : Bool) →
        Sentence printed_row strict (0xf0 ∷ 0x48 ∷ 0x01 ∷ 0x03 ∷ [])
        (instruction_of add_at_rbx_rax (places_at 3 4) 4) }
    ensures answer { (strict : Bool) (rest : List ℕ) →
        answer_of strict (0xf0 ∷ 0x48 ∷ 0x01 ∷ 0x03 ∷ rest)
        ≡ Ok (instruction_of add_at_rbx_rax (places_at 3 4) 4) }
{
    headline_of_bytes();
}

/// `66 0f 38 00 c1` is PSHUFB xmm0, xmm1, with a memory size of 4 bytes: a row of 0F 38 that 66 chooses, and whose
/// record sees the prefixes without 66.
pub fn chosen_by_66()
    ensures sentence { (strict : Bool) →
        Sentence printed_row strict (0x66 ∷ 0x0f ∷ 0x38 ∷ 0x00 ∷ 0xc1 ∷ [])
        (instruction_of pshufb_xmm0_xmm1 (places_at 4 5) 5) }
    ensures answer { (strict : Bool) (rest : List ℕ) →
        answer_of strict (0x66 ∷ 0x0f ∷ 0x38 ∷ 0x00 ∷ 0xc1 ∷ rest)
        ≡ Ok (instruction_of pshufb_xmm0_xmm1 (places_at 4 5) 5) }
{
    headline_of_bytes();
}

/// Addresses at registers of which number n has 100 times n, and at a next instruction at 7.
pub fn addresses()
    ensures base { encoded_address (plain_raw 0x45 None (negsuc 7)) hundreds 7 ≡ 492 }
    ensures next { encoded_address (plain_raw 0x05 None (pos 16)) hundreds 7 ≡ 23 }
    ensures index { encoded_address (plain_raw 0x44 (Some 0x8b) (pos 16)) hundreds 7 ≡ 716 }
    ensures no_register { encoded_address (plain_raw 0x04 (Some 0x25) (pos 64)) hundreds 7 ≡ 64 }
    ensures fourth_bit { encoded_address
        (record (plain_raw 0x04 (Some 0x20) (pos 0)) { rex_x = true }) hundreds 7 ≡ 1200 }
    ensures of_32_bits { encoded_address
        (record (plain_raw 0x45 None (negsuc 599)) { address_size = true }) hundreds 7
        ≡ 4294967196 }
{}

/// The fields of `48 01 d8` are permitted, and those of `06` aren't.
pub fn permitted()
    ensures add { (strict : Bool) (f : Fields) → lists_in f ≡ add_parts → IsPermitted strict f }
    ensures no_row { (strict : Bool) (f : Fields) → lists_in f ≡ no_row_parts
        → IsPermitted strict f → ⊥ }
{
    headline_of_bytes();
}

/// `48 8b 85 00 00 00 00` spells MOV rax, [rbp] in seven bytes, and its shortest spelling has at most the four of
/// `48 8b 45 00`.
pub fn shortest()
    ensures sentence { (strict : Bool) →
        Sentence printed_row strict
        (0x48 ∷ 0x8b ∷ 0x85 ∷ 0x00 ∷ 0x00 ∷ 0x00 ∷ 0x00 ∷ [])
        (instruction_of mov_rax_at_rbp (places_at 2 7) 7) }
    ensures least { (strict : Bool) →
        least_length strict (0x48 ∷ 0x8b ∷ 0x85 ∷ 0x00 ∷ 0x00 ∷ 0x00 ∷ 0x00 ∷ []) ≤ 4 }
{
    headline_of_bytes();
}

/// `c5` begins an AVX encoding, which isn't decoded. After `66` it is refused for its prefixes.
pub fn vex()
    ensures alone { (strict : Bool) → HasError printed_row strict (0xc5 ∷ []) IncompleteDecoder }
    ensures after_66 { (strict : Bool) →
        HasError printed_row strict (0x66 ∷ 0xc4 ∷ []) InvalidPrefixes }
    ensures answer { (strict : Bool) (rest : List ℕ) →
        answer_of strict (0xc5 ∷ rest) ≡ Err IncompleteDecoder }
    ensures answer_after_66 { (strict : Bool) (rest : List ℕ) →
        answer_of strict (0x66 ∷ 0xc4 ∷ rest) ≡ Err InvalidPrefixes }
{
    headline_of_bytes();
}

/// `8d c0` is refused at its ModRM byte, whatever follows it: LEA of a register.
pub fn no_memory()
    ensures has { (strict : Bool) →
        HasError printed_row strict (0x8d ∷ 0xc0 ∷ []) InvalidOperand }
    ensures answer { (strict : Bool) (rest : List ℕ) →
        answer_of strict (0x8d ∷ 0xc0 ∷ rest) ≡ Err InvalidOperand }
{
    headline_of_bytes();
}

/// Fifteen times `66` is too long, whatever follows it.
pub fn too_long()
    ensures has { (strict : Bool) → HasError printed_row strict (replicate 15 0x66) TooLong }
    ensures answer { (strict : Bool) (rest : List ℕ) →
        answer_of strict (replicate 15 0x66 ++ rest) ≡ Err TooLong }
{
    headline_of_bytes();
}

/// `06` is refused with `InvalidOpcode`, whatever follows it: the byte has no row.
pub fn no_row()
    ensures has { (strict : Bool) → HasError printed_row strict (0x06 ∷ []) InvalidOpcode }
    ensures answer { (strict : Bool) (rest : List ℕ) →
        answer_of strict (0x06 ∷ rest) ≡ Err InvalidOpcode }
{
    headline_of_bytes();
}

/// `f0 01 d8` is refused for its prefixes, whatever follows it: F0, and no memory in the first slot.
pub fn forbidden_lock()
    ensures has { (strict : Bool) →
        HasError printed_row strict (0xf0 ∷ 0x01 ∷ 0xd8 ∷ []) InvalidPrefixes }
    ensures answer { (strict : Bool) (rest : List ℕ) →
        answer_of strict (0xf0 ∷ 0x01 ∷ 0xd8 ∷ rest) ≡ Err InvalidPrefixes }
{
    headline_of_bytes();
}
