//! What holds of rows and words over the definitions alone: each law is the contract of a function that does nothing.
ghost use Rattle.std.specs.Prelude.{◌≡◌, ◌≢◌, ◌↔◌, ℕ, Some, IfSome, IsTrue};
ghost use Rattle.x86_forms.specs.declared.Map.{Map};
ghost use Rattle.x86_forms.specs.declared.Column.{Column};
ghost use Rattle.x86_forms.specs.declared.Form.{Form};
ghost use Rattle.x86_forms.specs.declared.TableRow.{TableRow};
ghost use Rattle.x86_forms.specs.declared.patching.Patched.{Patched};
ghost use Rattle.x86_forms.specs.declared.words.Packed.{Packed};
ghost use Rattle.x86_forms.specs.Patch.{patched_word};
ghost use Rattle.x86_forms.specs.Equality.{equal_columns, equal_forms, equal_maps, equal_rows};
ghost use Rattle.x86_forms.specs.Rows.{printed_row};
ghost use Rattle.x86_forms.specs.Words.{HasWord, unpack, rows_of, packed, word_of};

use crate::{Packed, Patched, Words};

/// The words of the two tables: the printed ones, and those with another word in one cell.
pub fn tables_have_their_words()
    ensures packed { (t : Packed) (map : Map) (column : Column) (byte : ℕ) →
        ⟦<Packed as Words>⟧.word t map column byte ≡ packed map column byte }
    ensures patched { (t : Patched) (map : Map) (column : Column) (byte : ℕ) →
        ⟦<Patched as Words>⟧.word t map column byte ≡ patched_word t map column byte }
{}

/// The words of rows: none is 0, and different rows have different words.
#[tactic(auto, using(crate::proofs::WordLemmas::not_zero))]
pub fn words_differ()
    ensures not_zero { (r : TableRow) → word_of r ≢ 0 }
    ensures distinct { (r s : TableRow) → HasWord r → HasWord s → word_of r ≡ word_of s → r ≡ s }
{}

/// A row is read back from its word, and nothing is read from any other word.
#[tactic(auto, using(crate::proofs::WordLemmas::row_of_its_word, crate::proofs::WordLemmas::row_found))]
pub fn words_are_read_back()
    ensures back { (r : TableRow) → HasWord r → unpack (word_of r) ≡ Some r }
    ensures only { (word : ℕ) → IfSome (unpack word) (λ r. HasWord r × (word ≡ word_of r)) }
{}

/// The table of the printed words has the printed rows, each of which has a word.
#[tactic(auto, using(crate::proofs::WordLemmas::row_of_printed_word, crate::proofs::WordLemmas::printed_has_word))]
pub fn printed_words_are_the_printed_rows()
    ensures rows { (map : Map) → (column : Column) → (byte : ℕ) →
        rows_of packed map column byte ≡ printed_row map column byte }
    ensures words { (map : Map) → (column : Column) → (byte : ℕ) →
        IfSome (printed_row map column byte) HasWord }
{}

/// `==` holds exactly of the same map, of the same column, of the same form with the same number, and of rows with
/// the same opcode and form.
///
/// `equal_forms` and the others are what `==` answers; a caller that compares forms or rows cites this law.
#[tactic(auto, unfolding(crate::specs::Equality::equal_maps, crate::specs::Equality::equal_columns))]
pub fn equality_is_of_all_parts()
    ensures maps { (m n : Map) → IsTrue (equal_maps m n) ↔ (m ≡ n) }
    ensures columns { (c d : Column) → IsTrue (equal_columns c d) ↔ (c ≡ d) }
    ensures forms { (f g : Form) → IsTrue (equal_forms f g) ↔ (f ≡ g) }
    ensures rows { (r s : TableRow) → IsTrue (equal_rows r s) ↔ (r ≡ s) }
{}
