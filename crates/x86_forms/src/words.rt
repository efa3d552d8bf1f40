//! Words of rows, and tables of words. A word is 256 times the opcode's number, and the form's number.
ghost use Rattle.std.specs.Prelude.{◌≡◌, ◌<◌, ◌+◌, ℕ, IfSome, MatchOption, None, Some, slice_get};
ghost use Rattle.x86_forms.specs.declared.Column.{Column};
ghost use Rattle.x86_forms.specs.declared.Map.{Map};
ghost use Rattle.x86_forms.specs.declared.TableRow.{TableRow};
ghost use Rattle.x86_forms.specs.Ordinals.{ordinal_of};
ghost use Rattle.x86_forms.specs.Words.{HasWord, IsForm, carried, packed, unpack, word_of};

use crate::ordinals::FORMS;
use crate::{Column, Form, Map, TableRow, tables};
use x86_opcodes::Opcode;

/// A table of words: one for each map, column and byte.
///
/// The words of a table may be any, also words of no row; `unpack` returns the row of a word.
pub trait Words {
    ghost word: { Self → Map → Column → ℕ → ℕ };

    /// Its word at a byte of a map and column.
    fn word(&self, map: Map, column: Column, byte: u8) -> u64
        ensures { result ≡ word self.now map column byte };
}

/// The printed table: that of `packed`.
#[derive(Clone, Copy, Debug)]
pub struct Packed;

impl Words for Packed {
    ghost word = { λ _ map column byte. packed map column byte };

    #[inline(always)]
    fn word(&self, map: Map, column: Column, byte: u8) -> u64 {
        let words = match (map, column) {
            (Map::One, _) => tables::ONE,
            (Map::Of, Column::Plain) => tables::OF_PLAIN,
            (Map::Of, Column::P66) => tables::OF_P66,
            (Map::Of, Column::F3) => tables::OF_F3,
            (Map::Of, Column::F2) => tables::OF_F2,
            (Map::Of38, Column::Plain) => tables::OF38_PLAIN,
            (Map::Of38, Column::P66) => tables::OF38_P66,
            (Map::Of38, Column::F3) => tables::OF38_F3,
            (Map::Of38, Column::F2) => tables::OF38_F2,
            (Map::Of3a, Column::Plain) => tables::OF3A_PLAIN,
            (Map::Of3a, Column::P66) => tables::OF3A_P66,
            (Map::Of3a, Column::F3) => tables::OF3A_F3,
            (Map::Of3a, Column::F2) => tables::OF3A_F2,
        };
        words[byte as usize]
    }
}

/// A row with its word, and what the word says of the row's form. So the form itself need not be read.
#[derive(Clone, Copy, Drop)]
pub struct WordRow {
    pub word: u64,
    pub row: TableRow,
    /// The number that the word has for the form: forms count from 1, each with every number that it may carry.
    pub form_number: usize,
    /// The number that the form carries, if it carries one. The forms that carry one are the first 40, eight each.
    pub number: u8,
    ghost of_word: { unpack word ≡ Some row },
    ghost form_number_is: { form_number ≡ 1 + ordinal_of row.form },
    ghost number_is: { form_number < 41 → number ≡ carried row.form },
    ghost small: { number < 8 },
    ghost fits: { IsForm row.form },
}

#[inline(always)]
fn nth_form(forms: &[Form], at: usize) -> Option<Form>
    ensures { result ≡ slice_get forms.now at }
{
    forms.get(at).copied()
}

/// The row whose word this is, with the word, or `None` for a word of no row.
#[inline(always)]
#[tactic(auto, using(crate::proofs::WordLemmas::no_number, crate::proofs::WordLemmas::no_form, crate::proofs::WordLemmas::no_opcode))]
pub fn word_row(word: u64) -> Option<WordRow>
    ensures { MatchOption result (unpack word ≡ None) (λ found. found.word ≡ word) }
{
    let form_number = (word % 256) as usize;
    if form_number == 0 {
        return None;
    }
    let ordinal = form_number - 1;
    let form = nth_form(FORMS, ordinal)?;
    let opcode = Opcode::from_number(word / 256)?;
    Some(WordRow {
        word,
        row: TableRow { opcode, form },
        form_number,
        number: (ordinal % 8) as u8,
    })
}

/// The row whose word this is, or `None` for a word of no row, as 0.
///
/// A word is read by itself: it may be one of the tables' or any other. So `unpack(packed(map, column, byte))` is
/// `row(map, column, byte)`.
pub fn unpack(word: u64) -> Option<TableRow>
    ensures row { result ≡ unpack word }
    ensures found { IfSome result (λ r. HasWord r × (word ≡ word_of r)) }
    ensures every { (r : TableRow) → HasWord r → word ≡ word_of r → result ≡ Some r }
{
    Some(word_row(word)?.row)
}
