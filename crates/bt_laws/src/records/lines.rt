//! Laws of lines, columns and numbers.

ghost use Rattle.std.specs.Prelude.{◌≡◌, ℕ, [], ◌∷◌, ◌++◌, List, Some, None, codes, flat_map, length, take};
ghost use Rattle.bt_lines.specs.model.Lines.{pieces, spelled, text_lines, whole_lines, value_of};
ghost use Rattle.bt_lines.specs.calls.Line.{AreNumbered, line_feeds};
ghost use Rattle.bt_lines.specs.calls.Output.{block_size};

use bt_lines::{BLOCK, LineEnd};

/// The lines of a text lose nothing: with their line ends, one after another, they are its bytes.
#[tactic(auto, using(bt_lines::proofs::lemmas::reader::lines::TextLemmas::lines_lose_nothing))]
pub fn lines_lose_nothing()
    ensures { (bytes : List ℕ) → flat_map spelled (text_lines bytes) ≡ bytes }
{}

/// A block has [`BLOCK`] bytes: a reader takes at most that many ahead, and an output holds back at most that many.
pub fn a_block_has_so_many_bytes()
    ensures { BLOCK ≡ block_size }
{}

/// The complete lines of a text that was cut off are as many as its line feeds, and they are the first
/// lines of each text that begins with it.
#[tactic(auto, using(bt_lines::proofs::lemmas::reader::lines::TextLemmas::whole_count, bt_lines::proofs::lemmas::reader::lines::TextLemmas::whole_front))]
pub fn whole_lines_come_first()
    ensures count { (bytes : List ℕ) → length (whole_lines bytes) ≡ line_feeds bytes }
    ensures front { (bytes more : List ℕ)
        → take (line_feeds bytes) (text_lines (bytes ++ more)) ≡ whole_lines bytes }
{}

/// The lines of a text are numbered from 1 on, and so are its complete lines.
#[tactic(auto, using(bt_lines::proofs::lemmas::reader::lines::TextLemmas::lines_are_numbered, bt_lines::proofs::lemmas::reader::lines::TextLemmas::whole_lines_are_numbered))]
pub fn lines_count_up()
    ensures lines { (bytes : List ℕ) → AreNumbered 1 (text_lines bytes) }
    ensures whole { (bytes : List ℕ) → AreNumbered 1 (whole_lines bytes) }
{}

/// The lines of small texts.
#[tactic(auto, unfolding(bt_lines::specs::model::Lines::lines_from))]
pub fn lines_of_small_texts()
    ensures empty { text_lines [] ≡ [] }
    ensures line_feed { text_lines (10 ∷ [])
        ≡ record { number = 1; text = []; ending = LineEnd.Lf } ∷ [] }
    ensures both { text_lines (13 ∷ 10 ∷ [])
        ≡ record { number = 1; text = []; ending = LineEnd.CrLf } ∷ [] }
    ensures two_returns { text_lines (13 ∷ 13 ∷ 10 ∷ [])
        ≡ record { number = 1; text = 13 ∷ []; ending = LineEnd.CrLf } ∷ [] }
    ensures lone_return { text_lines (codes "a" ++ 13 ∷ [])
        ≡ record { number = 1; text = codes "a"; ending = LineEnd.Cr } ∷ [] }
    ensures return_inside { text_lines (97 ∷ 13 ∷ 98 ∷ 10 ∷ [])
        ≡ record { number = 1; text = 97 ∷ 13 ∷ 98 ∷ []; ending = LineEnd.Lf } ∷ [] }
    ensures no_last_feed { text_lines (codes "a\nb")
        ≡ record { number = 1; text = codes "a"; ending = LineEnd.Lf }
        ∷ record { number = 2; text = codes "b"; ending = LineEnd.Absent } ∷ [] }
    ensures last_feed { text_lines (codes "a\n\n")
        ≡ record { number = 1; text = codes "a"; ending = LineEnd.Lf }
        ∷ record { number = 2; text = []; ending = LineEnd.Lf } ∷ [] }
{}

/// The columns and the numbers of small texts.
#[tactic(auto, unfolding(bt_lines::specs::model::Lines::value_of))]
pub fn columns_and_numbers_of_small_texts()
    ensures one_column { pieces 9 [] ≡ [] ∷ [] }
    ensures empty_columns { pieces 9 (codes "a\t\tb\t")
        ≡ codes "a" ∷ [] ∷ codes "b" ∷ [] ∷ [] }
    ensures leading_zeros { value_of (codes "007") ≡ Some 7 }
    ensures greatest { value_of (codes "999999999999") ≡ Some 999999999999 }
    ensures too_great { value_of (codes "1000000000000") ≡ None }
    ensures empty { value_of [] ≡ None }
    ensures signed { value_of (codes "+1") ≡ None }
{}
