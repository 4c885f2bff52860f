//! The strand of the columns that are kept.

ghost use Rattle.std.specs.Prelude.{◌≡◌, ◌≤◌, ◌∷◌, [], List, ℕ, drop, length};
ghost use Rattle.bt_lines.specs.model.Lines.{pieces};
ghost use Rattle.bt_bed.specs.model.BedLine.{strand_named, strand_of};
ghost use Rattle.bt_bed.specs.calls.Features.{columns_in};

use crate::record::strand::Strand;
use bt_lines::{copy_piece, length_before};

// Most columns after the third have this many bytes at most.
const SHORT: usize = 32;

// The strand of the columns that are kept, each with the tab before it: those from an index on.
#[inline(always)]
pub(crate) fn kept_strand(text: &[u8], from: usize) -> Strand
    requires { from ≤ length text.now }
    ensures { result ≡ strand_of (columns_in (drop from text.now)) }
{
    if from == text.len() {
        return Strand::Dot;
    }
    let columns = behind(text, from + 1);
    if columns.len() <= SHORT {
        return short_third_column(columns);
    }
    third_column(columns)
}

// What a text has from an index on.
pub(crate) fn behind(text: &[u8], from: usize) -> &[u8]
    requires { from ≤ length text.now }
    ensures { result.now ≡ drop from text.now }
{
    &text[from..]
}

// `third_column` of a short text: with tabs after it, so that each search ends among its first bytes.
fn short_third_column(text: &[u8]) -> Strand
    requires { length text.now ≤ 32 }
    ensures { result ≡ strand_of (pieces 9 text.now) }
{
    let mut padded = [b'\t'; 2 * SHORT];
    copy_piece(&mut padded[..text.len()], text);
    third_column(&padded)
}

// The strand that the third column of a text names.
#[tactic(auto, using(bt_lines::proofs::lemmas::reader::lines::TextLemmas::before_tab, bt_lines::proofs::lemmas::reader::lines::TextLemmas::without_tab))]
#[inline(always)]
fn third_column(text: &[u8]) -> Strand
    ensures { result ≡ strand_of (pieces 9 text.now) }
{
    let first = length_before(b'\t', text);
    if first == text.len() {
        return Strand::Dot;
    }
    let text = behind(text, first + 1);
    let second = length_before(b'\t', text);
    if second == text.len() {
        return Strand::Dot;
    }
    first_column(behind(text, second + 1))
}

// The strand that the first column of a text names, after two others.
fn first_column(text: &[u8]) -> Strand
    ensures { (name score : List ℕ) → result ≡ strand_of (name ∷ score ∷ pieces 9 text.now) }
{
    match text {
        [byte] | [byte, b'\t', ..] => named_by(*byte),
        _ => Strand::Dot,
    }
}

// The strand that a column of one byte names.
fn named_by(byte: u8) -> Strand
    ensures { result ≡ strand_named (byte ∷ []) }
{
    match byte {
        b'+' => Strand::Plus,
        b'-' => Strand::Minus,
        _ => Strand::Dot,
    }
}
