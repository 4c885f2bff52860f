//! The columns of an alignment's line that are read.

ghost use Rattle.std.specs.Prelude.{◌≡◌, ◌+◌, ◌≤◌, IfNone, IfSome, length, nat_le, option_map};
ghost use Rattle.bt_lines.specs.model.Lines.{pieces};
ghost use Rattle.bt_seq.specs.model.Alignment.{fields_of};
ghost use Rattle.bt_seq.specs.calls.Sam.{IsCut, fields_lent};

use bstr::ByteSlice;
use bt_lines::length_before;

// QNAME, FLAG, RNAME, POS, MAPQ and CIGAR as they are (SAM specification, section 1.4).
#[derive(Clone, Copy, Debug)]
pub(crate) struct Fields<'a> {
    pub(crate) name: &'a [u8],
    pub(crate) flag: &'a [u8],
    pub(crate) chrom: &'a [u8],
    pub(crate) position: &'a [u8],
    pub(crate) quality: &'a [u8],
    pub(crate) cigar: &'a [u8],
}

// The columns of a text, if it has eleven at least.
#[inline(always)]
pub(crate) fn first_fields(text: &[u8]) -> Option<Fields<'_>>
    ensures { option_map fields_lent result ≡ fields_of (pieces 9 text.now) }
{
    let (name, rest) = cut_column(text)?;
    let (flag, rest) = cut_column(rest)?;
    let (chrom, rest) = cut_column(rest)?;
    let (position, rest) = cut_column(rest)?;
    let (quality, rest) = cut_column(rest)?;
    let (cigar, rest) = cut_column(rest)?;
    if !has_five(rest) {
        return None;
    }
    Some(Fields {
        name,
        flag,
        chrom,
        position,
        quality,
        cigar,
    })
}

// Whether a text has five columns at least. The first three are short, as RNEXT, PNEXT and TLEN are.
#[inline(always)]
fn has_five(text: &[u8]) -> bool
    ensures { result ≡ nat_le 5 (length (pieces 9 text.now)) }
{
    match behind_three(text) {
        Some(rest) => has_tab(rest),
        None => false,
    }
}

// What comes after the third column of a text, if it has a fourth.
#[inline(always)]
fn behind_three(text: &[u8]) -> Option<&[u8]>
    ensures some { IfSome result (λ rest. length (pieces 9 text.now) ≡ 3 + length (pieces 9 rest.now)) }
    ensures none { IfNone result (length (pieces 9 text.now) ≤ 3) }
{
    let (_mate_chrom, rest) = cut_column(text)?;
    let (_mate_position, rest) = cut_column(rest)?;
    let (_length, rest) = cut_column(rest)?;
    Some(rest)
}

// Whether a text has two columns at least. The last tab is looked for: it is mostly nearer to its end
// than the first is to the start.
fn has_tab(text: &[u8]) -> bool
    ensures { result ≡ nat_le 2 (length (pieces 9 text.now)) }
{
    text.rfind_byte(b'\t').is_some()
}

// The first column of a text, and what follows its tab, if it has one.
#[tactic(auto, using(std::proofs::lemmas::List::take_rest, bt_lines::proofs::lemmas::reader::lines::TextLemmas::before_tab, bt_lines::proofs::lemmas::reader::lines::TextLemmas::without_tab))]
#[inline(always)]
fn cut_column(text: &[u8]) -> Option<(&[u8], &[u8])>
    ensures { IsCut text.now result }
{
    let end = length_before(b'\t', text);
    if end == text.len() {
        return None;
    }
    Some((&text[..end], &text[end + 1..]))
}
