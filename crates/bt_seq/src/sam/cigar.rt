//! CIGAR strings: how an alignment goes along the reference.

ghost use Rattle.std.specs.Prelude.{◌≡◌, IfSome, Some, min, option_map};
ghost use Rattle.bt_seq.specs.model.Cigar.{consumes_reference, covered_by, is_letter, operations_in, operations_of};
ghost use Rattle.bt_seq.specs.calls.Alignments.{span_with};
ghost use Rattle.bt_seq.specs.inside.Sam.{IsFirstOperation, LeavesShorter};

use bt_lines::{MAX_NUMBER, short_number};

/// An operation of a CIGAR: a number and a letter (SAM specification, section 1.4, field 6, CIGAR). No call gives one;
/// laws name it.
#[derive(Clone, Copy, Debug)]
pub struct Operation {
    pub(crate) length: u64,
    pub(crate) letter: u8,
}

/// A reference length is exact up to here.
const SPAN_LIMIT: u64 = 1_000_000_000_000;

// How many bytes a single operation of three digits has.
const SHORT: usize = 4;

/// How many reference bases a CIGAR covers: the sum of the numbers of its M, D, N, `=` and X operations
/// (SAM specification, section 1.4, field 6), but no more than 1,000,000,000,000. It is 0 for `*`, and
/// none if the CIGAR is malformed. That is one that is empty, ends in a number, has another letter, or a letter
/// without a number of at most 999,999,999,999.
#[inline(always)]
pub fn cigar_span(cigar: &[u8]) -> Option<u64>
    ensures { result ≡ span_with 0 (operations_of cigar.now) }
{
    match cigar {
        [] => None,
        b"*" => Some(0),
        _ => span_in(cigar),
    }
}

// The reference length of a text of operations, up to the limit, or none if it isn't such a text.
#[inline(always)]
fn span_in(text: &[u8]) -> Option<u64>
    ensures { result ≡ span_with 0 (operations_in text.now) }
{
    let single = single_span(text);
    if single.is_some() {
        return single;
    }
    operations_span(text)
}

// The number of a single M operation, if it has at most three digits, as that of most reads without an insertion or
// a deletion.
#[inline(always)]
fn single_span(text: &[u8]) -> Option<u64>
    ensures { IfSome result (λ span. span_with 0 (operations_in text.now) ≡ Some span) }
{
    let size = text.len();
    if size == 0 || size > SHORT {
        return None;
    }
    if text[size - 1] != b'M' {
        return None;
    }
    short_number(&text[..size - 1])
}

// The reference length of any text of operations, by a loop over them.
#[tactic(auto, using(crate::proofs::lemmas::Sam::covered_within, crate::proofs::lemmas::Sam::span_end))]
#[inline(always)]
fn operations_span(text: &[u8]) -> Option<u64>
    ensures { result ≡ span_with 0 (operations_in text.now) }
{
    let mut rest = text;
    let mut total: u64 = 0;
    while !rest.is_empty() {
        let (operation, behind) = first_operation(rest)?;
        total = (total + covered_by(operation)).min(SPAN_LIMIT);
        rest = behind;
    }
    Some(total)
}

// The first operation of a text, and what follows it. There is none if the text is empty or
// doesn't begin with an operation.
#[tactic(auto, using(bt_lines::proofs::lemmas::numbers::NumberLemmas::digits_more, bt_lines::proofs::lemmas::numbers::NumberLemmas::value_more, crate::proofs::lemmas::Sam::digits_alone, crate::proofs::lemmas::Sam::no_operation_at_all, crate::proofs::lemmas::Sam::other_byte))]
pub(crate) fn first_operation(text: &[u8]) -> Option<(Operation, &[u8])>
    ensures first { IsFirstOperation text.now result }
    ensures within { LeavesShorter text.now result }
{
    let mut length: u64 = 0;
    let mut end = 0;
    while end < text.len() {
        let byte = text[end];
        if !byte.is_ascii_digit() {
            if end == 0 || !is_letter(byte) {
                return None;
            }
            let letter = byte;
            return Some((Operation { length, letter }, &text[end + 1..]));
        }
        length = length * 10 + u64::from(byte - b'0');
        if length > MAX_NUMBER {
            return None;
        }
        end += 1;
    }
    None
}

// How many reference bases an operation covers.
pub(crate) fn covered_by(operation: Operation) -> u64
    ensures { result ≡ covered_by operation }
{
    if consumes_reference(operation.letter) {
        operation.length
    } else {
        0
    }
}

// Whether the operations of this letter consume reference bases. Most are M, which is looked for first.
fn consumes_reference(letter: u8) -> bool
    ensures { result ≡ consumes_reference letter }
{
    letter == b'M' || matches!(letter, b'D' | b'N' | b'=' | b'X')
}

// Whether a byte is the letter of an operation.
fn is_letter(byte: u8) -> bool
    ensures { result ≡ is_letter byte }
{
    byte == b'M' || matches!(byte, b'I' | b'D' | b'N' | b'S' | b'H' | b'P' | b'=' | b'X')
}

#[cfg(test)]
mod tests {
    use super::*;

    // A CIGAR, and how many reference bases it spans, if it is well-formed.
    #[rattlefmt::skip]
    const SPANS: [(&[u8], Option<u64>); 18] = [
        (b"*", Some(0)), (b"3S5M2I1D4N6=1X2H1P", Some(17)), (b"8M2I4M1D3M", Some(16)),
        (b"999999999999M999999999999M", Some(1_000_000_000_000)), (b"0M", Some(0)), (b"007M", Some(7)),
        (b"100M", Some(100)), (b"75M", Some(75)), (b"100S", Some(0)),
        (b"", None), (b"M", None), (b"5", None), (b"5*", None), (b"1000000000000M", None),
        (b"5Q", None), (b"5M3", None), (b"**", None), (b"7SM", None),
    ];

    fn first_misread(rows: &[(&'static [u8], Option<u64>)]) -> Option<&'static [u8]> {
        for (text, span) in rows {
            if cigar_span(text) != *span {
                return Some(*text);
            }
        }
        None
    }

    #[test]
    fn spans(rt: HostRuntime) {
        assert_eq!(rt; first_misread(&SPANS), None);
    }
}
