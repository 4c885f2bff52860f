//! What a line of a SAM file says.

ghost use Rattle.std.specs.Prelude.{◌≡◌, Some};
ghost use Rattle.bt_seq.specs.model.Alignment.{alignment_of, fields_say, gives_nothing, has_bit, is_skipped_sam, up_to, value_up_to};
ghost use Rattle.bt_seq.specs.calls.Sam.{alignment_seen, fields_lent};

use crate::sam::SamRef;
use crate::sam::cigar::cigar_span;
use crate::sam::fields::{Fields, first_fields};
use bt_lines::{Kind, MAX_NUMBER, long_number, short_number};

// The greatest FLAG, POS and MAPQ.
const MAX_FLAG: u64 = 65_535;

const MAX_POSITION: u64 = 2_147_483_647;

const MAX_QUALITY: u64 = 255;

// The bits of FLAG that are tested.
const UNMAPPED: u64 = 4;

const REVERSE: u64 = 16;

const FIRST: u64 = 64;

const LAST: u64 = 128;

/// The alignment of a line's text (SAM specification, sections 1.3 and 1.4). There is none if the
/// line is blank or a header line, which begins with `@`. Nor is there one if the read is unmapped, has the
/// reference name `*` or the position 0, or covers no reference base. `Err` has the first that
/// applies: fewer than eleven columns; a flag above 65,535 or no number; an empty reference name; a
/// position above 2,147,483,647 or no number; a mapping quality above 255 or no number; a malformed
/// CIGAR; and of an alignment that isn't left out, an end above 999,999,999,999. Leading zeros are
/// allowed. It doesn't allocate, and the alignment borrows from the text.
#[tactic(auto, unfolding(crate::specs::model::Alignment::alignment_of, crate::specs::model::Alignment::fields_say))]
#[inline(always)]
pub fn sam_line(text: &[u8]) -> Result<Option<SamRef<'_>>, Kind>
    ensures { alignment_seen result ≡ alignment_of text.now }
{
    if is_skipped(text) {
        return Ok(None);
    }
    match first_fields(text) {
        None => Err(Kind::TooFewColumns),
        Some(fields) => alignment(fields),
    }
}

// Whether a line is blank or a header line.
fn is_skipped(text: &[u8]) -> bool
    ensures { result ≡ is_skipped_sam text.now }
{
    matches!(text, [] | [b'@', ..])
}

// What the columns say.
#[tactic(auto, unfolding(crate::specs::model::Alignment::fields_say))]
#[inline(always)]
fn alignment(fields: Fields<'_>) -> Result<Option<SamRef<'_>>, Kind>
    ensures { alignment_seen result ≡ fields_say (Some (fields_lent fields.entry)) }
{
    let Some(flag) = number_up_to(fields.flag, MAX_FLAG) else {
        return Err(Kind::BadFlag);
    };
    if fields.chrom.is_empty() {
        return Err(Kind::EmptyName);
    }
    let Some(position) = position_in(fields.position) else {
        return Err(Kind::BadPosition);
    };
    let Some(quality) = number_up_to(fields.quality, MAX_QUALITY) else {
        return Err(Kind::BadQuality);
    };
    let Some(span) = cigar_span(fields.cigar) else {
        return Err(Kind::BadCigar);
    };
    if gives_nothing(flag, fields.chrom, position, span) {
        return Ok(None);
    }
    let start = position - 1;
    let stop = start + span;
    if stop > MAX_NUMBER {
        return Err(Kind::StopTooLarge);
    }
    Ok(Some(SamRef {
        name: fields.name,
        first: has_bit(flag, FIRST),
        last: has_bit(flag, LAST),
        reverse: has_bit(flag, REVERSE),
        chrom: fields.chrom,
        start,
        stop,
        quality,
        cigar: fields.cigar,
    }))
}

// The number that a text denotes, if it is at most the limit. Most have up to three digits.
#[inline(always)]
fn number_up_to(text: &[u8], limit: u64) -> Option<u64>
    ensures { result ≡ value_up_to limit text.now }
{
    up_to(short_number(text), limit)
}

// The number that a text denotes, if it is a position. Most have eight or nine digits.
#[inline(always)]
fn position_in(text: &[u8]) -> Option<u64>
    ensures { result ≡ value_up_to 2147483647 text.now }
{
    up_to(long_number(text), MAX_POSITION)
}

// A number, if it is at most the limit.
#[inline(always)]
fn up_to(number: Option<u64>, limit: u64) -> Option<u64>
    ensures { result ≡ up_to limit number }
{
    let value = number?;
    if value <= limit { Some(value) } else { None }
}

// Whether the read is unmapped, has no reference name or no position, or covers no reference base.
fn gives_nothing(flag: u64, chrom: &[u8], position: u64, span: u64) -> bool
    ensures { result ≡ gives_nothing flag chrom.now position span }
{
    has_bit(flag, UNMAPPED) || matches!(chrom, b"*") || position == 0 || span == 0
}

// Whether a bit of the flag is set.
fn has_bit(flag: u64, bit: u64) -> bool
    ensures { result ≡ has_bit flag bit }
{
    flag & bit != 0
}

#[cfg(test)]
mod tests;
