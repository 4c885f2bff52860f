//! The first three columns of a line, scanned within the text.

ghost use Rattle.std.specs.Prelude.{◌≡◌, ◌+◌, ◌<◌, ◌≤◌, IfSome, Some, IsTrue, drop, get_or, length, take};
ghost use Rattle.bt_bed.specs.inside.FirstColumns.{BeginsWith, BeginsWithName, HasColumns, HasKey};
ghost use Rattle.bt_lines.specs.model.Lines.{value_of};

use crate::parse::names::is_same_name;
use crate::parse::packed_name::{LONGEST_KEYED, PackedName};
use crate::record::raw_record::ParsedNumber;
use bt_lines::{eight_digits, few_digits};
use std::simd::prelude::*;

// How many bytes have to come after the name, at most, for its line's columns to be scanned: two tabs, two numbers of
// nine digits, and as many as are looked at together.
pub(crate) const LOOKAHEAD: usize = 32;

// The numbers of the second and third columns, and where these end, each counted from where it begins.
#[derive(Clone, Copy)]
pub(crate) struct FirstColumns {
    pub(crate) start: ParsedNumber,
    pub(crate) stop: ParsedNumber,
}

// The first three columns of these bytes, if the first is this name and the others begin with numbers of at most nine
// digits, the second one greater. What ends the third column isn't looked at.
#[inline(always)]
pub(crate) fn scan_columns(bytes: &[u8], name: &[u8], key: PackedName) -> Option<FirstColumns>
    requires key { HasKey name.now key }
    requires room { length name.now + 32 ≤ length bytes.now }
    ensures { IfSome result (λ columns. HasColumns bytes.now name.now columns.start columns.stop) }
{
    if !begins_with(bytes, name, key) {
        return None;
    }
    let first = name.len() + 1;
    let start = number_at(bytes, first);
    let tab = first + start.end;
    if start.end == 0 || bytes[tab] != b'\t' {
        return None;
    }
    let stop = number_at(bytes, tab + 1);
    if stop.end == 0 || start.value >= stop.value {
        return None;
    }
    Some(FirstColumns { start, stop })
}

// Whether the bytes begin with this name and a tab. Most names have a key, and the length of these is tested once.
#[inline(always)]
#[tactic(auto, using(crate::proofs::lemmas::parse::NameLemmas::front_begins))]
fn begins_with(bytes: &[u8], name: &[u8], key: PackedName) -> bool
    requires key { HasKey name.now key }
    requires room { length name.now + 32 ≤ length bytes.now }
    ensures { IsTrue result → BeginsWithName bytes.now name.now }
{
    if name.len() <= LONGEST_KEYED {
        return key.begins(&word_at(bytes, 0));
    }
    begins_with_long(bytes, name)
}

// Whether a name of any length and a tab come first: it looks at the tab, and then at the name.
#[inline(always)]
#[tactic(auto, using(crate::proofs::lemmas::read::ColumnLemmas::name_in_front))]
pub(crate) fn begins_with_long(bytes: &[u8], name: &[u8]) -> bool
    requires { length name.now < length bytes.now }
    ensures same { IsTrue result → BeginsWithName bytes.now name.now }
    ensures other { BeginsWithName bytes.now name.now → IsTrue result }
{
    let end = name.len();
    bytes[end] == b'\t' && is_same_name(name, &bytes[..end])
}

// The number of the digits from a place on, of at most nine.
#[inline(always)]
fn number_at(bytes: &[u8], at: usize) -> ParsedNumber
    requires { at + 9 ≤ length bytes.now }
    ensures begins { BeginsWith (drop at bytes.now) result }
    ensures short { result.end ≤ 9 }
{
    match eight_digits(&word_at(bytes, at)) {
        Some(value) => number_of_eight(bytes, at, value),
        None => number_of_few(&word_at(bytes, at)),
    }
}

// The eight bytes from a place on.
#[inline(always)]
fn word_at(bytes: &[u8], at: usize) -> [u8; 8]
    requires { at + 8 ≤ length bytes.now }
    ensures { result ≡ take 8 (drop at bytes.now) }
{
    u8x8::from_slice(&bytes[at..]).to_array()
}

// The number of less than eight digits. Out of line, since most have more.
#[inline(never)]
fn number_of_few(bytes: &[u8; 8]) -> ParsedNumber
    ensures begins { BeginsWith bytes.now result }
    ensures short { result.end ≤ 8 }
{
    let (value, end) = few_digits(bytes);
    ParsedNumber { value, end }
}

// The number of eight digits that are read already, and of a ninth, if there is one.
#[inline(always)]
fn number_of_eight(bytes: &[u8], at: usize, value: u64) -> ParsedNumber
    requires at { at + 9 ≤ length bytes.now }
    requires value { value_of (take 8 (drop at bytes.now)) ≡ Some value }
    ensures begins { BeginsWith (drop at bytes.now) result }
    ensures short { result.end ≤ 9 }
{
    let byte = bytes[at + 8];
    if !byte.is_ascii_digit() {
        return ParsedNumber { value, end: 8 };
    }
    ParsedNumber {
        value: value * 10 + u64::from(byte - b'0'),
        end: 9,
    }
}
