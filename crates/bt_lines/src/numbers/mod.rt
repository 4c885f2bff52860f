//! Numbers in decimal.

pub(crate) mod number_column;
pub(crate) mod short_number;

ghost use Rattle.std.specs.Prelude.{◌≡◌, ◌<◌, ◌≤◌, ℕ, List, false, get_or, length, map, take, true};
ghost use Rattle.std.specs.Char.{is_ascii_digit};
ghost use Rattle.std.specs.List.{list_all};
ghost use Rattle.std.specs.Simd.Lanes.{mask_l};
ghost use Rattle.std.specs.Str.Parse.{digits_value};
ghost use Rattle.bt_lines.specs.inside.Digits.{AreOnes, is_other};
ghost use Rattle.bt_lines.specs.model.Lines.{value_of};

use std::simd::prelude::*;

/// The greatest number that a text may denote.
pub const MAX_NUMBER: u64 = 999_999_999_999;

/// The number that a text of one or more decimal digits denotes, if it is at most
/// [`MAX_NUMBER`]. Leading zeros are allowed, a sign or a space isn't.
#[tactic(auto, using(crate::proofs::lemmas::numbers::NumberLemmas::value_of_empty, crate::proofs::lemmas::numbers::NumberLemmas::value_of_other, crate::proofs::lemmas::numbers::NumberLemmas::value_more, crate::proofs::lemmas::numbers::NumberLemmas::value_of_large, crate::proofs::lemmas::numbers::NumberLemmas::digits_more))]
pub fn number(text: &[u8]) -> Option<u64>
    ensures { result ≡ value_of text.now }
{
    if text.is_empty() {
        return None;
    }
    let mut value: u64 = 0;
    for byte in text {
        if !byte.is_ascii_digit() {
            return None;
        }
        value = value * 10 + u64::from(*byte - b'0');
        if value > MAX_NUMBER {
            return None;
        }
    }
    Some(value)
}

// Eight bytes as one number, the first in its lowest byte. The codes of the digits are 0x30 to 0x39. An exclusive or
// with 0x30 leaves at most 9, so that their upper halves are 0, and stay 0 when 6 is added.
const UPPER_HALVES: u64 = 0xf0f0_f0f0_f0f0_f0f0;

const ZEROS: u64 = 0x3030_3030_3030_3030;

const SIXES: u64 = 0x0606_0606_0606_0606;

// Every second byte.
const EVEN_BYTES: u64 = 0x00ff_00ff_00ff_00ff;

/// The number that eight decimal digits denote, or none if a byte isn't a digit: a sign or a space isn't allowed.
/// All eight are read at once.
#[inline(always)]
#[tactic(auto, using(crate::proofs::lemmas::numbers::EightLemmas::none_by_halves, crate::proofs::lemmas::numbers::EightLemmas::are_bytes, crate::proofs::lemmas::numbers::EightLemmas::digits_by_halves, crate::proofs::lemmas::numbers::EightLemmas::ones_read, crate::proofs::lemmas::numbers::EightLemmas::value_of_eight_digits))]
pub fn eight_digits(bytes: &[u8; 8]) -> Option<u64>
    ensures { result ≡ value_of bytes.now }
{
    let ones = u64::from_le_bytes(*bytes) ^ ZEROS;
    // A sum carries into the next byte only if the upper half of its own byte wasn't 0 before.
    if (ones | ones.wrapping_add(SIXES)) & UPPER_HALVES != 0 {
        return None;
    }
    Some(joined(ones))
}

/// The digits that come first in eight bytes: the number that they denote, and how many they are. All are
/// read at once.
#[inline]
#[tactic(auto, using(crate::proofs::lemmas::numbers::EightLemmas::shifted, crate::proofs::lemmas::numbers::EightLemmas::are_bytes, crate::proofs::lemmas::numbers::EightLemmas::few_read, crate::proofs::lemmas::numbers::EightLemmas::padded_value))]
pub fn few_digits(bytes: &[u8; 8]) -> (u64, usize)
    ensures few { result.1 ≤ 8 }
    ensures digits { list_all is_ascii_digit (take result.1 bytes.now) ≡ true }
    ensures all { result.1 < 8 → is_ascii_digit (get_or bytes.now result.1 0) ≡ false }
    ensures value { result.0 ≡ digits_value 10 (take result.1 bytes.now) }
{
    let count = digits_in_front(bytes);
    if count == 0 {
        return (0, 0);
    }
    // They come last, after zeros.
    let ones = u64::from_le_bytes(*bytes) ^ ZEROS;
    (joined(ones << (64 - 8 * count)), count)
}

// How many digits come first in eight bytes.
#[inline]
fn digits_in_front(bytes: &[u8; 8]) -> usize
    ensures few { result ≤ 8 }
    ensures digits { list_all is_ascii_digit (take result bytes.now) ≡ true }
    ensures all { result < 8 → is_ascii_digit (get_or bytes.now result 0) ≡ false }
{
    let others = other_bits(u8x8::from_slice(bytes));
    if others == 0 {
        return 8;
    }
    others.trailing_zeros() as usize
}

// The bits of the bytes that are no digits, the first byte's the lowest.
#[inline]
fn other_bits(bytes: u8x8) -> u64
    ensures { result ≡ mask_l (map is_other bytes) }
{
    let below = bytes.simd_lt(u8x8::splat(b'0')).to_bitmask();
    let above = bytes.simd_gt(u8x8::splat(b'9')).to_bitmask();
    below | above
}

// The number that eight digits denote, of their values in the bytes of one number, the first in the lowest.
#[tactic(auto, using(crate::proofs::lemmas::numbers::EightLemmas::joined_value))]
#[inline(always)]
fn joined(ones: u64) -> u64
    requires { ones ≤ 0x0909_0909_0909_0909 }
    ensures { (digits : List ℕ) → AreOnes digits ones → result ≡ digits_value 10 digits }
{
    // The bytes 0, 2, 4 and 6 are the values of two digits each, and then the pairs of bytes 0 and 4 of four.
    let pairs = (ones * 10 + ones / 0x100) & EVEN_BYTES;
    let fours = pairs * 100 + pairs / 0x1_0000;
    fours % 0x1_0000 * 10_000 + fours / 0x1_0000_0000 % 0x1_0000
}
