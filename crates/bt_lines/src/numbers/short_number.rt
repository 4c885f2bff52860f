//! Numbers of as many digits as most have, read without a loop.

ghost use Rattle.std.specs.Prelude.{◌≡◌, ◌≤◌, ◌∷◌, [], length, take};
ghost use Rattle.bt_lines.specs.model.Lines.{value_of};

use crate::numbers::{eight_digits, number};

/// The number that a text denotes, as [`number`] has it. Up to three digits, as most flags, qualities and depths have, are
/// read without a loop.
#[inline(always)]
pub fn short_number(text: &[u8]) -> Option<u64>
    ensures { result ≡ value_of text.now }
{
    match text {
        [ones] => digit(*ones),
        [tens, ones] => two_digits(*tens, *ones),
        [hundreds, tens, ones] => three_digits(*hundreds, *tens, *ones),
        _ => long_number(text),
    }
}

/// The number that a text denotes, as [`number`] has it. Of eight or nine digits, as most positions have, eight are read at
/// once.
#[inline(always)]
pub fn long_number(text: &[u8]) -> Option<u64>
    ensures { result ≡ value_of text.now }
{
    match text.len() {
        8 => first_eight(text),
        9 => nine_digits(text),
        _ => number(text),
    }
}

// The number that a digit denotes.
#[tactic(auto, unfolding(crate::specs::model::Lines::value_of))]
fn digit(ones: u8) -> Option<u64>
    ensures { result ≡ value_of (ones ∷ []) }
{
    if !ones.is_ascii_digit() {
        return None;
    }
    Some(u64::from(ones - b'0'))
}

// The number that two digits denote.
#[tactic(auto, unfolding(crate::specs::model::Lines::value_of))]
fn two_digits(tens: u8, ones: u8) -> Option<u64>
    ensures { result ≡ value_of (tens ∷ ones ∷ []) }
{
    if !tens.is_ascii_digit() {
        return None;
    }
    if !ones.is_ascii_digit() {
        return None;
    }
    Some(u64::from(tens - b'0') * 10 + u64::from(ones - b'0'))
}

// The number that three digits denote.
#[tactic(auto, unfolding(crate::specs::model::Lines::value_of))]
fn three_digits(hundreds: u8, tens: u8, ones: u8) -> Option<u64>
    ensures { result ≡ value_of (hundreds ∷ tens ∷ ones ∷ []) }
{
    if !hundreds.is_ascii_digit() {
        return None;
    }
    if !tens.is_ascii_digit() {
        return None;
    }
    if !ones.is_ascii_digit() {
        return None;
    }
    let upper = u64::from(hundreds - b'0') * 10 + u64::from(tens - b'0');
    Some(upper * 10 + u64::from(ones - b'0'))
}

// The number that nine digits denote.
fn nine_digits(text: &[u8]) -> Option<u64>
    requires { length text.now ≡ 9 }
    ensures { result ≡ value_of text.now }
{
    let value = first_eight(text)?;
    let last = text[8];
    if !last.is_ascii_digit() {
        return None;
    }
    Some(value * 10 + u64::from(last - b'0'))
}

// The number that the first eight digits denote.
fn first_eight(text: &[u8]) -> Option<u64>
    requires { 8 ≤ length text.now }
    ensures { result ≡ value_of (take 8 text.now) }
{
    eight_digits(text.first_chunk::<8>()?)
}

#[cfg(test)]
mod tests {
    use super::*;

    #[test]
    fn numbers_of_each_length(rt: HostRuntime) {
        assert_eq!(rt; short_number(b"7"), Some(7));
        assert_eq!(rt; short_number(b"042"), Some(42));
        assert_eq!(rt; short_number(b"1234"), Some(1234));
        assert_eq!(rt; short_number(b"1:"), None);
        assert_eq!(rt; short_number(b""), None);
        assert_eq!(rt; long_number(b"12345678"), Some(12_345_678));
        assert_eq!(rt; long_number(b"123456789"), Some(123_456_789));
        assert_eq!(rt; long_number(b"12345678x"), None);
        assert_eq!(rt; long_number(b"999999999999"), Some(999_999_999_999));
        assert_eq!(rt; long_number(b"1000000000000"), None);
    }
}
