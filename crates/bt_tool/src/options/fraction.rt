//! Fractions in decimal, counted in billionths.

ghost use Rattle.std.specs.Prelude.{◌≡◌, ◌≤◌, ◌<◌, ◌&&◌, IfSome, Some, None, if◌then◌else◌, length, nat_le};
ghost use Rattle.std.specs.Char.{is_ascii_digit};
ghost use Rattle.std.specs.List.{list_all};
ghost use Rattle.std.specs.Str.Parse.{digits_value};
ghost use Rattle.bt_tool.specs.model.Fraction.{fraction_in, fraction_of, nine_decimals};

use bt_lines::number;

/// One, the greatest fraction, in billionths.
const ONE: u64 = 1_000_000_000;

/// How many digits may follow the point.
const DECIMALS: usize = 9;

/// The fraction that a word denotes, in billionths. Leading zeros are allowed, a sign, a space or an
/// exponent isn't.
pub(crate) fn fraction(word: &str) -> Option<u64>
    ensures { result ≡ fraction_of word.now }
{
    match word.split_once('.') {
        Some((whole, decimals)) => fraction_in(whole.as_bytes(), decimals.as_bytes()),
        None => fraction_in(word.as_bytes(), b""),
    }
}

// The fraction of these digits before the point and after it.
fn fraction_in(whole: &[u8], decimals: &[u8]) -> Option<u64>
    ensures { result ≡ fraction_in whole.now decimals.now }
{
    if whole.is_empty() && decimals.is_empty() {
        return None;
    }
    if decimals.len() > DECIMALS {
        return None;
    }
    let Some(ones) = ones_in(whole) else {
        return None;
    };
    let Some(billionths) = billionths_behind(decimals) else {
        return None;
    };
    let billionths = ones * ONE + billionths;
    if billionths > ONE {
        return None;
    }
    Some(billionths)
}

// The number of the digits before the point, 0 without any, if it isn't above one.
fn ones_in(whole: &[u8]) -> Option<u64>
    ensures { result ≡ if list_all is_ascii_digit whole.now && nat_le (digits_value 10 whole.now) 1
        then Some (digits_value 10 whole.now) else None }
{
    if whole.is_empty() {
        return Some(0);
    }
    let Some(ones) = number(whole) else {
        return None;
    };
    if ones > 1 {
        return None;
    }
    Some(ones)
}

// The number of nine digits after the point: those that are there, and then zeros.
fn billionths_behind(decimals: &[u8]) -> Option<u64>
    requires { length decimals.now ≤ 9 }
    ensures value { result ≡ if list_all is_ascii_digit decimals.now
        then Some (digits_value 10 (nine_decimals decimals.now)) else None }
    ensures below { IfSome result (λ billionths. billionths < 1000000000) }
{
    let mut billionths: u64 = 0;
    for at in 0..DECIMALS {
        let digit = decimals.get(at).copied().unwrap_or(b'0');
        if !digit.is_ascii_digit() {
            return None;
        }
        billionths = billionths * 10 + u64::from(digit - b'0');
    }
    Some(billionths)
}

#[cfg(test)]
mod tests;
