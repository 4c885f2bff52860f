//! Columns of numbers.

ghost use Rattle.std.specs.Prelude.{◌≡◌, ◌+◌, ◌≤◌, ◌++◌, codes, decimal, drop, length};

use itoa::write_digits;

/// The room for a tab and a number of up to 20 digits.
pub const COLUMN: usize = 21;

/// Writes a tab and a number in decimal, without leading zeros, so that they end before the offset `end`, and returns
/// the offset of the tab. So a line is written from its last column to its first. It doesn't allocate.
#[inline]
#[tactic(auto, using(crate::proofs::lemmas::Writer::twenty_digits))]
pub fn write_column(number: u64, text: &mut [u8], end: usize) -> usize
    requires room { COLUMN ≤ end }
    requires within { end ≤ length text.old }
    ensures high { result ≤ end }
    ensures low { end ≤ result + COLUMN }
    ensures written { drop result text.new ≡ codes "\t" ++ (decimal number ++ drop end text.old) }
{
    let first = write_digits(number, text, end) - 1;
    text[first] = b'\t';
    first
}

#[cfg(test)]
mod tests {
    use super::*;
    use std::test::Fail;

    #[test]
    fn columns_stand_before_what_ends_the_line(rt: HostRuntime) -> Result<(), Fail> {
        let mut text = [b'\n'; 2 * COLUMN + 1];
        let before_last = write_column(u64::MAX, &mut text, 2 * COLUMN);
        let first = write_column(0, &mut text, before_last);
        let want: &[u8] = b"\t0\t18446744073709551615\n";
        assert_eq!(rt; &text[first..], want);
        Ok(())
    }
}
