//! Cutting an alignment into its blocks.

ghost use Rattle.std.specs.Prelude.{◌≡◌};
ghost use Rattle.bt_seq.specs.model.BedLines.{alignment_blocks};
ghost use Rattle.bt_seq.specs.calls.Sam.{alignment_lent, blocks_left};

use crate::sam::SamRef;
use crate::sam::block_iter::SamBlocks;

/// The blocks of an alignment on the reference, from the first to the last. With `split` it is cut at
/// each N operation of its CIGAR, also at one of length 0, and a block without a base is left out. Else
/// its one block goes from its first reference base to its last, N included. It doesn't allocate.
pub fn blocks<'a>(sam: &SamRef<'a>, split: bool) -> SamBlocks<'a>
    ensures { blocks_left result ≡ alignment_blocks split (alignment_lent sam.now) }
{
    SamBlocks::new(sam, split)
}

#[cfg(test)]
mod tests {
    use super::*;
    use crate::sam::sam_text::sam_line;

    // A line, and the blocks of its alignment: uncut, and cut at each N.
    type Row = (&'static [u8], &'static [(u64, u64)], &'static [(u64, u64)]);

    #[rattlefmt::skip]
    const ALIGNMENTS: [Row; 9] = [
        (b"r\t0\tref\t16\t30\t6M14N5M\t*\t0\t0\t*\t*", &[(15, 40)], &[(15, 21), (35, 40)]),
        (b"r\t0\tref\t1\t30\t5N5M\t*\t0\t0\t*\t*", &[(0, 10)], &[(5, 10)]),
        (b"r\t0\tref\t1\t30\t5M5N\t*\t0\t0\t*\t*", &[(0, 10)], &[(0, 5)]),
        (b"r\t0\tref\t1\t30\t5M0N5M\t*\t0\t0\t*\t*", &[(0, 10)], &[(0, 5), (5, 10)]),
        (b"r\t0\tref\t1\t30\t5N\t*\t0\t0\t*\t*", &[(0, 5)], &[]),
        (b"r\t0\tref\t1\t30\t2M3N4S3N5M\t*\t0\t0\t*\t*", &[(0, 13)], &[(0, 2), (8, 13)]),
        (b"r\t0\tref\t1\t30\t2M3N3N5M\t*\t0\t0\t*\t*", &[(0, 13)], &[(0, 2), (8, 13)]),
        (b"r\t0\tref\t1\t30\t3H2S1M2I3D4=5X2P1S\t*\t0\t0\t*\t*", &[(0, 13)], &[(0, 13)]),
        (b"r\t0\tref\t1\t30\t1M999999999997N1M\t*\t0\t0\t*\t*",
            &[(0, 999_999_999_999)], &[(0, 1), (999_999_999_998, 999_999_999_999)]),
    ];

    // Whether these are the blocks of the alignment that a line says.
    fn has_blocks(text: &[u8], split: bool, want: &[(u64, u64)]) -> bool {
        let Ok(Some(sam)) = sam_line(text) else {
            return false;
        };
        let mut left = want.iter();
        for block in blocks(&sam, split) {
            if left.next() != Some(&block) {
                return false;
            }
        }
        left.next().is_none()
    }

    fn first_unlike(rows: &[Row]) -> Option<&'static [u8]> {
        for (line, uncut, cut) in rows {
            if !has_blocks(line, false, uncut) || !has_blocks(line, true, cut) {
                return Some(*line);
            }
        }
        None
    }

    #[test]
    fn alignments_are_cut_at_each_skip(rt: HostRuntime) {
        assert_eq!(rt; first_unlike(&ALIGNMENTS), None);
    }
}
