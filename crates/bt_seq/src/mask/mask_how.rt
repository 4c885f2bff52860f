//! Masked bases.

ghost use Rattle.std.specs.Prelude.{◌≡◌, ◌≤◌, ◌++◌, drop, length, map, take};
ghost use Rattle.bt_seq.specs.model.Masked.{masked_byte};
ghost use Rattle.bt_seq.specs.declared.mask.mask_how.MaskHow.TheVariants.{Soft};

use std::simd::prelude::*;

// How many bases are masked at once.
const LANES: usize = 32;

/// What stands for a masked base.
#[derive(Clone, Copy, Debug, PartialEq, Eq)]
pub enum MaskHow {
    /// The base in lower case: `a` to `z` for `A` to `Z`. Any other byte stays as it is.
    Soft,
    /// This byte, whatever the base.
    Hard(u8),
}

/// Masks bases in place, each byte independently. It doesn't allocate.
#[tactic(auto, using(crate::proofs::lemmas::mask::bases::MaskingLemmas::masked_rest))]
pub fn mask_slice(bases: &mut [u8], how: MaskHow)
    ensures { bases.new ≡ map (masked_byte how) bases.old }
{
    let at = mask_by_lanes(bases, how);
    mask_each(&mut bases[at..], how);
}

// Masks as many bases as fill whole vectors, and returns how many those are.
#[tactic(auto, using(crate::proofs::lemmas::mask::bases::MaskingLemmas::masked_more))]
#[inline(always)]
fn mask_by_lanes(bases: &mut [u8], how: MaskHow) -> usize
    ensures within { result ≤ length bases.old }
    ensures masked { bases.new ≡ map (masked_byte how) (take result bases.old) ++ drop result bases.old }
{
    let mut at = 0;
    while bases.len() - at >= LANES {
        let lanes = u8x32::from_slice(&bases[at..]);
        mask_lanes(lanes, how).copy_to_slice(&mut bases[at..]);
        at += LANES;
    }
    at
}

// Masks the lanes of a vector, each independently.
fn mask_lanes(lanes: u8x32, how: MaskHow) -> u8x32
    ensures { result ≡ map (masked_byte how) lanes }
{
    match how {
        MaskHow::Soft => lower_lanes(lanes),
        MaskHow::Hard(mask) => u8x32::splat(mask),
    }
}

// Makes `a` to `z` of `A` to `Z` in each lane.
fn lower_lanes(lanes: u8x32) -> u8x32
    ensures { result ≡ map (masked_byte Soft) lanes }
{
    let is_upper = (lanes - u8x32::splat(b'A')).simd_lt(u8x32::splat(26));
    is_upper.select(lanes + u8x32::splat(32), lanes)
}

// Masks bases one by one.
#[inline(always)]
fn mask_each(bases: &mut [u8], how: MaskHow)
    ensures { bases.new ≡ map (masked_byte how) bases.old }
{
    for base in bases.iter_mut() {
        *base = mask_byte(*base, how);
    }
}

// The byte that stands for a masked base.
pub(crate) fn mask_byte(base: u8, how: MaskHow) -> u8
    ensures { result ≡ masked_byte how base }
{
    match how {
        MaskHow::Soft if base.is_ascii_uppercase() => base + 32,
        MaskHow::Soft => base,
        MaskHow::Hard(mask) => mask,
    }
}

#[cfg(test)]
mod tests {
    use super::*;

    const EDGES: &[u8] = b"@AMZ[`amz{\r*-\x80\xC1\xFFACGTNacgtnRYKMrykmBDHVbdhvW";

    // How bases are masked, the bases, and what stands for them. The last two are longer than a vector.
    #[rattlefmt::skip]
    const MASKED: [(MaskHow, &[u8], &[u8]); 5] = [
        (MaskHow::Soft, b"", b""),
        (MaskHow::Soft, b"aZ-z", b"az-z"),
        (MaskHow::Hard(b'N'), b"aZ-z", b"NNNN"),
        (MaskHow::Soft, EDGES, b"@amz[`amz{\r*-\x80\xC1\xFFacgtnacgtnrykmrykmbdhvbdhvw"),
        (MaskHow::Hard(b'x'), EDGES, b"xxxxxxxxxxxxxxxxxxxxxxxxxxxxxxxxxxxxxxxxxxx"),
    ];

    // Whether bases are masked so. What comes after them stays.
    fn is_masked(how: MaskHow, bases: &[u8], want: &[u8]) -> bool {
        let mut block = [b'A'; 64];
        let count = bases.len().min(63);
        block[..count].copy_from_slice(&bases[..count]);
        mask_slice(&mut block[..count], how);
        &block[..count] == want && block[count] == b'A'
    }

    fn first_unlike(rows: &[(MaskHow, &[u8], &'static [u8])]) -> Option<&'static [u8]> {
        for (how, bases, want) in rows {
            if !is_masked(*how, bases, want) {
                return Some(*want);
            }
        }
        None
    }

    #[test]
    fn each_byte_is_masked_by_itself(rt: HostRuntime) {
        assert_eq!(rt; first_unlike(&MASKED), None);
    }

    // The values of a byte, twice.
    fn all_values() -> [u8; 512] {
        let mut values = [0; 512];
        for (at, value) in values.iter_mut().enumerate() {
            *value = (at % 256) as u8;
        }
        values
    }

    // At most a hundred bases, masked together or one by one.
    fn masked_both_ways(bases: &[u8], how: MaskHow) -> ([u8; 100], [u8; 100])
        requires { length bases.now ≤ 100 }
    {
        let count = bases.len();
        let mut together = [0; 100];
        together[..count].copy_from_slice(bases);
        let mut each = together;
        mask_slice(&mut together[..count], how);
        for base in each[..count].iter_mut() {
            *base = match how {
                MaskHow::Soft => base.to_ascii_lowercase(),
                MaskHow::Hard(byte) => byte,
            };
        }
        (together, each)
    }

    // How many bases there are, and the first value, where masking them together gives something else.
    fn first_masked_otherwise(values: &[u8; 512], how: MaskHow) -> Option<(usize, usize)> {
        for count in 0..101_usize {
            for first in 0..256_usize {
                let (together, each) = masked_both_ways(&values[first..first + count], how);
                if together != each {
                    return Some((count, first));
                }
            }
        }
        None
    }

    #[test]
    fn every_value_is_masked_at_every_place(rt: HostRuntime) {
        let values = all_values();
        for how in [MaskHow::Soft, MaskHow::Hard(120)] {
            assert_eq!(rt; first_masked_otherwise(&values, how), None, "{how:?}");
        }
    }
}
