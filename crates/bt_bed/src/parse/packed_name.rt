//! The name of a chromosome and the tab after it, as one number.

ghost use Rattle.std.specs.Prelude.{◌≡◌, ◌*◌, ◌+◌, ◌-◌, ◌≤◌, ◌%◌, ◌^◌, [], ◌∷◌, ◌++◌, List, ℕ, IsTrue, length, take};
ghost use Rattle.std.specs.Int.{from_le_bytes, w64};
ghost use Rattle.bt_bed.specs.inside.FirstColumns.{HasKey, IsKey};

// The longest name that has a key: with the tab after it it fills eight bytes.
pub(crate) const LONGEST_KEYED: usize = 7;

// What recognizes the lines on a chromosome by one comparison: their first eight bytes as one number, without those after
// the tab. For a longer name it is unspecified.
#[derive(Clone, Copy, Debug)]
pub(crate) struct PackedName {
    // The name and the tab, as the upper bytes of a number.
    word: u64,
    // What moves them there from the lower bytes, so that those after them are lost.
    factor: u64,
}

impl PackedName {
    // The key of a name.
    #[tactic(auto, using(crate::proofs::lemmas::parse::NameLemmas::factor_is, crate::proofs::lemmas::parse::NameLemmas::key_made))]
    pub(crate) fn of(name: &[u8]) -> PackedName
        ensures { HasKey name.now result }
    {
        let bytes = front_of(name);
        // It moves the name and its tab to the upper bytes.
        let factor = 1 << (8 * LONGEST_KEYED.saturating_sub(name.len()));
        PackedName {
            word: upper_word(&bytes, factor),
            factor,
        }
    }

    // Whether a line that begins with these eight bytes begins with the name and a tab.
    #[tactic(auto, using(crate::proofs::lemmas::parse::NameLemmas::key_tells))]
    #[inline(always)]
    pub(crate) fn begins(self, bytes: &[u8; 8]) -> bool
        ensures { (name : List ℕ) → IsKey name self → IsTrue result
            → take (length name + 1) bytes.now ≡ name ++ 9 ∷ [] }
    {
        upper_word(bytes, self.factor) == self.word
    }
}

// Eight bytes that begin with a name and a tab, if it is a short one.
fn front_of(name: &[u8]) -> [u8; 8]
    ensures { length name.now ≤ 7 → take (length name.now + 1) result ≡ name.now ++ 9 ∷ [] }
{
    let mut bytes = [b'\t'; 8];
    if name.len() > LONGEST_KEYED {
        return bytes;
    }
    bytes[..name.len()].copy_from_slice(name);
    bytes
}

// The first of these bytes as the upper bytes of a number.
#[inline(always)]
fn upper_word(bytes: &[u8; 8], factor: u64) -> u64
    ensures { result ≡ (from_le_bytes w64 bytes.now * factor) % 2 ^ 64 }
{
    u64::from_le_bytes(*bytes).wrapping_mul(factor)
}
