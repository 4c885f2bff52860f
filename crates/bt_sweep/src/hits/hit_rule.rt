//! What makes a hit.

ghost use Rattle.std.specs.Prelude.{◌≡◌, false, true};
ghost use Rattle.bt_sweep.specs.calls.Sweeping.{any_overlap};

/// Which records hit one another: they share a base, and what the rule requires beside that (bedtools
/// manual, intersect, options -f, -r and -s). Each pair of records is judged separately.
#[derive(Clone, Copy, Debug, PartialEq, Eq)]
pub struct HitRule {
    /// How many billionths of the first record's length the shared bases have to be at least: 0 requires no more than
    /// one shared base, and 1,000,000,000 all of the record.
    pub billionths: u64,
    /// They have to be at least that part of the second record's length too.
    pub both: bool,
    /// The strands have to be equal; a record without a strand has the same as another without.
    pub same_strand: bool,
}

impl HitRule {
    /// The rule that one shared base satisfies.
    pub fn any_overlap() -> HitRule
        ensures { result ≡ any_overlap }
    {
        HitRule {
            billionths: 0,
            both: false,
            same_strand: false,
        }
    }

    // Whether it requires nothing but one shared base. Without a fraction it doesn't matter whether that
    // is required of both.
    pub(crate) fn is_any_overlap(&self) -> bool
        ensures { result ≡ true → (self.now.billionths ≡ 0) × (self.now.same_strand ≡ false) }
    {
        self.billionths == 0 && !self.same_strand
    }
}
