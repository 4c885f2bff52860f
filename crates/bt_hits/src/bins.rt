//! The bins of bedtools.

ghost use Rattle.std.specs.Prelude.{◌≡◌, ◌≤◌};
ghost use Rattle.bt_hits.specs.calls.Order.{bin_order_has_all};
ghost use Rattle.bt_hits.specs.model.Bins.{level_of};

use bt_bed::Rec;

/// How many levels of bins there are.
pub(crate) const LEVELS: usize = 7;

// How many bases a bin of the first level has, and how many bins of a level one of the next has.
const FIRST: u64 = 16_384;

const NEXT: u64 = 8;

// The level of the smallest bin that has all of a record, or how many levels there are if none has.
pub(crate) fn level_of(rec: &Rec) -> usize
    ensures is { result ≡ level_of rec.now }
    ensures within { result ≤ 7 }
{
    let bed = rec.as_bed();
    let mut first = bed.start / FIRST;
    let mut last = (bed.stop - 1) / FIRST;
    for level in 0..LEVELS {
        if first == last {
            return level;
        }
        first /= NEXT;
        last /= NEXT;
    }
    LEVELS
}

/// The order of bedtools has each hit of a record as often as it comes, and no others: a law, whose function does nothing.
#[tactic(auto, using(crate::proofs::lemmas::Orders::order_has_all))]
pub fn bin_order_has_all_hits()
    ensures { bin_order_has_all }
{}
