//! The order of chromosomes that a genome file gives.

ghost use Rattle.std.specs.Prelude.{◌≡◌, IsTrue};
ghost use Rattle.bt_bed.specs.inside.RankTotal.{ranks_total};
ghost use Rattle.bt_bed.specs.calls.GenomeTable.{names_of};
ghost use Rattle.bt_bed.specs.model.Order.{rank_of, rank_order};

use crate::order::ChromOrder;
use crate::order::genome::Genome;
use crate::parse::names::is_same_name;
use std::cmp::Ordering;

/// The chromosomes of a genome file, in the order of its lines. It knows no others.
impl ChromOrder for Genome {
    ghost order = { λ genome. rank_order (names_of genome) };

    ghost total = { λ genome. ranks_total (names_of genome) };

    fn knows(&self, name: &[u8]) -> bool {
        self.rank(name).is_some()
    }

    fn compare(&self, left: &[u8], right: &[u8]) -> Ordering {
        if is_same_name(left, right) {
            return Ordering::Equal;
        }
        self.compare_ranks(left, right)
    }
}

impl Genome {
    // Which of two known chromosomes comes first. Out of line, so that equal names need no call.
    #[inline(never)]
    fn compare_ranks(&self, left: &[u8], right: &[u8]) -> Ordering
        requires left { IsTrue ((rank_order (names_of self.now)).knows left.now) }
        requires right { IsTrue ((rank_order (names_of self.now)).knows right.now) }
        ensures { result ≡ (rank_order (names_of self.now)).compare left.now right.now }
    {
        // Both are known, so both have a rank.
        let Some(right) = self.rank(right) else {
            return Ordering::Equal;
        };
        match self.rank_near(left, right) {
            Some(left) => left.cmp(&right),
            None => Ordering::Equal,
        }
    }

    // The rank of a chromosome. Those beside this one are tried first, without a hash: sorted input goes on to the next.
    fn rank_near(&self, name: &[u8], rank: usize) -> Option<usize>
        ensures { result ≡ rank_of (names_of self.now) name.now }
    {
        let next = rank.saturating_add(1);
        if self.has_rank(name, next) {
            return Some(next);
        }
        let before = rank.saturating_sub(1);
        if self.has_rank(name, before) {
            return Some(before);
        }
        self.rank(name)
    }
}
