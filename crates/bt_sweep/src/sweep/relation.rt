//! Where the records of the second input lie beside those of the first.

ghost use Rattle.std.specs.Prelude.{IsTrue};
ghost use Rattle.bt_sweep.specs.calls.Sweeping.{GivesKnown};
ghost use Rattle.bt_sweep.specs.inside.Joining.{Relates};

use crate::sweep::state::Phase;
use bt_bed::{ChromOrder, Cursor};
use std::cmp::Ordering;

// Where the next records of the second input lie beside records of the first, by their chromosomes.
#[derive(Clone, Copy)]
pub(crate) enum Relation {
    // There are none as yet.
    Unknown,
    // On a chromosome before theirs.
    Before,
    // On theirs.
    Beside,
    // On a later one, or the input has ended.
    After,
}

// Where they lie. The names of the chromosomes are compared once for all of them.
#[tactic(auto, using(crate::proofs::lemmas::sweep::JoinLemmas::known_head))]
pub(crate) fn relation_of<O: ChromOrder, B: Cursor>(
    order: &O,
    phase: Phase,
    chrom: &[u8],
    seconds: &B,
) -> Relation
    requires known { IsTrue ((O.order order.now).knows chrom.now) }
    requires known_b { GivesKnown B.Cursor (O.order order.now) seconds.now }
    ensures { Relates B.Cursor (O.order order.now) phase chrom.now seconds.now result }
{
    if let Phase::SecondEnded = phase {
        return Relation::After;
    }
    let mut ahead = *seconds;
    let Some(_next) = ahead.next() else {
        return Relation::Unknown;
    };
    match order.compare(seconds.chrom(), chrom) {
        Ordering::Less => Relation::Before,
        Ordering::Equal => Relation::Beside,
        Ordering::Greater => Relation::After,
    }
}
