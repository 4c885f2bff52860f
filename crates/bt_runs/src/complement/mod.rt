//! The engine of `bedtools complement`.

pub(crate) mod gap_cursor;
pub(crate) mod gap_rule;

ghost use Rattle.std.specs.Prelude.{◌≡◌, [], length, None};
ghost use Rattle.bt_bed.specs.calls.GenomeTable.{entries};
ghost use Rattle.bt_runs.specs.calls.Engine.{KeepsHeld, ruled_fault};
ghost use Rattle.bt_runs.specs.calls.Complementing.{IsAfter, complement_engine, kept_in};

use crate::complement::gap_rule::GapRule;
use crate::engine::Engine;
use crate::engine::rule::Ruled;
use bt_bed::{Cursor, Genome};
use bt_lines::{Fault, Out, Sink};
use std::marker::Model;

/// The parts of the chromosomes that no record covers, in the order of a genome file. Starts are zero-based, and ends
/// aren't included. It keeps one position, and takes no memory. A gap is written once a record starts at or past its
/// end, or on a later chromosome. A record on a chromosome that the genome file doesn't have is skipped.
#[derive(Drop, Debug)]
pub struct Complement<'g> {
    rule: Ruled<GapRule<'g>>,
}

impl<'g> Model for Complement<'g> {
    ghost use Rattle.bt_runs.specs.calls.Complementing.{Complementing};
    ghost use Rattle.bt_runs.specs.declared.engine.rule.Ruled.{Ruled};

    ghost Value = { Ruled Complementing };

    ghost view = { λ m. m.rule };
}

impl<'g> Complement<'g> {
    /// A complement that has taken no record. With `limit` it leaves out the chromosomes that have
    /// none.
    pub fn new(genome: &'g Genome, limit: bool) -> Complement<'g>
        ensures stands { IsAfter result.rule [] result.rule }
        ensures going { ruled_fault result ≡ None }
        ensures entries { result.rule.entries ≡ entries genome.now }
        ensures limit { result.rule.limit ≡ limit }
    {
        Complement {
            rule: Ruled::new(GapRule::new(genome, limit)),
        }
    }
}

impl Engine for Complement<'_> {
    ghost definition = { complement_engine };

    fn feed_batch<C: Cursor, K: Sink>(
        &mut self,
        records: &mut C,
        out: &mut Out<K>,
    ) -> Result<(), Fault> {
        self.rule.feed_batch(records, out)
    }

    #[tactic(auto, using(crate::proofs::lemmas::Engine::finishes_again, crate::proofs::lemmas::Engine::finishes_left, crate::proofs::lemmas::Engine::finishes_prefix))]
    fn finish<K: Sink>(self, out: &mut Out<K>) -> Result<(), Fault> {
        let Complement { rule } = self;
        rule.finish(out)
    }

    /// How many positions it keeps: 0 or 1.
    fn kept_len(&self) -> usize
        ensures list { result ≡ length (kept_in self.now.rule) }
        ensures held { KeepsHeld complement_engine self.now result }
    {
        let Complement { rule } = self;
        rule.rule().kept_len()
    }
}

#[cfg(test)]
mod tests;
