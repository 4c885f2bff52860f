//! The engine of `bedtools genomecov -bg`.

pub(crate) mod counted_spans;
pub(crate) mod depth_line;
pub(crate) mod depth_rule;
pub(crate) mod depths;
pub(crate) mod open_records;

ghost use Rattle.std.specs.Prelude.{◌≡◌, [], length, None};
ghost use Rattle.bt_bed.specs.calls.GenomeTable.{entries};
ghost use Rattle.bt_runs.specs.calls.Engine.{KeepsHeld, ruled_fault};
ghost use Rattle.bt_runs.specs.calls.Covering.{IsAfter, coverage_engine, kept_in};

use crate::coverage::depth_rule::DepthRule;
use crate::engine::Engine;
use crate::engine::rule::Ruled;
use bt_bed::{Cursor, Genome, Strand};
use bt_lines::{Fault, Out, Sink};
use std::alloc::Global;
use std::marker::Model;

/// The intervals of equal depth of each chromosome, in the order of a genome file, with their depths.
/// It keeps the ends of the counted records that end at the last start or past it, and one unfinished interval. A
/// record needs memory only if it is counted and starts below its chromosome's length. Where the kept records start,
/// and their order, is known in proofs alone. An interval is written once a record starts past its end, or on a later
/// chromosome. A record on a chromosome that the genome file doesn't have is skipped. Starts are zero-based, and ends
/// aren't included.
#[derive(Drop, Debug)]
pub struct Coverage<'g> {
    rule: Ruled<DepthRule<'g>>,
}

impl<'g> Model for Coverage<'g> {
    ghost use Rattle.bt_runs.specs.calls.Covering.{Covering};
    ghost use Rattle.bt_runs.specs.declared.engine.rule.Ruled.{Ruled};

    ghost Value = { Ruled Covering };

    ghost view = { λ m. m.rule };
}

impl<'g> Coverage<'g> {
    /// A coverage that has taken no record. With `zeros` it also writes the intervals of depth 0, and
    /// with a strand it counts the records of that strand alone.
    pub fn new(
        alloc: Global,
        genome: &'g Genome,
        zeros: bool,
        strand: Option<Strand>,
    ) -> Coverage<'g>
        ensures stands { IsAfter result.rule [] result.rule }
        ensures going { ruled_fault result ≡ None }
        ensures entries { result.rule.entries ≡ entries genome.now }
        ensures rules { (result.rule.zeros ≡ zeros) × (result.rule.strand ≡ strand) }
    {
        Coverage {
            rule: Ruled::new(DepthRule::new(alloc, genome, zeros, strand)),
        }
    }
}

impl Engine for Coverage<'_> {
    ghost definition = { coverage_engine };

    fn feed_batch<C: Cursor, K: Sink>(
        &mut self,
        records: &mut C,
        out: &mut Out<K>,
    ) -> Result<(), Fault> {
        self.rule.feed_batch(records, out)
    }

    #[tactic(auto, using(crate::proofs::lemmas::Engine::finishes_again, crate::proofs::lemmas::Engine::finishes_left, crate::proofs::lemmas::Engine::finishes_prefix))]
    fn finish<K: Sink>(self, out: &mut Out<K>) -> Result<(), Fault> {
        let Coverage { rule } = self;
        rule.finish(out)
    }

    /// How many counted records end at the last start or past it.
    fn kept_len(&self) -> usize
        ensures list { result ≡ length (kept_in self.now.rule) }
        ensures held { KeepsHeld coverage_engine self.now result }
    {
        let Coverage { rule } = self;
        rule.rule().kept_len()
    }
}

#[cfg(test)]
mod tests;
