//! The engine of `bedtools merge`: the runs of all records, of those of one strand, or of each strand
//! separately.

pub(crate) mod merge_strand;
pub(crate) mod pending_runs;
pub(crate) mod per_strand_merge;
pub(crate) mod run_list;
pub(crate) mod unstranded_merge;

ghost use Rattle.std.specs.Prelude.{◌≡◌, ◌≤◌, [], length};
ghost use Rattle.bt_lines.specs.model.Lines.{max_number};
ghost use Rattle.bt_runs.specs.calls.Engine.{KeepsHeld};
ghost use Rattle.bt_runs.specs.calls.Merging.{IsAfter, kept_places, merge_begun, merge_engine};

use crate::engine::Engine;
use crate::engine::rule::Ruled;
use crate::merge::merge_strand::MergeStrand;
use crate::merge::per_strand_merge::PerStrandMerge;
use crate::merge::unstranded_merge::UnstrandedMerge;
use bt_bed::Cursor;
use bt_lines::{Fault, Out, Sink};
use std::alloc::Global;
use std::marker::Model;

#[derive(Drop, Debug)]
enum Kind {
    Unstranded(Ruled<UnstrandedMerge>),
    PerStrand(Ruled<PerStrandMerge>),
}

/// Merges records that come in order, and writes each run once a record closes it, which may be one
/// that isn't merged. Starts are zero-based, and ends aren't included.
///
/// It keeps one open run. With [`MergeStrand::Each`] the runs of all strands are listed by their first
/// records. So a run which is finished waits for an open one whose first record came earlier, and it
/// keeps the runs from the first open one on.
///
/// A record on the chromosome of the one before it can't fail if it opens no run, and closes none that can be written.
/// It needs memory only if the chromosome is another one, and with [`MergeStrand::Each`] if a run has to be opened too.
#[derive(Drop, Debug)]
pub struct Merge {
    // It stays of that kind.
    kind: Kind,
}

impl Model for Merge {
    ghost use Rattle.bt_runs.specs.declared.merge.Kind.{Kind};

    ghost Value = { Kind };

    ghost view = { λ m. m.kind };
}

impl Merge {
    /// A merge that has taken no record. It bridges up to `gap` bases between features, at most 999,999,999,999: with 0
    /// those that overlap or touch become one.
    #[tactic(auto, using(crate::proofs::lemmas::merge::MergeLemmas::begun_stands))]
    pub fn new(alloc: Global, gap: u64, strand: MergeStrand) -> Merge
        requires { gap ≤ max_number }
        ensures stands { IsAfter (merge_begun gap strand) [] result }
        ensures begun { result ≡ merge_begun gap strand }
    {
        let kind = match strand {
            MergeStrand::Each => Kind::PerStrand(Ruled::new(PerStrandMerge::new(alloc, gap))),
            MergeStrand::All => Kind::Unstranded(Ruled::new(UnstrandedMerge::new(
                alloc, gap, None,
            ))),
            MergeStrand::One(strand) => Kind::Unstranded(Ruled::new(UnstrandedMerge::new(
                alloc,
                gap,
                Some(strand),
            ))),
        };
        Merge { kind }
    }
}

impl Engine for Merge {
    ghost definition = { merge_engine };

    fn feed_batch<C: Cursor, K: Sink>(
        &mut self,
        records: &mut C,
        out: &mut Out<K>,
    ) -> Result<(), Fault> {
        match &mut self.kind {
            Kind::Unstranded(merge) => merge.feed_batch(records, out),
            Kind::PerStrand(merge) => merge.feed_batch(records, out),
        }
    }

    #[tactic(auto, using(crate::proofs::lemmas::Engine::finishes_again, crate::proofs::lemmas::Engine::finishes_left, crate::proofs::lemmas::Engine::finishes_prefix, crate::proofs::lemmas::merge::MergeLemmas::finishes_inside, crate::proofs::lemmas::merge::MergeLemmas::only_per_strand, crate::proofs::lemmas::merge::MergeLemmas::only_unstranded))]
    fn finish<K: Sink>(self, out: &mut Out<K>) -> Result<(), Fault> {
        match self.kind {
            Kind::Unstranded(merge) => merge.finish(out),
            Kind::PerStrand(merge) => merge.finish(out),
        }
    }

    /// How many runs it keeps: 0 or 1, and with each strand separately as many as wait to be written.
    fn kept_len(&self) -> usize
        ensures list { result ≡ length (kept_places self.now) }
        ensures held { KeepsHeld merge_engine self.now result }
    {
        let Merge { kind } = self;
        match kind {
            Kind::Unstranded(merge) => merge.rule().kept_len(),
            Kind::PerStrand(merge) => merge.rule().kept_len(),
        }
    }
}

#[cfg(test)]
mod tests;
