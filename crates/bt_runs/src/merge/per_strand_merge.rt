//! The rule of `bedtools merge -s`: the runs of several strands, each written once those listed before
//! it are.

ghost use Rattle.std.specs.Prelude.{◌≡◌, [], length};
ghost use Rattle.bt_runs.specs.inside.merge.StrandStep.{strand_rule};

use crate::engine::rule::Rule;
use crate::merge::pending_runs::{PendingRun, PendingRuns};
use bt_bed::{Record, is_same_name};
use bt_lines::{Fault, Out, Sink, no_memory};
use std::alloc::{AllocError, Global};
use std::marker::Model;

// Merges the records of each strand separately. It keeps the runs of one chromosome from the first
// one on that a later record may still join, in the order of their first records.
#[derive(Drop, Debug)]
pub(crate) struct PerStrandMerge {
    // How many bases apart records are still joined.
    gap: u64,
    // The chromosome of the runs, whose buffer is used again.
    chrom: Vec<u8>,
    // All of them lie on that chromosome.
    runs: PendingRuns,
}

impl Model for PerStrandMerge {
    ghost use Rattle.bt_runs.specs.inside.merge.StrandStep.{placed_runs};
    ghost use Rattle.bt_runs.specs.calls.Stranding.{Stranding};

    ghost Value = { Stranding };

    ghost view = { λ m. record { gap = m.gap; chrom = m.chrom.items; kept = placed_runs m.chrom.items m.runs } };
}

impl PerStrandMerge {
    // A merge that has taken no record.
    pub(crate) fn new(alloc: Global, gap: u64) -> PerStrandMerge
        ensures { result ≡ record { gap = gap; chrom = []; kept = [] } }
    {
        PerStrandMerge {
            gap,
            chrom: Vec::new(alloc),
            runs: PendingRuns::new(alloc),
        }
    }

    // How many runs are kept. Each field is named: with one more, in which a list could be kept, this wouldn't compile.
    pub(crate) fn kept_len(&self) -> usize
        ensures { result ≡ length self.now.kept }
    {
        let PerStrandMerge {
            gap: _,
            chrom: _,
            runs,
        } = self;
        runs.len()
    }
}

impl Rule for PerStrandMerge {
    // The runs stay where they are.
    type OnChrom = ();

    ghost definition = { strand_rule };

    ghost with_on = { λ merge on. merge };

    // All runs are written if the chromosome is another one. The result is `NoMemory` if its name can't be kept.
    fn enter<K: Sink>(&mut self, chrom: &[u8], out: &mut Out<K>) -> Result<(), Fault> {
        if is_same_name(self.chrom.as_slice(), chrom) {
            return Ok(());
        }
        self.runs.put_all(self.chrom.as_slice(), out)?;
        self.chrom.clear();
        if let Err(AllocError) = self.chrom.extend_from_slice(chrom) {
            return Err(no_memory());
        }
        Ok(())
    }

    fn on_chrom(&self) {}

    #[inline(always)]
    fn step<R: Record, K: Sink>(
        &mut self,
        _on: &mut (),
        record: &R,
        out: &mut Out<K>,
    ) -> Result<(), Fault> {
        let run = PendingRun {
            strand: record.strand(),
            start: record.start(),
            stop: record.stop(),
        };
        let reach = run.start.saturating_sub(self.gap);
        match self.runs.take(self.chrom.as_slice(), reach, run, out) {
            Ok(()) => Ok(()),
            Err(failure) => Err(failure.fault()),
        }
    }

    fn leave(&mut self, _on: ()) {}

    #[tactic(auto, using(crate::proofs::lemmas::merge::PerStrandLemmas::finishes_kept))]
    fn finish<K: Sink>(self, out: &mut Out<K>) -> Result<(), Fault> {
        let PerStrandMerge {
            gap: _,
            chrom,
            mut runs,
        } = self;
        runs.put_all(chrom.as_slice(), out)
    }
}
