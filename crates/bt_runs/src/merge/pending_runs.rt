//! The runs of several strands that aren't written yet, in the order of their first records.

ghost use Rattle.std.specs.Prelude.{◌≡◌, ◌∷◌, [], length, true, OnOk};
ghost use Rattle.bt_lines.specs.calls.Output.{Adds};
ghost use Rattle.bt_runs.specs.calls.Stranding.{strand_lines};
ghost use Rattle.bt_runs.specs.inside.merge.StrandStep.{TakesAmong, TakesListed, left_runs, passed_runs, placed_runs};

use crate::engine::failure::Failure;
use crate::merge::run_list::RunList;
use bt_bed::{Strand, put_interval};
use bt_lines::{Fault, Out, Sink};
use std::alloc::{AllocError, Global};
use std::marker::Model;

// A run without its chromosome.
#[derive(Clone, Copy, Debug)]
pub(crate) struct PendingRun {
    // That of each of its records.
    pub(crate) strand: Strand,
    // The start of its first record.
    pub(crate) start: u64,
    // The greatest end of its records so far.
    pub(crate) stop: u64,
}

// The runs. An only one is kept apart from the list, since most records meet no more than one run.
#[derive(Drop, Debug)]
pub(crate) struct PendingRuns {
    // The only run, unless it is in the list.
    only: Option<PendingRun>,
    // All runs, or none beside the only one.
    list: RunList,
}

impl Model for PendingRuns {
    ghost use Rattle.std.specs.Prelude.{List};
    ghost use Rattle.bt_runs.specs.declared.merge.pending_runs.PendingRun.{PendingRun};
    ghost use Rattle.bt_runs.specs.inside.merge.StrandStep.{IsAlone, pending_in};

    ghost Value = { List PendingRun };

    ghost view = { λ m. pending_in m.only m.list };

    ghost invariant = { λ m. IsAlone m.only m.list };
}

impl PendingRuns {
    pub(crate) fn new(alloc: Global) -> PendingRuns
        ensures { result ≡ [] }
    {
        PendingRuns {
            only: None,
            list: RunList::new(alloc),
        }
    }

    // How many there are. Each field is named: with one more, in which a list could be kept, this wouldn't compile.
    pub(crate) fn len(&self) -> usize
        ensures { result ≡ length self.now }
    {
        let PendingRuns { only, list } = self;
        match only {
            Some(_) => 1,
            None => list.len(),
        }
    }

    // Writes all runs, and takes them off.
    pub(crate) fn put_all<K: Sink>(&mut self, chrom: &[u8], out: &mut Out<K>) -> Result<(), Fault>
        ensures adds { Adds out.old.output (strand_lines (placed_runs chrom.now self.old)) result out.new.output }
        ensures none { OnOk result (self.new ≡ []) }
    {
        match self.only.take() {
            Some(only) => put_interval(chrom, only.start, only.stop, out),
            None => put_list(chrom, &mut self.list, out),
        }
    }

    // Takes a record on the chromosome of the runs, as a run of its own. Those that end below `reach` are closed. The
    // first ones that are closed are written. The record is joined to the last run of its strand that is left and isn't
    // closed, or is one more.
    #[inline(always)]
    pub(crate) fn take<K: Sink>(
        &mut self,
        chrom: &[u8],
        reach: u64,
        run: PendingRun,
        out: &mut Out<K>,
    ) -> Result<(), Failure>
        ensures { TakesAmong reach self.old run chrom.now out.old.output result self.new out.new.output }
    {
        let Some(only) = &mut self.only else {
            return match take_listed(chrom, reach, run, &mut self.list, out) {
                Ok(true) => {
                    self.only = Some(run);
                    Ok(())
                }
                Ok(false) => Ok(()),
                Err(failure) => Err(failure),
            };
        };
        if only.stop < reach {
            return match put_interval(chrom, only.start, only.stop, out) {
                Ok(()) => {
                    *only = run;
                    Ok(())
                }
                Err(_) => Err(Failure::Write),
            };
        }
        if only.strand == run.strand {
            only.stop = only.stop.max(run.stop);
            return Ok(());
        }
        let first = *only;
        self.only = None;
        match list_both(first, run, &mut self.list) {
            Ok(()) => Ok(()),
            Err(AllocError) => Err(Failure::Memory),
        }
    }
}

// Writes all runs, and takes them off.
fn put_list<K: Sink>(chrom: &[u8], runs: &mut RunList, out: &mut Out<K>) -> Result<(), Fault>
    ensures adds { Adds out.old.output (strand_lines (placed_runs chrom.now runs.old)) result out.new.output }
    ensures none { OnOk result (runs.new ≡ []) }
{
    while let Some(run) = runs.first() {
        put_interval(chrom, run.start, run.stop, out)?;
        runs.drop_first();
    }
    Ok(())
}

// Writes the first runs, up to one that doesn't end below `reach`, and takes them off: a record on their chromosome
// closes them.
#[inline]
fn put_passed<K: Sink>(
    chrom: &[u8],
    reach: u64,
    runs: &mut RunList,
    out: &mut Out<K>,
) -> Result<(), Fault>
    ensures adds { Adds out.old.output (strand_lines (placed_runs chrom.now (passed_runs true reach runs.old)))
        result out.new.output }
    ensures left { OnOk result (runs.new ≡ left_runs true reach runs.old) }
{
    while let Some(run) = runs.first() {
        if reach <= run.stop {
            return Ok(());
        }
        put_interval(chrom, run.start, run.stop, out)?;
        runs.drop_first();
    }
    Ok(())
}

// Takes a record among the runs of the list. Those that it closes are written. It is joined to the last one of
// its strand that is left, or is one more. If none is left, it returns true and the record isn't taken.
#[inline(never)]
#[tactic(auto, using(crate::proofs::lemmas::merge::PerStrandLemmas::none_first, crate::proofs::lemmas::merge::PerStrandLemmas::put_well, crate::proofs::lemmas::merge::PerStrandLemmas::went_well))]
fn take_listed<K: Sink>(
    chrom: &[u8],
    reach: u64,
    run: PendingRun,
    runs: &mut RunList,
    out: &mut Out<K>,
) -> Result<bool, Failure>
    ensures { TakesListed reach runs.old run chrom.now out.old.output result runs.new out.new.output }
{
    if put_passed(chrom, reach, runs, out).is_err() {
        return Err(Failure::Write);
    }
    if runs.first().is_none() {
        return Ok(true);
    }
    if runs.join(run.strand, run.stop, reach) {
        return Ok(false);
    }
    match runs.push(run) {
        Ok(()) => Ok(false),
        Err(AllocError) => Err(Failure::Memory),
    }
}

// Puts two runs into an empty list.
fn list_both(first: PendingRun, second: PendingRun, runs: &mut RunList) -> Result<(), AllocError>
    requires { runs.now ≡ [] }
    ensures { OnOk result (runs.new ≡ first ∷ second ∷ []) }
{
    runs.push(first)?;
    runs.push(second)
}
