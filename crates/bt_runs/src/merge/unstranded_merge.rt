//! The rule of `bedtools merge` without `-s`: one open run, which each record extends or closes.

ghost use Rattle.std.specs.Prelude.{◌≡◌, ◌<◌, ℕ, List, [], cond, length, true, IfOk};
ghost use Rattle.bt_lines.specs.calls.Output.{Adds};
ghost use Rattle.bt_bed.specs.model.BedLine.{interval_lines};
ghost use Rattle.bt_runs.specs.inside.merge.UnstrandedStep.{runs_left_by, merged_of, settled_by, unstranded_rule, runs_with, kept_at};

use crate::engine::is_counted;
use crate::engine::rule::Rule;
use bt_bed::{Record, Strand, is_same_name, put_interval};
use bt_lines::{Fault, Out, Sink, no_memory};
use std::alloc::Global;
use std::marker::Model;

// The open run, or none if it ends at 0. It is two numbers, so that a record is joined to it without a branch.
#[derive(Clone, Copy, Debug)]
pub(crate) struct OpenRun {
    start: u64,
    pub(crate) stop: u64,
}

// No run.
const NONE: OpenRun = OpenRun { start: 0, stop: 0 };

// Merges records that come in order. It keeps the open run alone, and writes each run once a record
// closes it, which may be one that isn't merged. Starts are zero-based, and ends aren't
// included.
#[derive(Drop, Debug)]
pub(crate) struct UnstrandedMerge {
    // How many bases apart records are still joined.
    gap: u64,
    // The strand that is merged; `None` if all records are.
    strand: Option<Strand>,
    // The chromosome that it is on. Its buffer is used again.
    chrom: Vec<u8>,
    run: OpenRun,
}

impl Model for UnstrandedMerge {
    ghost use Rattle.bt_runs.specs.calls.Unstranded.{Unstranded};
    ghost use Rattle.bt_runs.specs.inside.merge.UnstrandedStep.{kept_at, merged_of};

    ghost Value = { Unstranded };

    ghost view = { λ m. record {
      gap = m.gap;
      strand = merged_of m.strand;
      chrom = m.chrom.items;
      kept = kept_at m.chrom.items m.run;
    } };
}

impl UnstrandedMerge {
    // A merge that has taken no record. It bridges up to `gap` bases between features: with 0
    // those that overlap or touch become one. With a strand it merges the records of that strand alone.
    pub(crate) fn new(alloc: Global, gap: u64, strand: Option<Strand>) -> UnstrandedMerge
        ensures { result ≡ record { gap = gap; strand = merged_of strand; chrom = []; kept = [] } }
    {
        UnstrandedMerge {
            gap,
            strand,
            chrom: Vec::new(alloc),
            run: NONE,
        }
    }

    // How many runs are kept. Each field is named: with one more, in which a list could be kept, this wouldn't compile.
    pub(crate) fn kept_len(&self) -> usize
        ensures { result ≡ length self.now.kept }
    {
        let UnstrandedMerge {
            gap: _,
            strand: _,
            chrom: _,
            run,
        } = self;
        // No run is open if its end is 0.
        usize::from(run.stop != 0)
    }
}

impl Rule for UnstrandedMerge {
    type OnChrom = OpenRun;

    ghost definition = { unstranded_rule };

    ghost with_on = { λ merge run. record merge { kept = kept_at merge.chrom run } };

    fn enter<K: Sink>(&mut self, chrom: &[u8], out: &mut Out<K>) -> Result<(), Fault> {
        if is_same_name(self.chrom.as_slice(), chrom) {
            return Ok(());
        }
        put_run(self.chrom.as_slice(), self.run, out)?;
        self.run = NONE;
        self.chrom.clear();
        if self.chrom.extend_from_slice(chrom).is_err() {
            return Err(no_memory());
        }
        Ok(())
    }

    fn on_chrom(&self) -> OpenRun {
        self.run
    }

    #[inline(always)]
    #[tactic(auto, using(crate::proofs::lemmas::merge::UnstrandedLemmas::counted_alike))]
    fn step<R: Record, K: Sink>(
        &mut self,
        on: &mut OpenRun,
        record: &R,
        out: &mut Out<K>,
    ) -> Result<(), Fault> {
        let start = record.start();
        match close_passed(self.chrom.as_slice(), *on, start, self.gap, out) {
            Ok(left) => {
                *on = joined(left, start, record.stop(), is_counted(self.strand, record));
                Ok(())
            }
            Err(fault) => Err(fault),
        }
    }

    fn leave(&mut self, on: OpenRun) {
        self.run = on;
    }

    #[tactic(auto, using(crate::proofs::lemmas::merge::UnstrandedLemmas::finishes_kept))]
    fn finish<K: Sink>(self, out: &mut Out<K>) -> Result<(), Fault> {
        put_run(self.chrom.as_slice(), self.run, out)
    }
}

// Writes the run, if a record that starts here closes it, and returns the run that is left. A run is closed if it ends
// more than the gap below the start.
#[inline(always)]
fn close_passed<K: Sink>(
    chrom: &[u8],
    run: OpenRun,
    start: u64,
    gap: u64,
    out: &mut Out<K>,
) -> Result<OpenRun, Fault>
    ensures adds { (stop : ℕ) → Adds out.old.output (interval_lines
        (settled_by gap (kept_at chrom.now run) (record { chrom = chrom.now; start = start; stop = stop }))) result out.new.output }
    ensures left { IfOk result (λ left. (stop : ℕ) → kept_at chrom.now left
        ≡ runs_left_by gap (kept_at chrom.now run) (record { chrom = chrom.now; start = start; stop = stop })) }
{
    let is_closed = (run.stop != 0) & (run.stop < start.saturating_sub(gap));
    if !is_closed {
        return Ok(run);
    }
    match put_interval(chrom, run.start, run.stop, out) {
        Ok(()) => Ok(NONE),
        Err(fault) => Err(fault),
    }
}

// The run with a record that doesn't close it, if that counts, or the record as a run.
#[inline(always)]
fn joined(run: OpenRun, start: u64, stop: u64, counts: bool) -> OpenRun
    requires { 0 < stop }
    ensures { (chrom : List ℕ) → kept_at chrom result ≡ cond counts
        (runs_with (kept_at chrom run) (record { chrom = chrom; start = start; stop = stop })) (kept_at chrom run) }
{
    let first = if run.stop == 0 { start } else { run.start };
    let last = if counts { stop } else { 0 };
    OpenRun {
        start: first,
        stop: run.stop.max(last),
    }
}

// Writes a run, if it is one.
fn put_run<K: Sink>(chrom: &[u8], run: OpenRun, out: &mut Out<K>) -> Result<(), Fault>
    ensures { Adds out.old.output (interval_lines (kept_at chrom.now run)) result out.new.output }
{
    if run.stop == 0 {
        return Ok(());
    }
    put_interval(chrom, run.start, run.stop, out)
}
