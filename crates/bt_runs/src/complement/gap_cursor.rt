//! How far the gaps of a chromosome are settled.

ghost use Rattle.std.specs.Prelude.{◌≡◌, ℕ, Some};
ghost use Rattle.bt_lines.specs.calls.Output.{Adds};
ghost use Rattle.bt_bed.specs.calls.GenomeTable.{entries};
ghost use Rattle.bt_bed.specs.model.BedLine.{interval_lines};
ghost use Rattle.bt_runs.specs.inside.Walk.{IsNamed};
ghost use Rattle.bt_runs.specs.inside.GapStep.{gap_between};

use bt_bed::{Genome, put_interval};
use bt_lines::{Fault, Out, Sink};

// The last chromosome of the genome file that records reached, and how far its gaps are settled: up to the
// greatest end of its records, cut at its length.
#[derive(Clone, Copy, Debug)]
pub(crate) struct GapCursor<'g> {
    pub(crate) genome: &'g Genome,
    // The rank of that chromosome. `None` before the first.
    pub(crate) rank: Option<usize>,
    // Its name.
    pub(crate) name: &'g [u8],
    // How many bases the chromosome has that the records are on: 0 if the genome file lacks it.
    pub(crate) length: u64,
    pub(crate) end: u64,
    ghost named: { (r : ℕ) → rank ≡ Some r → IsNamed (entries genome.now) r name.now },
}

impl<'g> GapCursor<'g> {
    ghost use Rattle.std.specs.Prelude.{OnOk, min};
    ghost use Rattle.bt_runs.specs.inside.GapRule.{Covers};

    // Takes a record on the chromosome out of its gaps, and writes the gap before it.
    #[inline(always)]
    pub(crate) fn cover<K: Sink>(
        &mut self,
        start: u64,
        stop: u64,
        out: &mut Out<K>,
    ) -> Result<(), Fault>
        ensures adds { Adds out.old.output (interval_lines (gap_between self.old.name.now self.old.end (min start self.old.length))) result out.new.output }
        ensures covers { OnOk result (Covers self.old stop self.new) }
    {
        put_gap(self.name, self.end, start.min(self.length), out)?;
        self.end = self.end.max(stop.min(self.length));
        Ok(())
    }
}

// Writes a gap, if it has a base.
#[inline(always)]
pub(crate) fn put_gap<K: Sink>(
    name: &[u8],
    start: u64,
    stop: u64,
    out: &mut Out<K>,
) -> Result<(), Fault>
    ensures { Adds out.old.output (interval_lines (gap_between name.now start stop)) result out.new.output }
{
    if start < stop {
        return put_interval(name, start, stop, out);
    }
    Ok(())
}
