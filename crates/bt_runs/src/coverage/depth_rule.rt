//! The rule of `bedtools genomecov -bg`: the records that are open, and the interval that isn't ended.

ghost use Rattle.std.specs.Prelude.{◌≡◌, false, true, ◌<◌, ◌≤◌, [], length, flat_map, max, min, slice_range, IfErr, IfOk, OnOk};
ghost use Rattle.bt_runs.specs.declared.engine.failure.Failure.TheVariants.{Memory};
ghost use Rattle.bt_lines.specs.calls.Output.{Adds};
ghost use Rattle.bt_bed.specs.calls.GenomeTable.{entries};
ghost use Rattle.bt_runs.specs.inside.Coverage.{known_seen, seen, CountAnswers, bare_of, depths_left, known_by, levels_by, levels_left, levels_on};
ghost use Rattle.bt_runs.specs.calls.Covering.{IsAfter, depth_rule, kept_in, settled_known, with_chrom};
ghost use Rattle.bt_runs.specs.model.Depth.{depth_lines};
ghost use Rattle.bt_runs.specs.inside.Walk.{AreReached, begun, is_reached, left_before, left_of};

use crate::coverage::depth_line::put_depth;
use crate::coverage::depths::{CoveredChrom, DepthCursor, OpenInterval, go_on, put_ended};
use crate::coverage::open_records::OpenRecords;
use crate::engine::failure::Failure;
use crate::engine::is_counted;
use crate::engine::rule::Rule;
use bt_bed::{Bounds, Genome, Record, Strand, is_same_name};
use bt_lines::{Fault, Out, Sink};
use std::alloc::Global;
use std::marker::Model;

// The chromosome that records lie on.
#[derive(Clone, Copy)]
pub(crate) struct CurrentChrom<'g> {
    // Whether the genome file has it.
    is_known: bool,
    name: &'g [u8],
    length: u64,
    // The interval that isn't ended.
    begun: Option<OpenInterval>,
}

// The chromosomes of a genome file, which depths are written for.
#[derive(Clone, Copy, Debug)]
struct DepthGenome<'g> {
    genome: &'g Genome,
    // Whether depth 0 is written.
    zeros: bool,
}

// A record as it comes next on its chromosome.
#[derive(Clone, Copy)]
struct NextRecord {
    bounds: Bounds,
    // Whether its strand is one that is counted.
    counted: bool,
}

// A coverage of the chromosomes of a genome file, in their order.
#[derive(Drop, Debug)]
pub(crate) struct DepthRule<'g> {
    chroms: DepthGenome<'g>,
    // The strand that is counted; `None` if all records are.
    strand: Option<Strand>,
    // `None` before the first record on a chromosome of the genome file.
    current: Option<DepthCursor>,
    // Whether the last record lies there; else the genome file doesn't have its chromosome.
    is_known: bool,
    // The name and the length of the chromosome that the last record lies on.
    name: &'g [u8],
    length: u64,
    // Those of the current chromosome.
    held: OpenRecords,
}

impl<'g> Model for DepthRule<'g> {
    ghost use Rattle.bt_bed.specs.calls.GenomeTable.{entries};
    ghost use Rattle.bt_runs.specs.inside.Coverage.{seen};
    ghost use Rattle.bt_runs.specs.calls.Covering.{Covering};
    ghost use Rattle.bt_runs.specs.inside.Walk.{AreReached};

    ghost Value = { Covering };

    ghost view = { λ m. record {
      entries = entries m.chroms.genome.now;
      zeros = m.chroms.zeros;
      strand = m.strand;
      current = seen m.current m.held;
      is_known = m.is_known;
      name = m.name.now;
      length = m.length;
    } };

    ghost invariant = { λ m. AreReached (entries m.chroms.genome.now) (seen m.current m.held) };
}

impl<'g> DepthRule<'g> {
    // A coverage that has taken no record. With `zeros` it also writes the intervals of depth 0, and
    // with a strand it counts the records of that strand alone.
    pub(crate) fn new(
        alloc: Global,
        genome: &'g Genome,
        zeros: bool,
        strand: Option<Strand>,
    ) -> DepthRule<'g>
        ensures stands { IsAfter result [] result }
        ensures entries { result.entries ≡ entries genome.now }
        ensures rules { (result.zeros ≡ zeros) × (result.strand ≡ strand) }
    {
        DepthRule {
            chroms: DepthGenome { genome, zeros },
            strand,
            current: None,
            is_known: false,
            name: &[],
            length: 0,
            held: OpenRecords::new(alloc),
        }
    }

    // How many records are kept. Each field is named: with one more, in which a list could be kept, this wouldn't compile.
    pub(crate) fn kept_len(&self) -> usize
        ensures { result ≡ length (kept_in self.now) }
    {
        let DepthRule {
            chroms: _,
            strand: _,
            current,
            is_known: _,
            name: _,
            length: _,
            held,
        } = self;
        match current {
            None => 0,
            Some(_) => held.len(),
        }
    }
}

impl<'g> Rule for DepthRule<'g> {
    type OnChrom = CurrentChrom<'g>;

    ghost definition = { depth_rule };

    ghost with_on = { with_chrom };

    // It is cold, and stays out of the loop over records.
    #[cold]
    #[inline(never)]
    fn enter<K: Sink>(&mut self, chrom: &[u8], out: &mut Out<K>) -> Result<(), Fault> {
        if let Some(reached) = self.current {
            let name = self.chroms.genome.name(reached.rank);
            let length = self.chroms.genome.length(reached.rank);
            if is_same_name(name, chrom) {
                self.is_known = true;
                self.name = name;
                self.length = length;
                return Ok(());
            }
        }
        let Some(rank) = self.chroms.genome.rank(chrom) else {
            self.is_known = false;
            return Ok(());
        };
        let name = self.chroms.genome.name(rank);
        let length = self.chroms.genome.length(rank);
        put_before(&self.chroms, self.current, &mut self.held, rank, out)?;
        self.held.clear(0);
        self.current = Some(DepthCursor { rank, begun: None });
        self.is_known = true;
        self.name = name;
        self.length = length;
        Ok(())
    }

    fn on_chrom(&self) -> CurrentChrom<'g> {
        let begun = match self.current {
            None => None,
            Some(reached) => reached.begun,
        };
        CurrentChrom {
            is_known: self.is_known,
            name: self.name,
            length: self.length,
            begun,
        }
    }

    #[inline(always)]
    #[tactic(auto, using(crate::proofs::lemmas::coverage::DepthSteps::off_here, crate::proofs::lemmas::coverage::DepthSteps::stays_on, crate::proofs::lemmas::coverage::DepthSteps::step_err, crate::proofs::lemmas::coverage::DepthSteps::step_ok, crate::proofs::lemmas::coverage::DepthSteps::counts_none, crate::proofs::lemmas::coverage::DepthSteps::fits))]
    fn step<R: Record, K: Sink>(
        &mut self,
        on: &mut CurrentChrom<'g>,
        record: &R,
        out: &mut Out<K>,
    ) -> Result<(), Fault> {
        if !on.is_known {
            return Ok(());
        }
        let bounds = Bounds {
            start: record.start(),
            stop: record.stop(),
        };
        let next = NextRecord {
            bounds,
            counted: is_counted(self.strand, record),
        };
        let chrom = CoveredChrom {
            name: on.name,
            length: on.length,
            zeros: self.chroms.zeros,
        };
        let counted = count_next(&chrom, next, on.begun, &mut self.held, out);
        match counted {
            Ok(begun) => on.begun = begun,
            Err(failure) => return Err(failure.fault()),
        }
        Ok(())
    }

    fn leave(&mut self, on: CurrentChrom<'g>) {
        self.is_known = on.is_known;
        self.name = on.name;
        self.length = on.length;
        if let Some(reached) = self.current {
            self.current = Some(DepthCursor {
                rank: reached.rank,
                begun: on.begun,
            });
        }
    }

    #[tactic(auto, using(crate::proofs::lemmas::coverage::DepthSteps::finishes_left))]
    fn finish<K: Sink>(mut self, out: &mut Out<K>) -> Result<(), Fault> {
        let count = self.chroms.genome.count();
        let chroms = self.chroms;
        put_before(&chroms, self.current, &mut self.held, count, out)
    }
}

// Takes the next record on a chromosome. It writes the intervals that the record's start settles, and returns the one
// that isn't ended there. A record that isn't counted settles them too.
#[inline(always)]
fn count_next<K: Sink>(
    chrom: &CoveredChrom<'_>,
    next: NextRecord,
    begun: Option<OpenInterval>,
    held: &mut OpenRecords,
    out: &mut Out<K>,
) -> Result<Option<OpenInterval>, Failure>
    ensures counts { CountAnswers chrom.now.name.now (levels_by chrom.now.zeros chrom.now.length (known_seen begun held.old) (max next.bounds.start held.old.at))
        (known_by chrom.now.zeros next.counted chrom.now.length (known_seen begun held.old) (max next.bounds.start held.old.at) next.bounds.stop)
        result held.new out.old.output out.new.output }
    ensures memory { IfErr result (λ failure. failure ≡ Memory → (next.counted ≡ true) × (next.bounds.start < chrom.now.length)) }
{
    let start = next.bounds.start.max(held.at());
    let Ok(begun) = settle(chrom, begun, held, start, out) else {
        return Err(Failure::Write);
    };
    if next.counted && held.at() < chrom.length {
        // Cut at the length.
        let stop = next.bounds.stop.min(chrom.length);
        if held.push(stop).is_err() {
            return Err(Failure::Memory);
        }
    }
    Ok(begun)
}

// Goes on to a record's start. It writes the intervals that the start settles, and returns the one that
// isn't ended there. Past the chromosome's length nothing is open.
#[inline(always)]
fn settle<K: Sink>(
    chrom: &CoveredChrom<'_>,
    begun: Option<OpenInterval>,
    held: &mut OpenRecords,
    start: u64,
    out: &mut Out<K>,
) -> Result<Option<OpenInterval>, Fault>
    requires { held.now.at ≤ start }
    ensures adds { Adds out.old.output (depth_lines (levels_on chrom.now.name.now (levels_by chrom.now.zeros chrom.now.length (known_seen begun held.old) start))) result out.new.output }
    ensures known { IfOk result (λ next. known_seen next held.new ≡ settled_known chrom.now.zeros chrom.now.length (known_seen begun held.old) start) }
{
    if chrom.length < start {
        // A copy, so that the caller's isn't kept in memory for a call that is rarely made.
        let rest = *chrom;
        put_rest(&rest, begun, held, out)?;
        return Ok(None);
    }
    go_on(chrom, begun, held, start, out)
}

// Writes what is left of a chromosome, and drops its records.
#[cold]
#[inline(never)]
#[tactic(auto, using(crate::proofs::lemmas::coverage::DepthSteps::adds_levels, crate::proofs::lemmas::coverage::DepthSteps::left_cut))]
fn put_rest<K: Sink>(
    chrom: &CoveredChrom<'_>,
    begun: Option<OpenInterval>,
    held: &mut OpenRecords,
    out: &mut Out<K>,
) -> Result<(), Fault>
    ensures adds { Adds out.old.output (depth_lines (levels_on chrom.now.name.now (levels_left chrom.now.zeros chrom.now.length (known_seen begun held.old)))) result out.new.output }
    ensures none { OnOk result (held.new ≡ record { at = chrom.now.length; spans = [] }) }
{
    let begun = go_on(chrom, begun, held, chrom.length, out)?;
    held.clear(chrom.length);
    put_ended(chrom.name, begun, chrom.length, out)
}

// Writes what is left before the chromosome of the rank `stop`: the rest of the current one, and each
// one between the two.
fn put_before<K: Sink>(
    chroms: &DepthGenome<'_>,
    current: Option<DepthCursor>,
    held: &mut OpenRecords,
    stop: usize,
    out: &mut Out<K>,
) -> Result<(), Fault>
    requires at { AreReached (entries chroms.now.genome.now) (seen current held.now) }
    requires within { stop ≤ length (entries chroms.now.genome.now) }
    ensures { Adds out.old.output (depth_lines (left_before (depths_left chroms.now.zeros) (bare_of chroms.now.zeros) (entries chroms.now.genome.now) (seen current held.old) stop)) result out.new.output }
{
    let Some(reached) = current else {
        return put_bares(chroms, 0, stop, out);
    };
    let chrom = CoveredChrom {
        name: chroms.genome.name(reached.rank),
        length: chroms.genome.length(reached.rank),
        zeros: chroms.zeros,
    };
    put_rest(&chrom, reached.begun, held, out)?;
    put_bares(chroms, stop.min(reached.rank.saturating_add(1)), stop, out)
}

// Writes the chromosomes of the ranks from `first` on and below `stop`, which have no records, if depth 0 is written.
fn put_bares<K: Sink>(
    chroms: &DepthGenome<'_>,
    first: usize,
    stop: usize,
    out: &mut Out<K>,
) -> Result<(), Fault>
    requires order { first ≤ stop }
    requires within { stop ≤ length (entries chroms.now.genome.now) }
    ensures { Adds out.old.output (depth_lines (flat_map (bare_of chroms.now.zeros) (slice_range (entries chroms.now.genome.now) first stop))) result out.new.output }
{
    for rank in first..stop {
        let length = chroms.genome.length(rank);
        if chroms.zeros && 0 < length {
            put_depth(chroms.genome.name(rank), 0, length, 0, out)?;
        }
    }
    Ok(())
}
