//! The rule of `bedtools complement`: a gap is written once a record starts at or past its end, or on a later
//! chromosome.

ghost use Rattle.std.specs.Prelude.{◌≡◌, ◌≤◌, [], flat_map, length, slice_range};
ghost use Rattle.bt_lines.specs.calls.Output.{Adds};
ghost use Rattle.bt_bed.specs.calls.GenomeTable.{entries};
ghost use Rattle.bt_bed.specs.model.BedLine.{interval_lines};
ghost use Rattle.bt_runs.specs.calls.Complementing.{IsAfter, kept_in};
ghost use Rattle.bt_runs.specs.inside.GapRule.{complement_at, gap_rule, seen};
ghost use Rattle.bt_runs.specs.inside.Walk.{left_before};
ghost use Rattle.bt_runs.specs.inside.GapStep.{bare_gap, last_gap};

use crate::complement::gap_cursor::{GapCursor, put_gap};
use crate::engine::rule::Rule;
use bt_bed::{Genome, Record};
use bt_lines::{Fault, Out, Sink};
use std::marker::Model;

// The gaps of the chromosomes of a genome file, in their order. It keeps one place.
#[derive(Drop, Debug)]
pub(crate) struct GapRule<'g> {
    // Whether chromosomes without a record are left out.
    limit: bool,
    cursor: GapCursor<'g>,
}

impl<'g> Model for GapRule<'g> {
    ghost use Rattle.bt_runs.specs.calls.Complementing.{Complementing};
    ghost use Rattle.bt_runs.specs.inside.GapRule.{complement_at};

    ghost Value = { Complementing };

    ghost view = { λ m. complement_at m.limit m.cursor };
}

impl<'g> GapRule<'g> {
    // A rule that has taken no record.
    pub(crate) fn new(genome: &'g Genome, limit: bool) -> GapRule<'g>
        ensures stands { IsAfter result [] result }
        ensures entries { result.entries ≡ entries genome.now }
        ensures limit { result.limit ≡ limit }
    {
        let cursor = GapCursor {
            genome,
            rank: None,
            name: &[],
            length: 0,
            end: 0,
        };
        GapRule { limit, cursor }
    }

    // How many places are kept: 0 or 1. Each field is named: with one more, in which a list could be kept, this wouldn't compile.
    pub(crate) fn kept_len(&self) -> usize
        ensures { result ≡ length (kept_in self.now) }
    {
        let GapRule { limit: _, cursor } = self;
        let GapCursor {
            genome: _,
            rank,
            name: _,
            length: _,
            end: _,
        } = cursor;
        usize::from(rank.is_some())
    }
}

impl<'g> Rule for GapRule<'g> {
    type OnChrom = GapCursor<'g>;

    ghost definition = { gap_rule };

    ghost with_on = { λ complement cursor. complement_at complement.limit cursor };

    // On a chromosome that the genome file lacks no base counts, so that records there are skipped.
    fn enter<K: Sink>(&mut self, chrom: &[u8], out: &mut Out<K>) -> Result<(), Fault> {
        let genome = self.cursor.genome;
        let Some(rank) = genome.rank(chrom) else {
            self.cursor.length = 0;
            return Ok(());
        };
        if self.cursor.rank == Some(rank) {
            self.cursor.length = genome.length(rank);
            return Ok(());
        }
        put_before(&self.cursor, self.limit, rank, out)?;
        self.cursor = GapCursor {
            genome,
            rank: Some(rank),
            name: genome.name(rank),
            length: genome.length(rank),
            end: 0,
        };
        Ok(())
    }

    fn on_chrom(&self) -> GapCursor<'g> {
        self.cursor
    }

    #[inline(always)]
    #[tactic(auto, using(crate::proofs::lemmas::complement::GapRuleLemmas::cursor_covers, crate::proofs::lemmas::complement::GapRuleLemmas::cursor_reached, crate::proofs::lemmas::complement::GapRuleLemmas::fits))]
    fn step<R: Record, K: Sink>(
        &mut self,
        on: &mut GapCursor<'g>,
        record: &R,
        out: &mut Out<K>,
    ) -> Result<(), Fault> {
        on.cover(record.start(), record.stop(), out)
    }

    fn leave(&mut self, on: GapCursor<'g>) {
        self.cursor = on;
    }

    #[tactic(auto, using(crate::proofs::lemmas::complement::GapRuleLemmas::cursor_reached, crate::proofs::lemmas::complement::GapRuleLemmas::gap_finishes))]
    fn finish<K: Sink>(self, out: &mut Out<K>) -> Result<(), Fault> {
        let GapRule { limit, cursor } = self;
        put_before(&cursor, limit, cursor.genome.count(), out)
    }
}

// Writes what is left before the chromosome of the rank `stop`: the last gap of the one that was reached, and
// without `limit` each one between the two.
fn put_before<K: Sink>(
    cursor: &GapCursor<'_>,
    limit: bool,
    stop: usize,
    out: &mut Out<K>,
) -> Result<(), Fault>
    requires { stop ≤ length (entries cursor.now.genome.now) }
    ensures { Adds out.old.output (interval_lines (left_before last_gap (bare_gap limit) (entries cursor.now.genome.now)
        (seen cursor.now) stop)) result out.new.output }
{
    let Some(rank) = cursor.rank else {
        return put_bares(cursor.genome, limit, 0, stop, out);
    };
    put_gap(cursor.name, cursor.end, cursor.genome.length(rank), out)?;
    put_bares(
        cursor.genome,
        limit,
        stop.min(rank.saturating_add(1)),
        stop,
        out,
    )
}

// Writes the chromosomes of the ranks from `first` on and below `stop`, each whole; none with `limit`.
fn put_bares<K: Sink>(
    genome: &Genome,
    limit: bool,
    first: usize,
    stop: usize,
    out: &mut Out<K>,
) -> Result<(), Fault>
    requires order { first ≤ stop }
    requires within { stop ≤ length (entries genome.now) }
    ensures { Adds out.old.output (interval_lines
        (flat_map (bare_gap limit) (slice_range (entries genome.now) first stop))) result out.new.output }
{
    if limit {
        return Ok(());
    }
    for rank in first..stop {
        put_gap(genome.name(rank), 0, genome.length(rank), out)?;
    }
    Ok(())
}
