//! The depths of one chromosome: where they change, and the lines of the intervals that end.

ghost use Rattle.std.specs.Prelude.{◌≡◌, ◌≤◌, ◌-◌, ◌||◌, ◌==◌, IfOk, OnOk, Option, Some, None};
ghost use Rattle.bt_lines.specs.calls.Output.{Adds};
ghost use Rattle.bt_runs.specs.inside.Coverage.{begun_seen, levels_on, still_open};
ghost use Rattle.bt_bed.specs.calls.LevelScan.{begun_after, ended_after, level_ended_at, next_begun, next_ended};
ghost use Rattle.bt_runs.specs.model.Depth.{depth_lines, depth_of, reported};

use crate::coverage::depth_line::put_depth;
use crate::coverage::open_records::OpenRecords;
use bt_lines::{Fault, Out, Sink};

// A chromosome that depths are written for.
#[derive(Clone, Copy)]
pub(crate) struct CoveredChrom<'a> {
    pub(crate) name: &'a [u8],
    pub(crate) length: u64,
    // Whether depth 0 is written.
    pub(crate) zeros: bool,
}

// An interval of one depth that isn't ended.
#[derive(Clone, Copy, Debug)]
pub(crate) struct OpenInterval {
    // Below the position up to which depths are known.
    pub(crate) start: u64,
    // That of each of its positions; 0 only if depth 0 is written.
    pub(crate) depth: u64,
}

// The chromosome of a rank, and the interval that isn't ended at the position up to which its depths
// are known.
#[derive(Clone, Copy, Debug)]
pub(crate) struct DepthCursor {
    // A rank of the genome file.
    pub(crate) rank: usize,
    // `None` at position 0, past the chromosome's length, and at depth 0 if that isn't written.
    pub(crate) begun: Option<OpenInterval>,
}

// Goes on to a position on a chromosome, with the open records. It writes the intervals that end before
// it, and returns the one that isn't ended there.
#[inline(always)]
pub(crate) fn go_on<K: Sink>(
    chrom: &CoveredChrom<'_>,
    begun: Option<OpenInterval>,
    held: &mut OpenRecords,
    stop: u64,
    out: &mut Out<K>,
) -> Result<Option<OpenInterval>, Fault>
    ensures adds { Adds out.old.output (depth_lines (levels_on chrom.now.name.now (ended_after (depth_of chrom.now.zeros held.old.spans) held.old.at (stop - held.old.at) (begun_seen begun)))) result out.new.output }
    ensures begun { IfOk result (λ next. begun_seen next ≡ begun_after (depth_of chrom.now.zeros held.old.spans) held.old.at (stop - held.old.at) (begun_seen begun)) }
    ensures held { OnOk result (held.old.at ≤ stop → held.new ≡ record { at = stop; spans = still_open stop held.old.spans }) }
{
    let mut position = held.at();
    let mut begun = begun;
    while position < stop {
        held.go_on(position + 1);
        let depth = reported(chrom.zeros, held.len() as u64);
        begun = put_next(chrom.name, begun, position, depth, out)?;
        position = held.first_end(stop);
    }
    held.go_on(stop);
    Ok(begun)
}

// The depth that is reported.
fn reported(zeros: bool, depth: u64) -> Option<u64>
    ensures { result ≡ reported zeros depth }
{
    if zeros || 0 < depth {
        Some(depth)
    } else {
        None
    }
}

// Takes the position with its depth, if that is reported. It writes the interval that ends there,
// if one does, and returns the one that isn't ended.
fn put_next<K: Sink>(
    chrom: &[u8],
    begun: Option<OpenInterval>,
    position: u64,
    depth: Option<u64>,
    out: &mut Out<K>,
) -> Result<Option<OpenInterval>, Fault>
    ensures adds { Adds out.old.output (depth_lines (levels_on chrom.now (next_ended position depth (begun_seen begun)))) result out.new.output }
    ensures begun { IfOk result (λ next. begun_seen next ≡ next_begun position depth (begun_seen begun)) }
{
    let goes_on = match (begun, depth) {
        (None, None) => true,
        (Some(interval), Some(depth)) => interval.depth == depth,
        _ => false,
    };
    if goes_on {
        return Ok(begun);
    }
    put_ended(chrom, begun, position, out)?;
    match depth {
        None => Ok(None),
        Some(depth) => Ok(Some(OpenInterval {
            start: position,
            depth,
        })),
    }
}

// Writes what has begun, ended at a position.
pub(crate) fn put_ended<K: Sink>(
    chrom: &[u8],
    begun: Option<OpenInterval>,
    stop: u64,
    out: &mut Out<K>,
) -> Result<(), Fault>
    ensures { Adds out.old.output (depth_lines (levels_on chrom.now (level_ended_at (begun_seen begun) stop))) result out.new.output }
{
    match begun {
        None => Ok(()),
        Some(interval) => put_depth(chrom, interval.start, stop, interval.depth, out),
    }
}
