//! Merge, complement and coverage beside the plain programs, over all inputs of at most three records of positions below 6.

use crate::engine::Engine;
use crate::plain::depths::plain_depths;
use crate::plain::gaps::plain_gaps;
use crate::plain::{PlainSpan, plain_runs};
use crate::tests::testing::{feed_line, genome, holds, output};
use crate::{Complement, Coverage, Merge, MergeStrand};
use bt_bed::Genome;
use std::alloc::{AllocError, Global};
use std::test::Fail;

// How many positions the chromosome has.
const SIZE: u64 = 6;

const GENOME: &[u8] = b"c\t6\n";

// All spans that start at `first` or past it.
fn spans_from(alloc: Global, first: u64) -> Result<Vec<PlainSpan>, AllocError> {
    let mut spans = Vec::new(alloc);
    for start in first..SIZE {
        for before in start..SIZE {
            spans.push((start, before + 1))?;
        }
    }
    Ok(spans)
}

type Inputs = Vec<Vec<PlainSpan>>;

// Adds each of the inputs from an index on with one more record, which doesn't start before the others.
fn add_longer(alloc: Global, inputs: &mut Inputs, first: usize) -> Result<(), AllocError> {
    for index in first..inputs.len() {
        let Some(input) = inputs.get(index) else {
            return Ok(());
        };
        let input = input.clone()?;
        let start = match input.last() {
            Some((start, _)) => *start,
            None => 0,
        };
        for span in spans_from(alloc, start)?.as_slice() {
            let mut longer = input.clone()?;
            longer.push(*span)?;
            inputs.push(longer)?;
        }
    }
    Ok(())
}

// All inputs of at most three records.
fn small_inputs(alloc: Global) -> Result<Inputs, AllocError> {
    let mut inputs = Vec::new(alloc);
    inputs.push(Vec::new(alloc))?;
    let mut first = 0;
    for _ in 0..3 {
        let end = inputs.len();
        add_longer(alloc, &mut inputs, first)?;
        first = end;
    }
    Ok(inputs)
}

// Whether an engine that is fed these records writes these lines.
fn writes<E: Engine + Drop>(
    alloc: Global,
    mut engine: E,
    spans: &[PlainSpan],
    wanted: &[u8],
) -> Result<bool, AllocError> {
    let mut out = output(alloc, 512);
    let mut is_fed = true;
    for (start, stop) in spans {
        let line = format!(in alloc; "c\t{start}\t{stop}")?;
        is_fed = is_fed && feed_line(&mut engine, line.as_bytes(), &mut out).is_ok();
    }
    let is_ended = engine.finish(&mut out).is_ok() && out.flush().is_ok();
    Ok(is_fed && is_ended && out.into_sink().taken() == wanted)
}

// The lines of runs or gaps.
fn span_lines(alloc: Global, found: &[PlainSpan]) -> Result<Vec<u8>, AllocError> {
    let mut lines = Vec::new(alloc);
    for (start, stop) in found {
        let line = format!(in alloc; "c\t{start}\t{stop}\n")?;
        lines.extend_from_slice(line.as_bytes())?;
    }
    Ok(lines)
}

// The lines of the depths that the plain program gives.
fn depth_lines(alloc: Global, spans: &[PlainSpan], zeros: bool) -> Result<Vec<u8>, AllocError> {
    let mut lines = Vec::new(alloc);
    for (start, stop, depth) in plain_depths(alloc, spans, SIZE, zeros)?.as_slice() {
        let line = format!(in alloc; "c\t{start}\t{stop}\t{depth}\n")?;
        lines.extend_from_slice(line.as_bytes())?;
    }
    Ok(lines)
}

// How many of the inputs a merge writes otherwise, with gaps below 3.
fn merged_otherwise(alloc: Global, inputs: &Inputs) -> Result<u64, AllocError> {
    let mut count = 0u64;
    for input in inputs.as_slice() {
        let spans = input.as_slice();
        for gap in 0..3u64 {
            let runs = span_lines(alloc, plain_runs(alloc, spans, gap)?.as_slice())?;
            let merge = Merge::new(alloc, gap, MergeStrand::All);
            if !writes(alloc, merge, spans, runs.as_slice())? {
                count = count.saturating_add(1);
            }
        }
    }
    Ok(count)
}

// How many of the inputs a complement or a coverage writes otherwise.
fn unlike(alloc: Global, genome: &Genome, inputs: &Inputs) -> Result<u64, AllocError> {
    let mut count = 0u64;
    for input in inputs.as_slice() {
        let spans = input.as_slice();
        let gaps = span_lines(alloc, plain_gaps(alloc, spans, SIZE)?.as_slice())?;
        let complement = Complement::new(genome, false);
        let mut is_same = writes(alloc, complement, spans, gaps.as_slice())?;
        for zeros in &[false, true] {
            let depths = depth_lines(alloc, spans, *zeros)?;
            let coverage = Coverage::new(alloc, genome, *zeros, None);
            is_same = is_same && writes(alloc, coverage, spans, depths.as_slice())?;
        }
        if !is_same {
            count = count.saturating_add(1);
        }
    }
    Ok(count)
}

#[test]
fn runs_are_those_of_the_plain_program(rt: HostRuntime) -> Result<(), Fail> {
    let inputs = small_inputs(rt.alloc())?;
    let count = merged_otherwise(rt.alloc(), &inputs)?;
    holds(&rt, count == 0, "as the plain program");
    Ok(())
}

#[test]
fn gaps_and_depths_are_those_of_the_plain_programs(rt: HostRuntime) -> Result<(), Fail> {
    let genome = genome(rt.alloc(), GENOME)?;
    let inputs = small_inputs(rt.alloc())?;
    // 21 spans of positions below 6: none, one, two or three in the order of their starts.
    holds(&rt, inputs.len() == 2_934, "all inputs");
    let count = unlike(rt.alloc(), &genome, &inputs)?;
    holds(&rt, count == 0, "as the plain programs");
    Ok(())
}
