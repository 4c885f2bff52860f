//! The intervals of equal depth of one chromosome, by a count at each of its positions.

ghost use Rattle.std.specs.Prelude.{◌≡◌, ◌+◌, ◌<◌, ◌^◌, ◌&&◌, nat_le, nat_lt, filter, length, IfOk, OnOk};
ghost use Rattle.bt_runs.specs.model.Depth.{depth_of, levels_of};
ghost use Rattle.bt_runs.specs.inside.PlainRuns.{levels_in, spans_in, with_value};

use crate::plain::PlainSpan;
use std::alloc::{AllocError, Global};

/// The start and the stop of a stretch of one chromosome, and the depth of its positions.
pub(crate) type PlainDepth = (u64, u64, u64);

/// The intervals of equal depth of a chromosome of this length, with those of depth 0 if they are wanted. The spans may
/// come in any order.
pub(crate) fn plain_depths(
    alloc: Global,
    spans: &[PlainSpan],
    size: u64,
    zeros: bool,
) -> Result<Vec<PlainDepth>, AllocError>
    ensures { IfOk result (λ v. levels_in v.items ≡ levels_of (depth_of zeros (spans_in spans.now)) size) }
{
    let mut depths = Vec::new(alloc);
    for position in 0..size {
        let depth = depth_at(spans, position);
        if zeros || 0 < depth {
            add_depth(&mut depths, position, depth)?;
        }
    }
    Ok(depths)
}

// How many spans cover a position.
fn depth_at(spans: &[PlainSpan], position: u64) -> u64
    ensures { result ≡ length (filter (λ s. nat_le s.0 position && nat_lt position s.1) spans.now) }
{
    spans
        .iter()
        .filter(|(start, stop)| *start <= position && position < *stop)
        .count() as u64
}

// Adds the position to the last interval if that ends there and has this depth, and else as an interval of its own.
#[tactic(auto, using(crate::proofs::lemmas::definitions::PlainLevels::depth_joined, crate::proofs::lemmas::definitions::PlainLevels::depth_apart))]
fn add_depth(depths: &mut Vec<PlainDepth>, position: u64, depth: u64) -> Result<(), AllocError>
    requires { position + 1 < 2 ^ 64 }
    ensures { OnOk result (levels_in depths.new.items ≡ with_value (levels_in depths.old.items) position depth) }
{
    let mut first = position;
    if let Some((start, stop, last)) = depths.pop() {
        if stop == position && last == depth {
            first = start;
        } else {
            depths.push((start, stop, last))?;
        }
    }
    depths.push((first, position + 1, depth))?;
    Ok(())
}
