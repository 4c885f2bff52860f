//! The gaps of one chromosome, by a look at each of its positions.

ghost use Rattle.std.specs.Prelude.{◌≡◌, IfOk};
ghost use Rattle.bt_runs.specs.model.Gaps.{gaps_of};
ghost use Rattle.bt_runs.specs.inside.PlainRuns.{spans_in};

use crate::plain::{PlainSpan, add_position, is_covered};
use std::alloc::{AllocError, Global};

/// The gaps between the spans of a chromosome of this length. The spans may come in any order.
pub(crate) fn plain_gaps(
    alloc: Global,
    spans: &[PlainSpan],
    size: u64,
) -> Result<Vec<PlainSpan>, AllocError>
    ensures { IfOk result (λ v. spans_in v.items ≡ gaps_of size (spans_in spans.now)) }
{
    let mut gaps = Vec::new(alloc);
    for position in 0..size {
        if !is_covered(spans, position) {
            add_position(&mut gaps, position)?;
        }
    }
    Ok(gaps)
}
