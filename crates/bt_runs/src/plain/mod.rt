//! The merged runs of one chromosome, by a scan of its positions: slow, and plainly what the
//! definition says. Tests compare the merge with it. Its modules have gaps and depths in the same way.

pub(crate) mod depths;
pub(crate) mod gaps;

ghost use Rattle.bt_runs.specs.model.Merged.{runs_of};
ghost use Rattle.bt_runs.specs.calls.MergedRuns.{Bridged};
ghost use Rattle.bt_runs.specs.inside.PlainRuns.{spans_in, with_next, HasRight};
ghost use Rattle.std.specs.List.{list_any};
ghost use Rattle.std.specs.Prelude.{◌≡◌, ◌↔◌, ◌+◌, ◌<◌, ◌≤◌, ◌&&◌, nat_le, nat_lt, All, IfOk, ◌^◌, IsTrue, OnOk};

use std::alloc::{AllocError, Global};

/// The start and the stop of a stretch of one chromosome. Positions count from zero, and the stop isn't included.
pub(crate) type PlainSpan = (u64, u64);

/// The merged runs of the spans of one chromosome, which may come in any order.
pub(crate) fn plain_runs(
    alloc: Global,
    spans: &[PlainSpan],
    gap: u64,
) -> Result<Vec<PlainSpan>, AllocError>
    ensures { IfOk result (λ v. spans_in v.items ≡ runs_of gap (spans_in spans.now)) }
{
    let end = greatest_stop(spans);
    let mut runs = Vec::new(alloc);
    for position in 0..end {
        if is_bridged(spans, gap, end, position) {
            add_position(&mut runs, position)?;
        }
    }
    Ok(runs)
}

fn greatest_stop(spans: &[PlainSpan]) -> u64
    ensures { All (λ s. s.1 ≤ result) spans.now }
{
    let mut end = 0;
    for (_, stop) in spans {
        end = end.max(*stop);
    }
    end
}

pub(crate) fn is_covered(spans: &[PlainSpan], position: u64) -> bool
    ensures { result ≡ list_any (λ s. nat_le s.0 position && nat_lt position s.1) spans.now }
{
    spans
        .iter()
        .any(|(start, stop)| *start <= position && position < *stop)
}

/// Whether a covered position at or past this one is near `left`.
#[tactic(auto, using(crate::proofs::lemmas::definitions::PlainSpans::covered_at_true, crate::proofs::lemmas::definitions::PlainSpans::bare_at_false, crate::proofs::lemmas::definitions::PlainSpans::covered_below))]
fn has_right(spans: &[PlainSpan], gap: u64, end: u64, left: u64, position: u64) -> bool
    requires past { left < position }
    requires ended { All (λ s. s.1 ≤ end) spans.now }
    ensures { IsTrue result ↔ HasRight gap (spans_in spans.now) left position }
{
    for right in position..end {
        if is_covered(spans, right) && right - left - 1 <= gap {
            return true;
        }
    }
    false
}

#[tactic(auto, using(crate::proofs::lemmas::merge::Bridging::bridged_here, crate::proofs::lemmas::definitions::PlainSpans::covered_at_true, crate::proofs::lemmas::definitions::PlainSpans::bare_at_false))]
fn is_bridged(spans: &[PlainSpan], gap: u64, end: u64, position: u64) -> bool
    requires { All (λ s. s.1 ≤ end) spans.now }
    ensures { IsTrue result ↔ Bridged gap (spans_in spans.now) position }
{
    if is_covered(spans, position) {
        return true;
    }
    for left in 0..position {
        if is_covered(spans, left) && has_right(spans, gap, end, left, position) {
            return true;
        }
    }
    false
}

/// Adds the position to the last run if that ends there, and else as a run of its own.
#[tactic(auto, using(crate::proofs::lemmas::definitions::PlainSpans::next_joined, crate::proofs::lemmas::definitions::PlainSpans::next_apart))]
pub(crate) fn add_position(runs: &mut Vec<PlainSpan>, position: u64) -> Result<(), AllocError>
    requires { position + 1 < 2 ^ 64 }
    ensures { OnOk result (spans_in runs.new.items ≡ with_next (spans_in runs.old.items) position) }
{
    let mut first = position;
    if let Some((start, stop)) = runs.pop() {
        if stop == position {
            first = start;
        } else {
            runs.push((start, stop))?;
        }
    }
    runs.push((first, position + 1))?;
    Ok(())
}

#[cfg(test)]
mod tests {
    use super::*;
    use std::process::Abort;
    use std::test::Fail;

    type Bounds = &'static [(u64, u64)];

    // A case: its name, the spans, the gap, and their runs.
    type Case = (&'static str, Bounds, u64, Bounds);

    #[rattlefmt::skip]
    const CASES: [Case; 7] = [
        ("a record without a position", &[(3, 3)], 5, &[]),
        ("touching", &[(0, 5), (5, 9)], 0, &[(0, 9)]),
        ("one within another", &[(0, 9), (3, 5)], 0, &[(0, 9)]),
        ("a gap of two, by one", &[(0, 5), (7, 9)], 1, &[(0, 5), (7, 9)]),
        ("a gap of two, bridged", &[(0, 5), (7, 9)], 2, &[(0, 9)]),
        ("out of order", &[(7, 9), (0, 5)], 0, &[(0, 5), (7, 9)]),
        ("four records", &[(100, 200), (180, 250), (250, 500), (501, 1000)], 0,
            &[(100, 500), (501, 1000)]),
    ];

    fn spans_of(alloc: Global, bounds: Bounds) -> Result<Vec<PlainSpan>, AllocError> {
        let mut spans = Vec::new(alloc);
        for (start, stop) in bounds {
            spans.push((*start, *stop))?;
        }
        Ok(spans)
    }

    fn check(rt: &impl Abort, alloc: Global, cases: &[Case]) -> Result<(), AllocError> {
        for (name, spans, gap, runs) in cases {
            let found = plain_runs(alloc, spans_of(alloc, *spans)?.as_slice(), *gap)?;
            let runs = spans_of(alloc, *runs)?;
            assert!(rt; found.as_slice() == runs.as_slice(), "{name}");
        }
        Ok(())
    }

    #[test]
    fn small_cases(rt: HostRuntime) -> Result<(), Fail> {
        Ok(check(&rt, rt.alloc(), &CASES)?)
    }
}
