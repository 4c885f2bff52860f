//! The pieces of a record, by a scan of its positions: slow, and plainly what the definition says.

ghost use Rattle.std.specs.Prelude.{◌≡◌, ◌+◌, ◌<◌, ◌^◌, ◌&&◌, IfOk, OnOk};
ghost use Rattle.std.specs.List.{list_any};
ghost use Rattle.bt_bed.specs.calls.Bed.{feature_lent};
ghost use Rattle.bt_bed.specs.calls.Stretches.{with_position};
ghost use Rattle.bt_sweep.specs.model.Hits.{is_hit, hits_among};
ghost use Rattle.bt_bed.specs.model.Feature.{record_covers};
ghost use Rattle.bt_sweep.specs.model.Lines.{is_left, pieces};
ghost use Rattle.bt_sweep.specs.inside.Pieces.{pieces_in};

use crate::hits::hit_rule::HitRule;
use crate::plain::is_hit;
use bt_bed::{BedRef, Rec};
use std::alloc::{AllocError, Global};

// The start and the stop of a stretch of a chromosome. Positions count from zero, and the stop isn't included.
pub(crate) type PlainPiece = (u64, u64);

// The pieces of a record without the bases of those that hit it, the last one first.
#[tactic(auto, using(crate::proofs::lemmas::Plain::scan_all, crate::proofs::lemmas::Plain::scan_next, crate::proofs::lemmas::Plain::scan_none))]
pub(crate) fn find_pieces(
    alloc: Global,
    rule: HitRule,
    a: &BedRef<'_>,
    second: &[Rec],
) -> Result<Vec<PlainPiece>, AllocError>
    ensures { IfOk result (λ v. pieces_in v.items
        ≡ pieces (feature_lent a.now) (hits_among rule (feature_lent a.now) second.now)) }
{
    let mut found = Vec::new(alloc);
    for passed in 0..a.stop {
        let position = a.stop - passed - 1;
        if is_left(rule, a, second, position) {
            add_position(&mut found, position)?;
        }
    }
    Ok(found)
}

// Whether the record has the position, and none that hits it has it.
fn is_left(rule: HitRule, a: &BedRef<'_>, second: &[Rec], position: u64) -> bool
    ensures { result ≡ is_left (feature_lent a.now) (hits_among rule (feature_lent a.now) second.now) position }
{
    a.start <= position && !is_taken(rule, a, second, position)
}

// Whether one that hits the record has the position.
fn is_taken(rule: HitRule, a: &BedRef<'_>, second: &[Rec], position: u64) -> bool
    ensures { result ≡ list_any (λ b. is_hit rule (feature_lent a.now) b && record_covers position b) second.now }
{
    second.iter().any(|b| is_hit(rule, a, &b.as_bed()) && record_covers(b, position))
}

// Whether the record has the position.
fn record_covers(b: &Rec, position: u64) -> bool
    ensures { result ≡ record_covers position b.now }
{
    let b = b.as_bed();
    b.start <= position && position < b.stop
}

// Adds the position to the last piece if that begins after it, and else as a piece of its own.
#[tactic(auto, using(std::proofs::lemmas::List::nil_from_length, crate::proofs::lemmas::Plain::first_found, crate::proofs::lemmas::Plain::next_apart, crate::proofs::lemmas::Plain::next_joined))]
fn add_position(found: &mut Vec<PlainPiece>, position: u64) -> Result<(), AllocError>
    requires { position + 1 < 2 ^ 64 }
    ensures { OnOk result (pieces_in found.new.items ≡ with_position position (pieces_in found.old.items)) }
{
    let mut end = position + 1;
    if let Some((start, stop)) = found.pop() {
        if start == position + 1 {
            end = stop;
        } else {
            found.push((start, stop))?;
        }
    }
    found.push((position, end))?;
    Ok(())
}
