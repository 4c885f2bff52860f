//! What is left of one record.

ghost use Rattle.std.specs.Prelude.{◌≡◌, IfOk, cond, [], flat_map, max, nat_lt, option_copied, option_to_list, take};
ghost use Rattle.bt_lines.specs.calls.Output.{Adds};
ghost use Rattle.bt_bed.specs.calls.Bed.{feature_lent};
ghost use Rattle.bt_sweep.specs.calls.Held.{AreOn, AreRising};
ghost use Rattle.bt_sweep.specs.model.Hits.{hits_among};
ghost use Rattle.bt_sweep.specs.model.Lines.{piece_line, pieces};
ghost use Rattle.bt_sweep.specs.inside.Pieces.{free_after, gap_lines, lines_before};

use crate::active::held::Held;
use crate::hits::hit::is_hit;
use crate::hits::hit_rule::HitRule;
use bt_bed::{BedRef, Rec, put_cut};
use bt_lines::{Fault, Out, Sink};

// Puts the pieces of a record that its hits among the first `count` held records leave. The held
// records lie on its chromosome and come by their starts, so one walk over them meets the pieces in
// order. It doesn't allocate.
#[inline(always)]
pub(crate) fn put_pieces<H: Held, K: Sink>(
    rule: HitRule,
    a: &BedRef<'_>,
    held: &H,
    count: usize,
    out: &mut Out<K>,
) -> Result<(), Fault>
    requires { AreOn a.now.chrom.now (H.records held.now) }
    ensures { AreRising (H.records held.now) → Adds out.old.output (flat_map (piece_line (feature_lent a.now))
        (pieces (feature_lent a.now) (hits_among rule (feature_lent a.now) (take count (H.records held.now)))))
        result out.new.output }
{
    let mut free = a.start;
    for index in 0..count {
        free = put_before(rule, a, free, held.nth(index), out)?;
    }
    put_gap(a, free, a.stop, out)
}

// Puts the piece of a record from a position up to the start of a held record, if there is one and it
// hits the record. It gives the first position from there on that isn't covered by what came so far.
#[inline(always)]
fn put_before<K: Sink>(
    rule: HitRule,
    a: &BedRef<'_>,
    free: u64,
    b: Option<&Rec>,
    out: &mut Out<K>,
) -> Result<u64, Fault>
    requires { AreOn a.now.chrom.now (option_to_list (option_copied b)) }
    ensures adds { Adds out.old.output (lines_before (feature_lent a.now) free
        (hits_among rule (feature_lent a.now) (option_to_list (option_copied b.entry)))) result out.new.output }
    ensures next { IfOk result (λ next. next ≡ free_after free
        (hits_among rule (feature_lent a.now) (option_to_list (option_copied b.entry)))) }
{
    let Some(b) = b else {
        return Ok(free);
    };
    let b = b.as_bed();
    if !is_hit(rule, a, &b) {
        return Ok(free);
    }
    put_gap(a, free, b.start, out)?;
    Ok(free.max(b.stop))
}

// Puts the piece of a record between two positions, if it has a base.
fn put_gap<K: Sink>(a: &BedRef<'_>, start: u64, stop: u64, out: &mut Out<K>) -> Result<(), Fault>
    ensures { Adds out.old.output (gap_lines (feature_lent a.now) start stop) result out.new.output }
{
    if start < stop {
        return put_cut(a, start, stop, b"\n", out);
    }
    Ok(())
}
