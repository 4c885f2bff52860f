//! The lines of one record.

ghost use Rattle.std.specs.Prelude.{◌≡◌, ◌∷◌, [], ◌<◌, All, IsTrue, cond, decimal, not, flat_map, option_copied, option_to_list, take};
ghost use Rattle.bt_lines.specs.calls.Output.{Adds, Puts};
ghost use Rattle.bt_bed.specs.calls.Bed.{feature_lent};
ghost use Rattle.bt_bed.specs.model.BedLine.{bed_text, cut_to};
ghost use Rattle.bt_sweep.specs.calls.Held.{AreOn, AreRising, CanHit};
ghost use Rattle.std.specs.List.{list_any};
ghost use Rattle.bt_sweep.specs.model.Hits.{is_hit, hits_among, shared_bases};
ghost use Rattle.bt_sweep.specs.inside.Shapes.{shape_with};
ghost use Rattle.bt_sweep.specs.model.Lines.{hit_line, line_with, lines_for};

use crate::active::held::Held;
use crate::hits::hit::{count_started_hits, is_any_hit, is_hit};
use crate::hits::hit_rule::HitRule;
use crate::hits::started::count_started;
use crate::output::pieces::put_pieces;
use crate::output::shape::{HitShape, Shape};
use crate::output::source_record::{SourceRecord, put_record};
use crate::output::unmatched::put_unmatched;
use bt_bed::{BedRef, Rec, Record, put_bed, put_cut};
use bt_lines::{Fault, Out, Sink, put_number};

// Puts the lines of a record against these, which can hit it and come by their starts.
#[tactic(auto, using(crate::proofs::lemmas::sweep::KeepLemmas::none_against))]
#[inline(always)]
pub(crate) fn put_against<R: Record, H: Held, K: Sink>(
    shape: Shape,
    rule: HitRule,
    a: &R,
    held: &H,
    out: &mut Out<K>,
) -> Result<(), Fault>
    requires filled { (R.feature a.now).start < (R.feature a.now).stop }
    requires hits { All (CanHit (R.feature a.now)) (H.records held.now) }
    ensures { AreRising (H.records held.now)
        → Adds out.old.output (lines_for shape rule (R.feature a.now) (H.records held.now)) result out.new.output }
{
    if held.len() == 0 {
        return put_unmatched(shape, a, out);
    }
    put_lines(shape, rule, &SourceRecord::of(a), held, out)
}

// Puts the lines of a record against these, which can hit it and come by their starts. Those that start
// at its end or after it are skipped. It doesn't allocate.
#[tactic(auto, using(crate::proofs::lemmas::Output::on_name))]
#[inline(always)]
pub(crate) fn put_lines<H: Held, K: Sink>(
    shape: Shape,
    rule: HitRule,
    a: &SourceRecord<'_>,
    held: &H,
    out: &mut Out<K>,
) -> Result<(), Fault>
    requires { All (CanHit (feature_lent a.now.bed)) (H.records held.now) }
    ensures { AreRising (H.records held.now)
        → Adds out.old.output (lines_for shape rule (feature_lent a.now.bed) (H.records held.now)) result out.new.output }
{
    let bed = &a.bed;
    match shape {
        Shape::Count => {
            let count = count_started(held, bed.stop);
            put_counted(a, count_started_hits(rule, bed, held, count) as u64, out)
        }
        Shape::Once => put_where(is_any_hit(rule, bed, held), a, out),
        Shape::Missing | Shape::Whole => put_where(!is_any_hit(rule, bed, held), a, out),
        Shape::Cut => put_hits(HitShape::Cut, rule, a, held, out),
        Shape::OrigA => put_hits(HitShape::OrigA, rule, a, held, out),
        Shape::CutAndB => put_hits(HitShape::CutAndB, rule, a, held, out),
        Shape::OrigBoth => put_hits(HitShape::OrigBoth, rule, a, held, out),
        Shape::Overlap => put_hits(HitShape::Overlap, rule, a, held, out),
        Shape::Pieces => put_pieces(rule, bed, held, count_started(held, bed.stop), out),
    }
}

// Puts a line for each held record that hits the record, if they come by their starts.
#[inline(always)]
fn put_hits<H: Held, K: Sink>(
    shape: HitShape,
    rule: HitRule,
    a: &SourceRecord<'_>,
    held: &H,
    out: &mut Out<K>,
) -> Result<(), Fault>
    requires { AreOn a.now.bed.chrom.now (H.records held.now) }
    ensures { AreRising (H.records held.now) → Adds out.old.output (flat_map (hit_line (shape_with shape) (feature_lent a.now.bed))
        (hits_among rule (feature_lent a.now.bed) (H.records held.now))) result out.new.output }
{
    let count = count_started(held, a.bed.stop);
    for index in 0..count {
        put_if_hit(shape, rule, a, held.nth(index), out)?;
    }
    Ok(())
}

// Puts the line of a held record, if there is one and it hits the record.
#[tactic(auto, using(crate::proofs::lemmas::definitions::HitLemmas::hit_overlaps))]
#[inline(always)]
fn put_if_hit<K: Sink>(
    shape: HitShape,
    rule: HitRule,
    a: &SourceRecord<'_>,
    b: Option<&Rec>,
    out: &mut Out<K>,
) -> Result<(), Fault>
    requires { AreOn a.now.bed.chrom.now (option_to_list (option_copied b)) }
    ensures { Adds out.old.output (flat_map (hit_line (shape_with shape) (feature_lent a.now.bed))
        (hits_among rule (feature_lent a.now.bed) (option_to_list (option_copied b.entry)))) result out.new.output }
{
    let Some(b) = b else {
        return Ok(());
    };
    let b = b.as_bed();
    if !is_hit(rule, &a.bed, &b) {
        return Ok(());
    }
    put_hit(shape, a, &b, out)
}

// Puts the line of a record that shares a base with the record.
#[inline(always)]
fn put_hit<K: Sink>(
    shape: HitShape,
    a: &SourceRecord<'_>,
    b: &BedRef<'_>,
    out: &mut Out<K>,
) -> Result<(), Fault>
    requires { 0 < shared_bases (feature_lent a.now.bed) (feature_lent b.now) }
    ensures { Adds out.old.output (hit_line (shape_with shape) (feature_lent a.now.bed) (feature_lent b.now)) result out.new.output }
{
    let bed = &a.bed;
    let start = bed.start.max(b.start);
    let stop = bed.stop.min(b.stop);
    match shape {
        HitShape::Cut => put_cut(bed, start, stop, b"\n", out),
        HitShape::OrigA => put_record(a, b"\n", out),
        HitShape::CutAndB => put_cut_beside(bed, start, stop, b, out),
        HitShape::OrigBoth => put_beside(a, b, out),
        HitShape::Overlap => put_overlap(a, b, stop.saturating_sub(start), out),
    }
}

// Puts the record's line where it is to be written, and nothing else.
#[inline(always)]
fn put_where<K: Sink>(is_put: bool, a: &SourceRecord<'_>, out: &mut Out<K>) -> Result<(), Fault>
    ensures { Adds out.old.output (cond is_put (line_with (bed_text (feature_lent a.now.bed) ∷ [])) []) result out.new.output }
{
    if is_put {
        return put_record(a, b"\n", out);
    }
    Ok(())
}

// Puts a part of a record, and another record beside it.
#[tactic(auto, using(std::proofs::lemmas::Result::err_from_is_err_and, bt_lines::proofs::lemmas::Writer::fails_before, bt_lines::proofs::lemmas::Writer::puts_more))]
fn put_cut_beside<K: Sink>(
    a: &BedRef<'_>,
    start: u64,
    stop: u64,
    b: &BedRef<'_>,
    out: &mut Out<K>,
) -> Result<(), Fault>
    ensures { Puts out.old.output (line_with (bed_text (cut_to start stop (feature_lent a.now))
        ∷ bed_text (feature_lent b.now) ∷ [])) result out.new.output }
{
    put_cut(a, start, stop, b"\t", out)?;
    put_bed(b, b"\n", out)
}

// Puts a record and a number.
#[tactic(auto, using(std::proofs::lemmas::Result::err_from_is_err_and, bt_lines::proofs::lemmas::Writer::fails_before, bt_lines::proofs::lemmas::Writer::puts_more))]
#[inline(never)]
fn put_counted<K: Sink>(a: &SourceRecord<'_>, count: u64, out: &mut Out<K>) -> Result<(), Fault>
    ensures { Puts out.old.output (line_with (bed_text (feature_lent a.now.bed) ∷ decimal count ∷ [])) result out.new.output }
{
    put_record(a, b"\t", out)?;
    put_number(count, b"\n", out)
}

// Puts two records beside one another.
#[tactic(auto, using(std::proofs::lemmas::Result::err_from_is_err_and, bt_lines::proofs::lemmas::Writer::fails_before, bt_lines::proofs::lemmas::Writer::puts_more))]
fn put_beside<K: Sink>(a: &SourceRecord<'_>, b: &BedRef<'_>, out: &mut Out<K>) -> Result<(), Fault>
    ensures { Puts out.old.output (line_with (bed_text (feature_lent a.now.bed)
        ∷ bed_text (feature_lent b.now) ∷ [])) result out.new.output }
{
    put_record(a, b"\t", out)?;
    put_bed(b, b"\n", out)
}

// Puts two records and a number.
#[tactic(auto, using(std::proofs::lemmas::Result::err_from_is_err_and, bt_lines::proofs::lemmas::Writer::fails_before, bt_lines::proofs::lemmas::Writer::puts_more))]
fn put_overlap<K: Sink>(
    a: &SourceRecord<'_>,
    b: &BedRef<'_>,
    count: u64,
    out: &mut Out<K>,
) -> Result<(), Fault>
    ensures { Puts out.old.output (line_with (bed_text (feature_lent a.now.bed)
        ∷ bed_text (feature_lent b.now) ∷ decimal count ∷ [])) result out.new.output }
{
    put_record(a, b"\t", out)?;
    put_counted(&SourceRecord::of_bed(*b), count, out)
}
