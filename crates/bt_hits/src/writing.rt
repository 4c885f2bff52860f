//! The lines of one record.

ghost use Rattle.std.specs.Prelude.{◌≡◌, ◌≤◌, ◌<◌, All, IfSome, ◌∷◌, [], filter, flat_map, true, decimal};
ghost use Rattle.std.specs.Option.{option_copied, option_to_list};
ghost use Rattle.bt_lines.specs.calls.Output.{Adds, Puts};
ghost use Rattle.bt_bed.specs.calls.Bed.{feature_lent};
ghost use Rattle.bt_bed.specs.model.BedLine.{bed_text, cut_to};
ghost use Rattle.bt_sweep.specs.model.Hits.{shared_bases};
ghost use Rattle.bt_sweep.specs.model.Lines.{hit_line, line_with};
ghost use Rattle.bt_hits.specs.model.Bins.{all_levels, level_of};
ghost use Rattle.bt_hits.specs.calls.Listing.{has_line_each};
ghost use Rattle.bt_hits.specs.inside.Meeting.{AreWithin, records_near};
ghost use Rattle.bt_hits.specs.inside.Writing.{hits_by_level, is_hit_on};

use crate::bins::level_of;
use crate::listing::Listing;
use crate::meeting::Near;
use bt_bed::{BedRef, Rec, put_bed, put_cut};
use bt_lines::{Fault, Out, Sink, put_number};
use bt_sweep::{HitRule, Shape, is_hit};

// Puts a line for each of these records that hits the record, level by level.
pub(crate) fn put_levels<K: Sink>(
    listing: Listing,
    a: &Rec,
    near: &Near<'_>,
    out: &mut Out<K>,
) -> Result<(), Fault>
    requires shape { has_line_each listing.shape ≡ true }
    requires within { AreWithin near.now }
    ensures { Adds out.old.output (flat_map (hit_line listing.shape a.now)
        (hits_by_level listing.rule a.now all_levels (records_near near.now))) result out.new.output }
{
    for level in 0..levels_in(near) {
        put_level(listing, level, a, near, out)?;
    }
    Ok(())
}

// How many levels have all of these records.
fn levels_in(near: &Near<'_>) -> usize
    requires { AreWithin near.now }
    ensures within { result ≤ 8 }
    ensures below { All (λ b. level_of b < result) (records_near near.now) }
{
    let mut count = 0;
    for index in 0..near.len() {
        count = levels_with(count, near.nth(index));
    }
    count
}

// How many levels have a record too, if there is one.
fn levels_with(count: usize, b: Option<&Rec>) -> usize
    ensures least { count ≤ result }
    ensures above { IfSome (option_copied b.entry) (λ b. level_of b < result) }
    ensures within { count ≤ 8 → result ≤ 8 }
{
    let Some(b) = b else {
        return count;
    };
    let above = level_of(b) + 1;
    if count < above { above } else { count }
}

// Puts a line for each of them that hits the record and is on this level.
fn put_level<K: Sink>(
    listing: Listing,
    level: usize,
    a: &Rec,
    near: &Near<'_>,
    out: &mut Out<K>,
) -> Result<(), Fault>
    requires shape { has_line_each listing.shape ≡ true }
    requires within { AreWithin near.now }
    ensures { Adds out.old.output (flat_map (hit_line listing.shape a.now)
        (filter (is_hit_on listing.rule level a.now) (records_near near.now))) result out.new.output }
{
    for index in 0..near.len() {
        put_if_on(listing, level, a, near.nth(index), out)?;
    }
    Ok(())
}

// Puts the line of a record, if there is one that hits the record and is on this level.
fn put_if_on<K: Sink>(
    listing: Listing,
    level: usize,
    a: &Rec,
    b: Option<&Rec>,
    out: &mut Out<K>,
) -> Result<(), Fault>
    requires { has_line_each listing.shape ≡ true }
    ensures { Adds out.old.output (flat_map (hit_line listing.shape a.now)
        (filter (is_hit_on listing.rule level a.now) (option_to_list (option_copied b.entry)))) result out.new.output }
{
    let Some(b) = b else {
        return Ok(());
    };
    if !is_hit_on(listing.rule, level, a, b) {
        return Ok(());
    }
    put_hit(listing.shape, &a.as_bed(), &b.as_bed(), out)
}

// Whether a record hits the record and is on this level.
#[tactic(auto, using(crate::proofs::lemmas::Writing::other_misses))]
fn is_hit_on(rule: HitRule, level: usize, a: &Rec, b: &Rec) -> bool
    ensures { result ≡ is_hit_on rule level a.now b.now }
{
    let one = a.as_bed();
    let other = b.as_bed();
    if one.chrom != other.chrom {
        return false;
    }
    is_hit(rule, &one, &other) && level_of(b) == level
}

// Puts the line of a record that shares a base with the record.
fn put_hit<K: Sink>(
    shape: Shape,
    a: &BedRef<'_>,
    b: &BedRef<'_>,
    out: &mut Out<K>,
) -> Result<(), Fault>
    requires shape { has_line_each shape ≡ true }
    requires shares { 0 < shared_bases (feature_lent a.now) (feature_lent b.now) }
    ensures { Adds out.old.output (hit_line shape (feature_lent a.now) (feature_lent b.now)) result out.new.output }
{
    let start = a.start.max(b.start);
    let stop = a.stop.min(b.stop);
    match shape {
        Shape::Cut => put_cut(a, start, stop, b"\n", out),
        Shape::OrigA => put_bed(a, b"\n", out),
        Shape::CutAndB => put_cut_beside(a, start, stop, b, out),
        Shape::OrigBoth => put_beside(a, b, out),
        Shape::Overlap => put_overlap(a, b, stop.saturating_sub(start), out),
        _ => Ok(()),
    }
}

// Puts a part of a record, and another record beside it.
#[tactic(auto, using(std::proofs::lemmas::Result::err_from_is_err_and, bt_lines::proofs::lemmas::Writer::fails_before, bt_lines::proofs::lemmas::Writer::puts_more))]
fn put_cut_beside<K: Sink>(
    a: &BedRef<'_>,
    start: u64,
    stop: u64,
    b: &BedRef<'_>,
    out: &mut Out<K>,
) -> Result<(), Fault>
    ensures { Puts out.old.output (line_with (bed_text (cut_to start stop (feature_lent a.now))
        ∷ bed_text (feature_lent b.now) ∷ [])) result out.new.output }
{
    put_cut(a, start, stop, b"\t", out)?;
    put_bed(b, b"\n", out)
}

// Puts a record and a number.
#[tactic(auto, using(std::proofs::lemmas::Result::err_from_is_err_and, bt_lines::proofs::lemmas::Writer::fails_before, bt_lines::proofs::lemmas::Writer::puts_more))]
fn put_counted<K: Sink>(a: &BedRef<'_>, count: u64, out: &mut Out<K>) -> Result<(), Fault>
    ensures { Puts out.old.output (line_with (bed_text (feature_lent a.now) ∷ decimal count ∷ [])) result out.new.output }
{
    put_bed(a, b"\t", out)?;
    put_number(count, b"\n", out)
}

// Puts two records beside one another.
#[tactic(auto, using(std::proofs::lemmas::Result::err_from_is_err_and, bt_lines::proofs::lemmas::Writer::fails_before, bt_lines::proofs::lemmas::Writer::puts_more))]
fn put_beside<K: Sink>(a: &BedRef<'_>, b: &BedRef<'_>, out: &mut Out<K>) -> Result<(), Fault>
    ensures { Puts out.old.output (line_with (bed_text (feature_lent a.now)
        ∷ bed_text (feature_lent b.now) ∷ [])) result out.new.output }
{
    put_bed(a, b"\t", out)?;
    put_bed(b, b"\n", out)
}

// Puts two records and a number.
#[tactic(auto, using(std::proofs::lemmas::Result::err_from_is_err_and, bt_lines::proofs::lemmas::Writer::fails_before, bt_lines::proofs::lemmas::Writer::puts_more))]
fn put_overlap<K: Sink>(
    a: &BedRef<'_>,
    b: &BedRef<'_>,
    count: u64,
    out: &mut Out<K>,
) -> Result<(), Fault>
    ensures { Puts out.old.output (line_with (bed_text (feature_lent a.now)
        ∷ bed_text (feature_lent b.now) ∷ decimal count ∷ [])) result out.new.output }
{
    put_bed(a, b"\t", out)?;
    put_counted(b, count, out)
}
