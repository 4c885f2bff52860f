//! Intersect and subtract by comparing all pairs of records: slow, and plainly what the definition
//! says. Tests compare the sweep with it.

pub(crate) mod plain_pieces;

ghost use Rattle.std.specs.Prelude.{◌≡◌, ◌∷◌, ◌++◌, [], OnOk, IfOk, decimal, filter, flat_map, length};
ghost use Rattle.bt_bed.specs.calls.Bed.{feature_lent};
ghost use Rattle.bt_bed.specs.model.BedLine.{bed_text, cut_to};
ghost use Rattle.bt_sweep.specs.model.Hits.{is_hit, hits_among, shared_bases};
ghost use Rattle.bt_sweep.specs.model.Lines.{hit_line, intersect, line_with, lines_for, piece_line, pieces};

use crate::hits::hit::{is_enough, strands_agree};
use crate::hits::hit_rule::HitRule;
use crate::output::shape::Shape;
use crate::plain::plain_pieces::find_pieces;
use bt_bed::{BedRef, Rec, write_bed, write_cut};
use itoa::Buffer;
use std::alloc::{AllocError, Global};

/// What intersect writes of two lists of records, which may come in any order.
pub(crate) fn plain_intersect(
    alloc: Global,
    shape: Shape,
    rule: HitRule,
    first: &[Rec],
    second: &[Rec],
) -> Result<Vec<u8>, AllocError>
    ensures { IfOk result (λ v. v.items ≡ intersect shape rule first.now second.now) }
{
    let mut text = Vec::new(alloc);
    for a in first {
        write_lines(shape, rule, a, second, &mut text)?;
    }
    Ok(text)
}

// Adds what is written of a record against these.
#[tactic(auto, using(std::proofs::lemmas::Result::on_ok_weaker, crate::proofs::lemmas::Plain::all_pieces, crate::proofs::lemmas::Plain::count_all, crate::proofs::lemmas::Plain::each_hit, crate::proofs::lemmas::Plain::once_some, crate::proofs::lemmas::Plain::missing_none))]
fn write_lines(
    shape: Shape,
    rule: HitRule,
    a: &Rec,
    second: &[Rec],
    text: &mut Vec<u8>,
) -> Result<(), AllocError>
    ensures { OnOk result (text.new.items ≡ text.old.items ++ lines_for shape rule a.now second.now) }
{
    let count = count_hits(rule, a, second);
    let a = a.as_bed();
    match shape {
        Shape::Once if count == 0 => Ok(()),
        Shape::Once => write_line(&a, a.start, a.stop, text),
        Shape::Missing | Shape::Whole if count == 0 => write_line(&a, a.start, a.stop, text),
        Shape::Missing | Shape::Whole => Ok(()),
        Shape::Count => write_counted(&a, count as u64, text),
        Shape::Cut | Shape::OrigA | Shape::CutAndB | Shape::OrigBoth | Shape::Overlap => {
            write_hits(shape, rule, &a, second, text)
        }
        Shape::Pieces => write_pieces(rule, &a, second, text),
    }
}

// How many of these records hit the record.
fn count_hits(rule: HitRule, a: &Rec, second: &[Rec]) -> usize
    ensures { result ≡ length (hits_among rule a.now second.now) }
{
    second
        .iter()
        .filter(|b| is_hit(rule, &a.as_bed(), &b.as_bed()))
        .count()
}

// Whether the second record is a hit of the first: they share a base, and as much as the rule requires.
#[tactic(auto, unfolding(crate::specs::model::Hits::is_hit))]
pub(crate) fn is_hit(rule: HitRule, a: &BedRef<'_>, b: &BedRef<'_>) -> bool
    ensures { result ≡ is_hit rule (feature_lent a.now) (feature_lent b.now) }
{
    let bases = shared(a, b);
    bases > 0 && strands_agree(rule, a, b) && is_enough(rule, bases, a, b)
}

// How many bases two records have in common.
fn shared(a: &BedRef<'_>, b: &BedRef<'_>) -> u64
    ensures { result ≡ shared_bases (feature_lent a.now) (feature_lent b.now) }
{
    if a.chrom == b.chrom {
        a.stop.min(b.stop).saturating_sub(a.start.max(b.start))
    } else {
        0
    }
}

// Adds a line for each of these records that hits the record.
fn write_hits(
    shape: Shape,
    rule: HitRule,
    a: &BedRef<'_>,
    second: &[Rec],
    text: &mut Vec<u8>,
) -> Result<(), AllocError>
    ensures { OnOk result (text.new.items ≡ text.old.items
        ++ flat_map (hit_line shape (feature_lent a.now)) (hits_among rule (feature_lent a.now) second.now)) }
{
    for b in second {
        let b = b.as_bed();
        if is_hit(rule, a, &b) {
            write_hit(shape, a, &b, text)?;
        }
    }
    Ok(())
}

// Adds the line of two records that hit one another, in a shape that has one for each.
fn write_hit(
    shape: Shape,
    a: &BedRef<'_>,
    b: &BedRef<'_>,
    text: &mut Vec<u8>,
) -> Result<(), AllocError>
    ensures { OnOk result (text.new.items
        ≡ text.old.items ++ hit_line shape (feature_lent a.now) (feature_lent b.now)) }
{
    let start = a.start.max(b.start);
    let stop = a.stop.min(b.stop);
    match shape {
        Shape::Cut => write_line(a, start, stop, text),
        Shape::OrigA => write_line(a, a.start, a.stop, text),
        Shape::CutAndB => write_pair(a, start, stop, b, text),
        Shape::OrigBoth => write_pair(a, a.start, a.stop, b, text),
        Shape::Overlap => write_overlap(a, b, shared(a, b), text),
        Shape::Once | Shape::Missing | Shape::Count | Shape::Pieces | Shape::Whole => Ok(()),
    }
}

// Adds a line for each piece of the record that those which hit it leave.
fn write_pieces(
    rule: HitRule,
    a: &BedRef<'_>,
    second: &[Rec],
    text: &mut Vec<u8>,
) -> Result<(), AllocError>
    ensures { OnOk result (text.new.items ≡ text.old.items ++ flat_map (piece_line (feature_lent a.now))
        (pieces (feature_lent a.now) (hits_among rule (feature_lent a.now) second.now))) }
{
    let mut found = find_pieces(*text.allocator(), rule, a, second)?;
    while let Some((start, stop)) = found.pop() {
        write_line(a, start, stop, text)?;
    }
    Ok(())
}

// Adds the line of a part of a record.
fn write_line(a: &BedRef<'_>, start: u64, stop: u64, text: &mut Vec<u8>) -> Result<(), AllocError>
    ensures { OnOk result (text.new.items
        ≡ text.old.items ++ line_with (bed_text (cut_to start stop (feature_lent a.now)) ∷ [])) }
{
    write_cut(a, start, stop, text)?;
    text.extend_from_slice(b"\n")
}

// Adds the line of a part of a record and of another record.
fn write_pair(
    a: &BedRef<'_>,
    start: u64,
    stop: u64,
    b: &BedRef<'_>,
    text: &mut Vec<u8>,
) -> Result<(), AllocError>
    ensures { OnOk result (text.new.items ≡ text.old.items
        ++ line_with (bed_text (cut_to start stop (feature_lent a.now)) ∷ bed_text (feature_lent b.now) ∷ [])) }
{
    write_cut(a, start, stop, text)?;
    text.extend_from_slice(b"\t")?;
    write_line(b, b.start, b.stop, text)
}

// Adds the line of two records and a number.
#[tactic(auto, using(std::proofs::lemmas::Result::on_ok_weaker, crate::proofs::lemmas::Plain::tabbed))]
fn write_overlap(
    a: &BedRef<'_>,
    b: &BedRef<'_>,
    count: u64,
    text: &mut Vec<u8>,
) -> Result<(), AllocError>
    ensures { OnOk result (text.new.items ≡ text.old.items ++ line_with (bed_text (feature_lent a.now)
        ∷ bed_text (feature_lent b.now) ∷ decimal count ∷ [])) }
{
    write_bed(a, text)?;
    text.extend_from_slice(b"\t")?;
    write_counted(b, count, text)
}

// Adds the line of a record and a number.
fn write_counted(a: &BedRef<'_>, count: u64, text: &mut Vec<u8>) -> Result<(), AllocError>
    ensures { OnOk result (text.new.items ≡ text.old.items
        ++ line_with (bed_text (feature_lent a.now) ∷ decimal count ∷ [])) }
{
    write_bed(a, text)?;
    text.extend_from_slice(b"\t")?;
    write_number(count, text)
}

// Adds a number and a line feed.
fn write_number(number: u64, text: &mut Vec<u8>) -> Result<(), AllocError>
    ensures { OnOk result (text.new.items ≡ text.old.items ++ line_with (decimal number ∷ [])) }
{
    let mut digits = Buffer::new();
    text.extend_from_slice(digits.format(number).as_bytes())?;
    text.extend_from_slice(b"\n")
}

#[cfg(test)]
mod tests;
