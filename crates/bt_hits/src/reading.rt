//! The records of a text in memory.

ghost use Rattle.std.specs.Prelude.{◌≡◌, IfOk, Ok, Some, true};
ghost use Rattle.std.specs.List.{slice_get};
ghost use Rattle.std.specs.Option.{option_copied};
ghost use Rattle.bt_bed.specs.calls.Bed.{feature_lent};
ghost use Rattle.bt_bed.specs.calls.Orders.{ArePlaced};
ghost use Rattle.bt_bed.specs.model.Feature.{intervals_of};
ghost use Rattle.bt_bed.specs.model.Good.{in_order};
ghost use Rattle.bt_bed.specs.model.Sorted.{sorting_of};
ghost use Rattle.bt_hits.specs.calls.Listing.{AreRecordsOf};
ghost use Rattle.bt_hits.specs.inside.Reading.{AddsLine, last_in, place_of};

use bt_bed::{BedRef, ChromOrder, Rec, parse_bed};
use bt_lines::{length_before, without_return};
use std::alloc::Global;
use std::cmp::Ordering;
use std::collections::VecDeque;

/// Why the records of a text aren't given.
#[derive(Clone, Copy, Debug, PartialEq, Eq)]
pub enum Unread {
    /// Memory ran out.
    NoMemory,
    /// A line is at fault.
    Fault,
}

/// The records of a text, which are sorted in an order of their chromosomes. It fails if a line is at fault, or memory runs out.
pub fn records_of<O: ChromOrder>(
    alloc: Global,
    order: &O,
    text: &[u8],
) -> Result<VecDeque<Rec>, Unread>
    ensures records { IfOk result (λ records. AreRecordsOf (O.order order.now) text.now records.items) }
    ensures placed { IfOk result (λ records. ArePlaced (O.order order.now) (intervals_of records.items)) }
{
    let mut records = VecDeque::new(alloc);
    let mut rest = text;
    loop {
        let count = length_before(b'\n', rest);
        read_line(alloc, order, without_return(&rest[..count]), &mut records)?;
        if count == rest.len() {
            return Ok(records);
        }
        rest = &rest[count + 1..];
    }
}

// Adds the record of a line, if it says one.
fn read_line<O: ChromOrder>(
    alloc: Global,
    order: &O,
    line: &[u8],
    records: &mut VecDeque<Rec>,
) -> Result<(), Unread>
    ensures { IfOk result (λ _. AddsLine (sorting_of (O.order order.now)) records.old.items line.now records.new.items) }
{
    let bed = match parse_bed(line) {
        Ok(Some(bed)) => bed,
        Ok(None) => return Ok(()),
        Err(_) => return Err(Unread::Fault),
    };
    if !comes_after(order, last_of(records), &bed) {
        return Err(Unread::Fault);
    }
    let Ok(rec) = bed.to_rec(alloc) else {
        return Err(Unread::NoMemory);
    };
    if records.push_back(rec).is_err() {
        return Err(Unread::NoMemory);
    }
    Ok(())
}

// The last of these, if there is one.
#[tactic(auto, using(crate::proofs::lemmas::Reading::last_got))]
fn last_of(records: &VecDeque<Rec>) -> Option<&Rec>
    ensures { option_copied result ≡ last_in records.now.items }
{
    record_at(records, records.len().saturating_sub(1))
}

// The record at this index, if there is one.
pub(crate) fn record_at(records: &VecDeque<Rec>, index: usize) -> Option<&Rec>
    ensures { option_copied result ≡ slice_get records.now.items index }
{
    records.get(index)
}

// Whether a record comes after the last one, if there is one, in an order of their chromosomes that knows both.
fn comes_after<O: ChromOrder>(order: &O, last: Option<&Rec>, bed: &BedRef<'_>) -> bool
    ensures { result ≡ true → in_order (sorting_of (O.order order.now)) (place_of (option_copied last.entry)) (feature_lent bed.now)
        ≡ Ok (Some (feature_lent bed.now)) }
{
    if !order.knows(bed.chrom) {
        return false;
    }
    let Some(last) = last else {
        return true;
    };
    let last = last.as_bed();
    if last.chrom == bed.chrom {
        return last.start <= bed.start;
    }
    order.knows(last.chrom) && order.compare(bed.chrom, last.chrom) != Ordering::Less
}
