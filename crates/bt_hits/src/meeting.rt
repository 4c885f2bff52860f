//! Which records of the second input can hit one of the first.

ghost use Rattle.std.specs.Prelude.{◌≡◌, ◌≤◌, IfOk, IsTrue, IfSome, drop, filter, length, not, true};
ghost use Rattle.std.specs.List.{slice_get};
ghost use Rattle.std.specs.Option.{option_copied};
ghost use Rattle.bt_bed.specs.calls.Bed.{feature_lent};
ghost use Rattle.bt_sweep.specs.model.Hits.{decides};
ghost use Rattle.bt_hits.specs.inside.Meeting.{AreWithin, Comes, FirstDecides, IsUndecided, KnownAll, MovesUpTo, comes_by, is_passed, records_near};

use crate::reading::record_at;
use bt_bed::{ChromOrder, Rec};
use std::alloc::AllocError;
use std::cmp::Ordering;
use std::collections::VecDeque;

// The active records, and as many of those that come next as may hit it too.
#[derive(Clone, Copy)]
pub(crate) struct Near<'a> {
    pub active: &'a [Rec],
    pub rest: &'a VecDeque<Rec>,
    pub ahead: usize,
}

impl<'a> Near<'a> {
    // How many there are.
    pub(crate) fn len(&self) -> usize
        requires { AreWithin self.now }
        ensures { result ≡ length (records_near self.now) }
    {
        self.active.len() + self.ahead
    }

    // The one at this index, if there is one.
    pub(crate) fn nth(&self, index: usize) -> Option<&'a Rec>
        ensures { option_copied result ≡ slice_get (records_near self.now) index }
    {
        let count = self.active.len();
        if index < count {
            return nth_of(self.active, index);
        }
        if index - count < self.ahead {
            return record_at(self.rest, index - count);
        }
        None
    }
}

// Moves records of the second input to the active ones, up to the first that starts after this record of the first. Those that
// are moved have started for each later record too.
pub(crate) fn take_up_to<O: ChromOrder>(
    order: &O,
    a: &Rec,
    rest: &mut VecDeque<Rec>,
    active: &mut Vec<Rec>,
) -> Result<(), AllocError>
    requires known { IsTrue ((O.order order.now).knows a.now.chrom) }
    requires all { KnownAll (O.order order.now) rest.old.items }
    ensures { IfOk result (λ _. MovesUpTo (O.order order.now) a.now active.old.items rest.old.items active.new.items
        rest.new.items) }
{
    while comes(order, a, rest.front()) {
        let Some(b) = rest.pop_front() else {
            return Ok(());
        };
        active.push(b)?;
    }
    Ok(())
}

// Whether there is a record and it comes at the place of that of the first input, or before.
fn comes<O: ChromOrder>(order: &O, a: &Rec, b: Option<&Rec>) -> bool
    requires known { IsTrue ((O.order order.now).knows a.now.chrom) }
    requires other { IfSome (option_copied b) (λ b. IsTrue ((O.order order.now).knows b.chrom)) }
    ensures { Comes (O.order order.now) a.now (option_copied b.entry) result }
{
    match b {
        Some(b) => comes_by(order, a, b),
        None => false,
    }
}

// Whether b comes at the place of a, or before.
fn comes_by<O: ChromOrder>(order: &O, a: &Rec, b: &Rec) -> bool
    requires known { IsTrue ((O.order order.now).knows a.now.chrom) }
    requires other { IsTrue ((O.order order.now).knows b.now.chrom) }
    ensures { result ≡ comes_by (O.order order.now) a.now b.now }
{
    let (a, b) = (a.as_bed(), b.as_bed());
    if b.chrom == a.chrom {
        return b.start <= a.start;
    }
    order.compare(b.chrom, a.chrom) == Ordering::Less
}

// How many of the records that come next are before the first that decides this one.
pub(crate) fn count_undecided<O: ChromOrder>(order: &O, a: &Rec, rest: &VecDeque<Rec>) -> usize
    requires known { IsTrue ((O.order order.now).knows a.now.chrom) }
    requires all { KnownAll (O.order order.now) rest.now.items }
    ensures within { result ≤ length rest.now.items }
    ensures reached { FirstDecides (O.order order.now) a.now (drop result rest.now.items) }
{
    for index in 0..rest.len() {
        if !is_undecided(order, a, record_at(rest, index)) {
            return index;
        }
    }
    rest.len()
}

// Whether there is a record and it doesn't decide that of the first input.
fn is_undecided<O: ChromOrder>(order: &O, a: &Rec, b: Option<&Rec>) -> bool
    requires known { IsTrue ((O.order order.now).knows a.now.chrom) }
    requires other { IfSome (option_copied b) (λ b. IsTrue ((O.order order.now).knows b.chrom)) }
    ensures { IsUndecided (O.order order.now) a.now (option_copied b.entry) result }
{
    match b {
        Some(b) => !decides(order, a, b),
        None => false,
    }
}

// Whether nothing from b on can hit a.
fn decides<O: ChromOrder>(order: &O, a: &Rec, b: &Rec) -> bool
    requires known { IsTrue ((O.order order.now).knows a.now.chrom) }
    requires other { IsTrue ((O.order order.now).knows b.now.chrom) }
    ensures { result ≡ decides (O.order order.now) a.now b.now }
{
    let (a, b) = (a.as_bed(), b.as_bed());
    if b.chrom == a.chrom {
        return a.stop <= b.start;
    }
    order.compare(b.chrom, a.chrom) == Ordering::Greater
}

// Drops those that can't hit the record, nor one that follows it.
pub(crate) fn drop_passed<O: ChromOrder>(order: &O, a: &Rec, active: &mut Vec<Rec>)
    ensures { active.new.items ≡ filter (λ b. not (is_passed (O.order order.now) a.now b)) active.old.items }
{
    active.retain(|b| !is_passed(order, a, b));
}

// Whether b can't hit a, nor a record that follows it.
fn is_passed<O: ChromOrder>(order: &O, a: &Rec, b: &Rec) -> bool
    ensures { result ≡ is_passed (O.order order.now) a.now b.now }
{
    let (a, b) = (a.as_bed(), b.as_bed());
    if b.chrom == a.chrom {
        return b.stop <= a.start;
    }
    !order.knows(b.chrom)
        || !order.knows(a.chrom)
        || order.compare(b.chrom, a.chrom) == Ordering::Less
}

// The record at this index, if there is one.
fn nth_of(held: &[Rec], index: usize) -> Option<&Rec>
    ensures { option_copied result ≡ slice_get held.now index }
{
    held.get(index)
}
