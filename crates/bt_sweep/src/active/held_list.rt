//! Held records in a queue.

ghost use Rattle.std.specs.Prelude.{◌≡◌, ◌<◌, ◌≤◌, ◌++◌, [], ◌∷◌, drop, false, filter, length, nat_le, nat_lt, option_copied, option_to_list, take, true};
ghost use Rattle.std.specs.List.{list_any, slice_get};
ghost use Rattle.std.specs.List.Sorted.{IsNonDecreasingBy, IsPartitionPoint};
ghost use Rattle.bt_bed.specs.model.Feature.{Feature};
ghost use Rattle.bt_sweep.specs.calls.Held.{HaveBases};

use crate::active::held::Held;
use bt_bed::Rec;
use std::alloc::Global;
use std::collections::VecDeque;

/// Held records as a queue of them. If they come by their starts, those that ended at a position are
/// dropped without a look at those that start there or after it.
#[derive(Drop, Debug)]
pub struct HeldList {
    // In file order.
    records: VecDeque<Rec>,
    // Whether they are known to come by their starts.
    rising: bool,
    ghost rises: { rising ≡ true → IsNonDecreasingBy (λ r. r.start) records.items },
    ghost bases: { HaveBases records.items },
}

impl HeldList {
    ghost use Rattle.std.specs.Prelude.{◌≡◌, [], IsTrue, false, filter, nat_lt};
    ghost use Rattle.bt_sweep.specs.calls.HeldList.{records_in};
    ghost use Rattle.bt_sweep.specs.inside.Held.{HasRoom};

    /// No record. It doesn't allocate.
    pub fn new(alloc: Global) -> HeldList
        ensures { records_in result ≡ [] }
    {
        HeldList {
            records: VecDeque::new(alloc),
            rising: true,
        }
    }

    // Whether they are known to come by their starts once this one is added.
    fn rises_to(&self, rec: &Rec) -> bool
        ensures { result ≡ true → IsNonDecreasingBy (λ r. r.start) (records_in self.now ++ rec.now ∷ []) }
    {
        match self.records.back() {
            None => true,
            Some(last) => self.rising && last.as_bed().start <= rec.as_bed().start,
        }
    }

    // Makes room for one more. It returns false if memory is refused.
    pub(crate) fn reserve_one(&mut self) -> bool
        ensures same { records_in self.new ≡ records_in self.old }
        ensures room { IsTrue result → HasRoom self.new }
    {
        self.records.try_reserve(1).is_ok()
    }

    // Adds a record after the others, for which there is room.
    pub(crate) fn push_reserved(&mut self, rec: Rec)
        requires { HasRoom self.old }
        ensures { records_in self.new ≡ records_in self.old ++ rec ∷ [] }
    {
        self.rising = self.rises_to(&rec);
        self.records.push_back_reserved(rec);
    }

    // Returns true if a record may have ended at the place.
    fn may_have_ended(&self, place: u64) -> bool
        ensures { result ≡ false → records_in self.now ≡ filter (λ r. nat_lt place r.stop) (records_in self.now) }
    {
        !self.rising || has_ended(&self.records, started_in(&self.records, place), place)
    }

    // Drops those that end at or before the place, in one pass.
    pub(crate) fn remove_ended(&mut self, place: u64)
        ensures { records_in self.new ≡ filter (λ r. nat_lt place r.stop) (records_in self.old) }
    {
        if !self.rising {
            self.records.retain(|record| place < record.as_bed().stop);
            return;
        }
        let count = started_in(&self.records, place);
        drop_ended_of(&mut self.records, count, place);
    }
}

impl Held for HeldList {
    ghost use Rattle.bt_sweep.specs.calls.HeldList.{records_in};

    ghost records = { records_in };

    fn push(&mut self, rec: Rec) -> Result<(), Rec> {
        if !self.reserve_one() {
            return Err(rec);
        }
        self.push_reserved(rec);
        Ok(())
    }

    fn drop_ended(&mut self, place: u64) {
        if self.may_have_ended(place) {
            self.remove_ended(place);
        }
    }

    fn clear(&mut self) {
        self.records.clear();
    }

    fn nth(&self, index: usize) -> Option<&Rec> {
        record_at(&self.records, index)
    }

    fn len(&self) -> usize {
        let HeldList { records, rising: _ } = self;
        records.len()
    }
}

// How many records there are before the first that starts at the place or after it. Those near the first one
// are tested first: each index is at most twice as great as the one before it.
#[tactic(auto, using(crate::proofs::lemmas::Active::come_to))]
fn started_in(records: &VecDeque<Rec>, place: u64) -> usize
    ensures within { result ≤ length records.now.items }
    ensures point { IsNonDecreasingBy (λ r. r.start) records.now.items
        → IsPartitionPoint (λ r. nat_lt r.start place ≡ true) (λ r. nat_lt r.start place ≡ false)
        records.now.items result }
{
    let mut low = 0;
    let mut high = records.len();
    while low < high {
        let middle = low + ((high - low) / 2).min(low);
        if starts_before(record_at(records, middle), place) {
            low = middle + 1;
        } else {
            high = middle;
        }
    }
    high
}

// Whether there is a record and it starts before the place.
fn starts_before(rec: Option<&Rec>, place: u64) -> bool
    ensures { result ≡ list_any (λ r. nat_lt r.start place) (option_to_list (option_copied rec.entry)) }
{
    match rec {
        None => false,
        Some(rec) => rec.as_bed().start < place,
    }
}

// The record at this index, if there is one.
fn record_at(records: &VecDeque<Rec>, index: usize) -> Option<&Rec>
    ensures { option_copied result ≡ slice_get records.now.items index }
{
    records.get(index)
}

// Whether one of the first `count` records ends at or before the place.
#[tactic(auto, using(crate::proofs::lemmas::Output::any_at, crate::proofs::lemmas::Output::get_took, crate::proofs::lemmas::Output::none_next))]
fn has_ended(records: &VecDeque<Rec>, count: usize, place: u64) -> bool
    ensures { result ≡ list_any (λ r. nat_le r.stop place) (take count records.now.items) }
{
    for index in 0..count {
        if ends_by(record_at(records, index), place) {
            return true;
        }
    }
    false
}

// Drops those of the first `count` records that end at or before the place. The others are moved
// after those that follow, and then back.
#[tactic(auto, using(crate::proofs::lemmas::Active::kept_next, crate::proofs::lemmas::Active::passed_next))]
#[inline(always)]
fn drop_ended_of(records: &mut VecDeque<Rec>, count: usize, place: u64)
    requires { count ≤ length records.old.items }
    ensures { records.new.items
        ≡ filter (λ r. nat_lt place r.stop) (take count records.old.items) ++ drop count records.old.items }
{
    let mut kept = 0;
    for _ in 0..count {
        kept += pass_first(records, place);
    }
    records.rotate_right(kept);
}

// Drops the first record if it ends at or before the place, and else moves it after the others.
// Returns how many were moved there.
fn pass_first(records: &mut VecDeque<Rec>, place: u64) -> usize
    ensures passed { records.new.items
        ≡ drop 1 records.old.items ++ filter (λ r. nat_lt place r.stop) (take 1 records.old.items) }
    ensures kept { result ≡ length (filter (λ r. nat_lt place r.stop) (take 1 records.old.items)) }
{
    if records.is_empty() {
        return 0;
    }
    if ends_by(records.front(), place) {
        records.pop_front();
        return 0;
    }
    records.rotate_left(1);
    1
}

// Whether there is a record and it ends at or before the place.
fn ends_by(rec: Option<&Rec>, place: u64) -> bool
    ensures { result ≡ list_any (λ r. nat_le r.stop place) (option_to_list (option_copied rec.entry)) }
{
    match rec {
        None => false,
        Some(rec) => rec.as_bed().stop <= place,
    }
}
