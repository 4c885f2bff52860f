//! Held records, and how many of them end at each position.

ghost use Rattle.std.specs.Prelude.{◌≡◌, ℕ, ◌+◌, ◌^◌, ◌<◌, ◌≤◌, IsSome, IsTrue, None, Some, cond, false, nat_lt, true, unwrap_or};
ghost use Rattle.std.specs.BTreeMap.{IsUnchanged, get, is_at};
ghost use Rattle.std.specs.Ordering.{nat_cmp};
ghost use Rattle.bt_sweep.specs.inside.Held.{CountsEnds};
ghost use Rattle.bt_sweep.specs.calls.HeldList.{records_in};

use crate::active::held::Held;
use crate::active::held_list::HeldList;
use bt_bed::Rec;
use std::alloc::Global;
use std::collections::BTreeMap;

/// Held records, with an ordered map from each end to the number of records that have it. While none
/// has ended, dropping looks at the least end alone.
#[derive(Drop)]
pub struct HeldIndex {
    // In file order.
    list: HeldList,
    // How many of them have each end.
    ends: BTreeMap<u64, usize>,
    ghost counts: { CountsEnds ends (records_in list) },
}

impl HeldIndex {
    ghost use Rattle.std.specs.Prelude.{◌≡◌, [], false, filter, nat_lt};
    ghost use Rattle.bt_sweep.specs.calls.HeldIndex.{indexed_records};

    /// No records. It doesn't allocate.
    pub fn new(alloc: Global) -> HeldIndex
        ensures { indexed_records result ≡ [] }
    {
        HeldIndex {
            list: HeldList::new(alloc),
            ends: BTreeMap::new(alloc),
        }
    }

    // Returns true if a record has ended at the place. It looks at the least end alone.
    #[inline(always)]
    fn has_ended(&self, place: u64) -> bool
        ensures { result ≡ false → indexed_records self.now ≡ filter (λ r. nat_lt place r.stop) (indexed_records self.now) }
    {
        has_end_by(&self.ends, place)
    }

    // Out of line, so that the test before it stays small.
    #[inline(never)]
    fn remove_ended(&mut self, place: u64)
        ensures { indexed_records self.new ≡ filter (λ r. nat_lt place r.stop) (indexed_records self.old) }
    {
        remove_ends(&mut self.ends, place);
        self.list.remove_ended(place);
    }
}

impl Held for HeldIndex {
    ghost use Rattle.bt_sweep.specs.calls.HeldIndex.{indexed_records};

    ghost records = { indexed_records };

    fn push(&mut self, rec: Rec) -> Result<(), Rec> {
        if !self.list.reserve_one() || !count_end(&mut self.ends, rec.as_bed().stop) {
            return Err(rec);
        }
        self.list.push_reserved(rec);
        Ok(())
    }

    #[inline(always)]
    fn drop_ended(&mut self, place: u64) {
        if self.has_ended(place) {
            self.remove_ended(place);
        }
    }

    fn clear(&mut self) {
        self.ends.clear();
        self.list.clear();
    }

    fn nth(&self, index: usize) -> Option<&Rec> {
        self.list.nth(index)
    }

    fn len(&self) -> usize {
        let HeldIndex { list, ends: _ } = self;
        list.len()
    }
}

// Counts one more end there. It returns false if that would have allocated and memory was refused.
fn count_end(ends: &mut BTreeMap<u64, usize>, stop: u64) -> bool
    requires { unwrap_or (get nat_cmp ends.old stop) 0 < 2 ^ 63 }
    ensures counted { IsTrue result → (end : ℕ) → get nat_cmp ends.new end
        ≡ cond (is_at (nat_cmp stop) end) (Some (unwrap_or (get nat_cmp ends.old stop) 0 + 1)) (get nat_cmp ends.old end) }
    ensures refused { result ≡ false → IsUnchanged ends.old ends.new }
{
    match ends.entry(stop) {
        Ok(entry) => {
            *entry.or_insert(0) += 1;
            true
        }
        Err(_) => false,
    }
}

// Returns true if the least end is at or before the place.
fn has_end_by(ends: &BTreeMap<u64, usize>, place: u64) -> bool
    ensures found { result ≡ true → (stop : ℕ) × IsSome (get nat_cmp ends.now stop) × (stop ≤ place) }
    ensures none { result ≡ false → (end : ℕ) → IsSome (get nat_cmp ends.now end) → place < end }
{
    match ends.first_key_value() {
        Some((stop, _)) => *stop <= place,
        None => false,
    }
}

// Removes the ends at or before the place.
fn remove_ends(ends: &mut BTreeMap<u64, usize>, place: u64)
    ensures { (end : ℕ) → get nat_cmp ends.new end ≡ cond (nat_lt place end) (get nat_cmp ends.old end) None }
{
    while has_end_by(ends, place) {
        ends.pop_first();
    }
}
