//! How many records that come by their starts begin before a position.

ghost use Rattle.std.specs.Prelude.{◌≡◌, ◌≤◌, drop, length, nat_le, option_copied, option_to_list, take};
ghost use Rattle.std.specs.List.{list_any};
ghost use Rattle.bt_sweep.specs.calls.Held.{AreRising, StartBefore, StartFrom};

use crate::active::held::Held;
use bt_bed::Rec;

// How many held records there are before the first one that starts at the place or after it, if they
// come by their starts. The last record is tested first, since mostly it starts before the place, and
// then those near the first one. Each index that is tested is at most one more than twice the one
// before it.
#[tactic(auto, using(crate::proofs::lemmas::Output::start_ahead, crate::proofs::lemmas::Output::start_behind))]
pub(crate) fn count_started<H: Held>(held: &H, place: u64) -> usize
    ensures within { result ≤ length (H.records held.now) }
    ensures before { AreRising (H.records held.now) → StartBefore place (take result (H.records held.now)) }
    ensures rest { AreRising (H.records held.now) → StartFrom place (drop result (H.records held.now)) }
{
    let mut high = held.len();
    if high == 0 {
        return 0;
    }
    if !starts_from(held.nth(high - 1), place) {
        return high;
    }
    let mut low = 0;
    while low < high {
        let middle = low + ((high - low) / 2).min(low.saturating_sub(1));
        if starts_from(held.nth(middle), place) {
            high = middle;
        } else {
            low = middle + 1;
        }
    }
    high
}

// Whether there is a record and it starts at the place or after it.
pub(crate) fn starts_from(rec: Option<&Rec>, place: u64) -> bool
    ensures { result ≡ list_any (λ r. nat_le place r.start) (option_to_list (option_copied rec.entry)) }
{
    match rec {
        None => false,
        Some(rec) => place <= rec.as_bed().start,
    }
}
