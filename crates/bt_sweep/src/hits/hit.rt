//! Which records hit one another.

ghost use Rattle.std.specs.Prelude.{◌≡◌, ◌≤◌, All, length, option_copied, option_to_list, take};
ghost use Rattle.std.specs.List.{list_any};
ghost use Rattle.bt_bed.specs.calls.Bed.{feature_lent};
ghost use Rattle.bt_bed.specs.model.Feature.{is_same_strand};
ghost use Rattle.bt_sweep.specs.model.Hits.{has_fraction, is_hit, hits_among, is_enough, shared_bases, strands_agree};
ghost use Rattle.bt_sweep.specs.calls.Held.{AreOn, AreRising, CanHit, StartBefore};

use crate::active::held::Held;
use crate::hits::hit_rule::HitRule;
use crate::hits::started::starts_from;
use bt_bed::{BedRef, Rec, Strand};

/// Whether two records of one chromosome hit one another by a rule. Those that share no base are found by two
/// comparisons.
#[tactic(auto, unfolding(crate::specs::model::Hits::is_hit))]
pub fn is_hit(rule: HitRule, a: &BedRef<'_>, b: &BedRef<'_>) -> bool
    requires { b.now.chrom.now ≡ a.now.chrom.now }
    ensures { result ≡ is_hit rule (feature_lent a.now) (feature_lent b.now) }
{
    a.start < b.stop && b.start < a.stop && strands_agree(rule, a, b) && shares_enough(rule, a, b)
}

// Whether two records of one chromosome share as many bases as the rule requires. If it requires no
// fraction, no length is computed.
#[tactic(auto, using(crate::proofs::lemmas::definitions::HitLemmas::enough_of_nothing))]
fn shares_enough(rule: HitRule, a: &BedRef<'_>, b: &BedRef<'_>) -> bool
    requires { b.now.chrom.now ≡ a.now.chrom.now }
    ensures { result ≡ is_enough rule (shared_bases (feature_lent a.now) (feature_lent b.now))
        (feature_lent a.now) (feature_lent b.now) }
{
    if rule.billionths == 0 {
        return true;
    }
    is_enough(rule, common_bases(a, b), a, b)
}

// How many bases two records of one chromosome have in common.
fn common_bases(a: &BedRef<'_>, b: &BedRef<'_>) -> u64
    requires { b.now.chrom.now ≡ a.now.chrom.now }
    ensures { result ≡ shared_bases (feature_lent a.now) (feature_lent b.now) }
{
    a.stop.min(b.stop).saturating_sub(a.start.max(b.start))
}

// Whether the strands of two records are what the rule requires.
#[tactic(auto, unfolding(crate::specs::model::Hits::strands_agree))]
pub(crate) fn strands_agree(rule: HitRule, a: &BedRef<'_>, b: &BedRef<'_>) -> bool
    ensures { result ≡ strands_agree rule (feature_lent a.now) (feature_lent b.now) }
{
    !rule.same_strand || is_same_strand(a.strand, b.strand)
}

// Whether two strands are equal.
fn is_same_strand(first: Strand, second: Strand) -> bool
    ensures { result ≡ is_same_strand first second }
{
    first == second
}

// Whether this many bases are as much of the first record as the rule requires, and of the second if
// it requires both.
#[tactic(auto, unfolding(crate::specs::model::Hits::is_enough))]
pub(crate) fn is_enough(rule: HitRule, bases: u64, a: &BedRef<'_>, b: &BedRef<'_>) -> bool
    ensures { result ≡ is_enough rule bases (feature_lent a.now) (feature_lent b.now) }
{
    has_fraction(rule.billionths, bases, a)
        && (!rule.both || has_fraction(rule.billionths, bases, b))
}

// Whether this many bases are at least this many billionths of a record's. The products may exceed 64 bits.
#[tactic(auto, unfolding(crate::specs::model::Hits::has_fraction))]
fn has_fraction(billionths: u64, bases: u64, a: &BedRef<'_>) -> bool
    ensures { result ≡ has_fraction billionths bases (feature_lent a.now) }
{
    let length = a.stop.saturating_sub(a.start);
    billionths as u128 * length as u128 <= bases as u128 * 1_000_000_000
}

// Whether a held record, if there is one, hits the record.
fn is_hit_by(rule: HitRule, a: &BedRef<'_>, b: Option<&Rec>) -> bool
    requires { AreOn a.now.chrom.now (option_to_list (option_copied b)) }
    ensures { result ≡ list_any (is_hit rule (feature_lent a.now)) (option_to_list (option_copied b.entry)) }
{
    match b {
        None => false,
        Some(b) => is_hit(rule, a, &b.as_bed()),
    }
}

// Whether one of the held records hits the record, if they come by their starts. None is tested after
// the first one that hits it, nor after the first one that starts at its end or after it.
#[tactic(auto, using(crate::proofs::lemmas::Output::any_at, crate::proofs::lemmas::Output::none_next, crate::proofs::lemmas::definitions::HitLemmas::none_left, crate::proofs::lemmas::Output::start_behind))]
pub(crate) fn is_any_hit<H: Held>(rule: HitRule, a: &BedRef<'_>, held: &H) -> bool
    requires { AreOn a.now.chrom.now (H.records held.now) }
    ensures { AreRising (H.records held.now)
        → result ≡ list_any (is_hit rule (feature_lent a.now)) (H.records held.now) }
{
    for index in 0..held.len() {
        let b = held.nth(index);
        if is_hit_by(rule, a, b) {
            return true;
        }
        if starts_from(b, a.stop) {
            return false;
        }
    }
    false
}

// How many of the first `count` held records hit the record, if they start before its end. If
// one shared base is enough, all of them do, since those that ended before it were dropped.
#[tactic(auto, using(crate::proofs::lemmas::Output::all_hit, crate::proofs::lemmas::Output::on_name))]
#[inline(always)]
pub(crate) fn count_started_hits<H: Held>(
    rule: HitRule,
    a: &BedRef<'_>,
    held: &H,
    count: usize,
) -> usize
    requires can_hit { All (CanHit (feature_lent a.now)) (H.records held.now) }
    requires within { count ≤ length (H.records held.now) }
    ensures { StartBefore a.now.stop (take count (H.records held.now))
        → result ≡ length (hits_among rule (feature_lent a.now) (take count (H.records held.now))) }
{
    if rule.is_any_overlap() {
        return count;
    }
    count_hits(rule, a, held, count)
}

// How many of the first `count` held records hit the record.
fn count_hits<H: Held>(rule: HitRule, a: &BedRef<'_>, held: &H, count: usize) -> usize
    requires { AreOn a.now.chrom.now (H.records held.now) }
    ensures { result ≡ length (hits_among rule (feature_lent a.now) (take count (H.records held.now))) }
{
    let mut hits = 0;
    for index in 0..count {
        if is_hit_by(rule, a, held.nth(index)) {
            hits += 1;
        }
    }
    hits
}
