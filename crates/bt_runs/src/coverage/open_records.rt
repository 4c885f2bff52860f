//! The counted records that are open at a position of a chromosome.

ghost use Rattle.std.specs.Prelude.{◌≡◌, ◌≤◌, [], ◌∷◌, ◌++◌, All, MatchBool, OnOk, length, max};
ghost use Rattle.std.specs.BinaryHeap.{heap_items};
ghost use Rattle.bt_runs.specs.inside.Coverage.{CountsFrom, IsLeastFirst, StartsBelow, ends_of, still_open};

use crate::coverage::counted_spans::CountedSpans;
use bt_bed::Bounds;
use std::alloc::{AllocError, Global};
use std::cmp::Reverse;
use std::collections::BinaryHeap;
use std::marker::Model;

// The counted records of a chromosome that are open: they start at a position or before it, and end there or past it. They may
// cover positions to come. In memory there are their ends alone.
#[derive(Drop, Debug)]
pub(crate) struct OpenRecords {
    // The position, on a chromosome that its owner knows. Only `clear` lowers it.
    at: u64,
    // The end of each, the least first.
    ends: BinaryHeap<Reverse<u64>>,
    // They and those that have ended.
    counted: CountedSpans,
}

impl Model for OpenRecords {
    ghost use Rattle.std.specs.BinaryHeap.{heap_items};
    ghost use Rattle.bt_runs.specs.inside.Coverage.{KeepsEnds, OpenAt, still_open};

    ghost Value = { OpenAt };

    ghost view = { λ m. record { at = m.at; spans = still_open m.at m.counted.spans } };

    ghost invariant = { λ m. KeepsEnds m.at m.counted.spans (heap_items m.ends) };
}

impl OpenRecords {
    // None is open at the first position.
    pub(crate) fn new(alloc: Global) -> OpenRecords
        ensures { result ≡ record { at = 0; spans = [] } }
    {
        OpenRecords {
            at: 0,
            ends: BinaryHeap::new(alloc),
            counted: CountedSpans::new(),
        }
    }

    // The position.
    pub(crate) fn at(&self) -> u64
        ensures { result ≡ self.now.at }
    {
        self.at
    }

    // How many are open. Each field is named: with one more, in which a list could be kept, this wouldn't compile.
    #[inline(always)]
    pub(crate) fn len(&self) -> usize
        ensures { result ≡ length self.now.spans }
    {
        let OpenRecords {
            at: _,
            ends,
            counted,
        } = self;
        let CountedSpans {} = counted;
        ends.len()
    }

    // Goes to a position at which none is open.
    pub(crate) fn clear(&mut self, at: u64)
        ensures { self.new ≡ record { at = at; spans = [] } }
    {
        self.at = at;
        self.ends.clear();
        self.counted = CountedSpans::new();
    }

    // Goes on to a position. Those that end before it are open no more.
    #[inline(always)]
    #[tactic(auto, using(crate::proofs::lemmas::coverage::OpenLemmas::open_after, crate::proofs::lemmas::coverage::OpenLemmas::open_started))]
    pub(crate) fn go_on(&mut self, position: u64)
        ensures at { self.new ≡ record { at = max self.old.at position; spans = still_open (max self.old.at position) self.old.spans } }
        ensures started { All (λ s. s.start ≤ self.old.at) self.old.spans }
    {
        self.at = self.at.max(position);
        if begins_before(&self.ends, self.at) {
            pop_before(&mut self.ends, self.at);
        }
    }

    // The first position at which one ends, but no more than `stop`. What is written needs no more than
    // that none ends before it.
    #[inline(always)]
    pub(crate) fn first_end(&self, stop: u64) -> u64
        ensures within { result ≤ stop }
        ensures ends { All (λ s. result ≤ s.stop) self.now.spans }
        ensures behind { self.now.at ≤ stop → self.now.at ≤ result }
    {
        match self.ends.peek() {
            Some(Reverse(end)) => stop.min(*end),
            None => stop,
        }
    }

    // Adds a record that starts at the position, if it is open there. The contracts of std don't say when a heap can't
    // grow: `test_sizes.py` tries that memory runs out only if a growth was refused.
    #[inline(always)]
    pub(crate) fn push(&mut self, stop: u64) -> Result<(), AllocError>
        ensures added { OnOk result (self.new ≡ record { at = self.old.at; spans = self.old.spans ++ still_open self.old.at (record { start = self.old.at; stop = stop } ∷ []) }) }
    {
        if stop < self.at {
            return Ok(());
        }
        self.ends.push(Reverse(stop))?;
        let next = Bounds {
            start: self.at,
            stop,
        };
        self.counted = self.counted.with(&next);
        Ok(())
    }
}

// Takes out the ends that lie before a position. It is out of line, so that the test before it stays small.
#[inline(never)]
fn pop_before(ends: &mut BinaryHeap<Reverse<u64>>, position: u64)
    requires { IsLeastFirst (heap_items ends.old) }
    ensures order { IsLeastFirst (heap_items ends.new) }
    ensures counts { CountsFrom position (ends_of (heap_items ends.old)) (ends_of (heap_items ends.new)) }
    ensures left { All (λ end. position ≤ end) (ends_of (heap_items ends.new)) }
{
    while begins_before(ends, position) {
        ends.pop();
    }
}

// Whether the least end lies before a position.
#[inline(always)]
fn begins_before(ends: &BinaryHeap<Reverse<u64>>, position: u64) -> bool
    requires { IsLeastFirst (heap_items ends.now) }
    ensures { MatchBool result (StartsBelow position (ends_of (heap_items ends.now))) (All (λ end. position ≤ end) (ends_of (heap_items ends.now))) }
{
    match ends.peek() {
        Some(Reverse(end)) => *end < position,
        None => false,
    }
}
