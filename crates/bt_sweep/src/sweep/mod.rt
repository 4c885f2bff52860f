//! The sweep over two sorted inputs.

pub(crate) mod pending;
pub(crate) mod relation;
pub(crate) mod state;

ghost use Rattle.std.specs.Prelude.{◌≡◌, IsTrue, Some};
ghost use Rattle.bt_bed.specs.model.Feature.{Feature};

use crate::active::held::Held;
use crate::hits::hit_rule::HitRule;
use crate::output::shape::Shape;
use crate::sweep::pending::Pending;
use crate::sweep::relation::{Relation, relation_of};
use crate::sweep::state::{State, skip};
use bt_bed::{BedRef, ChromOrder, Cursor, Record, Single, Taken};
use bt_lines::{Fault, Out, Sink};
use std::alloc::Global;

/// What a sweep wants next: a record of an input or its end.
#[derive(Clone, Copy, Debug, PartialEq, Eq)]
pub enum Want {
    /// The first input.
    A,
    /// The second input.
    B,
    /// Nothing more: the first input has ended, or a fault was returned.
    Nothing,
}

/// Compares two inputs that are sorted in one order of the chromosomes, and writes the lines of each
/// record of the first as soon as no later record of the second can hit it. It is given what it wants
/// ([`Sweep::want`]): the records of an input one after another, none below the one before it, by
/// chromosome and then by start, and at last its end. It holds the records of the second input that lie
/// on the chromosome of the record of the first given last and end above its start. A first fault ends
/// it: then it wants nothing.
#[derive(Drop)]
pub struct Sweep<'o, H: Held, O: ChromOrder> {
    // Knows the chromosome of each record given.
    order: &'o O,
    // Always valid; after a fault it wants nothing.
    state: State<H>,
    ghost known: { (a : Feature) → state.current ≡ Some a
        → IsTrue ((O.order order.now).knows a.chrom) },
}

impl<'o, H: Held, O: ChromOrder> Sweep<'o, H, O> {
    ghost use Rattle.std.specs.Prelude.{◌≡◌, ℕ, All, List, [], IsOk, IsTrue, None, OnErr, OnOk, Option, Some, is_some};
    ghost use Rattle.bt_bed.specs.calls.Bed.{feature_lent};
    ghost use Rattle.bt_bed.specs.model.Order.{Order};
    ghost use Rattle.bt_sweep.specs.calls.Sweeping.{IsInOrder, MovesTo, StandsAt, held_for, last_given, with_a, EndsB, GivesA, GivesB, AdvancesOn, IsThis, Settles, GivesKnown, LeavesLast, want_in, want_of, no_cursor};
    ghost use Rattle.bt_bed.specs.calls.Stage.{at_start, given, Stage, with_first_ended, with_second};
    ghost use Rattle.bt_sweep.specs.calls.SweepView.{order_of, state_of};
    ghost use Rattle.bt_sweep.specs.calls.Held.{CanHit};
    ghost use Rattle.bt_sweep.specs.inside.Joining.{Joins, going_on, line_in, lines_pending, stands};

    /// A sweep that was given nothing, over an empty list of held records. With a limit no more records
    /// than that are held. It doesn't allocate.
    pub fn new(
        alloc: Global,
        held: H,
        shape: Shape,
        rule: HitRule,
        limit: Option<u64>,
        order: &'o O,
    ) -> Sweep<'o, H, O>
        requires { H.records held ≡ [] }
        ensures stands { StandsAt (O.order order.now) at_start (state_of result) }
        ensures shape { (state_of result).shape ≡ shape }
        ensures rule { (state_of result).rule ≡ rule }
        ensures limit { (state_of result).limit ≡ limit }
        ensures order { order_of result ≡ O.order order.now }
    {
        Sweep {
            order,
            state: State::new(alloc, held, shape, rule, limit),
        }
    }

    /// What it wants next.
    pub fn want(&self) -> Want
        ensures is { result ≡ want_in (state_of self.now) }
        ensures stage { (order : Order) (stage : Stage Feature Feature) → StandsAt order stage (state_of self.now) → result ≡ want_of (is_some stage.waiting) stage.first_ended }
    {
        self.state.want()
    }

    /// The records of the second input that it holds.
    pub fn held(&self) -> &H
        ensures is { H.records result.now ≡ (state_of self.now).held }
        ensures stage { (order : Order) (stage : Stage Feature Feature) → StandsAt order stage (state_of self.now)
            → H.records result.now ≡ held_for (last_given (given stage)) stage.taken }
    {
        let Sweep { order: _, state } = self;
        state.held()
    }

    /// Takes records of both inputs, one after another, as [`Sweep::give_a`] and [`Sweep::give_b`] do with each, as long as
    /// the input that it wants has a next one. It may stop too once the record is written that waited before.
    /// If it wants nothing, it takes none. It fails as these calls do.
    #[tactic(auto, using(crate::proofs::lemmas::sweep::StandLemmas::lifts_current, crate::proofs::lemmas::sweep::StandLemmas::one_waits))]
    pub fn advance<A: Cursor, B: Cursor, K: Sink>(
        &mut self,
        a: &mut A,
        b: &mut B,
        out: &mut Out<K>,
    ) -> Result<(), Fault>
        requires known_a { GivesKnown A.Cursor (order_of self.old) a.old }
        requires known_b { GivesKnown B.Cursor (order_of self.old) b.old }
        ensures advances { AdvancesOn A.Cursor B.Cursor (order_of self.old) (state_of self.old)
            a.old b.old out.old.output result (state_of self.new) a.new b.new out.new.output }
        ensures idle { want_in (state_of self.old) ≡ Want.Nothing
            → IsOk result × (state_of self.new ≡ state_of self.old) × (a.new ≡ a.old) × (b.new ≡ b.old) × (out.new.output ≡ out.old.output) }
        ensures stops { OnErr result (want_in (state_of self.new) ≡ Want.Nothing) }
        ensures order { order_of self.new ≡ order_of self.old }
    {
        match self.state.want() {
            Want::A => self.go_on(a, b, out),
            Want::B => self.decide_current(b, out),
            Want::Nothing => Ok(()),
        }
    }

    /// Takes the next record of the first input. If the second has ended its lines are written at
    /// once, and else nothing is. It fails with `NoMemory` if the record is longer than what is kept inline and can't be
    /// kept, and with `WriteFailed` if the lines can't be written.
    #[tactic(auto, using(crate::proofs::lemmas::sweep::KeepLemmas::known_none, crate::proofs::lemmas::sweep::SingleLemmas::gives_a))]
    pub fn give_a<K: Sink>(&mut self, a: &BedRef<'_>, out: &mut Out<K>) -> Result<(), Fault>
        requires want { want_in (state_of self.old) ≡ Want.A }
        requires known { IsTrue ((order_of self.old).knows a.now.chrom.now) }
        ensures gives { (stage : Stage Feature Feature) → StandsAt (order_of self.old) stage (state_of self.old)
            → IsInOrder (order_of self.old) (with_a stage (feature_lent a.now))
            → GivesA (order_of self.old) stage (feature_lent a.now) (state_of self.old) out.old.output result
            (state_of self.new) out.new.output }
        ensures stops { OnErr result (want_in (state_of self.new) ≡ Want.Nothing) }
        ensures order { order_of self.new ≡ order_of self.old }
    {
        self.advance(&mut Single::new(*a, 0), &mut Single::none(a.chrom), out)
    }

    /// Takes the end of the first input. Nothing is written, and nothing more is wanted.
    pub fn end_a(&mut self)
        requires { want_in (state_of self.old) ≡ Want.A }
        ensures stands { (stage : Stage Feature Feature) → StandsAt (order_of self.old) stage (state_of self.old)
            → MovesTo (order_of self.old) (state_of self.old) (with_first_ended stage) (state_of self.new) }
        ensures nothing { want_in (state_of self.new) ≡ Want.Nothing }
        ensures order { order_of self.new ≡ order_of self.old }
    {
        self.state.end_a();
    }

    /// Takes the next record of the second input, which is at this line, counted from 1, unless it decides the
    /// current record of the first: then that one's lines are written, and the record is to be given again. It
    /// fails with `WriteFailed` if they can't be written. If the record has to be held, it fails with
    /// `TooManyHeld` at the line if as many are held as the limit allows, and else with `NoMemory` if it
    /// can't be. For a record that neither decides nor has to be held it doesn't allocate.
    pub fn give_b<K: Sink>(
        &mut self,
        b: &BedRef<'_>,
        line: u64,
        out: &mut Out<K>,
    ) -> Result<Taken, Fault>
        requires want { want_in (state_of self.old) ≡ Want.B }
        requires known { IsTrue ((order_of self.old).knows b.now.chrom.now) }
        ensures gives { (stage : Stage Feature Feature) (a : Feature)
            → StandsAt (order_of self.old) stage (state_of self.old) → stage.waiting ≡ Some a
            → IsInOrder (order_of self.old) (with_second stage (feature_lent b.now))
            → GivesB (order_of self.old) stage a (feature_lent b.now) line (state_of self.old) out.old.output result
            (state_of self.new) out.new.output }
        ensures stops { OnErr result (want_in (state_of self.new) ≡ Want.Nothing) }
        ensures order { order_of self.new ≡ order_of self.old }
    {
        let mut given = Single::new(*b, line);
        self.advance(&mut Single::none(b.chrom), &mut given, out)?;
        if given.is_empty() {
            Ok(Taken::Yes)
        } else {
            Ok(Taken::No)
        }
    }

    /// Takes the end of the second input, and writes the lines of the current record of the first. It
    /// fails with `WriteFailed` if they can't be written.
    #[tactic(auto, using(std::proofs::lemmas::Result::err_from_is_err_and, crate::proofs::lemmas::sweep::KeepLemmas::known_none, crate::proofs::lemmas::sweep::SingleLemmas::same_some, crate::proofs::lemmas::sweep::SingleLemmas::stops_end))]
    pub fn end_b<K: Sink>(&mut self, out: &mut Out<K>) -> Result<(), Fault>
        requires { want_in (state_of self.old) ≡ Want.B }
        ensures gives { (stage : Stage Feature Feature) (a : Feature)
            → StandsAt (order_of self.old) stage (state_of self.old) → stage.waiting ≡ Some a
            → IsInOrder (order_of self.old) stage
            → EndsB (order_of self.old) stage a (state_of self.old) out.old.output result (state_of self.new) out.new.output }
        ensures stops { OnErr result (want_in (state_of self.new) ≡ Want.Nothing) }
        ensures order { order_of self.new ≡ order_of self.old }
    {
        let Some(current) = self.state.take_current() else {
            return Ok(());
        };
        self.state.end_b();
        let bed = current.as_bed();
        let mut none = Pending::new(Single::none(bed.chrom));
        self.decide(bed, &mut none, &mut Single::none(bed.chrom), out)?;
        Ok(())
    }

    // Writes the record that waits if one of these of the second input decides it. The records before that one are taken.
    #[tactic(auto, using(crate::proofs::lemmas::sweep::StandLemmas::only_first, crate::proofs::lemmas::sweep::StandLemmas::single_none))]
    fn decide_current<B: Cursor, K: Sink>(
        &mut self,
        b: &mut B,
        out: &mut Out<K>,
    ) -> Result<(), Fault>
        requires known_b { GivesKnown B.Cursor (order_of self.old) b.old }
        ensures decides { AdvancesOn no_cursor B.Cursor (order_of self.old) (state_of self.old)
            tt b.old out.old.output result (state_of self.new) tt b.new out.new.output }
        ensures phase { OnOk result ((state_of self.new).phase ≡ (state_of self.old).phase) }
        ensures stops { OnErr result (want_in (state_of self.new) ≡ Want.Nothing) }
        ensures order { order_of self.new ≡ order_of self.old }
    {
        let Some(current) = self.state.take_current() else {
            return Ok(());
        };
        let bed = current.as_bed();
        let mut none = Pending::new(Single::none(bed.chrom));
        let Some(_) = self.decide(bed, &mut none, b, out)? else {
            return Ok(());
        };
        self.state.put_back(current);
        Ok(())
    }

    // Takes records of both inputs, while none of the first waits.
    fn go_on<A: Cursor, B: Cursor, K: Sink>(
        &mut self,
        a: &mut A,
        b: &mut B,
        out: &mut Out<K>,
    ) -> Result<(), Fault>
        requires want { want_in (state_of self.old) ≡ Want.A }
        requires known_a { GivesKnown A.Cursor (order_of self.old) a.old }
        requires known_b { GivesKnown B.Cursor (order_of self.old) b.old }
        ensures advances { AdvancesOn A.Cursor B.Cursor (order_of self.old) (state_of self.old)
            a.old b.old out.old.output result (state_of self.new) a.new b.new out.new.output }
        ensures stops { OnErr result (want_in (state_of self.new) ≡ Want.Nothing) }
        ensures order { order_of self.new ≡ order_of self.old }
    {
        let mut firsts = Pending::new(*a);
        let Some(first) = firsts.next() else {
            return Ok(());
        };
        self.state.enter(&first);
        let decided = self.decide(first, &mut firsts, b, out);
        *a = firsts.cursor;
        let Some(waiting) = decided? else {
            return Ok(());
        };
        self.state.keep(&waiting)
    }

    // Writes records of the first input, from this one on, as far as those of the second decide them, which are taken up to
    // there. It returns the one that is left, if there is one.
    #[tactic(auto, using(crate::proofs::lemmas::sweep::RelateLemmas::decides_none))]
    fn decide<A: Cursor, B: Cursor, K: Sink>(
        &mut self,
        first: A::Record,
        a: &mut Pending<A>,
        b: &mut B,
        out: &mut Out<K>,
    ) -> Result<Option<A::Record>, Fault>
        requires none { (state_of self.old).current ≡ None }
        requires hits { All (CanHit (A.Record.feature first)) (state_of self.old).held }
        requires on { A.name a.old.cursor ≡ (A.Record.feature first).chrom }
        requires line { line_in (A.consumed a.old.cursor) a.old.to ≡ A.Record.raw first }
        requires pending { lines_pending a.old ≡ [] }
        requires known { IsTrue ((order_of self.old).knows (A.Record.feature first).chrom) }
        requires known_b { GivesKnown B.Cursor (order_of self.old) b.old }
        ensures joins { Joins A.Cursor (going_on (state_of self.old).phase B.Cursor) (IsThis (order_of self.old)) (Settles (order_of self.old) (state_of self.old).phase)
            (LeavesLast (order_of self.old)) A.Record.feature (A.Record.feature first)
            (stands (state_of self.old) (a.old.cursor, b.old) [] out.old.output) result
            (stands (state_of self.new) (a.new.cursor, b.new) [] out.new.output) }
        ensures none { (state_of self.new).current ≡ None }
        ensures phase { OnOk result ((state_of self.new).phase ≡ (state_of self.old).phase) }
        ensures stops { OnErr result (want_in (state_of self.new) ≡ Want.Nothing) }
        ensures order { order_of self.new ≡ order_of self.old }
    {
        match relation_of(self.order, self.state.phase(), first.chrom(), b) {
            Relation::Unknown => Ok(Some(first)),
            Relation::Before => {
                skip(b);
                Ok(Some(first))
            }
            Relation::Beside => self.state.join(first, a, b, out),
            Relation::After => self.state.write_all(first, a, out),
        }
    }
}

#[cfg(test)]
mod tests;
