//! What a sweep keeps, and its steps.

ghost use Rattle.std.specs.Prelude.{◌≡◌, ◌∷◌, ◌++◌, ◌<◌, [], All, IfErr, IfOk, IfSome, IsTrue, None, Some, false, filter, nat_lt, true, OnOk, OnErr};
ghost use Rattle.bt_lines.specs.calls.Names.{fault_value};
ghost use Rattle.bt_lines.specs.model.Lines.{max_number};
ghost use Rattle.bt_lines.specs.calls.Output.{Adds};
ghost use Rattle.bt_bed.specs.model.BedLine.{fault_at_line};
ghost use Rattle.bt_bed.specs.calls.Orders.{IsTotal};
ghost use Rattle.bt_sweep.specs.calls.Held.{AreReady, AreRising, CanHit, CanHitAt};
ghost use Rattle.bt_sweep.specs.model.Lines.{lines_for};
ghost use Rattle.bt_sweep.specs.inside.Joining.{AddsWith, AreDecidedOn, Joins, LeavesOn, SkipsAll, WritesUpTo, waiting_in, FitsShape, PutsOr, line_in, lines_pending, KeepsOne, TakesSecond, are_on, has_room_in, held_with, stands, stopped};
ghost use Rattle.bt_sweep.specs.calls.Sweeping.{want_in};

use crate::active::held::Held;
use crate::hits::hit_rule::HitRule;
use crate::output::shape::Shape;
use crate::output::unmatched::{Unmatched, unmatched_in};
use crate::output::writing::put_against;
use crate::sweep::Want;
use crate::sweep::pending::{Pending, put_copied};
use bt_bed::{Cursor, Rec, Record, at_line, is_same_name};
use bt_lines::{Fault, Input, Kind, MAX_NUMBER, Out, Place, Sink, no_memory, write_failed};
use std::alloc::{AllocError, Global};
use std::marker::Model;

// How far a sweep has come with its inputs. Each follows those before it.
#[derive(Clone, Copy, Debug, PartialEq, Eq)]
pub(crate) enum Phase {
    // Both inputs go on.
    Both,
    // The second has ended.
    SecondEnded,
    // Nothing more is wanted: the first has ended, or there was a fault.
    Over,
}

// What a sweep keeps beside the order of the chromosomes. The held records lie on one chromosome.
#[derive(Drop)]
pub(crate) struct State<H: Held> {
    // Allocates the copies of records.
    alloc: Global,
    // What is written of a record and its hits.
    shape: Shape,
    // What a hit is.
    rule: HitRule,
    // How many records may be held, if that is limited.
    limit: Option<u64>,
    // The record of the first input that isn't decided, if one waits.
    current: Option<Rec>,
    // What can still hit the record given last or a later one; nothing before the first.
    held: H,
    // How far it has come.
    phase: Phase,
}

impl<H: Held> Model for State<H> {
    ghost use Rattle.bt_sweep.specs.calls.Held.{AreReady};
    ghost use Rattle.bt_sweep.specs.calls.Sweeping.{Sweeping};

    ghost Value = { Sweeping };

    ghost view = { λ s. record {
      shape = s.shape;
      rule = s.rule;
      limit = s.limit;
      current = s.current;
      held = H.records s.held;
      phase = s.phase;
    } };

    ghost invariant = { λ s. AreReady s.current (H.records s.held) };
}

impl<H: Held> State<H> {
    pub(crate) fn new(
        alloc: Global,
        held: H,
        shape: Shape,
        rule: HitRule,
        limit: Option<u64>,
    ) -> State<H>
        requires { H.records held ≡ [] }
        ensures { result ≡ record {
          shape = shape;
          rule = rule;
          limit = limit;
          current = None;
          held = [];
          phase = Phase.Both;
        } }
    {
        State {
            alloc,
            shape,
            rule,
            limit,
            current: None,
            held,
            phase: Phase::Both,
        }
    }

    pub(crate) fn want(&self) -> Want
        ensures { result ≡ want_in self.now }
    {
        if self.current.is_some() {
            Want::B
        } else if self.phase == Phase::Over {
            Want::Nothing
        } else {
            Want::A
        }
    }

    // The list that is kept. Each field is named: with one more, in which a second list could be kept, this wouldn't compile.
    pub(crate) fn held(&self) -> &H
        ensures { H.records result.now ≡ self.now.held }
    {
        let State {
            alloc: _,
            shape: _,
            rule: _,
            limit: _,
            current: _,
            held,
            phase: _,
        } = self;
        held
    }

    pub(crate) fn phase(&self) -> Phase
        ensures { result ≡ self.now.phase }
    {
        self.phase
    }

    // Says that the first input has ended.
    pub(crate) fn end_a(&mut self)
        ensures { self.new ≡ record self.old { phase = Phase.Over } }
    {
        self.phase = Phase::Over;
    }

    // Says that the second has.
    pub(crate) fn end_b(&mut self)
        ensures { self.new ≡ record self.old { phase = Phase.SecondEnded } }
    {
        self.phase = Phase::SecondEnded;
    }

    // Takes out the record that waits.
    #[tactic(auto, using(crate::proofs::lemmas::sweep::KeepLemmas::hits_of))]
    pub(crate) fn take_current(&mut self) -> Option<Rec>
        ensures is { result ≡ self.old.current }
        ensures taken { self.new ≡ record self.old { current = None } }
        ensures hits { IfSome result (λ a. All (CanHit a) self.new.held) }
    {
        self.current.take()
    }

    // Makes this the record that waits.
    pub(crate) fn put_back(&mut self, current: Rec)
        requires { All (CanHit current) self.old.held }
        ensures { self.new ≡ record self.old { current = Some current } }
    {
        self.current = Some(current);
    }

    // Makes a copy of this the record that waits. Memory runs out only for one that isn't kept inline; the contracts of std
    // don't say when it does, so `test_sizes.py` tries that it does only if a growth was refused.
    pub(crate) fn keep<R: Record>(&mut self, a: &R) -> Result<(), Fault>
        requires { All (CanHit (R.feature a.now)) self.old.held }
        ensures { KeepsOne self.old (R.feature a.now) result self.new }
    {
        match a.bed().to_rec(self.alloc) {
            Ok(rec) => {
                self.current = Some(rec);
                Ok(())
            }
            Err(_) => {
                self.phase = Phase::Over;
                Err(no_memory())
            }
        }
    }

    // Drops the held records that can hit neither this one of the first input nor a later one.
    #[tactic(auto, using(crate::proofs::lemmas::sweep::KeepLemmas::ready_none, crate::proofs::lemmas::sweep::KeepLemmas::on_one_filter))]
    pub(crate) fn enter<R: Record>(&mut self, a: &R)
        requires { self.old.current ≡ None }
        ensures entered { self.new ≡ record self.old { held = held_with self.old.held (R.feature a.now) } }
        ensures hits { All (CanHit (R.feature a.now)) self.new.held }
    {
        if are_on(&self.held, a.chrom()) {
            self.held.drop_ended(a.start());
        } else {
            self.held.clear();
        }
    }

    // Drops the held records that end at the place or before it.
    #[tactic(auto, using(crate::proofs::lemmas::sweep::KeepLemmas::ready_none, crate::proofs::lemmas::sweep::KeepLemmas::on_one_filter))]
    #[inline(always)]
    fn drop_ended(&mut self, place: u64)
        requires { self.old.current ≡ None }
        ensures { self.new ≡ record self.old { held = filter (λ b. nat_lt place b.stop) self.old.held } }
    {
        self.held.drop_ended(place);
    }

    // Writes the lines of a record against what is held.
    #[inline(always)]
    fn put<R: Record, K: Sink>(&mut self, a: &R, out: &mut Out<K>) -> Result<(), Fault>
        requires filled { (R.feature a.now).start < (R.feature a.now).stop }
        requires hits { All (CanHit (R.feature a.now)) self.old.held }
        ensures same { OnOk result (self.new ≡ self.old) }
        ensures stops { OnErr result (self.new ≡ stopped self.old) }
        ensures puts { AreRising self.old.held
            → Adds out.old.output (lines_for self.old.shape self.old.rule (R.feature a.now) self.old.held) result out.new.output }
    {
        let put = put_against(self.shape, self.rule, a, &self.held, out);
        self.finish_put(put)
    }

    // Wants nothing more, if what was to be put couldn't be.
    #[inline(always)]
    fn finish_put(&mut self, put: Result<(), Fault>) -> Result<(), Fault>
        ensures is { result ≡ put }
        ensures same { OnOk put (self.new ≡ self.old) }
        ensures stops { OnErr put (self.new ≡ stopped self.old) }
    {
        if put.is_err() {
            self.phase = Phase::Over;
        }
        put
    }

    // Takes a record of the second input, from a line, that leaves this one of the first undecided. It is held if it can
    // hit that or a later one. The limit is tested before the record is copied.
    #[inline(always)]
    fn take<A: Record, B: Record>(&mut self, a: &A, b: &B, line: u64) -> Result<(), Fault>
        requires none { self.old.current ≡ None }
        requires hits { All (CanHit (A.feature a.now)) self.old.held }
        requires on { (B.feature b.now).chrom ≡ (A.feature a.now).chrom }
        ensures takes { TakesSecond self.old (A.feature a.now) (B.feature b.now) line result self.new }
        ensures hits { OnOk result (All (CanHit (A.feature a.now)) self.new.held) }
    {
        if b.stop() <= a.start() {
            return Ok(());
        }
        // A copy is borrowed, so that the record itself stays in registers.
        let given = *b;
        if self.hold(a.start(), &given) {
            return Ok(());
        }
        if self.has_room() {
            return Err(no_memory());
        }
        Err(too_many_held(line))
    }

    // Holds it, as it ends after that one's start. It returns false if there is no room for it, or memory runs out. No
    // clause says how much room a list has, so `test_sizes.py` tries that memory runs out only if a growth was refused.
    #[inline(never)]
    fn hold<B: Record>(&mut self, start: u64, b: &B) -> bool
        requires none { self.old.current ≡ None }
        requires ends { start < (B.feature b.now).stop }
        requires filled { (B.feature b.now).start < (B.feature b.now).stop }
        requires hits { All (CanHitAt (B.feature b.now).chrom start) self.old.held }
        ensures held { result ≡ true → (self.new ≡ record self.old { held = self.old.held ++ B.feature b.now ∷ [] })
            × (has_room_in self.old ≡ true) }
        ensures lacks { result ≡ false → self.new ≡ stopped self.old }
        ensures hits { result ≡ true → All (CanHitAt (B.feature b.now).chrom start) self.new.held }
    {
        if !self.has_room() || hold_copy(self.alloc, &mut self.held, b).is_err() {
            self.phase = Phase::Over;
            return false;
        }
        true
    }

    // Whether one more record may be held.
    fn has_room(&self) -> bool
        ensures { result ≡ has_room_in self.now }
    {
        match self.limit {
            None => true,
            Some(most) => (self.held.len() as u64) < most,
        }
    }

    // Puts the lines of a record after those that are pending. Where the line of one that nothing hits is what is written, it
    // is left pending too.
    #[tactic(auto, using(crate::proofs::lemmas::sweep::KeepLemmas::left_in, crate::proofs::lemmas::sweep::KeepLemmas::nothing_in))]
    #[inline(always)]
    fn write<A: Cursor, K: Sink>(
        &mut self,
        a: &A::Record,
        firsts: &mut Pending<A>,
        out: &mut Out<K>,
    ) -> Result<(), Fault>
        requires filled { (A.Record.feature a.now).start < (A.Record.feature a.now).stop }
        requires hits { All (CanHit (A.Record.feature a.now)) self.old.held }
        requires line { line_in (A.consumed firsts.old.cursor) firsts.old.to ≡ A.Record.raw a.now }
        requires quiet { FitsShape self.old.shape (lines_pending firsts.old) }
        ensures same { OnOk result (self.new ≡ self.old) }
        ensures stops { OnErr result (self.new ≡ stopped self.old) }
        ensures cursor { firsts.new.cursor ≡ firsts.old.cursor }
        ensures line { OnOk result (line_in (A.consumed firsts.new.cursor) firsts.new.to ≡ []) }
        ensures quiet { OnOk result (FitsShape self.old.shape (lines_pending firsts.new)) }
        ensures puts { AreRising self.old.held
            → AddsWith (lines_pending firsts.old) out.old.output
            (lines_for self.old.shape self.old.rule (A.Record.feature a.now) self.old.held) result
            (lines_pending firsts.new) out.new.output }
    {
        if self.held.len() == 0 {
            match unmatched_in(self.shape) {
                Unmatched::Nothing => {
                    firsts.clear();
                    return Ok(());
                }
                Unmatched::Itself => {
                    if a.is_canonical_line() {
                        firsts.add_line();
                        return Ok(());
                    }
                }
                Unmatched::Counted => {}
            }
        }
        // A copy is borrowed, so that the record itself stays in registers.
        let given = *a;
        if !self.put_after(firsts.lines(), &given, out) {
            return Err(write_failed());
        }
        firsts.clear();
        Ok(())
    }

    // Puts lines, and then those of a record, and returns true if it could. It is out of line, so that the loops over the
    // records stay small.
    #[tactic(auto, using(crate::proofs::lemmas::sweep::KeepLemmas::puts_not, crate::proofs::lemmas::sweep::KeepLemmas::puts_then, crate::proofs::lemmas::sweep::KeepLemmas::same_if_put))]
    #[inline(never)]
    fn put_after<R: Record, K: Sink>(&mut self, lines: &[u8], a: &R, out: &mut Out<K>) -> bool
        requires filled { (R.feature a.now).start < (R.feature a.now).stop }
        requires hits { All (CanHit (R.feature a.now)) self.old.held }
        ensures same { result ≡ true → self.new ≡ self.old }
        ensures stops { result ≡ false → self.new ≡ stopped self.old }
        ensures puts { AreRising self.old.held → PutsOr result out.old.output
            (lines.now ++ lines_for self.old.shape self.old.rule (R.feature a.now) self.old.held) out.new.output }
    {
        self.put_pending(lines, out).is_ok() && self.put(a, out).is_ok()
    }

    // Puts lines, of which there may be none.
    #[inline(always)]
    fn put_pending<K: Sink>(&mut self, lines: &[u8], out: &mut Out<K>) -> Result<(), Fault>
        ensures same { OnOk result (self.new ≡ self.old) }
        ensures stops { OnErr result (self.new ≡ stopped self.old) }
        ensures puts { Adds out.old.output lines.now result out.new.output }
    {
        let put = put_copied(lines, out);
        self.finish_put(put)
    }

    // Writes records of the first input, from this one on, as long as they end at the place or before it. It returns true if
    // there is one that doesn't, and puts it here. Lines may be left pending. It is out of line, so that the loop over the
    // second input stays in registers.
    #[tactic(auto, using(crate::proofs::lemmas::sweep::KeepLemmas::writes_first))]
    #[inline(never)]
    fn write_up_to<A: Cursor, K: Sink>(
        &mut self,
        place: u64,
        first: &mut A::Record,
        firsts: &mut Pending<A>,
        out: &mut Out<K>,
    ) -> Result<bool, Fault>
        requires none { self.old.current ≡ None }
        requires hits { All (CanHit (A.Record.feature first.old)) self.old.held }
        requires on { A.name firsts.old.cursor ≡ (A.Record.feature first.old).chrom }
        requires line { line_in (A.consumed firsts.old.cursor) firsts.old.to ≡ A.Record.raw first.old }
        requires quiet { FitsShape self.old.shape (lines_pending firsts.old) }
        ensures writes { WritesUpTo A.Cursor A.Record.feature place (A.Record.feature first.old)
            (stands self.old firsts.old.cursor (lines_pending firsts.old) out.old.output) (waiting_in first.new result)
            (stands self.new firsts.new.cursor (lines_pending firsts.new) out.new.output) }
        ensures on { A.name firsts.new.cursor ≡ A.name firsts.old.cursor }
        ensures line { IfOk result (λ is_left. is_left ≡ true → line_in (A.consumed firsts.new.cursor) firsts.new.to ≡ A.Record.raw first.new) }
        ensures quiet { OnOk result (FitsShape self.new.shape (lines_pending firsts.new)) }
        ensures none { self.new.current ≡ None }
        ensures phase { OnOk result (self.new.phase ≡ self.old.phase) }
        ensures stops { OnErr result (self.new.phase ≡ Phase.Over) }
    {
        // A copy is read, so that it stays in registers.
        let mut given = *first;
        while given.stop() <= place {
            self.write(&given, firsts, out)?;
            let Some(next) = firsts.next() else {
                return Ok(false);
            };
            self.drop_ended(next.start());
            given = next;
        }
        *first = given;
        Ok(true)
    }

    // Writes all records of the first input, from this one on.
    #[inline(never)]
    pub(crate) fn write_all<A: Cursor, K: Sink>(
        &mut self,
        first: A::Record,
        firsts: &mut Pending<A>,
        out: &mut Out<K>,
    ) -> Result<Option<A::Record>, Fault>
        requires none { self.old.current ≡ None }
        requires hits { All (CanHit (A.Record.feature first)) self.old.held }
        requires on { A.name firsts.old.cursor ≡ (A.Record.feature first).chrom }
        requires line { line_in (A.consumed firsts.old.cursor) firsts.old.to ≡ A.Record.raw first }
        requires pending { lines_pending firsts.old ≡ [] }
        ensures writes { WritesUpTo A.Cursor A.Record.feature max_number (A.Record.feature first)
            (stands self.old firsts.old.cursor [] out.old.output) result (stands self.new firsts.new.cursor [] out.new.output) }
        ensures none { self.new.current ≡ None }
        ensures phase { OnOk result (self.new.phase ≡ self.old.phase) }
        ensures stops { OnErr result (self.new.phase ≡ Phase.Over) }
    {
        let mut current = first;
        let is_left = self.write_up_to(MAX_NUMBER, &mut current, firsts, out)?;
        self.put_pending(firsts.lines(), out)?;
        Ok(is_left.then_some(current))
    }

    // Joins records of both inputs on one chromosome, from this one of the first on. Where all that there are of the
    // second are taken, it returns the record that they leave undecided, and none where one of them decides all of the first.
    #[inline(never)]
    pub(crate) fn join<A: Cursor, B: Cursor, K: Sink>(
        &mut self,
        first: A::Record,
        firsts: &mut Pending<A>,
        seconds: &mut B,
        out: &mut Out<K>,
    ) -> Result<Option<A::Record>, Fault>
        requires none { self.old.current ≡ None }
        requires hits { All (CanHit (A.Record.feature first)) self.old.held }
        requires on { A.name firsts.old.cursor ≡ (A.Record.feature first).chrom }
        requires beside { B.name seconds.old ≡ (A.Record.feature first).chrom }
        requires line { line_in (A.consumed firsts.old.cursor) firsts.old.to ≡ A.Record.raw first }
        requires pending { lines_pending firsts.old ≡ [] }
        ensures joins { Joins A.Cursor B.Cursor IsTotal (AreDecidedOn (A.Record.feature first).chrom) LeavesOn
            A.Record.feature (A.Record.feature first) (stands self.old (firsts.old.cursor, seconds.old) [] out.old.output)
            result (stands self.new (firsts.new.cursor, seconds.new) [] out.new.output) }
        ensures none { self.new.current ≡ None }
        ensures phase { OnOk result (self.new.phase ≡ self.old.phase) }
        ensures stops { OnErr result (self.new.phase ≡ Phase.Over) }
    {
        // A copy of the cursor is borrowed, so that it stays in registers over all records.
        let mut ahead = *seconds;
        let joined = self.join_pending(first, firsts, &mut ahead, out);
        *seconds = ahead;
        self.put_pending(firsts.lines(), out)?;
        joined
    }

    // Joins records of both inputs as `join` does, but lines may be pending before and after it.
    #[inline(always)]
    fn join_pending<A: Cursor, B: Cursor, K: Sink>(
        &mut self,
        first: A::Record,
        firsts: &mut Pending<A>,
        seconds: &mut B,
        out: &mut Out<K>,
    ) -> Result<Option<A::Record>, Fault>
        requires none { self.old.current ≡ None }
        requires hits { All (CanHit (A.Record.feature first)) self.old.held }
        requires on { A.name firsts.old.cursor ≡ (A.Record.feature first).chrom }
        requires beside { B.name seconds.old ≡ (A.Record.feature first).chrom }
        requires line { line_in (A.consumed firsts.old.cursor) firsts.old.to ≡ A.Record.raw first }
        requires quiet { FitsShape self.old.shape (lines_pending firsts.old) }
        ensures joins { Joins A.Cursor B.Cursor IsTotal (AreDecidedOn (A.Record.feature first).chrom) LeavesOn
            A.Record.feature (A.Record.feature first)
            (stands self.old (firsts.old.cursor, seconds.old) (lines_pending firsts.old) out.old.output) result
            (stands self.new (firsts.new.cursor, seconds.new) (lines_pending firsts.new) out.new.output) }
        ensures none { self.new.current ≡ None }
        ensures phase { OnOk result (self.new.phase ≡ self.old.phase) }
        ensures stops { OnErr result (self.new.phase ≡ Phase.Over) }
    {
        let mut current = first;
        // A record is consumed only once it is taken, and not if it decides all of the first or can't be held.
        let mut ahead = *seconds;
        while let Some(next) = ahead.next() {
            // Most records decide none, and make no call.
            if current.stop() <= next.start()
                && !self.write_up_to(next.start(), &mut current, firsts, out)?
            {
                return Ok(None);
            }
            self.take(&current, &next, ahead.line())?;
            *seconds = ahead;
        }
        Ok(Some(current))
    }
}

// Whether there are held records, and they lie on the chromosome.
fn are_on<H: Held>(held: &H, chrom: &[u8]) -> bool
    ensures { result ≡ are_on (H.records held.now) chrom.now }
{
    match held.nth(0) {
        None => false,
        Some(first) => is_same_name(first.as_bed().chrom, chrom),
    }
}

// Takes all records that there are.
pub(crate) fn skip<B: Cursor>(seconds: &mut B)
    ensures { SkipsAll B.Cursor seconds.old seconds.new }
{
    while let Some(_next) = seconds.next() {}
}

// The fault of a record that would be held beyond the limit.
fn too_many_held(line: u64) -> Fault
    ensures { fault_value result ≡ fault_at_line Input.Second line Kind.TooManyHeld }
{
    let input = Input::Second;
    at_line(Kind::TooManyHeld, Place { input, line })
}

// Holds a copy of the record.
fn hold_copy<H: Held, R: Record>(alloc: Global, held: &mut H, b: &R) -> Result<(), AllocError>
    ensures held { OnOk result (H.records held.new ≡ H.records held.old ++ R.feature b.now ∷ []) }
    ensures none { OnErr result (H.records held.new ≡ H.records held.old) }
{
    let rec = b.bed().to_rec(alloc)?;
    match held.push(rec) {
        Ok(()) => Ok(()),
        Err(_) => Err(AllocError),
    }
}
