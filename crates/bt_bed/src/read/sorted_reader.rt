//! A reader of sorted records, whatever the rule by which they are sorted.

ghost use Rattle.std.specs.Prelude.{◌≡◌, None, true};
ghost use Rattle.bt_bed.specs.calls.Bed.{is_some_left};
ghost use Rattle.bt_bed.specs.inside.OrderedLookahead.{ahead_of};

use crate::read::batch::{Batch, Consumed};
use crate::read::lookahead::OrderedLookahead;
use crate::read::sorted::Sorted;
use crate::record::bed::BedRef;
use bt_lines::{Fault, LineReader, Place, Source};
use std::alloc::Global;

// If a record is ahead, the reader's next line says it. The fault is that of a line or of a name that had no room, or
// the reader's own.
#[derive(Drop)]
pub(crate) struct SortedReader<S, Q> {
    pub(crate) reader: LineReader<S>,
    pub(crate) lookahead: OrderedLookahead<Q>,
    // Whether the reader's next line is known to say a record that fits after the last one.
    is_ahead: bool,
    // `None` until a line is at fault; then it stays.
    fault: Option<Fault>,
    ghost ahead: { is_ahead ≡ true → is_some_left (ahead_of is_ahead reader lookahead) ≡ true },
    ghost going: { is_ahead ≡ true → fault ≡ None },
}

#[tactic(auto, unfolding(crate::specs::calls::SortedReader::view_with, crate::specs::calls::SortedReader::buffered_in))]
impl<S: Source, Q: Sorted + Drop> SortedReader<S, Q> {
    ghost use Rattle.std.specs.Prelude.{◌≡◌, ◌+◌, ◌<◌, ◌∷◌, [], List, None, Ok, false, true, IfSome, IfNone, length, take};
    ghost use Rattle.bt_lines.specs.calls.Reader.{buffered_bytes, lines_given};
    ghost use Rattle.bt_bed.specs.calls.Bed.{feature_lent};
    ghost use Rattle.bt_bed.specs.model.Feature.{Feature};
    ghost use Rattle.bt_bed.specs.inside.OrderedLookahead.{IsKnownLast, last_in};
    ghost use Rattle.bt_bed.specs.calls.Reading.{Takes};
    ghost use Rattle.bt_bed.specs.calls.SortedReader.{FillsByName, IsPlaced, IsPlacedBy, IsTaken, Lends, TakesFirst, buffered_in, count_in, fault_in, sorting_in, view_by, view_with};

    // No record yet.
    pub(crate) fn new(alloc: Global, reader: LineReader<S>, rule: Q) -> SortedReader<S, Q>
        ensures rule { result.lookahead.rule ≡ rule }
        ensures reader { result.reader ≡ reader }
        ensures fault { result.fault ≡ None }
        ensures last { last_in result.lookahead ≡ None }
        ensures none { buffered_in result ≡ [] }
    {
        SortedReader {
            reader,
            lookahead: OrderedLookahead::new(alloc, rule),
            is_ahead: false,
            fault: None,
        }
    }

    // Makes at least one record buffered, and returns true if there is one: there is none at the end.
    #[inline(always)]
    pub(crate) fn fill(&mut self) -> Result<bool, Fault>
        requires { IsPlacedBy Q.Sorted self.old self.old }
        ensures rule { self.new.lookahead.rule ≡ self.old.lookahead.rule }
        ensures fills { FillsByName S.Source (view_by Q.Sorted self.old self.old) result (view_by Q.Sorted self.old self.new) }
        ensures placed { IsPlacedBy Q.Sorted self.old self.new }
    {
        if self.is_ahead {
            return Ok(true);
        }
        self.read_ahead()
    }

    // The records that are buffered.
    pub(crate) fn buffered(&self) -> Batch<'_>
        ensures { Lends self.now result }
    {
        let lines = self.reader.buffered();
        let (name, key, start) = (
            self.lookahead.name(),
            self.lookahead.key(),
            self.lookahead.start(),
        );
        if !self.is_ahead {
            return Batch::new(lines.none(), name, key, start);
        }
        Batch::new(lines, name, key, start)
    }

    // The first of them.
    #[inline(always)]
    pub(crate) fn first(&self) -> Option<BedRef<'_>>
        ensures some { IfSome result (λ bed. (more : List Feature) × (buffered_in self.now ≡ feature_lent bed ∷ more)) }
        ensures none { IfNone result (buffered_in self.now ≡ []) }
    {
        let record = self.buffered().first()?;
        Some(record.to_bed())
    }

    // Takes the records that were consumed of what was given.
    pub(crate) fn consume(&mut self, consumed: Consumed)
        requires taken { IsTaken self.old consumed }
        requires placed { IsPlacedBy Q.Sorted self.old self.old }
        ensures rule { self.new.lookahead.rule ≡ self.old.lookahead.rule }
        ensures takes { Takes S.Source (view_by Q.Sorted self.old self.old)
            (take (count_in self.old consumed) (buffered_in self.old)) (view_by Q.Sorted self.old self.new) }
        ensures placed { IsPlacedBy Q.Sorted self.old self.new }
    {
        if consumed.lines.bytes == 0 {
            return;
        }
        self.reader.consume(consumed.lines);
        self.lookahead.advance(consumed.start);
        self.is_ahead = consumed.is_ahead;
    }

    // Takes the first of them.
    pub(crate) fn advance(&mut self)
        requires some { (r : Feature) × (more : List Feature) × (buffered_in self.old ≡ r ∷ more) }
        requires placed { IsPlacedBy Q.Sorted self.old self.old }
        ensures rule { self.new.lookahead.rule ≡ self.old.lookahead.rule }
        ensures takes { Takes S.Source (view_by Q.Sorted self.old self.old)
            (take 1 (buffered_in self.old)) (view_by Q.Sorted self.old self.new) }
        ensures placed { IsPlacedBy Q.Sorted self.old self.new }
    {
        let mut batch = self.buffered();
        let _ = batch.next();
        let consumed = batch.consumed();
        self.consume(consumed);
    }

    // Reads on to the next record, if there is one, and keeps the fault.
    #[cold]
    #[inline(never)]
    fn read_ahead(&mut self) -> Result<bool, Fault>
        requires none { self.old.is_ahead ≡ false }
        requires placed { IsPlacedBy Q.Sorted self.old self.old }
        ensures rule { self.new.lookahead.rule ≡ self.old.lookahead.rule }
        ensures fills { FillsByName S.Source (view_by Q.Sorted self.old self.old) result (view_by Q.Sorted self.old self.new) }
        ensures placed { IsPlacedBy Q.Sorted self.old self.new }
    {
        if let Some(fault) = self.fault {
            return Err(fault);
        }
        match self.read_record() {
            Ok(is_some) => Ok(is_some),
            Err(fault) => {
                self.fault = Some(fault);
                Err(fault)
            }
        }
    }

    // Reads on to the next record, if there is one.
    fn read_record(&mut self) -> Result<bool, Fault>
        requires none { self.old.is_ahead ≡ false }
        requires going { self.old.fault ≡ None }
        requires placed { IsPlacedBy Q.Sorted self.old self.old }
        ensures rule { self.new.lookahead.rule ≡ self.old.lookahead.rule }
        ensures fault { self.new.fault ≡ None }
        ensures none { self.new.is_ahead ≡ true → result ≡ Ok true }
        ensures fills { FillsByName S.Source (view_by Q.Sorted self.old self.old) result
            (view_with (sorting_in Q.Sorted self.old.lookahead) (fault_in result) self.new.reader self.new.lookahead (buffered_in self.new)) }
        ensures placed { IsPlaced (sorting_in Q.Sorted self.old.lookahead)
            (view_with (sorting_in Q.Sorted self.old.lookahead) (fault_in result) self.new.reader self.new.lookahead (buffered_in self.new)) }
    {
        let mut has_skipped = false;
        loop {
            match self.reader.fill() {
                Ok(true) => match self.take_line(has_skipped) {
                    Ok(true) => return Ok(true),
                    Ok(false) => has_skipped = true,
                    Err(fault) => return Err(fault),
                },
                Ok(false) => return Ok(false),
                Err(fault) => return Err(fault),
            }
        }
    }

    // Whether the next line says a record, which is ahead then. Any other line is consumed. A line that was skipped may lie
    // between records of one batch, so that the record after it is looked for there first.
    fn take_line(&mut self, has_skipped: bool) -> Result<bool, Fault>
        requires none { self.old.is_ahead ≡ false }
        requires going { self.old.fault ≡ None }
        requires some { 0 < length (buffered_bytes self.old.reader) }
        requires known { IsKnownLast (sorting_in Q.Sorted self.old.lookahead) (last_in self.old.lookahead) }
        ensures rule { self.new.lookahead.rule ≡ self.old.lookahead.rule }
        ensures fault { self.new.fault ≡ None }
        ensures ahead { self.new.is_ahead ≡ true → result ≡ Ok true }
        ensures takes { TakesFirst S.Source (sorting_in Q.Sorted self.old.lookahead) self.old result self.new }
    {
        let mut lines = self.reader.buffered();
        if has_skipped && self.lookahead.has_next_in(lines) {
            self.is_ahead = true;
            return Ok(true);
        }
        let Some(line) = lines.next() else {
            return Ok(false);
        };
        let place = Place {
            input: self.reader.input(),
            line: line.number,
        };
        let consumed = lines.consumed();
        match self.lookahead.take_line(place, line.text) {
            Ok(true) => {
                self.is_ahead = true;
                Ok(true)
            }
            Ok(false) => {
                self.reader.consume(consumed);
                Ok(false)
            }
            Err(fault) => {
                self.reader.consume(consumed);
                Err(fault)
            }
        }
    }
}
