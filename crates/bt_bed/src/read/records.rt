//! The records of a BED input, as many at a time as were read.

ghost use Rattle.bt_bed.specs.calls.SortedReader.{IsPlaced, view_in};
ghost use Rattle.bt_bed.specs.model.Sorted.{sorting_of};

use crate::order::ChromOrder;
use crate::read::batch::{Batch, Consumed};
use crate::read::sorted::ByOrder;
use crate::read::sorted_reader::SortedReader;
use crate::record::bed::BedRef;
use bt_lines::{Fault, LineReader, Source};
use std::alloc::Global;

/// Reads the records of a BED input, and reports the first line at fault. That is one that isn't a feature, has
/// a chromosome that the order doesn't know, or lies below the record before it, by chromosome and
/// then by start. Header lines and blank lines are skipped. `fill` makes a record buffered, or the end, `buffered`
/// borrows the records, and `consume` takes some of them.
#[derive(Drop)]
pub struct Records<'o, S, O: ChromOrder> {
    // Always valid: `placed` says that it goes by the order.
    sorted: SortedReader<S, ByOrder<'o, O>>,
    ghost placed: { IsPlaced (sorting_of (O.order sorted.lookahead.rule.order.now))
        (view_in (sorting_of (O.order sorted.lookahead.rule.order.now)) sorted) },
}

#[tactic(auto, unfolding(crate::specs::calls::SortedReader::view_with, crate::specs::calls::Records::view_of, crate::specs::calls::Records::order_in))]
impl<'o, S: Source, O: ChromOrder> Records<'o, S, O> {
    ghost use Rattle.std.specs.Prelude.{◌≡◌, ℕ, [], ◌∷◌, List, None, Some, IsSome, option_map};
    ghost use Rattle.std.specs.Borrow.{sem};
    ghost use Rattle.std.specs.Io.BufRead.{Rests};
    ghost use mir.Syntax.{named};
    ghost use Rattle.bt_lines.specs.calls.Reader.{fault_kept as line_fault, input_of, lines_coming};
    ghost use Rattle.bt_bed.specs.contracts.read.records.Records.{the_row};
    ghost use Rattle.bt_bed.specs.model.Good.{good, bed_format, locus_at};
    ghost use Rattle.bt_bed.specs.calls.Orders.{IsTotal};
    ghost use Rattle.bt_bed.specs.calls.Reading.{BeginsComing, ahead_in, coming, line_of_ahead};
    ghost use Rattle.bt_bed.specs.calls.Records.{FillsRecords, IsTaken, Lends, PeeksRecord, TakesRecords, below, buffered_in, count_in, fault_kept, last_locus, order_in, view_of};

    /// A reader of the records that the reader of lines has left.
    pub fn new(alloc: Global, reader: LineReader<S>, order: &'o O) -> Records<'o, S, O>
        ensures below { below result ≡ reader }
        ensures order { order_in result ≡ O.order order.now }
        ensures total { IsTotal (order_in result) }
        ensures fault { fault_kept result ≡ line_fault reader }
        ensures good { line_fault reader ≡ None → (rest : List ℕ) → coming rest (view_of result)
            ≡ good (bed_format (sorting_of (O.order order.now))) (input_of reader) (lines_coming rest reader) }
        ensures none_last { last_locus result ≡ None }
        ensures none_buffered { buffered_in result ≡ [] }
    {
        Records {
            sorted: SortedReader::new(alloc, reader, ByOrder { order }),
        }
    }

    /// Makes at least one record buffered, and returns true if there is one: there is none at the end of the input. It
    /// reads nothing while one is buffered, after a fault, which is returned again, and after the end. A line that
    /// couldn't be read is reported before what is wrong with it, and running out of memory for its chromosome's name
    /// after. It allocates for the line, and if the chromosome is another than that of the record before.
    #[inline(always)]
    pub fn fill(&mut self) -> Result<bool, Fault>
        ensures { FillsRecords S.Source self.old result self.new }
    {
        self.sorted.fill()
    }

    /// The records that are buffered, on the chromosome of the first of them.
    pub fn buffered(&self) -> Batch<'_>
        ensures lends { Lends self.now result }
        ensures comes { BeginsComing (view_of self.now) }
    {
        self.sorted.buffered()
    }

    /// Takes the records that were consumed of what [`Records::buffered`] gave. It reads nothing and doesn't allocate.
    pub fn consume(&mut self, consumed: Consumed)
        requires { IsTaken self.old consumed }
        ensures { TakesRecords S.Source self.old (count_in self.old consumed) self.new }
    {
        self.sorted.consume(consumed);
    }

    /// The record ahead, or none at the end of the input: `fill`, and the first of those buffered. It fails as `fill`
    /// does.
    #[inline]
    pub fn peek(&mut self) -> Result<Option<BedRef<'_>>, Fault>
        ensures* after { sem 𝓛 (Rests (the_row (record { mir = named 0; lft = [] }) S.row O.row O.ChromOrder)
            self.entry
            (λ new. PeeksRecord S.Source self.old result new)) }
    {
        self.fill()?;
        Ok(self.sorted.first())
    }

    /// Takes the record ahead, which the last `peek` gave: `consume` of one. It reads nothing and can't fail.
    pub fn advance(&mut self)
        requires { IsSome (line_of_ahead (view_of self.old)) }
        ensures takes { TakesRecords S.Source self.old 1 self.new }
        ensures last { last_locus self.new ≡ option_map (λ m. locus_at m.item) (ahead_in (view_of self.old)) }
    {
        self.sorted.advance();
    }

    /// The number of the line, counted from 1, of the record ahead, which the last `peek` gave.
    pub fn line(&self) -> u64
        requires { IsSome (line_of_ahead (view_of self.now)) }
        ensures { line_of_ahead (view_of self.now) ≡ Some result }
    {
        self.sorted.reader.lines() + 1
    }

    /// Gives back the reader of lines.
    pub fn into_reader(self) -> LineReader<S>
        ensures { result ≡ below self.entry }
    {
        let Records {
            sorted: SortedReader { reader, .. },
        } = self;
        reader
    }
}

#[cfg(test)]
mod tests;
