//! The records of a BED input whose chromosomes come in any order.

ghost use Rattle.bt_bed.specs.calls.SortedReader.{IsPlaced, view_in};
ghost use Rattle.bt_bed.specs.model.Sorted.{block_sorting};

use crate::read::batch::{Batch, Consumed};
use crate::read::sorted::InBlocks;
use crate::read::sorted_reader::SortedReader;
use crate::record::bed::BedRef;
use bt_lines::{Fault, LineReader, Source};
use std::alloc::Global;

/// Reads the records of a BED input in blocks. It reports the first line at fault: one that isn't a
/// feature, or starts before the record before it on the same chromosome. A block is a maximal run of
/// records of one chromosome. The blocks come in any order, and a chromosome may have several. Header
/// lines and blank lines are skipped. `fill` makes a record buffered, or the end, `buffered` borrows the records, and
/// `consume` takes some of them.
#[derive(Drop)]
pub struct Blocks<S> {
    // Always valid: `placed` says that it goes by the order of blocks.
    sorted: SortedReader<S, InBlocks>,
    ghost placed: { IsPlaced block_sorting (view_in block_sorting sorted) },
}

#[tactic(auto, unfolding(crate::specs::calls::SortedReader::view_with, crate::specs::calls::Blocks::view_of))]
impl<S: Source> Blocks<S> {
    ghost use Rattle.std.specs.Prelude.{◌≡◌, ℕ, List, [], None, Some, IsSome, option_map};
    ghost use Rattle.std.specs.Borrow.{sem};
    ghost use Rattle.std.specs.Io.BufRead.{Rests};
    ghost use Rattle.bt_lines.specs.calls.Reader.{fault_kept as line_fault, input_of, lines_coming};
    ghost use Rattle.bt_bed.specs.contracts.read.blocks.Blocks.{the_row};
    ghost use Rattle.bt_bed.specs.model.Good.{locus_at, good, block_format};
    ghost use Rattle.bt_bed.specs.calls.Reading.{BeginsComing, ahead_in, coming, line_of_ahead};
    ghost use Rattle.bt_bed.specs.calls.Blocks.{FillsBlocks, IsTaken, Lends, PeeksBlocks, TakesBlocks, below, buffered_in, count_in, fault_kept, view_of};

    /// A reader of the records that the reader of lines has left.
    #[tactic(auto, using(crate::proofs::lemmas::read::batch::RecordsLemmas::good_at_start, crate::proofs::lemmas::read::batch::RecordsLemmas::placed_at_start), unfolding(crate::specs::calls::SortedReader::view_with, crate::specs::calls::Blocks::view_of))]
    pub fn new(alloc: Global, reader: LineReader<S>) -> Blocks<S>
        ensures below { below result ≡ reader }
        ensures fault { fault_kept result ≡ line_fault reader }
        ensures good { line_fault reader ≡ None → (rest : List ℕ) → coming rest (view_of result)
            ≡ good block_format (input_of reader) (lines_coming rest reader) }
        ensures none_last { (view_of result).state ≡ None }
        ensures none_buffered { buffered_in result ≡ [] }
    {
        Blocks {
            sorted: SortedReader::new(alloc, reader, InBlocks),
        }
    }

    /// Makes at least one record buffered, and returns true if there is one: there is none at the end of the input. It
    /// reads nothing while one is buffered, after a fault, which is returned again, and after the end. A line that
    /// couldn't be read is reported before what is wrong with it, and running out of memory for its chromosome's name
    /// after. It allocates for the line, and if the chromosome is another than that of the record before.
    #[inline(always)]
    pub fn fill(&mut self) -> Result<bool, Fault>
        ensures { FillsBlocks S.Source self.old result self.new }
    {
        self.sorted.fill()
    }

    /// The records that are buffered, on the chromosome of the first of them.
    pub fn buffered(&self) -> Batch<'_>
        ensures lends { Lends self.now result }
        ensures comes { BeginsComing (view_of self.now) }
    {
        self.sorted.buffered()
    }

    /// Takes the records that were consumed of what [`Blocks::buffered`] gave. It reads nothing and doesn't allocate.
    pub fn consume(&mut self, consumed: Consumed)
        requires { IsTaken self.old consumed }
        ensures { TakesBlocks S.Source self.old (count_in self.old consumed) self.new }
    {
        self.sorted.consume(consumed);
    }

    /// The record ahead, or none at the end of the input: `fill`, and the first of those buffered. It fails as `fill`
    /// does.
    #[inline]
    pub fn peek(&mut self) -> Result<Option<BedRef<'_>>, Fault>
        ensures* after { sem 𝓛 (Rests (the_row S.row) self.entry
            (λ new. PeeksBlocks S.Source self.old result new)) }
    {
        self.fill()?;
        Ok(self.sorted.first())
    }

    /// Takes the record ahead, which the last `peek` gave: `consume` of one. It reads nothing and can't fail.
    pub fn advance(&mut self)
        requires { IsSome (line_of_ahead (view_of self.old)) }
        ensures takes { TakesBlocks S.Source self.old 1 self.new }
        ensures last { (view_of self.new).state ≡ option_map (λ m. locus_at m.item) (ahead_in (view_of self.old)) }
    {
        self.sorted.advance();
    }

    /// The number of the line, counted from 1, of the record ahead, which the last `peek` gave.
    pub fn line(&self) -> u64
        requires { IsSome (line_of_ahead (view_of self.now)) }
        ensures { line_of_ahead (view_of self.now) ≡ Some result }
    {
        self.sorted.reader.lines() + 1
    }

    /// Gives back the reader of lines.
    pub fn into_reader(self) -> LineReader<S>
        ensures { result ≡ below self }
    {
        let Blocks {
            sorted: SortedReader { reader, .. },
        } = self;
        reader
    }
}

#[cfg(test)]
mod tests;
