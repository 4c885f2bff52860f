//! What is in a text.

pub(crate) mod byte_watch;
pub(crate) mod chromosomes;
pub(crate) mod header_name;
pub(crate) mod oddity;
pub(crate) mod records_seen;
#[cfg(test)]
mod tests;
pub(crate) mod trouble;
pub(crate) mod watched;

ghost use Rattle.std.specs.Prelude.{◌<◌};
ghost use Rattle.bt_bed.specs.calls.Batch.{left, line_in};
ghost use Rattle.bt_front.specs.inside.Seeing.{FindsFarEnd, last_end};
ghost use Rattle.bt_front.specs.model.Survey.{largest_end};

use crate::survey::chromosomes::{Chromosomes, Extent};
use crate::survey::header_name::is_header_name;
use crate::survey::oddity::{OddLine, Oddity};
use crate::survey::records_seen::RecordsSeen;
use crate::survey::trouble::Trouble;
use crate::survey::watched::Watched;
use bt_bed::{Batch, Blocks, Cursor, Record};
use bt_lines::{Input, LineReader, Source, no_memory};
use std::alloc::Global;

// The last position that has a bin in bedtools.
const LARGEST_END: u64 = 536_870_912;

/// What is in a text that bedtools reads as Dunekettle does.
#[derive(Drop, Debug)]
pub struct Survey {
    pub chromosomes: Chromosomes,
    pub records: RecordsSeen,
}

impl Survey {
    ghost use Rattle.std.specs.Prelude.{◌≡◌, [], None};
    ghost use Rattle.bt_lines.specs.calls.Reader.{IsKept};
    ghost use Rattle.bt_bed.specs.calls.Blocks.{below, view_of};
    ghost use Rattle.bt_front.specs.calls.Survey.{ReadsSurvey};
    ghost use Rattle.bt_front.specs.inside.Seeing.{Enters, SeesAll, SeesBatch, SeesBuffered};
    ghost use Rattle.bt_front.specs.model.Survey.{AreSeen};

    /// Surveys all that a source hands over, by the reader that runs read it with. It gives the source back, and what
    /// leaves its text to bedtools. Once it has met that, it reads no more.
    pub fn read<S: Source>(alloc: Global, source: S) -> (Result<Survey, Trouble>, S)
        ensures { ReadsSurvey S.Source source result.1 result.0 }
    {
        let reader = LineReader::new(alloc, Watched::new(source), Input::First);
        let mut blocks = Blocks::new(alloc, reader);
        let mut survey = Survey::new(alloc);
        let seen = survey.see_all(alloc, &mut blocks);
        let watched = blocks.into_reader().into_source();
        match seen {
            Ok(()) => match watched.finish() {
                None => (Ok(survey), watched.into_source()),
                Some(odd) => (Err(Trouble::Odd(odd)), watched.into_source()),
            },
            Err(trouble) => match watched.found() {
                None => (Err(trouble), watched.into_source()),
                Some(odd) => (Err(Trouble::Odd(odd)), watched.into_source()),
            },
        }
    }

    // Before the first record.
    fn new(alloc: Global) -> Survey
        ensures { AreSeen [] result }
    {
        Survey {
            chromosomes: Chromosomes::new(alloc),
            records: RecordsSeen::new(),
        }
    }

    // Sees all records of a reader.
    fn see_all<S: Source>(&mut self, alloc: Global, blocks: &mut Blocks<S>) -> Result<(), Trouble>
        requires fresh { AreSeen [] self.old }
        requires none_buffered { (view_of blocks.old).buffered ≡ [] }
        requires going { (view_of blocks.old).fault ≡ None }
        requires kept { IsKept S.Source (below blocks.old) }
        ensures { SeesAll S.Source blocks.old blocks.new result self.new }
    {
        loop {
            match blocks.fill() {
                Ok(true) => {}
                Ok(false) => return Ok(()),
                Err(fault) => return Err(Trouble::Refused(fault)),
            }
            if let Err(trouble) = self.see_buffered(alloc, blocks) {
                return Err(trouble);
            }
        }
    }

    // Sees those that are buffered.
    fn see_buffered<S: Source>(
        &mut self,
        alloc: Global,
        blocks: &mut Blocks<S>,
    ) -> Result<(), Trouble>
        ensures { SeesBuffered S.Source blocks.old blocks.new self.old result self.new }
    {
        let mut batch = blocks.buffered();
        let seen = self.see(alloc, &mut batch);
        let consumed = batch.consumed();
        blocks.consume(consumed);
        seen
    }

    // Sees a batch: its chromosome, and then its records.
    fn see(&mut self, alloc: Global, batch: &mut Batch<'_>) -> Result<(), Trouble>
        ensures { SeesBatch self.old batch.old result self.new batch.new }
    {
        let unseen = *batch;
        let mut ahead = unseen;
        let Some(first) = ahead.next() else {
            return Ok(());
        };
        if let Err(trouble) = self.enter(alloc, first.chrom(), first.start(), ahead.line()) {
            return Err(trouble);
        }
        let stop = self.records.look(batch);
        if stop > LARGEST_END {
            return Err(Trouble::Odd(OddLine {
                line: far_line(unseen),
                oddity: Oddity::FarEnd,
            }));
        }
        self.chromosomes.widen_last(stop);
        Ok(())
    }

    // Goes on to the chromosome of this name, on which a record starts here, on this line.
    fn enter(&mut self, alloc: Global, name: &[u8], start: u64, line: u64) -> Result<(), Trouble>
        ensures { Enters self.old name.now start line result self.new }
    {
        if self.chromosomes.is_last(name) {
            return Ok(());
        }
        if self.chromosomes.place(name).is_some() {
            return Err(Trouble::ComesBack { line });
        }
        if is_header_name(name) {
            let oddity = Oddity::HeaderName;
            return Err(Trouble::Odd(OddLine { line, oddity }));
        }
        let extent = Extent { start, stop: 0 };
        match self.chromosomes.add(alloc, name, extent) {
            Ok(()) => Ok(()),
            Err(_) => Err(Trouble::Refused(no_memory())),
        }
    }
}

// The line of the first record that ends past the last bin.
#[cold]
#[inline(never)]
fn far_line(records: Batch<'_>) -> u64
    requires { largest_end < last_end (left records) }
    ensures { FindsFarEnd (left records.entry) (line_in records.entry) result }
{
    let mut ahead = records;
    while let Some(record) = ahead.next() {
        if record.stop() > LARGEST_END {
            return ahead.line();
        }
    }
    ahead.line()
}
