//! Lines of which a record's start and end were read.

ghost use Rattle.std.specs.Prelude.{◌≡◌, IsTrue, Ok, Some, false, get_or, length};
ghost use Rattle.std.specs.Io.BufRead.{strip_last};
ghost use Rattle.bt_bed.specs.inside.FirstColumns.{AreBounds, EndsName};
ghost use Rattle.bt_bed.specs.model.BedLine.{says_nothing};

use crate::record::bed::BedRef;
use crate::record::kept_strand::{behind, kept_strand};
use bt_lines::without_return;

// The number of a column, and where the column ends, counted from where it begins.
#[derive(Clone, Copy, Debug)]
pub(crate) struct ParsedNumber {
    pub(crate) value: u64,
    pub(crate) end: usize,
}

/// A line that says a record, of which the start and the end were read. Its other columns aren't looked at until
/// they are needed.
#[derive(Clone, Copy, Debug)]
pub struct RawRecord<'a> {
    // The line without its line feed.
    pub(crate) line: &'a [u8],
    // Where the chromosome's name ends.
    pub(crate) name: usize,
    // Those of the second and the third column.
    pub(crate) start: ParsedNumber,
    pub(crate) stop: ParsedNumber,
    ghost named: { EndsName (strip_last 13 line.now) name },
    ghost bounds: { AreBounds (strip_last 13 line.now) name start stop },
    ghost no_header: { says_nothing (strip_last 13 line.now) ≡ false },
}

#[tactic(auto, unfolding(crate::specs::calls::Bed::text_in, crate::specs::calls::Bed::raw_in, crate::specs::calls::Bed::record_in, crate::specs::calls::Bed::kept_in))]
impl<'a> RawRecord<'a> {
    ghost use Rattle.bt_bed.specs.calls.Bed.{feature_lent, raw_in, record_in, text_in};
    ghost use Rattle.bt_bed.specs.model.Feature.{Feature};
    ghost use Rattle.bt_bed.specs.model.BedLine.{bed_text, record_of};

    /// The text of the line.
    #[inline(always)]
    pub fn text(&self) -> &'a [u8]
        ensures { result.now ≡ text_in self.now }
    {
        without_return(self.line)
    }

    /// The chromosome of the record.
    #[inline(always)]
    pub fn chrom(&self) -> &'a [u8]
        ensures { result.now ≡ (record_in self.now).chrom }
    {
        &self.text()[..self.name]
    }

    /// The record, for as long as the line.
    #[inline(always)]
    pub fn to_bed(&self) -> BedRef<'a>
        ensures { feature_lent result ≡ record_in self.now }
    {
        let text = self.text();
        let kept = self.name + self.start.end + self.stop.end + 2;
        BedRef {
            chrom: &text[..self.name],
            start: self.start.value,
            stop: self.stop.value,
            strand: kept_strand(text, kept),
            rest: behind(text, kept),
        }
    }

    /// True only if the record is written as its line: neither its start nor its end begins with a zero. It is false for
    /// a start of `0` too, which is the start of few records.
    #[inline(always)]
    pub fn is_canonical(&self) -> bool
        ensures { IsTrue result → (r : Feature) → record_of (text_in self.now) ≡ Ok (Some r) → bed_text r ≡ text_in self.now }
    {
        let start = self.name + 1;
        let stop = start + self.start.end + 1;
        self.line[start] != b'0' && self.line[stop] != b'0'
    }
}
