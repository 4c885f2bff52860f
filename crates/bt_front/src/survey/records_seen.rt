//! What the records of a text show, beside their chromosomes.

use bt_bed::{Batch, Cursor, Record, Strand};

/// What the records of a text show, beside their chromosomes.
#[derive(Clone, Copy, Debug, PartialEq, Eq)]
pub struct RecordsSeen {
    /// How many there are, at most `u64::MAX`, which stands for more too.
    pub count: u64,
    /// How many bases the longest has; 0 of none.
    pub longest: u64,
    /// Whether one has no strand.
    pub lacks_strand: bool,
}

impl RecordsSeen {
    ghost use Rattle.std.specs.Prelude.{◌≡◌, [], map};
    ghost use Rattle.std.specs.List.{All};
    ghost use Rattle.bt_bed.specs.calls.Batch.{Passes, chrom_in, left};
    ghost use Rattle.bt_front.specs.model.Survey.{AreRecordsSeen, largest};
    ghost use Rattle.bt_front.specs.inside.Seeing.{Sees};

    /// No record yet.
    pub(crate) fn new() -> RecordsSeen
        ensures { AreRecordsSeen [] result }
    {
        RecordsSeen {
            count: 0,
            longest: 0,
            lacks_strand: false,
        }
    }

    /// Looks at the records that a reader has buffered, which are consumed. It returns the largest of their ends.
    #[inline(never)]
    pub(crate) fn look(&mut self, records: &mut Batch<'_>) -> u64
        ensures passes { Passes records.old (left records.old) records.new }
        ensures all { left records.new ≡ [] }
        ensures on { All (λ r. r.chrom ≡ chrom_in records.old) (left records.old) }
        ensures sees { Sees self.old (left records.old) self.new }
        ensures end { result ≡ largest (map (λ r. r.stop) (left records.old)) }
    {
        let mut ahead = *records;
        let mut longest = self.longest;
        let mut lacks_strand = self.lacks_strand;
        let mut end = 0_u64;
        while let Some(record) = ahead.next() {
            let stop = record.stop();
            end = end.max(stop);
            longest = longest.max(stop - record.start());
            lacks_strand = lacks_strand || record.strand() == Strand::Dot;
        }
        let count = ahead.line() - records.line();
        *records = ahead;
        self.count = self.count.saturating_add(count);
        self.longest = longest;
        self.lacks_strand = lacks_strand;
        end
    }
}
