//! Features of a BED file.

ghost use Rattle.std.specs.Prelude.{◌<◌, ◌≤◌, IsTrue};
ghost use Rattle.bt_lines.specs.model.Lines.{max_number};
ghost use Rattle.bt_bed.specs.calls.Features.{is_kept};

use crate::record::strand::Strand;

/// A feature, which borrows its chromosome's name and its other columns. Its start is zero-based,
/// and its end, here `stop`, isn't included (UCSC BED description, fields chrom, chromStart and
/// chromEnd). `rest` has the columns from the fourth on as they are, each with the tab before it:
/// it is empty, or begins with a tab. In a record that was read, `strand` is that of its sixth column; no call looks
/// for it there again.
#[derive(Clone, Copy, Debug)]
pub struct BedRef<'a> {
    pub chrom: &'a [u8],
    pub start: u64,
    pub stop: u64,
    pub strand: Strand,
    pub rest: &'a [u8],
    ghost non_empty: { start < stop },
    ghost in_range: { stop ≤ max_number },
    ghost kept: { IsTrue (is_kept rest.now) },
}
