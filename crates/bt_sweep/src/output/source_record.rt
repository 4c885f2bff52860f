//! A record with the line that it was read from.

ghost use Rattle.std.specs.Prelude.{◌≡◌, ◌++◌};
ghost use Rattle.std.specs.Option.{ForSome};
ghost use Rattle.bt_lines.specs.calls.Output.{Puts};
ghost use Rattle.bt_bed.specs.calls.Bed.{feature_lent};
ghost use Rattle.bt_bed.specs.model.BedLine.{bed_text};

use bt_bed::{BedRef, Record, put_bed};
use bt_lines::{Fault, Out, Sink, put_line};

// A record, with its source line if that is available and is what is written of the record.
#[derive(Clone, Copy)]
pub(crate) struct SourceRecord<'a> {
    // The record.
    pub(crate) bed: BedRef<'a>,
    // The line, without its end.
    text: Option<&'a [u8]>,
    ghost stands: { ForSome text (λ t. t.now ≡ bed_text (feature_lent bed)) },
}

impl<'a> SourceRecord<'a> {
    // A record without a line.
    #[inline(always)]
    pub(crate) fn of_bed(bed: BedRef<'a>) -> SourceRecord<'a>
        ensures { result.bed ≡ bed.entry }
    {
        SourceRecord { bed, text: None }
    }

    // The record, with its line if that is what is written of it.
    #[inline(always)]
    pub(crate) fn of<R: Record>(a: &'a R) -> SourceRecord<'a>
        ensures { feature_lent result.bed ≡ R.feature a.now }
    {
        SourceRecord {
            bed: a.bed(),
            text: a.written(),
        }
    }
}

// Puts a record and what ends it, such as a tab or a line feed. If its line is what is written of it, that is put, and no
// number is printed.
#[inline(always)]
pub(crate) fn put_record<K: Sink>(
    a: &SourceRecord<'_>,
    end: &[u8],
    out: &mut Out<K>,
) -> Result<(), Fault>
    ensures { Puts out.old.output (bed_text (feature_lent a.now.bed) ++ end.now) result out.new.output }
{
    match a.text {
        None => put_bed(&a.bed, end, out),
        Some(text) => put_line(text, end, out),
    }
}
