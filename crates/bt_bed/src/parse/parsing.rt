//! What a line of a BED file says.

ghost use Rattle.std.specs.Prelude.{◌≡◌, ◌-◌, ◌≤◌, IfOk, IfSome, List, drop, length, ℕ};
ghost use Rattle.bt_bed.specs.calls.Bed.{feature_between, record_seen};
ghost use Rattle.bt_bed.specs.model.BedLine.{feature_of, record_of};
ghost use Rattle.bt_lines.specs.model.Lines.{pieces, value_of};

use crate::parse::header::says_nothing;
use crate::record::bed::BedRef;
use crate::record::kept_strand::{behind, kept_strand};
use crate::record::strand::Strand;
use bt_lines::{Kind, columns, number};

/// The feature of a line's text, or none if the line is blank or a header. By the UCSC BED description
/// columns are divided by tabs, the first base is numbered 0, and the end isn't included. `Err` has
/// the first fault that applies: fewer than three columns; an empty name of a chromosome; a start or an
/// end that isn't a number of at most twelve digits; a start that isn't below the end. It doesn't
/// allocate, and the feature borrows from the text: its `rest` begins at the tab after the third column.
pub fn parse_bed(text: &[u8]) -> Result<Option<BedRef<'_>>, Kind>
    ensures said { record_seen result ≡ record_of text.now }
    ensures suffix { IfOk result (λ said. IfSome said (λ bed. (length bed.rest.now ≤ length text.now)
        × (drop (length text.now - length bed.rest.now) text.now ≡ bed.rest.now))) }
{
    if says_nothing(text) {
        return Ok(None);
    }
    let mut columns = columns(text);
    let Some(chrom) = columns.next() else {
        return Err(Kind::TooFewColumns);
    };
    let Some(start) = columns.next() else {
        return Err(Kind::TooFewColumns);
    };
    let Some(stop) = columns.next() else {
        return Err(Kind::TooFewColumns);
    };
    let end = chrom.len() + start.len() + stop.len() + 2;
    let rest = behind(text, end);
    let (start, stop) = bounds(chrom, start, stop)?;
    let strand = kept_strand(text, end);
    Ok(Some(BedRef {
        chrom,
        start,
        stop,
        strand,
        rest,
    }))
}

// The start and the end that two columns denote.
fn bounds(chrom: &[u8], start: &[u8], stop: &[u8]) -> Result<(u64, u64), Kind>
    ensures { (rest : List (List ℕ)) → feature_between chrom.now result rest
        ≡ feature_of chrom.now (value_of start.now) (value_of stop.now) rest }
{
    if chrom.is_empty() {
        return Err(Kind::EmptyName);
    }
    let Some(start) = number(start) else {
        return Err(Kind::BadStart);
    };
    let Some(stop) = number(stop) else {
        return Err(Kind::BadStop);
    };
    if start >= stop {
        return Err(Kind::EmptyFeature);
    }
    Ok((start, stop))
}

#[cfg(test)]
mod tests {
    use super::*;
    use crate::parse::header::tests::HEADERS;
    use crate::record::strand::Strand::{Dot, Minus, Plus};
    use crate::tests::{Said, record, said};
    use std::process::Abort;

    #[rattlefmt::skip]
    const RECORDS: [(&[u8], &[u8], Said); 12] = [
        (b"chr1\t5\t9", b"chr1", (5, 9, Dot, b"")),
        (b"chr1\t5\t9\t", b"chr1", (5, 9, Dot, b"\t")),
        (b"chr 1\t007\t9\tn\t0\t-", b"chr 1", (7, 9, Minus, b"\tn\t0\t-")),
        (b"chr1\t007\t9\tn\t0\t++", b"chr1", (7, 9, Dot, b"\tn\t0\t++")),
        (b"chr1\t7\t9\tn\t+", b"chr1", (7, 9, Dot, b"\tn\t+")),
        (b"chr1\t7\t9\t\t\t+", b"chr1", (7, 9, Plus, b"\t\t\t+")),
        (b"chr1\t7\t9\tn\t0\t-\t+", b"chr1", (7, 9, Minus, b"\tn\t0\t-\t+")),
        (b"chr1\t7\t9\t+\t+\t.\t+", b"chr1", (7, 9, Dot, b"\t+\t+\t.\t+")),
        (b"chr1\t12345678\t123456789\tabcdefghij\t789\t+", b"chr1",
            (12_345_678, 123_456_789, Plus, b"\tabcdefghij\t789\t+")),
        (b"trackX\t1\t2", b"trackX", (1, 2, Dot, b"")),
        (b"tracks\t1\t2", b"tracks", (1, 2, Dot, b"")),
        (b" \t999999999998\t999999999999", b" ", (999_999_999_998, 999_999_999_999, Dot, b"")),
    ];

    // Whether a line has the record of this chromosome that says this.
    fn has_record(line: &[u8], chrom: &[u8], want: Said<'_>) -> bool {
        match record(line) {
            Some(bed) => bed.chrom == chrom && said(bed) == want,
            None => false,
        }
    }

    fn check_records(rt: &impl Abort, rows: &[(&[u8], &[u8], Said)]) {
        for (line, chrom, want) in rows {
            assert!(rt; has_record(line, chrom, *want), "{line:?}");
        }
    }

    #[test]
    fn lines_say_records(rt: HostRuntime) {
        check_records(&rt, &RECORDS);
    }

    #[rattlefmt::skip]
    const FAULTS: [(&[u8], Kind); 11] = [
        (b"chr1\t5", Kind::TooFewColumns), (b"chr1 5 9", Kind::TooFewColumns),
        (b"\tx\ty", Kind::EmptyName),
        (b"chr1\t\t5", Kind::BadStart), (b"chr1\t-1\tx", Kind::BadStart),
        (b"chr1\t1000000000000\t5", Kind::BadStart),
        (b"chr1\t1\t12345678p", Kind::BadStop), (b"chr1\t1\t2\r", Kind::BadStop),
        (b"chr1\t5\t1000000000000", Kind::BadStop),
        (b"chr1\t5\t5", Kind::EmptyFeature), (b"chr1\t6\t5", Kind::EmptyFeature),
    ];

    fn check_others(rt: &impl Abort, headers: &[&[u8]], faults: &[(&[u8], Kind)]) {
        for line in headers {
            assert!(rt; matches!(parse_bed(line), Ok(None)), "{line:?}");
        }
        for (line, kind) in faults {
            assert_eq!(rt; parse_bed(line).err(), Some(*kind), "{line:?}");
        }
    }

    #[test]
    fn other_lines_say_none(rt: HostRuntime) {
        check_others(&rt, &HEADERS, &FAULTS);
    }
}
