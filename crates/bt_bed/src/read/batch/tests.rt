//! Records that are buffered, one after another.

use super::*;
use crate::order::byte_order::ByteOrder;
use crate::record::Record;
use crate::record::strand::Strand;
use crate::tests::{holds, records_of};
use std::alloc::Global;
use std::process::Abort;

// What a line says of its record, and whether that is written as the line is.
fn is_line_of(line: RawRecord<'_>, text: &[u8], bounds: (u64, u64), is_canonical: bool) -> bool {
    let bed = line.to_bed();
    line.text() == text
        && (line.start(), line.stop()) == bounds
        && (bed.start, bed.stop) == bounds
        && line.is_canonical() == is_canonical
}

// Whether a batch has a record that is written as its line is, and one whose number begins with a
// zero.
fn gives_lines(batch: Batch<'_>) -> bool {
    let mut ahead = batch;
    let (Some(first), Some(second)) = (ahead.next(), ahead.next()) else {
        return false;
    };
    is_line_of(first, b"chr1\t2\t4\tn\t0\t-", (2, 4), true)
        && first.strand() == Strand::Minus
        && is_line_of(second, b"chr1\t02\t6", (2, 6), false)
        && ahead.first().is_none()
}

#[test]
fn records_are_given_up_to_one_that_is_out_of_order(rt: HostRuntime) {
    let order = ByteOrder;
    let text = b"chr1\t2\t4\tn\t0\t-\nchr1\t02\t6\r\nchr1\t1\t9\n";
    let mut records = records_of(rt.alloc(), text, 8192, &order);
    let are_given = matches!(records.fill(), Ok(true)) && gives_lines(records.buffered());
    let _ = records.into_reader().into_source();
    holds(&rt, are_given, "two records");
}

// The bounds of the record of a second line, if it lies in one batch with that of the first.
type Second = Option<(u64, u64)>;

// Texts, and the bounds of their second records.
#[rattlefmt::skip]
const PAIRS: [(&[u8], Second); 16] = [
    (b"chr1\t1\t5\nchr1\t1234567\t12345678\tn\n", Some((1234567, 12345678))),
    (b"chr1\t1\t5\nchr1\t123456789\t1234567890\t\n", Some((123456789, 1234567890))),
    (b"chr1\t1\t5\nchr1\t99999999999\t999999999999\n", Some((99999999999, 999999999999))),
    (b"chr1\t1\t5\nchr1\t000000000007\t08\r\n", Some((7, 8))),
    (b"1\t1\t5\n1\t7\t8\n", Some((7, 8))),
    (b"chr1_ab\t1\t5\nchr1_ab\t7\t8\n", Some((7, 8))),
    (b"chr1_abc\t1\t5\nchr1_abc\t7\t8\n", Some((7, 8))),
    (b"chr1_abcd\t1\t5\nchr1_abcd\t7\t8\n", Some((7, 8))),
    (b"NC_000001.11 of an assembly\t1\t5\nNC_000001.11 of an assembly\t5\t6\n", Some((5, 6))),
    (b"chr1\t1\t5\nchr1\t7\t8\t0123456789abcdefghijklmnopqrstuvwxyz0123456789abcdefghijklmnopqrstuvwxyz0123456789abcdefghijklmnopqrstuvwxyz\n", Some((7, 8))),
    (b"chr1\t1\t5\nchr1\t7\t8", None),
    (b"chr1\t1\t5\nchr11\t7\t8\n", None),
    (b"chr1\t5\t9\nchr1\t4\t8\n", None),
    (b"chr1\t1\t5\nchr1\t7\n8\t9\n", None),
    (b"chr1\t1\t5\nchr1\t9999999999999\t5\n", None),
    (b"chr1\t1\t5\n#\nchr1\t7\t8\n", None),
];

// Whether the first batch has one record and, if bounds are wanted, just one more, of those bounds.
fn has_second(mut batch: Batch<'_>, want: Second) -> bool {
    if batch.next().is_none() {
        return false;
    }
    let bounds = match batch.next() {
        Some(second) => Some((second.start(), second.stop())),
        None => None,
    };
    bounds == want && batch.next().is_none()
}

fn check_pairs(rt: &impl Abort, alloc: Global, rows: &[(&[u8], Second)]) {
    let order = ByteOrder;
    for (text, want) in rows {
        let mut records = records_of(alloc, text, 8192, &order);
        let is_it = matches!(records.fill(), Ok(true)) && has_second(records.buffered(), *want);
        let _ = records.into_reader().into_source();
        assert!(rt; is_it, "{text:?}");
    }
}

#[test]
fn records_are_read_whatever_their_first_columns_look_like(rt: HostRuntime) {
    check_pairs(&rt, rt.alloc(), &PAIRS);
}
