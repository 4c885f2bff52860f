//! Batches and single records give the same.

use super::*;
use crate::order::byte_order::ByteOrder;
use crate::record::strand::Strand;
use crate::tests::{holds, record, records_of};
use std::test::Fail;

// A record's bounds, its strand and what is kept of it; how many bytes are consumed with it, and
// whether its line is what is written for it.
type Want = ((u64, u64), Strand, &'static [u8], usize, bool);

// Whether the next record, which is consumed, is this one, on the chromosome `chr1`.
fn gives<C: Cursor>(records: &mut C, (bounds, strand, rest, offset, is_line): Want) -> bool {
    if records.chrom() != b"chr1".as_slice() {
        return false;
    }
    let Some(record) = records.next() else {
        return false;
    };
    (record.start(), record.stop()) == bounds
        && record.strand() == strand
        && (records.offset(), record.is_canonical_line()) == (offset, is_line)
        && record.bed().rest == rest
}

// Whether the records that are left, which are consumed, are these.
fn gives_all<C: Cursor>(records: &mut C, wants: &[Want]) -> bool {
    for want in wants {
        if !gives(records, *want) {
            return false;
        }
    }
    records.next().is_none()
}

// Whether these bytes lie between two offsets of what was consumed.
fn lies_between<C: Cursor>(records: &C, from: usize, to: usize, bytes: &[u8]) -> bool {
    from <= to && to <= records.offset() && records.between(from, to) == bytes
}

#[test]
fn a_single_record_is_given_once(rt: HostRuntime) -> Result<(), Fail> {
    let mut one = Single::new(record(b"chr1\t2\t4\tn\t0\t-").ok_or("a record")?, 3);
    let is_some = !one.is_empty() && Single::none(b"chr1").is_empty();
    let is_given = gives_all(&mut one, &[((2, 4), Strand::Minus, b"\tn\t0\t-", 0, false)]);
    let is_after = one.is_empty() && one.line() == 3 && lies_between(&one, 0, 0, b"");
    holds(&rt, is_some && is_given && is_after, "one record");
    Ok(())
}

const BUFFERED: [Want; 4] = [
    ((1, 5), Strand::Dot, b"", 9, true),
    ((2, 4), Strand::Minus, b"\tn\t0\t-", 24, true),
    ((2, 6), Strand::Dot, b"", 34, false),
    ((3, 9), Strand::Dot, b"", 44, false),
];

#[test]
fn buffered_records_are_given_in_order(rt: HostRuntime) {
    let order = ByteOrder;
    let text = b"chr1\t1\t5\nchr1\t2\t4\tn\t0\t-\nchr1\t02\t6\nchr1\t3\t9\r\nchr2\t1\t2\n";
    let mut records = records_of(rt.alloc(), text, 8192, &order);
    let is_filled = records.fill().is_ok();
    let mut batch = records.buffered();
    let are_given = gives_all(&mut batch, &BUFFERED)
        && Cursor::line(&batch) == 4
        && lies_between(&batch, 24, 24, b"")
        && lies_between(&batch, 9, 34, b"chr1\t2\t4\tn\t0\t-\nchr1\t02\t6\n");
    let _ = records.into_reader().into_source();
    holds(&rt, is_filled && are_given, "four records");
}
