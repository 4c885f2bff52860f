use super::*;
use crate::tests::{fault_at, lines_of};
use bt_lines::{Input, Kind};
use std::process::Abort;

// A record's line, its chromosome, its start and its stop.
type Found = (u64, &'static [u8], u64, u64);

// A text, its records, and what is wrong at which line.
type Row = (&'static [u8], &'static [Found], Option<(Kind, u64)>);

fn is_it(bed: BedRef<'_>, want: Found) -> bool {
    (bed.chrom, bed.start, bed.stop) == (want.1, want.2, want.3)
}

// Whether the record ahead is this one, also at a second `peek`. It is consumed then.
fn gives<S: Source>(blocks: &mut Blocks<S>, want: Found) -> bool {
    let is_first = matches!(blocks.peek(), Ok(Some(bed)) if is_it(bed, want));
    if !matches!(blocks.peek(), Ok(Some(bed)) if is_it(bed, want)) {
        return false;
    }
    let is_line = blocks.line() == want.0;
    blocks.advance();
    is_first && is_line
}

// Whether no record is left, and this is wrong, or nothing.
fn stops<S: Source>(blocks: &mut Blocks<S>, want: Option<(Kind, u64)>) -> bool {
    match blocks.peek() {
        Ok(None) => want.is_none(),
        Ok(Some(_)) => false,
        Err(fault) => Some(fault_at(fault, Input::Second)) == want,
    }
}

fn gives_all<S: Source>(blocks: &mut Blocks<S>, (_, records, fault): Row) -> bool {
    for want in records {
        if !gives(blocks, *want) {
            return false;
        }
    }
    stops(blocks, fault) && stops(blocks, fault)
}

// Whether a text that comes in pieces of seven bytes, and fails after the good ones, gives the
// records and the fault.
fn agrees(alloc: Global, row: Row, good: Option<usize>) -> bool {
    let mut blocks = Blocks::new(alloc, lines_of(alloc, Input::Second, row.0, 7, good));
    let are_given = gives_all(&mut blocks, row);
    let _ = blocks.into_reader().into_source();
    are_given
}

#[rattlefmt::skip]
const IN_BLOCKS: [Row; 9] = [
    (b"s\t0\t1\nt\t0\t1\ns\t0\t1\n", &[(1, b"s", 0, 1), (2, b"t", 0, 1), (3, b"s", 0, 1)], None),
    (b"t\t9\t10\ns\t5\t6\n\nt\t3\t4", &[(1, b"t", 9, 10), (2, b"s", 5, 6), (4, b"t", 3, 4)], None),
    (b"chr1\t007\t9\r\nchr1\t7\t8\tn\t0\t-\n", &[(1, b"chr1", 7, 9), (2, b"chr1", 7, 8)], None),
    (b"chr1\t3\t4\nchr10\t1\t2\nchr1\t0\t9\n",
        &[(1, b"chr1", 3, 4), (2, b"chr10", 1, 2), (3, b"chr1", 0, 9)], None),
    (b"scaffold_11\t1\t2\nscaffold_11\t3\t4\nscaffold_12\t0\t4\n",
        &[(1, b"scaffold_11", 1, 2), (2, b"scaffold_11", 3, 4), (3, b"scaffold_12", 0, 4)], None),
    (b"s\t3\t4\ns\t1\t2\n", &[(1, b"s", 3, 4)], Some((Kind::OutOfOrder, 2))),
    (b"t\t3\t4\ns\t1\t2\n#\ns\t0\t9\n", &[(1, b"t", 3, 4), (2, b"s", 1, 2)],
        Some((Kind::OutOfOrder, 4))),
    (b"s\t0\t1\ns\tx\t2\n", &[(1, b"s", 0, 1)], Some((Kind::BadStart, 2))),
    (b"chr1\t5\n", &[], Some((Kind::TooFewColumns, 1))),
];

// How many bytes of two lines are good, the records that are given then, and the line of the failed read.
const CUT_OFF: [(usize, &[Found], u64); 3] = [
    (5, &[], 1),
    (11, &[(1, b"t", 0, 5)], 2),
    (12, &[(1, b"t", 0, 5), (2, b"s", 0, 5)], 3),
];

fn check_rows(rt: &impl Abort, alloc: Global, rows: &[Row]) {
    for row in rows {
        assert!(rt; agrees(alloc, *row, None), "{:?}", row.0);
    }
}

#[test]
fn reads_records_in_blocks(rt: HostRuntime) {
    check_rows(&rt, rt.alloc(), &IN_BLOCKS);
}

#[test]
fn a_failed_read_is_reported(rt: HostRuntime) {
    for (good, records, line) in &CUT_OFF {
        let text = b"t\t0\t5\ns\t0\t5\n".as_slice();
        let row: Row = (text, *records, Some((Kind::ReadFailed, *line)));
        assert!(rt; agrees(rt.alloc(), row, Some(*good)), "{good}");
    }
}
