//! What no contract says of readers of records.

use super::*;
use crate::order::genome::Genome;
use crate::read::cursor::Cursor;
use crate::tests::{fault_at, genome_of, lines_of};
use bt_lines::{Input, Kind};
use std::alloc::AllocError;
use std::process::Abort;
use std::test::Fail;

const GENOME: &[u8] = b"chr1\t100\nchr2\t100\ntracks\t100\nbrowsers\t100\nchr11\t100\n";

// A record's line, the rank of its chromosome, its start and its stop.
type Found = (u64, usize, u64, u64);

// A text, its records, and what is wrong at which line.
type Row<'a> = (&'a [u8], &'a [Found], Option<(Kind, u64)>);

fn seen(genome: &Genome, line: u64, bed: BedRef<'_>) -> Found {
    let rank = genome.rank(bed.chrom).unwrap_or(usize::MAX);
    (line, rank, bed.start, bed.stop)
}

// Takes the record ahead, and returns true if there was one.
fn take_peeked<S: Source>(
    genome: &Genome,
    records: &mut Records<'_, S, Genome>,
    found: &mut Vec<Found>,
) -> Result<Result<bool, Fault>, AllocError> {
    let (_, rank, start, stop) = match records.peek() {
        Ok(Some(bed)) => seen(genome, 0, bed),
        Ok(None) => return Ok(Ok(false)),
        Err(fault) => return Ok(Err(fault)),
    };
    found.push((records.line(), rank, start, stop))?;
    records.advance();
    Ok(Ok(true))
}

// Takes at most `most` records of the next batch, and returns true if there was one.
fn take_batch<S: Source>(
    genome: &Genome,
    records: &mut Records<'_, S, Genome>,
    most: usize,
    found: &mut Vec<Found>,
) -> Result<Result<bool, Fault>, AllocError> {
    match records.fill() {
        Ok(true) => {}
        other => return Ok(other),
    }
    let mut batch = records.buffered();
    for _ in 0..most {
        if let Some(record) = batch.next() {
            found.push(seen(genome, batch.line(), record.to_bed()))?;
        }
    }
    let consumed = batch.consumed();
    records.consume(consumed);
    Ok(Ok(true))
}

// The records that are left, taken in batches of at most this many or else one by one, and the fault.
fn collect<S: Source>(
    alloc: Global,
    genome: &Genome,
    records: &mut Records<'_, S, Genome>,
    most: Option<usize>,
) -> Result<(Vec<Found>, Option<(Kind, u64)>), AllocError> {
    let mut found = Vec::new(alloc);
    for _ in 0..100 {
        let taken = match most {
            Some(most) => take_batch(genome, records, most, &mut found)?,
            None => take_peeked(genome, records, &mut found)?,
        };
        match taken {
            Ok(true) => {}
            Ok(false) => return Ok((found, None)),
            Err(fault) => return Ok((found, Some(fault_at(fault, Input::First)))),
        }
    }
    Ok((found, None))
}

// How a text is read: in pieces of how many bytes, how many of which are good, and in batches of at
// most how many records.
type How = (usize, Option<usize>, Option<usize>);

// Whether a text gives the records and the fault so, and the fault alone when more are requested.
fn agrees(alloc: Global, genome: &Genome, row: Row<'_>, how: How) -> Result<bool, AllocError> {
    let (step, good, most) = how;
    let lines = lines_of(alloc, Input::First, row.0, step, good);
    let mut records = Records::new(alloc, lines, genome);
    let first = collect(alloc, genome, &mut records, most);
    let again = collect(alloc, genome, &mut records, most);
    let _ = records.into_reader().into_source();
    let ((found, fault), (others, same)) = (first?, again?);
    Ok(found.as_slice() == row.1 && others.is_empty() && (fault, same) == (row.2, row.2))
}

#[rattlefmt::skip]
const WAYS: [How; 5] = [
    (1, None, None), (7, None, None), (7, None, Some(9)), (8192, None, Some(1)), (8192, None, Some(9)),
];

fn check_rows(
    rt: &impl Abort,
    alloc: Global,
    genome: &Genome,
    rows: &[Row],
    ways: &[How],
) -> Result<(), AllocError> {
    for row in rows {
        for how in ways {
            assert!(rt; agrees(alloc, genome, *row, *how)?, "{:?} {how:?}", row.0);
        }
    }
    Ok(())
}

const ONE: Found = (1, 0, 0, 5);

const TWO: Found = (2, 1, 0, 5);

#[rattlefmt::skip]
const ROWS: [Row; 18] = [
    (b"track name=x\n#chr1\t5\nbrowser\n", &[], None),
    (b"track name=x\r\nchr1\t000\t5\r\nchr1\t20\t30", &[(2, 0, 0, 5), (3, 0, 20, 30)], None),
    (b"chr1\t0\t5\n#\nbrowser position\ntrack\tx\nchr1\t0\t3\tn\t0\t-\n",
        &[ONE, (5, 0, 0, 3)], None),
    (b"chr1\t0\t5\nchr1\t0000000000001\t00000000000000000002\n", &[ONE, (2, 0, 1, 2)], None),
    (b"chr1\t0\t5\nchr11\t0\t9\nchr11\t3\t4\n", &[ONE, (2, 4, 0, 9), (3, 4, 3, 4)], None),
    (b"tracks\t0\t5\ntrack s\t1\t2\ntracks\t0\t2\n", &[(1, 2, 0, 5), (3, 2, 0, 2)], None),
    (b"browsers\t0\t5\nbrowser\t6\t7\nbrowser position\nbrowsers\t6\t7",
        &[(1, 3, 0, 5), (4, 3, 6, 7)], None),
    (b"chr2\t4\t5\n\nchr2\t4\t9\r\n\r\nchr2\t5\t6\t",
        &[(1, 1, 4, 5), (3, 1, 4, 9), (5, 1, 5, 6)], None),
    (b"chr1\t5\t9\nchr1\t4\t9\nchr1\t6\t9\n", &[(1, 0, 5, 9)], Some((Kind::OutOfOrder, 2))),
    (b"chr1\t0\t5\nchr2\t0\t5\nchr1\t6\t8\n", &[ONE, TWO], Some((Kind::OutOfOrder, 3))),
    (b"trackX\t1\t2\n", &[], Some((Kind::UnknownChrom, 1))),
    (b"chr1\t0\t5\nchr10\t0\t5\nchr2\t0\t5\n", &[ONE], Some((Kind::UnknownChrom, 2))),
    (b"\nchr1\t1000000000000\t5\n", &[], Some((Kind::BadStart, 2))),
    (b"\t1\t2\n", &[], Some((Kind::EmptyName, 1))),
    (b"chr1\t0\t5\nchr1\t\t5\n", &[ONE], Some((Kind::BadStart, 2))),
    (b"chr1\t0\t5\nchr1\t1\t5x\n", &[ONE], Some((Kind::BadStop, 2))),
    (b"chr1\t5\t9\nchr1\t4\t4\n", &[(1, 0, 5, 9)], Some((Kind::EmptyFeature, 2))),
    (b"chr1\t0\t5\nchr1\t5\n", &[ONE], Some((Kind::TooFewColumns, 2))),
];

#[test]
fn reads_records_in_order(rt: HostRuntime) -> Result<(), Fail> {
    let genome = genome_of(rt.alloc(), GENOME, 7, None)?;
    Ok(check_rows(&rt, rt.alloc(), &genome, &ROWS, &WAYS)?)
}

// How many bytes of two lines are good, and what is given then.
const CUT_OFF: [(usize, &[Found], Option<(Kind, u64)>); 4] = [
    (0, &[], Some((Kind::ReadFailed, 1))),
    (12, &[ONE], Some((Kind::ReadFailed, 2))),
    (18, &[ONE, TWO], Some((Kind::ReadFailed, 3))),
    (19, &[ONE, TWO], None),
];

#[test]
fn a_failed_read_is_reported(rt: HostRuntime) -> Result<(), Fail> {
    let genome = genome_of(rt.alloc(), GENOME, 7, None)?;
    for (good, records, fault) in &CUT_OFF {
        let row: Row = (b"chr1\t0\t5\nchr2\t0\t5\n", *records, *fault);
        check_rows(&rt, rt.alloc(), &genome, &[row], &[(7, Some(*good), None)])?;
    }
    Ok(())
}
