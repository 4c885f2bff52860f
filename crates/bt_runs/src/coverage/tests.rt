//! Worked depths, and thousands of records that are open at once.

use super::*;
use crate::tests::batch_tests::check_batches;
use crate::tests::testing::{
    Row, check_failing, check_row, feed_line, genome, holds, output, same_answer, written_len,
};
use bt_lines::ScriptSink;
use std::alloc::{AllocError, Global};
use std::process::Abort;
use std::test::Fail;

// The genome file of the cases.
const GENOME: &[u8] = b"chr1\t20\nchr2\t5\n";

// Whether depth 0 is reported, the strand that is counted, and the cases. What is kept are the counted records on the last
// chromosome that start below its length and end, cut there, at the last start or past it.
type Rows = (bool, Option<Strand>, &'static [Row]);

#[rattlefmt::skip]
const CASES: [Rows; 4] = [
    (false, None, &[
        ("no record", &[], b"", b""),
        ("one after another", &[(b"chr1\t0\t10", 1), (b"chr1\t10\t20", 2)],
            b"", b"chr1\t0\t20\t1\n"),
        ("one within another, and one that touches it",
            &[(b"chr1\t0\t10", 1), (b"chr1\t5\t10", 2), (b"chr1\t10\t15", 3)],
            b"chr1\t0\t5\t1\n", b"chr1\t5\t10\t2\nchr1\t10\t15\t1\n"),
        ("depth 0 between, not asked for", &[(b"chr1\t0\t5", 1), (b"chr1\t7\t9", 1)],
            b"chr1\t0\t5\t1\n", b"chr1\t7\t9\t1\n"),
        ("the last start isn't settled", &[(b"chr1\t0\t5", 1), (b"chr1\t5\t9", 2)],
            b"", b"chr1\t0\t9\t1\n"),
        ("at the length", &[(b"chr2\t3\t9", 1), (b"chr2\t5\t9", 1)], b"", b"chr2\t3\t5\t1\n"),
        ("from one chromosome to the next",
            &[(b"chr1\t2\t9", 1), (b"chr1\t3\t9", 2), (b"chr2\t0\t1", 1)],
            b"chr1\t2\t3\t1\nchr1\t3\t9\t2\n", b"chr2\t0\t1\t1\n"),
        ("two on the second chromosome",
            &[(b"chr1\t2\t9", 1), (b"chr2\t0\t3", 1), (b"chr2\t1\t5", 2)],
            b"chr1\t2\t9\t1\n", b"chr2\t0\t1\t1\nchr2\t1\t3\t2\nchr2\t3\t5\t1\n"),
        ("an end between the starts",
            &[(b"chr1\t0\t9", 1), (b"chr1\t0\t3", 2), (b"chr1\t2\t9", 3), (b"chr2\t0\t1", 1)],
            b"chr1\t0\t2\t2\nchr1\t2\t3\t3\nchr1\t3\t9\t2\n", b"chr2\t0\t1\t1\n"),
        ("ends in another order than the starts, some at one position",
            &[(b"chr1\t0\t12", 1), (b"chr1\t0\t3", 2), (b"chr1\t1\t12", 3), (b"chr1\t2\t5", 4),
              (b"chr1\t4\t6", 4), (b"chr1\t5\t8", 5), (b"chr1\t8\t30", 4), (b"chr1\t12\t13", 4),
              (b"chr1\t13\t14", 3)],
            b"chr1\t0\t1\t2\nchr1\t1\t2\t3\nchr1\t2\t3\t4\nchr1\t3\t4\t3\n\
              chr1\t4\t6\t4\nchr1\t6\t12\t3\n",
            b"chr1\t12\t14\t2\nchr1\t14\t20\t1\n"),
        ("one within another, and one apart",
            &[(b"chr1\t0\t1", 1), (b"chr1\t0\t7", 2), (b"chr1\t3\t5", 2), (b"chr1\t9\t10", 1)],
            b"chr1\t0\t1\t2\nchr1\t1\t3\t1\nchr1\t3\t5\t2\nchr1\t5\t7\t1\n", b"chr1\t9\t10\t1\n"),
        ("touching, and one within the last",
            &[(b"chr1\t1\t2", 1), (b"chr1\t2\t3", 2), (b"chr1\t4\t18", 1), (b"chr1\t10\t15", 2)],
            b"chr1\t1\t3\t1\n", b"chr1\t4\t10\t1\nchr1\t10\t15\t2\nchr1\t15\t18\t1\n"),
        ("twice the same, and one past the length",
            &[(b"chr1\t3\t9", 1), (b"chr1\t3\t9", 2), (b"chr1\t9\t12", 3), (b"chr1\t12\t30", 2)],
            b"chr1\t3\t9\t2\n", b"chr1\t9\t20\t1\n"),
        ("past the length, depth 0 not asked for",
            &[(b"chr1\t5\t6", 1), (b"chr1\t20\t21", 0), (b"chr1\t22\t23", 0)],
            b"chr1\t5\t6\t1\n", b""),
        ("a whole chromosome", &[(b"chr1\t0\t20", 1)], b"", b"chr1\t0\t20\t1\n"),
        ("each within the one before, and two more",
            &[(b"chr1\t0\t9", 1), (b"chr1\t1\t8", 2), (b"chr1\t2\t7", 3), (b"chr1\t3\t6", 4),
              (b"chr1\t4\t5", 5), (b"chr1\t6\t7", 5), (b"chr1\t8\t9", 3)],
            b"chr1\t0\t1\t1\nchr1\t1\t2\t2\nchr1\t2\t3\t3\nchr1\t3\t4\t4\nchr1\t4\t5\t5\n\
              chr1\t5\t7\t4\n", b"chr1\t7\t9\t2\n"),
        ("ends that lie close together",
            &[(b"chr1\t0\t5", 1), (b"chr1\t0\t3", 2), (b"chr1\t0\t4", 3), (b"chr1\t2\t3", 4),
              (b"chr1\t3\t5", 5), (b"chr1\t5\t9", 3), (b"chr1\t5\t7", 4)],
            b"chr1\t0\t2\t3\nchr1\t2\t3\t4\nchr1\t3\t4\t3\n",
            b"chr1\t4\t7\t2\nchr1\t7\t9\t1\n"),
    ]),
    (true, None, &[
        ("no record, with zeros", &[], b"", b"chr1\t0\t20\t0\nchr2\t0\t5\t0\n"),
        ("the second chromosome, with zeros", &[(b"chr2\t3\t9", 1)],
            b"chr1\t0\t20\t0\n", b"chr2\t0\t3\t0\nchr2\t3\t5\t1\n"),
        ("past the length", &[(b"chr2\t3\t4", 1), (b"chr2\t6\t9", 0)],
            b"chr1\t0\t20\t0\nchr2\t0\t3\t0\nchr2\t3\t4\t1\nchr2\t4\t5\t0\n", b""),
    ]),
    (false, Some(Strand::Minus), &[
        ("one strand", &[(b"chr1\t0\t10\ta\t0\t+", 0), (b"chr1\t5\t15\tb\t0\t-", 1)],
            b"", b"chr1\t5\t15\t1\n"),
    ]),
    (true, Some(Strand::Plus), &[
        ("a record of the other strand settles",
            &[(b"chr1\t3\t4\ta\t0\t+", 1), (b"chr1\t6\t9\tb\t0\t-", 0)],
            b"chr1\t0\t3\t0\nchr1\t3\t4\t1\n", b"chr1\t4\t20\t0\nchr2\t0\t5\t0\n"),
    ]),
];

fn check(rt: &impl Abort, alloc: Global, genome: &Genome, rows: &Rows) -> Result<(), Fail> {
    let (zeros, strand, rows) = *rows;
    for row in rows {
        check_row(rt, alloc, Coverage::new(alloc, genome, zeros, strand), row);
        check_batches(rt, alloc, Coverage::new(alloc, genome, zeros, strand), row)?;
        for room in 0..written_len(row) {
            let coverage = Coverage::new(alloc, genome, zeros, strand);
            check_failing(rt, alloc, coverage, row, room)?;
        }
    }
    Ok(())
}

fn check_all(rt: &impl Abort, alloc: Global, cases: &[Rows]) -> Result<(), Fail> {
    let genome = genome(alloc, GENOME)?;
    for rows in cases {
        check(rt, alloc, &genome, rows)?;
    }
    Ok(())
}

#[test]
fn worked_rows(rt: HostRuntime) -> Result<(), Fail> {
    check_all(&rt, rt.alloc(), &CASES)
}

// Feeds one record of the first chromosome, and answers how many are kept then.
fn kept_with<K: Sink>(
    alloc: Global,
    coverage: &mut Coverage<'_>,
    (start, stop): (u64, u64),
    out: &mut Out<K>,
) -> Result<usize, AllocError> {
    let line = format!(in alloc; "chr1\t{start}\t{stop}")?;
    let _ = feed_line(coverage, line.as_bytes(), out).is_ok();
    Ok(coverage.kept_len())
}

// Whether all of 4000 records are kept, which start from 0 on, each within the one before it.
fn keeps_nested(
    alloc: Global,
    coverage: &mut Coverage<'_>,
    out: &mut Out<ScriptSink>,
) -> Result<bool, AllocError> {
    for start in 0..4000u64 {
        if kept_with(alloc, coverage, (start, 20000 - start), out)? as u64 != start + 1 {
            return Ok(false);
        }
    }
    Ok(true)
}

#[test]
fn thousands_of_records_are_open_at_once(rt: HostRuntime) -> Result<(), Fail> {
    let genome = genome(rt.alloc(), b"chr1\t20000\n")?;
    let mut coverage = Coverage::new(rt.alloc(), &genome, false, None);
    let mut out = output(rt.alloc(), 512);
    let all = keeps_nested(rt.alloc(), &mut coverage, &mut out);
    // The 2001 that end at 18000 or past it, and the record itself.
    let open = kept_with(rt.alloc(), &mut coverage, (18000, 18001), &mut out);
    let answer = coverage.finish(&mut out).and(out.flush());
    let sink = out.into_sink();
    let begins = sink.taken().starts_with(b"chr1\t0\t1\t1\nchr1\t1\t2\t2\n");
    let last = b"chr1\t19998\t19999\t2\nchr1\t19999\t20000\t1\n";
    holds(&rt, all == Ok(true) && open == Ok(2002), "kept");
    same_answer(&rt, answer, Ok(()), "the end");
    holds(
        &rt,
        begins && sink.taken().ends_with(last),
        "the first and the last lines",
    );
    Ok(())
}
