//! Worked merges, and many runs that wait for an open one.

use super::MergeStrand::{All, Each, One};
use super::*;
use crate::plain::{PlainSpan, plain_runs};
use crate::tests::batch_tests::check_batches;
use crate::tests::testing::{
    Row, check_failing, check_row, expect_end, feed_kept, feed_line, holds, output, same_answer,
    written_len,
};
use bt_bed::Strand::{Dot, Minus, Plus};
use bt_lines::ScriptSink;
use std::alloc::AllocError;
use std::process::Abort;
use std::test::Fail;

// The gap, the records that are merged, and the cases: kept are runs.
type Rows = (u64, MergeStrand, &'static [Row]);

const GREATEST: u64 = 999_999_999_999;

#[rattlefmt::skip]
const FOUR: &[(&[u8], usize)] = &[
    (b"chr1\t100\t200", 1), (b"chr1\t180\t250", 1), (b"chr1\t250\t500", 1), (b"chr1\t501\t1000", 1),
];

#[rattlefmt::skip]
const CASES: [Rows; 12] = [
    (0, All, &[
        ("no record", &[], b"", b""),
        ("overlapping and touching", FOUR, b"chr1\t100\t500\n", b"chr1\t501\t1000\n"),
        ("one within another", &[(b"chr1\t0\t90", 1), (b"chr1\t30\t50", 1)], b"", b"chr1\t0\t90\n"),
        ("both strands",
            &[(b"chr1\t0\t100\ta\t0\t+", 1), (b"chr1\t10\t20\tb\t0\t-", 1),
              (b"chr1\t50\t120\tc\t0\t+", 1), (b"chr1\t60\t70\td\t0\t-", 1)],
            b"", b"chr1\t0\t120\n"),
    ]),
    (1, All, &[
        ("a gap of one, bridged", FOUR, b"", b"chr1\t100\t1000\n"),
        ("a gap of two, not bridged by one", &[(b"chr1\t250\t500", 1), (b"chr1\t502\t1000", 1)],
            b"chr1\t250\t500\n", b"chr1\t502\t1000\n"),
    ]),
    (10, All, &[
        ("three chromosomes",
            &[(b"chr1\t5\t9", 1), (b"chr10\t5\t9", 1), (b"chr10\t7\t12", 1), (b"chr2\t0\t1", 1)],
            b"chr1\t5\t9\nchr10\t5\t12\n", b"chr2\t0\t1\n"),
    ]),
    (GREATEST, All, &[
        ("the widest gap", &[(b"chr1\t0\t1", 1), (b"chr1\t999999999998\t999999999999", 1)],
            b"", b"chr1\t0\t999999999999\n"),
    ]),
    (0, One(Plus), &[
        ("the strand +",
            &[(b"chr1\t0\t100\ta\t0\t+", 1), (b"chr1\t10\t20\tb\t0\t-", 1),
              (b"chr1\t50\t120\tc\t0\t+", 1), (b"chr1\t60\t70\td\t0\t-", 1)],
            b"", b"chr1\t0\t120\n"),
        ("settled by a record that isn't merged",
            &[(b"chr1\t0\t10\ta\t0\t+", 1), (b"chr1\t20\t30\tb\t0\t-", 0)],
            b"chr1\t0\t10\n", b""),
    ]),
    (0, One(Minus), &[
        ("the strand -",
            &[(b"chr1\t0\t100\ta\t0\t+", 0), (b"chr1\t10\t20\tb\t0\t-", 1),
              (b"chr1\t50\t120\tc\t0\t+", 0), (b"chr1\t60\t70\td\t0\t-", 1)],
            b"chr1\t10\t20\n", b"chr1\t60\t70\n"),
    ]),
    (0, One(Dot), &[
        ("no strand",
            &[(b"chr1\t0\t100\ta\t0\t+", 0), (b"chr1\t10\t20", 1), (b"chr1\t20\t30\tc\t0\t.", 1)],
            b"", b"chr1\t10\t30\n"),
    ]),
    (10, One(Plus), &[
        ("not settled by one that starts the gap past the run",
            &[(b"chr1\t0\t10\ta\t0\t+", 1), (b"chr1\t20\t30\tb\t0\t-", 1)],
            b"", b"chr1\t0\t10\n"),
        ("joined after a record that isn't merged",
            &[(b"chr1\t0\t10\ta\t0\t+", 1), (b"chr1\t20\t30\tb\t0\t-", 1),
              (b"chr1\t20\t40\tc\t0\t+", 1)],
            b"", b"chr1\t0\t40\n"),
    ]),
    (GREATEST, One(Plus), &[
        ("settled by one on another chromosome",
            &[(b"chr2\t0\t10\ta\t0\t+", 1), (b"chr1\t5\t30\tb\t0\t-", 0),
              (b"chr1\t6\t31\tc\t0\t+", 1)],
            b"chr2\t0\t10\n", b"chr1\t6\t31\n"),
    ]),
    (0, Each, &[
        ("each strand",
            &[(b"chr1\t0\t100\ta\t0\t+", 1), (b"chr1\t10\t20\tb\t0\t-", 2),
              (b"chr1\t50\t120\tc\t0\t+", 2), (b"chr1\t60\t70\td\t0\t-", 3)],
            b"", b"chr1\t0\t120\nchr1\t10\t20\nchr1\t60\t70\n"),
        ("each strand, the strand - first",
            &[(b"chr1\t0\t10\ta\t0\t-", 1), (b"chr1\t5\t20\tb\t0\t+", 2)],
            b"", b"chr1\t0\t10\nchr1\t5\t20\n"),
        ("finished runs after an open one",
            &[(b"chr1\t0\t100\ta\t0\t+", 1), (b"chr1\t10\t20\tb\t0\t-", 2),
              (b"chr1\t60\t70\tc\t0\t-", 3)],
            b"", b"chr1\t0\t100\nchr1\t10\t20\nchr1\t60\t70\n"),
        ("settled once the open one is",
            &[(b"chr1\t0\t100\ta\t0\t+", 1), (b"chr1\t10\t20\tb\t0\t-", 2),
              (b"chr1\t60\t70\tc\t0\t-", 3), (b"chr1\t150\t160\td\t0\t+", 1)],
            b"chr1\t0\t100\nchr1\t10\t20\nchr1\t60\t70\n", b"chr1\t150\t160\n"),
        ("three strands open at once",
            &[(b"chr1\t0\t50\ta\t0\t.", 1), (b"chr1\t10\t40\tb\t0\t-", 2),
              (b"chr1\t20\t30\tc\t0\t+", 3), (b"chr1\t25\t60\td\t0\t-", 3),
              (b"chr1\t30\t35\te\t0\t+", 3), (b"chr1\t45\t48\tf\t0\t.", 3)],
            b"", b"chr1\t0\t50\nchr1\t10\t60\nchr1\t20\t35\n"),
        ("any other strand and none are one",
            &[(b"chr1\t0\t10", 1), (b"chr1\t5\t15\ta\t0\t.", 1), (b"chr1\t15\t20\tb\t0\tx", 1),
              (b"chr1\t18\t30\tc\t0\t+", 2)],
            b"", b"chr1\t0\t20\nchr1\t18\t30\n"),
        ("the runs after the first are settled one by one",
            &[(b"chr1\t0\t10\ta\t0\t+", 1), (b"chr1\t5\t30\tb\t0\t-", 2),
              (b"chr1\t20\t25\tc\t0\t+", 2), (b"chr1\t28\t29\td\t0\t.", 3),
              (b"chr1\t31\t32\te\t0\t+", 1)],
            b"chr1\t0\t10\nchr1\t5\t30\nchr1\t20\t25\nchr1\t28\t29\n", b"chr1\t31\t32\n"),
        ("joined after a run of another strand",
            &[(b"chr1\t0\t10\ta\t0\t+", 1), (b"chr1\t5\t12\tb\t0\t-", 2),
              (b"chr1\t10\t20\tc\t0\t+", 2), (b"chr1\t20\t21\td\t0\t-", 3),
              (b"chr1\t21\t30\te\t0\t-", 1)],
            b"chr1\t0\t20\nchr1\t5\t12\n", b"chr1\t20\t30\n"),
        ("no record, each strand", &[], b"", b""),
    ]),
    (10, Each, &[
        ("each strand across gaps",
            &[(b"chr1\t0\t10\ta\t0\t+", 1), (b"chr1\t5\t8\tb\t0\t-", 2),
              (b"chr1\t19\t25\tc\t0\t-", 3), (b"chr1\t20\t30\td\t0\t+", 3)],
            b"", b"chr1\t0\t30\nchr1\t5\t8\nchr1\t19\t25\n"),
    ]),
    (GREATEST, Each, &[
        ("a new chromosome while runs wait",
            &[(b"chr2\t0\t100\ta\t0\t+", 1), (b"chr2\t10\t20\tb\t0\t-", 2),
              (b"chr1\t5\t6\tc\t0\t-", 1), (b"chr1\t7\t9\td\t0\t+", 2)],
            b"chr2\t0\t100\nchr2\t10\t20\n", b"chr1\t5\t6\nchr1\t7\t9\n"),
    ]),
];

fn check(rt: &impl Abort, alloc: Global, (gap, strand, rows): &Rows) -> Result<(), Fail> {
    let gap = (*gap).min(GREATEST);
    for row in *rows {
        check_row(rt, alloc, Merge::new(alloc, gap, *strand), row);
        check_batches(rt, alloc, Merge::new(alloc, gap, *strand), row)?;
        for room in 0..written_len(row) {
            check_failing(rt, alloc, Merge::new(alloc, gap, *strand), row, room)?;
        }
    }
    Ok(())
}

fn check_all(rt: &impl Abort, alloc: Global, cases: &[Rows]) -> Result<(), Fail> {
    for rows in cases {
        check(rt, alloc, rows)?;
    }
    Ok(())
}

#[test]
fn worked_rows(rt: HostRuntime) -> Result<(), Fail> {
    check_all(&rt, rt.alloc(), &CASES)
}

// Feeds a merge with the records of these spans, and returns the spans.
fn feed_spans(
    rt: &impl Abort,
    alloc: Global,
    merge: &mut Merge,
    bounds: &[(u64, u64)],
    out: &mut Out<ScriptSink>,
) -> Result<Vec<PlainSpan>, AllocError> {
    let mut spans = Vec::new(alloc);
    for (start, stop) in bounds {
        let (start, stop) = (*start, *stop);
        let line = format!(in alloc; "c\t{start}\t{stop}")?;
        same_answer(rt, feed_line(merge, line.as_bytes(), out), Ok(()), "a span");
        spans.push((start, stop))?;
    }
    Ok(spans)
}

// The lines of the runs that the plain program gives.
fn plain_lines(alloc: Global, spans: &[PlainSpan], gap: u64) -> Result<Vec<u8>, AllocError> {
    let mut lines = Vec::new(alloc);
    for (start, stop) in plain_runs(alloc, spans, gap)?.as_slice() {
        let line = format!(in alloc; "c\t{start}\t{stop}\n")?;
        lines.extend_from_slice(line.as_bytes())?;
    }
    Ok(lines)
}

// Gaps, and the spans of records that are merged across them.
#[rattlefmt::skip]
const SPANS: [(u64, &[(u64, u64)]); 4] = [
    (0, &[(0, 1), (0, 7), (3, 5), (7, 10)]),
    (1, &[(3, 4), (5, 6), (8, 9), (12, 13)]),
    (3, &[(3, 4), (5, 6), (8, 9), (12, 13)]),
    (4, &[(0, 20), (1, 2), (21, 22), (27, 28)]),
];

// A merge has to write the runs that the plain program gives.
#[test]
fn merges_as_the_plain_program_does(rt: HostRuntime) -> Result<(), Fail> {
    for (gap, bounds) in &SPANS {
        let mut merge = Merge::new(rt.alloc(), (*gap).min(GREATEST), All);
        let mut out = output(rt.alloc(), 100);
        let spans = feed_spans(&rt, rt.alloc(), &mut merge, *bounds, &mut out)?;
        let wanted = plain_lines(rt.alloc(), spans.as_slice(), *gap)?;
        expect_end(&rt, merge, out, wanted.as_slice(), "as the plain program");
    }
    Ok(())
}

// Feeds a thousand runs of one base after an open one, each of which is kept.
fn feed_runs(
    rt: &impl Abort,
    alloc: Global,
    merge: &mut Merge,
    out: &mut Out<ScriptSink>,
) -> Result<(), AllocError> {
    feed_kept(rt, merge, (b"chr1\t0\t99999\ta\t0\t+", 1), out, "open");
    for place in 0..1_000u32 {
        let start = 2 * place + 1;
        let line = format!(in alloc; "chr1\t{start}\t{}\tb\t0\t-", start + 1)?;
        feed_kept(
            rt,
            merge,
            (line.as_bytes(), place as usize + 2),
            out,
            "a run",
        );
    }
    Ok(())
}

#[test]
fn many_runs_after_an_open_one(rt: HostRuntime) -> Result<(), Fail> {
    let mut merge = Merge::new(rt.alloc(), 0, Each);
    let mut out = output(rt.alloc(), 100);
    feed_runs(&rt, rt.alloc(), &mut merge, &mut out)?;
    let answer = merge.finish(&mut out).and(out.flush());
    let sink = out.into_sink();
    let begins = sink
        .taken()
        .starts_with(b"chr1\t0\t99999\nchr1\t1\t2\nchr1\t3\t4\n");
    same_answer(&rt, answer, Ok(()), "the end");
    holds(
        &rt,
        begins && sink.taken().ends_with(b"chr1\t1999\t2000\n"),
        "in order",
    );
    Ok(())
}
