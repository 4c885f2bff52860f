//! Worked complements.

use super::*;
use crate::tests::batch_tests::check_batches;
use crate::tests::testing::{Row, check_failing, check_row, genome, written_len};
use std::alloc::Global;
use std::process::Abort;
use std::test::Fail;

// The genome file of the cases.
const GENOME: &[u8] = b"chr1\t1000\nchr2\t50\n";

// Whether chromosomes without records are left out, and the cases: kept are places.
type Rows = (bool, &'static [Row]);

#[rattlefmt::skip]
const CASES: [Rows; 2] = [
    (false, &[
        ("no record", &[], b"", b"chr1\t0\t1000\nchr2\t0\t50\n"),
        ("a stop past the length", &[(b"chr1\t0\t10", 1), (b"chr1\t900\t1200", 1)],
            b"chr1\t10\t900\n", b"chr2\t0\t50\n"),
        ("the second chromosome", &[(b"chr2\t10\t20", 1)],
            b"chr1\t0\t1000\nchr2\t0\t10\n", b"chr2\t20\t50\n"),
        ("past the length", &[(b"chr1\t1100\t1200", 1)], b"chr1\t0\t1000\n", b"chr2\t0\t50\n"),
        ("a whole chromosome", &[(b"chr2\t0\t50", 1)], b"chr1\t0\t1000\n", b""),
        ("all of the genome", &[(b"chr1\t0\t1000", 1), (b"chr2\t0\t60", 1)], b"", b""),
        ("the greatest end", &[(b"chr1\t5\t10", 1), (b"chr1\t6\t8", 1), (b"chr1\t9\t12", 1)],
            b"chr1\t0\t5\n", b"chr1\t12\t1000\nchr2\t0\t50\n"),
        ("no gap is left", &[(b"chr1\t10\t20", 1), (b"chr1\t30\t40", 1), (b"chr2\t5\t50", 1)],
            b"chr1\t0\t10\nchr1\t20\t30\nchr1\t40\t1000\nchr2\t0\t5\n", b""),
    ]),
    (true, &[
        ("no record, with the limit", &[], b"", b""),
        ("a stop past the length, with the limit", &[(b"chr1\t0\t10", 1), (b"chr1\t900\t1200", 1)],
            b"chr1\t10\t900\n", b""),
        ("gaps before the records", &[(b"chr1\t10\t20", 1), (b"chr1\t30\t40", 1)],
            b"chr1\t0\t10\nchr1\t20\t30\n", b"chr1\t40\t1000\n"),
        ("the second chromosome, with the limit", &[(b"chr2\t10\t20", 1)],
            b"chr2\t0\t10\n", b"chr2\t20\t50\n"),
        ("past the length, with the limit", &[(b"chr1\t1100\t1200", 1)], b"chr1\t0\t1000\n", b""),
        ("at the length", &[(b"chr2\t50\t51", 1)], b"chr2\t0\t50\n", b""),
        ("from one chromosome to the next", &[(b"chr1\t5\t10", 1), (b"chr2\t5\t10", 1)],
            b"chr1\t0\t5\nchr1\t10\t1000\nchr2\t0\t5\n", b"chr2\t10\t50\n"),
        ("two on the second chromosome",
            &[(b"chr1\t5\t10", 1), (b"chr2\t5\t10", 1), (b"chr2\t20\t30", 1)],
            b"chr1\t0\t5\nchr1\t10\t1000\nchr2\t0\t5\nchr2\t10\t20\n", b"chr2\t30\t50\n"),
        ("a chromosome that the genome file lacks",
            &[(b"chr0\t0\t40", 0), (b"chr1\t5\t10", 1), (b"chr3\t0\t40", 1), (b"chr2\t5\t10", 1)],
            b"chr1\t0\t5\nchr1\t10\t1000\nchr2\t0\t5\n", b"chr2\t10\t50\n"),
        ("one within another, and one after",
            &[(b"chr2\t0\t1", 1), (b"chr2\t0\t7", 1), (b"chr2\t3\t5", 1), (b"chr2\t9\t10", 1)],
            b"chr2\t7\t9\n", b"chr2\t10\t50\n"),
        ("touching, and one that ends late",
            &[(b"chr2\t1\t2", 1), (b"chr2\t2\t3", 1), (b"chr2\t4\t40", 1), (b"chr2\t30\t35", 1)],
            b"chr2\t0\t1\nchr2\t3\t4\n", b"chr2\t40\t50\n"),
        ("across the length and past it",
            &[(b"chr2\t49\t60", 1), (b"chr2\t49\t50", 1), (b"chr2\t70\t90", 1)],
            b"chr2\t0\t49\n", b""),
        ("one past the length", &[(b"chr2\t20\t21", 1), (b"chr2\t51\t52", 1)],
            b"chr2\t0\t20\nchr2\t21\t50\n", b""),
        ("a whole chromosome, with the limit", &[(b"chr2\t0\t50", 1)], b"", b""),
    ]),
];

fn check_all(rt: &impl Abort, alloc: Global, cases: &[Rows]) -> Result<(), Fail> {
    let genome = genome(alloc, GENOME)?;
    for (limit, rows) in cases {
        check(rt, alloc, &genome, *limit, rows)?;
    }
    Ok(())
}

fn check(
    rt: &impl Abort,
    alloc: Global,
    genome: &Genome,
    limit: bool,
    rows: &[Row],
) -> Result<(), Fail> {
    for row in rows {
        check_row(rt, alloc, Complement::new(genome, limit), row);
        check_batches(rt, alloc, Complement::new(genome, limit), row)?;
        for room in 0..written_len(row) {
            check_failing(rt, alloc, Complement::new(genome, limit), row, room)?;
        }
    }
    Ok(())
}

#[test]
fn worked_rows(rt: HostRuntime) -> Result<(), Fail> {
    check_all(&rt, rt.alloc(), &CASES)
}
