//! The calls of each engine as a caller has them that names the engine's type.

use crate::tests::testing::{expect_put, genome, holds, output};
use crate::{Complement, Coverage, Engine, Merge, MergeStrand};
use bt_bed::parse_bed;
use std::test::Fail;

#[test]
fn a_merge_is_fed_and_finished(rt: HostRuntime) -> Result<(), Fail> {
    let bed = parse_bed(b"chr1\t100\t200")?.ok_or("a record")?;
    let mut merge = Merge::new(rt.alloc(), 0, MergeStrand::All);
    let mut out = output(rt.alloc(), 7);
    merge.feed(&bed, &mut out)?;
    holds(&rt, merge.kept_len() == 1, "kept");
    merge.finish(&mut out)?;
    expect_put(&rt, out, b"chr1\t100\t200\n", "merge");
    Ok(())
}

#[test]
fn a_complement_is_fed_and_finished(rt: HostRuntime) -> Result<(), Fail> {
    let bed = parse_bed(b"chr1\t100\t200")?.ok_or("a record")?;
    let genome = genome(rt.alloc(), b"chr1\t300\n")?;
    let mut complement = Complement::new(&genome, false);
    let mut out = output(rt.alloc(), 7);
    complement.feed(&bed, &mut out)?;
    holds(&rt, complement.kept_len() == 1, "kept");
    complement.finish(&mut out)?;
    expect_put(&rt, out, b"chr1\t0\t100\nchr1\t200\t300\n", "complement");
    Ok(())
}

#[test]
fn a_coverage_is_fed_and_finished(rt: HostRuntime) -> Result<(), Fail> {
    let bed = parse_bed(b"chr1\t100\t200")?.ok_or("a record")?;
    let genome = genome(rt.alloc(), b"chr1\t300\n")?;
    let mut coverage = Coverage::new(rt.alloc(), &genome, false, None);
    let mut out = output(rt.alloc(), 7);
    coverage.feed(&bed, &mut out)?;
    holds(&rt, coverage.kept_len() == 1, "kept");
    coverage.finish(&mut out)?;
    expect_put(&rt, out, b"chr1\t100\t200\t1\n", "coverage");
    Ok(())
}
