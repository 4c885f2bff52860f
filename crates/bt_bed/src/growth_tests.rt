//! Growths that are refused, by `rt try --test --fail-alloc N -- refused_growth` for each N from 1. Each
//! test checks what is left when its call was refused, and then ends with out of memory.

use crate::tests::{genome_of, holds, record, said};
use crate::{write_bed, write_cut};
use bt_lines::no_memory;
use std::alloc::{AllocError, Global};
use std::process::Abort;
use std::test::Fail;

const LINE: &[u8] = b"chr1\t7\t100\tn\t5\t+\tand more columns than stand inside";

const PART: &[u8] = b"chr1\t30\t90\tn\t5\t+\tand more columns than stand inside";

// If the record or its part was written, it follows the text that was there; else that text is
// unchanged.
fn is_after(
    rt: &impl Abort,
    alloc: Global,
    part: Option<(u64, u64)>,
    want: &[u8],
) -> Result<(), Fail> {
    let bed = record(LINE).ok_or("a record")?;
    let mut text = Vec::from_slice(alloc, b"before ")?;
    let written = match part {
        Some((start, stop)) => write_cut(&bed, start, stop, &mut text),
        None => write_bed(&bed, &mut text),
    };
    let after = if written.is_ok() { want } else { b"" };
    let is_it = text.strip_prefix(b"before ") == Some(after);
    holds(rt, is_it, "what is written");
    Ok(written?)
}

#[test]
fn refused_growth_of_written_records(rt: HostRuntime) -> Result<(), Fail> {
    is_after(&rt, rt.alloc(), None, LINE)?;
    is_after(&rt, rt.alloc(), Some((30, 90)), PART)
}

#[test]
fn refused_growth_of_a_kept_record(rt: HostRuntime) -> Result<(), Fail> {
    let bed = record(LINE).ok_or("a record")?;
    let rec = bed.to_rec(rt.alloc())?;
    let kept = rec.as_bed();
    let is_same = kept.chrom == bed.chrom && said(kept) == said(bed);
    holds(&rt, is_same, "the record that is kept");
    Ok(())
}

// A genome file with names that are kept, and lines that are skipped.
const GENOME: &[u8] = b"# name\tlength\nchr1\t1000\n\nchr2\t50\nscaffold_3\t7\tmore\n";

// Its bytes come seven at a time, so that lines are carried together.
#[test]
fn refused_growth_of_a_genome(rt: HostRuntime) -> Result<(), Fail> {
    match genome_of(rt.alloc(), GENOME, 7, None) {
        Ok(genome) => holds(&rt, genome.count() == 3, "three chromosomes"),
        Err(fault) => {
            holds(&rt, fault == no_memory(), "out of memory");
            return Err(Fail::from(AllocError));
        }
    }
    Ok(())
}
