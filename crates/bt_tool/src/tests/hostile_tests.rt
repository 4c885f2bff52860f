//! Inputs that are large where others are small.

use crate::run;
use crate::tests::{
    Answer, Devices, GENOME, answer_of, expect, expect_size, plan_of, run_on, run_words, source_if,
    source_of, whole,
};
use bt_lines::ScriptSink;
use std::alloc::{AllocError, Global};
use std::process::Abort;
use std::test::Fail;

const MERGE: &[&str] = &["merge", "-i", "a.bed", "-g", "g.txt"];

// A line of this many tabs.
fn tabs(alloc: Global, count: usize) -> Result<Vec<u8>, AllocError> {
    let mut text = Vec::new(alloc);
    for _ in 0..count {
        text.push(b'\t')?;
    }
    text.push(b'\n')?;
    Ok(text)
}

#[test]
fn a_line_of_tabs(rt: HostRuntime) -> Result<(), Fail> {
    let text = tabs(rt.alloc(), 100_000)?;
    let answer = run_on(rt.alloc(), MERGE, text.as_slice())?;
    let line = b"bedtools merge: a.bed:1: empty chromosome name\n";
    expect(&rt, &answer, b"", line, "a line of tabs");
    Ok(())
}

// An alignment at the first position, of this many of the longest operations.
fn long_alignment(alloc: Global, flag: &str, count: usize) -> Result<Vec<u8>, AllocError> {
    let mut text = Vec::new(alloc);
    text.extend_from_slice(b"r\t")?;
    text.extend_from_slice(flag.as_bytes())?;
    text.extend_from_slice(b"\ts\t1\t30\t")?;
    for _ in 0..count {
        text.extend_from_slice(b"999999999999M")?;
    }
    text.extend_from_slice(b"\t*\t0\t0\t*\t*\n")?;
    Ok(text)
}

fn check_long(rt: &impl Abort, alloc: Global, flag: &str, line: &[u8]) -> Result<(), Fail> {
    let text = long_alignment(alloc, flag, 1000)?;
    let answer = run_on(alloc, &["bamtobed", "-i", "a.sam"], text.as_slice())?;
    expect(rt, &answer, b"", line, flag);
    Ok(())
}

#[test]
fn an_alignment_of_a_thousand_operations(rt: HostRuntime) -> Result<(), Fail> {
    check_long(
        &rt,
        rt.alloc(),
        "0",
        b"bedtools bamtobed: a.sam:1: end is too large\n",
    )?;
    check_long(&rt, rt.alloc(), "4", b"")
}

// A thousand records, each within the one before it.
fn nested(alloc: Global) -> Result<Vec<u8>, AllocError> {
    let mut text = Vec::new(alloc);
    for start in 0..1000_u32 {
        let line = format!(in alloc; "chr1\t{start}\t{}\n", 10_000 - start)?;
        text.extend_from_slice(line.as_bytes())?;
    }
    Ok(text)
}

#[test]
fn nested_records_are_counted(rt: HostRuntime) -> Result<(), Fail> {
    let second = nested(rt.alloc())?;
    let devices = Devices {
        genome: (GENOME, whole(8192)),
        first: (
            b"chr1\t0\t10000\nchr1\t9500\t9600\nchr1\t9999\t10000\n",
            whole(8192),
        ),
        second: (second.as_slice(), whole(8192)),
        out: whole(8192),
    };
    let words = &[
        "intersect",
        "-a",
        "a.bed",
        "-b",
        "b.bed",
        "-g",
        "g.txt",
        "-c",
    ];
    let answer = run_words(rt.alloc(), words, &devices)?;
    let counts = b"chr1\t0\t10000\t1000\nchr1\t9500\t9600\t500\nchr1\t9999\t10000\t1\n";
    expect(&rt, &answer, counts, b"", "nested records");
    Ok(())
}

// Records that each make a run.
fn many_runs(alloc: Global, count: u64) -> Result<Vec<u8>, AllocError> {
    let mut text = Vec::new(alloc);
    for i in 0..count.min(10_000) {
        let line = format!(in alloc; "chr1\t{}\t{}\n", 20 * i, 20 * i + 10)?;
        text.extend_from_slice(line.as_bytes())?;
    }
    Ok(text)
}

// A run over many records, on a sink that takes nothing: what it gives, and how many bytes it read.
fn run_many(alloc: Global, text: &[u8]) -> Result<(Answer, usize), Fail> {
    let plan = plan_of(alloc, MERGE)?;
    let ended = run(
        alloc,
        &plan,
        source_if(&plan.genome, b"chr1\t1000000\n", whole(8192)),
        source_of(text, whole(8192)),
        source_if(&plan.second, b"", whole(1)),
        ScriptSink::new(alloc, 8192, Some(0)),
    );
    let answer = answer_of(alloc, &plan, &ended.outcome, ended.out.taken())?;
    Ok((answer, ended.first.given()))
}

// The run stops once a block of output is full, and has read little more than was needed for it.
#[test]
fn a_failed_write_stops_the_reading(rt: HostRuntime) -> Result<(), Fail> {
    let text = many_runs(rt.alloc(), 10_000)?;
    let (answer, given) = run_many(rt.alloc(), text.as_slice())?;
    let line = b"bedtools merge: writing failed\n";
    expect(&rt, &answer, b"", line, "a sink that takes nothing");
    expect_size(&rt, given.max(24_576), 24_576);
    Ok(())
}
