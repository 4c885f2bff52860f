//! Inputs and outputs that fail at each byte.

ghost use Rattle.std.specs.Prelude.{true};

use self::runs::{
    ALIGNMENTS, DEPTHS, GAPS, INTERSECT_FAILS, INTERSECTED, MASKED, MASKED_HEADERS, MERGE_FAILS,
    MERGED, STRANDS, SUBTRACTED, WRITING_FAILS,
};
use crate::run;
use crate::tests::tables::{Failing, Run, Table, check_tables, rows_of, run_of};
use crate::tests::{GENOME, answer_of, expect, expect_size, plan_of, source_if, source_of, whole};
use bt_lines::{DeviceFailed, Sink};
use std::alloc::Global;
use std::process::Abort;
use std::test::Fail;

mod runs;

// The bytes of an input, its name, and how many lines are written after no line of it, after one,
// and so on: none after those of the genome file.
fn input_of<'a>(run: &'a Run, input: &str) -> (&'a [u8], &'a str, &'a str) {
    if input == "genome" {
        (run.genome.as_slice(), "g.txt", "0 0 0")
    } else if input == "first" {
        let name = run.words.get(2).copied().unwrap_or("");
        (run.first.as_slice(), name, run.parts.cuts)
    } else {
        (run.second.as_slice(), "b.bed", run.parts.second_cuts)
    }
}

// How many complete lines a text has.
fn line_count(text: &[u8]) -> usize {
    text.iter().filter(|byte| **byte == b'\n').count()
}

// This many lines of a text, None if it has fewer.
fn first_lines(text: &[u8], count: usize) -> Option<&[u8]> {
    let mut left = count;
    let mut end = 0;
    for (at, byte) in text.iter().enumerate() {
        if left > 0 && *byte == b'\n' {
            left -= 1;
            end = at.saturating_add(1);
        }
    }
    if left > 0 {
        return None;
    }
    text.get(..end)
}

// What `cuts` say of a failure after this many lines: how many lines are written, and whether the fault of the row is
// reported.
fn cut_after(cuts: &str, lines: usize) -> Option<(usize, bool)> {
    let cut = cuts.split(' ').nth(lines)?;
    let number = cut.strip_suffix("!");
    let written = number.unwrap_or(cut).parse::<usize>().ok()?;
    Some((written, number.is_some()))
}

// What is written and reported if the input fails after this many lines.
fn want_after<'a>(
    alloc: Global,
    run: &'a Run,
    input: &str,
    lines: usize,
) -> Result<(&'a [u8], String), Fail> {
    let (_, name, cuts) = input_of(run, input);
    let Some((written, is_own)) = cut_after(cuts, lines) else {
        return Err(run.parts.row.into());
    };
    let Some(output) = first_lines(run.output.as_slice(), written) else {
        return Err(run.parts.row.into());
    };
    let fault = if is_own {
        String::from_str(alloc, run.parts.fault)?
    } else {
        format!(in alloc; "{name}:{}: reading failed", lines.saturating_add(1))?
    };
    Ok((output, fault))
}

// The input fails to serve more than these bytes.
fn check_cut(
    rt: &impl Abort,
    alloc: Global,
    run: &Run,
    failing: Failing<'_>,
    step: usize,
) -> Result<(), Fail> {
    let text = input_of(run, failing.0).0;
    let lines = line_count(&text[..failing.1.min(text.len())]);
    let (output, fault) = want_after(alloc, run, failing.0, lines)?;
    let answer = run.answer(alloc, failing, step)?;
    run.expect(rt, alloc, &answer, (output, fault.as_str()))
}

// Whatever byte of an input fails to come. The row has to have a number for each of its lines, and
// one for none.
fn check_cuts(
    rt: &impl Abort,
    alloc: Global,
    run: &Run,
    input: &str,
    step: usize,
) -> Result<(), Fail> {
    let (text, _, cuts) = input_of(run, input);
    if cuts.split(' ').count() != line_count(text).saturating_add(1) {
        return Err(run.parts.row.into());
    }
    for good in 0..=text.len() {
        check_cut(rt, alloc, run, (input, good), step)?;
    }
    Ok(())
}

// A sink that takes `good` bytes takes the first of the output; if these are all, the run is
// complete.
fn check_outputs(rt: &impl Abort, alloc: Global, run: &Run, step: usize) -> Result<(), Fail> {
    let output = run.output.as_slice();
    for good in 0..=output.len() {
        let fault = if good < output.len() {
            "writing failed"
        } else {
            run.parts.fault
        };
        let answer = run.answer(alloc, ("out", good), step)?;
        run.expect(rt, alloc, &answer, (&output[..good], fault))?;
    }
    Ok(())
}

// The first input is cut even if it has no byte.
fn check_run(rt: &impl Abort, alloc: Global, run: &Run, step: usize) -> Result<(), Fail> {
    if run.words.iter().any(|word| *word == "-g") {
        check_cuts(rt, alloc, run, "genome", step)?;
    }
    check_cuts(rt, alloc, run, "first", step)?;
    if !run.second.is_empty() {
        check_cuts(rt, alloc, run, "second", step)?;
    }
    check_outputs(rt, alloc, run, step)
}

fn check_all(rt: &impl Abort, alloc: Global, tables: &[Table]) -> Result<(), Fail> {
    for table in tables {
        for row in rows_of(table)? {
            let run = run_of(alloc, table, row)?;
            for step in [1, 7] {
                check_run(rt, alloc, &run, step)?;
            }
        }
    }
    Ok(())
}

#[test]
fn devices_of_merge_fail(rt: HostRuntime) -> Result<(), Fail> {
    check_all(&rt, rt.alloc(), &[MERGED, STRANDS])
}

#[test]
fn devices_of_other_commands_of_one_input_fail(rt: HostRuntime) -> Result<(), Fail> {
    check_all(&rt, rt.alloc(), &[GAPS, DEPTHS, ALIGNMENTS])
}

#[test]
fn devices_of_a_sweep_fail(rt: HostRuntime) -> Result<(), Fail> {
    check_all(&rt, rt.alloc(), &[INTERSECTED, SUBTRACTED])
}

#[test]
fn devices_of_masking_fail(rt: HostRuntime) -> Result<(), Fail> {
    check_all(&rt, rt.alloc(), &[MASKED, MASKED_HEADERS])
}

#[test]
fn devices_that_fail_somewhere(rt: HostRuntime) -> Result<(), Fail> {
    check_tables(
        &rt,
        rt.alloc(),
        &[MERGE_FAILS, WRITING_FAILS, INTERSECT_FAILS],
    )
}

// A sink that takes everything, and whose flush fails.
#[derive(Drop)]
struct FlushFails {
    bytes: Vec<u8>,
    taken: usize,
    has_failed: bool,
}

impl Sink for FlushFails {
    ghost took = { λ s. s.bytes.items };

    ghost has_failed = { λ s. s.has_failed };

    ghost last_failed = { λ s. s.has_failed };

    ghost is_flushed = { λ _. true };

    fn write(&mut self, bytes: &[u8]) -> Result<usize, DeviceFailed> {
        if self.has_failed {
            return Err(DeviceFailed);
        }
        if self.bytes.extend_from_slice(bytes).is_err() {
            self.has_failed = true;
            return Err(DeviceFailed);
        }
        self.taken = self.taken.saturating_add(bytes.len());
        Ok(bytes.len())
    }

    fn flush(&mut self) -> Result<(), DeviceFailed> {
        self.has_failed = true;
        Err(DeviceFailed)
    }

    fn failed(&self) -> bool {
        self.has_failed
    }
}

const TOUCHING: &[u8] = b"chr1\t100\t200\nchr1\t180\t250\nchr1\t250\t500\nchr1\t501\t1000\n";

#[test]
fn a_flush_that_fails(rt: HostRuntime) -> Result<(), Fail> {
    let plan = plan_of(rt.alloc(), &["merge", "-i", "a.bed", "-g", "g.txt"])?;
    let ended = run(
        rt.alloc(),
        &plan,
        source_if(&plan.genome, GENOME, whole(7)),
        source_of(TOUCHING, whole(7)),
        source_if(&plan.second, b"", whole(7)),
        FlushFails {
            bytes: Vec::new(rt.alloc()),
            taken: 0,
            has_failed: false,
        },
    );
    let bytes = ended.out.bytes.as_slice();
    let answer = answer_of(rt.alloc(), &plan, &ended.outcome, bytes)?;
    let merged = b"chr1\t100\t500\nchr1\t501\t1000\n";
    expect_size(&rt, ended.out.taken, merged.len());
    let line = b"bedtools merge: writing failed\n";
    expect(&rt, &answer, merged, line, "a flush that fails");
    Ok(())
}
