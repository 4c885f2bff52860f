//! Sources that failed before a run, and serve in it.

ghost use Rattle.std.specs.Prelude.{◌≡◌, IsSome, is_some, true};

use crate::run;
use crate::tests::tables::{Table, rows_of, run_of};
use crate::tests::{answer_of, plan_of};
use bt_lines::{DeviceFailed, ScriptSink, Source};
use std::alloc::Global;
use std::process::Abort;
use std::test::Fail;

// A source that says from the start that a read has failed, and hands over its bytes one by one.
#[derive(Drop)]
struct FailedBefore<'a> {
    bytes: &'a [u8],
}

impl Source for FailedBefore<'_> {
    ghost has_failed = { λ _. true };

    ghost is_read = { λ _ call _. IsSome call };

    fn read(&mut self, block: &mut [u8]) -> Result<usize, DeviceFailed> {
        if block.is_empty() || self.bytes.is_empty() {
            return Ok(0);
        }
        block[0] = self.bytes[0];
        self.bytes = &self.bytes[1..];
        Ok(1)
    }

    fn failed(&self) -> bool {
        true
    }
}

// The options are all words, as each row is of another command.
const RUNS: Table = Table {
    command: "",
    is_exact: false,
    head: "options | first | second | output",
    rows: &[
        "merge -i a.bed -g g.txt | chr1 1 5 ; chr1 4 9 | | chr1 1 9",
        "complement -i a.bed -g g.txt -L | chr1 0 990 | | chr1 990 1000",
        "genomecov -i a.bed -g g.txt -bg | chr1 1 5 | | chr1 1 5 1",
        "intersect -a a.bed -b b.bed -g g.txt | chr1 1 9 | chr1 5 20 | chr1 5 9",
        "subtract -a a.bed -b b.bed -g g.txt | chr1 1 9 | chr1 5 20 | chr1 1 5",
        "bamtobed -i a.sam | r 0 chr1 3 30 4M * 0 0 ACGT * | | chr1 2 6 r 30 +",
        "maskfasta -fi a.fa -bed b.bed | >s ; ACGT | s 1 3 | >s ; ANNT",
    ],
};

fn failed_before(bytes: &[u8]) -> FailedBefore<'_> {
    FailedBefore { bytes }
}

// One of these bytes if the plan names the input.
fn failed_if<'a>(name: &Option<String>, bytes: &'a [u8]) -> Option<FailedBefore<'a>>
    ensures { is_some result ≡ is_some name.now }
{
    if name.is_none() {
        return None;
    }
    Some(failed_before(bytes))
}

fn check_row(rt: &impl Abort, alloc: Global, row: &'static str) -> Result<(), Fail> {
    let asked = run_of(alloc, &RUNS, row)?;
    let plan = plan_of(alloc, asked.words.as_slice())?;
    let ended = run(
        alloc,
        &plan,
        failed_if(&plan.genome, asked.genome.as_slice()),
        failed_before(asked.first.as_slice()),
        failed_if(&plan.second, asked.second.as_slice()),
        ScriptSink::new(alloc, 7, None),
    );
    let answer = answer_of(alloc, &plan, &ended.outcome, ended.out.taken())?;
    asked.expect(rt, alloc, &answer, (asked.output.as_slice(), ""))
}

#[test]
fn a_failure_before_the_run_is_no_fault(rt: HostRuntime) -> Result<(), Fail> {
    for row in rows_of(&RUNS)? {
        check_row(&rt, rt.alloc(), row)?;
    }
    Ok(())
}
