mod commands;
mod failed_before_tests;
mod failing_tests;
mod fault_tests;
mod held_tests;
mod hostile_tests;
mod no_genome_tests;
pub(crate) mod tables;

ghost use Rattle.std.specs.Prelude.{◌≡◌, ◌<◌, is_some};

use crate::{Outcome, Plan, plan, run};
use bt_lines::{ScriptSink, ScriptSource};
use std::alloc::{AllocError, Global};
use std::process::Abort;
use std::test::Fail;

// The genome file of the cases that name no other.
pub(crate) const GENOME: &[u8] = b"chr1\t1000\nchr2\t50\n";

// The words as strings.
pub(crate) fn strings(alloc: Global, words: &[&str]) -> Result<Vec<String>, AllocError> {
    let mut strings = Vec::new(alloc);
    for word in words {
        strings.push(String::from_str(alloc, word)?)?;
    }
    Ok(strings)
}

// How many bytes a scripted device moves a call, and how many bytes are good.
#[derive(Clone, Copy)]
pub(crate) struct Script {
    step: usize,
    good: Option<usize>,
    ghost moves: { 0 < step },
}

// A device that serves to the end.
pub(crate) fn whole(step: usize) -> Script
    requires { 0 < step }
{
    Script { step, good: None }
}

// A device that fails once this many bytes were moved.
pub(crate) fn failing_by(step: usize, good: usize) -> Script
    requires { 0 < step }
{
    Script {
        step,
        good: Some(good),
    }
}

// A source of these bytes if the plan names the input.
pub(crate) fn source_if<'a>(
    name: &Option<String>,
    bytes: &'a [u8],
    script: Script,
) -> Option<ScriptSource<'a>>
    ensures { is_some result ≡ is_some name.now }
{
    if name.is_none() {
        return None;
    }
    Some(source_of(bytes, script))
}

// A source of these bytes.
pub(crate) fn source_of(bytes: &[u8], script: Script) -> ScriptSource<'_> {
    ScriptSource::new(bytes, script.step, script.good)
}

// What a run gives. The line is empty if it ended without a fault.
#[derive(Drop)]
pub(crate) struct Answer {
    output: Vec<u8>,
    line: Vec<u8>,
    status: u8,
}

// The plan of these words.
pub(crate) fn plan_of(alloc: Global, words: &[&str]) -> Result<Plan, Fail> {
    let owned = strings(alloc, words)?;
    match plan(alloc, owned.as_slice()) {
        Ok(plan) => Ok(plan),
        Err(_) => Err(words.into()),
    }
}

// What a run of the plan gives that ended so, with this output.
pub(crate) fn answer_of(
    alloc: Global,
    plan: &Plan,
    outcome: &Outcome,
    output: &[u8],
) -> Result<Answer, Fail> {
    let line = match outcome.fault_line(alloc, plan)? {
        Some(line) => line,
        None => Vec::new(alloc),
    };
    Ok(Answer {
        output: Vec::from_slice(alloc, output)?,
        line,
        status: outcome.status(),
    })
}

// The bytes of each input and how they are read, and how the output is written.
#[derive(Clone, Copy)]
pub(crate) struct Devices<'a> {
    pub(crate) genome: (&'a [u8], Script),
    pub(crate) first: (&'a [u8], Script),
    pub(crate) second: (&'a [u8], Script),
    pub(crate) out: Script,
}

// Plans and runs these words over scripts.
pub(crate) fn run_words(
    alloc: Global,
    words: &[&str],
    devices: &Devices<'_>,
) -> Result<Answer, Fail> {
    let plan = plan_of(alloc, words)?;
    let ended = run(
        alloc,
        &plan,
        source_if(&plan.genome, devices.genome.0, devices.genome.1),
        source_of(devices.first.0, devices.first.1),
        source_if(&plan.second, devices.second.0, devices.second.1),
        ScriptSink::new(alloc, devices.out.step, devices.out.good),
    );
    answer_of(alloc, &plan, &ended.outcome, ended.out.taken())
}

// Runs the words with GENOME and this first input, each read at once.
pub(crate) fn run_on(alloc: Global, words: &[&str], first: &[u8]) -> Result<Answer, Fail> {
    let devices = Devices {
        genome: (GENOME, whole(8192)),
        first: (first, whole(8192)),
        second: (b"", whole(1)),
        out: whole(7),
    };
    run_words(alloc, words, &devices)
}

// A result has to be this output and this line, an empty one for none, with the status of that.
pub(crate) fn expect(rt: &impl Abort, answer: &Answer, output: &[u8], line: &[u8], name: &str) {
    assert_eq!(rt; answer.output.as_slice(), output, "{name}");
    assert_eq!(rt; answer.line.as_slice(), line, "{name}");
    assert_eq!(rt; answer.status, u8::from(!line.is_empty()), "{name}");
}

// The number has to be this one.
pub(crate) fn expect_size(rt: &impl Abort, given: usize, wanted: usize) {
    assert_eq!(rt; given, wanted);
}
