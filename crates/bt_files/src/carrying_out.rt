//! Carries out a plan over its files, and says how that ended.

ghost use Rattle.std.specs.Prelude.{◌≡◌, is_some, None, Some, option_map, string_bytes, IfOk, IfErr};
ghost use Rattle.bt_lines.specs.calls.Names.{fault_value};
ghost use Rattle.bt_tool.specs.calls.Plan.{plan_seen};
ghost use Rattle.bt_tool.specs.model.Table.{Word, tool_name, tool_of};
ghost use Rattle.bt_files.specs.calls.Ending.{AfterOutput, CannotBegin, Ends, OpensIf, ReportsRun, ReportsUnopened, RunsOver};
ghost use Rattle.bt_files.specs.calls.Message.{Says, cannot_open_text};

use crate::files::{Files, Unopened};
use crate::message::{Message, MessageLine, Obstacle};
use bt_lines::{Sink, Source};
use bt_tool::{Ended, Outcome, Plan, run};
use std::alloc::Global;

/// How a command line ended. What standard error is to say is a `Message`, here and below.
#[derive(Drop)]
pub struct Finished<I, O> {
    pub message: Message,
    /// The files as the run left them, if there was a run.
    pub left: Option<OpenedFiles<I, O>>,
}

/// Opens the files of a plan, the genome file first and the output last, and runs it.
pub fn carry_out<F: Files>(
    alloc: Global,
    files: &mut F,
    plan: &Plan,
) -> Finished<F::Input, F::Output>
    ensures { Ends F.Files F.Input.Source F.Output.Sink files.old (plan_seen plan.now) result.message result.left
        files.new }
{
    match open_files(alloc, files, plan) {
        Ok(opened) => {
            let ended = run_over(alloc, plan, opened);
            Finished {
                message: end_of(alloc, plan, &ended.outcome),
                left: Some(OpenedFiles {
                    genome: ended.genome,
                    first: ended.first,
                    second: ended.second,
                    output: ended.out,
                }),
            }
        }
        Err(message) => Finished {
            message,
            left: None,
        },
    }
}

/// The opened files of a plan.
#[derive(Drop)]
pub struct OpenedFiles<I, O> {
    pub genome: Option<I>,
    pub first: I,
    pub second: Option<I>,
    pub output: O,
}

// Runs a plan over its opened files, and hands them back.
fn run_over<I: Source, O: Sink>(
    alloc: Global,
    plan: &Plan,
    opened: OpenedFiles<I, O>,
) -> Ended<I, I, I, O>
    requires genome { is_some opened.genome ≡ is_some plan.now.genome }
    requires second { is_some opened.second ≡ is_some plan.now.second }
    ensures { RunsOver I.Source O.Sink plan.now.command
        opened.genome opened.first opened.second opened.output (option_map fault_value result.outcome.fault)
        result.genome result.first result.second result.out }
{
    let OpenedFiles {
        genome,
        first,
        second,
        output,
    } = opened;
    run(alloc, plan, genome, first, second, output)
}

// Opens the files of a plan, of which nothing is read. `Err` if one can't be opened.
fn open_files<F: Files>(
    alloc: Global,
    files: &mut F,
    plan: &Plan,
) -> Result<OpenedFiles<F::Input, F::Output>, Message>
    ensures opened { IfOk result (λ opened. AfterOutput F.Files files.old (plan_seen plan.now)
        opened.genome opened.first opened.second opened.output files.new) }
    ensures has_genome { IfOk result (λ opened. is_some opened.genome ≡ is_some plan.now.genome) }
    ensures has_second { IfOk result (λ opened. is_some opened.second ≡ is_some plan.now.second) }
    ensures unopened { IfErr result (λ message. CannotBegin F.Files files.old (plan_seen plan.now) message files.new) }
{
    let genome = open_if_named(alloc, files, plan, &plan.genome)?;
    let first = open(alloc, files, plan, plan.first.as_str())?;
    let second = open_if_named(alloc, files, plan, &plan.second)?;
    let output = open_output(alloc, files, plan)?;
    Ok(OpenedFiles {
        genome,
        first,
        second,
        output,
    })
}

// Creates the output file of a plan, or takes standard output if it has none. `Err` if it can't be created.
fn open_output<F: Files>(alloc: Global, files: &mut F, plan: &Plan) -> Result<F::Output, Message>
    ensures creates { IfOk result (λ output. F.creates files.old (plan_seen plan.now).names.output output files.new) }
    ensures reports { IfErr result (λ message. (word : Word) × ((plan_seen plan.now).names.output ≡ Some word)
        × ReportsUnopened F.Files files.old (plan_seen plan.now) word message files.new) }
{
    let Some(name) = &plan.output else {
        return Ok(files.standard_output());
    };
    match files.create(plan, name.as_str()) {
        Ok(output) => Ok(output),
        Err(Unopened::NoMemory) => Err(Message::of(alloc, &Obstacle::NoMemory)),
        Err(Unopened::Refused) => Err(cannot_open(alloc, plan, name.as_str())),
    }
}

// Opens an input that the plan may not have. `Err` if it can't be opened.
fn open_if_named<F: Files>(
    alloc: Global,
    files: &mut F,
    plan: &Plan,
    name: &Option<String>,
) -> Result<Option<F::Input>, Message>
    ensures opens { IfOk result (λ input. OpensIf F.Files files.old (option_map string_bytes name.now) input files.new) }
    ensures input { IfOk result (λ input. is_some input ≡ is_some name.now) }
    ensures reports { IfErr result (λ message. (word : Word) × (option_map string_bytes name.now ≡ Some word)
        × ReportsUnopened F.Files files.old (plan_seen plan.now) word message files.new) }
{
    match name {
        Some(name) => Ok(Some(open(alloc, files, plan, name.as_str())?)),
        None => Ok(None),
    }
}

// Opens an input. `Err` if it can't be opened.
fn open<F: Files>(
    alloc: Global,
    files: &mut F,
    plan: &Plan,
    name: &str,
) -> Result<F::Input, Message>
    ensures opens { IfOk result (λ input. F.opens files.old name.now input files.new) }
    ensures reports { IfErr result (λ message. ReportsUnopened F.Files files.old (plan_seen plan.now) name.now message
        files.new) }
{
    match files.open(name) {
        Ok(input) => Ok(input),
        Err(Unopened::NoMemory) => Err(Message::of(alloc, &Obstacle::NoMemory)),
        Err(Unopened::Refused) => Err(cannot_open(alloc, plan, name)),
    }
}

// Reports that a file can't be opened.
fn cannot_open(alloc: Global, plan: &Plan, name: &str) -> Message
    ensures { Says (cannot_open_text (tool_name (tool_of plan.now.command)) name.now) 1 result }
{
    Message::of(alloc, &Obstacle::CannotOpen(plan.command.name(), name))
}

/// How a run ended: its fault, if there is one, is reported.
pub fn end_of(alloc: Global, plan: &Plan, outcome: &Outcome) -> Message
    ensures { ReportsRun (plan_seen plan.now) (option_map fault_value outcome.now.fault) result }
{
    let line = match outcome.fault_line(alloc, plan) {
        Ok(Some(line)) => MessageLine::Text(line),
        Ok(None) => MessageLine::Nothing,
        Err(_) => return Message::of(alloc, &Obstacle::NoMemory),
    };
    Message {
        line,
        status: outcome.status(),
    }
}
