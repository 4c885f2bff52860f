//! What becomes of a call.

ghost use Rattle.std.specs.Prelude.{◌≡◌, IfErr, IfNone, IfOk, IfSome, is_some, option_copied, option_map, string_bytes, true};
ghost use Rattle.bt_tool.specs.calls.Plan.{plan_seen};
ghost use Rattle.bt_front.specs.model.Verdict.{has_survey, lists_hits, names_seen, second_names, verdict_of};
ghost use Rattle.bt_front.specs.model.Fitting.{common_names, order_text as text_of_order};
ghost use Rattle.drop_in.specs.calls.Answer.{Answers, ListsTaken, LeavesCall, LeavesFiles, LeavesOpened, LeavesStreams, Looks, LooksAtOpened, SeesInputs};
ghost use Rattle.drop_in.specs.calls.Call.{AreReady, AreRunnable, IsLeftByVerdict, IsOrder, IsTaken, Reads, RunsInputs, entries_if, plan_by, reading_if, stream_among, stream_of, survey_if};
ghost use Rattle.drop_in.specs.calls.GenomeFiles.{IsWhyOfGenomeIf};
ghost use Rattle.drop_in.specs.calls.Looks.{LeavesIfFile, LeavesInput, LeavesInputIf, LeavesOther, ReadsGenomeIf, SeesFiles, SeesIfFile, SeesInput, SeesInputIf, SeesOther};
ghost use Rattle.drop_in.specs.calls.Whys.{IsWhyOfOrder, IsWhyOfWays, IsWhyOfVerdict};
ghost use Rattle.bt_lines.specs.declared.fault.Input.TheVariants.{Second};

use crate::front_files::{FrontFiles, FrontInput};
use crate::genome_file::{GenomeFile, read_genome};
use crate::gzip::look_at_gzip;
use crate::hits::{Listed, list_inputs};
use crate::looks::{Left, ReadStream, Reading, Seen, look_at_file, look_at_stream};
use crate::opening::{CallInputs, FileOrStream, OpenedFiles, OpenedInput, Ways, open_all};
use crate::why::Why;
use crate::words::Request;
use bt_bed::Genome;
use bt_files::{Files, Finished, carry_out};
use bt_front::{Asked, InOrderOf, Reason, Survey, common_order};
use bt_lines::{Input, Source};
use bt_tool::Plan;
use std::alloc::Global;

/// What became of a call.
#[derive(Drop)]
pub enum Answered<I, O> {
    /// It was run.
    Took(Finished<FrontInput<I>, O>),
    /// Its hits were listed.
    Listed(Listed<O>),
    /// It wasn't.
    Left(Left<I>),
}

/// What the run of a call reads.
#[derive(Drop)]
pub struct Inputs<I> {
    /// The text of the genome file, if there is one.
    pub genome: Option<Vec<u8>>,
    pub first: Reading<I>,
    pub second: Option<Reading<I>>,
}

/// Looks at the inputs of a call, and runs it if the verdict takes it. Of a stream as many bytes are kept as there is room for.
pub fn answer<I: Source + Drop, F: Files<Input = I>>(
    alloc: Global,
    files: F,
    request: Request,
    ways: Ways<'_>,
    room: usize,
) -> (Answered<I, F::Output>, F)
    ensures { Answers F.Files I.Source F.Output.Sink files request ways.entry room result.0 result.1 }
{
    let mut files = files;
    match look(alloc, &mut files, &request, ways, room) {
        Ok(inputs) => {
            if request.orders_hits() {
                return list_taken(alloc, files, &request.plan, inputs, room);
            }
            let (finished, files) = run_inputs(alloc, files, request.plan, inputs);
            (Answered::Took(finished), files)
        }
        Err(left) => (Answered::Left(left), files),
    }
}

// Lists the hits of these inputs, unless there is no room for them.
fn list_taken<I: Source + Drop, F: Files<Input = I>>(
    alloc: Global,
    files: F,
    plan: &Plan,
    inputs: Inputs<I>,
    room: usize,
) -> (Answered<I, F::Output>, F)
    requires { lists_hits plan.now.command ≡ true }
    ensures { ListsTaken F.Files I.Source F.Output.Sink files (plan_seen plan.now) inputs room result.0 result.1 }
{
    let mut now = files;
    match list_inputs(alloc, &mut now, plan, inputs, room) {
        Ok(listed) => (Answered::Listed(listed), now),
        Err(left) => (Answered::Left(left), now),
    }
}

// Runs a plan over these inputs.
fn run_inputs<I: Source + Drop, F: Files<Input = I>>(
    alloc: Global,
    files: F,
    plan: Plan,
    inputs: Inputs<I>,
) -> (Finished<FrontInput<I>, F::Output>, F)
    requires { is_some inputs.genome ≡ true → has_survey plan.command ≡ true }
    ensures { RunsInputs F.Files I.Source F.Output.Sink files (plan_seen plan) inputs result.0 result.1 }
{
    let plan = with_order(alloc, plan, inputs.genome.is_some());
    let mut front = ready(files, inputs);
    let finished = carry_out(alloc, &mut front, &plan);
    let FrontFiles { files, .. } = front;
    (finished, files)
}

// The plan with a genome file without a name, if it goes by an order and has none.
fn with_order(alloc: Global, plan: Plan, has_order: bool) -> Plan
    requires { has_order ≡ true → has_survey plan.command ≡ true }
    ensures { plan_seen result ≡ plan_by has_order (plan_seen plan) }
{
    let mut plan = plan;
    if has_order && plan.genome.is_none() {
        plan.genome = Some(String::new(alloc));
    }
    plan
}

// Files that have these inputs ready.
fn ready<F, I: Drop>(files: F, inputs: Inputs<I>) -> FrontFiles<F, I>
    ensures { AreReady inputs files result }
{
    let Inputs {
        genome,
        first,
        second,
    } = inputs;
    let genome = match genome {
        Some(text) => Some(FrontInput::kept(text)),
        None => None,
    };
    let second = match second {
        Some(reading) => Some(input_of(reading)),
        None => None,
    };
    FrontFiles {
        files,
        genome,
        first: Some(input_of(first)),
        second,
    }
}

// What a run reads of an input.
fn input_of<I: Drop>(reading: Reading<I>) -> FrontInput<I>
    ensures { Reads reading result }
{
    match reading {
        Reading::File(input) => FrontInput::Opened(input),
        Reading::Stream(stream) => FrontInput::kept(stream.kept),
        Reading::Text(text) => FrontInput::kept(text),
    }
}

// Looks at the inputs of a call, and gives them if the verdict takes it.
fn look<F: Files>(
    alloc: Global,
    files: &mut F,
    request: &Request,
    ways: Ways<'_>,
    room: usize,
) -> Result<Inputs<F::Input>, Left<F::Input>>
    ensures looks { IfOk result (λ inputs. Looks F.Files F.Input.Source files.old request.now ways.entry inputs files.new) }
    ensures leaves { IfErr result (λ left. LeavesCall F.Files F.Input.Source files.old request.now ways.entry room left files.new) }
{
    if let Some(why) = ways_why(ways) {
        return Err(Left { why, stream: None });
    }
    let opened = match open_all(files, &request.plan, ways) {
        Ok(opened) => opened,
        Err(why) => return Err(Left { why, stream: None }),
    };
    match look_at_opened(alloc, files, request, opened, room) {
        Ok(inputs) => Ok(inputs),
        Err(left) => Err(left),
    }
}

// Why the ways in which its inputs come leave the call.
fn ways_why(ways: Ways<'_>) -> Option<Why>
    ensures runnable { IfNone result (AreRunnable ways.entry) }
    ensures why { IfSome result (IsWhyOfWays ways.entry) }
{
    if ways.genome {
        Some(Why::GenomeStream)
    } else if ways.first.is_stream() && ways.second.is_stream() {
        Some(Why::TwoStreams)
    } else {
        None
    }
}

// Looks at the files that were opened, then at the stream, and gives the inputs if the verdict takes the call.
fn look_at_opened<F: Files>(
    alloc: Global,
    files: &mut F,
    request: &Request,
    opened: OpenedFiles<F::Input>,
    room: usize,
) -> Result<Inputs<F::Input>, Left<F::Input>>
    ensures looks { IfOk result (λ inputs. LooksAtOpened F.Files F.Input.Source files.old request.now opened inputs files.new) }
    ensures leaves { IfErr result (λ left. LeavesOpened F.Files F.Input.Source files.old request.now opened room left files.new) }
{
    let OpenedFiles { genome, inputs } = opened;
    let genome = match genome_of(alloc, genome) {
        Ok(genome) => genome,
        Err(why) => return Err(Left { why, stream: None }),
    };
    let looked = match look_at_files(alloc, inputs, room) {
        Ok(looked) => looked,
        Err(why) => return Err(Left { why, stream: None }),
    };
    let (first, second) = match look_at_stream_of(alloc, files, &request.plan, looked, room) {
        Ok(seen) => seen,
        Err(left) => return Err(left),
    };
    match judge(alloc, &request.asked(), genome, first, second) {
        Ok(inputs) => Ok(inputs),
        Err(left) => Err(left),
    }
}

// Reads the genome file, if the call has one.
fn genome_of<I: Source + Drop>(alloc: Global, opened: Option<I>) -> Result<Option<GenomeFile>, Why>
    ensures reads { IfOk result (ReadsGenomeIf I.Source opened) }
    ensures why { IfErr result (IsWhyOfGenomeIf I.Source opened) }
{
    match opened {
        Some(source) => match read_genome(alloc, source) {
            Ok(file) => Ok(Some(file)),
            Err(why) => Err(why),
        },
        None => Ok(None),
    }
}

// Looks at the inputs that are files.
fn look_at_files<I: Source + Drop>(
    alloc: Global,
    inputs: CallInputs<OpenedInput<I>>,
    room: usize,
) -> Result<CallInputs<Seen<I>>, Why>
    ensures sees { IfOk result (SeesFiles I.Source inputs) }
    ensures leaves { IfErr result (LeavesFiles I.Source inputs room) }
{
    let CallInputs { first, second } = inputs;
    let first = match look_if_file(alloc, first, Input::First, room) {
        Ok(first) => first,
        Err(why) => return Err(why),
    };
    match look_at_other(alloc, second, room) {
        Ok(second) => Ok(CallInputs { first, second }),
        Err(why) => Err(why),
    }
}

// Looks at the second input, if there is one and it's a file.
fn look_at_other<I: Source + Drop>(
    alloc: Global,
    opened: Option<FileOrStream<OpenedInput<I>>>,
    room: usize,
) -> Result<Option<FileOrStream<Seen<I>>>, Why>
    ensures sees { IfOk result (SeesOther I.Source opened) }
    ensures leaves { IfErr result (LeavesOther I.Source opened Second room) }
{
    match opened {
        Some(opened) => match look_if_file(alloc, opened, Input::Second, room) {
            Ok(seen) => Ok(Some(seen)),
            Err(why) => Err(why),
        },
        None => Ok(None),
    }
}

// Looks at an input if it's a file.
fn look_if_file<I: Source + Drop>(
    alloc: Global,
    opened: FileOrStream<OpenedInput<I>>,
    input: Input,
    room: usize,
) -> Result<FileOrStream<Seen<I>>, Why>
    ensures sees { IfOk result (SeesIfFile I.Source opened) }
    ensures leaves { IfErr result (LeavesIfFile I.Source opened input room) }
{
    match opened {
        FileOrStream::File(OpenedInput::File(file)) => match look_at_file(alloc, file, input) {
            Ok(seen) => Ok(FileOrStream::File(seen)),
            Err(why) => Err(why),
        },
        FileOrStream::File(OpenedInput::Gzip(gzip)) => {
            match look_at_gzip(alloc, gzip, input, room) {
                Ok(seen) => Ok(FileOrStream::File(seen)),
                Err(why) => Err(why),
            }
        }
        FileOrStream::Stream => Ok(FileOrStream::Stream),
    }
}

// Looks at the stream of a call, if it has one, once its files were looked at.
fn look_at_stream_of<F: Files>(
    alloc: Global,
    files: &mut F,
    plan: &Plan,
    looked: CallInputs<Seen<F::Input>>,
    room: usize,
) -> Result<(Seen<F::Input>, Option<Seen<F::Input>>), Left<F::Input>>
    ensures sees { IfOk result (λ seen. SeesInputs F.Files F.Input.Source files.old (plan_seen plan.now).names looked seen.0 seen.1 files.new) }
    ensures leaves { IfErr result (λ left. LeavesStreams F.Files F.Input.Source files.old (plan_seen plan.now).names looked room left files.new) }
{
    let CallInputs { first, second } = looked;
    let named = Named {
        name: plan.first.as_str(),
        input: Input::First,
    };
    let first = match look_if_stream(alloc, files, first, named, room) {
        Ok(first) => first,
        Err(left) => return Err(left),
    };
    match look_at_last(alloc, files, second, &plan.second, room) {
        Ok(second) => Ok((first, second)),
        Err(left) => Err(left),
    }
}

// Looks at the second input, if there is one and it's a stream.
fn look_at_last<F: Files>(
    alloc: Global,
    files: &mut F,
    looked: Option<FileOrStream<Seen<F::Input>>>,
    name: &Option<String>,
    room: usize,
) -> Result<Option<Seen<F::Input>>, Left<F::Input>>
    ensures sees { IfOk result (λ seen. SeesInputIf F.Files F.Input.Source files.old looked (option_map string_bytes name.now) seen files.new) }
    ensures leaves { IfErr result (λ left. LeavesInputIf F.Files F.Input.Source files.old looked (option_map string_bytes name.now) Second room left files.new) }
{
    let Some(looked) = looked else {
        return Ok(None);
    };
    let Some(name) = name else {
        return Ok(None);
    };
    let named = Named {
        name: name.as_str(),
        input: Input::Second,
    };
    match look_if_stream(alloc, files, looked, named, room) {
        Ok(seen) => Ok(Some(seen)),
        Err(left) => Err(left),
    }
}

// An input by its name.
#[derive(Clone, Copy)]
struct Named<'a> {
    name: &'a str,
    input: Input,
}

// Looks at an input if it's a stream; a file was looked at before.
fn look_if_stream<F: Files>(
    alloc: Global,
    files: &mut F,
    looked: FileOrStream<Seen<F::Input>>,
    named: Named<'_>,
    room: usize,
) -> Result<Seen<F::Input>, Left<F::Input>>
    ensures sees { IfOk result (λ seen. SeesInput F.Files F.Input.Source files.old looked named.entry.name.now seen files.new) }
    ensures leaves { IfErr result (λ left. LeavesInput F.Files F.Input.Source files.old looked named.entry.name.now named.entry.input room
        left files.new) }
{
    match looked {
        FileOrStream::File(seen) => Ok(seen),
        FileOrStream::Stream => look_at_stream(alloc, files, named.name, named.input, room),
    }
}

// Gives the inputs if the verdict takes the call.
fn judge<I: Drop>(
    alloc: Global,
    asked: &Asked,
    genome: Option<GenomeFile>,
    first: Seen<I>,
    second: Option<Seen<I>>,
) -> Result<Inputs<I>, Left<I>>
    ensures takes { IfOk result (IsTaken asked.now genome first second) }
    ensures leaves { IfErr result (IsLeftByVerdict asked.now genome first second) }
{
    match order_text(alloc, asked, genome, &first, &second) {
        Ok(text) => Ok(Inputs {
            genome: text,
            first: first.reading,
            second: reading_if(second),
        }),
        Err(why) => Err(Left {
            why,
            stream: stream_among(first.reading, reading_if(second)),
        }),
    }
}

// What is read of an input that a call may lack.
fn reading_if<I: Drop>(seen: Option<Seen<I>>) -> Option<Reading<I>>
    ensures { result ≡ reading_if seen }
{
    match seen {
        Some(seen) => Some(seen.reading),
        None => None,
    }
}

/// The stream among the inputs.
pub fn stream_among<I: Drop>(first: Reading<I>, second: Option<Reading<I>>) -> Option<ReadStream<I>>
    ensures { result ≡ stream_among first second }
{
    match first {
        Reading::Stream(stream) => Some(stream),
        Reading::File(_again) => stream_of(second),
        Reading::Text(_text) => stream_of(second),
    }
}

// The stream of an input that a call may lack, if it is one.
fn stream_of<I: Drop>(reading: Option<Reading<I>>) -> Option<ReadStream<I>>
    ensures { result ≡ stream_of reading }
{
    match reading {
        Some(Reading::Stream(stream)) => Some(stream),
        Some(Reading::File(_again)) => None,
        Some(Reading::Text(_text)) => None,
        None => None,
    }
}

// The text of the genome file that the run goes by, if the verdict takes the call.
fn order_text<I>(
    alloc: Global,
    asked: &Asked,
    genome: Option<GenomeFile>,
    first: &Seen<I>,
    second: &Option<Seen<I>>,
) -> Result<Option<Vec<u8>>, Why>
    ensures takes { IfOk result (IsOrder asked.now genome first.now.survey (survey_if second.now)) }
    ensures leaves { IfErr result (IsWhyOfVerdict asked.now first.now.survey (survey_if second.now) (entries_if genome)) }
{
    let others = match second {
        Some(seen) => Some(&seen.survey),
        None => None,
    };
    match verdict(asked, &first.survey, others, &genome) {
        Err(reason) => Err(Why::Verdict(reason)),
        Ok(InOrderOf::Bytes) => Ok(None),
        Ok(InOrderOf::GenomeFile) => Ok(match genome {
            Some(file) => Some(file.text),
            None => None,
        }),
        Ok(InOrderOf::Found) => found_order(alloc, &first.survey, others),
    }
}

// The verdict on these inputs.
fn verdict(
    asked: &Asked,
    first: &Survey,
    second: Option<&Survey>,
    genome: &Option<GenomeFile>,
) -> Result<InOrderOf, Reason>
    ensures { result ≡ verdict_of asked.now first.now (option_copied second.entry) (entries_if genome.now) }
{
    match genome {
        Some(file) => asked.verdict(first, second, Some(&file.genome)),
        None => asked.verdict(first, second, None),
    }
}

// The text of an order that fits the inputs.
fn found_order(
    alloc: Global,
    first: &Survey,
    second: Option<&Survey>,
) -> Result<Option<Vec<u8>>, Why>
    ensures finds { IfOk result (λ text. option_map (λ text. text.items) text
        ≡ option_map text_of_order (common_names (names_seen first.now) (second_names (option_copied second.entry)))) }
    ensures why { IfErr result (IsWhyOfOrder first.now (option_copied second.entry)) }
{
    let others = match second {
        Some(survey) => Some(&survey.chromosomes),
        None => None,
    };
    match common_order(alloc, &first.chromosomes, others) {
        Ok(Some(text)) => Ok(Some(text)),
        Ok(None) => Err(Why::Verdict(Reason::NoCommonOrder)),
        Err(_) => Err(Why::NoMemory),
    }
}
