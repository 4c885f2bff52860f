//! The files of a call, which are all opened before any is read, as bedtools does.

ghost use Rattle.std.specs.Prelude.{◌≡◌, IfErr, IfOk, option_map, string_bytes};
ghost use Rattle.bt_files.specs.calls.Ending.{OpensIf};
ghost use Rattle.bt_lines.specs.declared.fault.Input.TheVariants.{Genome, Second};
ghost use Rattle.bt_tool.specs.calls.Plan.{plan_seen};
ghost use Rattle.drop_in.specs.calls.Opening.{CannotOpen, CannotOpenBoth, CannotOpenIf, CannotOpenInput, IsRefused, IsRefusedIf, OpensAll, OpensBoth, OpensInput, OpensInputIf};

use crate::why::Why;
use bt_files::{Files, Unopened};
use bt_lines::Input;
use bt_tool::Plan;

/// How an input of a call comes.
#[derive(Clone, Copy, Debug, PartialEq, Eq)]
pub enum Way<'a> {
    /// As a file, which can be opened again.
    File,
    /// As a stream, which can be read only once.
    Stream,
    /// As a gzip file, whose text comes on the pipe of this name.
    Unzipped(&'a str),
}

impl Way<'_> {
    ghost use Rattle.std.specs.Prelude.{◌≡◌};
    ghost use Rattle.drop_in.specs.calls.Opening.{is_stream};

    /// Whether it is a stream.
    pub fn is_stream(self) -> bool
        ensures { result ≡ is_stream self.entry }
    {
        match self {
            Way::Stream => true,
            Way::File | Way::Unzipped(_) => false,
        }
    }
}

/// How the inputs of a call come.
#[derive(Clone, Copy, Debug, PartialEq, Eq)]
pub struct Ways<'a> {
    /// Whether the genome file is a stream.
    pub genome: bool,
    pub first: Way<'a>,
    pub second: Way<'a>,
}

/// A file of which nothing was read. It was opened twice, so that the run reads what was surveyed, also if the file is
/// removed or replaced.
#[derive(Drop)]
pub struct OpenedFile<I> {
    pub for_survey: I,
    pub for_run: I,
}

/// A gzip file and the pipe of its text, of which nothing was read.
#[derive(Drop)]
pub struct OpenedGzip<I> {
    pub zipped: I,
    pub text: I,
}

/// What was opened of an input that is no stream.
#[derive(Drop)]
pub enum OpenedInput<I> {
    File(OpenedFile<I>),
    Gzip(OpenedGzip<I>),
}

/// An input of a call: a file, with what is known of it, or a stream. Streams are opened last, once the files were looked at.
#[derive(Drop)]
pub enum FileOrStream<T> {
    File(T),
    Stream,
}

/// The inputs of a call, except its genome file.
#[derive(Drop)]
pub struct CallInputs<T> {
    pub first: FileOrStream<T>,
    pub second: Option<FileOrStream<T>>,
}

/// The files of a call, of which none was read.
#[derive(Drop)]
pub struct OpenedFiles<I> {
    pub genome: Option<I>,
    pub inputs: CallInputs<OpenedInput<I>>,
}

/// Opens the files of a call, in the order in which a plan opens them. A genome file is opened once, since its text is kept.
pub fn open_all<F: Files>(
    files: &mut F,
    plan: &Plan,
    ways: Ways<'_>,
) -> Result<OpenedFiles<F::Input>, Why>
    ensures opens { IfOk result (λ opened. OpensAll F.Files files.old (plan_seen plan.now).names ways.entry opened files.new) }
    ensures cannot { IfErr result (λ why. CannotOpen F.Files files.old (plan_seen plan.now).names ways.entry why files.new) }
{
    let genome = match open_if(files, &plan.genome) {
        Ok(genome) => genome,
        Err(why) => return Err(why),
    };
    let first = match open_input(files, plan.first.as_str(), Input::First, ways.first) {
        Ok(first) => first,
        Err(why) => return Err(why),
    };
    let second = match open_second(files, &plan.second, ways.second) {
        Ok(second) => second,
        Err(why) => return Err(why),
    };
    let inputs = CallInputs { first, second };
    Ok(OpenedFiles { genome, inputs })
}

// Opens the genome file, if there is one.
fn open_if<F: Files>(files: &mut F, name: &Option<String>) -> Result<Option<F::Input>, Why>
    ensures opens { IfOk result (λ opened. OpensIf F.Files files.old (option_map string_bytes name.now) opened files.new) }
    ensures cannot { IfErr result (λ why. IsRefusedIf F.Files files.old (option_map string_bytes name.now) Genome why files.new) }
{
    match name {
        Some(name) => match open(files, name.as_str(), Input::Genome) {
            Ok(opened) => Ok(Some(opened)),
            Err(why) => Err(why),
        },
        None => Ok(None),
    }
}

// Opens the second input, if there is one.
fn open_second<F: Files>(
    files: &mut F,
    name: &Option<String>,
    way: Way<'_>,
) -> Result<Option<FileOrStream<OpenedInput<F::Input>>>, Why>
    ensures opens { IfOk result (λ opened. OpensInputIf F.Files way.entry files.old (option_map string_bytes name.now) opened files.new) }
    ensures cannot { IfErr result (λ why. CannotOpenIf F.Files way.entry files.old (option_map string_bytes name.now) Second why files.new) }
{
    match name {
        Some(name) => match open_input(files, name.as_str(), Input::Second, way) {
            Ok(opened) => Ok(Some(opened)),
            Err(why) => Err(why),
        },
        None => Ok(None),
    }
}

// Opens an input, unless it is a stream.
fn open_input<F: Files>(
    files: &mut F,
    name: &str,
    input: Input,
    way: Way<'_>,
) -> Result<FileOrStream<OpenedInput<F::Input>>, Why>
    ensures opens { IfOk result (λ opened. OpensInput F.Files way.entry files.old name.now opened files.new) }
    ensures cannot { IfErr result (λ why. CannotOpenInput F.Files way.entry files.old name.now input why files.new) }
{
    match way {
        Way::Stream => Ok(FileOrStream::Stream),
        Way::File => match open_both(files, name, name, input) {
            Ok((for_survey, for_run)) => Ok(FileOrStream::File(OpenedInput::File(OpenedFile {
                for_survey,
                for_run,
            }))),
            Err(why) => Err(why),
        },
        Way::Unzipped(pipe) => match open_both(files, name, pipe, input) {
            Ok((zipped, text)) => Ok(FileOrStream::File(OpenedInput::Gzip(OpenedGzip {
                zipped,
                text,
            }))),
            Err(why) => Err(why),
        },
    }
}

// Opens what an input is read from, by both names.
fn open_both<F: Files>(
    files: &mut F,
    name: &str,
    other: &str,
    input: Input,
) -> Result<(F::Input, F::Input), Why>
    ensures opens { IfOk result (λ both. OpensBoth F.Files files.old name.now other.now both.0 both.1 files.new) }
    ensures cannot { IfErr result (λ why. CannotOpenBoth F.Files files.old name.now other.now input why files.new) }
{
    let one = match open(files, name, input) {
        Ok(opened) => opened,
        Err(why) => return Err(why),
    };
    match open(files, other, input) {
        Ok(two) => Ok((one, two)),
        Err(why) => Err(why),
    }
}

/// Opens an input.
pub fn open<F: Files>(files: &mut F, name: &str, input: Input) -> Result<F::Input, Why>
    ensures opens { IfOk result (λ opened. F.opens files.old name.now opened files.new) }
    ensures refused { IfErr result (λ why. IsRefused F.Files files.old name.now input why files.new) }
{
    match files.open(name) {
        Ok(opened) => Ok(opened),
        Err(Unopened::NoMemory) => Err(Why::NoMemory),
        Err(Unopened::Refused) => Err(Why::Unopened(input)),
    }
}
