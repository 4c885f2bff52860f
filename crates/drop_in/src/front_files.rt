//! The files of a run whose inputs were looked at before.

ghost use Rattle.std.specs.Prelude.{◌≡◌};
ghost use Rattle.drop_in.specs.calls.Inputs.{kept_texts_are_told};

use bt_files::{Files, Unopened};
use bt_lines::{DeviceFailed, FromRead, Source};
use bt_tool::Plan;
use std::io::Cursor;

/// An input of a run.
#[derive(Drop)]
pub enum FrontInput<I> {
    /// One that was opened for the run.
    Opened(I),
    /// A text in memory: what was kept of a stream, or a genome file.
    Kept(FromRead<Cursor<Vec<u8>>>),
}

impl<I> FrontInput<I> {
    ghost use Rattle.drop_in.specs.calls.Inputs.{HasText};

    /// An input that gives this text.
    pub fn kept(text: Vec<u8>) -> FrontInput<I>
        ensures { HasText result text.items }
    {
        let cursor = Cursor::new(text);
        let source = FromRead::new(cursor);
        FrontInput::Kept(source)
    }
}

impl<I: Source> Source for FrontInput<I> {
    ghost use Rattle.drop_in.specs.calls.Inputs.{IsFrontRead, front_has_failed};

    ghost has_failed = { front_has_failed I.Source };

    ghost is_read = { IsFrontRead I.Source };

    fn read(&mut self, block: &mut [u8]) -> Result<usize, DeviceFailed> {
        match self {
            FrontInput::Opened(source) => source.read(block),
            FrontInput::Kept(source) => source.read(block),
        }
    }

    fn failed(&self) -> bool {
        match self {
            FrontInput::Opened(source) => source.failed(),
            FrontInput::Kept(source) => source.failed(),
        }
    }
}

/// An input that gives a text from memory tells that text: its reads hand over the start of it, and all of it once one
/// of them reports the end.
pub fn kept_texts_are_told<I: Source>()
    ensures { kept_texts_are_told I.Source }
{}

/// The files of a run: inputs that are ready, each once, in the order in which a plan opens them. The output is made by other
/// files.
#[derive(Drop)]
pub struct FrontFiles<F, I> {
    pub files: F,
    pub genome: Option<FrontInput<I>>,
    pub first: Option<FrontInput<I>>,
    pub second: Option<FrontInput<I>>,
}

impl<I: Source + Drop, F: Files<Input = I>> Files for FrontFiles<F, I> {
    type Input = FrontInput<I>;

    type Output = F::Output;

    ghost use Rattle.drop_in.specs.calls.Inputs.{CreatesBelow, OpensNext, RefusesBelow};

    ghost opens = { OpensNext };

    ghost creates = { CreatesBelow F.Files };

    ghost refuses = { RefusesBelow F.Files };

    fn open(&mut self, _name: &str) -> Result<FrontInput<I>, Unopened> {
        if let Some(input) = self.genome.take() {
            return Ok(input);
        }
        if let Some(input) = self.first.take() {
            return Ok(input);
        }
        match self.second.take() {
            Some(input) => Ok(input),
            None => Err(Unopened::Refused),
        }
    }

    fn standard_output(&mut self) -> F::Output {
        self.files.standard_output()
    }

    fn create(&mut self, plan: &Plan, name: &str) -> Result<F::Output, Unopened> {
        self.files.create(plan, name)
    }
}
