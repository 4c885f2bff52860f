//! What is said if a call goes to bedtools with a line on which that loses or changes output silently.

ghost use Rattle.std.specs.Prelude.{◌≡◌};
ghost use Rattle.drop_in.specs.calls.Warnings.{blank_does, has_one_reader, line_of, order_does, passes_headers, silent_of, silent_on, warning_of, writes_lines, writes_second};

use crate::why::Why;
use bt_front::{Oddity, Trouble};
use bt_lines::{Fault, Input, Kind};
use bt_sweep::Shape;
use bt_tool::Command;

/// What bedtools does silently with a line.
#[derive(Clone, Copy, Debug, PartialEq, Eq)]
pub enum Silent {
    /// It reads nothing after it.
    EndsInput,
    /// It merges no features across it.
    EndsRun,
    /// It leaves out both carriage returns.
    DropsReturns,
    /// It leaves out the rest of a column, or of the line if that isn't the last one.
    CutsColumn,
    /// It cuts some of the lines that it writes.
    CutsLine,
    /// It skips it, as a header line.
    SkipsRecord,
    /// It may not notice that it is out of order.
    LosesHits,
}

impl Silent {
    /// What the line is, and what bedtools does.
    pub fn text(self) -> &'static str {
        match self {
            Silent::EndsInput => "is a blank line: bedtools ignores what follows",
            Silent::EndsRun => "is a blank line: bedtools merges nothing across it",
            Silent::DropsReturns => "has CR CR: bedtools leaves out both at the end of a line",
            Silent::CutsColumn => "has a NUL: bedtools leaves out the rest of the column or line",
            Silent::CutsLine => "is a long line: bedtools cuts some lines after 1,023 bytes",
            Silent::SkipsRecord => "begins as a header line: bedtools may leave it out",
            Silent::LosesHits => "is out of order: bedtools may lose hits",
        }
    }
}

/// What of a call decides what bedtools does with a line.
#[derive(Clone, Copy, Debug)]
pub struct Case {
    pub command: Command,
    pub is_sorted: bool,
    pub has_genome: bool,
}

/// What is said of a line of an input.
#[derive(Clone, Copy, Debug, PartialEq, Eq)]
pub struct Warning {
    pub line: u64,
    pub silent: Silent,
}

impl Case {
    ghost use Rattle.std.specs.Prelude.{◌≡◌};
    ghost use Rattle.drop_in.specs.calls.Warnings.{blank_does, order_does, silent_of, silent_on, warning_of};

    /// What is said if the call goes to bedtools for this reason.
    pub fn warning(self, why: Why) -> Option<Warning>
        ensures { result ≡ warning_of self why }
    {
        match why {
            Why::Text(input, trouble) => {
                let silent = self.silent(input, trouble)?;
                let line = line_of(trouble)?;
                Some(Warning { line, silent })
            }
            _ => None,
        }
    }

    // What bedtools does silently with a text that something leaves to it.
    fn silent(self, input: Input, trouble: Trouble) -> Option<Silent>
        ensures { result ≡ silent_of self input trouble }
    {
        match trouble {
            Trouble::Odd(odd) => self.silent_on(input, odd.oddity),
            Trouble::ComesBack { .. } => self.order_does(input),
            Trouble::Refused(
                Fault {
                    kind: Kind::OutOfOrder,
                    ..
                },
            ) => self.order_does(input),
            Trouble::Refused(_) => None,
        }
    }

    // With a line of an input that is odd.
    fn silent_on(self, input: Input, oddity: Oddity) -> Option<Silent>
        ensures { result ≡ silent_on self input oddity }
    {
        let is_merge = matches!(self.command, Command::Merge { .. });
        let (is_met, silent) = match oddity {
            Oddity::Blank => return self.blank_does(),
            Oddity::DoubleReturn => (writes_lines(self.command, input), Silent::DropsReturns),
            Oddity::Nul => (has_one_reader(self.command), Silent::CutsColumn),
            Oddity::Long => (
                is_merge || writes_lines(self.command, input),
                Silent::CutsLine,
            ),
            Oddity::HeaderName => (passes_headers(self.command), Silent::SkipsRecord),
            _ => return None,
        };
        if is_met { Some(silent) } else { None }
    }

    // With a blank line.
    fn blank_does(self) -> Option<Silent>
        ensures { result ≡ blank_does self.command self.is_sorted }
    {
        match self.command {
            Command::Merge { .. } | Command::Complement { .. } => Some(Silent::EndsRun),
            Command::Intersect { .. } if self.is_sorted => Some(Silent::EndsInput),
            _ => None,
        }
    }

    // With a record that comes before the one before it.
    fn order_does(self, input: Input) -> Option<Silent>
        ensures { result ≡ order_does self input }
    {
        match (self.command, input) {
            (Command::Intersect { .. }, Input::Second) if self.is_sorted && self.has_genome => {
                Some(Silent::LosesHits)
            }
            _ => None,
        }
    }
}

// Whether bedtools writes lines of an input as they are, except for their numbers.
fn writes_lines(command: Command, input: Input) -> bool
    ensures { result ≡ writes_lines command input }
{
    match (command, input) {
        (Command::Intersect { .. } | Command::Subtract { .. }, Input::First) => true,
        (Command::Intersect { shape, .. }, Input::Second) => writes_second(shape),
        _ => false,
    }
}

// Whether each hit has the line of the second input.
fn writes_second(shape: Shape) -> bool
    ensures { result ≡ writes_second shape }
{
    matches!(shape, Shape::CutAndB | Shape::OrigBoth | Shape::Overlap)
}

// Whether bedtools reads it by the reader that its newer commands have.
fn has_one_reader(command: Command) -> bool
    ensures { result ≡ has_one_reader command }
{
    match command {
        Command::Merge { .. }
        | Command::Complement { .. }
        | Command::Intersect { .. }
        | Command::Subtract { .. } => true,
        Command::Coverage { .. } | Command::BamToBed { .. } | Command::MaskFasta { .. } => false,
    }
}

// Whether bedtools may pass over a record whose name begins as a header line does.
fn passes_headers(command: Command) -> bool
    ensures { result ≡ passes_headers command }
{
    matches!(command, Command::Coverage { .. }) || has_one_reader(command)
}

// The line of what leaves a text to bedtools, if it has one.
fn line_of(trouble: Trouble) -> Option<u64>
    ensures { result ≡ line_of trouble }
{
    match trouble {
        Trouble::Odd(odd) => Some(odd.line),
        Trouble::ComesBack { line } => Some(line),
        Trouble::Refused(fault) => match fault.place {
            Some(place) => Some(place.line),
            None => None,
        },
    }
}
