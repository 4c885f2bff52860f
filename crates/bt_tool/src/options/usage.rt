//! The faults of a command line, and the line that reports each.

ghost use Rattle.std.specs.Prelude.{◌≡◌, IfOk, length};
ghost use Rattle.bt_tool.specs.calls.Plan.{words_seen};
ghost use Rattle.bt_tool.specs.model.Usage.{usage_text};
ghost use Rattle.bt_tool.specs.calls.CommandLine.{IsTellable};

use std::alloc::{AllocError, Global};

/// The fault of a command line.
#[derive(Clone, Copy, Debug, PartialEq, Eq)]
pub struct Usage {
    /// From 1 to 7: which fault it is. `usage_line` has the text of each.
    pub number: u8,
    /// The index among the words of the option that is at fault (numbers 2 to 4), else 0.
    pub word: usize,
}

/// Why there is no plan. `NoMemory` says nothing of the words but that they have one.
#[derive(Clone, Copy, Debug, PartialEq, Eq)]
pub enum Refusal {
    Usage(Usage),
    NoMemory,
}

impl From<Usage> for Refusal {
    ghost use Rattle.std.specs.Prelude.{◌≡◌};
    ghost use Rattle.bt_tool.specs.declared.options.usage.Refusal.{Refusal};

    ghost from_gives = { λ usage refusal. refusal ≡ Refusal.Usage usage };

    fn from(usage: Usage) -> Refusal {
        Refusal::Usage(usage)
    }
}

impl From<AllocError> for Refusal {
    ghost use Rattle.std.specs.Prelude.{◌≡◌};
    ghost use Rattle.bt_tool.specs.declared.options.usage.Refusal.{Refusal};

    ghost from_gives = { λ _ refusal. refusal ≡ Refusal.NoMemory };

    fn from(_error: AllocError) -> Refusal {
        Refusal::NoMemory
    }
}

/// What can be wrong with a command line.
#[derive(Clone, Copy)]
pub(crate) enum UsageKind {
    NoCommand = 1,
    UnknownOption = 2,
    ValueMissing = 3,
    BadValue = 4,
    RequiredMissing = 5,
    OptionsExclusive = 6,
    InputNamedTwice = 7,
}

impl UsageKind {
    ghost use Rattle.std.specs.Prelude.{◌≡◌, ◌≤◌};
    ghost use Rattle.bt_tool.specs.model.Usage.{names_word, usage_phrase};
    ghost use Rattle.bt_tool.specs.inside.UsageKinds.{number_of};

    fn numbered(number: u8) -> UsageKind
        requires at_least { 1 ≤ number }
        requires at_most { number ≤ 7 }
        ensures { number_of result ≡ number }
    {
        match number {
            1 => UsageKind::NoCommand,
            2 => UsageKind::UnknownOption,
            3 => UsageKind::ValueMissing,
            4 => UsageKind::BadValue,
            5 => UsageKind::RequiredMissing,
            6 => UsageKind::OptionsExclusive,
            _ => UsageKind::InputNamedTwice,
        }
    }

    /// Whether the fault is that of one option.
    fn names_option(self) -> bool
        ensures { result ≡ names_word (number_of self) }
    {
        matches!(
            self,
            UsageKind::UnknownOption | UsageKind::ValueMissing | UsageKind::BadValue
        )
    }

    fn text(self) -> &'static str
        ensures { result.now ≡ usage_phrase (number_of self) }
    {
        match self {
            UsageKind::NoCommand => "no or unknown command",
            UsageKind::UnknownOption => "unknown option",
            UsageKind::ValueMissing => "value missing",
            UsageKind::BadValue => "bad value",
            UsageKind::RequiredMissing => "required option missing",
            UsageKind::OptionsExclusive => "options exclude one another",
            UsageKind::InputNamedTwice => "standard input named twice",
        }
    }
}

impl Usage {
    ghost use Rattle.std.specs.Prelude.{◌≡◌};
    ghost use Rattle.bt_tool.specs.inside.UsageKinds.{number_of};

    /// A fault of the words as a whole.
    pub(crate) fn new(kind: UsageKind) -> Usage
        ensures { result ≡ record { number = number_of kind; word = 0 } }
    {
        Usage {
            number: kind as u8,
            word: 0,
        }
    }

    /// The fault of the option at this index among the words.
    pub(crate) fn of_option(kind: UsageKind, word: usize) -> Usage
        ensures { result ≡ record { number = number_of kind; word = word } }
    {
        Usage {
            number: kind as u8,
            word,
        }
    }
}

/// The line on standard error that reports a fault of these words, with its line feed. `Err` if memory runs out.
pub fn usage_line(alloc: Global, words: &[String], usage: &Usage) -> Result<Vec<u8>, AllocError>
    requires { IsTellable usage.now (length words.now) }
    ensures { IfOk result (λ line. line.items ≡ usage_text (words_seen words.now) usage.now) }
{
    let kind = UsageKind::numbered(usage.number);
    let mut line = Vec::new(alloc);
    line.extend_from_slice(b"bedtools: ")?;
    line.extend_from_slice(kind.text().as_bytes())?;
    if kind.names_option() {
        line.extend_from_slice(b": ")?;
        line.extend_from_slice(words[usage.word].as_bytes())?;
    }
    line.push(b'\n')?;
    Ok(line)
}
