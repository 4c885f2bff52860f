//! What the words of a call say, whatever is in its files.

ghost use Rattle.std.specs.Prelude.{◌≡◌, ◌-◌, ◌≤◌, Err, IfSome, Some, slice_get};
ghost use Rattle.bt_tool.specs.calls.Plan.{words_seen};
ghost use Rattle.bt_tool.specs.model.Options.{options};
ghost use Rattle.drop_in.specs.calls.Words.{IsStreamWord, IsValueOf, IsWhyOfWords, command_why, names_command, option_of};

use crate::naming::is_of_standard_input;
use crate::why::Why;
use bt_front::{Asked, lists_hits};
use bt_lines::Input;
use bt_tool::{Command, Plan, Refusal, Usage, plan};
use std::alloc::Global;

/// What the words of a call ask for.
#[derive(Drop)]
pub struct Request {
    pub plan: Plan,
    /// Whether they have `-sorted`.
    pub is_sorted: bool,
}

impl Request {
    ghost use Rattle.std.specs.Prelude.{◌≡◌, ◌&&◌, IfErr, IfOk, not};
    ghost use Rattle.bt_front.specs.model.Verdict.{lists_hits};
    ghost use Rattle.bt_tool.specs.calls.Plan.{words_seen};
    ghost use Rattle.drop_in.specs.calls.Call.{asked_by};
    ghost use Rattle.drop_in.specs.calls.Words.{AsksFor, IsWhyOfWords};

    /// What these words ask for, or why the call isn't run here.
    pub fn of(alloc: Global, words: &[String]) -> Result<Request, Why>
        ensures asks { IfOk result (AsksFor (words_seen words.now)) }
        ensures why { IfErr result (IsWhyOfWords (words_seen words.now)) }
    {
        if is_command(words, "bamtobed") {
            return Err(Why::Alignments);
        }
        let plan = match plan(alloc, words) {
            Ok(plan) => plan,
            Err(Refusal::NoMemory) => return Err(Why::NoMemory),
            Err(Refusal::Usage(usage)) => return Err(usage_why(words, usage)),
        };
        if let Some(why) = command_why(plan.command) {
            return Err(why);
        }
        match Asked::of(words, &plan) {
            Ok(asked) => Ok(Request {
                plan,
                is_sorted: asked.is_sorted,
            }),
            Err(reason) => Err(Why::Words(reason)),
        }
    }

    /// What decides who takes the call, beside its texts.
    pub fn asked(&self) -> Asked
        ensures { result ≡ asked_by self.now }
    {
        Asked {
            command: self.plan.command,
            is_sorted: self.is_sorted,
        }
    }

    /// Whether the hits of a record have to be put in order.
    pub fn orders_hits(&self) -> bool
        ensures { result ≡ lists_hits self.now.plan.command && not self.now.is_sorted }
    {
        lists_hits(self.plan.command) && !self.is_sorted
    }
}

// Why words without a plan leave the call.
fn usage_why(words: &[String], usage: Usage) -> Why
    requires { options (words_seen words.now) ≡ Err usage }
    ensures { IsWhyOfWords (words_seen words.now) result }
{
    if is_command(words, "genomecov") {
        return Why::CoverageForm;
    }
    Why::Usage(usage)
}

// Whether the first word is this command.
fn is_command(words: &[String], name: &str) -> bool
    ensures { result ≡ names_command (words_seen words.now) name.now }
{
    match words.first() {
        Some(word) => word.as_str() == name,
        None => false,
    }
}

// Why a command isn't run here.
fn command_why(command: Command) -> Option<Why>
    ensures { result ≡ command_why command }
{
    match command {
        Command::Intersect { held: Some(_), .. } | Command::Subtract { held: Some(_), .. } => {
            Some(Why::Limit)
        }
        Command::MaskFasta { .. } => Some(Why::Mask),
        Command::BamToBed { .. } => Some(Why::Alignments),
        _ => None,
    }
}

/// The option that names an input of a command.
pub fn option_of(command: Command, input: Input) -> &'static str
    ensures { result.now ≡ option_of command input }
{
    match (input, command) {
        (Input::Genome, _) => "-g",
        (Input::Second, _) => "-b",
        (Input::First, Command::Intersect { .. } | Command::Subtract { .. }) => "-a",
        (Input::First, _) => "-i",
    }
}

/// Where the value of an option stands among the words of a call, if the option is given: counted from 1.
pub fn value_place(words: &[String], option: &str) -> Option<usize>
    ensures after { IfSome result (λ place. slice_get (words_seen words.now) (place - 2) ≡ Some option.now) }
    ensures at_least { IfSome result (λ place. 3 ≤ place) }
{
    let mut at = 1;
    while at < words.len() {
        let word = words[at].as_str();
        if word == option {
            return Some(at + 2);
        }
        at += if takes_value(word) { 2 } else { 1 };
    }
    None
}

/// The word of a call that names an input, counted from 1: the value of this option, which is the input's name.
pub fn name_place(words: &[String], option: &str, name: &str) -> Option<usize>
    ensures { IfSome result (IsValueOf (words_seen words.now) option.now name.now) }
{
    let Some(place) = value_place(words, option) else {
        return None;
    };
    let at = place - 1;
    if at >= words.len() {
        return None;
    }
    let value = words[at].as_str();
    if value == name { Some(place) } else { None }
}

/// The word of a call that its stream replaces, counted from 1: the value of this option, which is the stream's name. It's 0
/// if the name is that of standard input, so that the words stay as they are.
pub fn stream_word(words: &[String], option: &str, name: &str) -> Option<usize>
    ensures { IfSome result (IsStreamWord (words_seen words.now) option.now name.now) }
{
    if is_of_standard_input(name) {
        return Some(0);
    }
    match name_place(words, option, name) {
        Some(place) => Some(place),
        None => None,
    }
}

// Whether a word is an option whose value is the next word.
fn takes_value(word: &str) -> bool {
    matches!(
        word,
        "-i" | "-a" | "-b" | "-g" | "-f" | "-d" | "-S" | "-held" | "-strand"
    )
}
