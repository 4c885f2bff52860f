//! What a command line asks for.

pub(crate) mod given;
pub(crate) mod word_reason;

ghost use Rattle.std.specs.Prelude.{◌≡◌, IsOk, Ok};
ghost use Rattle.bt_tool.specs.calls.Plan.{plan_seen, words_seen};
ghost use Rattle.bt_tool.specs.model.Options.{options};
ghost use Rattle.bt_front.specs.model.Words.{asked_of, command_reason, first_of, fraction_rows, items_in};

use crate::words::given::{has_repeated, is_given};
use crate::words::word_reason::WordReason;
use bt_runs::MergeStrand;
use bt_sweep::HitRule;
use bt_tool::{Command, Plan};

// The most words of a command line that Dunekettle takes.
const MOST_WORDS: usize = 64;

// The largest distance that bedtools holds.
const LARGEST_DISTANCE: u64 = 2_147_483_647;

/// What of a command line decides who takes it, beside its texts.
#[derive(Clone, Copy, Debug)]
pub struct Asked {
    pub command: Command,
    /// Whether it has `-sorted`.
    pub is_sorted: bool,
}

impl Asked {
    /// What these words, which have this plan, ask for; or why bedtools takes them, whatever is in the texts.
    pub fn of(words: &[String], plan: &Plan) -> Result<Asked, WordReason>
        requires { options (words_seen words.now) ≡ Ok (plan_seen plan.now) }
        ensures { result ≡ asked_of (words_seen words.now) (plan_seen plan.now) }
    {
        if words.len() > MOST_WORDS {
            return Err(WordReason::TooManyWords);
        }
        if has_repeated(words) {
            return Err(WordReason::GivenTwice);
        }
        match command_reason(words, plan) {
            Some(reason) => Err(reason),
            None => Ok(Asked {
                command: plan.command,
                is_sorted: is_given(words, "-sorted"),
            }),
        }
    }
}

// Why bedtools takes the command with these words.
fn command_reason(words: &[String], plan: &Plan) -> Option<WordReason>
    requires { options (words_seen words.now) ≡ Ok (plan_seen plan.now) }
    ensures { result ≡ command_reason (items_in (words_seen words.now)) (plan_seen plan.now) }
{
    match plan.command {
        Command::Merge {
            strand: MergeStrand::Each,
            ..
        } => Some(WordReason::MergeByStrand),
        Command::Merge { d, .. } if d > LARGEST_DISTANCE => Some(WordReason::LargeDistance),
        Command::Merge { .. } => None,
        Command::Complement { .. } | Command::Coverage { .. } if !is_given(words, "-i") => {
            Some(WordReason::NoInput)
        }
        Command::Complement { .. } => None,
        Command::Coverage {
            zeros: true,
            strand: Some(_),
        } => Some(WordReason::ZerosOfStrand),
        Command::Coverage { .. } => None,
        Command::Intersect { rule, .. } => zero_fraction(words, rule),
        Command::Subtract { rule, .. } => zero_fraction(words, rule),
        Command::BamToBed {
            split: true,
            cigar: true,
        } => Some(WordReason::CigarOfBlocks),
        Command::BamToBed { .. } => None,
        Command::MaskFasta { .. } if plan.output.is_none() => Some(WordReason::NoOutput),
        Command::MaskFasta { full: true, .. } => Some(WordReason::WholeHeader),
        Command::MaskFasta { .. } => None,
    }
}

// Whether `-f` is given, and requires nothing.
fn zero_fraction(words: &[String], rule: HitRule) -> Option<WordReason>
    requires { IsOk (options (words_seen words.now)) }
    ensures { result ≡ first_of (fraction_rows (items_in (words_seen words.now)) rule) }
{
    if rule.billionths == 0 && is_given(words, "-f") {
        Some(WordReason::ZeroFraction)
    } else {
        None
    }
}
