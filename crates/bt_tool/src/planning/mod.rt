//! The plan of a command line: the last value of every option counts.

pub(crate) mod plan_type;

ghost use Rattle.std.specs.Prelude.{◌≡◌, ◌≤◌, Ok, Some, None, string_bytes, IsTrue, MatchResult, IfOk, IfErr, length, option_and_then, option_map};
ghost use Rattle.bt_tool.specs.model.Table.{character_of, is_printable, table_of};
ghost use Rattle.bt_tool.specs.calls.Lent.{table_lent};
ghost use Rattle.bt_tool.specs.calls.Limits.{is_limit, is_shown_as, is_within_limits};
ghost use Rattle.bt_tool.specs.model.Fraction.{fraction_of, one_in_billionths};
ghost use Rattle.bt_tool.specs.calls.Given.{items_of_words};
ghost use Rattle.bt_tool.specs.model.Options.{command_by, command_of, denoted, fault_together, hit_shape, mask_how_by, options, plan_of, rule_by, shape_by, strand_by};
ghost use Rattle.bt_tool.specs.calls.Plan.{plan_seen, words_seen, CanBeTold, IsRefusalOf};
ghost use Rattle.bt_tool.specs.calls.CommandLine.{ReportsAnswer, ReportsRefusal};
ghost use Rattle.bt_tool.specs.model.Usage.{no_command};
ghost use Rattle.bt_bed.specs.model.BedLine.{strand_named};
ghost use Rattle.bt_lines.specs.model.Lines.{max_number, value_of};

use crate::options::checking::check;
use crate::options::fraction::fraction;
use crate::options::given::Given;
use crate::options::names::names_of;
use crate::options::takes::character;
use crate::options::tool::Tool;
use crate::options::usage::{Refusal, Usage, UsageKind};
use crate::planning::plan_type::{Command, Plan};
use bt_bed::Strand;
use bt_lines::number;
use bt_runs::MergeStrand;
use bt_seq::MaskHow;
use bt_sweep::{HitRule, Shape};
use std::alloc::{AllocError, Global};

// The tool that the first word names.
fn named_tool(words: &[String]) -> Result<Tool, Usage>
    ensures { MatchResult result
        (λ tool. command_of (words_seen words.now) ≡ Some tool)
        (λ usage. (command_of (words_seen words.now) ≡ None) × (usage ≡ no_command)) }
{
    let unknown = Usage::new(UsageKind::NoCommand);
    let name = words.first().ok_or(unknown)?;
    Tool::named(name.as_str()).ok_or(unknown)
}

// What the options ask the tool for.
fn command(tool: Tool, given: Given<'_>) -> Command
    ensures asked { result ≡ command_by tool (items_of_words given.entry) }
    ensures limits { IsTrue (is_within_limits result) }
{
    match tool {
        Tool::Merge => Command::Merge {
            d: number_of(given.value_of("-d")),
            strand: strand_of(given.has("-s"), given.value_of("-S")),
        },
        Tool::Complement => Command::Complement {
            limit: given.has("-L"),
        },
        Tool::Intersect => Command::Intersect {
            shape: shape_of(given),
            rule: rule_of(given, given.has("-r")),
            held: limit_of(given.value_of("-held")),
        },
        Tool::Subtract => Command::Subtract {
            whole: given.has("-A"),
            rule: rule_of(given, false),
            held: limit_of(given.value_of("-held")),
        },
        Tool::Coverage => Command::Coverage {
            zeros: given.has("-bga"),
            strand: counted_strand(given.value_of("-strand")),
        },
        Tool::BamToBed => Command::BamToBed {
            split: given.has("-split"),
            cigar: given.has("-cigar"),
        },
        Tool::MaskFasta => Command::MaskFasta {
            how: mask_how_of(given),
            full: given.has("-fullHeader"),
        },
    }
}

// The number of a value, 0 without one.
fn number_of(value: Option<&str>) -> u64
    ensures value { result ≡ denoted value_of 0 (option_map (λ value. value.now) value.entry) }
    ensures limit { result ≤ max_number }
{
    match value {
        Some(value) => number(value.as_bytes()).unwrap_or(0),
        None => 0,
    }
}

// How many records may be held, by a value; without one that isn't limited.
fn limit_of(value: Option<&str>) -> Option<u64>
    ensures value { result ≡ option_and_then value_of (option_map (λ value. value.now) value.entry) }
    ensures limit { IsTrue (is_limit result) }
{
    match value {
        Some(value) => number(value.as_bytes()),
        None => None,
    }
}

// What makes a hit; `both` requires the fraction of both records.
fn rule_of(given: Given<'_>, both: bool) -> HitRule
    ensures rule { result ≡ rule_by (items_of_words given.entry) both }
    ensures limit { result.billionths ≤ one_in_billionths }
{
    HitRule {
        billionths: billionths_of(given.value_of("-f")),
        both,
        same_strand: given.has("-s"),
    }
}

// The fraction of a value in billionths, 0 without one.
fn billionths_of(value: Option<&str>) -> u64
    ensures value { result ≡ denoted fraction_of 0 (option_map (λ value. value.now) value.entry) }
    ensures limit { result ≤ one_in_billionths }
{
    match value {
        Some(value) => fraction(value).unwrap_or(0),
        None => 0,
    }
}

// Which records are merged: each strand separately, those of the strand of a value, or all.
fn strand_of(each: bool, value: Option<&str>) -> MergeStrand
    ensures { result ≡ strand_by each (option_map (λ value. value.now) value.entry) }
{
    if each {
        return MergeStrand::Each;
    }
    match value {
        None => MergeStrand::All,
        Some("+") => MergeStrand::One(Strand::Plus),
        Some("-") => MergeStrand::One(Strand::Minus),
        Some(_) => MergeStrand::One(Strand::Dot),
    }
}

// The strand whose records are counted: without a value all are.
fn counted_strand(value: Option<&str>) -> Option<Strand>
    ensures { result ≡ option_map strand_named (option_map (λ value. value.now) value.entry) }
{
    match value {
        None => None,
        Some("+") => Some(Strand::Plus),
        Some("-") => Some(Strand::Minus),
        Some(_) => Some(Strand::Dot),
    }
}

// What stands for a masked base.
fn mask_how_of(given: Given<'_>) -> MaskHow
    ensures how { result ≡ mask_how_by (items_of_words given.entry) }
    ensures limit { IsTrue (is_shown_as result) }
{
    if given.has("-soft") {
        return MaskHow::Soft;
    }
    MaskHow::Hard(mask_character(given.value_of("-mc")))
}

// The character of a value, `N` without one.
fn mask_character(value: Option<&str>) -> u8
    ensures value { result ≡ denoted character_of 78 (option_map (λ value. value.now) value.entry) }
    ensures limit { IsTrue (is_printable result) }
{
    match value {
        Some(value) => character(value).unwrap_or(b'N'),
        None => b'N',
    }
}

// The shape of what intersect writes.
fn shape_of(given: Given<'_>) -> Shape
    ensures { result ≡ shape_by (items_of_words given.entry) }
{
    if given.has("-u") {
        return Shape::Once;
    }
    if given.has("-v") {
        return Shape::Missing;
    }
    if given.has("-c") {
        return Shape::Count;
    }
    if given.has("-wo") {
        return Shape::Overlap;
    }
    hit_shape(given.has("-wa"), given.has("-wb"))
}

// The shape that `-wa` and `-wb` give.
fn hit_shape(wa: bool, wb: bool) -> Shape
    ensures { result ≡ hit_shape wa wb }
{
    match (wa, wb) {
        (false, false) => Shape::Cut,
        (true, false) => Shape::OrigA,
        (false, true) => Shape::CutAndB,
        (true, true) => Shape::OrigBoth,
    }
}

// A copy of a name that may be missing.
fn copied(alloc: Global, name: Option<&str>) -> Result<Option<String>, AllocError>
    ensures { IfOk result (λ copy. option_map string_bytes copy ≡ option_map (λ name. name.now) name.entry) }
{
    match name {
        Some(name) => Ok(Some(String::from_str(alloc, name)?)),
        None => Ok(None),
    }
}

// The plan of these items, with copies of the names. That it fails only if a copy was refused is tested, with each option:
// the contracts of std don't say when an allocation fails.
fn made(alloc: Global, tool: Tool, given: Given<'_>) -> Result<Plan, AllocError>
    requires table { table_lent given.table.now ≡ table_of tool }
    requires whole { fault_together (table_of tool) (items_of_words given) ≡ None }
    ensures { IfOk result (λ plan. plan_seen plan ≡ plan_of tool (items_of_words given.entry)) }
{
    let names = names_of(given);
    let genome = copied(alloc, names.genome)?;
    let first = String::from_str(alloc, names.first)?;
    let second = copied(alloc, names.second)?;
    let output = copied(alloc, names.output)?;
    Ok(Plan {
        command: command(tool, given),
        genome,
        first,
        second,
        output,
    })
}

/// What the words after the program's name mean.
///
/// The plan has copies of its names, so memory can run out if the words have a plan.
pub fn plan(alloc: Global, words: &[String]) -> Result<Plan, Refusal>
    ensures asked { IfOk result (λ plan. options (words_seen words.now) ≡ Ok (plan_seen plan)) }
    ensures refused { IfErr result (IsRefusalOf (words_seen words.now)) }
    ensures tellable { IfErr result (CanBeTold (length words.now)) }

    // What a user sees of the words, by the report over the whole texts of the inputs.
    ensures reported { IfOk result (λ plan. ReportsAnswer (words_seen words.now) (Ok (plan_seen plan))) }
    ensures told { IfErr result (ReportsRefusal (words_seen words.now)) }
{
    let tool = named_tool(words)?;
    let table = tool.table();
    let given = Given::read(&table, words)?;
    check(given)?;
    Ok(made(alloc, tool, given)?)
}

#[cfg(test)]
mod tests;
