//! What the options of a command line have or lack together, by the table of their tool.

ghost use Rattle.std.specs.Prelude.{◌≡◌, Some, None, false, not, ◌&&◌, ◌||◌, MatchResult, option_map};
ghost use Rattle.std.specs.List.{list_any};
ghost use Rattle.std.specs.Option.{option_map_or};
ghost use Rattle.bt_tool.specs.calls.Given.{items_of_words};
ghost use Rattle.bt_tool.specs.calls.Lent.{names_lent, table_lent};
ghost use Rattle.bt_tool.specs.model.Options.{fault_together, has_exclusive, is_given, is_standard_input, lacks_option, overwrites, reads_twice};

use crate::options::given::Given;
use crate::options::names::{NamedFiles, names_of};
use crate::options::usage::{Usage, UsageKind};

/// Whether the name of an input means standard input: `-` and `stdin` do.
pub fn is_standard_input(name: &str) -> bool
    ensures { result ≡ is_standard_input name.now }
{
    name == "-" || name == "stdin"
}

// Whether an option is missing that has to be given.
fn lacks_required(given: Given<'_>) -> bool
    ensures { result ≡ list_any (λ option. not (is_given (items_of_words given.entry) option.now))
        given.entry.table.now.required.now }
{
    given.table.required.iter().any(|option| !given.has(option))
}

// Whether one of these options is given.
fn gives_one(given: Given<'_>, options: &[&str]) -> bool
    ensures { result ≡ list_any (λ option. is_given (items_of_words given.entry) option.now) options.now }
{
    options.iter().any(|option| given.has(option))
}

// Whether two options are given that exclude one another.
fn gives_both(given: Given<'_>) -> bool
    ensures { result ≡ list_any (λ pair. is_given (items_of_words given.entry) pair.0.now
        && is_given (items_of_words given.entry) pair.1.now) given.entry.table.now.exclusive.now }
{
    given
        .table
        .exclusive
        .iter()
        .any(|pair| given.has(pair.0) && given.has(pair.1))
}

// Whether the output has the name of an input, by its text.
fn overwrites(names: NamedFiles<'_>) -> bool
    ensures { result ≡ overwrites (names_lent names.entry) }
{
    let Some(output) = names.output else {
        return false;
    };
    names.genome == Some(output) || names.first == output || names.second == Some(output)
}

// Whether the plan has this input, and it is standard input.
fn is_standard(name: Option<&str>) -> bool
    ensures { result ≡ option_map_or is_standard_input (option_map (λ name. name.now) name.entry) false }
{
    match name {
        Some(name) => is_standard_input(name),
        None => false,
    }
}

// Whether more than one input is standard input.
fn reads_twice(names: NamedFiles<'_>) -> bool
    ensures { result ≡ reads_twice (names_lent names.entry) }
{
    let genome = is_standard(names.genome);
    let first = is_standard_input(names.first);
    let second = is_standard(names.second);
    genome && first || (genome || first) && second
}

// Whether an option is missing that has to be given, or that is one of several.
fn lacks_option(given: Given<'_>) -> bool
    ensures { result ≡ lacks_option (table_lent given.entry.table.now) (items_of_words given.entry) }
{
    if lacks_required(given) {
        return true;
    }
    let one_of = given.table.one_of;
    if one_of.is_empty() {
        return false;
    }
    !gives_one(given, one_of)
}

// Whether two options are given that exclude one another, or the output has the name of an input.
fn excludes(given: Given<'_>, names: NamedFiles<'_>) -> bool
    ensures { result ≡ (has_exclusive (table_lent given.entry.table.now) (items_of_words given.entry)
        || overwrites (names_lent names.entry)) }
{
    if gives_both(given) {
        return true;
    }
    overwrites(names)
}

/// What the items have or lack together.
pub(crate) fn check(given: Given<'_>) -> Result<(), Usage>
    ensures { MatchResult result
        (λ _. fault_together (table_lent given.entry.table.now) (items_of_words given.entry) ≡ None)
        (λ usage. fault_together (table_lent given.entry.table.now) (items_of_words given.entry) ≡ Some usage) }
{
    if lacks_option(given) {
        return Err(Usage::new(UsageKind::RequiredMissing));
    }
    let names = names_of(given);
    if excludes(given, names) {
        return Err(Usage::new(UsageKind::OptionsExclusive));
    }
    if reads_twice(names) {
        return Err(Usage::new(UsageKind::InputNamedTwice));
    }
    Ok(())
}

#[cfg(test)]
mod tests;
