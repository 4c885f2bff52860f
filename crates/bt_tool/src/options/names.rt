//! The names of a run's inputs and of its output, as the words have them.

ghost use Rattle.std.specs.Prelude.{◌≡◌, option_map};
ghost use Rattle.bt_tool.specs.calls.Given.{items_of_words};
ghost use Rattle.bt_tool.specs.calls.Lent.{names_lent, table_lent};
ghost use Rattle.bt_tool.specs.model.Options.{named_by, output_by, value_if_any};

use crate::options::given::Given;

/// The names that the items give, as the words have them.
#[derive(Clone, Copy)]
pub(crate) struct NamedFiles<'a> {
    pub(crate) genome: Option<&'a str>,
    /// `stdin` if the words name no first input.
    pub(crate) first: &'a str,
    pub(crate) second: Option<&'a str>,
    /// None is standard output.
    pub(crate) output: Option<&'a str>,
}

// The value of an option that a tool may lack.
fn value_if_any<'a>(given: Given<'a>, option: Option<&str>) -> Option<&'a str>
    ensures { option_map (λ value. value.now) result
        ≡ value_if_any (items_of_words given.entry) (option_map (λ option. option.now) option.entry) }
{
    given.value_of(option?)
}

// The output of this name: none if it is standard output.
fn output_named<'a>(name: Option<&'a str>) -> Option<&'a str>
    ensures { option_map (λ name. name.now) result
        ≡ output_by (option_map (λ name. name.now) name.entry) }
{
    let name = name?;
    if name == "-" || name == "stdout" {
        return None;
    }
    Some(name)
}

/// The names of the inputs and of the output.
pub(crate) fn names_of<'a>(given: Given<'a>) -> NamedFiles<'a>
    ensures { names_lent result ≡ named_by (table_lent given.entry.table.now) (items_of_words given.entry) }
{
    let table = given.table;
    NamedFiles {
        genome: value_if_any(given, table.genome),
        first: given.value_of(table.first).unwrap_or("stdin"),
        second: value_if_any(given, table.second),
        output: output_named(value_if_any(given, table.output)),
    }
}
