//! An option as it is given once, with its value if it takes one.

ghost use Rattle.std.specs.Prelude.{◌≡◌, ◌+◌, ◌<◌, ◌≤◌, ◌++◌, Some, IfOk, IfErr, drop, length};
ghost use Rattle.bt_tool.specs.calls.Lent.{item_lent, table_lent};
ghost use Rattle.bt_tool.specs.model.Usage.{words_of};
ghost use Rattle.bt_tool.specs.calls.CommandLine.{IsItem};
ghost use Rattle.bt_tool.specs.model.Options.{word_fault};
ghost use Rattle.bt_tool.specs.calls.Plan.{words_seen};

use crate::options::table::Table;
use crate::options::usage::{Usage, UsageKind};

/// An option as it is given once.
#[derive(Clone, Copy)]
pub(crate) struct Item<'a> {
    pub(crate) option: &'a str,
    pub(crate) value: Option<&'a str>,
}

impl Item<'_> {
    /// How many words it has.
    pub(crate) fn len(&self) -> usize
        ensures { result ≡ length (words_of (item_lent self.now)) }
    {
        match self.value {
            Some(_) => 2,
            None => 1,
        }
    }
}

/// The item that begins at this index.
pub(crate) fn item_at<'a>(table: &Table, words: &'a [String], at: usize) -> Result<Item<'a>, Usage>
    requires { at < length words.now }
    ensures item { IfOk result (λ item. IsItem (table_lent table.now) (item_lent item)) }
    ensures here { IfOk result (λ item. drop at (words_seen words.now)
        ≡ words_of (item_lent item)
        ++ drop (at + length (words_of (item_lent item))) (words_seen words.now)) }
    ensures within { IfOk result (λ item. at + length (words_of (item_lent item)) ≤ length words.now) }
    ensures fault { IfErr result (λ usage.
        word_fault (table_lent table.now) at (drop at (words_seen words.now)) ≡ Some usage) }
{
    let option = words[at].as_str();
    let Some(takes) = table.takes(option) else {
        return Err(Usage::of_option(UsageKind::UnknownOption, at));
    };
    if takes.stands_alone() {
        return Ok(Item {
            option,
            value: None,
        });
    }
    let Some(value) = words.get(at + 1) else {
        return Err(Usage::of_option(UsageKind::ValueMissing, at));
    };
    if !takes.fits(value.as_str()) {
        return Err(Usage::of_option(UsageKind::BadValue, at));
    }
    Ok(Item {
        option,
        value: Some(value.as_str()),
    })
}
