//! The words of a command line, divided into items.

ghost use Rattle.std.specs.Prelude.{◌≡◌, None, drop};
ghost use Rattle.bt_tool.specs.model.Options.{word_fault};
ghost use Rattle.bt_tool.specs.calls.Plan.{words_seen};
ghost use Rattle.bt_tool.specs.calls.Lent.{table_lent};

use crate::options::item::{Item, item_at};
use crate::options::table::Table;
use crate::options::usage::Usage;

/// The words of a command line, all of which after the first divide into items of a table.
#[derive(Clone, Copy)]
pub(crate) struct Given<'a> {
    pub(crate) table: &'a Table,
    // All of them divide: `no_fault` says so.
    words: &'a [String],
    ghost no_fault: { word_fault (table_lent table.now) 1 (drop 1 (words_seen words.now)) ≡ None },
}

impl<'a> Given<'a> {
    ghost use Rattle.std.specs.Prelude.{MatchResult, Some, option_map};
    ghost use Rattle.bt_tool.specs.calls.Given.{items_of_words};
    ghost use Rattle.bt_tool.specs.calls.Lent.{item_lent};
    ghost use Rattle.bt_tool.specs.model.Options.{is_given, last_item, value_of};

    /// The words, or the fault of the first that begins no item.
    pub(crate) fn read(table: &'a Table, words: &'a [String]) -> Result<Given<'a>, Usage>
        ensures { MatchResult result
            (λ given. (given.table.now ≡ table.now) × (given.words.now ≡ words.now))
            (λ usage. word_fault (table_lent table.now) 1 (drop 1 (words_seen words.now)) ≡ Some usage) }
    {
        let mut at = 1;
        while at < words.len() {
            at += item_at(table, words, at)?.len();
        }
        Ok(Given { table, words })
    }

    /// The last item of an option, if it was given.
    pub(crate) fn last(self, option: &str) -> Option<Item<'a>>
        ensures { option_map item_lent result ≡ last_item option.now (items_of_words self.entry) }
    {
        let mut last = None;
        let mut at = 1;
        while at < self.words.len() {
            let Ok(item) = item_at(self.table, self.words, at) else {
                break;
            };
            if item.option == option {
                last = Some(item);
            }
            at += item.len();
        }
        last
    }

    /// The value of an option, if it was given with one.
    pub(crate) fn value_of(self, option: &str) -> Option<&'a str>
        ensures { option_map (λ value. value.now) result ≡ value_of (items_of_words self.entry) option.now }
    {
        self.last(option)?.value
    }

    /// Whether an option was given.
    pub(crate) fn has(self, option: &str) -> bool
        ensures { result ≡ is_given (items_of_words self.entry) option.now }
    {
        self.last(option).is_some()
    }
}
