//! The columns of a line, one after another.

ghost use Rattle.std.specs.Prelude.{◌≡◌, ◌∷◌, ◌<◌, ◌≤◌, length, IfSome};
ghost use Rattle.std.specs.Iterator.{YieldsFirstRef, item_count};
ghost use Rattle.bt_lines.specs.calls.Columns.{columns_left, columns_of_rest};
ghost use Rattle.bt_lines.specs.model.Lines.{pieces};

use crate::reader::split::first_tab;

/// The columns of a text that are still to come.
#[derive(Clone, Copy, Debug)]
pub struct Columns<'a> {
    pub(crate) rest: Option<&'a [u8]>,
}

impl<'a> Iterator for Columns<'a> {
    type Item = &'a [u8];

    ghost next_gives = { YieldsFirstRef columns_left };

    ghost remaining = { item_count columns_left };

    fn next(&mut self) -> Option<&'a [u8]> {
        let rest = self.rest?;
        let Some(end) = first_tab(rest) else {
            self.rest = None;
            return Some(rest);
        };
        self.rest = Some(&rest[end + 1..]);
        Some(&rest[..end])
    }
}
