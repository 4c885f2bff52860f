//! Cutting a line into its columns.

ghost use Rattle.std.specs.Prelude.{◌≡◌};
ghost use Rattle.bt_lines.specs.calls.Columns.{CutAt, columns_left, IsFirstOf};
ghost use Rattle.bt_lines.specs.model.Lines.{pieces};

use crate::reader::column_iter::Columns;
use bstr::ByteSlice;

/// The pieces of a text between tabs. A text without a tab is one column, the empty text too.
pub fn columns(text: &[u8]) -> Columns<'_>
    ensures { columns_left result ≡ pieces 9 text.now }
{
    Columns { rest: Some(text) }
}

/// How many bytes come before the first tab of a text, if it has one.
pub fn first_tab(text: &[u8]) -> Option<usize>
    ensures first { IsFirstOf 9 text.now result }
    ensures cut { CutAt text.now result }
{
    text.find(b"\t")
}
