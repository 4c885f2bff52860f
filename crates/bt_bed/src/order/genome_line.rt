//! What a line of a genome file says on its own.

ghost use Rattle.std.specs.Prelude.{◌≡◌};
ghost use Rattle.bt_bed.specs.model.Genome.{entry_of};
ghost use Rattle.bt_bed.specs.calls.GenomeTable.{entry_said};

use crate::order::entry::EntryRef;
use bt_lines::{Kind, columns, number};

// What a line says on its own: nothing if it is a comment or blank, else the entry of its first two columns.
#[tactic(auto, unfolding(crate::specs::model::Genome::entry_of))]
pub(crate) fn entry(text: &[u8]) -> Result<Option<EntryRef<'_>>, Kind>
    ensures { entry_said result ≡ entry_of text.now }
{
    if matches!(text, [] | [b'#', ..]) {
        return Ok(None);
    }
    let mut columns = columns(text);
    let Some(name) = columns.next() else {
        return Err(Kind::TooFewColumns);
    };
    let Some(length) = columns.next() else {
        return Err(Kind::TooFewColumns);
    };
    if name.is_empty() {
        return Err(Kind::EmptyName);
    }
    match number(length) {
        None | Some(0) => Err(Kind::BadLength),
        Some(length) => Ok(Some(EntryRef { name, length })),
    }
}
