//! An entry of a genome file.

ghost use Rattle.std.specs.Prelude.{◌<◌};

// A name and a length, borrowed from a line.
#[derive(Clone, Copy)]
pub(crate) struct EntryRef<'a> {
    pub(crate) name: &'a [u8],
    pub(crate) length: u64,
    ghost non_empty: { 0 < length },
}
