//! Alignments of a SAM file.

pub(crate) mod block_iter;
pub(crate) mod cigar;
pub(crate) mod fields;
pub(crate) mod first_block;
pub(crate) mod sam_text;
pub(crate) mod splitting;

ghost use Rattle.std.specs.Prelude.{◌<◌, ◌≤◌};
ghost use Rattle.bt_lines.specs.model.Lines.{max_number};
ghost use Rattle.bt_seq.specs.calls.Alignments.{EndsAt};

/// An alignment, which borrows its columns from its line. `name` is QNAME alone, without `/1` or `/2`.
/// `first` and `last` say whether the read is the first or the last segment of its template, and
/// `reverse` whether it lies on the reverse strand. The alignment covers the reference `chrom` from
/// `start`, which is zero-based, up to `stop`, which isn't included (POS of the line is one-based).
/// `quality` is MAPQ, at most 255 if a line said it, and `cigar` is the column as it is.
#[derive(Clone, Copy, Debug)]
pub struct SamRef<'a> {
    pub name: &'a [u8],
    pub first: bool,
    pub last: bool,
    pub reverse: bool,
    pub chrom: &'a [u8],
    pub start: u64,
    pub stop: u64,
    pub quality: u64,
    pub cigar: &'a [u8],
    ghost non_empty: { start < stop },
    ghost in_range: { stop ≤ max_number },
    ghost spanned: { EndsAt cigar.now start stop },
}
