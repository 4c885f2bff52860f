//! Which records are merged.

use bt_bed::Strand;

/// The records that `merge` takes into account.
#[derive(Clone, Copy, Debug, PartialEq, Eq)]
pub enum MergeStrand {
    /// All of them.
    All,
    /// All of them, each strand separately: records of different strands are never one run (bedtools
    /// manual, merge, option -s).
    Each,
    /// Those of one strand (bedtools manual, merge, option -S).
    One(Strand),
}
