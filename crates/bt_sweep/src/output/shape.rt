//! The shapes of what is written.

/// What is written of a record of the first input and of those of the second that hit it (bedtools
/// manual, intersect and subtract). A record is written as in BED output: start and end are zero-based
/// and half-open and printed without leading zeros, and other columns are kept as they are.
#[derive(Clone, Copy, Debug, PartialEq, Eq)]
pub enum Shape {
    /// Per hit, the record cut to the shared bases.
    Cut,
    /// Per hit, the record (`-wa`).
    OrigA,
    /// Per hit, the record cut to the shared bases, and that which hits it (`-wb`).
    CutAndB,
    /// Per hit, the record and that which hits it (`-wa -wb`).
    OrigBoth,
    /// Per hit, the record, that which hits it, and how many bases they share (`-wo`).
    Overlap,
    /// The record once, if anything hits it (`-u`).
    Once,
    /// The record, if nothing hits it (`-v`).
    Missing,
    /// The record and the number of its hits, which may be 0 (`-c`).
    Count,
    /// Its pieces that have no base of a record that hits it (subtract).
    Pieces,
    /// The record, if nothing hits it (subtract, `-A`).
    Whole,
}

// The shapes that have a line for each hit.
#[derive(Clone, Copy)]
pub(crate) enum HitShape {
    Cut,
    OrigA,
    CutAndB,
    OrigBoth,
    Overlap,
}
