//! What went wrong, and where.

pub(crate) mod faults;
pub(crate) mod report;

ghost use Rattle.std.specs.Prelude.{◌≡◌, is_some};
ghost use Rattle.bt_lines.specs.model.Fault.{text_of};
ghost use Rattle.bt_lines.specs.calls.Faults.{has_place};

/// What went wrong.
#[derive(Clone, Copy, Debug, PartialEq, Eq)]
pub enum Kind {
    /// A line has fewer columns than its format needs.
    TooFewColumns,
    /// The chromosome's name is empty.
    EmptyName,
    /// The start isn't a number.
    BadStart,
    /// The end isn't a number.
    BadStop,
    /// The start isn't below the end, so that the feature has no base.
    EmptyFeature,
    /// The genome file doesn't have the chromosome.
    UnknownChrom,
    /// The record lies below the record before it, by chromosome and then by start; for maskfasta by start alone, on
    /// one chromosome.
    OutOfOrder,
    /// A chromosome's length isn't a number, or is 0.
    BadLength,
    /// An earlier line of the genome file has the name.
    RepeatedChrom,
    /// An alignment's flag isn't a number of at most 65,535.
    BadFlag,
    /// An alignment's position isn't a number of at most 2,147,483,647.
    BadPosition,
    /// An alignment's mapping quality isn't a number of at most 255.
    BadQuality,
    /// An alignment's CIGAR isn't `*` or one or more operations.
    BadCigar,
    /// An alignment's end is above the greatest number.
    StopTooLarge,
    /// A line of a FASTA input has text before the first header.
    TextBeforeHeader,
    /// A record's chromosome isn't the name of a sequence that is still to come.
    NoSequence,
    /// More records of the second input would have to be held than the limit allows.
    TooManyHeld,
    /// No more of the input could be read, or it is longer than 2^63 - 1 bytes.
    ReadFailed,
    /// The output couldn't be written.
    WriteFailed,
    /// A buffer couldn't grow.
    NoMemory,
}

impl Kind {
    /// The words for it on a fault line.
    pub fn text(self) -> &'static [u8]
        ensures { result.now ≡ text_of self }
    {
        match self {
            Kind::TooFewColumns => b"too few columns",
            Kind::EmptyName => b"empty chromosome name",
            Kind::BadStart => b"start is not a number",
            Kind::BadStop => b"end is not a number",
            Kind::EmptyFeature => b"start is not below end",
            Kind::UnknownChrom => b"chromosome is not in the genome file",
            Kind::OutOfOrder => b"record is out of order",
            Kind::BadLength => b"length is not a number",
            Kind::RepeatedChrom => b"chromosome is repeated",
            Kind::BadFlag => b"flag is not a number",
            Kind::BadPosition => b"position is not a number",
            Kind::BadQuality => b"mapping quality is not a number",
            Kind::BadCigar => b"CIGAR is malformed",
            Kind::StopTooLarge => b"end is too large",
            Kind::TextBeforeHeader => b"text before the first header",
            Kind::NoSequence => b"no such sequence from here on",
            Kind::TooManyHeld => b"too many open records",
            Kind::ReadFailed => b"reading failed",
            Kind::WriteFailed => b"writing failed",
            Kind::NoMemory => b"no memory",
        }
    }
}

/// One of the inputs of a run: the genome file, the input of `-i`, `-a` or `-fi`, and that of `-b`
/// or `-bed`.
#[derive(Clone, Copy, Debug, PartialEq, Eq)]
pub enum Input {
    Genome,
    First,
    Second,
}

/// A line of an input, counted from 1.
#[derive(Clone, Copy, Debug, PartialEq, Eq)]
pub struct Place {
    pub input: Input,
    pub line: u64,
}

/// What ended a run. It has a place, except for a failed write and for running out of memory.
#[derive(Clone, Copy, Debug, PartialEq, Eq)]
pub struct Fault {
    pub kind: Kind,
    pub place: Option<Place>,
    ghost placed: { is_some place ≡ has_place kind },
}
