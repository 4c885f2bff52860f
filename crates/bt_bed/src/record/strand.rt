//! Strands.

/// The strand of a feature (UCSC BED description, field strand).
#[derive(Clone, Copy, Debug, PartialEq, Eq)]
pub enum Strand {
    /// `+`
    Plus,
    /// `-`
    Minus,
    /// None: any other text, or no sixth column.
    Dot,
}
