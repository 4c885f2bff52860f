//! A line of a text.

/// How a line ended.
#[derive(Clone, Copy, Debug, PartialEq, Eq)]
pub enum LineEnd {
    /// The text ended without a line end.
    Absent,
    /// A line feed.
    Lf,
    /// A carriage return and a line feed.
    CrLf,
    /// A lone carriage return at the end of the text.
    Cr,
}

/// A line: its number, counted from 1, its text without the line end, and how it ended.
#[derive(Clone, Copy, Debug)]
pub struct Line<'a> {
    pub number: u64,
    pub text: &'a [u8],
    pub ending: LineEnd,
}
