//! Where a record lies on its chromosome.

/// The start and the end of a record. The start is zero-based, and the end isn't included.
#[derive(Clone, Copy, Debug, PartialEq, Eq)]
pub struct Bounds {
    /// Below `stop`, of a record that a line says.
    pub start: u64,
    pub stop: u64,
}
