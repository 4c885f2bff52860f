//! What becomes of a record that is given to what compares two inputs.

/// Whether a record of the second input was taken.
#[derive(Clone, Copy, Debug, PartialEq, Eq)]
pub enum Taken {
    /// It was: the caller goes on to the next one.
    Yes,
    /// It wasn't: it decides the member of the first input that waits, whose lines are written, and is
    /// given again.
    No,
}
