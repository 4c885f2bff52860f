//! The loops that give engines what readers have buffered.

pub(crate) mod converting;
pub(crate) mod driving;
pub(crate) mod masking;
pub(crate) mod sweeping;
pub(crate) mod two_inputs;

/// The sources of the first input and of the second.
pub(crate) struct Sources<A, B> {
    pub(crate) first: A,
    pub(crate) second: B,
}
