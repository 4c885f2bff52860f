//! The records of the second input that can still hit one of the first.

pub(crate) mod held;
pub(crate) mod held_index;
pub(crate) mod held_list;
#[cfg(test)]
mod held_tests;
