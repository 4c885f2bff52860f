//! Orders of chromosomes that fit the inputs.

pub(crate) mod common_order;
pub(crate) mod fitting;
#[cfg(test)]
pub(crate) mod tests;
