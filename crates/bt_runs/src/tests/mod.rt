//! Tests of all engines.

pub(crate) mod batch_tests;
mod calls_tests;
mod growth_tests;
mod plain_tests;
pub(crate) mod testing;
