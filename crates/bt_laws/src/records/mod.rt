//! What lines, records and their inputs say.

pub mod features;
pub mod lines;
pub mod orders;
