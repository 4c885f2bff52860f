//! Laws of the definitions, and laws between runs: what the output of one run is as an input of the next, and which
//! runs write the same bytes.
//!
//! There is no code here. Each law is the contract of a function that does nothing, and its statement is in
//! `specs/`. Laws between runs are in the words of the report of a run (`report_of` of bt_tool).
#![tactic(auto)]

pub mod counts;
pub mod parts;
pub mod pipes;
pub mod records;
pub mod reports;
pub mod runs;
pub mod same;
pub mod sequences;
pub mod sweeps;
pub mod worked;
