//! Command lines and reports.

pub mod options;
