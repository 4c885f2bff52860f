//! The same bytes by another way.

pub mod length_laws;
pub mod mask_laws;
pub mod same_lines;
pub mod same_runs;
pub mod same_sweeps;
