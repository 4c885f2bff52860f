//! Alignments and masked sequences.

pub mod alignments;
pub mod masks;
