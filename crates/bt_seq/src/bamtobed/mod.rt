//! Alignments as BED lines.

pub(crate) mod bam_to_bed;
pub(crate) mod bed_line;
