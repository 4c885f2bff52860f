//! Alignments of a SAM file as BED lines, and masked bases.
//!
//! An alignment is what a line of a SAM file says ([`sam_line`]). [`Mask`] masks
//! the bases of a FASTA input that records of a BED input cover, and [`mask_slice`] bases in place.
//!
//! Words:
//!
//! - *alignment*: what a SAM line says of a mapped read; its start is zero-based, its end isn't included.
//! - *alignment block*: a part of it between two N operations of its CIGAR, if it covers a base.
//! - *sequence*: a FASTA header and its lines of bases, through all of which positions count from 0.
//! - *block*: contiguous BED records of one chromosome, which mask one sequence at most.
//! - *decided*: a FASTA line is, once no later record can mask it.
//! - *held*: kept of the records, since it reaches into the line given last.
//!
//! An example, which is the test in `example.rt`: the BED line of an alignment. The two bases that it
//! deletes count.
//!
//! ```text
//! fn bed_line_of_an_alignment(rt: HostRuntime) -> Result<(), Fail> {
//!     let text = b"r\t16\tchr1\t8\t60\t3M2D4M\t*\t0\t0\tACGTACG\t*";
//!     let sam = sam_line(text)?.ok_or("an alignment")?;
//!     assert_eq!(rt; (sam.start, sam.stop), (7, 16));
//!     // Neither cut at its N operations nor with its CIGAR.
//!     let mut engine = BamToBed::new(false, false);
//!     let mut out = Out::new(ScriptSink::new(rt.alloc(), 7, None));
//!     engine.feed(&sam, &mut out)?;
//!     out.flush()?;
//!     let line = b"chr1\t7\t16\tr\t60\t-\n".as_slice();
//!     assert_eq!(rt; out.into_sink().taken(), line);
//!     Ok(())
//! }
//! ```
#![tactic(auto)]

mod bamtobed;
#[cfg(test)]
mod example;
mod mask;
mod sam;
#[cfg(test)]
mod tests;

pub use bamtobed::bam_to_bed::BamToBed;
pub use bt_bed::Taken;
pub use mask::mask_how::{MaskHow, mask_slice};
pub use mask::{Mask, MaskWant};
pub use sam::SamRef;
pub use sam::block_iter::SamBlocks;
pub use sam::cigar::{Operation, cigar_span};
pub use sam::sam_text::sam_line;
pub use sam::splitting::blocks;
