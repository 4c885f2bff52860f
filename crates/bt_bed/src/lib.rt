//! BED records, and the genome file that orders them.
//!
//! A feature is what a line of a BED file says ([`parse_bed`]). A [`BedRef`] borrows it, and a [`Rec`]
//! keeps it; both are written whole or in parts ([`write_bed`], [`write_cut`], [`put_bed`],
//! [`put_cut`]). [`Records`] reads the features of sorted input in an order of the chromosomes
//! ([`ChromOrder`]): that of a [`Genome`] or of the bytes of their names ([`ByteOrder`]). [`Blocks`] reads
//! those of input in which only contiguous records of a chromosome are sorted. Both give the
//! records that are buffered as a [`Batch`], and `consume` then takes what was consumed of it.
//!
//! Words:
//!
//! - *record*: a feature that a line says, with a zero-based start and an end that isn't included.
//! - *member*: what the lines of an input say: a record, an alignment, or a line of a sequence.
//! - *good*: before the first line at fault, as are all members that a reader gives.
//! - *order*: which names of chromosomes are known, and which of two comes first.
//! - *batch*: the buffered records of one chromosome, given together.
//! - *block*: contiguous records of one chromosome, as many as there are.
//!
//! An example, which is the test in `example.rt`: the records of a source, in the order of a genome
//! file that has `chr1` first.
//!
//! ```text
//! fn records_in_order(rt: HostRuntime) -> Result<(), Fail> {
//!     let lengths = ScriptSource::new(b"chr1\t90\nchr2\t50\n", 7, None);
//!     let mut lengths = LineReader::new(rt.alloc(), lengths, Input::Genome);
//!     let genome = Genome::read(rt.alloc(), &mut lengths)?;
//!     let source = ScriptSource::new(b"chr2\t5\t9\tname\nchr1\t6\t8\n", 7, None);
//!     let lines = LineReader::new(rt.alloc(), source, Input::First);
//!     let mut records = Records::new(rt.alloc(), lines, &genome);
//!     let bed = records.peek()?.ok_or("a record")?;
//!     assert_eq!(rt; (bed.start, bed.stop), (5, 9));
//!     assert_eq!(rt; bed.rest, b"\tname".as_slice());
//!     records.advance();
//!     let fault = records.peek().err().ok_or("chr1 comes after chr2")?;
//!     assert_eq!(rt; fault.kind, Kind::OutOfOrder);
//!     Ok(())
//! }
//! ```
#![tactic(auto)]

#[cfg(test)]
mod example;
#[cfg(test)]
mod growth_tests;
mod order;
mod parse;
mod read;
mod record;
#[cfg(test)]
mod tests;
mod write;

pub use order::ChromOrder;
pub use order::byte_order::ByteOrder;
pub use order::genome::Genome;
pub use parse::bounds::Bounds;
pub use parse::faults::at_line;
pub use parse::names::is_same_name;
pub use parse::parsing::parse_bed;
pub use read::batch::{Batch, Consumed};
pub use read::blocks::Blocks;
pub use read::cursor::{Cursor, Single};
pub use read::records::Records;
pub use record::Record;
pub use record::bed::BedRef;
pub use record::raw_record::RawRecord;
pub use record::rec::Rec;
pub use record::strand::Strand;
pub use record::taken::Taken;
pub use write::interval_line::put_interval;
pub use write::putting::{put_bed, put_cut};
pub use write::writing::{write_bed, write_cut};
