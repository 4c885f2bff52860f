//! The engines that take the records of one sorted input: merge, complement and coverage.
//!
//! Each is fed one record after another, and writes each line of its output as soon as no later record
//! can change it. Their calls are those of the trait [`Engine`], which a caller imports.
//!
//! Words:
//!
//! - *engine*: takes the records of one input in order, and writes the output of one command.
//! - *run*: an interval of merged records, open as long as a later record can still join it.
//! - *gap*: an interval of a chromosome that no record covers, as long as it can be.
//! - *depth*: how many of the counted records cover a position.
//! - *settled*: a part of the output that no later record can change.
//! - *kept*: what an engine has in memory from one record to the next.
//!
//! An example, which is the test in `example.rt`: two records, merged.
//!
//! ```text
//! fn merged_records(rt: HostRuntime) -> Result<(), Fail> {
//!     // Features that overlap or touch, of all strands.
//!     let mut merge = Merge::new(rt.alloc(), 0, MergeStrand::All);
//!     let mut out = Out::new(ScriptSink::new(rt.alloc(), 7, None));
//!     let first = parse_bed(b"chr1\t100\t200")?.ok_or("a record")?;
//!     let second = parse_bed(b"chr1\t180\t250\tname")?.ok_or("a record")?;
//!     merge.feed(&first, &mut out)?;
//!     merge.feed(&second, &mut out)?;
//!     merge.finish(&mut out)?;
//!     out.flush()?;
//!     assert_eq!(rt; out.into_sink().taken(), b"chr1\t100\t250\n".as_slice());
//!     Ok(())
//! }
//! ```
#![tactic(auto)]

mod complement;
mod coverage;
mod engine;
#[cfg(test)]
mod example;
mod merge;
#[cfg(test)]
mod plain;
#[cfg(test)]
mod tests;

pub use complement::Complement;
pub use coverage::Coverage;
pub use engine::Engine;
pub use merge::Merge;
pub use merge::merge_strand::MergeStrand;
