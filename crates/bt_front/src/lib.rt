//! What decides who takes a command line of bedtools: its words ([`Asked::of`]), what a survey shows
//! of its texts ([`Survey::read`]), and the verdict on both ([`Asked::verdict`]).
//!
//! Words:
//!
//! - *plan*: what the words mean to Dunekettle, as bt_tool reads them.
//! - *asked*: what of a plan and its words decides who takes the command line.
//! - *reason*: why bedtools takes the command line, whatever is in its files.
//! - *odd line*: one that bedtools reads otherwise than Dunekettle, or takes for the end of the text.
//! - *survey*: what is in a text, by one pass of the reader that runs read it with.
//! - *trouble*: why a text has no survey: an odd line, one that Dunekettle refuses, or a chromosome that
//!   comes back after others.
//! - *verdict*: by which order of chromosomes Dunekettle takes a command line, or why bedtools does.
//! - *pour*: to hand on a stream to the program that takes it: what was kept of it, and then the rest.
//!
//! An example, which is the test in `example.rt`: two command lines, of which bedtools takes the
//! second. `strings` makes the words.
//!
//! ```text
//! fn two_command_lines(rt: HostRuntime) -> Result<(), Fail> {
//!     let words = strings(rt.alloc(), "intersect -a a.bed -b b.bed -sorted")?;
//!     let a_plan = plan(rt.alloc(), words.as_slice()).ok().ok_or("a plan")?;
//!     let asked = Asked::of(words.as_slice(), &a_plan)
//!         .ok()
//!         .ok_or("no reason")?;
//!     assert!(rt; asked.is_sorted);
//!     let words = strings(rt.alloc(), "merge -i a.bed -s")?;
//!     let a_plan = plan(rt.alloc(), words.as_slice()).ok().ok_or("a plan")?;
//!     let reason = Asked::of(words.as_slice(), &a_plan)
//!         .err()
//!         .ok_or("a reason")?;
//!     assert_eq!(rt; reason, WordReason::MergeByStrand);
//!     Ok(())
//! }
//! ```
#![tactic(auto)]

#[cfg(test)]
mod differences_tests;
#[cfg(test)]
mod example;
mod laws;
mod order;
mod stream;
mod survey;
#[cfg(test)]
mod tests;
mod verdict;
mod words;

pub use laws::{common_orders_fit, what_is_taken_is_finished};
pub use order::common_order::common_order;
pub use stream::keeping::Keeping;
pub use stream::pouring::{Unpoured, pour};
pub use survey::Survey;
pub use survey::chromosomes::{Chromosomes, Extent};
pub use survey::oddity::{OddLine, Oddity};
pub use survey::records_seen::RecordsSeen;
pub use survey::trouble::Trouble;
pub use verdict::counts::lists_hits;
pub use verdict::reason::{InOrderOf, Reason};
pub use words::Asked;
pub use words::word_reason::WordReason;
