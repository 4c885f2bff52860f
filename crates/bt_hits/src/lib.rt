//! The hits of each record in the order in which bedtools lists them without `-sorted`.
//!
//! Words:
//!
//! - *hit*: two records hit one another if they share a base, and as much as the rule requires.
//! - *bin*: a stretch of a chromosome; each record is in the smallest bin that has all of it.
//! - *level*: bins of one size. Those of the first have 16,384 bases, and those of each next level eight times as many.
//! - *active*: of the second text, what was passed and can still hit a record of the first.
//!
//! An example, which is the test in `example.rt`: the second record of the second text is in a smaller bin than the first.
//!
//! ```text
//! fn smallest_bins_first(rt: HostRuntime) -> Result<(), Fail> {
//!     let first = records_of(rt.alloc(), &ByteOrder, b"chr1\t50\t90\n")
//!         .ok()
//!         .ok_or("records")?;
//!     let text = b"chr1\t0\t20000\tlong\nchr1\t60\t70\tshort\n";
//!     let second = records_of(rt.alloc(), &ByteOrder, text)
//!         .ok()
//!         .ok_or("records")?;
//!     let (shape, rule) = (Shape::OrigBoth, HitRule::any_overlap());
//!     let (listing, records) = (Listing { shape, rule }, BothRecords { first, second });
//!     let sink = ScriptSink::new(rt.alloc(), 7, None);
//!     let (fault, sink) = list_hits(rt.alloc(), &ByteOrder, listing, records, sink);
//!     let want = b"chr1\t50\t90\tchr1\t60\t70\tshort\nchr1\t50\t90\tchr1\t0\t20000\tlong\n";
//!     assert_eq!(rt; (fault, sink.taken()), (None, want.as_slice()));
//!     Ok(())
//! }
//! ```
#![tactic(auto)]

mod bins;
#[cfg(test)]
mod example;
mod listing;
mod meeting;
mod reading;
#[cfg(test)]
mod tests;
mod writing;

pub use bins::bin_order_has_all_hits;
pub use listing::{BothRecords, Listing, list_hits};
pub use reading::{Unread, records_of};
