//! The sweep over two sorted inputs: intersect and subtract.
//!
//! Words:
//!
//! - *hit*: two records hit one another if they share a base, and as much as the rule requires.
//! - *decided*: a record of the first input is, once no later record of the second can hit it.
//! - *held*: kept of the second input, since it can still hit a record of the first.
//! - *taken*: given by the caller and used: not so a record that decides the one that waits.
//! - *piece*: a stretch of a record without the bases of those that hit it.
//! - *stage*: what of the first input is written, what of the second was taken, and what has ended.
//!
//! An example, which is the test in `example.rt`: what one record of the first input shares with one
//! of the second.
//!
//! ```text
//! fn two_records(rt: HostRuntime) -> Result<(), Fail> {
//!     let (held, rule) = (HeldList::new(rt.alloc()), HitRule::any_overlap());
//!     // In the order of the names' bytes, and without a limit on the records that are held.
//!     let mut sweep = Sweep::new(rt.alloc(), held, Shape::Cut, rule, None, &ByteOrder);
//!     let mut out = Out::new(ScriptSink::new(rt.alloc(), 7, None));
//!     let a = parse_bed(b"chr1\t0\t10")?.ok_or("a record")?;
//!     let b = parse_bed(b"chr1\t8\t14")?.ok_or("a record")?;
//!     assert!(rt; sweep.want() == Want::A);
//!     sweep.give_a(&a, &mut out)?;
//!     assert!(rt; sweep.want() == Want::B);
//!     sweep.give_b(&b, 1, &mut out)?;
//!     assert!(rt; sweep.want() == Want::B);
//!     sweep.end_b(&mut out)?;
//!     out.flush()?;
//!     assert_eq!(rt; out.into_sink().taken(), b"chr1\t8\t10\n".as_slice());
//!     Ok(())
//! }
//! ```
#![tactic(auto)]

mod active;
#[cfg(test)]
mod example;
mod hits;
mod output;
#[cfg(test)]
mod plain;
mod sweep;
#[cfg(test)]
mod tests;

pub use active::held::Held;
pub use active::held_index::HeldIndex;
pub use active::held_list::HeldList;
pub use bt_bed::Taken;
pub use hits::hit::is_hit;
pub use hits::hit_rule::HitRule;
pub use output::shape::Shape;
pub use sweep::{Sweep, Want};
