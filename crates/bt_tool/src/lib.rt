//! The commands, from a list of words and the bytes of the inputs to the bytes written.
//!
//! Words:
//!
//! - *plan*: what the words mean: a command with the values of its options, and the names of files.
//! - *refusal*: why there is no plan: a fault of usage, or memory ran out.
//! - *report*: what the definition says of a run: the bytes written, the fault and the exit status.
//! - *outcome*: how a run ended: without a fault, or with the one that is reported.
//! - *member*: what the lines of an input say: a record, an alignment, or a line of a sequence.
//! - *settled*: a part of the output that no later member of the input can change.
//!
//! An example, which is the test in `example.rt`: a command line, over scripts instead of files.
//! `strings` makes the words, and `source_if` a source that moves this many bytes a call.
//!
//! ```text
//! fn a_run(rt: HostRuntime) -> Result<(), Fail> {
//!     let words = strings(rt.alloc(), &["merge", "-g", "g.txt", "-d", "1"])?;
//!     let plan = plan(rt.alloc(), words.as_slice()).ok().ok_or("a plan")?;
//!     // A source where the plan names the input: here the genome file, and no second one.
//!     let genome = source_if(&plan.genome, b"chr1\t1000\n", whole(7));
//!     let second = source_if(&plan.second, b"", whole(7));
//!     let records = ScriptSource::new(b"chr1\t250\t500\nchr1\t501\t1000\n", 7, None);
//!     let sink = ScriptSink::new(rt.alloc(), 7, None);
//!     let ended = run(rt.alloc(), &plan, genome, records, second, sink);
//!     assert_eq!(rt; ended.out.taken(), b"chr1\t250\t1000\n".as_slice());
//!     assert_eq!(rt; ended.outcome.status(), 0);
//!     Ok(())
//! }
//! ```
#![tactic(auto)]

pub use options::checking::is_standard_input;
pub use options::usage::{Refusal, Usage, usage_line};
pub use planning::plan;
pub use planning::plan_type::{Command, Plan};
pub use running::outcome::Outcome;
pub use running::{Ended, run};

#[cfg(test)]
mod example;
pub mod headline;
mod loops;
mod options;
mod planning;
mod running;
#[cfg(test)]
mod tests;
