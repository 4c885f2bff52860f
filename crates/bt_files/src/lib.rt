//! What the programs share: they open files by their names, carry out a plan over them ([`carry_out`]), and report
//! how that ended in one way. The commands are in bt_tool.
//!
//! Words:
//!
//! - *plan*: what the words of a command line mean: a command, and the names of files.
//! - *input*: a file, or standard input if it is named `-` or `stdin`.
//! - *files*: what opens inputs and makes outputs ([`Files`]): the system, or what a caller puts before it.
//! - *obstacle*: what kept a run from beginning, as a file that can't be opened.
//! - *message*: the line that standard error gets, and the exit status that goes with it.
//! - [`StandIns`]: the files that replace standard streams which were closed before the program began.
//!
//! An example, which is the test in `example.rt`: a plan of which a file can't be opened.
//!
//! ```text
//! fn a_missing_file(rt: HostRuntime) -> Result<(), Fail> {
//!     let mut words = Vec::new(rt.alloc());
//!     for word in ["merge", "-i", "no/such/file"] {
//!         words.push(String::from_str(rt.alloc(), word)?)?;
//!     }
//!     let a_plan = plan(rt.alloc(), words.as_slice()).ok().ok_or("a plan")?;
//!     let ended = carry_out(rt.alloc(), &mut SystemFiles { rt: &rt }, &a_plan);
//!     let line = b"bedtools merge: no/such/file: cannot be opened\n";
//!     assert_eq!(rt; ended.message.line.as_bytes(), line.as_slice());
//!     assert_eq!(rt; ended.message.status, 1);
//!     Ok(())
//! }
//! ```
#![tactic(auto)]

mod carrying_out;
#[cfg(test)]
mod example;
mod files;
mod headline;
mod identity;
mod logged;
mod message;
mod opened;
mod output;
mod stand_ins;
mod system_files;

pub use carrying_out::{Finished, OpenedFiles, carry_out, end_of};
pub use files::{Files, Unopened};
pub use headline::real_files_get_their_report;
pub use identity::is_input;
pub use message::{Message, MessageLine, Obstacle};
pub use opened::{Input, Opened, input_named};
pub use output::Output;
pub use stand_ins::StandIns;
pub use system_files::SystemFiles;
