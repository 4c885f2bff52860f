//! What opens the files of a plan.

ghost use Rattle.std.specs.Prelude.{List, Option, None, Some, IfErr, IfOk, ℕ};

use bt_lines::{Sink, Source};
use bt_tool::Plan;

/// Why a file wasn't opened.
#[derive(Clone, Copy, Debug, PartialEq, Eq)]
pub enum Unopened {
    /// Memory ran out.
    NoMemory,
    /// It can't be opened, or can't be created.
    Refused,
}

/// Opens inputs by their names, and makes outputs. Each call says how it leaves the files, so that a contract can name all calls
/// and their order. What a run does is proved over any of them.
pub trait Files {
    type Input: Source + Drop;

    type Output: Sink + Drop;

    // The input is what was opened by this name. The files are those before and after the call, here and below.
    ghost opens: { Self → List ℕ → Self.Input → Self → Type 0 };

    // The output is the file of this name, or standard output.
    ghost creates: { Self → Option (List ℕ) → Self.Output → Self → Type 0 };

    // A file of this name wasn't opened.
    ghost refuses: { Self → List ℕ → Self → Type 0 };

    /// Opens the input of this name: standard input for `-` and `stdin`.
    fn open(&mut self, name: &str) -> Result<Self::Input, Unopened>
        ensures opens { IfOk result (λ input. opens self.old name.now input self.new) }
        ensures refuses { IfErr result (λ _. refuses self.old name.now self.new) };

    /// Standard output.
    fn standard_output(&mut self) -> Self::Output
        ensures { creates self.old None result self.new };

    /// Creates the output of a plan, which has this name, or empties it if it exists. An input of the plan isn't touched:
    /// that is refused.
    fn create(&mut self, plan: &Plan, name: &str) -> Result<Self::Output, Unopened>
        ensures creates { IfOk result (λ output. creates self.old (Some name.now) output self.new) }
        ensures refuses { IfErr result (λ _. refuses self.old name.now self.new) };
}
