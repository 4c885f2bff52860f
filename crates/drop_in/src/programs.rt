//! What a system says of the files that may be programs.

ghost use Rattle.std.specs.Prelude.{◌≡◌, List, IfOk, IfErr, ℕ};
ghost use Rattle.bt_files.specs.declared.files.Unopened.TheVariants.{Refused};

use bt_files::Unopened;
use bt_lines::Source;

/// What the file of a name is.
#[derive(Clone, Copy, Debug, PartialEq, Eq)]
pub enum Standing {
    /// A regular file that may be run.
    Program,
    /// Anything else, or nothing.
    Other,
    /// A regular file of which it isn't known whether it may be run.
    Unclear,
}

/// Says what files are, and opens them. Nothing is changed by that. What is done with programs is proved over any of them.
pub trait Programs {
    ghost use Rattle.drop_in.specs.declared.programs.Standing.{Standing};

    type Program: Source + Drop;

    // The file of this name was seen to be this.
    ghost stands: { Self → List ℕ → Standing → Type 0 };

    // This is what the file of this name has.
    ghost opens: { Self → List ℕ → Self.Program → Type 0 };

    // The file of this name can't be read.
    ghost refuses: { Self → List ℕ → Type 0 };

    /// What the file of this name is.
    fn standing(&self, name: &str) -> Standing
        ensures { stands self.now name.now result };

    /// Opens the file of this name, to read what it has.
    fn open(&self, name: &str) -> Result<Self::Program, Unopened>
        ensures opens { IfOk result (λ program. opens self.now name.now program) }
        ensures refuses { IfErr result (λ why. why ≡ Refused → refuses self.now name.now) };
}
