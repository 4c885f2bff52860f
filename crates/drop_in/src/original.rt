//! The bedtools behind ours on PATH, to which goes what isn't run here.

ghost use Rattle.std.specs.Prelude.{◌≡◌, IfOk, Ok, false, string_bytes, true};
ghost use Rattle.drop_in.specs.calls.Original.{IsBehind, IsForeign, name_in, names_on, is_tried};
ghost use Rattle.drop_in.specs.inside.Judged.{IsJudged, IsOurs};

use crate::marks::{Mark, Search};
use crate::programs::{Programs, Standing};
use bt_files::Unopened;
use std::alloc::{AllocError, Global};

/// What is behind ours on PATH.
#[derive(Debug, Drop)]
pub enum Original {
    /// The file of this name.
    Named(String),
    /// Nothing.
    Missing,
    /// A file of which it isn't known whether it may be run, before any other.
    Unclear,
}

impl Original {
    /// What is behind ours in the folders of a PATH, for a call that was given to these files before: both have colons
    /// between their parts. A file that can't be read isn't taken for ours.
    pub fn find<P: Programs>(
        alloc: Global,
        programs: &P,
        path: &str,
        tried: &str,
    ) -> Result<Original, AllocError>
        ensures { IfOk result (λ found. IsBehind P.Programs P.Program.Source programs.now tried.now
            (names_on path.now) found) }
    {
        for folder in path.split(':') {
            let name = name_in(alloc, folder)?;
            match judge(programs, tried, name.as_str())? {
                Judged::Original => return Ok(Original::Named(name)),
                Judged::Unclear => return Ok(Original::Unclear),
                Judged::Passed => {}
            }
        }
        Ok(Original::Missing)
    }
}

// What a file is.
#[derive(Clone, Copy, Debug, PartialEq, Eq)]
enum Judged {
    // The original, if no file comes before it.
    Original,
    // Not the original.
    Passed,
    // A file of which it isn't known whether it may be run.
    Unclear,
}

// What the file of this name is.
fn judge<P: Programs>(programs: &P, tried: &str, name: &str) -> Result<Judged, AllocError>
    ensures { IfOk result (IsJudged P.Programs P.Program.Source programs.now tried.now name.now) }
{
    if is_tried(tried, name) {
        return Ok(Judged::Passed);
    }
    match programs.standing(name) {
        Standing::Other => Ok(Judged::Passed),
        Standing::Unclear => Ok(Judged::Unclear),
        Standing::Program => {
            if is_foreign(programs, name)? {
                Ok(Judged::Original)
            } else {
                Ok(Judged::Passed)
            }
        }
    }
}

// Whether a program isn't ours.
fn is_foreign<P: Programs>(programs: &P, name: &str) -> Result<bool, AllocError>
    ensures foreign { result ≡ Ok true → IsForeign P.Programs P.Program.Source programs.now name.now }
    ensures ours { result ≡ Ok false → IsOurs P.Programs P.Program.Source programs.now name.now }
{
    match programs.open(name) {
        Ok(program) => {
            let mut program = program;
            Ok(matches!(Mark::Ours.search(&mut program), Search::Absent))
        }
        Err(Unopened::Refused) => Ok(true),
        Err(Unopened::NoMemory) => Err(AllocError),
    }
}

// The file in a folder of PATH.
fn name_in(alloc: Global, folder: &str) -> Result<String, AllocError>
    ensures { IfOk result (λ name. string_bytes name ≡ name_in folder.now) }
{
    let folder = if folder.is_empty() { "." } else { folder };
    let mut name = String::from_str(alloc, folder)?;
    name.push_str("/bedtools")?;
    Ok(name)
}

// Whether a file is among those tried.
fn is_tried(tried: &str, name: &str) -> bool
    ensures { result ≡ is_tried tried.now name.now }
{
    for one in tried.split(':') {
        if one == name {
            return true;
        }
    }
    false
}
