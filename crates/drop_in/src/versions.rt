//! For which command lines it matters which version of bedtools is behind ours.

ghost use Rattle.std.specs.Prelude.{◌≡◌, Ok, false, true};
ghost use Rattle.drop_in.specs.calls.Original.{Searched};
ghost use Rattle.drop_in.specs.calls.Versions.{HasUnknownVersion, is_any_overlap, is_for_any_version};
ghost use Rattle.drop_in.specs.declared.marks.Mark.TheVariants.{KnownVersion};
ghost use Rattle.drop_in.specs.declared.marks.Search.TheVariants.{Found};

use crate::marks::{Mark, Search};
use crate::programs::Programs;
use bt_files::Unopened;
use bt_runs::MergeStrand;
use bt_sweep::{HitRule, Shape};
use bt_tool::Command;
use std::alloc::AllocError;

/// Whether all versions of bedtools write the same for a command, which is given `-sorted` or not.
pub fn is_for_any_version(command: Command, is_sorted: bool) -> bool
    ensures { result ≡ is_for_any_version command is_sorted }
{
    match command {
        Command::Merge { strand, .. } => matches!(strand, MergeStrand::All),
        Command::Complement { .. } => true,
        Command::Intersect { shape, rule, .. } => {
            is_any_overlap(rule)
                && (is_sorted || matches!(shape, Shape::Once | Shape::Missing | Shape::Count))
        }
        Command::Subtract { rule, .. } => is_any_overlap(rule),
        Command::Coverage { zeros, strand } => !zeros && strand.is_none(),
        Command::BamToBed { .. } | Command::MaskFasta { .. } => false,
    }
}

// Whether a hit needs nothing but a shared base.
fn is_any_overlap(rule: HitRule) -> bool
    ensures { result ≡ is_any_overlap rule }
{
    rule.billionths == 0 && !rule.both && !rule.same_strand
}

/// Whether the file of this name is of a version of bedtools with which everything was compared: it has the version's
/// name. Of a script that starts bedtools it isn't known.
pub fn is_known_version<P: Programs>(programs: &P, name: &str) -> Result<bool, AllocError>
    ensures known { result ≡ Ok true → Searched P.Programs P.Program.Source programs.now name.now KnownVersion Found }
    ensures unknown { result ≡ Ok false → HasUnknownVersion P.Programs P.Program.Source programs.now name.now }
{
    match programs.open(name) {
        Ok(program) => {
            let mut program = program;
            Ok(matches!(Mark::KnownVersion.search(&mut program), Search::Found))
        }
        Err(Unopened::Refused) => Ok(false),
        Err(Unopened::NoMemory) => Err(AllocError),
    }
}
