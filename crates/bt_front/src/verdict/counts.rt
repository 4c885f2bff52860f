//! What of the texts counts for a command.

ghost use Rattle.std.specs.Prelude.{◌≡◌};
ghost use Rattle.bt_front.specs.model.Verdict.{has_survey, is_coverage, lists_hits, needs_genome, needs_strand, rule_of, writes_gaps, writes_zeros};

use bt_runs::MergeStrand;
use bt_sweep::{HitRule, Shape};
use bt_tool::Command;

/// Whether its inputs are BED, of which there are surveys.
pub(crate) fn has_survey(command: Command) -> bool
    ensures { result ≡ has_survey command }
{
    !matches!(
        command,
        Command::BamToBed { .. } | Command::MaskFasta { .. }
    )
}

/// Whether it needs the strand of each record.
pub(crate) fn needs_strand(command: Command) -> bool
    ensures { result ≡ needs_strand command }
{
    match command {
        Command::Merge { strand, .. } => !matches!(strand, MergeStrand::All),
        Command::Intersect { rule, .. } | Command::Subtract { rule, .. } => rule.same_strand,
        Command::Coverage { strand, .. } => strand.is_some(),
        _ => false,
    }
}

/// The rule of what is a hit, of a command that has hits.
pub(crate) fn rule_of(command: Command) -> Option<HitRule>
    ensures { result ≡ rule_of command }
{
    match command {
        Command::Intersect { rule, .. } | Command::Subtract { rule, .. } => Some(rule),
        _ => None,
    }
}

/// Whether it writes the chromosomes of a genome file, up to their lengths.
pub(crate) fn needs_genome(command: Command) -> bool
    ensures { result ≡ needs_genome command }
{
    matches!(
        command,
        Command::Complement { .. } | Command::Coverage { .. }
    )
}

/// Whether it counts depths.
pub(crate) fn is_coverage(command: Command) -> bool
    ensures { result ≡ is_coverage command }
{
    matches!(command, Command::Coverage { .. })
}

/// Whether it writes gaps.
pub(crate) fn writes_gaps(command: Command) -> bool
    ensures { result ≡ writes_gaps command }
{
    matches!(command, Command::Complement { .. })
}

/// Whether it writes depths of 0 too.
pub(crate) fn writes_zeros(command: Command) -> bool
    ensures { result ≡ writes_zeros command }
{
    matches!(command, Command::Coverage { zeros: true, .. })
}

/// Whether the lines of a record's hits may differ, so that their order can be seen: without `-sorted` bedtools has
/// another order.
pub fn lists_hits(command: Command) -> bool
    ensures { result ≡ lists_hits command }
{
    matches!(
        command,
        Command::Intersect {
            shape: Shape::Cut | Shape::CutAndB | Shape::OrigBoth | Shape::Overlap,
            ..
        }
    )
}
