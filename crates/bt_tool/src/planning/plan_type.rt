//! What the words of a command line mean.

ghost use Rattle.bt_tool.specs.calls.Limits.{is_within_limits, IsNamedBy};
ghost use Rattle.bt_tool.specs.model.Table.{table_of, tool_of};
ghost use Rattle.std.specs.Prelude.{IsTrue};

use crate::options::tool::Tool;
use bt_bed::Strand;
use bt_runs::MergeStrand;
use bt_seq::MaskHow;
use bt_sweep::{HitRule, Shape};

/// A tool, with what its options say.
#[derive(Clone, Copy, Debug, PartialEq, Eq)]
pub enum Command {
    /// Features that overlap or touch are merged, and those up to `d` bases apart, at most 999,999,999,999.
    Merge {
        d: u64,
        strand: MergeStrand,
    },
    /// The parts of each chromosome that no feature covers; with `limit` only of those chromosomes that
    /// have records.
    Complement {
        limit: bool,
    },
    /// What the records of the second input make of those of the first, in this shape and by this rule
    /// of what hits a record. With `held` at most that many records of the second input are held.
    Intersect {
        shape: Shape,
        rule: HitRule,
        held: Option<u64>,
    },
    /// What is left of the records of the first input by those of the second that hit them: pieces, or
    /// with `whole` the records that none hits. With `held` at most that many records of the second input
    /// are held.
    Subtract {
        whole: bool,
        rule: HitRule,
        held: Option<u64>,
    },
    /// The intervals of equal depth, with their depths: those above 0, and with `zeros` also those of
    /// depth 0. With a strand the records of that strand alone are counted.
    Coverage {
        zeros: bool,
        strand: Option<Strand>,
    },
    /// The alignments of SAM text as BED lines: with `split` a line for each block, and with `cigar` the
    /// CIGAR as a seventh column.
    BamToBed {
        split: bool,
        cigar: bool,
    },
    /// The lines of a FASTA text with the bases masked that records cover; with `full` a sequence's name is
    /// its whole header.
    MaskFasta {
        how: MaskHow,
        full: bool,
    },
}

impl Command {
    ghost use Rattle.std.specs.Prelude.{◌≡◌};
    ghost use Rattle.bt_tool.specs.model.Table.{tool_name};

    /// The tool.
    pub(crate) fn tool(self) -> Tool
        ensures { result ≡ tool_of self }
    {
        match self {
            Command::Merge { .. } => Tool::Merge,
            Command::Complement { .. } => Tool::Complement,
            Command::Intersect { .. } => Tool::Intersect,
            Command::Subtract { .. } => Tool::Subtract,
            Command::Coverage { .. } => Tool::Coverage,
            Command::BamToBed { .. } => Tool::BamToBed,
            Command::MaskFasta { .. } => Tool::MaskFasta,
        }
    }

    /// The word that names the tool.
    pub fn name(self) -> &'static str
        ensures { result.now ≡ tool_name (tool_of self) }
    {
        self.tool().name()
    }
}

/// What to run, and on which files, by their names as given. An input named `-` or `stdin` is
/// standard input.
#[derive(Debug, Drop)]
pub struct Plan {
    pub command: Command,
    pub genome: Option<String>,
    /// `stdin` if the words name no first input.
    pub first: String,
    pub second: Option<String>,
    /// `None` is standard output.
    pub output: Option<String>,
    pub ghost limits: { IsTrue (is_within_limits command) },
    pub ghost genome_named: { IsNamedBy (table_of (tool_of command)) (table_of (tool_of command)).genome genome },
    pub ghost second_named: { IsNamedBy (table_of (tool_of command)) (table_of (tool_of command)).second second },
    pub ghost output_named: { IsNamedBy (table_of (tool_of command)) (table_of (tool_of command)).output output },
}
