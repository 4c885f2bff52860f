//! The tools and their options.

ghost use Rattle.bt_tool.specs.model.Table.{command_named, tool_name, table_of};
ghost use Rattle.bt_tool.specs.calls.Lent.{table_lent};
ghost use Rattle.std.specs.Prelude.{◌≡◌};

use crate::options::table::{
    BAM_TO_BED, COMPLEMENT, COVERAGE, INTERSECT, MASK_FASTA, MERGE, SUBTRACT, Table,
};

/// A tool, without what its options say.
#[derive(Clone, Copy, Debug, PartialEq, Eq)]
pub(crate) enum Tool {
    Merge,
    Complement,
    Intersect,
    Subtract,
    Coverage,
    BamToBed,
    MaskFasta,
}

impl Tool {
    /// The tool that a word names.
    pub(crate) fn named(name: &str) -> Option<Tool>
        ensures { result ≡ command_named name.now }
    {
        match name {
            "merge" => Some(Tool::Merge),
            "complement" => Some(Tool::Complement),
            "intersect" => Some(Tool::Intersect),
            "subtract" => Some(Tool::Subtract),
            "genomecov" => Some(Tool::Coverage),
            "bamtobed" => Some(Tool::BamToBed),
            "maskfasta" => Some(Tool::MaskFasta),
            _ => None,
        }
    }

    /// The word that names the tool.
    pub(crate) fn name(self) -> &'static str
        ensures { result.now ≡ tool_name self }
    {
        match self {
            Tool::Merge => "merge",
            Tool::Complement => "complement",
            Tool::Intersect => "intersect",
            Tool::Subtract => "subtract",
            Tool::Coverage => "genomecov",
            Tool::BamToBed => "bamtobed",
            Tool::MaskFasta => "maskfasta",
        }
    }

    /// What the tool's command line may say.
    pub(crate) fn table(self) -> Table
        ensures { table_lent result ≡ table_of self }
    {
        match self {
            Tool::Merge => MERGE,
            Tool::Complement => COMPLEMENT,
            Tool::Intersect => INTERSECT,
            Tool::Subtract => SUBTRACT,
            Tool::Coverage => COVERAGE,
            Tool::BamToBed => BAM_TO_BED,
            Tool::MaskFasta => MASK_FASTA,
        }
    }
}
