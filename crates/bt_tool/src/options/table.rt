//! What the command line of each tool may say, as data: one more command is one more row of this table.

use crate::options::takes::Takes;

/// An option, and what it takes after its own word.
#[derive(Clone, Copy, Debug)]
pub(crate) struct Row {
    pub(crate) option: &'static str,
    pub(crate) takes: Takes,
}

/// What the command line of one tool may say.
#[derive(Clone, Copy, Debug)]
pub(crate) struct Table {
    pub(crate) options: &'static [Row],
    /// The options that have to be given.
    pub(crate) required: &'static [&'static str],
    /// The options of which one at least has to be given, if the tool has such.
    pub(crate) one_of: &'static [&'static str],
    /// The pairs of options that exclude one another.
    pub(crate) exclusive: &'static [(&'static str, &'static str)],
    /// The options whose values name the inputs and the output.
    pub(crate) genome: Option<&'static str>,
    pub(crate) first: &'static str,
    pub(crate) second: Option<&'static str>,
    pub(crate) output: Option<&'static str>,
}

// No options yet; `-i` will name the first input.
const NO_OPTIONS: Table = Table {
    options: &[],
    required: &[],
    one_of: &[],
    exclusive: &[],
    genome: None,
    first: "-i",
    second: None,
    output: None,
};

/// `bedtools merge`.
#[rattlefmt::skip]
pub(crate) const MERGE: Table = Table {
    options: &[
        Row { option: "-i", takes: Takes::FileName },
        Row { option: "-g", takes: Takes::FileName },
        Row { option: "-d", takes: Takes::Number },
        Row { option: "-s", takes: Takes::Nothing },
        Row { option: "-S", takes: Takes::Strand },
    ],
    exclusive: &[("-s", "-S")],
    genome: Some("-g"),
    ..NO_OPTIONS
};

/// `bedtools complement`.
#[rattlefmt::skip]
pub(crate) const COMPLEMENT: Table = Table {
    options: &[
        Row { option: "-i", takes: Takes::FileName },
        Row { option: "-g", takes: Takes::FileName },
        Row { option: "-L", takes: Takes::Nothing },
    ],
    required: &["-g"],
    genome: Some("-g"),
    ..NO_OPTIONS
};

/// `bedtools intersect`. `-wa` changes nothing beside `-u`, `-v` and `-c`, nor does `-sorted` ever: all
/// input is.
#[rattlefmt::skip]
pub(crate) const INTERSECT: Table = Table {
    options: &[
        Row { option: "-a", takes: Takes::FileName },
        Row { option: "-b", takes: Takes::FileName },
        Row { option: "-g", takes: Takes::FileName },
        Row { option: "-wa", takes: Takes::Nothing },
        Row { option: "-wb", takes: Takes::Nothing },
        Row { option: "-wo", takes: Takes::Nothing },
        Row { option: "-u", takes: Takes::Nothing },
        Row { option: "-v", takes: Takes::Nothing },
        Row { option: "-c", takes: Takes::Nothing },
        Row { option: "-f", takes: Takes::Fraction },
        Row { option: "-r", takes: Takes::Nothing },
        Row { option: "-s", takes: Takes::Nothing },
        Row { option: "-sorted", takes: Takes::Nothing },
        Row { option: "-held", takes: Takes::Number },
    ],
    required: &["-a", "-b"],
    exclusive: &[
        ("-wa", "-wo"),
        ("-wb", "-wo"),
        ("-wb", "-u"),
        ("-wb", "-v"),
        ("-wb", "-c"),
        ("-wo", "-u"),
        ("-wo", "-v"),
        ("-wo", "-c"),
        ("-u", "-v"),
        ("-u", "-c"),
        ("-v", "-c"),
    ],
    genome: Some("-g"),
    first: "-a",
    second: Some("-b"),
    ..NO_OPTIONS
};

/// `bedtools subtract`.
#[rattlefmt::skip]
pub(crate) const SUBTRACT: Table = Table {
    options: &[
        Row { option: "-a", takes: Takes::FileName },
        Row { option: "-b", takes: Takes::FileName },
        Row { option: "-g", takes: Takes::FileName },
        Row { option: "-A", takes: Takes::Nothing },
        Row { option: "-f", takes: Takes::Fraction },
        Row { option: "-s", takes: Takes::Nothing },
        Row { option: "-held", takes: Takes::Number },
    ],
    required: &["-a", "-b"],
    genome: Some("-g"),
    first: "-a",
    second: Some("-b"),
    ..NO_OPTIONS
};

/// `bedtools genomecov`. `-bga` reports all that `-bg` does.
#[rattlefmt::skip]
pub(crate) const COVERAGE: Table = Table {
    options: &[
        Row { option: "-i", takes: Takes::FileName },
        Row { option: "-g", takes: Takes::FileName },
        Row { option: "-bg", takes: Takes::Nothing },
        Row { option: "-bga", takes: Takes::Nothing },
        Row { option: "-strand", takes: Takes::Strand },
    ],
    required: &["-g"],
    one_of: &["-bg", "-bga"],
    genome: Some("-g"),
    ..NO_OPTIONS
};

/// `bedtools bamtobed`.
#[rattlefmt::skip]
pub(crate) const BAM_TO_BED: Table = Table {
    options: &[
        Row { option: "-i", takes: Takes::FileName },
        Row { option: "-split", takes: Takes::Nothing },
        Row { option: "-cigar", takes: Takes::Nothing },
    ],
    ..NO_OPTIONS
};

/// `bedtools maskfasta`.
#[rattlefmt::skip]
pub(crate) const MASK_FASTA: Table = Table {
    options: &[
        Row { option: "-fi", takes: Takes::FileName },
        Row { option: "-bed", takes: Takes::FileName },
        Row { option: "-fo", takes: Takes::FileName },
        Row { option: "-soft", takes: Takes::Nothing },
        Row { option: "-mc", takes: Takes::Character },
        Row { option: "-fullHeader", takes: Takes::Nothing },
    ],
    required: &["-fi", "-bed"],
    exclusive: &[("-soft", "-mc")],
    first: "-fi",
    second: Some("-bed"),
    output: Some("-fo"),
    ..NO_OPTIONS
};

impl Table {
    ghost use Rattle.std.specs.Prelude.{◌≡◌, bytes_eq, find, option_map};
    ghost use Rattle.bt_tool.specs.model.Table.{takes};
    ghost use Rattle.bt_tool.specs.calls.Lent.{table_lent};

    /// What the option of this word takes, if there is one.
    #[tactic(auto, using(crate::proofs::lemmas::Planning::takes_lent))]
    pub(crate) fn takes(&self, word: &str) -> Option<Takes>
        ensures { result ≡ takes (table_lent self.now) word.now }
    {
        Some(self.row(word)?.takes)
    }

    // The row of the option of this word.
    fn row(&self, word: &str) -> Option<&'static Row>
        ensures { option_map (λ row. row.now) result
            ≡ find (λ row. bytes_eq word.now row.option.now) self.now.options.now }
    {
        self.options.iter().find(|row| word == row.option)
    }
}
