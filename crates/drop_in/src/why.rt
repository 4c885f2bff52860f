//! Why a call isn't run here, and who takes it.

use bt_front::{Oddity, Reason, Trouble, WordReason};
use bt_lines::{Fault, Input, Kind};
use bt_tool::Usage;

/// Why a call isn't run here.
#[derive(Clone, Copy, Debug, PartialEq, Eq)]
pub enum Why {
    /// A word isn't UTF-8.
    NotUnicode,
    /// Dunekettle has no plan of its words.
    Usage(Usage),
    /// There is no memory.
    NoMemory,
    /// bedtools takes these words, whatever is in the files.
    Words(WordReason),
    /// It is `maskfasta`, in which bedtools is as quick.
    Mask,
    /// What this bedtools does with the words wasn't tried.
    Version,
    /// An input can't be opened.
    Unopened(Input),
    /// Something in an input leaves it to bedtools.
    Text(Input, Trouble),
    /// Dunekettle refuses the genome file.
    Genome(Fault),
    /// The genome file has a comment with a tab, which is a chromosome of bedtools.
    TabInComment,
    /// The genome file has a NUL, at which bedtools cuts a name.
    NulInGenome,
    /// The verdict on the inputs.
    Verdict(Reason),
    /// It converts alignments, in which bedtools is as quick.
    Alignments,
    /// It is a form of `genomecov` that isn't run here.
    CoverageForm,
    /// It limits how many records are held.
    Limit,
    /// The inputs don't fit the room in which hits are put in order.
    HitsRoom,
    /// An input was changed while it was read.
    Changed,
    /// Both inputs are streams.
    TwoStreams,
    /// The genome file is a stream.
    GenomeStream,
    /// An input is a stream, and no bedtools could take it.
    NoOriginal,
    /// The name of a stream isn't the value of its option.
    NoWord,
    /// The room for a stream is no number.
    Room,
    /// A stream has more bytes than there is room for.
    LongStream,
    /// An input that is a file begins as a gzip file.
    Zipped(Input),
    /// The text of a gzip file isn't whole, or it has more bytes than there is room for.
    Unzip(Input),
    /// A gzip file has several parts, of which bedtools may read the first alone.
    Parts(Input),
    /// An input is BAM.
    Bam(Input),
}

/// Who takes a call that isn't run here.
#[derive(Clone, Copy, Debug, PartialEq, Eq)]
pub enum Taker {
    /// The bedtools on PATH.
    Original,
    /// The drop-in of the shell.
    Shell,
}

impl Why {
    /// Who takes the call, which may be one of `genomecov`: the shell has other orders for that, and depths of over six digits.
    pub fn taker(self, is_coverage: bool) -> Taker {
        match self {
            Why::Verdict(Reason::NotByGenome) if is_coverage => Taker::Shell,
            Why::Verdict(Reason::EmptyNotLast | Reason::ManyRecords) => Taker::Shell,
            Why::Words(WordReason::ZerosOfStrand) => Taker::Shell,
            Why::CoverageForm | Why::Limit | Why::NoOriginal => Taker::Shell,
            _ => Taker::Original,
        }
    }

    /// The input that it is about.
    pub fn input(self) -> Option<Input> {
        match self {
            Why::Unopened(input)
            | Why::Text(input, _)
            | Why::Zipped(input)
            | Why::Unzip(input)
            | Why::Parts(input)
            | Why::Bam(input) => Some(input),
            Why::Genome(_) | Why::TabInComment | Why::NulInGenome | Why::GenomeStream => Some(
                Input::Genome,
            ),
            _ => None,
        }
    }

    /// The reason in words, without the input.
    pub fn text(self) -> &'static str {
        match self {
            Why::NotUnicode => "a word isn't UTF-8",
            Why::Usage(_) => "its words are no command line of Dunekettle",
            Why::NoMemory => "there is no memory",
            Why::Words(reason) => word_text(reason),
            Why::Mask => "bedtools is as quick as a look at the files",
            Why::Version => "what this bedtools does with these words wasn't tried",
            Why::Unopened(_) => "it is no file that can be read",
            Why::Text(_, trouble) => trouble_text(trouble),
            Why::Genome(fault) => kind_text(fault.kind),
            Why::TabInComment => "a comment has a tab",
            Why::NulInGenome => "a line has a NUL",
            Why::Verdict(reason) => verdict_text(reason),
            Why::Alignments => "bedtools is as quick: BAM has to be made text first",
            Why::CoverageForm => "it is a form of genomecov that awk makes",
            Why::Limit => "it limits the records that are held",
            Why::HitsRoom => "its inputs don't fit DUNEKETTLE_ROOM, in which hits are put in order",
            Why::Changed => "a file changed while it was read",
            Why::TwoStreams => "two of its inputs are streams",
            Why::GenomeStream => "it is a stream",
            Why::NoOriginal => "there is no other bedtools on PATH",
            Why::NoWord => "no word is the name of its stream",
            Why::LongStream => "its stream is long",
            Why::Room => "DUNEKETTLE_ROOM is no number",
            Why::Zipped(_) => "it begins as a gzip file",
            Why::Unzip(_) => "gzip fails, or its text doesn't fit DUNEKETTLE_ROOM",
            Why::Parts(_) => "it is a gzip file of several parts",
            Why::Bam(_) => "it is BAM",
        }
    }
}

fn word_text(reason: WordReason) -> &'static str {
    match reason {
        WordReason::TooManyWords => "it has more than 64 words",
        WordReason::GivenTwice => "an option is given twice",
        WordReason::MergeByStrand => "merge -s of bedtools leaves overlaps and another order",
        WordReason::LargeDistance => "-d is too large for bedtools",
        WordReason::NoInput => "bedtools needs -i",
        WordReason::ZeroFraction => "bedtools refuses a fraction of 0",
        WordReason::ZerosOfStrand => "with -bga and -strand bedtools has another order",
        WordReason::CigarOfBlocks => "bedtools leaves out -cigar beside -split",
        WordReason::NoOutput => "bedtools needs -fo",
        WordReason::WholeHeader => "-fullHeader of bedtools goes by the first word",
    }
}

fn trouble_text(trouble: Trouble) -> &'static str {
    match trouble {
        Trouble::Odd(odd) => oddity_text(odd.oddity),
        Trouble::Refused(fault) => kind_text(fault.kind),
        Trouble::ComesBack { .. } => "a chromosome comes back after others",
    }
}

fn oddity_text(oddity: Oddity) -> &'static str {
    match oddity {
        Oddity::Blank => "a blank line",
        Oddity::DoubleReturn => "a line that has CR CR",
        Oddity::Nul => "a line that has a NUL",
        Oddity::Long => "a line of over 1,015 bytes",
        Oddity::Vcf => "it is VCF",
        Oddity::ByteOrderMark => "it has a byte order mark",
        Oddity::Gzip => "it begins as a gzip file",
        Oddity::HeaderName => "bedtools passes over lines of this name",
        Oddity::FarEnd => "an end above 536,870,912",
    }
}

fn kind_text(kind: Kind) -> &'static str {
    str::from_utf8(kind.text()).unwrap_or("a line is refused")
}

fn verdict_text(reason: Reason) -> &'static str {
    match reason {
        Reason::NoSurvey => "its inputs aren't BED",
        Reason::NoStrand => "an input has records without a strand",
        Reason::MixedNames =>
            "names of its inputs begin with chr, and others don't: bedtools warns",
        Reason::LongForFraction => {
            "bedtools compares -f by seven digits, too few for the longest records"
        }
        Reason::NoGenome => "bedtools needs -g",
        Reason::NotByGenome => "an input isn't in the order of the genome file",
        Reason::PastLength => "a record goes past the end of its chromosome",
        Reason::LongChromosome => "the genome file has a chromosome that is too long for bedtools",
        Reason::LongName => "the genome file has a name that is too long for bedtools",
        Reason::EmptyNotLast => "chromosomes without records don't come last in the genome file",
        Reason::ManyRecords => "bedtools rounds a depth of a million",
        Reason::NotByBytes => "its chromosomes aren't in the order of the bytes",
        Reason::NoCommonOrder => "no order of chromosomes fits both inputs",
    }
}
