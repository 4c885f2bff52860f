//! Why bedtools takes a command line, for what is in its files.

/// What in the files makes a command line bedtools' own.
#[derive(Clone, Copy, Debug, PartialEq, Eq)]
pub enum Reason {
    /// The command is `bamtobed` or `maskfasta`, whose inputs aren't all BED.
    NoSurvey,
    /// The call uses strands, and a record has none. bedtools leaves such records out, or stops.
    NoStrand,
    /// The chromosomes of the two inputs are named differently, with and without `chr` or `chr0`. bedtools warns then.
    MixedNames,
    /// `-f` is given, and a record is too long for the seven digits with which bedtools compares.
    LongForFraction,
    /// `complement` or `genomecov` has no genome file, which both require.
    NoGenome,
    /// An input isn't in the order of the genome file, or has a chromosome that isn't in that file.
    NotByGenome,
    /// `complement` or `genomecov`: a record goes past the end of its chromosome.
    PastLength,
    /// `genomecov`: a chromosome in the genome file has more than 2,147,483,647 bases.
    LongChromosome,
    /// `complement`: a name in the genome file has more than 900 bytes. bedtools may then cut a line that it writes.
    LongName,
    /// `genomecov -bga`: a chromosome without records isn't among the last of the genome file. bedtools writes those last.
    EmptyNotLast,
    /// `genomecov`: there are a million records or more, and bedtools rounds a depth of a million.
    ManyRecords,
    /// `-sorted` is given without a genome file, and an input isn't in the order of the names' bytes.
    NotByBytes,
    /// No order of chromosomes fits both inputs.
    NoCommonOrder,
}

/// By which order of the chromosomes Dunekettle takes a command line.
#[derive(Clone, Copy, Debug, PartialEq, Eq)]
pub enum InOrderOf {
    /// That of the names' bytes.
    Bytes,
    /// That of the genome file.
    GenomeFile,
    /// One that fits the inputs, which [`crate::common_order`] gives as a genome file.
    Found,
}
