//! Why bedtools takes a command line, whatever is in its files.

/// What makes a command line bedtools' own.
#[derive(Clone, Copy, Debug, PartialEq, Eq)]
pub enum WordReason {
    /// The call has more than 64 arguments.
    TooManyWords,
    /// An option is given twice. bedtools uses the first value of some options, and the last of others.
    GivenTwice,
    /// `merge -s`: bedtools leaves some overlaps unmerged, and writes its intervals in another order.
    MergeByStrand,
    /// `merge -d` is above 2,147,483,647, where the number that bedtools reads wraps around.
    LargeDistance,
    /// `complement` or `genomecov` has no `-i`, which bedtools requires.
    NoInput,
    /// `-f` is 0, which bedtools refuses.
    ZeroFraction,
    /// `genomecov -bga -strand`: bedtools writes chromosomes without records of that strand last.
    ZerosOfStrand,
    /// `bamtobed -cigar -split`: bedtools leaves the CIGAR out.
    CigarOfBlocks,
    /// `maskfasta` has no `-fo` with the name of a file, which bedtools requires.
    NoOutput,
    /// `maskfasta -fullHeader`: bedtools still goes by the first word of a header.
    WholeHeader,
}
