//! Lines that bedtools may read otherwise.

/// What bedtools may read otherwise in a line. Lines of some commands and numbers of columns it reads as Dunekettle does.
#[derive(Clone, Copy, Debug, PartialEq, Eq)]
pub enum Oddity {
    /// The line is blank. Depending on the command, bedtools stops reading there, doesn't merge across it, or refuses it.
    Blank,
    /// The line has two carriage returns in a row. At the end of a line bedtools removes both, and Dunekettle one.
    DoubleReturn,
    /// The line has a NUL byte. bedtools drops the rest of that column.
    Nul,
    /// The line has more than 1,015 bytes. bedtools cuts some lines that it writes after 1,023 bytes, and a start may be written
    /// with eight digits more than were read.
    Long,
    /// The line begins as the first line of a VCF file does, so bedtools reads the text as VCF.
    Vcf,
    /// The text begins with a byte order mark, which bedtools refuses.
    ByteOrderMark,
    /// The text begins with the byte 1f, so bedtools takes it for a gzip file.
    Gzip,
    /// The name of its chromosome is a word with which header lines begin, so bedtools may skip the record.
    HeaderName,
    /// Its end is above 536,870,912, which is past the last bin of bedtools' index.
    FarEnd,
}

/// A line that bedtools may read otherwise.
#[derive(Clone, Copy, Debug, PartialEq, Eq)]
pub struct OddLine {
    /// Its number, counted from 1, at most `u64::MAX`.
    pub line: u64,
    /// One of the things that are odd in it.
    pub oddity: Oddity,
}
