//! Runs on inputs of a few lines, and what they give when reading an input fails.
//!
//! `cuts`, of the first input, and `second cuts` say how many lines of the output are written when
//! reading it fails after no complete line, after one, after two, and so on. In `0 0 1 1!` these
//! are none, none, one and one. The failed read at the next line is reported, or with a `!` the
//! fault of the row.

use crate::tests::tables::Table;

pub(crate) const MERGED: Table = Table {
    command: "merge -i a.bed",
    is_exact: false,
    head: "name | options | first | output | fault | cuts",
    rows: &[
        "overlapping and touching features | -g g.txt \
             | chr1 100 200 ; chr1 180 250 ; chr1 250 500 ; chr1 501 1000 \
             | chr1 100 500 ; chr1 501 1000 | | 0 0 0 0 1",
        "over a gap of one base | -g g.txt -d 1 \
             | chr1 100 200 ; chr1 180 250 ; chr1 250 500 ; chr1 501 1000 | chr1 100 1000 | \
             | 0 0 0 0 0",
        "out of order | -g g.txt | chr1 0 10 ; chr1 20 30 ; chr1 5 8 | chr1 0 10 \
             | a.bed:3: record is out of order | 0 0 1 1!",
        "without a genome file | \
             | chr1 100 200 ; chr1 180 250 ; chr1 250 500 ; chr1 501 1000 \
             | chr1 100 500 ; chr1 501 1000 | | 0 0 0 0 1",
    ],
};

pub(crate) const STRANDS: Table = Table {
    command: "merge -i a.bed -g g.txt",
    is_exact: false,
    head: "first = chr1 0 100 a 0 + ; chr1 10 20 b 0 - ; chr1 50 120 c 0 + ; chr1 60 70 d 0 - \
         | name | options | output | cuts",
    rows: &[
        "each strand by itself | -s | chr1 0 120 ; chr1 10 20 ; chr1 60 70 | 0 0 0 0 0",
        "the strand - | -S - | chr1 10 20 ; chr1 60 70 | 0 0 0 1 1",
        "the strand + | -S + | chr1 0 120 | 0 0 0 0 0",
        "all strands | | chr1 0 120 | 0 0 0 0 0",
    ],
};

pub(crate) const GAPS: Table = Table {
    command: "complement -i a.bed -g g.txt",
    is_exact: false,
    head: "first = chr1 0 10 ; chr1 900 1200 | name | options | output | cuts",
    rows: &[
        "gaps | | chr1 10 900 ; chr2 0 50 | 0 0 1",
        "gaps of chromosomes with records | -L | chr1 10 900 | 0 0 1",
    ],
};

pub(crate) const DEPTHS: Table = Table {
    command: "genomecov -i a.bed -g g.txt -bga",
    is_exact: false,
    head: "genome = chr1 20 ; chr2 5 | name | first | output | cuts",
    rows: &[
        "depths with 0 | chr2 3 9 | chr1 0 20 0 ; chr2 0 3 0 ; chr2 3 5 1 | 0 1",
        // The third record starts after the end of the first two; the gap up to it may go on.
        "depths of records over one another | chr1 0 10 ; chr1 5 10 ; chr1 12 15 \
             | chr1 0 5 1 ; chr1 5 10 2 ; chr1 10 12 0 ; chr1 12 15 1 ; chr1 15 20 0 ; chr2 0 5 0 \
             | 0 0 0 2",
    ],
};

pub(crate) const ALIGNMENTS: Table = Table {
    command: "bamtobed -i a.sam",
    is_exact: false,
    head: "name | options | first | output | fault | cuts",
    rows: &[
        "an alignment | | r001 99 ref 7 30 8M2I4M1D3M = 37 39 TTAGATAAAGGATACTG * \
             | ref 6 22 r001/1 30 + | | 0 1",
        "an alignment with its CIGAR | -cigar \
             | r001 99 ref 7 30 8M2I4M1D3M = 37 39 TTAGATAAAGGATACTG * \
             | ref 6 22 r001/1 30 + 8M2I4M1D3M | | 0 1",
        "an alignment on the reverse strand | | r001 147 ref 37 30 9M = 7 -39 CAGCGGCAT * \
             | ref 36 45 r001/2 30 - | | 0 1",
        "blocks of an alignment | -split | r004 0 ref 16 30 6M14N5M * 0 0 ATAGCTTCAGC * \
             | ref 15 21 r004 30 + ; ref 35 40 r004 30 + | | 0 2",
        "an unmapped read | -split | r004 4 ref 16 30 6M14N5M * 0 0 ATAGCTTCAGC * | | | 0 0",
        "an alignment without a CIGAR | -split | r004 0 ref 16 30 * * 0 0 ATAGCTTCAGC * | | | 0 0",
        "a letter that is no operation | -split | r004 0 ref 16 30 5Q * 0 0 ATAGCTTCAGC * | \
             | a.sam:1: CIGAR is malformed | 0 0!",
        "blocks of two alignments | -split | a 0 s 1 9 5M2N5M * 0 0 * * ; b 16 s 4 8 3M * 0 0 * * \
             | s 0 5 a 9 + ; s 7 12 a 9 + ; s 3 6 b 8 - | | 0 2 3",
    ],
};

// A record is written once a complete line of the second input decides it; a fault of the first
// input comes before one of the second that no record needs.
pub(crate) const INTERSECTED: Table = Table {
    command: "intersect -a a.bed -b b.bed -g g.txt",
    is_exact: false,
    head: "name | options | first | second | output | fault | cuts | second cuts",
    rows: &[
        "the second record asks for the faulty line | | chr1 0 10 ; chr1 100 110 \
             | chr1 2 4 ; chr1 50 60 ; chr1 x 9 | chr1 2 4 | b.bed:3: start is not a number \
             | 0 1 1! | 0 0 1 1!",
        "one record too many | -held 1 | chr1 0 10 ; chr1 20 100 \
             | chr1 1 2 ; chr1 30 40 ; chr1 50 60 | chr1 1 2 | b.bed:3: too many open records \
             | 0 1 1! | 0 0 1 1!",
        "no record asks for the faulty line | | chr1 0 10 | chr1 2 4 ; chr1 50 60 ; chr1 x 9 \
             | chr1 2 4 | b.bed:3: start is not a number | 0 1 | 0 0 1 1!",
        "a faulty line beside no record | | | chr1 2 4 ; chr1 50 60 ; chr1 x 9 | \
             | b.bed:3: start is not a number | 0 | 0 0 0 0!",
        "a second input out of order | | chr1 0 10 | chr1 2 4 ; chr2 0 5 ; chr1 50 60 | chr1 2 4 \
             | b.bed:3: record is out of order | 0 1 | 0 0 1 1!",
        "a faulty first input | | chr1 0 10 ; chr1 x 5 | chr1 2 4 ; chr1 50 60 ; chr1 x 9 \
             | chr1 2 4 | a.bed:2: start is not a number | 0 1 1! | 0 0 1! 1!",
    ],
};

pub(crate) const SUBTRACTED: Table = Table {
    command: "subtract -a a.bed -b b.bed",
    is_exact: false,
    head: "name | options | first | second | output | fault | cuts | second cuts",
    rows: &[
        "pieces | -g g.txt | chr1 0 100 n 5 + | chr1 10 20 ; chr1 15 30 ; chr1 90 200 \
             | chr1 0 10 n 5 + ; chr1 30 90 n 5 + | | 0 2 | 0 0 0 0",
        "a record that is dropped whole | -g g.txt -A | chr1 0 100 n 5 + \
             | chr1 10 20 ; chr1 15 30 ; chr1 90 200 | | | 0 0 | 0 0 0 0",
        "a record without bases left | -g g.txt | chr1 0 100 n 5 + | chr1 0 100 | | | 0 0 | 0 0",
        "pieces, and the second record asks for the faulty line | -g g.txt \
             | chr1 0 10 ; chr1 100 110 | chr1 2 4 ; chr1 50 60 ; chr1 x 9 \
             | chr1 0 2 ; chr1 4 10 | b.bed:3: start is not a number | 0 2 2! | 0 0 2 2!",
        "pieces without a genome file | | chr1 0 10 ; chr1 100 110 \
             | chr1 2 4 ; chr1 50 60 ; chr1 x 9 | chr1 0 2 ; chr1 4 10 \
             | b.bed:3: start is not a number | 0 2 2! | 0 0 2 2!",
    ],
};

// Lines are written once a complete record decides them.
pub(crate) const MASKED: Table = Table {
    command: "maskfasta -fi a.fa -bed b.bed",
    is_exact: false,
    head: "name | first | second | output | fault | cuts | second cuts",
    rows: &[
        "two blocks and two sequences of one name | >s ; AAAA ; >t ; CCCC ; >s ; GGGG \
             | s 0 1 ; t 0 1 ; s 0 1 | >s ; NAAA ; >t ; NCCC ; >s ; NGGG | \
             | 0 1 2 3 4 5 6 | 0 1 3 5",
        "a block behind that of the sequence between | >s ; AAAA ; >t ; CCCC ; >s ; GGGG \
             | t 0 1 ; s 0 1 | >s ; AAAA ; >t ; NCCC ; >s ; NGGG | | 0 1 2 3 4 5 6 | 0 3 5",
        "text before the first header | ACGT ; >s | s 0 1 | \
             | a.fa:1: text before the first header | 0 0! 0! | 0! 0!",
        "records out of order in a block | >s ; AAAA | s 3 4 ; s 1 2 | >s \
             | b.bed:2: record is out of order | 0 1 1! | 0 1 1!",
        "lines before the record ahead | >s ; AC ; GT ; AC | s 5 6 | >s ; AC ; GT ; AN | \
             | 0 1 2 3 4 | 0 3",
    ],
};

pub(crate) const MASKED_HEADERS: Table = Table {
    command: "maskfasta -fi a.fa -bed b.bed",
    is_exact: true,
    head: "name | options | first | second | output | cuts | second cuts",
    rows: &[
        "a last line without an end | | >s d\nACGTAC\nGTAC | s\t4\t8\n | >s d\nACGTNN\nNNAC \
             | 0 1 2 | 0 1",
        "lower case | -soft | >s d\nACGTAC\nGTAC | s\t4\t8\n | >s d\nACGTac\ngtAC | 0 1 2 | 0 1",
        "another character | -mc x | >s d\nACGTAC\nGTAC | s\t4\t8\n | >s d\nACGTxx\nxxAC \
             | 0 1 2 | 0 1",
        "the whole header as a name | -fullHeader | >s d\nACGT\n | s d\t0\t1\n | >s d\nNCGT\n \
             | 0 1 2 | 0 1",
    ],
};

pub(crate) const MERGE_FAILS: Table = Table {
    command: "merge -i a.bed -g g.txt",
    is_exact: false,
    head: "first = chr1 100 200 ; chr1 180 250 ; chr1 250 500 ; chr1 501 1000 \
         | name | output | fault | fails",
    rows: &[
        "three lines of four | | a.bed:4: reading failed | first 39",
        "all but the last line feed | | a.bed:4: reading failed | first 52",
        "one line of the genome file | | g.txt:2: reading failed | genome 10",
        "devices that serve | chr1 100 500 ; chr1 501 1000 | |",
    ],
};

// A sink that fails may have taken a part of a line.
pub(crate) const WRITING_FAILS: Table = Table {
    command: "merge -i a.bed -g g.txt",
    is_exact: true,
    head: "name | first | output | fault | fails",
    rows: &[
        "a sink of five bytes \
             | chr1\t100\t200\nchr1\t180\t250\nchr1\t250\t500\nchr1\t501\t1000\n | chr1\t \
             | writing failed | out 5",
        "two lines before one out of order | chr1\t0\t10\nchr1\t20\t30\nchr1\t5\t8\n \
             | chr1\t0\t10\n | a.bed:3: reading failed | first 21",
        "a failed write comes before a record out of order \
             | chr1\t0\t10\nchr1\t20\t30\nchr1\t5\t8\n | chr1 | writing failed | out 4",
        "nothing to write | | | | out 0",
    ],
};

pub(crate) const INTERSECT_FAILS: Table = Table {
    command: "intersect -a a.bed -b b.bed -g g.txt",
    is_exact: false,
    head: "first = chr1 0 10 ; chr1 100 110 | second = chr1 2 4 ; chr1 50 60 ; chr1 x 9 \
         | name | output | fault | fails",
    rows: &[
        "the second input up to its faulty line | chr1 2 4 | b.bed:3: reading failed | second 20",
        "the second input inside its second line | | b.bed:2: reading failed | second 15",
    ],
};
