use crate::tests::tables::{Table, check_tables};
use std::test::Fail;

const CASES: Table = Table {
    command: "bamtobed -i a.sam",
    is_exact: false,
    head: "name | options | first | output",
    rows: &[
        "the first segment of a template | \
             | r001 99 ref 7 30 8M2I4M1D3M = 37 39 TTAGATAAAGGATACTG * | ref 6 22 r001/1 30 +",
        "with its CIGAR | -cigar | r001 99 ref 7 30 8M2I4M1D3M = 37 39 TTAGATAAAGGATACTG * \
             | ref 6 22 r001/1 30 + 8M2I4M1D3M",
        "the last segment, on the reverse strand | | r001 147 ref 37 30 9M = 7 -39 CAGCGGCAT * \
             | ref 36 45 r001/2 30 -",
        "an alignment with a skipped region | | r004 0 ref 16 30 6M14N5M * 0 0 ATAGCTTCAGC * \
             | ref 15 40 r004 30 +",
        "cut at the skipped region | -split | r004 0 ref 16 30 6M14N5M * 0 0 ATAGCTTCAGC * \
             | ref 15 21 r004 30 + ; ref 35 40 r004 30 +",
        "cut, and with its whole CIGAR on each line | -split -cigar \
             | r004 0 ref 16 30 6M14N5M * 0 0 ATAGCTTCAGC * \
             | ref 15 21 r004 30 + 6M14N5M ; ref 35 40 r004 30 + 6M14N5M",
        "an unmapped read | -split | r004 4 ref 16 30 6M14N5M * 0 0 ATAGCTTCAGC * |",
        "no CIGAR | -split | r004 0 ref 16 30 * * 0 0 ATAGCTTCAGC * |",
        "an empty input | | |",
    ],
};

// The example of the SAM specification, section 1.1.
const EXAMPLE: Table = Table {
    command: "bamtobed -i a.sam",
    is_exact: false,
    head: "first = @HD VN:1.6 SO:coordinate ; \
         @SQ SN:ref LN:45 ; \
         r001 99 ref 7 30 8M2I4M1D3M = 37 39 TTAGATAAAGGATACTG * ; \
         r002 0 ref 9 30 3S6M1P1I4M * 0 0 AAAAGATAAGGATA * ; \
         r003 0 ref 9 30 5S6M * 0 0 GCCTAAGCTAA * SA:Z:ref,29,-,6H5M,17,0; ; \
         r004 0 ref 16 30 6M14N5M * 0 0 ATAGCTTCAGC * ; \
         r003 2064 ref 29 17 6H5M * 0 0 TAGGC * SA:Z:ref,9,+,5S6M,30,1; ; \
         r001 147 ref 37 30 9M = 7 -39 CAGCGGCAT * NM:i:1 \
         | name | options | output",
    rows: &[
        "the example of the specification | \
             | ref 6 22 r001/1 30 + ; ref 8 18 r002 30 + ; ref 8 14 r003 30 + ; \
             ref 15 40 r004 30 + ; ref 28 33 r003 17 - ; ref 36 45 r001/2 30 -",
        "the example, cut and with CIGARs | -cigar -split \
             | ref 6 22 r001/1 30 + 8M2I4M1D3M ; ref 8 18 r002 30 + 3S6M1P1I4M ; \
             ref 8 14 r003 30 + 5S6M ; ref 15 21 r004 30 + 6M14N5M ; \
             ref 35 40 r004 30 + 6M14N5M ; ref 28 33 r003 17 - 6H5M ; ref 36 45 r001/2 30 - 9M",
    ],
};

const FAULTS: Table = Table {
    command: "bamtobed -i a.sam",
    is_exact: false,
    head: "name | options | first | output | fault",
    rows: &[
        "a letter that is no operation | -split | r004 0 ref 16 30 5Q * 0 0 ATAGCTTCAGC * | \
             | a.sam:1: CIGAR is malformed",
        "a line of ten columns behind an alignment | \
             | r001 99 ref 7 30 8M2I4M1D3M = 37 39 TTAGATAAAGGATACTG * ; \
             r001 147 ref 37 30 9M = 7 -39 CAGCGGCAT | ref 6 22 r001/1 30 + \
             | a.sam:2: too few columns",
        "all lines before a fault are written, and none behind it | -split \
             | a 0 s 1 9 5M2N5M * 0 0 * * ; @CO x ; b 4 s 1 9 5M * 0 0 * * ; \
             c 16 s 1 9 3M * 0 0 * * ; d x s 1 9 3M * 0 0 * * ; e 0 s 1 9 3M * 0 0 * * \
             | s 0 5 a 9 + ; s 7 12 a 9 + ; s 0 3 c 9 - | a.sam:5: flag is not a number",
    ],
};

// Single lines.
const LINES: Table = Table {
    command: "bamtobed -i a.sam",
    is_exact: false,
    head: "first | options | output",
    rows: &[
        "r 0 s 1 30 999999999999M * 0 0 * * | | s 0 999999999999 r 30 +",
        "r 4 s 2 30 999999999999M * 0 0 * * | |",
        "r 192 s 1 0 5M * 0 0 * * | | s 0 5 r/1/2 0 +",
        "r 0 s 1 255 5N5M * 0 0 * * | | s 0 10 r 255 +",
        "r 0 s 1 255 5N5M * 0 0 * * | -split | s 5 10 r 255 +",
        "r 0 s 1 30 0M * 0 0 * * | |",
        "r 0 * 1 30 5M * 0 0 * * | |",
        "r 0 s 0 30 5M * 0 0 * * | |",
        "r 65535 s 2147483647 255 1M * 0 0 * * | |",
    ],
};

const FAULTY_LINES: Table = Table {
    command: "bamtobed -i a.sam",
    is_exact: false,
    head: "first | fault",
    rows: &[
        "r 65536 s 1 30 5M * 0 0 * * | a.sam:1: flag is not a number",
        "r x s 1 30 5M * 0 0 * * | a.sam:1: flag is not a number",
        "r 0 s 2147483648 30 5M * 0 0 * * | a.sam:1: position is not a number",
        "r 0 s 1 256 5M * 0 0 * * | a.sam:1: mapping quality is not a number",
        "r 0 s 1 30 5 * 0 0 * * | a.sam:1: CIGAR is malformed",
        "r 0 s 1 30 1000000000000M * 0 0 * * | a.sam:1: CIGAR is malformed",
        "r 4 s 1 30 5Q * 0 0 * * | a.sam:1: CIGAR is malformed",
        "r 0  1 30 5M * 0 0 * * | a.sam:1: empty chromosome name",
        "r 0 s 2 30 999999999999M * 0 0 * * | a.sam:1: end is too large",
    ],
};

const LINE_ENDS: Table = Table {
    command: "bamtobed -i a.sam",
    is_exact: true,
    head: "name | first | output",
    rows: &[
        "carriage returns before the line feeds \
             | @CO x\r\na\t0\ts\t1\t9\t5M\t*\t0\t0\t*\t*\r\nb\t16\ts\t4\t8\t3M\t*\t0\t0\t*\t*\r\n \
             | s\t0\t5\ta\t9\t+\ns\t3\t6\tb\t8\t-\n",
        "a blank line between alignments \
             | a\t0\ts\t1\t9\t5M\t*\t0\t0\t*\t*\n\nb\t16\ts\t4\t8\t3M\t*\t0\t0\t*\t*\n \
             | s\t0\t5\ta\t9\t+\ns\t3\t6\tb\t8\t-\n",
        "a blank line that ends in a carriage return \
             | a\t0\ts\t1\t9\t5M\t*\t0\t0\t*\t*\n\r\nb\t16\ts\t4\t8\t3M\t*\t0\t0\t*\t*\n \
             | s\t0\t5\ta\t9\t+\ns\t3\t6\tb\t8\t-\n",
        "positions that fall, and a reference that returns \
             | a\t0\ts\t7\t9\t5M\t*\t0\t0\t*\t*\nb\t0\tr\t4\t8\t3M\t*\t0\t0\t*\t*\n\
             c\t0\ts\t2\t8\t3M\t*\t0\t0\t*\t*\n \
             | s\t6\t11\ta\t9\t+\nr\t3\t6\tb\t8\t+\ns\t1\t4\tc\t8\t+\n",
        "a last line without a line feed \
             | a\t0\ts\t1\t9\t5M\t*\t0\t0\t*\t*\nb\t16\ts\t4\t8\t3M\t*\t0\t0\t*\t* \
             | s\t0\t5\ta\t9\t+\ns\t3\t6\tb\t8\t-\n",
        "a last line that ends in a carriage return | a\t0\ts\t1\t9\t5M\t*\t0\t0\t*\t*\r \
             | s\t0\t5\ta\t9\t+\n",
    ],
};

// Without -i the input is standard input, and its fault lines name it so.
const UNNAMED: Table = Table {
    command: "bamtobed",
    is_exact: false,
    head: "first | fault",
    rows: &["@CO x ; r001 99 ref 7 30 * | stdin:2: too few columns"],
};

#[test]
fn worked_cases(rt: HostRuntime) -> Result<(), Fail> {
    check_tables(&rt, rt.alloc(), &[CASES, EXAMPLE, FAULTS])
}

#[test]
fn lines(rt: HostRuntime) -> Result<(), Fail> {
    check_tables(&rt, rt.alloc(), &[LINES, FAULTY_LINES, LINE_ENDS, UNNAMED])
}
