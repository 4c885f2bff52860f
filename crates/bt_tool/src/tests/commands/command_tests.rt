use crate::tests::tables::{Table, check_tables};
use std::test::Fail;

const MERGED: Table = Table {
    command: "merge -i a.bed -g g.txt",
    is_exact: false,
    head: "name | first | output",
    rows: &[
        "overlapping and touching features \
             | chr1 100 200 ; chr1 180 250 ; chr1 250 500 ; chr1 501 1000 \
             | chr1 100 500 ; chr1 501 1000",
        "empty input | |",
        "a comment | #chr1 5 ; chr1 1 2 | chr1 1 2",
        "the greatest numbers | chr1 999999999998 999999999999 | chr1 999999999998 999999999999",
    ],
};

const FAULTS: Table = Table {
    command: "merge -i a.bed -g g.txt",
    is_exact: false,
    head: "name | first | output | fault",
    rows: &[
        "out of order | chr1 0 10 ; chr1 20 30 ; chr1 5 8 | chr1 0 10 \
             | a.bed:3: record is out of order",
        "a chromosome that returns | chr1 0 5 ; chr2 0 5 ; chr1 6 8 | chr1 0 5 \
             | a.bed:3: record is out of order",
        "a name that isn't in the genome file | trackX 1 2 | \
             | a.bed:1: chromosome is not in the genome file",
        "a start of thirteen digits | chr1 1000000000000 5 | | a.bed:1: start is not a number",
        "an empty feature | chr1 5 5 | | a.bed:1: start is not below end",
        "two columns | chr1 5 | | a.bed:1: too few columns",
        "an end that is no number | chr1 1 x | | a.bed:1: end is not a number",
        "a start past any number of 64 bits | chr1 18446744073709551616 5 | \
             | a.bed:1: start is not a number",
        "an end past any number of 64 bits | chr1 0 18446744073709551617 | \
             | a.bed:1: end is not a number",
        "one column | chr1 | | a.bed:1: too few columns",
        "a negative start | chr1 -1 5 | | a.bed:1: start is not a number",
        "two carriage returns at the end | chr1 1 5\r\r | | a.bed:1: end is not a number",
        "a carriage return inside | chr1 1 5\rx | | a.bed:1: end is not a number",
    ],
};

const LINE_ENDS: Table = Table {
    command: "merge -i a.bed -g g.txt",
    is_exact: true,
    head: "name | first | output | fault",
    rows: &[
        "a header line | track\tname=x\r\nchr1\t007\t9\r\nchr1\t20\t30 \
             | chr1\t7\t9\nchr1\t20\t30\n |",
        "header lines anywhere \
             | browser\tposition\tchr1\r\n#\tc\r\nchr1\t5\t9\r\ntrack\tx\r\nchr1\t20\t30 \
             | chr1\t5\t9\nchr1\t20\t30\n |",
        "two columns on a last line without a line feed | chr1\t5 | | a.bed:1: too few columns",
        "a lone carriage return | \r | |",
        "an empty name | \t1\t2\n | | a.bed:1: empty chromosome name",
    ],
};

// Other genome files.
const GENOMES: Table = Table {
    command: "merge -i a.bed -g g.txt",
    is_exact: false,
    head: "name | genome | first | output | fault",
    rows: &[
        "two chromosomes, in the order of the genome file | chr2 50 ; chr10 1000 \
             | chr2 0 5 ; chr10 7 9 ; chr10 8 20 | chr2 0 5 ; chr10 7 20 |",
        "further columns aren't looked at | chr1 10 52 60 61 | chr1 1 2 name 0 + ; chr1 1 3 \
             | chr1 1 3 |",
        "a genome line of one column | chr1 | chr1 1 2 | | g.txt:1: too few columns",
        "a length of 0 | chr1 0 | chr1 1 2 | | g.txt:1: length is not a number",
        "a repeated chromosome | chr1 10 ; chr1 20 | chr1 1 2 | | g.txt:2: chromosome is repeated",
        "the genome file's fault comes first | chr1 x | x | | g.txt:1: length is not a number",
        "an empty genome file | | chr1 1 2 | | a.bed:1: chromosome is not in the genome file",
    ],
};

const GENOME_ENDS: Table = Table {
    command: "merge -i a.bed -g g.txt",
    is_exact: true,
    head: "name | genome | first | output | fault",
    rows: &[
        "line ends, blank lines and leading zeros | # name\tlength\nchr1\t1000\r\n\nchr2\t50 \
             | chr1\t007\t9\r\n\r\nchr1\t20\t30 | chr1\t7\t9\nchr1\t20\t30\n |",
        "an empty name in the genome file | \t10\n | chr1\t1\t2\n | \
             | g.txt:1: empty chromosome name",
    ],
};

const TOUCHING: Table = Table {
    command: "merge",
    is_exact: false,
    head: "first = chr1 100 200 ; chr1 180 250 ; chr1 250 500 ; chr1 501 1000 | options | output",
    rows: &[
        "-g g.txt | chr1 100 500 ; chr1 501 1000",
        "-g g.txt -d 1 | chr1 100 1000",
        "-d 1 -g g.txt -d 0 | chr1 100 500 ; chr1 501 1000",
    ],
};

const STRANDS: Table = Table {
    command: "merge",
    is_exact: false,
    head: "first = chr1 0 100 a 0 + ; chr1 10 20 b 0 - ; chr1 50 120 c 0 + ; chr1 60 70 d 0 - \
         | options | output",
    rows: &[
        "-g g.txt -S - | chr1 10 20 ; chr1 60 70",
        "-g g.txt -S + | chr1 0 120",
        "-g g.txt | chr1 0 120",
        "-g g.txt -S - -d 40 | chr1 10 70",
        "-g g.txt -s | chr1 0 120 ; chr1 10 20 ; chr1 60 70",
        "-g g.txt -s -d 40 | chr1 0 120 ; chr1 10 70",
    ],
};

const OPTIONS: Table = Table {
    command: "merge",
    is_exact: false,
    head: "options | first | output",
    rows: &[
        "-g g.txt -d 999999999999 | chr1 0 1 ; chr1 999999999998 999999999999 \
             | chr1 0 999999999999",
        "-g g.txt -S + | |",
        "-s -g g.txt | chr1 0 10 a 0 - ; chr1 5 20 b 0 + | chr1 0 10 ; chr1 5 20",
        "-g g.txt -s | chr1 0 50 ; chr1 10 40 b 0 - ; chr1 20 30 c 0 + ; chr1 40 60 d 0 x \
             | chr1 0 60 ; chr1 10 40 ; chr1 20 30",
        "-g g.txt -s | chr1 0 100 a 0 + ; chr1 10 20 b 0 - ; chr2 1 2 c 0 - \
             | chr1 0 100 ; chr1 10 20 ; chr2 1 2",
        "-g g.txt -s | |",
    ],
};

const OPTIONS_AND_FAULTS: Table = Table {
    command: "merge",
    is_exact: false,
    head: "options | first | output | fault",
    rows: &[
        "-g g.txt -S + | chr1 0 10 a 0 + ; chr1 20 30 b 0 - ; chr1 5 8 c 0 + | chr1 0 10 \
             | stdin:3: record is out of order",
        "-g g.txt -S + -d 10 | chr1 0 10 a 0 + ; chr1 20 30 b 0 - ; chr1 5 8 c 0 + | \
             | stdin:3: record is out of order",
        "-g g.txt -s | chr1 0 100 a 0 + ; chr1 10 20 b 0 - ; chr1 60 70 c 0 - ; chr1 50 55 | \
             | stdin:4: record is out of order",
        "-g g.txt -s \
             | chr1 0 100 a 0 + ; chr1 10 20 b 0 - ; chr1 60 70 c 0 - ; chr1 150 160 d 0 + ; \
             chr1 1 2 | chr1 0 100 ; chr1 10 20 ; chr1 60 70 | stdin:5: record is out of order",
        "-g g.txt -s \
             | chr1 0 100 a 0 + ; chr1 10 20 b 0 - ; chr2 1 2 c 0 - ; chr2 1 9 d 0 + ; chr1 1 2 \
             | chr1 0 100 ; chr1 10 20 | stdin:5: record is out of order",
    ],
};

const COMPLEMENT: Table = Table {
    command: "complement",
    is_exact: false,
    head: "options | first | output",
    rows: &[
        "-g g.txt | | chr1 0 1000 ; chr2 0 50",
        "-L -g g.txt | |",
        "-g g.txt | chr1 0 10 ; chr1 900 1200 | chr1 10 900 ; chr2 0 50",
        "-g g.txt -L | chr1 0 10 ; chr1 900 1200 | chr1 10 900",
        "-g g.txt | chr1 1100 1200 | chr1 0 1000 ; chr2 0 50",
        "-L -g g.txt | chr1 1100 1200 | chr1 0 1000",
        "-g g.txt | chr1 5 10 ; chr1 6 8 ; chr1 9 12 | chr1 0 5 ; chr1 12 1000 ; chr2 0 50",
        "-g g.txt | chr1 0 1000 ; chr2 0 60 |",
        "-g g.txt | chr2 0 50 | chr1 0 1000",
    ],
};

const COMPLEMENT_FAULTS: Table = Table {
    command: "complement",
    is_exact: false,
    head: "options | first | output | fault",
    rows: &[
        "-g g.txt | chr1 10 20 ; chr1 30 40 ; chr1 5 6 | chr1 0 10 ; chr1 20 30 \
             | stdin:3: record is out of order",
        "-g g.txt | chr2 10 20 ; chr2 5 6 | chr1 0 1000 ; chr2 0 10 \
             | stdin:2: record is out of order",
        "-L -g g.txt | chr2 10 20 ; chr2 5 6 | chr2 0 10 | stdin:2: record is out of order",
        "-g g.txt | chr2 x 20 | | stdin:1: start is not a number",
        "-g g.txt -i a.bed | chr3 1 2 | | a.bed:1: chromosome is not in the genome file",
        "-g g.txt | chr1 0 10 ; # ; chr2 0 50 ; chr1 20 30 | chr1 10 1000 \
             | stdin:4: record is out of order",
    ],
};

#[test]
fn merge_with_a_genome_file(rt: HostRuntime) -> Result<(), Fail> {
    check_tables(
        &rt,
        rt.alloc(),
        &[MERGED, FAULTS, LINE_ENDS, GENOMES, GENOME_ENDS],
    )
}

#[test]
fn merge_with_its_options(rt: HostRuntime) -> Result<(), Fail> {
    check_tables(
        &rt,
        rt.alloc(),
        &[TOUCHING, STRANDS, OPTIONS, OPTIONS_AND_FAULTS],
    )
}

#[test]
fn complement_with_its_options(rt: HostRuntime) -> Result<(), Fail> {
    check_tables(&rt, rt.alloc(), &[COMPLEMENT, COMPLEMENT_FAULTS])
}
