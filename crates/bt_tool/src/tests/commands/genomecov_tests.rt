use crate::tests::tables::{Table, check_tables};
use std::test::Fail;

// Chromosomes longer than all records.
const LARGE: Table = Table {
    command: "genomecov -i a.bed -g g.txt",
    is_exact: false,
    head: "name | options | first | output",
    rows: &[
        "an empty input | -bg | |",
        "an empty input, with depth 0 | -bga | | chr1 0 1000 0 ; chr2 0 50 0",
        "a record begins where another ends | -bg | chr1 0 10 ; chr1 10 20 | chr1 0 20 1",
        "a record inside another, and one behind both | -bg | chr1 0 10 ; chr1 5 10 ; chr1 10 15 \
             | chr1 0 5 1 ; chr1 5 10 2 ; chr1 10 15 1",
        "a record takes the place of another at depth 2 | -bg | chr1 0 5 ; chr1 0 10 ; chr1 5 10 \
             | chr1 0 10 2",
        "the strand - | -bg -strand - | chr1 0 10 a 0 + ; chr1 5 15 b 0 - | chr1 5 15 1",
        "the strand + | -bg -strand + | chr1 0 10 a 0 + ; chr1 5 15 b 0 - | chr1 0 10 1",
        "both strands | -bg | chr1 0 10 a 0 + ; chr1 5 15 b 0 - \
             | chr1 0 5 1 ; chr1 5 10 2 ; chr1 10 15 1",
        "no strand is neither | -bg -strand + \
             | chr1 0 10 ; chr1 2 12 b 0 . ; chr1 4 6 c 0 + ; chr1 5 8 d 0 x | chr1 4 6 1",
    ],
};

// Chromosomes that are small enough to be seen whole.
const SMALL: Table = Table {
    command: "genomecov -i a.bed -g g.txt",
    is_exact: false,
    head: "genome = chr1 20 ; chr2 5 | name | options | first | output",
    rows: &[
        "depth 0 on two chromosomes, and a record past the length | -bga | chr2 3 9 \
             | chr1 0 20 0 ; chr2 0 3 0 ; chr2 3 5 1",
        "-bg beside -bga changes nothing | -bg -bga | chr2 3 9 \
             | chr1 0 20 0 ; chr2 0 3 0 ; chr2 3 5 1",
        "-bg alone | -bg | chr2 3 9 | chr2 3 5 1",
        "depth 0 on the strand that has no record | -bga -strand - | chr1 3 8 a 0 + \
             | chr1 0 20 0 ; chr2 0 5 0",
        "a record that starts at the length | -bg | chr2 3 9 ; chr2 5 9 | chr2 3 5 1",
        "a record that starts past the length | -bga | chr2 3 4 ; chr2 6 9 \
             | chr1 0 20 0 ; chr2 0 3 0 ; chr2 3 4 1 ; chr2 4 5 0",
        "a record past the length, and one on the next chromosome | -bg \
             | chr1 18 30 ; chr1 25 40 ; chr2 1 2 | chr1 18 20 1 ; chr2 1 2 1",
        "twelve records on one another | -bg \
             | chr1 1 3 ; chr1 1 3 ; chr1 1 3 ; chr1 1 3 ; chr1 1 3 ; chr1 1 3 ; chr1 1 3 ; \
             chr1 1 3 ; chr1 1 3 ; chr1 1 3 ; chr1 1 3 ; chr1 1 3 | chr1 1 3 12",
    ],
};

// What is written before a record out of order.
const UNSETTLED: Table = Table {
    command: "genomecov -i a.bed -g g.txt",
    is_exact: false,
    head: "name | options | first | output | fault",
    rows: &[
        "a gap is settled, and what is open behind it isn't | -bg | chr1 0 5 ; chr1 7 9 ; chr1 6 8 \
             | chr1 0 5 1 | a.bed:3: record is out of order",
        "what ends at the last start isn't settled | -bg | chr1 0 5 ; chr1 5 9 ; chr1 4 8 | \
             | a.bed:3: record is out of order",
        "depth 0 up to the last start isn't settled | -bga | chr2 5 9 ; chr2 3 4 | chr1 0 1000 0 \
             | a.bed:2: record is out of order",
        "several are open | -bg | chr1 0 10 ; chr1 5 15 ; chr1 7 9 ; chr1 6 8 | chr1 0 5 1 \
             | a.bed:4: record is out of order",
        "a record of the other strand settles | -bg -strand + \
             | chr1 0 5 a 0 + ; chr1 7 9 b 0 - ; chr1 6 8 c 0 + | chr1 0 5 1 \
             | a.bed:3: record is out of order",
        "a record of the other strand starts where one ends | -bga -strand + \
             | chr1 0 5 a 0 + ; chr1 5 9 b 0 - ; chr1 4 8 c 0 + | \
             | a.bed:3: record is out of order",
    ],
};

const FAULTS: Table = Table {
    command: "genomecov -i a.bed -g g.txt",
    is_exact: false,
    head: "genome = chr1 20 ; chr2 5 | name | options | first | output | fault",
    rows: &[
        "a record past the length settles its chromosome | -bga \
             | chr1 3 30 ; chr1 25 30 ; chr1 x 5 | chr1 0 3 0 ; chr1 3 20 1 \
             | a.bed:3: start is not a number",
        "a record at the length leaves open what ends there | -bga \
             | chr1 3 30 ; chr1 20 30 ; chr1 x 5 | chr1 0 3 0 | a.bed:3: start is not a number",
        "a chromosome that comes back | -bga | chr1 0 10 ; chr2 0 5 ; chr1 20 30 \
             | chr1 0 10 1 ; chr1 10 20 0 | a.bed:3: record is out of order",
        "nothing is settled before the first record | -bga | chr2 x 9 | \
             | a.bed:1: start is not a number",
        "an unknown chromosome behind an open record | -bg | chr1 3 9 ; chr3 1 2 | \
             | a.bed:2: chromosome is not in the genome file",
    ],
};

// Other genome files.
const OTHERS: Table = Table {
    command: "genomecov -i a.bed -g g.txt",
    is_exact: false,
    head: "name | options | genome | first | output | fault",
    rows: &[
        "chromosomes without records before, between and behind | -bga \
             | a 10 ; b 10 ; c 10 ; d 10 ; e 10 | b 2 4 ; d 0 10 \
             | a 0 10 0 ; b 0 2 0 ; b 2 4 1 ; b 4 10 0 ; c 0 10 0 ; d 0 10 1 ; e 0 10 0 |",
        "the greatest numbers | -bga | a 999999999999 | a 999999999998 999999999999 \
             | a 0 999999999998 0 ; a 999999999998 999999999999 1 |",
        "a fault of the genome file comes before all | -bga | chr1 20 ; chr2 x | chr1 3 9 | \
             | g.txt:2: length is not a number",
    ],
};

#[test]
fn worked_cases(rt: HostRuntime) -> Result<(), Fail> {
    check_tables(&rt, rt.alloc(), &[LARGE, SMALL, UNSETTLED, FAULTS, OTHERS])
}
