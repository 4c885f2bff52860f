//! What can be wrong with a line.

use crate::tests::tables::{Table, check_tables};
use std::test::Fail;

// A line of the first input, after a record whose lines are written.
const OF_FIRST: Table = Table {
    command: "intersect -a a.bed -b b.bed -g g.txt",
    is_exact: false,
    head: "second = chr1 2 4 ; chr2 0 5 | output = chr1 2 4 | name | first | fault",
    rows: &[
        "too few columns | chr1 2 9 ; chr1 5 | a.bed:2: too few columns",
        "no name | chr1 2 9 ;  1 2 | a.bed:2: empty chromosome name",
        "a start that isn't a number | chr1 2 9 ; chr1 x 9 | a.bed:2: start is not a number",
        "an end that isn't a number | chr1 2 9 ; chr1 5 1000000000000 \
             | a.bed:2: end is not a number",
        "no base | chr1 2 9 ; chr1 5 5 | a.bed:2: start is not below end",
        "an unknown chromosome | chr1 2 9 ; chr3 1 2 \
             | a.bed:2: chromosome is not in the genome file",
        "a start before the last one | chr1 2 9 ; chr1 1 3 | a.bed:2: record is out of order",
    ],
};

// A line of the second input, which the first record needs.
const OF_SECOND: Table = Table {
    command: "intersect -a a.bed -b b.bed -g g.txt",
    is_exact: false,
    head: "first = chr1 2 4 | name | second | fault",
    rows: &[
        "too few columns | chr1 2 9 ; chr1 5 | b.bed:2: too few columns",
        "no name | chr1 2 9 ;  1 2 | b.bed:2: empty chromosome name",
        "a start that isn't a number | chr1 2 9 ; chr1 x 9 | b.bed:2: start is not a number",
        "an end that isn't a number | chr1 2 9 ; chr1 5 1000000000000 \
             | b.bed:2: end is not a number",
        "no base | chr1 2 9 ; chr1 5 5 | b.bed:2: start is not below end",
        "an unknown chromosome | chr1 2 9 ; chr3 1 2 \
             | b.bed:2: chromosome is not in the genome file",
        "a start before the last one | chr1 2 9 ; chr1 1 3 | b.bed:2: record is out of order",
    ],
};

#[test]
fn faulty_lines(rt: HostRuntime) -> Result<(), Fail> {
    check_tables(&rt, rt.alloc(), &[OF_FIRST, OF_SECOND])
}
