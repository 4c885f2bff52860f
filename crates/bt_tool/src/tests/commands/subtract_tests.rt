use crate::tests::tables::{Table, check_tables};
use std::test::Fail;

const CASES: Table = Table {
    command: "subtract -a a.bed -b b.bed -g g.txt",
    is_exact: false,
    head: "name | options | first | second | output",
    rows: &[
        "pieces between those that hit | | chr1 0 100 n 5 + \
             | chr1 10 20 ; chr1 15 30 ; chr1 90 200 | chr1 0 10 n 5 + ; chr1 30 90 n 5 +",
        "a record that is hit, dropped whole | -A | chr1 0 100 n 5 + \
             | chr1 10 20 ; chr1 15 30 ; chr1 90 200 |",
        "past the chromosome's length, at which nothing is cut | | chr2 40 90 a \
             | chr2 60 70 ; chr2 80 200 | chr2 40 60 a ; chr2 70 80 a",
        "past the chromosome's length, whole | -A | chr2 40 60 a ; chr2 70 90 b \
             | chr2 60 70 ; chr2 80 200 | chr2 40 60 a",
        "a record without bases left | | chr1 0 100 n 5 + | chr1 0 100 |",
        "half of the record in one of two | -f 0.5 | chr1 0 100 | chr1 0 40 ; chr1 40 90 \
             | chr1 0 40 ; chr1 90 100",
        "half of the record | -f .5 | chr1 0 10 | chr1 0 5 | chr1 5 10",
        "a billionth more than half | -f 0.500000001 | chr1 0 10 | chr1 0 5 | chr1 0 10",
        "the last fraction | -f 1. -f 0.5 | chr1 0 10 | chr1 0 5 | chr1 5 10",
        "another strand | -s | chr1 0 10 a 0 + | chr1 2 4 b 0 - | chr1 0 10 a 0 +",
        "another strand, which isn't looked at | | chr1 0 10 a 0 + | chr1 2 4 b 0 - \
             | chr1 0 2 a 0 + ; chr1 4 10 a 0 +",
        "no strand in both | -s | chr1 0 10 | chr1 2 4 | chr1 0 2 ; chr1 4 10",
        "a third of a record, where half is asked for | -A -f 0.5 | chr1 0 9 a | chr1 0 3 \
             | chr1 0 9 a",
        "half of a record, dropped whole | -f 0.5 -A | chr1 0 10 a | chr1 0 5 |",
        "another strand, with whole records | -s -A | chr1 0 10 a 0 + | chr1 2 4 b 0 - \
             | chr1 0 10 a 0 +",
        "records that touch | | chr1 10 20 | chr1 0 10 ; chr1 20 30 | chr1 10 20",
        "a record inside another | | chr1 0 100 ; chr1 50 60 | chr1 10 20 ; chr1 55 58 \
             | chr1 0 10 ; chr1 20 55 ; chr1 58 100 ; chr1 50 55 ; chr1 58 60",
        "a chromosome behind that of the other | | chr2 0 5 | chr1 0 9 ; chr2 5 9 | chr2 0 5",
        "nothing in the second input | | chr1 0 10 a ; chr1 5 8 | | chr1 0 10 a ; chr1 5 8",
        "nothing in either | | | |",
    ],
};

const FAULTS: Table = Table {
    command: "subtract -a a.bed -b b.bed -g g.txt",
    is_exact: false,
    head: "name | options | first | second | output | fault",
    rows: &[
        "a fault where the second record is asked for | | chr1 0 10 ; chr1 100 110 \
             | chr1 2 4 ; chr1 50 60 ; chr1 x 9 | chr1 0 2 ; chr1 4 10 \
             | b.bed:3: start is not a number",
        "a fault beside no record | | | chr1 2 4 ; chr1 50 60 ; chr1 x 9 | \
             | b.bed:3: start is not a number",
        "the first input at fault before the second | -A | chr1 0 10 ; chr1 20 30 ; chr1 x 5 \
             | chr1 2 4 ; chr1 50 60 ; chr1 y 9 | chr1 20 30 | a.bed:3: start is not a number",
    ],
};

#[test]
fn worked_cases(rt: HostRuntime) -> Result<(), Fail> {
    check_tables(&rt, rt.alloc(), &[CASES, FAULTS])
}
