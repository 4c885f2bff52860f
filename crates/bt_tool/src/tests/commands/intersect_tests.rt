use crate::tests::tables::{Table, check_tables};
use std::test::Fail;

// What is written of a record that two others share parts of.
const SHARED: Table = Table {
    command: "intersect -a a.bed -b b.bed -g g.txt",
    is_exact: false,
    head: "first = chr1 10 30 a | second = chr1 0 15 x ; chr1 25 40 y | name | options | output",
    rows: &[
        "the shared parts | | chr1 10 15 a ; chr1 25 30 a",
        "all input is sorted | -sorted | chr1 10 15 a ; chr1 25 30 a",
        "the record for each hit | -wa | chr1 10 30 a ; chr1 10 30 a",
        "the same, asked for twice | -wa -wa | chr1 10 30 a ; chr1 10 30 a",
        "the shared parts, and what hits | -wb \
             | chr1 10 15 a chr1 0 15 x ; chr1 25 30 a chr1 25 40 y",
        "the records of both | -wa -wb | chr1 10 30 a chr1 0 15 x ; chr1 10 30 a chr1 25 40 y",
        "the records of both, and how much they share | -wo \
             | chr1 10 30 a chr1 0 15 x 5 ; chr1 10 30 a chr1 25 40 y 5",
        "the record once | -u | chr1 10 30 a",
        "the record once, whatever is written of it | -wa -u | chr1 10 30 a",
        "the number of hits | -c | chr1 10 30 a 2",
        "the number of hits, whatever is written | -c -wa | chr1 10 30 a 2",
        "no record without a hit | -v |",
        "none without a hit, whatever is written | -wa -v |",
    ],
};

const CASES: Table = Table {
    command: "intersect -a a.bed -b b.bed -g g.txt",
    is_exact: false,
    head: "name | options | first | second | output",
    rows: &[
        "nothing in the first input | | | chr1 2 4 |",
        "nothing in the second | -v | chr1 0 10 a ; chr1 5 8 | | chr1 0 10 a ; chr1 5 8",
        "features that touch | | chr1 10 20 | chr1 20 30 |",
        "features that touch, with none of the other | -v | chr1 10 20 | chr1 20 30 | chr1 10 20",
        "features that touch, counted | -c | chr1 10 20 | chr1 20 30 | chr1 10 20 0",
        "a feature inside another | | chr1 0 100 ; chr1 50 60 \
             | chr1 10 20 ; chr1 55 58 ; chr1 90 95 \
             | chr1 10 20 ; chr1 55 58 ; chr1 90 95 ; chr1 55 58",
        "a feature inside another, counted | -c | chr1 0 100 ; chr1 50 60 \
             | chr1 10 20 ; chr1 55 58 ; chr1 90 95 | chr1 0 100 3 ; chr1 50 60 1",
        "a chromosome behind that of the other | | chr2 0 5 | chr1 0 9 ; chr2 5 9 |",
        "a start with zeros before it | -wa -wb | chr1 007 9 n 0 + | chr1 08 20 m \
             | chr1 7 9 n 0 + chr1 8 20 m",
    ],
};

// What makes a hit: a fraction of the record, or of both, and equal strands.
const RULES: Table = Table {
    command: "intersect -a a.bed -b b.bed -g g.txt",
    is_exact: false,
    head: "name | options | first | second | output",
    rows: &[
        "half of the record | -f 0.5 | chr1 0 10 | chr1 0 5 | chr1 0 5",
        "half of the record, without a digit before the point | -f .5 | chr1 0 10 | chr1 0 5 \
             | chr1 0 5",
        "a billionth more than half | -f 0.500000001 | chr1 0 10 | chr1 0 5 |",
        "half of both | -f 0.5 -r | chr1 0 10 | chr1 0 5 | chr1 0 5",
        "half of the record, and not of the other | -r -f 0.5 | chr1 0 10 | chr1 0 100 |",
        "the same, asked of the record alone | -f 0.5 | chr1 0 10 | chr1 0 100 | chr1 0 10",
        "all of the record | -f 1 | chr1 0 10 ; chr1 4 6 | chr1 0 9 | chr1 4 6",
        "all of it, without a digit behind the point | -f 1. | chr1 0 10 ; chr1 4 6 | chr1 0 9 \
             | chr1 4 6",
        "the last fraction | -f 1 -f 0.5 | chr1 0 10 | chr1 0 5 | chr1 0 5",
        "no fraction | -f 0 | chr1 0 10 | chr1 9 1000 | chr1 9 10",
        "of both, without a fraction | -r | chr1 0 10 | chr1 9 1000 | chr1 9 10",
        "half of the record in one of two | -f 0.5 | chr1 0 100 | chr1 0 10 ; chr1 20 90 \
             | chr1 20 90",
        "half of the longest record | -f 0.5 | chr1 0 999999999999 | chr1 0 500000000000 \
             | chr1 0 500000000000",
        "less than half of the longest record | -f 0.5 | chr1 0 999999999999 | chr1 0 499999999999 \
             |",
        "no record without half of it | -f 0.5 -v | chr1 0 10 | chr1 0 5 |",
        "a record without more than half of it | -f 0.6 -v | chr1 0 10 | chr1 0 5 | chr1 0 10",
        "the number of hits of half of the record | -c -f 0.5 | chr1 0 10 | chr1 0 2 ; chr1 0 5 \
             | chr1 0 10 1",
        "another strand | -s | chr1 0 10 a 0 + | chr1 5 8 b 0 - |",
        "another strand, which isn't looked at | | chr1 0 10 a 0 + | chr1 5 8 b 0 - \
             | chr1 5 8 a 0 +",
        "the same strand | -s | chr1 0 10 a 0 - | chr1 5 8 b 0 - | chr1 5 8 a 0 -",
        "no strand in both | -s | chr1 0 10 | chr1 5 8 | chr1 5 8",
        "no strand in one | -s | chr1 0 10 | chr1 5 8 b 0 + |",
        "half of both on one strand | -s -r -f 0.5 | chr1 0 10 a 0 + \
             | chr1 0 6 b 0 - ; chr1 0 7 c 0 + | chr1 0 7 a 0 +",
    ],
};

const FAULTS: Table = Table {
    command: "intersect -a a.bed -b b.bed -g g.txt",
    is_exact: false,
    head: "name | first | second | output | fault",
    rows: &[
        "a fault where the second record is asked for | chr1 0 10 ; chr1 100 110 \
             | chr1 2 4 ; chr1 50 60 ; chr1 x 9 | chr1 2 4 | b.bed:3: start is not a number",
        "a fault behind the last record | chr1 0 10 | chr1 2 4 ; chr1 50 60 ; chr1 x 9 | chr1 2 4 \
             | b.bed:3: start is not a number",
        "a fault beside no record | | chr1 2 4 ; chr1 50 60 ; chr1 x 9 | \
             | b.bed:3: start is not a number",
        "a second input out of order | chr1 0 10 | chr1 2 4 ; chr2 0 5 ; chr1 50 60 | chr1 2 4 \
             | b.bed:3: record is out of order",
        "the first input at fault before the second | chr1 0 10 ; chr1 x 5 \
             | chr1 2 4 ; chr1 50 60 ; chr1 y 9 | chr1 2 4 | a.bed:2: start is not a number",
        "both at fault at once | chr1 x 5 | chr1 y 9 | | a.bed:1: start is not a number",
        "the second at fault at once | chr1 0 10 | chr1 y 9 | | b.bed:1: start is not a number",
    ],
};

#[test]
fn worked_cases(rt: HostRuntime) -> Result<(), Fail> {
    check_tables(&rt, rt.alloc(), &[SHARED, CASES, RULES, FAULTS])
}
