//! A limit on how many records of the second input are held.

use crate::tests::tables::{Table, check_tables};
use std::test::Fail;

// The first record has one of the second input on it, and the second one has two.
const LIMITS: Table = Table {
    command: "intersect -a a.bed -b b.bed -g g.txt",
    is_exact: false,
    head: "first = chr1 0 10 ; chr1 20 100 | second = chr1 1 2 ; chr1 30 40 ; chr1 50 60 \
         | name | options | output | fault",
    rows: &[
        "a record that ended makes room | -held 1 | chr1 1 2 | b.bed:3: too many open records",
        "none may be held | -held 0 | | b.bed:1: too many open records",
        "as many as are held | -held 2 | chr1 1 2 ; chr1 30 40 ; chr1 50 60 |",
        "the greatest limit | -held 999999999999 | chr1 1 2 ; chr1 30 40 ; chr1 50 60 |",
        "the last value counts | -held 0 -held 2 | chr1 1 2 ; chr1 30 40 ; chr1 50 60 |",
    ],
};

const NESTED: Table = Table {
    command: "intersect -a a.bed -b b.bed -g g.txt",
    is_exact: false,
    head: "first = chr1 0 100 ; chr1 50 60 | second = chr1 10 20 ; chr1 55 58 ; chr1 90 95 \
         | name | options | output | fault",
    rows: &[
        "a feature inside another, one too many | -held 2 | | b.bed:3: too many open records",
        "a feature inside another, as many as are held | -held 3 \
             | chr1 10 20 ; chr1 55 58 ; chr1 90 95 ; chr1 55 58 |",
        "a feature inside another, counted | -c -held 3 | chr1 0 100 3 ; chr1 50 60 1 |",
    ],
};

const KEPT: Table = Table {
    command: "intersect -a a.bed -b b.bed -g g.txt",
    is_exact: false,
    head: "name | options | first | second | output",
    rows: &[
        "a record that decides isn't held | -held 0 -v | chr1 0 10 | chr1 10 20 ; chr1 15 30 \
             | chr1 0 10",
        "nor one that ended before | -held 0 -v | chr1 20 30 | chr1 0 20 ; chr1 30 40 | chr1 20 30",
        "nor one of a chromosome before | -held 0 -c | chr2 0 10 | chr1 0 20 ; chr1 5 40 \
             | chr2 0 10 0",
        "where all is written nothing is held | -held 1 | chr1 0 10 \
             | chr1 1 2 ; chr1 30 40 ; chr1 31 50 ; chr1 32 60 | chr1 1 2",
        "nothing in the first input | -held 0 | | chr1 1 2 ; chr1 1 3 |",
    ],
};

const FAULTS: Table = Table {
    command: "intersect -a a.bed -b b.bed -g g.txt",
    is_exact: false,
    head: "name | options | first | second | output | fault",
    rows: &[
        "before a fault behind it | -held 1 | chr1 0 100 | chr1 10 20 ; chr1 20 30 ; chr1 x 9 | \
             | b.bed:2: too many open records",
        "behind a limit that is kept a fault | -held 2 | chr1 0 100 \
             | chr1 10 20 ; chr1 20 30 ; chr1 x 9 | | b.bed:3: start is not a number",
        "one that a fraction refuses is held | -f 1 -held 1 | chr1 0 100 | chr1 10 20 ; chr1 20 30 \
             | | b.bed:2: too many open records",
        "one of another strand is held | -s -held 1 | chr1 0 100 a 0 + \
             | chr1 10 20 b 0 + ; chr1 20 30 c 0 - | | b.bed:2: too many open records",
        "one that isn't half of both is held | -f 0.5 -r -held 0 | chr1 0 100 | chr1 10 20 | \
             | b.bed:1: too many open records",
        "a new chromosome makes room | -held 1 | chr1 0 10 ; chr2 0 40 \
             | chr1 1 2 ; chr2 1 2 ; chr2 3 4 | chr1 1 2 | b.bed:3: too many open records",
        "before a fault of the first | -held 1 | chr1 0 10 ; chr1 x 5 | chr1 2 4 ; chr1 3 5 | \
             | b.bed:2: too many open records",
        "behind the last record that a fault follows | -held 1 | chr1 0 10 ; chr1 x 5 \
             | chr1 2 4 ; chr1 30 50 | chr1 2 4 | a.bed:2: start is not a number",
    ],
};

const SKIPPED: Table = Table {
    command: "intersect -a a.bed -b b.bed -g g.txt",
    is_exact: true,
    head: "name | options | first | second | fault",
    rows: &[
        "lines that are skipped count | -held 1 | chr1\t0\t100\n \
             | # x\n\nchr1\t10\t20\ntrack\nchr1\t20\t30\n | b.bed:5: too many open records",
    ],
};

const SUBTRACTED: Table = Table {
    command: "subtract -a a.bed -b b.bed -g g.txt",
    is_exact: false,
    head: "name | options | first | second | output | fault",
    rows: &[
        "none is held where one ended and one decides | -held 0 | chr1 20 30 \
             | chr1 0 5 ; chr1 30 40 | chr1 20 30 |",
        "pieces, one too many | -held 1 | chr1 0 10 | chr1 1 2 ; chr1 3 4 | \
             | b.bed:2: too many open records",
        "pieces, as many as are held | -held 2 | chr1 0 10 | chr1 1 2 ; chr1 3 4 \
             | chr1 0 1 ; chr1 2 3 ; chr1 4 10 |",
        "whole records, one too many | -A -held 0 | chr1 0 10 ; chr1 20 30 | chr1 1 2 | \
             | b.bed:1: too many open records",
        "the decided record is written | -A -held 0 | chr1 0 10 ; chr1 20 30 \
             | chr1 10 15 ; chr1 22 24 | chr1 0 10 | b.bed:2: too many open records",
        "one that a fraction refuses is held | -f 1 -held 0 | chr1 0 10 | chr1 1 2 | \
             | b.bed:1: too many open records",
    ],
};

#[test]
fn held_records_of_intersect(rt: HostRuntime) -> Result<(), Fail> {
    check_tables(&rt, rt.alloc(), &[LIMITS, NESTED, KEPT, FAULTS, SKIPPED])
}

#[test]
fn held_records_of_subtract(rt: HostRuntime) -> Result<(), Fail> {
    check_tables(&rt, rt.alloc(), &[SUBTRACTED])
}
