//! Runs without a genome file.

use crate::tests::tables::{Table, check_tables};
use std::test::Fail;

const MERGED: Table = Table {
    command: "merge",
    is_exact: false,
    head: "name | options | first | output",
    rows: &[
        "chr10 before chr2 | -i a.bed | chr10 0 5 ; chr2 0 5 ; chr2 5 9 | chr10 0 5 ; chr2 0 9",
        "a name before one that it begins | -i a.bed | chr 0 1 ; chr1 0 1 | chr 0 1 ; chr1 0 1",
        "any name is known | -i a.bed | trackX 1 2 | trackX 1 2",
        "capitals before small letters | -i a.bed | X 1 2 ; chrX 1 2 ; chr_a 1 2 \
             | X 1 2 ; chrX 1 2 ; chr_a 1 2",
        "overlapping and touching features | -i a.bed \
             | chr1 100 200 ; chr1 180 250 ; chr1 250 500 ; chr1 501 1000 \
             | chr1 100 500 ; chr1 501 1000",
        "a gap of one base | -d 1 -i a.bed \
             | chr1 100 200 ; chr1 180 250 ; chr1 250 500 ; chr1 501 1000 | chr1 100 1000",
        "each strand by itself | -s -i a.bed \
             | chr1 0 100 a 0 + ; chr1 10 20 b 0 - ; chr1 50 120 c 0 + ; chr1 60 70 d 0 - \
             | chr1 0 120 ; chr1 10 20 ; chr1 60 70",
        "the strand - | -S - -i a.bed \
             | chr1 0 100 a 0 + ; chr1 10 20 b 0 - ; chr1 50 120 c 0 + ; chr1 60 70 d 0 - \
             | chr1 10 20 ; chr1 60 70",
        "chromosomes without counted records | -S - -i a.bed \
             | chr10 0 5 a 0 - ; chr11 0 5 a 0 + ; chr2 5 9 a 0 - | chr10 0 5 ; chr2 5 9",
    ],
};

const MERGE_FAULTS: Table = Table {
    command: "merge -i a.bed",
    is_exact: false,
    head: "name | first | output | fault",
    rows: &[
        "chr10 behind chr2 | chr2 0 5 ; chr10 0 5 | | a.bed:2: record is out of order",
        "a name behind one that it begins | chr1 0 1 ; chr 0 1 | | a.bed:2: record is out of order",
        "a chromosome that returns | chr1 0 5 ; chr2 0 5 ; chr1 6 8 | chr1 0 5 \
             | a.bed:3: record is out of order",
        "an empty name comes before the order | chr1 0 5 ;  0 5 | | a.bed:2: empty chromosome name",
    ],
};

const INTERSECTED: Table = Table {
    command: "intersect",
    is_exact: false,
    head: "name | options | first | second | output",
    rows: &[
        "the second input has chr10 before chr2 | -a a.bed -b b.bed | chr2 0 5 \
             | chr10 0 9 ; chr2 2 9 | chr2 2 5",
        "chromosomes that only one input has | -c -a a.bed -b b.bed \
             | chr1 0 5 ; chr11 0 5 ; chr3 0 5 | chr 0 9 ; chr10 0 9 ; chr11 1 2 ; chr2 2 9 \
             | chr1 0 5 0 ; chr11 0 5 1 ; chr3 0 5 0",
        "features that touch | -a a.bed -b b.bed | chr1 10 20 | chr1 20 30 |",
        "features that touch, with none of the other | -v -a a.bed -b b.bed | chr1 10 20 \
             | chr1 20 30 | chr1 10 20",
        "a feature inside another | -a a.bed -b b.bed | chr1 0 100 ; chr1 50 60 \
             | chr1 10 20 ; chr1 55 58 ; chr1 90 95 \
             | chr1 10 20 ; chr1 55 58 ; chr1 90 95 ; chr1 55 58",
        "a feature inside another, counted | -a a.bed -b b.bed -c | chr1 0 100 ; chr1 50 60 \
             | chr1 10 20 ; chr1 55 58 ; chr1 90 95 | chr1 0 100 3 ; chr1 50 60 1",
    ],
};

const INTERSECT_FAULTS: Table = Table {
    command: "intersect -a a.bed -b b.bed",
    is_exact: false,
    head: "name | first | second | output | fault",
    rows: &[
        "the second input has chr10 behind chr2 | chr2 0 5 | chr2 2 4 ; chr10 0 9 | \
             | b.bed:2: record is out of order",
        "a fault of the second input behind all that is asked for | chr1 0 10 \
             | chr1 2 4 ; chr2 0 5 ; chr1 50 60 | chr1 2 4 | b.bed:3: record is out of order",
        "a fault of the second input before a decided record | chr1 0 10 ; chr1 100 110 \
             | chr1 2 4 ; chr1 50 60 ; chr1 x 9 | chr1 2 4 | b.bed:3: start is not a number",
        "faults of both inputs | chr1 0 10 ; chr1 x 5 | chr1 2 4 ; chr1 50 60 ; chr1 y 9 \
             | chr1 2 4 | a.bed:2: start is not a number",
        "faults of both first lines | chr1 x 5 | chr1 y 9 | | a.bed:1: start is not a number",
    ],
};

const SUBTRACTED: Table = Table {
    command: "subtract -a a.bed -b b.bed",
    is_exact: false,
    head: "name | first | second | output | fault",
    rows: &[
        "pieces on chromosomes in the order of their bytes | chr10 0 9 n ; chr2 0 9 m \
             | chr1 0 90 ; chr2 2 5 | chr10 0 9 n ; chr2 0 2 m ; chr2 5 9 m |",
        "the first input has chr10 behind chr2 | chr2 0 9 ; chr10 0 9 | chr2 2 5 \
             | chr2 0 2 ; chr2 5 9 | a.bed:2: record is out of order",
    ],
};

// The order of a genome file, if one is named, isn't that of the names' bytes.
const NAMED: Table = Table {
    command: "intersect -a a.bed -b b.bed -g g.txt",
    is_exact: false,
    head: "name | genome | first | second | fault",
    rows: &[
        "chr10 behind chr2 | chr2 50 ; chr10 50 | chr2 0 5 | chr10 0 9 ; chr2 2 9 \
             | b.bed:2: record is out of order",
    ],
};

#[test]
fn worked_cases(rt: HostRuntime) -> Result<(), Fail> {
    check_tables(&rt, rt.alloc(), &[MERGED, INTERSECTED, SUBTRACTED, NAMED])
}

#[test]
fn faults(rt: HostRuntime) -> Result<(), Fail> {
    check_tables(&rt, rt.alloc(), &[MERGE_FAULTS, INTERSECT_FAULTS])
}
