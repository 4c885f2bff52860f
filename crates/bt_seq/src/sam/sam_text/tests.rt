//! Worked lines of SAM text, and what is wrong with others.

use super::*;
use crate::tests::{R001, R001_AGAIN, R002, R003, R003_AGAIN, R004};

// What is compared of an alignment: start, end, both segments, the reverse strand and the quality.
type Placed = (u64, u64, bool, bool, bool, u64);

fn placed(text: &[u8]) -> Option<Placed> {
    let sam = sam_line(text).ok().flatten()?;
    let (start, stop) = (sam.start, sam.stop);
    Some((start, stop, sam.first, sam.last, sam.reverse, sam.quality))
}

// The example of the SAM specification, and lines at the limits.
#[rattlefmt::skip]
const ALIGNMENTS: [(&[u8], Placed); 16] = [
    (R001, (6, 22, true, false, false, 30)),
    (R002, (8, 18, false, false, false, 30)),
    (R003, (8, 14, false, false, false, 30)),
    (R004, (15, 40, false, false, false, 30)),
    (R003_AGAIN, (28, 33, false, false, true, 17)),
    (R001_AGAIN, (36, 45, false, true, true, 30)),
    (b"r\t192\tref\t1\t30\t5M\t*\t0\t0\t*\t*", (0, 5, true, true, false, 30)),
    (b"r\t65467\tref\t1\t30\t5M\t*\t0\t0\t*\t*", (0, 5, false, true, true, 30)),
    (b"r\t0\tref\t1\t30\t999999999999M\t*\t0\t0\t*\t*",
        (0, 999_999_999_999, false, false, false, 30)),
    (b"r\t0\tref\t2147483647\t255\t5M\t*\t0\t0\t*\t*",
        (2_147_483_646, 2_147_483_651, false, false, false, 255)),
    (b"r\t0065531\tref\t01\t00\t05=\t*\t0\t0\t*\t*", (0, 5, true, true, true, 0)),
    (b"r\t0\tref\t1\t30\t5N5M\t*\t0\t0\t*\t*", (0, 10, false, false, false, 30)),
    (b"r\t0\tref\t1\t0\t5X\t\t\t\t\t", (0, 5, false, false, false, 0)),
    (b"\t0\tref\t1\t0\t5X\t\t\t\t\t", (0, 5, false, false, false, 0)),
    (b"r\t32\tref\t1\t0\t5X\t\t\t\t\t", (0, 5, false, false, false, 0)),
    (b"r\t0\tref\t1\t0\t1S5D\t\t\t\t\t", (0, 5, false, false, false, 0)),
];

fn first_misplaced(rows: &[(&'static [u8], Placed)]) -> Option<&'static [u8]> {
    for (line, want) in rows {
        if placed(line) != Some(*want) {
            return Some(*line);
        }
    }
    None
}

#[test]
fn alignments(rt: HostRuntime) {
    assert_eq!(rt; first_misplaced(&ALIGNMENTS), None);
}

// Lines without an alignment.
#[rattlefmt::skip]
const SILENT: [&[u8]; 14] = [
    b"", b"@", b"@HD\tVN:1.6\tSO:coordinate", b"@SQ\tSN:ref\tLN:45",
    b"@r\t0\tref\t1\t30\t5Q\t*\t0\t0\t*\t*", b"r\t4\tref\t1\t30\t5M\t*\t0\t0\t*\t*",
    b"r\t77\t*\t0\t0\t*\t*\t0\t0\tACGT\t*", b"r\t0\t*\t1\t30\t5M\t*\t0\t0\t*\t*",
    b"r\t0\tref\t0\t30\t5M\t*\t0\t0\t*\t*", b"r\t0\tref\t1\t30\t*\t*\t0\t0\t*\t*",
    b"r\t0\tref\t1\t30\t5I3S\t*\t0\t0\t*\t*", b"r\t0\tref\t1\t30\t0M\t*\t0\t0\t*\t*",
    b"r\t4\tref\t2\t30\t999999999999M\t*\t0\t0\t*\t*",
    b"r\t0\t*\t2\t30\t999999999999M\t*\t0\t0\t*\t*",
];

fn first_with_an_alignment(lines: &[&'static [u8]]) -> Option<&'static [u8]> {
    for line in lines {
        let Ok(None) = sam_line(line) else {
            return Some(*line);
        };
    }
    None
}

#[test]
fn nothing_is_said(rt: HostRuntime) {
    assert_eq!(rt; first_with_an_alignment(&SILENT), None);
}

// What is wrong, and lines with which it is.
#[rattlefmt::skip]
const AT_FAULT: [(Kind, &[&[u8]]); 7] = [
    (Kind::TooFewColumns, &[
        b"r", b"r\t0\tref\t1\t30\t5M", b"r\t0\tref\t1\t30\t5M\t*\t0\t0\t*",
        b"r\tx\t\tx\tx\tx\t*\t0\t0\t*",
    ]),
    (Kind::BadFlag, &[
        b"r\t65536\tref\t1\t30\t5M\t*\t0\t0\t*\t*", b"r\tx\t\tx\tx\tx\t*\t0\t0\t*\t*",
        b"r\t\tref\t1\t30\t5M\t*\t0\t0\t*\t*", b"r\t-1\tref\t1\t30\t5M\t*\t0\t0\t*\t*",
        b"r\t1:\tref\t1\t30\t5M\t*\t0\t0\t*\t*", b"r\t:63\tref\t1\t30\t5M\t*\t0\t0\t*\t*",
        b"r\t1/3\tref\t1\t30\t5M\t*\t0\t0\t*\t*", b"r\t16x\tref\t1\t30\t5M\t*\t0\t0\t*\t*",
    ]),
    (Kind::EmptyName, &[b"r\t4\t\tx\tx\tx\t*\t0\t0\t*\t*"]),
    (Kind::BadPosition, &[
        b"r\t4\tref\tx\tx\tx\t*\t0\t0\t*\t*", b"r\t0\tref\t2147483648\t30\t5M\t*\t0\t0\t*\t*",
        b"r\t0\tref\t-1\t30\t5M\t*\t0\t0\t*\t*",
    ]),
    (Kind::BadQuality, &[
        b"r\t4\tref\t1\tx\tx\t*\t0\t0\t*\t*", b"r\t0\tref\t1\t256\t5M\t*\t0\t0\t*\t*",
        b"r\t0\tref\t1\t\t5M\t*\t0\t0\t*\t*", b"r\t0\tref\t1\t/0\t5M\t*\t0\t0\t*\t*",
    ]),
    (Kind::BadCigar, &[
        b"r\t4\tref\t1\t30\t5Q\t*\t0\t0\t*\t*", b"r\t0\tref\t1\t30\t5Q\t*\t0\t0\t*\t*",
        b"r\t0\tref\t1\t30\t5\t*\t0\t0\t*\t*", b"r\t0\tref\t1\t30\t\t*\t0\t0\t*\t*",
        b"r\t0\tref\t1\t30\tM\t*\t0\t0\t*\t*", b"r\t0\t*\t0\t30\t5M3\t*\t0\t0\t*\t*",
        b"r\t0\tref\t1\t30\t1000000000000M\t*\t0\t0\t*\t*",
    ]),
    (Kind::StopTooLarge, &[
        b"r\t0\tref\t2\t30\t999999999999M\t*\t0\t0\t*\t*",
        b"r\t0\tref\t1\t30\t999999999999M999999999999M\t*\t0\t0\t*\t*",
    ]),
];

// The first of these lines with which something else is wrong.
fn first_misjudged(rows: &[(Kind, &[&'static [u8]])]) -> Option<&'static [u8]> {
    for (kind, lines) in rows {
        for line in *lines {
            if sam_line(line).err() != Some(*kind) {
                return Some(*line);
            }
        }
    }
    None
}

#[test]
fn lines_are_at_fault(rt: HostRuntime) {
    assert_eq!(rt; first_misjudged(&AT_FAULT), None);
}
