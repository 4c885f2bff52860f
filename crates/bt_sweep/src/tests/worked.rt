//! Worked cases of shapes, of rules and of subtract.

use crate::hits::hit_rule::HitRule;
use crate::output::shape::Shape::{self, *};
use bt_bed::{Rec, parse_bed};
use std::alloc::{AllocError, Global};

pub(crate) type Lines = &'static [&'static [u8]];

// A case: its name, the shape, the rule, the records of both inputs, and what is written.
pub(crate) type RuledCase = (&'static str, Shape, HitRule, Lines, Lines, &'static [u8]);

pub(crate) const SHAPES: [Shape; 10] = [
    Cut, OrigA, CutAndB, OrigBoth, Overlap, Once, Missing, Count, Pieces, Whole,
];

// The parts of a rule, in their order.
macro_rules! rule {
    ($billionths:literal, $both:literal, $same_strand:literal) => {
        HitRule {
            billionths: $billionths,
            both: $both,
            same_strand: $same_strand,
        }
    };
}

const ANY: HitRule = rule!(0, false, false);

const BOTH_OF_NOTHING: HitRule = rule!(0, true, false);

const HALF: HitRule = rule!(500_000_000, false, false);

const OVER_HALF: HitRule = rule!(500_000_001, false, false);

const HALF_OF_BOTH: HitRule = rule!(500_000_000, true, false);

const ONE_STRAND: HitRule = rule!(0, false, true);

const SHORT: Lines = &[b"chr1\t0\t10"];

const FRONT: Lines = &[b"chr1\t0\t5"];

const LONG: Lines = &[b"chr1\t0\t100"];

const NAMED: Lines = &[b"chr1\t0\t100\tn\t5\t+"];

const THREE: Lines = &[b"chr1\t10\t20", b"chr1\t15\t30", b"chr1\t90\t200"];

const LONGEST: Lines = &[b"chr1\t0\t999999999999"];

const FORWARD: Lines = &[b"chr1\t0\t10\ta\t0\t+"];

const BACKWARD: Lines = &[b"chr1\t5\t8\tb\t0\t-"];

const TOUCHING_A: Lines = &[b"chr1\t10\t20"];

const TOUCHING_B: Lines = &[b"chr1\t20\t30"];

const NESTED_A: Lines = &[b"chr1\t0\t100", b"chr1\t50\t60"];

const NESTED_B: Lines = &[b"chr1\t10\t20", b"chr1\t55\t58", b"chr1\t90\t95"];

const NAMED_A: Lines = &[b"chr1\t10\t30\ta"];

const NAMED_B: Lines = &[b"chr1\t0\t15\tx", b"chr1\t25\t40\ty"];

// By the rule that one shared base is a hit.
#[rattlefmt::skip]
const ANY_OVERLAP: [RuledCase; 18] = [
    ("touching", Cut, ANY, TOUCHING_A, TOUCHING_B, b""),
    ("touching, missing", Missing, ANY, TOUCHING_A, TOUCHING_B, b"chr1\t10\t20\n"),
    ("touching, counted", Count, ANY, TOUCHING_A, TOUCHING_B, b"chr1\t10\t20\t0\n"),
    ("one within another", Cut, ANY, NESTED_A, NESTED_B,
        b"chr1\t10\t20\nchr1\t55\t58\nchr1\t90\t95\nchr1\t55\t58\n"),
    ("one within another, counted", Count, ANY, NESTED_A, NESTED_B,
        b"chr1\t0\t100\t3\nchr1\t50\t60\t1\n"),
    ("two hits, cut", Cut, ANY, NAMED_A, NAMED_B, b"chr1\t10\t15\ta\nchr1\t25\t30\ta\n"),
    ("two hits, the record", OrigA, ANY, NAMED_A, NAMED_B, b"chr1\t10\t30\ta\nchr1\t10\t30\ta\n"),
    ("two hits, cut and the other", CutAndB, ANY, NAMED_A, NAMED_B,
        b"chr1\t10\t15\ta\tchr1\t0\t15\tx\nchr1\t25\t30\ta\tchr1\t25\t40\ty\n"),
    ("two hits, both", OrigBoth, ANY, NAMED_A, NAMED_B,
        b"chr1\t10\t30\ta\tchr1\t0\t15\tx\nchr1\t10\t30\ta\tchr1\t25\t40\ty\n"),
    ("two hits, both and the shared bases", Overlap, ANY, NAMED_A, NAMED_B,
        b"chr1\t10\t30\ta\tchr1\t0\t15\tx\t5\nchr1\t10\t30\ta\tchr1\t25\t40\ty\t5\n"),
    ("two hits, once", Once, ANY, NAMED_A, NAMED_B, b"chr1\t10\t30\ta\n"),
    ("two hits, counted", Count, ANY, NAMED_A, NAMED_B, b"chr1\t10\t30\ta\t2\n"),
    ("two hits, missing", Missing, ANY, NAMED_A, NAMED_B, b""),
    ("no first record", Cut, ANY, &[], NAMED_B, b""),
    ("no second record", Missing, ANY, NAMED_A, &[], b"chr1\t10\t30\ta\n"),
    ("the second on other chromosomes", Cut, ANY, &[b"chr2\t0\t5"], &[b"chr1\t0\t9", b"chr2\t5\t9"],
        b""),
    ("three chromosomes' worth of records", Cut, ANY,
        &[b"chr1\t0\t10", b"chr1\t20\t30", b"chr2\t0\t10"],
        &[b"chr1\t5\t25", b"chr1\t29\t40", b"chr2\t9\t12"],
        b"chr1\t5\t10\nchr1\t20\t25\nchr1\t29\t30\nchr2\t9\t10\n"),
    ("numbers without leading zeros", OrigA, ANY, &[b"chr1\t007\t009\tn\t0\t+"], &[b"chr1\t008\t9"],
        b"chr1\t7\t9\tn\t0\t+\n"),
];

// By fractions, by strands, and what is left of the first input.
#[rattlefmt::skip]
const RULED: [RuledCase; 24] = [
    ("half", Cut, HALF, SHORT, FRONT, b"chr1\t0\t5\n"),
    ("a billionth more than half", Cut, OVER_HALF, SHORT, FRONT, b""),
    ("half of both", Cut, HALF_OF_BOTH, SHORT, FRONT, b"chr1\t0\t5\n"),
    ("half of the first", Cut, HALF, SHORT, &[b"chr1\t5\t100"], b"chr1\t5\t10\n"),
    ("half of the first alone", Cut, HALF_OF_BOTH, SHORT, &[b"chr1\t5\t100"], b""),
    ("each by itself", Cut, HALF, LONG, &[b"chr1\t0\t10", b"chr1\t20\t90"], b"chr1\t20\t90\n"),
    ("half of twelve digits", Cut, HALF, LONGEST, &[b"chr1\t0\t500000000000"],
        b"chr1\t0\t500000000000\n"),
    ("less than half of them", Cut, HALF, LONGEST, &[b"chr1\t0\t499999999999"], b""),
    ("touching, no fraction of both", Cut, BOTH_OF_NOTHING, SHORT, &[b"chr1\t10\t20"], b""),
    ("no fraction of both", Cut, BOTH_OF_NOTHING, LONG, FRONT, b"chr1\t0\t5\n"),
    ("pieces by half", Pieces, HALF, LONG, &[b"chr1\t0\t40", b"chr1\t40\t90"],
        b"chr1\t0\t40\nchr1\t90\t100\n"),
    ("another strand", Cut, ONE_STRAND, FORWARD, BACKWARD, b""),
    ("any strand", Cut, ANY, FORWARD, BACKWARD, b"chr1\t5\t8\ta\t0\t+\n"),
    ("no strand", Cut, ONE_STRAND, SHORT, &[b"chr1\t5\t8"], b"chr1\t5\t8\n"),
    ("pieces, another strand", Pieces, ONE_STRAND, FORWARD, &[b"chr1\t2\t4\tb\t0\t-"],
        b"chr1\t0\t10\ta\t0\t+\n"),
    ("pieces", Pieces, ANY, NAMED, THREE, b"chr1\t0\t10\tn\t5\t+\nchr1\t30\t90\tn\t5\t+\n"),
    ("whole", Whole, ANY, NAMED, THREE, b""),
    ("nothing is left", Pieces, ANY, NAMED, LONG, b""),
    ("pieces, one within another", Pieces, ANY, LONG, &[b"chr1\t10\t90", b"chr1\t20\t30"],
        b"chr1\t0\t10\nchr1\t90\t100\n"),
    ("two that touch", Pieces, ANY, LONG, &[b"chr1\t5\t10", b"chr1\t10\t20"],
        b"chr1\t0\t5\nchr1\t20\t100\n"),
    ("from before the record", Pieces, ANY, &[b"chr1\t10\t30"], &[b"chr1\t0\t15"],
        b"chr1\t15\t30\n"),
    ("touching, whole", Whole, ANY, SHORT, &[b"chr1\t10\t20"], b"chr1\t0\t10\n"),
    ("touching, pieces", Pieces, ANY, SHORT, &[b"chr1\t10\t20"], b"chr1\t0\t10\n"),
    ("pieces, no second record", Pieces, ANY, SHORT, &[], b"chr1\t0\t10\n"),
];

// All cases.
pub(crate) fn worked_cases() -> [&'static [RuledCase]; 2] {
    [&ANY_OVERLAP, &RULED]
}

// The records of these lines.
pub(crate) fn records_of(alloc: Global, lines: &[&[u8]]) -> Result<Vec<Rec>, AllocError> {
    let mut records = Vec::new(alloc);
    for line in lines {
        if let Ok(Some(bed)) = parse_bed(line) {
            records.push(bed.to_rec(alloc)?)?;
        }
    }
    Ok(records)
}
