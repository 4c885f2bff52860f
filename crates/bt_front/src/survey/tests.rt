//! Tables of small texts and what a survey says of them.

use crate::survey::Survey;
use crate::survey::chromosomes::Extent;
use crate::survey::oddity::{OddLine, Oddity};
use crate::survey::records_seen::RecordsSeen;
use crate::survey::trouble::Trouble;
use bt_lines::{Input, Kind, ScriptSource};
use std::alloc::Global;
use std::process::Abort;
use std::test::Fail;

// A chromosome, the start of its first record and the largest of their ends.
type Seen = (&'static [u8], u64, u64);

// How many records, how long the longest is, and whether one has no strand.
type Totals = (u64, u64, bool);

// A text, its chromosomes and its totals.
type Good = (&'static [u8], &'static [Seen], Totals);

#[rattlefmt::skip]
const GOOD: [Good; 9] = [
    (b"", &[], (0, 0, false)),
    (b"# only a comment\ntrack name=x\n", &[], (0, 0, false)),
    (b"chr1\t5\t9", &[(b"chr1", 5, 9)], (1, 4, true)),
    (b"chr1\t5\t9\tn\t0\t+\nchr1\t5\t6\tn\t0\t-\n", &[(b"chr1", 5, 9)], (2, 4, false)),
    (b"chr1\t5\t9\tn\t0\t+\nchr1\t5\t6\tn\t0\t.\n", &[(b"chr1", 5, 9)], (2, 4, true)),
    (b"chr1\t5\t90\r\nchr1\t7\t8\r\nchr2\t0\t100\r\n", &[(b"chr1", 5, 90), (b"chr2", 0, 100)], (3, 100, true)),
    (b"b\t9\t10\tx\t0\t+\na\t3\t4\tx\t0\t+\n#x\na\t3\t9\tx\t0\t+\nc\t1\t2\tx\t0\t+\n",
        &[(b"b", 9, 10), (b"a", 3, 9), (b"c", 1, 2)], (4, 6, false)),
    (b"chr1\t0\t536870912\n", &[(b"chr1", 0, 536_870_912)], (1, 536_870_912, true)),
    (b"chr1\t00007\t000000009\nchr1\t8\t9\nchrX\t1\t2", &[(b"chr1", 7, 9), (b"chrX", 1, 2)], (3, 2, true)),
];

// What leaves a text to bedtools: the line, and how it is odd, what is wrong with it, or neither if a chromosome comes
// back there.
#[derive(Clone, Copy, Debug, PartialEq, Eq)]
enum Leaves {
    Odd(Oddity, u64),
    Wrong(Kind, u64),
    Back(u64),
    Unplaced(Kind),
}

#[rattlefmt::skip]
const TROUBLE: [(&[u8], Leaves); 16] = [
    (b"chr1\t5\t9\n\nchr1\t6\t9\n", Leaves::Odd(Oddity::Blank, 2)),
    (b"chr1\t5\t9\n\r", Leaves::Odd(Oddity::Blank, 2)),
    (b"\xef\xbb\xbfchr1\t5\t9\n", Leaves::Odd(Oddity::ByteOrderMark, 1)),
    (b"##fileformat=VCFv4.2\n", Leaves::Odd(Oddity::Vcf, 1)),
    (b"chr1\t5\t9\nchr1\t6\t9\t\0\n", Leaves::Odd(Oddity::Nul, 2)),
    (b"chr1\t5\t9\nchr1\t6\n", Leaves::Wrong(Kind::TooFewColumns, 2)),
    (b"#x\nchr1\t5\t9\nchr1\t4\t9\n", Leaves::Wrong(Kind::OutOfOrder, 3)),
    (b"chr1\t5\t5\n", Leaves::Wrong(Kind::EmptyFeature, 1)),
    (b"chr1\t5\t9\nchr2\t5\t9\n#x\nchr1\t6\t9\n", Leaves::Back(4)),
    (b"chr1\t5\t9\nchr2\t5\t9\nchr1\t6\t9\nchr2\t0\t1\n", Leaves::Back(3)),
    (b"Chrom\t5\t9\n", Leaves::Odd(Oddity::HeaderName, 1)),
    (b"chr1\t5\t9\nbrowserX\t5\t9\n", Leaves::Odd(Oddity::HeaderName, 2)),
    (b"chr1\t5\t9\n>\t5\t9\n", Leaves::Odd(Oddity::HeaderName, 2)),
    (b"chr1\t0\t536870913\n", Leaves::Odd(Oddity::FarEnd, 1)),
    (b"chr1\t0\t9\nchr1\t0\t536870913\nchr1\t1\t999999999999\n", Leaves::Odd(Oddity::FarEnd, 2)),
    (b"Chrom\t5\t999999999\n", Leaves::Odd(Oddity::HeaderName, 1)),
];

const STEPS: [usize; 3] = [1, 7, 8192];

fn survey(alloc: Global, text: &[u8], step: usize, good: Option<usize>) -> Result<Survey, Trouble> {
    let source = ScriptSource::new(text, step.max(1), good);
    let (survey, _source) = Survey::read(alloc, source);
    survey
}

fn has_chromosomes(survey: &Survey, want: &[Seen]) -> bool {
    if survey.chromosomes.count() != want.len() {
        return false;
    }
    for (at, seen) in want.iter().enumerate() {
        let extent = Extent {
            start: seen.1,
            stop: seen.2,
        };
        if at >= survey.chromosomes.count()
            || survey.chromosomes.name(at) != seen.0
            || survey.chromosomes.extent(at) != extent
        {
            return false;
        }
    }
    true
}

#[test]
fn good_texts_are_seen(rt: HostRuntime) -> Result<(), Fail> {
    for (text, chromosomes, totals) in &GOOD {
        for step in &STEPS {
            let survey = survey(rt.alloc(), text, *step, None)
                .ok()
                .ok_or("a survey")?;
            assert!(rt; has_chromosomes(&survey, chromosomes), "{text:?}");
            let want = RecordsSeen {
                count: totals.0,
                longest: totals.1,
                lacks_strand: totals.2,
            };
            assert_eq!(rt; survey.records, want, "{text:?}");
        }
    }
    Ok(())
}

fn why(trouble: Trouble) -> Leaves {
    match trouble {
        Trouble::Odd(OddLine { line, oddity }) => Leaves::Odd(oddity, line),
        Trouble::ComesBack { line } => Leaves::Back(line),
        Trouble::Refused(fault) => match fault.place {
            Some(place) if place.input == Input::First => Leaves::Wrong(fault.kind, place.line),
            _ => Leaves::Unplaced(fault.kind),
        },
    }
}

#[test]
fn troubles_are_found(rt: HostRuntime) -> Result<(), Fail> {
    for (text, want) in &TROUBLE {
        for step in &STEPS {
            let trouble = survey(rt.alloc(), text, *step, None)
                .err()
                .ok_or("a trouble")?;
            assert_eq!(rt; why(trouble), *want, "{text:?} by {step}");
        }
    }
    Ok(())
}

// What the bytes of a block show comes before what its records do.
#[test]
fn odd_bytes_of_a_block_are_found_first(rt: HostRuntime) -> Result<(), Fail> {
    let text = b"chr1\t0\t9\nchr1\t0\t536870913\nchr2\t1\t999\n\n";
    let whole = survey(rt.alloc(), text, 8192, None)
        .err()
        .ok_or("a trouble")?;
    assert_eq!(rt; why(whole), Leaves::Odd(Oddity::Blank, 4));
    let pieces = survey(rt.alloc(), text, 1, None).err().ok_or("a trouble")?;
    assert_eq!(rt; why(pieces), Leaves::Odd(Oddity::FarEnd, 2));
    Ok(())
}

#[test]
fn a_failed_read_is_told(rt: HostRuntime) -> Result<(), Fail> {
    let trouble = survey(rt.alloc(), b"chr1\t5\t9\nchr1\t6\t9\n", 3, Some(12))
        .err()
        .ok_or("a trouble")?;
    assert_eq!(rt; why(trouble), Leaves::Wrong(Kind::ReadFailed, 2));
    Ok(())
}
