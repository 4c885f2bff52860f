//! Tables of verdicts.

use crate::order::tests::{chromosomes, genome};
use crate::tests::strings;
use crate::{Asked, InOrderOf, Reason, RecordsSeen, Survey, lists_hits};
use bt_tool::plan;
use std::alloc::{AllocError, Global};
use std::process::Abort;
use std::test::Fail;

// Some records: how many there are, the length of the longest, and whether one has no strand.
const FEW: RecordsSeen = RecordsSeen {
    count: 2,
    longest: 10,
    lacks_strand: false,
};

const BARE: RecordsSeen = RecordsSeen {
    count: 2,
    longest: 10,
    lacks_strand: true,
};

const LONG: RecordsSeen = RecordsSeen {
    count: 2,
    longest: 1_677_000,
    lacks_strand: false,
};

const SHORTER: RecordsSeen = RecordsSeen {
    count: 2,
    longest: 1_676_999,
    lacks_strand: false,
};

const MANY: RecordsSeen = RecordsSeen {
    count: 1_000_000,
    longest: 10,
    lacks_strand: false,
};

const FEWER: RecordsSeen = RecordsSeen {
    count: 999_999,
    longest: 10,
    lacks_strand: false,
};

// A text: its chromosomes, each with a record that ends at 10, and what its records show.
type Text = (&'static str, RecordsSeen);

// A command line and its text, its genome file if it has one, and the verdict.
type OneRow = (
    &'static str,
    Text,
    Option<&'static str>,
    Result<InOrderOf, Reason>,
);

const BY_BYTES: Result<InOrderOf, Reason> = Ok(InOrderOf::Bytes);

const BY_GENOME: Result<InOrderOf, Reason> = Ok(InOrderOf::GenomeFile);

const FOUND: Result<InOrderOf, Reason> = Ok(InOrderOf::Found);

const NATURAL: Option<&str> = Some("chr2\t20\nchr10\t20\n");

const SHORT: Option<&str> = Some("chr2\t9\nchr10\t20\n");

const ENDLESS: Option<&str> = Some("chr2\t20\nchr10\t2147483648\n");

#[rattlefmt::skip]
const OF_ONE: [OneRow; 29] = [
    ("merge -i a", ("chr1 chr10 chr2", FEW), None, BY_BYTES),
    ("merge -i a", ("HLA chr1", FEW), None, BY_BYTES),
    ("merge -i a", ("", FEW), None, BY_BYTES),
    ("merge -i a", ("chr2 chr10", FEW), None, FOUND),
    ("merge -i a -g g", ("chr2 chr10", FEW), NATURAL, BY_GENOME),
    ("merge -i a -g g", ("chr10", FEW), NATURAL, BY_GENOME),
    ("merge -i a -g g", ("chr2", FEW), SHORT, BY_GENOME),
    ("merge -i a -g g", ("chr10 chr2", FEW), NATURAL, Err(Reason::NotByGenome)),
    ("merge -i a -g g", ("chr2 chr3", FEW), NATURAL, Err(Reason::NotByGenome)),
    ("merge -i a", ("chr1", BARE), None, BY_BYTES),
    ("merge -i a", ("chr1", MANY), None, BY_BYTES),
    ("merge -i a -S +", ("chr1", FEW), None, BY_BYTES),
    ("merge -i a -S +", ("chr1", BARE), None, Err(Reason::NoStrand)),
    ("complement -i a -g g", ("chr2", FEW), NATURAL, BY_GENOME),
    ("complement -i a -g g", ("chr2", FEW), SHORT, Err(Reason::PastLength)),
    ("complement -i a -g g", ("chr10", FEW), SHORT, BY_GENOME),
    ("complement -i a -g g", ("chr10", FEW), ENDLESS, BY_GENOME),
    ("complement -i a -g g", ("chr2", FEW), None, Err(Reason::NoGenome)),
    ("genomecov -bg -i a -g g", ("chr10", FEW), NATURAL, BY_GENOME),
    ("genomecov -bg -i a -g g", ("chr2", FEW), SHORT, Err(Reason::PastLength)),
    ("genomecov -bg -i a -g g", ("chr2", FEW), ENDLESS, Err(Reason::LongChromosome)),
    ("genomecov -bg -i a -g g", ("chr2", FEW), None, Err(Reason::NoGenome)),
    ("genomecov -bg -i a -g g", ("chr10", FEWER), NATURAL, BY_GENOME),
    ("genomecov -bg -i a -g g", ("chr10", MANY), NATURAL, Err(Reason::ManyRecords)),
    ("genomecov -bg -strand + -i a -g g", ("chr10", FEW), NATURAL, BY_GENOME),
    ("genomecov -bg -strand + -i a -g g", ("chr10", BARE), NATURAL, Err(Reason::NoStrand)),
    ("genomecov -bga -i a -g g", ("chr2", FEW), NATURAL, BY_GENOME),
    ("genomecov -bga -i a -g g", ("chr10", FEW), NATURAL, Err(Reason::EmptyNotLast)),
    ("bamtobed -i a", ("chr1", FEW), None, Err(Reason::NoSurvey)),
];

// A command line and its two texts, its genome file if it has one, and the verdict.
type TwoRow = (
    &'static str,
    Text,
    Text,
    Option<&'static str>,
    Result<InOrderOf, Reason>,
);

#[rattlefmt::skip]
const OF_TWO: [TwoRow; 29] = [
    ("intersect -a a -b b", ("chr1 chr2", FEW), ("chr2 chr3", FEW), None, BY_BYTES),
    ("intersect -a a -b b", ("chr2 chr10", FEW), ("chr2 chrX chr10", FEW), None, FOUND),
    ("intersect -a a -b b", ("chr1", FEW), ("chr2 chr10", FEW), None, FOUND),
    ("intersect -a a -b b", ("chr2 chr10", FEW), ("chr10 chr2", FEW), None, Err(Reason::NoCommonOrder)),
    ("intersect -sorted -a a -b b", ("chr1 chr2", FEW), ("chr2 chr3", FEW), None, BY_BYTES),
    ("intersect -sorted -a a -b b", ("chr2 chr10", FEW), ("chr2 chr10", FEW), None, Err(Reason::NotByBytes)),
    ("intersect -sorted -a a -b b -g g", ("chr2 chr10", FEW), ("chr2 chr10", FEW), NATURAL, BY_GENOME),
    ("intersect -sorted -a a -b b -g g", ("chr2", FEW), ("chr10 chr2", FEW), NATURAL, Err(Reason::NotByGenome)),
    ("intersect -a a -b b -g g", ("chr10 chr2", FEW), ("chr2", FEW), NATURAL, Err(Reason::NotByGenome)),
    ("intersect -a a -b b -g g", ("chr2", FEW), ("chr2", FEW), SHORT, BY_GENOME),
    ("intersect -a a -b b", ("chr1", FEW), ("1", FEW), None, Err(Reason::MixedNames)),
    ("intersect -a a -b b", ("HLA chr1", FEW), ("chr1", FEW), None, Err(Reason::MixedNames)),
    ("intersect -a a -b b", ("chr1", FEW), ("chr01", FEW), None, Err(Reason::MixedNames)),
    ("intersect -a a -b b", ("chr0", FEW), ("chr1", FEW), None, Err(Reason::MixedNames)),
    ("intersect -a a -b b", ("chr1", FEW), ("CHR1 Chrom1", FEW), None, BY_BYTES),
    ("intersect -a a -b b", ("01", FEW), ("1 ch", FEW), None, BY_BYTES),
    ("intersect -a a -b b", ("chr1", FEW), ("", FEW), None, BY_BYTES),
    ("intersect -a a -b b", ("chr1", FEW), ("chr1", BARE), None, BY_BYTES),
    ("intersect -s -a a -b b", ("chr1", FEW), ("chr1", FEW), None, BY_BYTES),
    ("intersect -s -a a -b b", ("chr1", FEW), ("chr1", BARE), None, Err(Reason::NoStrand)),
    ("subtract -s -a a -b b", ("chr1", BARE), ("chr1", FEW), None, Err(Reason::NoStrand)),
    ("intersect -f 0.5 -a a -b b", ("chr1", SHORTER), ("chr1", FEW), None, BY_BYTES),
    ("intersect -f 0.5 -a a -b b", ("chr1", LONG), ("chr1", FEW), None, Err(Reason::LongForFraction)),
    ("intersect -f 0.5 -a a -b b", ("chr1", FEW), ("chr1", LONG), None, BY_BYTES),
    ("intersect -f 0.5 -r -a a -b b", ("chr1", FEW), ("chr1", LONG), None, Err(Reason::LongForFraction)),
    ("intersect -f 1.0 -r -a a -b b", ("chr1", LONG), ("chr1", LONG), None, BY_BYTES),
    ("subtract -f 0.12345 -a a -b b", ("chr1", FEW), ("chr1", FEW), None, Err(Reason::LongForFraction)),
    ("subtract -A -a a -b b", ("chr1", LONG), ("chr1", MANY), None, BY_BYTES),
    ("maskfasta -fi a -bed b -fo c", ("chr1", FEW), ("chr1", FEW), None, Err(Reason::NoSurvey)),
];

fn survey(alloc: Global, text: Text) -> Result<Survey, AllocError> {
    let (names, records) = text;
    Ok(Survey {
        chromosomes: chromosomes(alloc, names)?,
        records,
    })
}

fn asked(alloc: Global, line: &str) -> Result<Asked, Fail> {
    let words = strings(alloc, line)?;
    let plan = plan(alloc, words.as_slice()).ok().ok_or("a plan")?;
    Ok(Asked::of(words.as_slice(), &plan).ok().ok_or("no reason")?)
}

fn verdict_of(
    alloc: Global,
    line: &str,
    first: &Survey,
    second: Option<&Survey>,
    names: Option<&'static str>,
) -> Result<Result<InOrderOf, Reason>, Fail> {
    let asked = asked(alloc, line)?;
    match names {
        Some(text) => {
            let genome = genome(alloc, text.as_bytes())?;
            Ok(asked.verdict(first, second, Some(&genome)))
        }
        None => Ok(asked.verdict(first, second, None)),
    }
}

#[test]
fn one_text_has_these_verdicts(rt: HostRuntime) -> Result<(), Fail> {
    for row in &OF_ONE {
        has_this_verdict(&rt, rt.alloc(), row)?;
    }
    Ok(())
}

// Whether the text of a row has its verdict.
fn has_this_verdict(rt: &impl Abort, alloc: Global, row: &OneRow) -> Result<(), Fail> {
    let (line, text, names, want) = row;
    let text = survey(alloc, *text)?;
    let got = verdict_of(alloc, line, &text, None, *names)?;
    assert_eq!(rt; got, *want, "{line}");
    Ok(())
}

#[test]
fn two_texts_have_these_verdicts(rt: HostRuntime) -> Result<(), Fail> {
    for row in &OF_TWO {
        have_this_verdict(&rt, rt.alloc(), row)?;
    }
    Ok(())
}

// Whether the two texts of a row have its verdict.
fn have_this_verdict(rt: &impl Abort, alloc: Global, row: &TwoRow) -> Result<(), Fail> {
    let (line, first, second, names, want) = row;
    let first = survey(alloc, *first)?;
    let second = survey(alloc, *second)?;
    let got = verdict_of(alloc, line, &first, Some(&second), *names)?;
    assert_eq!(rt; got, *want, "{line}");
    Ok(())
}

// Command lines, and whether the lines of a record's hits may differ.
const LISTS: [(&str, bool); 8] = [
    ("intersect -a a -b b", true),
    ("intersect -wb -a a -b b", true),
    ("intersect -wa -wb -a a -b b", true),
    ("intersect -wo -a a -b b", true),
    ("intersect -wa -a a -b b", false),
    ("intersect -u -a a -b b", false),
    ("subtract -a a -b b", false),
    ("merge -i a", false),
];

#[test]
fn hits_are_listed(rt: HostRuntime) -> Result<(), Fail> {
    for (line, want) in &LISTS {
        let asked = asked(rt.alloc(), line)?;
        assert_eq!(rt; lists_hits(asked.command), *want, "{line}");
    }
    Ok(())
}

// The verdict on a text without records, with a genome file whose one name has this many bytes.
fn verdict_by_name(
    alloc: Global,
    line: &str,
    count: u64,
) -> Result<Result<InOrderOf, Reason>, Fail> {
    let mut text = Vec::new(alloc);
    for _ in 0..count {
        text.push(b'n')?;
    }
    text.extend_from_slice(b"\t5\n")?;
    let genome = genome(alloc, text.as_slice())?;
    let first = survey(alloc, ("", FEW))?;
    Ok(asked(alloc, line)?.verdict(&first, None, Some(&genome)))
}

#[test]
fn long_names_are_found(rt: HostRuntime) -> Result<(), Fail> {
    for (line, count, want) in [
        ("complement -i a -g g", 900, BY_GENOME),
        ("complement -i a -g g", 901, Err(Reason::LongName)),
        ("genomecov -bg -i a -g g", 901, BY_GENOME),
    ] {
        let got = verdict_by_name(rt.alloc(), line, count)?;
        assert_eq!(rt; got, want, "{line}, {count}");
    }
    Ok(())
}
