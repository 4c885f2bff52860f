//! Tables of command lines.

use crate::{Asked, WordReason};
use bt_tool::plan;
use std::alloc::{AllocError, Global};
use std::process::Abort;
use std::test::Fail;

// The words of a line, which spaces divide.
pub(crate) fn strings(alloc: Global, line: &str) -> Result<Vec<String>, AllocError> {
    let mut words = Vec::new(alloc);
    for word in line.split(' ') {
        words.push(String::from_str(alloc, word)?)?;
    }
    Ok(words)
}

// A command line, and why bedtools takes it; without a reason, whether `-sorted` is given.
type Row = (&'static str, Result<bool, WordReason>);

// The rows of differences.tsv that words can show, and their neighbours.
const ROWS: [Row; 31] = [
    ("merge", Ok(false)),
    ("merge -i a", Ok(false)),
    ("merge -i a -s", Err(WordReason::MergeByStrand)),
    ("merge -i a -S +", Ok(false)),
    ("merge -i a -d 2147483647", Ok(false)),
    ("merge -i a -d 2147483648", Err(WordReason::LargeDistance)),
    ("merge -i a -i b", Err(WordReason::GivenTwice)),
    ("merge -i -i", Ok(false)),
    ("merge -i -s -g -s", Ok(false)),
    ("merge -s -i a -s", Err(WordReason::GivenTwice)),
    ("complement -g g", Err(WordReason::NoInput)),
    ("complement -g -i", Err(WordReason::NoInput)),
    ("complement -i a -g g -L", Ok(false)),
    ("intersect -a a -b b", Ok(false)),
    ("intersect -sorted -a a -b b", Ok(true)),
    ("intersect -a -sorted -b b", Ok(false)),
    ("intersect -a a -b b -f 0", Err(WordReason::ZeroFraction)),
    (
        "intersect -a a -b b -f 0.000000000",
        Err(WordReason::ZeroFraction),
    ),
    ("intersect -a a -b b -f 0.000000001", Ok(false)),
    ("intersect -a a -b b -held 5", Ok(false)),
    ("subtract -a a -b b -f 0 -s", Err(WordReason::ZeroFraction)),
    ("subtract -a a -b b -A", Ok(false)),
    ("genomecov -bg -i a -g g", Ok(false)),
    ("genomecov -bg -g g", Err(WordReason::NoInput)),
    ("genomecov -bg -strand + -i a -g g", Ok(false)),
    (
        "genomecov -bga -strand + -i a -g g",
        Err(WordReason::ZerosOfStrand),
    ),
    (
        "bamtobed -i a -split -cigar",
        Err(WordReason::CigarOfBlocks),
    ),
    ("bamtobed -cigar", Ok(false)),
    ("maskfasta -fi a -bed b -fo -", Err(WordReason::NoOutput)),
    (
        "maskfasta -fi a -bed b -fo c -fullHeader",
        Err(WordReason::WholeHeader),
    ),
    ("maskfasta -fi a -bed b -fo c -soft", Ok(false)),
];

fn answer(alloc: Global, words: &[String]) -> Result<Result<bool, WordReason>, Fail> {
    let plan = plan(alloc, words).ok().ok_or("a plan")?;
    match Asked::of(words, &plan) {
        Ok(asked) => Ok(Ok(asked.is_sorted)),
        Err(reason) => Ok(Err(reason)),
    }
}

#[test]
fn words_have_these_reasons(rt: HostRuntime) -> Result<(), Fail> {
    for (line, want) in &ROWS {
        let words = strings(rt.alloc(), line)?;
        let got = answer(rt.alloc(), words.as_slice())?;
        assert_eq!(rt; got, *want, "{line}");
    }
    Ok(())
}

// A merge of three words and as many more, all of them one option.
fn merge_with(alloc: Global, more: usize) -> Result<Vec<String>, AllocError> {
    let mut words = strings(alloc, "merge -i a")?;
    for _ in 0..more {
        words.push(String::from_str(alloc, "-s")?)?;
    }
    Ok(words)
}

#[test]
fn more_than_64_words_are_too_many(rt: HostRuntime) -> Result<(), Fail> {
    let most = merge_with(rt.alloc(), 61)?;
    assert_eq!(rt;
        answer(rt.alloc(), most.as_slice())?,
        Err(WordReason::GivenTwice),
        "64 words"
    );
    let more = merge_with(rt.alloc(), 62)?;
    assert_eq!(rt;
        answer(rt.alloc(), more.as_slice())?,
        Err(WordReason::TooManyWords),
        "65 words"
    );
    Ok(())
}
