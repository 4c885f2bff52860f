//! The rows of `tests/differences/differences.tsv` that a text can show, each refused by name: by a field of the survey or by
//! the verdict. `test_refusals.py` beside that file compares the names.

use crate::order::tests::genome;
use crate::tests::strings;
use crate::{Asked, InOrderOf, Oddity, Reason, Survey, Trouble, WordReason, lists_hits};
use bt_lines::{FromRead, Kind};
use bt_tool::{Command, plan};
use std::alloc::Global;
use std::process::Abort;
use std::test::Fail;

// By what a row is refused.
#[derive(Clone, Copy, Debug, PartialEq, Eq)]
enum Refused {
    // By its words.
    Words(WordReason),
    // By an odd line.
    Line(Oddity),
    // By a line that Dunekettle refuses.
    Fault(Kind),
    // By a chromosome that comes back.
    Back,
    // By the verdict.
    Verdict(Reason),
    // By the order of a record's hits, if it has several.
    Hits,
    // Not at all.
    Taken,
}

// The name of a row, its command line, the texts of its inputs, its genome file if it has one, and what refuses it.
type Row = (
    &'static str,
    &'static str,
    &'static [u8],
    &'static [u8],
    Option<&'static str>,
    Refused,
);

const TWO: &str = "intersect -a a -b b";

const PLAIN: &[u8] = b"chr1\t2\t6\n";

const BY_20: Option<&str> = Some("chr1\t20\nchr2\t8\n");

#[rattlefmt::skip]
const ROWS: [Row; 44] = [
    ("VCF with numeric IDs", "merge -i a", b"##fileformat=VCFv4.2\nchr1\t5\t120\tA\tG\t.\tPASS\t.\n", b"", None, Refused::Line(Oddity::Vcf)),
    ("other VCF", "merge -i a", b"##fileformat=VCFv4.2\nchr1\t5\trs12\tA\tG\t.\t.\t.\n", b"", None, Refused::Line(Oddity::Vcf)),
    ("order of chromosomes with `-sorted`", "intersect -sorted -a a -b b", b"chr2\t0\t6\nchr10\t2\t6\n", b"chr2\t0\t6\nchr10\t2\t6\n", None, Refused::Verdict(Reason::NotByBytes)),
    ("`-g` without `-sorted`", "intersect -a a -b b -g g", b"chr2\t0\t6\nchr1\t2\t6\n", PLAIN, BY_20, Refused::Verdict(Reason::NotByGenome)),
    ("unknown chromosome", "intersect -a a -b b -g g", b"chrX\t1\t5\n", PLAIN, BY_20, Refused::Verdict(Reason::NotByGenome)),
    ("empty chromosome name", TWO, b"\t2\t6\n", PLAIN, None, Refused::Fault(Kind::EmptyName)),
    ("compressed input", "merge -i a", b"\x1f\x8b\x08", b"", None, Refused::Line(Oddity::Gzip)),
    ("GFF and BAM as input", "merge -i a", b"chr1\tx\texon\t3\t6\t.\t+\t.\tid\n", b"", None, Refused::Fault(Kind::BadStart)),
    ("first line that begins with `chrom`", "merge -i a", b"chrom\tstart\tend\nchr1\t2\t6\n", b"", None, Refused::Fault(Kind::BadStart)),
    ("other lines that look like header lines", "merge -i a", b"Track1\t2\t6\nbrowserX\t2\t6\nchr 1\t2\t6\nchr1\t2\t6\n", b"", None, Refused::Line(Oddity::HeaderName)),
    ("byte order mark", "merge -i a", b"\xef\xbb\xbfchr1\t2\t6\n", b"", None, Refused::Line(Oddity::ByteOrderMark)),
    ("feature without a base", "merge -i a", b"chr1\t5\t5\nchr1\t7\t9\n", b"", None, Refused::Fault(Kind::EmptyFeature)),
    ("blank line that ends with CR", "merge -i a", b"chr1\t2\t6\r\n\r\nchr1\t8\t9\r\n", b"", None, Refused::Line(Oddity::Blank)),
    ("numbers above 999,999,999,999", "merge -i a", b"chr1\t1\t9999999999999\n", b"", None, Refused::Fault(Kind::BadStop)),
    ("end above 2,147,483,647", TWO, b"chr1\t10\t2147483658\n", PLAIN, None, Refused::Line(Oddity::FarEnd)),
    ("line that ends with CR CR LF", "merge -i a", b"chr1\t2\t6\ta\r\r\n", b"", None, Refused::Line(Oddity::DoubleReturn)),
    ("NUL in a line", "merge -i a", b"chr1\t2\t6\ta\0b\n", b"", None, Refused::Line(Oddity::Nul)),
    ("name that begins with the byte 1f, as a gzip file does", "merge -i a", b"\x1fx\t2\t6\n", b"", None, Refused::Line(Oddity::Gzip)),
    ("name `chrom` and CR", "merge -i a", b"chrom\r\t2\t6\n", b"", None, Refused::Line(Oddity::HeaderName)),
    ("`-s` without a strand in merge", "merge -s -i a", b"chr1\t2\t6\ta\t0\t.\n", b"", None, Refused::Words(WordReason::MergeByStrand)),
    ("`-s` after a change of chromosome", "merge -s -i a", PLAIN, b"", None, Refused::Words(WordReason::MergeByStrand)),
    ("`-s` with equal starts", "merge -s -i a", PLAIN, b"", None, Refused::Words(WordReason::MergeByStrand)),
    ("`-S` and a sixth column that is no strand", "merge -S + -i a", b"chr1\t10\t20\tpeak\t9.5\t0.01\nchr1\t15\t30\tpeak\t9.5\t+\n", b"", None, Refused::Verdict(Reason::NoStrand)),
    ("blank line in merge", "merge -i a", b"chr1\t2\t9\n\nchr1\t6\t12\n", b"", None, Refused::Line(Oddity::Blank)),
    ("`-d` above 2,147,483,647", "merge -d 2147483648 -i a", PLAIN, b"", None, Refused::Words(WordReason::LargeDistance)),
    ("`-g` in merge", "merge -i a -g g", b"Track1\t2\t6\nchr1\t2\t6\n", b"", BY_20, Refused::Line(Oddity::HeaderName)),
    ("blank line in complement", "complement -i a -g g", b"chr1\t2\t9\n\nchr1\t6\t12\n", b"", BY_20, Refused::Line(Oddity::Blank)),
    ("gap past the chromosome's length", "complement -i a -g g", b"chr1\t25\t30\n", b"", BY_20, Refused::Verdict(Reason::PastLength)),
    ("features in the wrong order", "complement -i a -g g", b"chr1\t11\t12\nchr1\t0\t6\n", b"", BY_20, Refused::Fault(Kind::OutOfOrder)),
    ("blank line with `-sorted`", "intersect -sorted -a a -b b", b"chr1\t2\t6\n\nchr1\t8\t9\n", PLAIN, None, Refused::Line(Oddity::Blank)),
    ("second input out of order with `-sorted -g`", "intersect -sorted -a a -b b -g g", PLAIN, b"chr2\t0\t6\nchr1\t2\t6\n", BY_20, Refused::Verdict(Reason::NotByGenome)),
    ("fraction", "intersect -f 0.333333334 -a a -b b", b"chr1\t0\t3\n", b"chr1\t0\t1\n", None, Refused::Verdict(Reason::LongForFraction)),
    ("fraction of 0", "intersect -f 0 -a a -b b", PLAIN, PLAIN, None, Refused::Words(WordReason::ZeroFraction)),
    ("`-s` without a strand", "intersect -s -a a -b b", b"chr1\t2\t6\ta\t0\t.\n", b"chr1\t2\t6\ta\t0\t+\n", None, Refused::Verdict(Reason::NoStrand)),
    ("order of hits without `-sorted`", TWO, b"chr1\t2\t6\n", b"chr1\t2\t6\nchr1\t3\t6\n", None, Refused::Hits),
    ("fraction in subtract", "subtract -f 0.333333334 -a a -b b", b"chr1\t0\t3\n", b"chr1\t0\t1\n", None, Refused::Verdict(Reason::LongForFraction)),
    ("`-s` without a strand in subtract", "subtract -s -a a -b b", b"chr1\t2\t6\ta\t0\t.\n", b"chr1\t2\t6\ta\t0\t.\n", None, Refused::Verdict(Reason::NoStrand)),
    ("order within a chromosome", "genomecov -bg -i a -g g", b"chr1\t10\t12\nchr1\t2\t6\n", b"", BY_20, Refused::Fault(Kind::OutOfOrder)),
    ("order of chromosomes in genomecov", "genomecov -bg -i a -g g", b"chr2\t0\t6\nchr1\t2\t6\n", b"", BY_20, Refused::Verdict(Reason::NotByGenome)),
    ("chromosomes without features, with `-bga`", "genomecov -bga -i a -g g", b"chr2\t2\t6\n", b"", BY_20, Refused::Verdict(Reason::EmptyNotLast)),
    ("chromosome that comes back", "genomecov -bg -i a -g g", b"chr1\t2\t6\nchr2\t2\t6\nchr1\t3\t9\n", b"", BY_20, Refused::Back),
    ("unknown chromosome in genomecov", "genomecov -bg -i a -g g", b"chrX\t1\t5\n", b"", BY_20, Refused::Verdict(Reason::NotByGenome)),
    ("feature without a base in genomecov", "genomecov -bg -i a -g g", b"chr1\t5\t5\n", b"", BY_20, Refused::Fault(Kind::EmptyFeature)),
    ("`-strand` without a strand", "genomecov -bg -strand + -i a -g g", b"chr1\t2\t6\ta\t0\t.\n", b"", BY_20, Refused::Verdict(Reason::NoStrand)),
];

// Some of the rows that Dunekettle takes though bedtools refuses or reorders: nothing refuses them.
#[rattlefmt::skip]
const TAKEN: [Row; 5] = [
    ("order of chromosomes", "merge -i a", b"chr2\t0\t6\nchr10\t2\t6\n", b"", None, Refused::Taken),
    ("numbers of columns that vary", "merge -i a", b"chr1\t2\t6\ta\nchr1\t4\t9\n", b"", None, Refused::Taken),
    ("tab at the end of a line", "merge -i a", b"chr1\t2\t6\t\n", b"", None, Refused::Taken),
    ("genome file with CR LF", "complement -i a -g g", PLAIN, b"", Some("chr1\t20\r\n"), Refused::Taken),
    ("limit on memory", "subtract -held 5 -a a -b b", PLAIN, PLAIN, None, Refused::Taken),
];

fn survey(alloc: Global, text: &[u8]) -> Result<Survey, Refused> {
    let (seen, _) = Survey::read(alloc, FromRead::new(text));
    match seen {
        Ok(survey) => Ok(survey),
        Err(Trouble::Odd(odd)) => Err(Refused::Line(odd.oddity)),
        Err(Trouble::Refused(fault)) => Err(Refused::Fault(fault.kind)),
        Err(Trouble::ComesBack { .. }) => Err(Refused::Back),
    }
}

fn verdict(
    alloc: Global,
    asked: &Asked,
    first: &Survey,
    second: Option<&Survey>,
    names: Option<&'static str>,
) -> Result<Result<InOrderOf, Reason>, Fail> {
    match names {
        Some(text) => {
            let genome = genome(alloc, text.as_bytes())?;
            Ok(asked.verdict(first, second, Some(&genome)))
        }
        None => Ok(asked.verdict(first, second, None)),
    }
}

fn judged(
    alloc: Global,
    asked: &Asked,
    first: &Survey,
    second: &Survey,
    names: Option<&'static str>,
) -> Result<Refused, Fail> {
    let verdict = match asked.command {
        Command::Intersect { .. } | Command::Subtract { .. } => {
            verdict(alloc, asked, first, Some(second), names)?
        }
        _ => verdict(alloc, asked, first, None, names)?,
    };
    match verdict {
        Err(reason) => Ok(Refused::Verdict(reason)),
        Ok(_) if lists_hits(asked.command) && !asked.is_sorted => Ok(Refused::Hits),
        Ok(_) => Ok(Refused::Taken),
    }
}

fn refusal(alloc: Global, row: &Row) -> Result<Refused, Fail> {
    let (_, line, first, second, names, _) = *row;
    let words = strings(alloc, line)?;
    let plan = plan(alloc, words.as_slice()).ok().ok_or("a plan")?;
    let asked = match Asked::of(words.as_slice(), &plan) {
        Ok(asked) => asked,
        Err(reason) => return Ok(Refused::Words(reason)),
    };
    let first = match survey(alloc, first) {
        Ok(first) => first,
        Err(refused) => return Ok(refused),
    };
    let second = match survey(alloc, second) {
        Ok(second) => second,
        Err(refused) => return Ok(refused),
    };
    judged(alloc, &asked, &first, &second, names)
}

#[test]
fn differences_are_refused(rt: HostRuntime) -> Result<(), Fail> {
    for row in &ROWS {
        assert_eq!(rt; refusal(rt.alloc(), row)?, row.5, "{}", row.0);
    }
    Ok(())
}

// The row "long lines".
#[test]
fn long_lines_are_refused(rt: HostRuntime) -> Result<(), Fail> {
    let mut text = Vec::from_slice(rt.alloc(), b"chr1\t2\t6\t")?;
    for _ in 0..1015 {
        text.push(b'n')?;
    }
    let long = survey(rt.alloc(), text.as_slice()).err();
    assert_eq!(rt; long, Some(Refused::Line(Oddity::Long)), "1,024 bytes");
    Ok(())
}

#[test]
fn others_are_taken(rt: HostRuntime) -> Result<(), Fail> {
    for row in &TAKEN {
        assert_eq!(rt; refusal(rt.alloc(), row)?, row.5, "{}", row.0);
    }
    Ok(())
}
