mod block_tests;
mod device_tests;
mod output_tests;

use crate::{
    Fault, Input, Kind, Line, LineEnd, LineReader, Names, Place, ScriptSource, Source, columns,
    eight_digits, fault_line, few_digits, first_tab, number,
};
use std::alloc::{AllocError, Global};
use std::process::Abort;
use std::test::Fail;

fn holds(rt: &impl Abort, it: bool, name: &str) {
    assert!(rt; it, "{name}");
}

#[test]
fn numbers(rt: HostRuntime) {
    assert_eq!(rt; number(b"007"), Some(7));
    assert_eq!(rt; number(b"0000000000000000000000012"), Some(12));
    assert_eq!(rt; number(b"999999999999"), Some(999_999_999_999));
    assert_eq!(rt; number(b"1000000000000"), None);
    assert_eq!(rt; number(b""), None);
    assert_eq!(rt; number(b"+1"), None);
    assert_eq!(rt; eight_digits(b"12345678"), Some(12_345_678));
    assert_eq!(rt; eight_digits(b"1234567:"), None);
    assert_eq!(rt; few_digits(b"98765432"), (98_765_432, 8));
    assert_eq!(rt; few_digits(b"12\t45678"), (12, 2));
}

// Whether a text has these columns, and then no more.
fn has_columns(text: &[u8], want: &[&[u8]]) -> bool {
    let mut rest = columns(text);
    for column in want {
        match rest.next() {
            Some(found) if found == *column => {}
            _ => return false,
        }
    }
    rest.next().is_none()
}

#[test]
fn columns_of_texts(rt: HostRuntime) {
    assert_eq!(rt; first_tab(b"chr1\t5\t9"), Some(4));
    assert_eq!(rt; first_tab(b"chr1"), None);
    assert!(rt; has_columns(b"", &[b""]));
    assert!(rt; has_columns(b"a\t\tb\t", &[b"a", b"", b"b", b""]));
}

// A line's text and how it ends.
type Want<'a> = (&'a [u8], LineEnd);

// A text and its lines.
type Divided = (&'static [u8], &'static [Want<'static>]);

#[rattlefmt::skip]
const TEXTS: [Divided; 9] = [
    (b"", &[]),
    (b"\n", &[(b"", LineEnd::Lf)]),
    (b"\r\n", &[(b"", LineEnd::CrLf)]),
    (b"\r\r\n", &[(b"\r", LineEnd::CrLf)]),
    (b"\r", &[(b"", LineEnd::Cr)]),
    (b"a\r", &[(b"a", LineEnd::Cr)]),
    (b"a\rb\n", &[(b"a\rb", LineEnd::Lf)]),
    (b"a\nb", &[(b"a", LineEnd::Lf), (b"b", LineEnd::Absent)]),
    (b"\n\nchr1\r\n", &[(b"", LineEnd::Lf), (b"", LineEnd::Lf), (b"chr1", LineEnd::CrLf)]),
];

// A reader of a text that comes in pieces of this many bytes.
fn reader_of<'a>(alloc: Global, text: &'a [u8], step: usize) -> LineReader<ScriptSource<'a>> {
    let source = ScriptSource::new(text, step.max(1), None);
    LineReader::new(alloc, source, Input::First)
}

// Whether this is the line of this number.
fn is_it(line: &Line<'_>, number: u64, (text, ending): Want<'_>) -> bool {
    line.number == number && line.ending == ending && line.text == text
}

// Whether these lines are given, counted from 1.
fn gives_all<S: Source>(reader: &mut LineReader<S>, want: &[Want<'_>]) -> bool {
    let mut number = 0u64;
    for line in want {
        number = number.wrapping_add(1);
        match reader.next() {
            Ok(Some(given)) if is_it(&given, number, *line) => {}
            _ => return false,
        }
    }
    true
}

fn has_ended<S: Source>(reader: &mut LineReader<S>) -> bool {
    matches!(reader.next(), Ok(None))
}

// Whether a text that comes in pieces of each of these sizes gives its lines, then no more, and is
// read whole.
fn is_divided(alloc: Global, text: &[u8], want: &[Want<'_>], steps: &[usize]) -> bool {
    for step in steps {
        let mut reader = reader_of(alloc, text, *step);
        let are_all = gives_all(&mut reader, want) && has_ended(&mut reader);
        let has_ended = are_all && has_ended(&mut reader) && reader.input() == Input::First;
        if reader.into_source().given() != text.len() || !has_ended {
            return false;
        }
    }
    true
}

fn check_lines(rt: &impl Abort, alloc: Global, rows: &[Divided]) {
    for (text, want) in rows {
        assert!(rt; is_divided(alloc, text, want, &[1, 7, 8192]), "{text:?}");
    }
}

#[test]
fn lines_of_texts(rt: HostRuntime) {
    check_lines(&rt, rt.alloc(), &TEXTS);
}

// Whether this many lines are given.
fn gives_some<S: Source>(reader: &mut LineReader<S>, count: u64) -> bool {
    for _ in 0..count {
        if !matches!(reader.next(), Ok(Some(_))) {
            return false;
        }
    }
    true
}

// Whether of a text with this many good bytes this many lines are given, and then the failed read is
// reported, each time that a line is requested.
fn fails_after(alloc: Global, text: &[u8], good: usize, lines: u64) -> bool {
    let mut reader = LineReader::new(alloc, ScriptSource::new(text, 7, Some(good)), Input::Second);
    let are_given = gives_some(&mut reader, lines);
    let (input, line) = (Input::Second, lines.wrapping_add(1));
    let (kind, place) = (Kind::ReadFailed, Some(Place { input, line }));
    let want = Some(Fault { kind, place });
    let is_reported = reader.next().err() == want && reader.next().err() == want;
    let source = reader.into_source();
    are_given && is_reported && source.given() == good && source.failed()
}

// How many complete lines the first 0, 1, .. bytes of the text have.
const WHOLE_LINES: [u64; 8] = [0, 0, 0, 1, 1, 2, 2, 2];

#[test]
fn a_source_that_fails_at_each_byte(rt: HostRuntime) {
    for (good, lines) in WHOLE_LINES.iter().enumerate() {
        holds(
            &rt,
            fails_after(rt.alloc(), b"ab\n\r\ncd", good, *lines),
            "failed",
        );
    }
}

// The kind of a fault, its place, and what its line says after the name of the tool.
type Reported = (Kind, Option<(Input, u64)>, &'static [u8]);

#[rattlefmt::skip]
const FAULT_LINES: [Reported; 13] = [
    (Kind::OutOfOrder, Some((Input::First, 3)), b"a.bed:3: record is out of order\n"),
    (Kind::RepeatedChrom, Some((Input::Genome, 2)), b"g.txt:2: chromosome is repeated\n"),
    (Kind::BadStart, Some((Input::Second, 12)), b"b.bed:12: start is not a number\n"),
    (Kind::BadFlag, Some((Input::First, 1)), b"a.bed:1: flag is not a number\n"),
    (Kind::BadPosition, Some((Input::First, 2)), b"a.bed:2: position is not a number\n"),
    (Kind::BadQuality, Some((Input::First, 3)), b"a.bed:3: mapping quality is not a number\n"),
    (Kind::BadCigar, Some((Input::First, 4)), b"a.bed:4: CIGAR is malformed\n"),
    (Kind::StopTooLarge, Some((Input::First, 5)), b"a.bed:5: end is too large\n"),
    (Kind::TextBeforeHeader, Some((Input::First, 1)),
        b"a.bed:1: text before the first header\n"),
    (Kind::NoSequence, Some((Input::Second, 1)), b"b.bed:1: no such sequence from here on\n"),
    (Kind::TooManyHeld, Some((Input::Second, 3)), b"b.bed:3: too many open records\n"),
    (Kind::WriteFailed, None, b"writing failed\n"),
    (Kind::NoMemory, None, b"no memory\n"),
];

// What the line of a fault says after the name of the tool, if its kind goes with its place.
fn is_reported(alloc: Global, (kind, place, want): &Reported) -> Result<bool, AllocError> {
    let place = match place {
        Some((input, line)) => Some(Place {
            input: *input,
            line: *line,
        }),
        None => None,
    };
    if place.is_some() == matches!(kind, Kind::WriteFailed | Kind::NoMemory) {
        return Ok(false);
    }
    let names = Names {
        genome: b"g.txt",
        first: b"a.bed",
        second: b"b.bed",
    };
    let line = fault_line(alloc, b"merge", &names, &Fault { kind: *kind, place })?;
    Ok(line.strip_prefix(b"bedtools merge: ") == Some(*want))
}

#[test]
fn fault_lines(rt: HostRuntime) -> Result<(), Fail> {
    for row in &FAULT_LINES {
        assert!(rt; is_reported(rt.alloc(), row)?, "{:?}", row.0);
    }
    Ok(())
}
