//! Lines round the borders of blocks.

use crate::tests::{Want, gives_some, has_ended, holds, is_divided, is_it, reader_of};
use crate::{BLOCK, Line, LineEnd, LineReader, Source};
use std::alloc::{AllocError, Global};
use std::test::Fail;

// This many bytes `x`, and then an ending.
pub(crate) fn long_line(
    alloc: Global,
    length: usize,
    ending: &[u8],
) -> Result<Vec<u8>, AllocError> {
    let mut text = Vec::new(alloc);
    text.resize(length, b'x')?;
    text.extend_from_slice(ending)?;
    Ok(text)
}

// What follows a long line, how that line ends, and how many lines the text has: the second is `b`.
#[rattlefmt::skip]
const ENDINGS: [(&[u8], LineEnd, usize); 5] = [
    (b"\r\n", LineEnd::CrLf, 1), (b"\r\nb", LineEnd::CrLf, 2), (b"\nb", LineEnd::Lf, 2),
    (b"\r", LineEnd::Cr, 1), (b"", LineEnd::Absent, 1),
];

// Whether a line of this many bytes is given with each ending, in pieces of each size.
fn is_given(alloc: Global, length: usize) -> Result<bool, AllocError> {
    let long = long_line(alloc, length, b"")?;
    for (ending, kind, count) in &ENDINGS {
        let text = long_line(alloc, length, ending)?;
        let lines: [Want; 2] = [(long.as_slice(), *kind), (b"b", LineEnd::Absent)];
        let lines = lines.get(..*count).unwrap_or(&[]);
        if !is_divided(alloc, text.as_slice(), lines, &[1, 7, 8192]) {
            return Ok(false);
        }
    }
    Ok(true)
}

#[test]
fn one_line_across_the_border_of_a_block(rt: HostRuntime) -> Result<(), Fail> {
    for length in [8190, 8191, 8192, 8193, 16383, 16384, 20000] {
        assert!(rt; is_given(rt.alloc(), length)?, "of {length}");
    }
    Ok(())
}

// Whether a line of this many bytes is given before another.
fn is_long_given(alloc: Global, length: usize) -> Result<bool, AllocError> {
    let long = long_line(alloc, length, b"")?;
    let text = long_line(alloc, length, b"\nb")?;
    let lines: [Want; 2] = [(long.as_slice(), LineEnd::Lf), (b"b", LineEnd::Absent)];
    Ok(is_divided(alloc, text.as_slice(), &lines, &[BLOCK]))
}

// With ample memory no line is too long.
#[test]
fn lines_of_megabytes_are_given(rt: HostRuntime) -> Result<(), Fail> {
    for length in [1_000_000, 1_048_577, 5_000_000] {
        assert!(rt; is_long_given(rt.alloc(), length)?, "of {length}");
    }
    Ok(())
}

// How many bytes of ten thousand lines of one letter are read in blocks for this many lines.
fn read_for(alloc: Global, lines: u64) -> Result<Option<usize>, AllocError> {
    let mut text = Vec::new(alloc);
    for _ in 0..10_000 {
        text.extend_from_slice(b"x\n")?;
    }
    let mut reader = reader_of(alloc, text.as_slice(), BLOCK);
    let are_given = gives_some(&mut reader, lines);
    let given = reader.into_source().given();
    Ok(if are_given { Some(given) } else { None })
}

#[test]
fn nothing_is_read_while_a_whole_line_is_held(rt: HostRuntime) -> Result<(), Fail> {
    for lines in [1, 2, 4096] {
        assert_eq!(rt; read_for(rt.alloc(), lines)?, Some(8192), "for {lines}");
    }
    Ok(())
}

// Whether a line is this one, counted from 1, or there is none if none is wanted.
fn is_wanted(line: Option<Line<'_>>, want: Option<(u64, Want<'_>)>) -> bool {
    match (line, want) {
        (Some(line), Some((number, want))) => is_it(&line, number, want),
        (None, None) => true,
        _ => false,
    }
}

// Whether these two lines, or none, are the next ones that are buffered. They are consumed.
fn takes_two<S: Source>(
    reader: &mut LineReader<S>,
    first: Option<(u64, Want<'_>)>,
    second: Option<(u64, Want<'_>)>,
) -> bool {
    let mut lines = reader.buffered();
    let is_first = is_wanted(lines.next(), first);
    let is_second = is_wanted(lines.next(), second);
    let consumed = lines.consumed();
    reader.consume(consumed);
    is_first && is_second
}

// Whether a line is read, and then the buffered lines are these bytes.
fn gives_rest<S: Source>(reader: &mut LineReader<S>, rest: &[u8]) -> bool {
    matches!(reader.fill(), Ok(true)) && reader.buffered().rest() == rest
}

// Whether a line of this many bytes is given next.
fn gives_length<S: Source>(reader: &mut LineReader<S>, length: usize) -> bool {
    matches!(reader.next(), Ok(Some(line)) if line.text.len() == length)
}

#[test]
fn buffered_lines_are_given_in_order(rt: HostRuntime) {
    let mut reader = reader_of(rt.alloc(), b"a\nbc\r\n\nd\n", BLOCK);
    let first: (u64, Want) = (1, (b"a", LineEnd::Lf));
    let second: (u64, Want) = (2, (b"bc", LineEnd::CrLf));
    let are_given = gives_rest(&mut reader, b"a\nbc\r\n\nd\n")
        && takes_two(&mut reader, Some(first), Some(second))
        && reader.lines() == 2
        && gives_length(&mut reader, 0)
        && gives_rest(&mut reader, b"d\n");
    let _ = reader.into_source();
    holds(&rt, are_given, "four lines");
}

// A last line without a line feed is buffered like another, and then comes the end.
#[test]
fn a_last_line_is_buffered(rt: HostRuntime) {
    let mut reader = reader_of(rt.alloc(), b"a\nb\r", BLOCK);
    let last: (u64, Want) = (2, (b"b", LineEnd::Cr));
    let are_given = gives_length(&mut reader, 1)
        && matches!(reader.fill(), Ok(true))
        && takes_two(&mut reader, Some(last), None)
        && matches!(reader.fill(), Ok(false))
        && has_ended(&mut reader);
    let _ = reader.into_source();
    holds(&rt, are_given, "two lines");
}

// A line that is longer than a block is buffered alone, and the lines after it come next.
#[test]
fn a_long_line_is_buffered_alone(rt: HostRuntime) -> Result<(), Fail> {
    let text = long_line(rt.alloc(), 20000, b"\nb\nc\n")?;
    let mut reader = reader_of(rt.alloc(), text.as_slice(), 8192);
    let are_given = gives_rest(&mut reader, long_line(rt.alloc(), 20000, b"\n")?.as_slice())
        && gives_length(&mut reader, 20000)
        && gives_rest(&mut reader, b"b\nc\n");
    let _ = reader.into_source();
    holds(&rt, are_given, "a long line");
    Ok(())
}
