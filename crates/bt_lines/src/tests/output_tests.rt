//! What an output buffers, and what reaches its sink.

use crate::tests::block_tests::long_line;
use crate::tests::holds;
use crate::{BLOCK, Fault, Out, ScriptSink, Sink, put_both, put_column, put_line, write_failed};
use std::alloc::{AllocError, Global};
use std::process::Abort;
use std::test::Fail;

type Answer = Result<(), Fault>;

// An output to which this many bytes were put.
fn filled(alloc: Global, count: usize) -> Result<Out<ScriptSink>, Fail> {
    let mut output = Out::new(ScriptSink::new(alloc, BLOCK, None));
    output.put(long_line(alloc, count, b"")?.as_slice())?;
    Ok(output)
}

// How many bytes the sink takes of two pieces of these lengths: whole blocks.
fn taken_of(alloc: Global, (first, second): (usize, usize)) -> Result<usize, Fail> {
    let mut output = filled(alloc, first)?;
    output.put(long_line(alloc, second, b"")?.as_slice())?;
    Ok(output.into_sink().taken().len())
}

// The lengths of two pieces, and how many bytes of them the sink takes.
const WHOLE_BLOCKS: [((usize, usize), usize); 5] = [
    ((8192, 0), 0),
    ((8191, 1), 0),
    ((8192, 1), 8192),
    ((10, 8190), 8192),
    ((1, 20000), 16384),
];

#[test]
fn whole_blocks_reach_the_sink(rt: HostRuntime) -> Result<(), Fail> {
    for (lengths, want) in &WHOLE_BLOCKS {
        assert_eq!(rt; taken_of(rt.alloc(), *lengths)?, *want, "{lengths:?}");
    }
    let one_put = filled(rt.alloc(), 10)?.into_sink();
    assert_eq!(rt; one_put.taken(), b"".as_slice());
    Ok(())
}

// Whether a failed write is reported by each of these calls.
pub(crate) fn fails_again<K: Sink>(output: &mut Out<K>) -> bool {
    let want = Some(write_failed());
    output.flush().err() == want
        && output.put(b"more").err() == want
        && output.flush().err() == want
}

// Puts a text in pieces of these lengths. A failure is reported again at the end.
fn put_pieces(output: &mut Out<ScriptSink>, text: &[u8], lengths: &[usize]) {
    let mut rest = text;
    for length in lengths {
        let (piece, after) = rest.split_at((*length).min(rest.len()));
        let _ = output.put(piece);
        rest = after;
    }
}

// A text, the lengths of the pieces in which it is put, and how many bytes of one the sink takes.
type Pieces<'a> = (&'a [u8], &'a [usize], usize);

// Whether a sink that takes this many bytes has the first bytes of the text, and a failure is reported
// from then on if that isn't all.
fn takes_prefix(alloc: Global, (text, lengths, step): Pieces<'_>, good: usize) -> bool {
    let mut output = Out::new(ScriptSink::new(alloc, step.max(1), Some(good)));
    put_pieces(&mut output, text, lengths);
    let is_cut = good < text.len();
    let is_reported = if is_cut {
        fails_again(&mut output)
    } else {
        output.flush().is_ok()
    };
    let sink = output.into_sink();
    is_reported
        && sink.failed() == is_cut
        && text.starts_with(sink.taken())
        && sink.taken().len() == good
}

fn check_prefixes(rt: &impl Abort, alloc: Global, text: Pieces<'_>, counts: &[usize]) {
    for good in counts {
        assert!(rt; takes_prefix(alloc, text, *good), "{good} bytes");
    }
}

#[test]
fn a_sink_that_fails_at_each_byte(rt: HostRuntime) {
    let counts = [0, 1, 2, 3, 4, 5, 6, 7, 8, 9, 10, 11];
    for step in [1, 7, 8192] {
        let text: Pieces = (b"chr1\t10\t20\n", &[4, 0, 4, 3], step);
        check_prefixes(&rt, rt.alloc(), text, &counts);
    }
}

#[test]
fn a_sink_that_fails_round_a_block(rt: HostRuntime) -> Result<(), Fail> {
    let text = long_line(rt.alloc(), 24_999, b"\n")?;
    let counts = [0, 1, 5000, 8191, 8192, 8193, 10_000, 15_000, 24_999];
    let pieces = (text.as_slice(), [5000, 5000, 14_000, 1000].as_slice(), 700);
    check_prefixes(&rt, rt.alloc(), pieces, &counts);
    Ok(())
}

// An output with room for this many bytes in its block, whose sink fails at the last byte of that.
fn nearly_full(alloc: Global, room: usize) -> Result<Out<ScriptSink>, Fail> {
    let mut output = Out::new(ScriptSink::new(alloc, BLOCK, Some(BLOCK - 1)));
    output.put(long_line(alloc, BLOCK.saturating_sub(room), b"")?.as_slice())?;
    Ok(output)
}

// The answers of the calls that put five bytes, if there is room for this many.
fn across_border(alloc: Global, room: usize) -> Result<[Answer; 4], Fail> {
    let put = nearly_full(alloc, room)?.put(b"chr1\n");
    let column = put_column(b"chr1", b"\n", &mut nearly_full(alloc, room)?);
    let line = put_line(b"chr1", b"\n", &mut nearly_full(alloc, room)?);
    let both = put_both(b"chr1", b"\n", &mut nearly_full(alloc, room)?);
    Ok([put, column, line, both])
}

// The call that writes fails, not only those after it.
#[test]
fn a_put_that_writes_reports_that_it_failed(rt: HostRuntime) -> Result<(), Fail> {
    for room in [0, 1, 2, 3, 4] {
        for answer in &across_border(rt.alloc(), room)? {
            assert_eq!(rt; *answer, Err(write_failed()));
        }
    }
    Ok(())
}

// Whether a line and its line feed are buffered after this many bytes.
fn pair_after(alloc: Global, before: usize) -> Result<bool, Fail> {
    let mut output = filled(alloc, before)?;
    Ok(output.try_put_pair(b"line", b"\n"))
}

const PAIRS: [(usize, bool); 4] = [(0, true), (8187, true), (8188, false), (8192, false)];

// A piece and its line feed are buffered if both fit into the block, also to its last byte.
#[test]
fn both_are_buffered_where_both_fit(rt: HostRuntime) -> Result<(), Fail> {
    for (before, want) in &PAIRS {
        assert_eq!(rt; pair_after(rt.alloc(), *before)?, *want, "after {before}");
    }
    Ok(())
}

// Whether a span of a name of this many bytes is buffered after that many others.
fn buffers_span(alloc: Global, before: usize, name: usize) -> Result<bool, Fail> {
    let mut output = filled(alloc, before)?;
    Ok(output.try_put_interval(long_line(alloc, name, b"")?.as_slice(), 5, 9, b'\n'))
}

// Bytes before a span, the length of its name, and whether it is buffered: a name has 1 to 64 bytes,
// and there is room for it and 106 bytes more.
#[rattlefmt::skip]
const SPANS: [(usize, usize, bool); 7] = [
    (0, 0, false), (0, 1, true), (0, 64, true), (0, 65, false), (8082, 4, true), (8083, 4, false),
    (8083, 3, true),
];

#[test]
fn short_spans_are_buffered_where_there_is_room(rt: HostRuntime) -> Result<(), Fail> {
    for (before, name, want) in &SPANS {
        assert_eq!(rt;
            buffers_span(rt.alloc(), *before, *name)?,
            *want,
            "{name} after {before}"
        );
    }
    Ok(())
}

#[test]
fn spans_are_put_with_what_ends_them(rt: HostRuntime) {
    let mut output = Out::new(ScriptSink::new(rt.alloc(), BLOCK, None));
    let are_put = output.try_put_interval(b"chr1", 99_999_999, 999_999_999_999, b'\n')
        && output.try_put_interval(b"c", 0, u64::MAX, b'\t')
        && output.flush().is_ok();
    let want = b"chr1\t99999999\t999999999999\nc\t0\t18446744073709551615\t".as_slice();
    holds(
        &rt,
        are_put && output.into_sink().taken() == want,
        "two spans",
    );
}

#[test]
fn nothing_is_buffered_after_a_failure(rt: HostRuntime) {
    let mut failed = Out::new(ScriptSink::new(rt.alloc(), BLOCK, Some(0)));
    let has_failed = failed.put(b"line").is_ok() && failed.flush().is_err();
    let is_put = failed.try_put_pair(b"line", b"\n")
        || failed.try_put_interval(b"chr1", 5, 9, b'\n');
    holds(&rt, has_failed && !is_put, "nothing");
}

// By `rt try --test --fail-alloc N -- refused_growth` for each N from 1. A sink that can't grow has failed: it keeps what
// it took, and each later call reports a failed write.
#[test]
fn refused_growth_of_a_sink(rt: HostRuntime) -> Result<(), Fail> {
    let text = b"chr1\t100\t500\nchr1\t501\t1000\n".as_slice();
    let mut output = Out::new(ScriptSink::new(rt.alloc(), 7, None));
    if output.put(text).is_ok() && output.flush().is_ok() {
        holds(&rt, output.into_sink().taken() == text, "all is taken");
        return Ok(());
    }
    let is_reported = fails_again(&mut output);
    let sink = output.into_sink();
    holds(&rt, is_reported && sink.failed(), "a failed write");
    holds(&rt, text.starts_with(sink.taken()), "the first bytes");
    Err(Fail::from(AllocError))
}
