//! What the tests of the engines share. Each assertion is proved here once: in a body that holds much, it
//! would be proved beside all of that.

use crate::engine::Engine;
use bt_bed::{Genome, parse_bed};
use bt_lines::{BLOCK, Fault, Input, Kind, LineReader, Out, Place, ScriptSink, ScriptSource, Sink};
use std::alloc::{AllocError, Global};
use std::process::Abort;
use std::test::Fail;

pub(crate) fn holds(rt: &impl Abort, it: bool, name: &str) {
    assert!(rt; it, "{name}");
}

fn same_count(rt: &impl Abort, given: usize, wanted: usize, name: &str) {
    assert_eq!(rt; given, wanted, "{name}");
}

type Answer = Result<(), Fault>;

pub(crate) fn same_answer(rt: &impl Abort, given: Answer, wanted: Answer, name: &str) {
    assert_eq!(rt; given, wanted, "{name}");
}

fn same_bytes(rt: &impl Abort, given: &[u8], wanted: &[u8], name: &str) {
    assert_eq!(rt; given, wanted, "{name}");
}

// The line of a record, and how many items an engine keeps once it has taken it.
pub(crate) type KeptLine<'a> = (&'a [u8], usize);

// A case: its name, the lines that an engine is fed, what is written with them, and what at the end.
#[rattlefmt::skip]
pub(crate) type Row = (&'static str, &'static [KeptLine<'static>], &'static [u8], &'static [u8]);

// The genome file of this text.
pub(crate) fn genome(alloc: Global, text: &[u8]) -> Result<Genome, Fault> {
    let mut reader = LineReader::new(alloc, ScriptSource::new(text, 7, None), Input::Genome);
    let genome = Genome::read(alloc, &mut reader);
    let _ = reader.into_source();
    genome
}

// An output to a sink that takes this many bytes at a time, all of them.
pub(crate) fn output(alloc: Global, step: usize) -> Out<ScriptSink> {
    Out::new(ScriptSink::new(alloc, step.max(1), None))
}

// Of a line in a test that is no record: no engine gives it.
const NO_RECORD: Fault = Fault {
    kind: Kind::BadStart,
    place: Some(Place {
        input: Input::Genome,
        line: 0,
    }),
};

// Feeds the record of a line.
pub(crate) fn feed_line<E: Engine, K: Sink>(
    engine: &mut E,
    line: &[u8],
    out: &mut Out<K>,
) -> Answer {
    match parse_bed(line) {
        Ok(Some(bed)) => engine.feed(&bed, out),
        _ => Err(NO_RECORD),
    }
}

// Feeds a record that is taken, with which this many items are kept.
pub(crate) fn feed_kept<E: Engine, K: Sink>(
    rt: &impl Abort,
    engine: &mut E,
    (line, kept): KeptLine<'_>,
    out: &mut Out<K>,
    name: &str,
) {
    same_answer(rt, feed_line(engine, line, out), Ok(()), name);
    same_count(rt, engine.kept_len(), kept, name);
}

// A line with the number in its second column, in five digits.
fn numbered(number: u64) -> [u8; 16] {
    let mut line = *b"chr1\t00000\t20000";
    let mut rest = number;
    for at in [9, 8, 7, 6, 5] {
        line[at] = b'0' + (rest % 10) as u8;
        rest /= 10;
    }
    line
}

// Feeds ten thousand records that settle nothing, of which one item is kept. Only the first may be refused.
pub(crate) fn feed_many<E: Engine>(
    rt: &impl Abort,
    engine: &mut E,
    out: &mut Out<ScriptSink>,
) -> Result<(), Fail> {
    if feed_line(engine, &numbered(0), out).is_err() {
        return Err(Fail::from(AllocError));
    }
    for number in 1..10_000 {
        let line = numbered(number);
        feed_kept(rt, engine, (line.as_slice(), 1), out, "one of many");
    }
    Ok(())
}

// What was put has to be these bytes.
pub(crate) fn expect_put(rt: &impl Abort, mut out: Out<ScriptSink>, wanted: &[u8], name: &str) {
    same_answer(rt, out.flush(), Ok(()), name);
    same_bytes(rt, out.into_sink().taken(), wanted, name);
}

// Lets an engine finish, which has to put these bytes after those before.
pub(crate) fn expect_end<E: Engine>(
    rt: &impl Abort,
    engine: E,
    mut out: Out<ScriptSink>,
    wanted: &[u8],
    name: &str,
) {
    same_answer(rt, engine.finish(&mut out), Ok(()), name);
    expect_put(rt, out, wanted, name);
}

// An engine that has taken no record has to keep and to write what the row says.
pub(crate) fn check_row<E: Engine>(rt: &impl Abort, alloc: Global, mut engine: E, row: &Row) {
    let (name, lines, settled, left) = *row;
    same_count(rt, engine.kept_len(), 0, name);
    let mut out = output(alloc, 3);
    for line in lines {
        feed_kept(rt, &mut engine, *line, &mut out, name);
    }
    expect_put(rt, out, settled, name);
    expect_end(rt, engine, output(alloc, 3), left, name);
}

const WRITE_FAILED: Fault = Fault {
    kind: Kind::WriteFailed,
    place: None,
};

// Feeds all lines to an engine whose output has this room and then fails, one more if a fault came, and lets it finish,
// which fails at the latest. A fault comes where what is settled has no room, and each later call returns it.
fn feed_failing<E: Engine, K: Sink>(
    rt: &impl Abort,
    mut engine: E,
    (name, lines, settled, _): &Row,
    out: &mut Out<K>,
    room: usize,
) {
    let mut has_failed = false;
    for (line, _) in *lines {
        let answer = feed_line(&mut engine, line, out);
        holds(rt, !has_failed || answer == Err(WRITE_FAILED), name);
        has_failed = answer.is_err();
    }
    holds(rt, has_failed == (room < settled.len()), name);
    if has_failed {
        let answer = feed_line(&mut engine, b"chr9\t5\t6", out);
        same_answer(rt, answer, Err(WRITE_FAILED), name);
    }
    same_answer(rt, engine.finish(out), Err(WRITE_FAILED), name);
}

// How many bytes are written in a case.
pub(crate) fn written_len((_, _, settled, left): &Row) -> usize {
    settled.len().saturating_add(left.len())
}

// An engine whose output has room for this many bytes, fewer than it writes, and whose sink fails at the last byte of a
// block. The sink has to have taken the first bytes put.
pub(crate) fn check_failing<E: Engine + Drop>(
    rt: &impl Abort,
    alloc: Global,
    engine: E,
    row: &Row,
    room: usize,
) -> Result<(), Fail> {
    let before = BLOCK.saturating_sub(room);
    let mut wanted = Vec::new(alloc);
    wanted.resize(before, b'.')?;
    let mut out = Out::new(ScriptSink::new(alloc, BLOCK, Some(BLOCK - 1)));
    out.put(wanted.as_slice())?;
    wanted.extend_from_slice(row.2)?;
    wanted.extend_from_slice(row.3)?;
    feed_failing(rt, engine, row, &mut out, room);
    let prefix = wanted.as_slice().get(..BLOCK - 1).unwrap_or(b"");
    same_bytes(rt, out.into_sink().taken(), prefix, row.0);
    Ok(())
}
