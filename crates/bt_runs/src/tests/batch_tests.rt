//! Records that a reader has buffered, which an engine takes in one call.

ghost use Rattle.std.specs.Prelude.{◌<◌};

use crate::engine::Engine;
use crate::tests::testing::{KeptLine, Row, expect_end, expect_put, holds, output};
use crate::{Merge, MergeStrand};
use bt_bed::{Blocks, Cursor, Record, Strand};
use bt_lines::{Fault, Input, LineReader, Out, ScriptSink, ScriptSource, Sink};
use std::alloc::{AllocError, Global};
use std::process::Abort;
use std::test::Fail;

type Text<'a> = Blocks<ScriptSource<'a>>;

// The records of a text, which is read in one block.
fn blocks_of<'a>(alloc: Global, text: &'a [u8]) -> Text<'a> {
    let source = ScriptSource::new(text, 8192, None);
    Blocks::new(alloc, LineReader::new(alloc, source, Input::First))
}

// Feeds an engine with the records of the first chromosome in one call, and returns how many lines
// those are.
fn feed_first<E: Engine, K: Sink>(
    blocks: &mut Text<'_>,
    engine: &mut E,
    out: &mut Out<K>,
) -> Result<u64, Fault> {
    if !matches!(blocks.fill(), Ok(true)) {
        return Ok(0);
    }
    let mut batch = blocks.buffered();
    engine.feed_batch(&mut batch, out)?;
    Ok(Cursor::line(&batch))
}

// Feeds an engine with the records of the first chromosome of these lines, and returns how many lines
// those are.
fn feed_chromosome<E: Engine, K: Sink>(
    alloc: Global,
    lines: &[KeptLine<'_>],
    engine: &mut E,
    out: &mut Out<K>,
) -> Result<usize, Fail> {
    let mut text = Vec::new(alloc);
    for (line, _) in lines {
        text.extend_from_slice(line)?;
        text.push(b'\n')?;
    }
    let mut blocks = blocks_of(alloc, text.as_slice());
    let fed = feed_first(&mut blocks, engine, out);
    let _ = blocks.into_reader().into_source();
    Ok(fed? as usize)
}

// An engine that has taken no record has to write what the row says if it takes the records of each
// chromosome in one call.
pub(crate) fn check_batches<E: Engine + Drop>(
    rt: &impl Abort,
    alloc: Global,
    mut engine: E,
    (name, lines, settled, left): &Row,
) -> Result<(), Fail> {
    let mut out = output(alloc, 3);
    let mut fed = 0usize;
    for _ in *lines {
        let rest = lines.get(fed..).unwrap_or(&[]);
        fed = fed.saturating_add(feed_chromosome(alloc, rest, &mut engine, &mut out)?);
    }
    holds(rt, fed == lines.len(), name);
    expect_put(rt, out, settled, name);
    expect_end(rt, engine, output(alloc, 3), left, name);
    Ok(())
}

// Two hundred records of one strand and one base, 10 apart, from 1000 on. The line of each as a run
// has 15 bytes.
fn bases(alloc: Global) -> Result<Vec<u8>, AllocError> {
    let mut text = Vec::new(alloc);
    for number in 0..200u32 {
        let start = 1000 + 10 * number;
        let line = format!(in alloc; "chr1\t{start}\t{}\tname\t0\t+\n", start + 1)?;
        text.extend_from_slice(line.as_bytes())?;
    }
    Ok(text)
}

// How many lines the output has room for, and the start of the record after the one that settles the run of the next
// line.
#[rattlefmt::skip]
const ROOMS: [(usize, u64); 6] = [(0, 1020), (1, 1030), (31, 1330), (32, 1340), (50, 1520), (96, 1980)];

// Feeds a merge that fails with the records that are buffered, and returns the start of the one that comes after those
// that were taken.
fn failed_before<K: Sink>(blocks: &mut Text<'_>, out: &mut Out<K>, alloc: Global) -> Option<u64> {
    let mut merge = Merge::new(alloc, 0, MergeStrand::One(Strand::Plus));
    if !matches!(blocks.fill(), Ok(true)) {
        return None;
    }
    let mut batch = blocks.buffered();
    if merge.feed_batch(&mut batch, out).is_ok() {
        return None;
    }
    match batch.next() {
        Some(record) => Some(record.start()),
        None => None,
    }
}

// A merge fails whose output has room for this many lines, and leaves the record of this start for the next call.
fn check_room(
    rt: &impl Abort,
    alloc: Global,
    text: &[u8],
    room: usize,
    start: u64,
) -> Result<(), Fail>
    requires { room < 100 }
{
    let mut out = Out::new(ScriptSink::new(alloc, 512, Some(0)));
    out.put(&[b'.'; 8187][..8187 - 15 * room])?;
    let mut blocks = blocks_of(alloc, text);
    let found = failed_before(&mut blocks, &mut out, alloc);
    let _ = (blocks.into_reader().into_source(), out.into_sink());
    holds(rt, found == Some(start), "the record after the run");
    Ok(())
}

#[test]
fn a_run_of_several_that_cannot_be_written(rt: HostRuntime) -> Result<(), Fail> {
    let text = bases(rt.alloc())?;
    for (room, start) in &ROOMS {
        check_room(&rt, rt.alloc(), text.as_slice(), (*room).min(99), *start)?;
    }
    Ok(())
}
