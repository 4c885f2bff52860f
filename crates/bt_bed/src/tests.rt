//! What the tests of several modules share.

use crate::record::strand::Strand;
use crate::{BedRef, ChromOrder, Genome, Records, parse_bed};
use bt_lines::{Fault, Input, Kind, LineReader, ScriptSource};
use std::alloc::Global;
use std::cmp::Ordering;
use std::process::Abort;

pub(crate) fn holds(rt: &impl Abort, it: bool, name: &str) {
    assert!(rt; it, "{name}");
}

// A reader of a text that comes in pieces of this many bytes, and fails after the good ones.
pub(crate) fn lines_of<'a>(
    alloc: Global,
    input: Input,
    text: &'a [u8],
    step: usize,
    good: Option<usize>,
) -> LineReader<ScriptSource<'a>> {
    LineReader::new(alloc, ScriptSource::new(text, step.max(1), good), input)
}

// A reader of the records of a text that comes in pieces of this many bytes.
pub(crate) fn records_of<'a, 'o, O: ChromOrder>(
    alloc: Global,
    text: &'a [u8],
    step: usize,
    order: &'o O,
) -> Records<'o, ScriptSource<'a>, O> {
    Records::new(
        alloc,
        lines_of(alloc, Input::First, text, step, None),
        order,
    )
}

// The genome file of a text that comes in pieces of this many bytes, and fails after the good ones.
pub(crate) fn genome_of(
    alloc: Global,
    text: &[u8],
    step: usize,
    good: Option<usize>,
) -> Result<Genome, Fault> {
    let mut reader = lines_of(alloc, Input::Genome, text, step, good);
    let genome = Genome::read(alloc, &mut reader);
    let _ = reader.into_source();
    genome
}

// What is wrong at which line of this input. The line is 0 if it is elsewhere.
pub(crate) fn fault_at(fault: Fault, input: Input) -> (Kind, u64) {
    match fault.place {
        Some(place) if place.input == input => (fault.kind, place.line),
        _ => (fault.kind, 0),
    }
}

// The record of a line.
pub(crate) fn record(line: &[u8]) -> Option<BedRef<'_>> {
    parse_bed(line).ok().flatten()
}

// The start, the end, the strand and what is kept of a record.
pub(crate) type Said<'a> = (u64, u64, Strand, &'a [u8]);

pub(crate) fn said<'a>(bed: BedRef<'a>) -> Said<'a> {
    (bed.start, bed.stop, bed.strand, bed.rest)
}

// Which of two names comes first, if the order knows both.
pub(crate) fn compared<O: ChromOrder>(order: &O, left: &[u8], right: &[u8]) -> Option<Ordering> {
    if !order.knows(left) || !order.knows(right) {
        return None;
    }
    Some(order.compare(left, right))
}
