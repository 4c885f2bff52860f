//! Tests of complete sweeps, and what the tests share.

mod growth_tests;
pub(crate) mod worked;

use crate::active::held::Held;
use bt_bed::Genome;
use bt_lines::{Fault, Input, LineReader, Out, ScriptSink, ScriptSource};
use std::alloc::Global;

// The genome file of all tests.
pub(crate) fn genome(alloc: Global) -> Result<Genome, Fault> {
    let source = ScriptSource::new(b"chr1\t1000\nchr2\t50\n", 7, None);
    let mut lines = LineReader::new(alloc, source, Input::Genome);
    let genome = Genome::read(alloc, &mut lines);
    let _ = lines.into_source();
    genome
}

// An output to a sink that takes this many bytes at a time, all of them.
pub(crate) fn output(alloc: Global, step: usize) -> Out<ScriptSink> {
    Out::new(ScriptSink::new(alloc, step.max(1), None))
}

// The start of the record at this index.
pub(crate) fn start_of<H: Held>(held: &H, index: usize) -> Option<u64> {
    match held.nth(index) {
        Some(rec) => Some(rec.as_bed().start),
        None => None,
    }
}
