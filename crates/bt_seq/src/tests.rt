//! What the tests of several modules share.

use bt_lines::{Input, LineReader, ScriptSource};
use std::alloc::Global;

// The example of the SAM specification, section 1.1, in the order of its lines.
pub(crate) const R001: &[u8] = b"r001\t99\tref\t7\t30\t8M2I4M1D3M\t=\t37\t39\tTTAGATAAAGGATACTG\t*";

pub(crate) const R002: &[u8] = b"r002\t0\tref\t9\t30\t3S6M1P1I4M\t*\t0\t0\tAAAAGATAAGGATA\t*";

pub(crate) const R003: &[u8] =
    b"r003\t0\tref\t9\t30\t5S6M\t*\t0\t0\tGCCTAAGCTAA\t*\tSA:Z:ref,29,-,6H5M,17,0;";

pub(crate) const R004: &[u8] = b"r004\t0\tref\t16\t30\t6M14N5M\t*\t0\t0\tATAGCTTCAGC\t*";

pub(crate) const R003_AGAIN: &[u8] =
    b"r003\t2064\tref\t29\t17\t6H5M\t*\t0\t0\tTAGGC\t*\tSA:Z:ref,9,+,5S6M,30,1;";

pub(crate) const R001_AGAIN: &[u8] = b"r001\t147\tref\t37\t30\t9M\t=\t7\t-39\tCAGCGGCAT\t*\tNM:i:1";

// A reader of a text that comes in pieces of this many bytes.
pub(crate) fn lines_of<'a>(
    alloc: Global,
    input: Input,
    text: &'a [u8],
    step: usize,
) -> LineReader<ScriptSource<'a>> {
    LineReader::new(alloc, ScriptSource::new(text, step.max(1), None), input)
}
