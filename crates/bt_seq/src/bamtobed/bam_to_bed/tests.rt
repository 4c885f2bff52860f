//! Worked alignments as BED lines, and outputs that fail.

use super::*;
use crate::sam::sam_text::sam_line;
use crate::tests::{R001, R001_AGAIN, R002, R003, R003_AGAIN, R004};
use bt_lines::{Kind, ScriptSink};
use std::alloc::Global;

// A line, the options -split and -cigar, and what is written.
type Case = (&'static [u8], bool, bool, &'static [u8]);

// The example of the SAM specification, and lines at the edges.
#[rattlefmt::skip]
const CASES: [Case; 21] = [
    (R001, false, false, b"ref\t6\t22\tr001/1\t30\t+\n"),
    (R001, false, true, b"ref\t6\t22\tr001/1\t30\t+\t8M2I4M1D3M\n"),
    (R002, false, false, b"ref\t8\t18\tr002\t30\t+\n"),
    (b"r 1\t99\tref x\t7\t30\t8M2I\t=\t37\t39\tTTAGATAAAG\t*", false, true,
        b"ref x\t6\t14\tr 1/1\t30\t+\t8M2I\n"),
    (R003, true, true, b"ref\t8\t14\tr003\t30\t+\t5S6M\n"),
    (R004, false, false, b"ref\t15\t40\tr004\t30\t+\n"),
    (R004, true, false, b"ref\t15\t21\tr004\t30\t+\nref\t35\t40\tr004\t30\t+\n"),
    (R004, true, true, b"ref\t15\t21\tr004\t30\t+\t6M14N5M\nref\t35\t40\tr004\t30\t+\t6M14N5M\n"),
    (R003_AGAIN, false, false, b"ref\t28\t33\tr003\t17\t-\n"),
    (R001_AGAIN, false, false, b"ref\t36\t45\tr001/2\t30\t-\n"),
    (b"r001\t147\tref\t37\t030\t09M\t=\t7\t-39\tCAGCGGCAT\t*", false, true,
        b"ref\t36\t45\tr001/2\t30\t-\t09M\n"),
    (b"r004\t4\tref\t16\t30\t6M14N5M\t*\t0\t0\tATAGCTTCAGC\t*", true, false, b""),
    (b"r\t0\tref\t16\t30\t*\t*\t0\t0\tATAGCTTCAGC\t*", false, false, b""),
    (b"r\t192\tref\t1\t0\t5M\t*\t0\t0\t*\t*", false, false, b"ref\t0\t5\tr/1/2\t0\t+\n"),
    (b"r\t208\tref\t1\t0\t5M\t*\t0\t0\t*\t*", false, true, b"ref\t0\t5\tr/1/2\t0\t-\t5M\n"),
    (b"r\t0\tref\t1\t255\t5N5M\t*\t0\t0\t*\t*", false, false, b"ref\t0\t10\tr\t255\t+\n"),
    (b"r\t0\tref\t1\t255\t5N5M\t*\t0\t0\t*\t*", true, false, b"ref\t5\t10\tr\t255\t+\n"),
    (b"r\t0\tref\t1\t30\t999999999999M\t*\t0\t0\t*\t*", true, false,
        b"ref\t0\t999999999999\tr\t30\t+\n"),
    (b"r\t0\tref\t1\t30\t5N\t*\t0\t0\t*\t*", true, false, b""),
    (b"r\t0\t*\t1\t30\t5M\t*\t0\t0\t*\t*", false, false, b""),
    (b"r\t0\tref\t0\t30\t5M\t*\t0\t0\t*\t*", false, false, b""),
];

// Feeds the alignment of a line, if it has one, and returns whether that was taken.
fn feeds(engine: &mut BamToBed, text: &[u8], out: &mut Out<ScriptSink>) -> bool {
    match sam_line(text) {
        Ok(Some(sam)) => engine.feed(&sam, out).is_ok(),
        Ok(None) => true,
        Err(_) => false,
    }
}

// Whether a line is written as its case says.
fn writes(alloc: Global, case: &Case) -> bool {
    let (text, split, cigar, want) = *case;
    let mut out = Out::new(ScriptSink::new(alloc, 3, None));
    let mut engine = BamToBed::new(split, cigar);
    let is_fed = feeds(&mut engine, text, &mut out);
    let is_flushed = out.flush().is_ok();
    is_fed && is_flushed && out.into_sink().taken() == want
}

fn first_miswritten(alloc: Global, cases: &[Case]) -> Option<&'static [u8]> {
    for case in cases {
        if !writes(alloc, case) {
            return Some(case.0);
        }
    }
    None
}

#[test]
fn alignments_are_written(rt: HostRuntime) {
    assert_eq!(rt; first_miswritten(rt.alloc(), &CASES), None);
}

// Whether an alignment that is fed a thousand times fails from some time on, by the write.
fn fails_from_then_on(engine: &mut BamToBed, text: &[u8], out: &mut Out<ScriptSink>) -> bool {
    let Ok(Some(sam)) = sam_line(text) else {
        return false;
    };
    let mut has_failed = false;
    for _ in 0..1000 {
        match engine.feed(&sam, out) {
            Ok(()) if has_failed => return false,
            Ok(()) => {}
            Err(fault) if fault.kind == Kind::WriteFailed => has_failed = true,
            Err(_) => return false,
        }
    }
    has_failed
}

// A sink that takes five bytes and then fails, and lines past a block.
#[test]
fn a_failed_write_is_reported_from_then_on(rt: HostRuntime) {
    let mut out = Out::new(ScriptSink::new(rt.alloc(), 3, Some(5)));
    let mut engine = BamToBed::new(false, false);
    let line = b"r\t0\tref\t1\t30\t5M\t*\t0\t0\t*\t*";
    let has_failed = fails_from_then_on(&mut engine, line, &mut out);
    assert!(rt; has_failed && out.into_sink().taken() == b"ref\t0".as_slice());
}
