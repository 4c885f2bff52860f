//! The example of the crate's first page.

use crate::{BothRecords, Listing, list_hits, records_of};
use bt_bed::ByteOrder;
use bt_lines::ScriptSink;
use bt_sweep::{HitRule, Shape};
use std::test::Fail;

#[test]
fn smallest_bins_first(rt: HostRuntime) -> Result<(), Fail> {
    let first = records_of(rt.alloc(), &ByteOrder, b"chr1\t50\t90\n")
        .ok()
        .ok_or("records")?;
    let text = b"chr1\t0\t20000\tlong\nchr1\t60\t70\tshort\n";
    let second = records_of(rt.alloc(), &ByteOrder, text)
        .ok()
        .ok_or("records")?;
    let (shape, rule) = (Shape::OrigBoth, HitRule::any_overlap());
    let (listing, records) = (Listing { shape, rule }, BothRecords { first, second });
    let sink = ScriptSink::new(rt.alloc(), 7, None);
    let (fault, sink) = list_hits(rt.alloc(), &ByteOrder, listing, records, sink);
    let want = b"chr1\t50\t90\tchr1\t60\t70\tshort\nchr1\t50\t90\tchr1\t0\t20000\tlong\n";
    assert_eq!(rt; (fault, sink.taken()), (None, want.as_slice()));
    Ok(())
}
