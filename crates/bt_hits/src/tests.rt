//! What bedtools 2.30.0 writes of two texts without `-sorted`, by each shape and each rule of what hits a record.

ghost use Rattle.std.specs.Prelude.{◌≡◌, IfOk};
ghost use Rattle.bt_bed.specs.calls.Orders.{ArePlaced};
ghost use Rattle.bt_bed.specs.model.Feature.{intervals_of};
ghost use Rattle.bt_hits.specs.calls.Listing.{has_line_each};

use crate::{BothRecords, Listing, Unread, list_hits, records_of};
use bt_bed::{ByteOrder, ChromOrder, Rec};
use bt_lines::{Fault, Kind, ScriptSink};
use bt_sweep::{HitRule, Shape};
use std::alloc::Global;
use std::collections::VecDeque;
use std::test::Fail;

// Of one record two levels hold hits on both sides of a bin's end; equal records of the first input follow one another, and
// so do equal ones of the second.
#[rattlefmt::skip]
const FIRST: &[u8] = b"\
    chr1\t100\t200\ta1\t0\t+\n\
    chr1\t100\t200\ta1\t0\t+\n\
    chr1\t16000\t17000\ta2\t0\t-\n\
    chr1\t131000\t400000\ta3\t0\t+\n\
    chr2\t5\t9\ta4\t0\t-\n";

#[rattlefmt::skip]
const SECOND: &[u8] = b"\
    chr1\t0\t140000\tw1\t0\t+\n\
    chr1\t10\t150\ts1\t0\t+\n\
    chr1\t20\t9000000\tv1\t0\t-\n\
    chr1\t150\t160\ts2\t0\t-\n\
    chr1\t160\t16390\tm1\t0\t+\n\
    chr1\t16100\t16384\ts3\t0\t-\n\
    chr1\t16384\t16500\ts4\t0\t-\n\
    chr1\t131000\t131080\tl1\t0\t+\n\
    chr1\t131072\t262144\tl2\t0\t+\n\
    chr1\t262143\t262145\tl3\t0\t-\n\
    chr1\t300000\t300010\ts5\t0\t-\n\
    chr2\t0\t6\ts6\t0\t-\n\
    chr2\t0\t6\ts7\t0\t-\n";

// bedtools intersect
#[rattlefmt::skip]
const CUT: &[u8] = b"\
    chr1\t100\t150\ta1\t0\t+\n\
    chr1\t150\t160\ta1\t0\t+\n\
    chr1\t160\t200\ta1\t0\t+\n\
    chr1\t100\t200\ta1\t0\t+\n\
    chr1\t100\t200\ta1\t0\t+\n\
    chr1\t100\t150\ta1\t0\t+\n\
    chr1\t150\t160\ta1\t0\t+\n\
    chr1\t160\t200\ta1\t0\t+\n\
    chr1\t100\t200\ta1\t0\t+\n\
    chr1\t100\t200\ta1\t0\t+\n\
    chr1\t16100\t16384\ta2\t0\t-\n\
    chr1\t16384\t16500\ta2\t0\t-\n\
    chr1\t16000\t16390\ta2\t0\t-\n\
    chr1\t16000\t17000\ta2\t0\t-\n\
    chr1\t16000\t17000\ta2\t0\t-\n\
    chr1\t300000\t300010\ta3\t0\t+\n\
    chr1\t131072\t262144\ta3\t0\t+\n\
    chr1\t131000\t140000\ta3\t0\t+\n\
    chr1\t131000\t131080\ta3\t0\t+\n\
    chr1\t262143\t262145\ta3\t0\t+\n\
    chr1\t131000\t400000\ta3\t0\t+\n\
    chr2\t5\t6\ta4\t0\t-\n\
    chr2\t5\t6\ta4\t0\t-\n";

// bedtools intersect -wa -wb
#[rattlefmt::skip]
const ORIG_BOTH: &[u8] = b"\
    chr1\t100\t200\ta1\t0\t+\tchr1\t10\t150\ts1\t0\t+\n\
    chr1\t100\t200\ta1\t0\t+\tchr1\t150\t160\ts2\t0\t-\n\
    chr1\t100\t200\ta1\t0\t+\tchr1\t160\t16390\tm1\t0\t+\n\
    chr1\t100\t200\ta1\t0\t+\tchr1\t0\t140000\tw1\t0\t+\n\
    chr1\t100\t200\ta1\t0\t+\tchr1\t20\t9000000\tv1\t0\t-\n\
    chr1\t100\t200\ta1\t0\t+\tchr1\t10\t150\ts1\t0\t+\n\
    chr1\t100\t200\ta1\t0\t+\tchr1\t150\t160\ts2\t0\t-\n\
    chr1\t100\t200\ta1\t0\t+\tchr1\t160\t16390\tm1\t0\t+\n\
    chr1\t100\t200\ta1\t0\t+\tchr1\t0\t140000\tw1\t0\t+\n\
    chr1\t100\t200\ta1\t0\t+\tchr1\t20\t9000000\tv1\t0\t-\n\
    chr1\t16000\t17000\ta2\t0\t-\tchr1\t16100\t16384\ts3\t0\t-\n\
    chr1\t16000\t17000\ta2\t0\t-\tchr1\t16384\t16500\ts4\t0\t-\n\
    chr1\t16000\t17000\ta2\t0\t-\tchr1\t160\t16390\tm1\t0\t+\n\
    chr1\t16000\t17000\ta2\t0\t-\tchr1\t0\t140000\tw1\t0\t+\n\
    chr1\t16000\t17000\ta2\t0\t-\tchr1\t20\t9000000\tv1\t0\t-\n\
    chr1\t131000\t400000\ta3\t0\t+\tchr1\t300000\t300010\ts5\t0\t-\n\
    chr1\t131000\t400000\ta3\t0\t+\tchr1\t131072\t262144\tl2\t0\t+\n\
    chr1\t131000\t400000\ta3\t0\t+\tchr1\t0\t140000\tw1\t0\t+\n\
    chr1\t131000\t400000\ta3\t0\t+\tchr1\t131000\t131080\tl1\t0\t+\n\
    chr1\t131000\t400000\ta3\t0\t+\tchr1\t262143\t262145\tl3\t0\t-\n\
    chr1\t131000\t400000\ta3\t0\t+\tchr1\t20\t9000000\tv1\t0\t-\n\
    chr2\t5\t9\ta4\t0\t-\tchr2\t0\t6\ts6\t0\t-\n\
    chr2\t5\t9\ta4\t0\t-\tchr2\t0\t6\ts7\t0\t-\n";

// bedtools intersect -wb
#[rattlefmt::skip]
const CUT_AND_B: &[u8] = b"\
    chr1\t100\t150\ta1\t0\t+\tchr1\t10\t150\ts1\t0\t+\n\
    chr1\t150\t160\ta1\t0\t+\tchr1\t150\t160\ts2\t0\t-\n\
    chr1\t160\t200\ta1\t0\t+\tchr1\t160\t16390\tm1\t0\t+\n\
    chr1\t100\t200\ta1\t0\t+\tchr1\t0\t140000\tw1\t0\t+\n\
    chr1\t100\t200\ta1\t0\t+\tchr1\t20\t9000000\tv1\t0\t-\n\
    chr1\t100\t150\ta1\t0\t+\tchr1\t10\t150\ts1\t0\t+\n\
    chr1\t150\t160\ta1\t0\t+\tchr1\t150\t160\ts2\t0\t-\n\
    chr1\t160\t200\ta1\t0\t+\tchr1\t160\t16390\tm1\t0\t+\n\
    chr1\t100\t200\ta1\t0\t+\tchr1\t0\t140000\tw1\t0\t+\n\
    chr1\t100\t200\ta1\t0\t+\tchr1\t20\t9000000\tv1\t0\t-\n\
    chr1\t16100\t16384\ta2\t0\t-\tchr1\t16100\t16384\ts3\t0\t-\n\
    chr1\t16384\t16500\ta2\t0\t-\tchr1\t16384\t16500\ts4\t0\t-\n\
    chr1\t16000\t16390\ta2\t0\t-\tchr1\t160\t16390\tm1\t0\t+\n\
    chr1\t16000\t17000\ta2\t0\t-\tchr1\t0\t140000\tw1\t0\t+\n\
    chr1\t16000\t17000\ta2\t0\t-\tchr1\t20\t9000000\tv1\t0\t-\n\
    chr1\t300000\t300010\ta3\t0\t+\tchr1\t300000\t300010\ts5\t0\t-\n\
    chr1\t131072\t262144\ta3\t0\t+\tchr1\t131072\t262144\tl2\t0\t+\n\
    chr1\t131000\t140000\ta3\t0\t+\tchr1\t0\t140000\tw1\t0\t+\n\
    chr1\t131000\t131080\ta3\t0\t+\tchr1\t131000\t131080\tl1\t0\t+\n\
    chr1\t262143\t262145\ta3\t0\t+\tchr1\t262143\t262145\tl3\t0\t-\n\
    chr1\t131000\t400000\ta3\t0\t+\tchr1\t20\t9000000\tv1\t0\t-\n\
    chr2\t5\t6\ta4\t0\t-\tchr2\t0\t6\ts6\t0\t-\n\
    chr2\t5\t6\ta4\t0\t-\tchr2\t0\t6\ts7\t0\t-\n";

// bedtools intersect -wo
#[rattlefmt::skip]
const OVERLAP: &[u8] = b"\
    chr1\t100\t200\ta1\t0\t+\tchr1\t10\t150\ts1\t0\t+\t50\n\
    chr1\t100\t200\ta1\t0\t+\tchr1\t150\t160\ts2\t0\t-\t10\n\
    chr1\t100\t200\ta1\t0\t+\tchr1\t160\t16390\tm1\t0\t+\t40\n\
    chr1\t100\t200\ta1\t0\t+\tchr1\t0\t140000\tw1\t0\t+\t100\n\
    chr1\t100\t200\ta1\t0\t+\tchr1\t20\t9000000\tv1\t0\t-\t100\n\
    chr1\t100\t200\ta1\t0\t+\tchr1\t10\t150\ts1\t0\t+\t50\n\
    chr1\t100\t200\ta1\t0\t+\tchr1\t150\t160\ts2\t0\t-\t10\n\
    chr1\t100\t200\ta1\t0\t+\tchr1\t160\t16390\tm1\t0\t+\t40\n\
    chr1\t100\t200\ta1\t0\t+\tchr1\t0\t140000\tw1\t0\t+\t100\n\
    chr1\t100\t200\ta1\t0\t+\tchr1\t20\t9000000\tv1\t0\t-\t100\n\
    chr1\t16000\t17000\ta2\t0\t-\tchr1\t16100\t16384\ts3\t0\t-\t284\n\
    chr1\t16000\t17000\ta2\t0\t-\tchr1\t16384\t16500\ts4\t0\t-\t116\n\
    chr1\t16000\t17000\ta2\t0\t-\tchr1\t160\t16390\tm1\t0\t+\t390\n\
    chr1\t16000\t17000\ta2\t0\t-\tchr1\t0\t140000\tw1\t0\t+\t1000\n\
    chr1\t16000\t17000\ta2\t0\t-\tchr1\t20\t9000000\tv1\t0\t-\t1000\n\
    chr1\t131000\t400000\ta3\t0\t+\tchr1\t300000\t300010\ts5\t0\t-\t10\n\
    chr1\t131000\t400000\ta3\t0\t+\tchr1\t131072\t262144\tl2\t0\t+\t131072\n\
    chr1\t131000\t400000\ta3\t0\t+\tchr1\t0\t140000\tw1\t0\t+\t9000\n\
    chr1\t131000\t400000\ta3\t0\t+\tchr1\t131000\t131080\tl1\t0\t+\t80\n\
    chr1\t131000\t400000\ta3\t0\t+\tchr1\t262143\t262145\tl3\t0\t-\t2\n\
    chr1\t131000\t400000\ta3\t0\t+\tchr1\t20\t9000000\tv1\t0\t-\t269000\n\
    chr2\t5\t9\ta4\t0\t-\tchr2\t0\t6\ts6\t0\t-\t1\n\
    chr2\t5\t9\ta4\t0\t-\tchr2\t0\t6\ts7\t0\t-\t1\n";

// bedtools intersect -wa -wb -f 0.5
#[rattlefmt::skip]
const HALF: &[u8] = b"\
    chr1\t100\t200\ta1\t0\t+\tchr1\t10\t150\ts1\t0\t+\n\
    chr1\t100\t200\ta1\t0\t+\tchr1\t0\t140000\tw1\t0\t+\n\
    chr1\t100\t200\ta1\t0\t+\tchr1\t20\t9000000\tv1\t0\t-\n\
    chr1\t100\t200\ta1\t0\t+\tchr1\t10\t150\ts1\t0\t+\n\
    chr1\t100\t200\ta1\t0\t+\tchr1\t0\t140000\tw1\t0\t+\n\
    chr1\t100\t200\ta1\t0\t+\tchr1\t20\t9000000\tv1\t0\t-\n\
    chr1\t16000\t17000\ta2\t0\t-\tchr1\t0\t140000\tw1\t0\t+\n\
    chr1\t16000\t17000\ta2\t0\t-\tchr1\t20\t9000000\tv1\t0\t-\n\
    chr1\t131000\t400000\ta3\t0\t+\tchr1\t20\t9000000\tv1\t0\t-\n";

// bedtools intersect -wa -wb -f 0.001 -r
#[rattlefmt::skip]
const BOTH_BY_A_THOUSANDTH: &[u8] = b"\
    chr1\t100\t200\ta1\t0\t+\tchr1\t10\t150\ts1\t0\t+\n\
    chr1\t100\t200\ta1\t0\t+\tchr1\t150\t160\ts2\t0\t-\n\
    chr1\t100\t200\ta1\t0\t+\tchr1\t160\t16390\tm1\t0\t+\n\
    chr1\t100\t200\ta1\t0\t+\tchr1\t10\t150\ts1\t0\t+\n\
    chr1\t100\t200\ta1\t0\t+\tchr1\t150\t160\ts2\t0\t-\n\
    chr1\t100\t200\ta1\t0\t+\tchr1\t160\t16390\tm1\t0\t+\n\
    chr1\t16000\t17000\ta2\t0\t-\tchr1\t16100\t16384\ts3\t0\t-\n\
    chr1\t16000\t17000\ta2\t0\t-\tchr1\t16384\t16500\ts4\t0\t-\n\
    chr1\t16000\t17000\ta2\t0\t-\tchr1\t160\t16390\tm1\t0\t+\n\
    chr1\t16000\t17000\ta2\t0\t-\tchr1\t0\t140000\tw1\t0\t+\n\
    chr1\t131000\t400000\ta3\t0\t+\tchr1\t131072\t262144\tl2\t0\t+\n\
    chr1\t131000\t400000\ta3\t0\t+\tchr1\t0\t140000\tw1\t0\t+\n\
    chr1\t131000\t400000\ta3\t0\t+\tchr1\t20\t9000000\tv1\t0\t-\n\
    chr2\t5\t9\ta4\t0\t-\tchr2\t0\t6\ts6\t0\t-\n\
    chr2\t5\t9\ta4\t0\t-\tchr2\t0\t6\ts7\t0\t-\n";

// bedtools intersect -wa -wb -s
#[rattlefmt::skip]
const ONE_STRAND: &[u8] = b"\
    chr1\t100\t200\ta1\t0\t+\tchr1\t10\t150\ts1\t0\t+\n\
    chr1\t100\t200\ta1\t0\t+\tchr1\t160\t16390\tm1\t0\t+\n\
    chr1\t100\t200\ta1\t0\t+\tchr1\t0\t140000\tw1\t0\t+\n\
    chr1\t100\t200\ta1\t0\t+\tchr1\t10\t150\ts1\t0\t+\n\
    chr1\t100\t200\ta1\t0\t+\tchr1\t160\t16390\tm1\t0\t+\n\
    chr1\t100\t200\ta1\t0\t+\tchr1\t0\t140000\tw1\t0\t+\n\
    chr1\t16000\t17000\ta2\t0\t-\tchr1\t16100\t16384\ts3\t0\t-\n\
    chr1\t16000\t17000\ta2\t0\t-\tchr1\t16384\t16500\ts4\t0\t-\n\
    chr1\t16000\t17000\ta2\t0\t-\tchr1\t20\t9000000\tv1\t0\t-\n\
    chr1\t131000\t400000\ta3\t0\t+\tchr1\t131072\t262144\tl2\t0\t+\n\
    chr1\t131000\t400000\ta3\t0\t+\tchr1\t0\t140000\tw1\t0\t+\n\
    chr1\t131000\t400000\ta3\t0\t+\tchr1\t131000\t131080\tl1\t0\t+\n\
    chr2\t5\t9\ta4\t0\t-\tchr2\t0\t6\ts6\t0\t-\n\
    chr2\t5\t9\ta4\t0\t-\tchr2\t0\t6\ts7\t0\t-\n";

// A fraction in billionths.
fn rule(billionths: u64, both: bool, same_strand: bool) -> HitRule {
    HitRule {
        billionths,
        both,
        same_strand,
    }
}

fn read<O: ChromOrder>(alloc: Global, order: &O, text: &[u8]) -> Result<VecDeque<Rec>, Fail>
    ensures { IfOk result (λ records. ArePlaced (O.order order.now) (intervals_of records.items)) }
{
    match records_of(alloc, order, text) {
        Ok(records) => Ok(records),
        Err(_) => Err(Fail::from("the records of a text")),
    }
}

// Whether a shape has a line for each hit.
fn has_lines(shape: Shape) -> bool
    ensures { result ≡ has_line_each shape }
{
    matches!(
        shape,
        Shape::Cut | Shape::OrigA | Shape::CutAndB | Shape::OrigBoth | Shape::Overlap
    )
}

// Lists the hits of both texts into a sink that takes at most this many bytes.
fn list(
    alloc: Global,
    listing: Listing,
    good: Option<usize>,
) -> Result<(Option<Fault>, ScriptSink), Fail> {
    if !has_lines(listing.shape) {
        return Err(Fail::from("a shape without lines"));
    }
    let records = BothRecords {
        first: read(alloc, &ByteOrder, FIRST)?,
        second: read(alloc, &ByteOrder, SECOND)?,
    };
    let sink = ScriptSink::new(alloc, 7, good);
    Ok(list_hits(alloc, &ByteOrder, listing, records, sink))
}

// A shape, a rule, and what bedtools writes.
type Row<'a> = (Shape, HitRule, &'a [u8]);

#[test]
fn hits_come_as_bedtools_writes_them(rt: HostRuntime) -> Result<(), Fail> {
    let any = HitRule::any_overlap();
    let rows: [Row; 7] = [
        (Shape::Cut, any, CUT),
        (Shape::OrigBoth, any, ORIG_BOTH),
        (Shape::CutAndB, any, CUT_AND_B),
        (Shape::Overlap, any, OVERLAP),
        (Shape::OrigBoth, rule(500_000_000, false, false), HALF),
        (
            Shape::OrigBoth,
            rule(1_000_000, true, false),
            BOTH_BY_A_THOUSANDTH,
        ),
        (Shape::OrigBoth, rule(0, false, true), ONE_STRAND),
    ];
    for (shape, rule, want) in &rows {
        let listing = Listing {
            shape: *shape,
            rule: *rule,
        };
        let (ended, sink) = list(rt.alloc(), listing, None)?;
        assert_eq!(rt; ended, None);
        assert_eq!(rt; sink.taken(), *want, "{shape:?} {rule:?}");
    }
    Ok(())
}

#[test]
fn a_failed_write_cuts_the_lines_off(rt: HostRuntime) -> Result<(), Fail> {
    for good in [0, 1, 100, ORIG_BOTH.len() - 1] {
        let listing = Listing {
            shape: Shape::OrigBoth,
            rule: HitRule::any_overlap(),
        };
        let (ended, sink) = list(rt.alloc(), listing, Some(good))?;
        let fault = ended.ok_or("a fault")?;
        assert_eq!(rt;
            (fault.kind, sink.taken()),
            (Kind::WriteFailed, &ORIG_BOTH[..good])
        );
    }
    Ok(())
}

// Texts and how many records each has, or none if a line is at fault.
#[rattlefmt::skip]
const TEXTS: [(&[u8], Option<usize>); 11] = [
    (b"", Some(0)), (b"\n\n", Some(0)), (b"#x\ntrack y\nchr1\t5\t9\r\n\nchr1\t5\t6", Some(2)),
    (b"chr1\t5\t9\nchr10\t1\t2\nchr2\t0\t1\n", Some(3)), (b"chr1\t5\t9\nchr1\t4\t9\n", None),
    (b"chr2\t5\t9\nchr1\t4\t9\n", None), (b"chr1\t5\n", None), (b"chr1\t5\t5\n", None),
    (b"chr1\t5\t9\r", Some(1)), (b"chr1\t5\t9\n\r", Some(1)), (b"chr1 5 9\n", None),
];

#[test]
fn texts_have_records(rt: HostRuntime) {
    for (text, count) in &TEXTS {
        match records_of(rt.alloc(), &ByteOrder, text) {
            Ok(records) => assert_eq!(rt; Some(records.len()), *count, "{text:?}"),
            Err(unread) => assert_eq!(rt; (unread, None), (Unread::Fault, *count), "{text:?}"),
        }
    }
}
