//! Tests with batches of both inputs.

ghost use Rattle.std.specs.Prelude.{◌≡◌};
ghost use Rattle.bt_bed.specs.calls.Records.{order_in};
ghost use Rattle.bt_sweep.specs.calls.Sweeping.{GivesKnown};
ghost use Rattle.bt_sweep.specs.calls.SweepView.{order_of};

use super::*;
use crate::output::shape::Shape::*;
use bt_bed::{Genome, Records};
use bt_lines::{Input, LineReader, ScriptSource, Source};

// Gives the end of the second input, if that is wanted.
fn end_second_if_wanted<H: Held, O: ChromOrder, K: Sink>(
    sweep: &mut Sweep<'_, H, O>,
    out: &mut Out<K>,
) -> Result<(), Fault>
    ensures { order_of sweep.new ≡ order_of sweep.old }
{
    match sweep.want() {
        Want::B => sweep.end_b(out),
        _ => Ok(()),
    }
}

// Gives the end of the first input, if that is wanted.
fn end_first_if_wanted<H: Held, O: ChromOrder>(sweep: &mut Sweep<'_, H, O>)
    ensures { order_of sweep.new ≡ order_of sweep.old }
{
    match sweep.want() {
        Want::A => sweep.end_a(),
        _ => {}
    }
}

// Gives a sweep what both cursors have, and the ends of both inputs.
fn give_both<A: Cursor, B: Cursor, H: Held, O: ChromOrder, K: Sink>(
    sweep: &mut Sweep<'_, H, O>,
    a: &mut A,
    b: &mut B,
    out: &mut Out<K>,
) -> Result<(), Fault>
    requires known_a { GivesKnown A.Cursor (order_of sweep.old) a.old }
    requires known_b { GivesKnown B.Cursor (order_of sweep.old) b.old }
{
    sweep.advance(a, b, out)?;
    end_second_if_wanted(sweep, out)?;
    sweep.advance(a, b, out)?;
    end_first_if_wanted(sweep);
    Ok(())
}

// Gives a sweep what both readers have buffered, and the ends of both inputs.
fn give_buffered<A: Source, B: Source, K: Sink>(
    first: &mut Records<'_, A, Genome>,
    second: &mut Records<'_, B, Genome>,
    sweep: &mut Sweep<'_, HeldIndex, Genome>,
    out: &mut Out<K>,
) -> Result<(), Fault>
    requires first { order_of sweep.old ≡ order_in first.old }
    requires second { order_of sweep.old ≡ order_in second.old }
{
    let _ = first.fill()?;
    let _ = second.fill()?;
    let mut a = first.buffered();
    let mut b = second.buffered();
    give_both(sweep, &mut a, &mut b, out)
}

// Sweeps two sources of one chromosome each. The fault, if there is one, and whether nothing is wanted then.
fn sweep_sources<A: Source + Drop, B: Source + Drop, K: Sink>(
    alloc: Global,
    genome: &Genome,
    (shape, limit): (Shape, Option<u64>),
    sources: (A, B),
    out: &mut Out<K>,
) -> (Result<(), Fault>, bool) {
    let first = LineReader::new(alloc, sources.0, Input::First);
    let second = LineReader::new(alloc, sources.1, Input::Second);
    let mut first = Records::new(alloc, first, genome);
    let mut second = Records::new(alloc, second, genome);
    let (held, rule) = (HeldIndex::new(alloc), HitRule::any_overlap());
    let mut sweep = Sweep::new(alloc, held, shape, rule, limit, genome);
    let given = give_buffered(&mut first, &mut second, &mut sweep, out);
    let is_done = sweep.want() == Want::Nothing;
    let _ = first.into_reader().into_source();
    let _ = second.into_reader().into_source();
    (given, is_done)
}

// What was put before, and the texts of both inputs.
type Texts<'a> = (&'a [u8], &'a [u8], &'a [u8]);

// What a sink takes that fails after `good` bytes, and the fault, once a text was put and two texts were swept.
fn sweep_texts(
    alloc: Global,
    how: (Shape, Option<u64>),
    texts: Texts<'_>,
    good: Option<usize>,
) -> Result<(Vec<u8>, Option<Fault>), Fail> {
    let genome = genome(alloc)?;
    let mut out = Out::new(ScriptSink::new(alloc, 100, good));
    let is_put = out.put(texts.0).is_ok();
    let first = ScriptSource::new(texts.1, 8192, None);
    let second = ScriptSource::new(texts.2, 8192, None);
    let (given, is_done) = sweep_sources(alloc, &genome, how, (first, second), &mut out);
    if !is_put || !is_done {
        return Err("a sweep that wants nothing".into());
    }
    let flushed = out.flush();
    let mut taken = Vec::new(alloc);
    taken.extend_from_slice(out.into_sink().taken())?;
    Ok((taken, given.and(flushed).err()))
}

// Some are hit, two have lines that aren't what is written, and some end before or after all of the second input.
const FIRST: &[u8] = b"chr1\t1\t5\nchr1\t2\t6\tn\nchr1\t03\t7\nchr1\t8\t9\nchr1\t20\t30\n\
    chr1\t40\t50\nchr1\t60\t70\r\nchr1\t75\t76\tm\nchr1\t80\t90\n";

const SECOND: &[u8] = b"chr1\t10\t12\nchr1\t25\t26\nchr1\t52\t53\nchr1\t70\t71\n";

// A shape, and what is written in it.
#[rattlefmt::skip]
const WRITTEN: [(Shape, &[u8]); 10] = [
    (Cut, b"chr1\t25\t26\n"),
    (OrigA, b"chr1\t20\t30\n"),
    (CutAndB, b"chr1\t25\t26\tchr1\t25\t26\n"),
    (OrigBoth, b"chr1\t20\t30\tchr1\t25\t26\n"),
    (Overlap, b"chr1\t20\t30\tchr1\t25\t26\t1\n"),
    (Once, b"chr1\t20\t30\n"),
    (Missing,
        b"chr1\t1\t5\nchr1\t2\t6\tn\nchr1\t3\t7\nchr1\t8\t9\nchr1\t40\t50\nchr1\t60\t70\n\
          chr1\t75\t76\tm\nchr1\t80\t90\n"),
    (Count,
        b"chr1\t1\t5\t0\nchr1\t2\t6\tn\t0\nchr1\t3\t7\t0\nchr1\t8\t9\t0\nchr1\t20\t30\t1\n\
          chr1\t40\t50\t0\nchr1\t60\t70\t0\nchr1\t75\t76\tm\t0\nchr1\t80\t90\t0\n"),
    (Pieces,
        b"chr1\t1\t5\nchr1\t2\t6\tn\nchr1\t3\t7\nchr1\t8\t9\nchr1\t20\t25\nchr1\t26\t30\n\
          chr1\t40\t50\nchr1\t60\t70\nchr1\t75\t76\tm\nchr1\t80\t90\n"),
    (Whole,
        b"chr1\t1\t5\nchr1\t2\t6\tn\nchr1\t3\t7\nchr1\t8\t9\nchr1\t40\t50\nchr1\t60\t70\n\
          chr1\t75\t76\tm\nchr1\t80\t90\n"),
];

// Whether these bytes are written up to where the sink fails, which is an error only if it doesn't take all.
fn writes_up_to(
    alloc: Global,
    shape: Shape,
    good: usize,
    texts: Texts<'_>,
    want: &[u8],
) -> Result<bool, Fail> {
    let (taken, fault) = sweep_texts(alloc, (shape, None), texts, Some(good))?;
    Ok(is_taken(taken.as_slice(), fault, want, good))
}

// The first shape in which something else is written of these inputs, wherever the sink fails.
fn first_miswritten_in(
    alloc: Global,
    rows: &[(Shape, &[u8])],
    first: &[u8],
    second: &[u8],
) -> Result<Option<Shape>, Fail> {
    for (shape, want) in rows {
        for good in 0..want.len().saturating_add(1) {
            if !writes_up_to(alloc, *shape, good, (b"", first, second), want)? {
                return Ok(Some(*shape));
            }
        }
    }
    Ok(None)
}

// What is written of a last line without a line feed, which is a batch of its own. It gets one, and is copied through,
// except in the last shape.
const LAST: [(Shape, &[u8]); 4] = [
    (Missing, b"chr1\t80\t90\n"),
    (Pieces, b"chr1\t80\t90\n"),
    (Whole, b"chr1\t80\t90\n"),
    (Count, b"chr1\t80\t90\t0\n"),
];

// The first shape in which something else is written of such a line, before, after or without records.
fn first_last_miswritten(alloc: Global, rows: &[(Shape, &[u8])]) -> Result<Option<Shape>, Fail> {
    for second in [SECOND, b"chr1\t10\t20\n", b"chr1\t900\t910\n", b""] {
        let found = first_miswritten_in(alloc, rows, b"chr1\t80\t90", second)?;
        if found.is_some() {
            return Ok(found);
        }
    }
    Ok(None)
}

#[test]
fn buffered_records_in_each_shape(rt: HostRuntime) -> Result<(), Fail> {
    let found = first_miswritten_in(rt.alloc(), &WRITTEN, FIRST, SECOND)?;
    let found = found.or(first_last_miswritten(rt.alloc(), &LAST)?);
    assert_eq!(rt; found, None);
    Ok(())
}

// Most of a block of lines.
fn many_lines(alloc: Global) -> Result<String, Fail> {
    let mut text = String::new(alloc);
    for start in 100u32..350 {
        let line = format!(in alloc; "chr1\t{start}\t{}\tname_{start}\t0\t+\n", start + 5)?;
        text.push_str(line.as_str())?;
    }
    Ok(text)
}

// The first place of a failed write at which lines that are put twice are cut otherwise.
fn first_cut_otherwise(
    alloc: Global,
    lines: &[u8],
    twice: &[u8],
    second: &[u8],
) -> Result<Option<usize>, Fail> {
    for good in [0, 1, 30, 4000, 7000, 8000, 8191, 8192, 10000] {
        if !writes_up_to(alloc, Missing, good, (lines, lines, second), twice)? {
            return Ok(Some(good));
        }
    }
    Ok(None)
}

// The lines that are copied through fill the block, so the sink fails while they are put.
#[test]
fn lines_are_cut_where_the_sink_fails(rt: HostRuntime) -> Result<(), Fail> {
    let text = many_lines(rt.alloc())?;
    let mut twice = many_lines(rt.alloc())?;
    twice.push_str(text.as_str())?;
    let (lines, twice) = (text.as_bytes(), twice.as_bytes());
    let before = first_cut_otherwise(rt.alloc(), lines, twice, b"chr1\t10\t20\n")?;
    let after = b"chr1\t10\t20\nchr1\t900\t910\n";
    let after = first_cut_otherwise(rt.alloc(), lines, twice, after)?;
    assert_eq!(rt; (before, after), (None, None));
    Ok(())
}

const BEFORE_TWO: &[u8] = b"chr1\t1\t5\nchr1\t2\t6\nchr1\t20\t30\n";

const TWO: &[u8] = b"chr1\t10\t12\nchr1\t21\t22\nchr1\t23\t24\n";

// Whether this is written and this is the fault where one record may be held.
fn ends_so(
    alloc: Global,
    before: &[u8],
    good: Option<usize>,
    written: &[u8],
    (kind, line): (Kind, Option<u64>),
) -> Result<bool, Fail> {
    let texts = (before, BEFORE_TWO, TWO);
    let (taken, fault) = sweep_texts(alloc, (Missing, Some(1)), texts, good)?;
    let Some(fault) = fault else {
        return Ok(false);
    };
    let at = match fault.place {
        Some(place) => Some(place.line),
        None => None,
    };
    Ok(taken.as_slice() == written && (fault.kind, at) == (kind, line))
}

// Lines that are copied through are put before a fault of a record that comes after them.
#[test]
fn lines_are_put_before_a_fault(rt: HostRuntime) -> Result<(), Fail> {
    let held = (Kind::TooManyHeld, Some(3));
    let is_put = ends_so(rt.alloc(), b"", None, b"chr1\t1\t5\nchr1\t2\t6\n", held)?;
    let block = [b'x'; 8192];
    let failed = (Kind::WriteFailed, None);
    let is_cut = ends_so(rt.alloc(), &block, Some(8191), &block[..8191], failed)?;
    assert_eq!(rt; (is_put, is_cut), (true, true));
    Ok(())
}
