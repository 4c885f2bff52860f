//! Worked masks, step by step, and outputs and memory that fail.

mod growth_tests;

ghost use Rattle.std.specs.Prelude.{◌≡◌};

use super::*;
use crate::tests::lines_of;
use bt_bed::{Blocks, Single, parse_bed};
use bt_lines::{
    BufferedLines, Input, Kind, LineEnd, LineReader, ScriptSink, ScriptSource, write_failed,
};

// The FASTA text, the BED text and what is written.
type Texts = (&'static [u8], &'static [u8], &'static [u8]);

// What is wrong at which line of which input.
type Wrong = (Kind, Input, u64);

// How bases are masked, and whether the whole header is a name.
type Asked = (MaskHow, bool);

const HARD: Asked = (MaskHow::Hard(b'N'), false);

const SOFT: Asked = (MaskHow::Soft, false);

const FULL: Asked = (MaskHow::Hard(b'N'), true);

// What the row shows, what is asked for, the texts and what is wrong.
type Row = (&'static str, Asked, Texts, Option<Wrong>);

const THREE: &[u8] = b">s\nAAAA\n>t\nCCCC\n>s\nGGGG\n";

#[rattlefmt::skip]
const MASKED: [Row; 20] = [
    ("nothing", HARD, (b"", b"", b""), None),
    ("over two lines", HARD, (b">s d\nACGTAC\nGTAC", b"s\t4\t8\n", b">s d\nACGTNN\nNNAC"), None),
    ("past the sequence", HARD, (b">s\nACGT\n", b"s\t10\t20\n", b">s\nACGT\n"), None),
    ("over its end", HARD, (b">s\nACGT\n", b"s\t2\t20\n", b">s\nACNN\n"), None),
    ("two sequences of a name", HARD,
        (THREE, b"s\t0\t1\nt\t0\t1\ns\t0\t1\n", b">s\nNAAA\n>t\nNCCC\n>s\nNGGG\n"), None),
    ("the second of a name", HARD,
        (THREE, b"t\t0\t1\ns\t0\t1\n", b">s\nAAAA\n>t\nNCCC\n>s\nNGGG\n"), None),
    ("two sequences", HARD,
        (b">s\nAC\nGT\n>t\nTTTT\n", b"s\t1\t3\nt\t0\t1\n", b">s\nAN\nNT\n>t\nNTTT\n"), None),
    ("ends of lines stay", HARD,
        (b"\r\n>s\r\nAC\r\n\nGT\r", b"s\t1\t3\n", b"\r\n>s\r\nAN\r\n\nNT\r"), None),
    ("the second line", HARD, (b">s\nAC\nGT\n", b"s\t2\t3\n", b">s\nAC\nNT\n"), None),
    ("without a name or bases", HARD,
        (b">\nAA\n>s\n>t\nCC\n>u", b"t\t0\t1\n", b">\nAA\n>s\n>t\nNC\n>u"), None),
    ("records within one", HARD,
        (b">s\nAAAA\n", b"s\t0\t3\ns\t0\t1\ns\t2\t3\n", b">s\nNNNA\n"), None),
    ("lower case", SOFT, (b">s d\nACGTAC\nGTAC", b"s\t4\t8\n", b">s d\nACGTac\ngtAC"), None),
    ("lower case, a record within one", SOFT,
        (b">s\nACGT\nACGT\n", b"s\t0\t1\ns\t3\t6\ns\t4\t5\ns\t7\t20\n", b">s\naCGt\nacGt\n"), None),
    ("the whole header", FULL, (b">s d\nACGT\n", b"s d\t0\t1\n", b">s d\nNCGT\n"), None),
    ("no sequence", HARD, (b">s\nACGT\n", b"t\t0\t2\n", b">s\nACGT\n"),
        Some((Kind::NoSequence, Input::Second, 1))),
    ("no sequence, before a bad start", HARD, (b">s\nAAAA\n", b"t\t0\t2\nt\tx\t5\n", b">s\nAAAA\n"),
        Some((Kind::NoSequence, Input::Second, 1))),
    ("a sequence before the last", HARD,
        (b">s\nAA\n>t\nCC\n", b"t\t0\t1\ns\t0\t1\n", b">s\nAA\n>t\nNC\n"),
        Some((Kind::NoSequence, Input::Second, 2))),
    ("text before the header", HARD, (b"ACGT\n>s\n", b"", b""),
        Some((Kind::TextBeforeHeader, Input::First, 1))),
    ("out of order", HARD, (b">s\nAAAA\n", b"s\t3\t4\ns\t1\t2\n", b">s\n"),
        Some((Kind::OutOfOrder, Input::Second, 2))),
    ("a bad start", HARD, (b">s\nAAAA\nCCCC\n", b"s\t0\t1\ns\tx\t2\n", b">s\n"),
        Some((Kind::BadStart, Input::Second, 2))),
];

// Gives the next record, or the end of the records.
fn give_next_bed(
    mask: &mut Mask,
    blocks: &mut Blocks<ScriptSource<'_>>,
    out: &mut Out<ScriptSink>,
) -> Result<(), Fault>
    requires { mask.old.want ≡ MaskWant.Bed }
{
    match blocks.peek()? {
        None => return mask.end_bed(out),
        Some(_) => {}
    }
    let line = blocks.line();
    let taken = match blocks.peek()? {
        None => return Ok(()),
        Some(bed) => mask.give_bed(&bed, line, out)?,
    };
    if taken == Taken::Yes {
        blocks.advance();
    }
    Ok(())
}

// Gives what is wanted, and returns true if something was.
fn give_next(
    mask: &mut Mask,
    lines: &mut LineReader<ScriptSource<'_>>,
    blocks: &mut Blocks<ScriptSource<'_>>,
    out: &mut Out<ScriptSink>,
) -> Result<bool, Fault> {
    match mask.want() {
        MaskWant::Line => match lines.next()? {
            Some(line) => mask.give_line(&line, out)?,
            None => mask.end_lines(),
        },
        MaskWant::Bed => give_next_bed(mask, blocks, out)?,
        MaskWant::Nothing => return Ok(false),
    }
    Ok(true)
}

// Gives what is wanted, at most 64 times, and flushes the output at the end, or also after each.
fn drive(
    mask: &mut Mask,
    lines: &mut LineReader<ScriptSource<'_>>,
    blocks: &mut Blocks<ScriptSource<'_>>,
    out: &mut Out<ScriptSink>,
    flushes: bool,
) -> Result<(), Fault> {
    for _turn in 0..64 {
        if !give_next(mask, lines, blocks, out)? {
            return out.flush();
        }
        if flushes {
            let _ = out.flush().is_ok();
        }
    }
    out.flush()
}

// Gives a FASTA and a BED text, and returns what the sink has then, and the fault.
pub(crate) fn give(
    mask: &mut Mask,
    alloc: Global,
    texts: (&[u8], &[u8]),
    sink: ScriptSink,
    flushes: bool,
) -> (ScriptSink, Result<(), Fault>) {
    let mut lines = lines_of(alloc, Input::First, texts.0, 7);
    let mut blocks = Blocks::new(alloc, lines_of(alloc, Input::Second, texts.1, 7));
    let mut out = Out::new(sink);
    let driven = drive(mask, &mut lines, &mut blocks, &mut out, flushes);
    let _ = out.flush().is_ok();
    let _ = lines.into_source();
    let _ = blocks.into_reader().into_source();
    (out.into_sink(), driven)
}

// Whether this is what went wrong, or nothing did.
fn is_it(driven: Result<(), Fault>, want: Option<Wrong>) -> bool {
    let Err(fault) = driven else {
        return want.is_none();
    };
    match fault.place {
        Some(place) => Some((fault.kind, place.input, place.line)) == want,
        None => false,
    }
}

// Whether a row gives its bytes and its fault.
fn agrees(alloc: Global, row: &Row) -> bool {
    let (_, (how, full), texts, want) = *row;
    let mut mask = Mask::new(alloc, how, full);
    let sink = ScriptSink::new(alloc, 7, None);
    let (sink, driven) = give(&mut mask, alloc, (texts.0, texts.1), sink, false);
    !sink.failed() && sink.taken() == texts.2 && is_it(driven, want)
}

// The first row that gives something else.
fn first_unlike(alloc: Global, rows: &[Row]) -> Option<&'static str> {
    for row in rows {
        if !agrees(alloc, row) {
            return Some(row.0);
        }
    }
    None
}

#[test]
fn sequences_are_masked(rt: HostRuntime) {
    assert_eq!(rt; first_unlike(rt.alloc(), &MASKED), None);
}

#[rattlefmt::skip]
const CUT: Texts =
    (b">s d\nACGTAC\nGTAC\r\n>t\nAA", b"s\t4\t8\nt\t1\t2\n", b">s d\nACGTNN\nNNAC\r\n>t\nAN");

// Whether a sink that fails after `good` bytes has taken the first ones, and that is reported.
fn cuts_at(alloc: Global, good: usize) -> bool {
    let mut mask = Mask::new(alloc, MaskHow::Hard(b'N'), false);
    let sink = ScriptSink::new(alloc, 1, Some(good));
    let (sink, driven) = give(&mut mask, alloc, (CUT.0, CUT.1), sink, true);
    let has_ended = driven == Err(write_failed()) && mask.want() == MaskWant::Nothing;
    has_ended && good < CUT.2.len() && Some(sink.taken()) == CUT.2.get(..good)
}

fn first_uncut(alloc: Global) -> Option<usize> {
    for good in 0..23usize {
        if !cuts_at(alloc, good) {
            return Some(good);
        }
    }
    None
}

#[test]
fn a_failed_write_is_reported_and_ends_it(rt: HostRuntime) {
    assert_eq!(rt; first_uncut(rt.alloc()), None);
}

fn give_line(mask: &mut Mask, text: &[u8], out: &mut Out<ScriptSink>) -> bool {
    match mask.want() {
        MaskWant::Line => {
            let line = Line {
                number: 1,
                text,
                ending: LineEnd::Lf,
            };
            mask.give_line(&line, out).is_ok()
        }
        _ => false,
    }
}

// Whether the record of this line is taken, if one is wanted.
fn takes(mask: &mut Mask, line: &[u8], out: &mut Out<ScriptSink>) -> Option<bool> {
    let bed = parse_bed(line).ok().flatten()?;
    match mask.want() {
        MaskWant::Bed => Some(mask.give_bed(&bed, 1, out).ok()? == Taken::Yes),
        _ => None,
    }
}

// What is done with a mask. A line is given to it, a record that it takes, or one that it leaves.
// Or it is asked how many records it keeps, or what it wants next.
#[derive(Clone, Copy)]
enum Step {
    Line(&'static [u8]),
    Takes(&'static [u8]),
    Leaves(&'static [u8]),
    Keeps(usize),
    Wants(MaskWant),
}

// Whether the step goes as it says.
fn goes(mask: &mut Mask, step: Step, out: &mut Out<ScriptSink>) -> bool {
    match step {
        Step::Line(text) => give_line(mask, text, out),
        Step::Takes(line) => takes(mask, line, out) == Some(true),
        Step::Leaves(line) => takes(mask, line, out) == Some(false),
        Step::Keeps(count) => mask.kept_len() == count,
        Step::Wants(want) => mask.want() == want,
    }
}

// The index of the first step that goes otherwise, and what is written.
fn first_otherwise(alloc: Global, steps: &[Step]) -> (Option<usize>, ScriptSink) {
    let mut out = Out::new(ScriptSink::new(alloc, 7, None));
    let mut mask = Mask::new(alloc, MaskHow::Soft, false);
    let mut found = None;
    for (index, step) in steps.iter().enumerate() {
        if found.is_none() && !goes(&mut mask, *step, &mut out) {
            found = Some(index);
        }
    }
    let _ = out.flush().is_ok();
    (found, out.into_sink())
}

#[rattlefmt::skip]
const HELD: [Step; 16] = [
    Step::Line(b">s"), Step::Leaves(b"s\t1\t3"), Step::Keeps(0),
    Step::Line(b"AC"), Step::Takes(b"s\t1\t3"), Step::Leaves(b"t\t0\t1"), Step::Keeps(1),
    Step::Line(b"GT"), Step::Wants(MaskWant::Line), Step::Keeps(1),
    Step::Line(b">t"), Step::Leaves(b"t\t0\t1"), Step::Keeps(0),
    Step::Line(b"TTTT"), Step::Takes(b"t\t0\t1"), Step::Keeps(1),
];

// A record that ends where a line starts isn't held by that line, and one that ends past it is.
#[rattlefmt::skip]
const ENDED: [Step; 11] = [
    Step::Line(b">s"), Step::Leaves(b"s\t0\t2"),
    Step::Line(b"AC"), Step::Takes(b"s\t0\t2"), Step::Takes(b"s\t1\t3"), Step::Leaves(b"s\t2\t4"), Step::Keeps(2),
    Step::Line(b"GT"), Step::Keeps(1), Step::Takes(b"s\t2\t4"), Step::Keeps(2),
];

#[test]
fn records_that_reach_into_the_line_are_held(rt: HostRuntime) {
    assert_eq!(rt; first_otherwise(rt.alloc(), &HELD).0, None);
    assert_eq!(rt; first_otherwise(rt.alloc(), &ENDED).0, None);
}

#[rattlefmt::skip]
const AHEAD: [Step; 15] = [
    Step::Line(b">s"), Step::Leaves(b"s\t5\t9"),
    Step::Line(b"AC"), Step::Line(b""), Step::Line(b"GTA"), Step::Wants(MaskWant::Line),
    Step::Line(b"CGT"), Step::Takes(b"s\t5\t9"), Step::Leaves(b"s\t12\t13"),
    Step::Line(b"ACGT"), Step::Wants(MaskWant::Line), Step::Keeps(1),
    Step::Line(b">s"), Step::Wants(MaskWant::Bed), Step::Keeps(0),
];

#[test]
fn lines_before_the_record_ahead_dont_wait(rt: HostRuntime) {
    let (found, sink) = first_otherwise(rt.alloc(), &AHEAD);
    let want: &[u8] = b">s\nAC\n\nGTA\ncgt\naCGT\n";
    assert_eq!(rt; (found, sink.failed(), sink.taken()), (None, false, want));
}

// Of which all lines are buffered at once.
#[rattlefmt::skip]
const TOGETHER: [Row; 6] = [
    ("two sequences", HARD,
        (b"\n>s\nACGT\n\nAC\nGA\n>t\nTT\n", b"s\t7\t9\nt\t0\t1\n", b"\n>s\nACGT\n\nAC\nGN\n>t\nNT\n"),
        None),
    ("ends of lines stay", HARD,
        (b">s\r\nACGT\r\nACG\r\nAA\r\n", b"s\t7\t8\n", b">s\r\nACGT\r\nACG\r\nNA\r\n"), None),
    ("over two lines of four", HARD,
        (b">s\nAC\nGT\nAC\nGT\n", b"s\t1\t3\ns\t2\t3\n", b">s\nAN\nNT\nAC\nGT\n"), None),
    ("no record", HARD, (b">s\nAC\nGT\n", b"", b">s\nAC\nGT\n"), None),
    ("no sequence", HARD,
        (b">s\nAC\nGT\n>t\nAC\n", b"t\t0\t1\nu\t0\t1\nt\t1\t2\n", b">s\nAC\nGT\n>t\nNC\n"),
        Some((Kind::NoSequence, Input::Second, 2))),
    ("text before the header", HARD, (b"\nAC\n>s\n", b"s\t0\t1\n", b"\n"),
        Some((Kind::TextBeforeHeader, Input::First, 2))),
];

// Gives the record of a line. Once the lines have ended their end is given first.
fn give_record(
    mask: &mut Mask,
    lines: &mut BufferedLines<'_>,
    line: &Line<'_>,
    out: &mut Out<ScriptSink>,
) -> Result<(), Fault> {
    let Ok(Some(bed)) = parse_bed(line.text) else {
        return Ok(());
    };
    let mut record = Single::new(bed, line.number);
    mask.advance(lines, &mut record, out)?;
    if !record.is_empty() && mask.want() == MaskWant::Line {
        mask.end_lines();
    }
    mask.advance(lines, &mut record, out)
}

// Gives the end of the records, the lines that are left, and their end.
fn give_ends(
    mask: &mut Mask,
    lines: &mut BufferedLines<'_>,
    out: &mut Out<ScriptSink>,
) -> Result<(), Fault> {
    for _turn in 0..4 {
        mask.advance(lines, &mut Single::none(b""), out)?;
        match mask.want() {
            MaskWant::Line => mask.end_lines(),
            MaskWant::Bed => mask.end_bed(out)?,
            MaskWant::Nothing => return Ok(()),
        }
    }
    Ok(())
}

// Gives all lines together, and the records one by one.
fn give_together(
    mask: &mut Mask,
    lines: &mut BufferedLines<'_>,
    beds: &LineReader<ScriptSource<'_>>,
    out: &mut Out<ScriptSink>,
) -> Result<(), Fault> {
    let mut beds = beds.buffered();
    for _turn in 0..8 {
        let Some(line) = beds.next() else {
            break;
        };
        give_record(mask, lines, &line, out)?;
    }
    give_ends(mask, lines, out)
}

// Whether the texts give their bytes and this fault, if all lines are given together.
fn agrees_together(alloc: Global, texts: &Texts, want: Option<Wrong>) -> bool {
    let mut reader = LineReader::new(alloc, ScriptSource::new(texts.0, 64, None), Input::First);
    let mut beds = LineReader::new(alloc, ScriptSource::new(texts.1, 64, None), Input::Second);
    let mut out = Out::new(ScriptSink::new(alloc, 7, None));
    let mut mask = Mask::new(alloc, MaskHow::Hard(b'N'), false);
    let are_filled = reader.fill().is_ok() && beds.fill().is_ok();
    let mut lines = reader.buffered();
    let driven = give_together(&mut mask, &mut lines, &beds, &mut out);
    let is_flushed = out.flush().is_ok();
    let is_written = out.into_sink().taken() == texts.2;
    let _ = reader.into_source();
    let _ = beds.into_source();
    are_filled && is_flushed && is_written && is_it(driven, want)
}

// The first row that gives something else.
fn first_unlike_together(alloc: Global, rows: &[Row]) -> Option<&'static str> {
    for row in rows {
        if !agrees_together(alloc, &row.2, row.3) {
            return Some(row.0);
        }
    }
    None
}

#[test]
fn lines_given_together_are_masked(rt: HostRuntime) {
    assert_eq!(rt; first_unlike_together(rt.alloc(), &TOGETHER), None);
}
