ghost use Rattle.std.specs.Prelude.{◌≡◌, []};

use self::Step::{EndSecond, First, Holds, HoldsAt, Second, Wants};
use super::*;
use crate::active::held_index::HeldIndex;
use crate::active::held_list::HeldList;
use crate::output::shape::Shape::{Count, Cut};
use crate::plain::plain_intersect;
use crate::sweep::Want::{A, B};
use crate::tests::worked::{RuledCase, SHAPES, records_of, worked_cases};
use crate::tests::{genome, output, start_of};
use bt_bed::Taken::{No, Yes};
use bt_bed::{ByteOrder, parse_bed};
use bt_lines::{Kind, ScriptSink};
use std::alloc::AllocError;
use std::process::Abort;
use std::test::Fail;

mod batches;

// What comes of a record or an end that is given. An error is a fault, or none if it isn't wanted.
type Given<T> = Result<T, Option<Fault>>;

fn given<T>(answer: Result<T, Fault>) -> Given<T> {
    match answer {
        Ok(taken) => Ok(taken),
        Err(fault) => Err(Some(fault)),
    }
}

// Gives a record of the first input, or the end of that.
fn give_first<H: Held, O: ChromOrder, K: Sink>(
    sweep: &mut Sweep<'_, H, O>,
    line: Option<&&[u8]>,
    out: &mut Out<K>,
) -> Given<()> {
    let Some(line) = line else {
        return match sweep.want() {
            Want::A => Ok(sweep.end_a()),
            _ => Err(None),
        };
    };
    let Ok(Some(a)) = parse_bed(line) else {
        return Err(None);
    };
    if !sweep.order.knows(a.chrom) {
        return Err(None);
    }
    match sweep.want() {
        Want::A => given(sweep.give_a(&a, out)),
        _ => Err(None),
    }
}

// Gives a record of the second input, as that of the line of this number, or the end of that.
fn give_second<H: Held, O: ChromOrder, K: Sink>(
    sweep: &mut Sweep<'_, H, O>,
    number: usize,
    line: Option<&&[u8]>,
    out: &mut Out<K>,
) -> Given<Taken> {
    let Some(line) = line else {
        return match sweep.want() {
            Want::B => given(sweep.end_b(out).and(Ok(Yes))),
            _ => Err(None),
        };
    };
    let Ok(Some(b)) = parse_bed(line) else {
        return Err(None);
    };
    if !sweep.order.knows(b.chrom) {
        return Err(None);
    }
    match sweep.want() {
        Want::B => given(sweep.give_b(&b, number as u64, out)),
        _ => Err(None),
    }
}

// Gives the sweep two inputs to their ends, as it wants them.
fn sweep_all<H: Held, O: ChromOrder, K: Sink>(
    sweep: &mut Sweep<'_, H, O>,
    first: &[&[u8]],
    second: &[&[u8]],
    out: &mut Out<K>,
) -> Given<()> {
    let mut i: usize = 0;
    let mut j: usize = 0;
    for _ in 0..100 {
        match sweep.want() {
            Want::A => {
                give_first(sweep, first.get(i), out)?;
                i = i.saturating_add(1);
            }
            Want::B => {
                let number = j.saturating_add(1);
                if give_second(sweep, number, second.get(j), out)? == Yes {
                    j = number;
                }
            }
            Want::Nothing => return Ok(()),
        }
    }
    Err(None)
}

// Whether a sink that takes `good` bytes took all of these and no fault came, or it took the first and failed.
fn is_taken(taken: &[u8], fault: Option<Fault>, want: &[u8], good: usize) -> bool {
    let kind = fault.map(|fault| fault.kind);
    if want.len() <= good {
        return kind == None && taken == want;
    }
    kind == Some(Kind::WriteFailed) && Some(taken) == want.get(..good)
}

// Whether a sweep writes what the case wants, or of that the first `good` bytes. It wants nothing then.
fn writes_ruled<H: Held, O: ChromOrder>(
    alloc: Global,
    held: H,
    order: &O,
    case: &RuledCase,
    good: usize,
) -> bool
    requires { H.records held ≡ [] }
{
    let (_, shape, rule, first, second, want) = *case;
    let mut sweep = Sweep::new(alloc, held, shape, rule, None, order);
    let mut out = Out::new(ScriptSink::new(alloc, 3, Some(good)));
    let swept = sweep_all(&mut sweep, first, second, &mut out);
    let is_done = sweep.want() == Want::Nothing;
    let fault = match swept {
        Ok(()) => out.flush().err(),
        Err(fault) => fault,
    };
    is_done && is_taken(out.into_sink().taken(), fault, want, good)
}

// The name of the first case that is written otherwise with either form of held records, on a sink that works and on
// those that fail.
fn first_miswritten<O: ChromOrder>(
    alloc: Global,
    order: &O,
    cases: &[RuledCase],
) -> Option<&'static str> {
    for case in cases {
        for good in 0..case.5.len().saturating_add(1) {
            if !writes_ruled(alloc, HeldList::new(alloc), order, case, good)
                || !writes_ruled(alloc, HeldIndex::new(alloc), order, case, good)
            {
                return Some(case.0);
            }
        }
    }
    None
}

#[test]
fn worked_rows(rt: HostRuntime) -> Result<(), Fail> {
    let genome = genome(rt.alloc())?;
    let [any_overlap, ruled] = worked_cases();
    let found = first_miswritten(rt.alloc(), &genome, any_overlap);
    let found = found.or(first_miswritten(rt.alloc(), &genome, ruled));
    assert_eq!(rt; found, None);
    Ok(())
}

// What is done with a sweep. A record of the first input is given to it, one of the second, which it takes
// or not, or the end of that. Or it is asked what it wants, how many records it holds, or where one of
// those starts.
#[derive(Clone, Copy)]
enum Step {
    First(&'static [u8]),
    Second(&'static [u8], Taken),
    EndSecond,
    Wants(Want),
    Holds(usize),
    HoldsAt(usize, Option<u64>),
}

// Whether the step goes as it says.
fn goes<H: Held, O: ChromOrder, K: Sink>(
    sweep: &mut Sweep<'_, H, O>,
    step: Step,
    out: &mut Out<K>,
) -> bool {
    match step {
        First(line) => give_first(sweep, Some(&line), out) == Ok(()),
        Second(line, taken) => give_second(sweep, 1, Some(&line), out) == Ok(taken),
        EndSecond => give_second(sweep, 1, None, out) == Ok(Yes),
        Wants(want) => sweep.want() == want,
        Holds(count) => sweep.held().len() == count,
        HoldsAt(index, start) => start_of(sweep.held(), index) == start,
    }
}

// The index of the first step that goes otherwise.
fn first_that_goes_otherwise<H: Held, O: ChromOrder, K: Sink>(
    sweep: &mut Sweep<'_, H, O>,
    steps: &[Step],
    out: &mut Out<K>,
) -> Option<usize> {
    for (index, step) in steps.iter().enumerate() {
        if !goes(sweep, *step, out) {
            return Some(index);
        }
    }
    None
}

// What steps show in a sweep that was given nothing before, the steps, and what is written then.
type Stepped = (&'static str, &'static [Step], &'static [u8]);

// If a line is at fault, the lines of the records that are decided by then are written: the second input's third line in the
// third case, that one or the first input's second line in the fourth, and the second input's first line in the sixth.
#[rattlefmt::skip]
const STEPPED: [Stepped; 7] = [
    ("records are held until one starts past them", &[
        Wants(A), First(b"chr1\t0\t100"), Wants(B), Second(b"chr1\t10\t20", Yes), Wants(B),
        Second(b"chr1\t55\t58", Yes), Wants(B), Second(b"chr1\t90\t95", Yes), Holds(3), EndSecond,
        Wants(A), Holds(3), First(b"chr1\t50\t60"), Holds(2), HoldsAt(0, Some(55)),
        HoldsAt(1, Some(90)), HoldsAt(2, None), Wants(A),
    ], b"chr1\t10\t20\nchr1\t55\t58\nchr1\t90\t95\nchr1\t55\t58\n"),
    ("a record before the chromosome is not held", &[
        First(b"chr2\t0\t5"), Second(b"chr1\t0\t9", Yes), Holds(0), Second(b"chr2\t5\t9", No),
        Holds(0), Wants(A),
    ], b""),
    ("decided lines are written before the end", &[
        First(b"chr1\t0\t10"), Second(b"chr1\t2\t4", Yes), Second(b"chr1\t50\t60", No),
        First(b"chr1\t100\t110"), Second(b"chr1\t50\t60", Yes), Holds(0), Wants(B),
    ], b"chr1\t2\t4\n"),
    ("a record that starts past the first one decides it", &[
        First(b"chr1\t0\t10"), Second(b"chr1\t2\t4", Yes), Second(b"chr1\t50\t60", No), Wants(A),
    ], b"chr1\t2\t4\n"),
    ("a record of a later chromosome decides it", &[
        First(b"chr1\t0\t10"), Second(b"chr1\t2\t4", Yes), Second(b"chr2\t0\t5", No), Wants(A),
    ], b"chr1\t2\t4\n"),
    ("nothing is decided before the first record of the second input", &[
        First(b"chr1\t0\t10"), Wants(B), Holds(0),
    ], b""),
    ("records of equal starts hit in the order in which they come", &[
        First(b"chr1\t0\t10"), Second(b"chr1\t2\t9", Yes), Second(b"chr1\t2\t4", Yes),
        Second(b"chr1\t2\t20", Yes), Holds(3), EndSecond, First(b"chr1\t0\t3"), Wants(A),
    ], b"chr1\t2\t9\nchr1\t2\t4\nchr1\t2\t10\nchr1\t2\t3\nchr1\t2\t3\nchr1\t2\t3\n"),
];

// The index of the first step that a sweep over these goes otherwise, or one past the last if its output is another.
fn stepped_otherwise<H: Held, O: ChromOrder>(
    alloc: Global,
    held: H,
    order: &O,
    case: &Stepped,
) -> Option<usize>
    requires { H.records held ≡ [] }
{
    let (_, steps, want) = *case;
    let mut sweep = Sweep::new(alloc, held, Cut, HitRule::any_overlap(), None, order);
    let mut out = output(alloc, 100);
    let found = first_that_goes_otherwise(&mut sweep, steps, &mut out);
    let is_flushed = out.flush().is_ok();
    if found.is_none() && (!is_flushed || out.into_sink().taken() != want) {
        return Some(steps.len());
    }
    found
}

// The first of these that goes otherwise with either form of held records, and the index of the step.
fn first_stepped_otherwise(
    alloc: Global,
    cases: &[Stepped],
) -> Result<Option<(&'static str, usize)>, Fail> {
    let genome = genome(alloc)?;
    for case in cases {
        let listed = stepped_otherwise(alloc, HeldList::new(alloc), &genome, case);
        let indexed = stepped_otherwise(alloc, HeldIndex::new(alloc), &genome, case);
        if let Some(index) = listed.or(indexed) {
            return Ok(Some((case.0, index)));
        }
    }
    Ok(None)
}

#[test]
fn steps_go_as_they_say(rt: HostRuntime) -> Result<(), Fail> {
    assert_eq!(rt; first_stepped_otherwise(rt.alloc(), &STEPPED)?, None);
    Ok(())
}

// Gives a thousand records of the second input, each within the one before it. Returns true if all are taken.
fn takes_nested<H: Held, O: ChromOrder, K: Sink>(
    alloc: Global,
    sweep: &mut Sweep<'_, H, O>,
    out: &mut Out<K>,
) -> Result<bool, AllocError> {
    for start in 0..1000_u32 {
        let line = format!(in alloc; "chr1\t{start}\t{}", 10_000 - start)?;
        if give_second(sweep, 1, Some(&line.as_bytes()), out) != Ok(Yes) {
            return Ok(false);
        }
    }
    Ok(true)
}

// Whether three records are written with how many of a thousand nested ones hit them.
fn counts_nested<H: Held>(alloc: Global, held: H) -> Result<bool, AllocError>
    requires { H.records held ≡ [] }
{
    let rule = HitRule::any_overlap();
    let mut sweep = Sweep::new(alloc, held, Count, rule, None, &ByteOrder);
    let mut out = output(alloc, 100);
    let is_given = goes(&mut sweep, First(b"chr1\t0\t10000"), &mut out)
        && takes_nested(alloc, &mut sweep, &mut out)?;
    let later = [
        EndSecond,
        First(b"chr1\t9500\t9600"),
        First(b"chr1\t9999\t10000"),
    ];
    let found = first_that_goes_otherwise(&mut sweep, &later, &mut out);
    let is_done = is_given && found.is_none() && out.flush().is_ok();
    let want = b"chr1\t0\t10000\t1000\nchr1\t9500\t9600\t500\nchr1\t9999\t10000\t1\n";
    Ok(is_done && out.into_sink().taken() == want.as_slice())
}

#[test]
fn nested_records_are_counted(rt: HostRuntime) -> Result<(), Fail> {
    let listed = counts_nested(rt.alloc(), HeldList::new(rt.alloc()))?;
    let indexed = counts_nested(rt.alloc(), HeldIndex::new(rt.alloc()))?;
    assert_eq!(rt; (listed, indexed), (true, true));
    Ok(())
}

// Whether a sweep over two inputs writes what the plain program does.
fn writes_like_plain<O: ChromOrder>(
    alloc: Global,
    order: &O,
    (shape, rule): (Shape, HitRule),
    first: &[&[u8]],
    second: &[&[u8]],
) -> Result<bool, AllocError> {
    let records = records_of(alloc, first)?;
    let others = records_of(alloc, second)?;
    let want = plain_intersect(alloc, shape, rule, records.as_slice(), others.as_slice())?;
    let held = HeldList::new(alloc);
    let mut sweep = Sweep::new(alloc, held, shape, rule, None, order);
    let mut out = output(alloc, 8192);
    let swept = sweep_all(&mut sweep, first, second, &mut out);
    let is_ended = swept.is_ok() && out.flush().is_ok();
    Ok(is_ended && out.into_sink().taken() == want.as_slice())
}

// The name of the first case whose inputs give something else than the plain program, in some shape.
fn first_unlike_plain(
    alloc: Global,
    cases: &[RuledCase],
    shapes: &[Shape],
) -> Result<Option<&'static str>, Fail> {
    let genome = genome(alloc)?;
    for (name, _, rule, first, second, _) in cases {
        for shape in shapes {
            if !writes_like_plain(alloc, &genome, (*shape, *rule), first, second)? {
                return Ok(Some(*name));
            }
        }
    }
    Ok(None)
}

#[test]
fn gives_what_the_plain_program_gives(rt: HostRuntime) -> Result<(), Fail> {
    let [any_overlap, ruled] = worked_cases();
    assert_eq!(rt; first_unlike_plain(rt.alloc(), any_overlap, &SHAPES)?, None);
    // The first eight have records of twelve digits: the plain program tries each position.
    let short = ruled.get(8..).unwrap_or(&[]);
    assert_eq!(rt; first_unlike_plain(rt.alloc(), short, &SHAPES)?, None);
    Ok(())
}
