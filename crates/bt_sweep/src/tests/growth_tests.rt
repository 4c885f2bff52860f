//! Growths that are refused, by `rt try --test --fail-alloc N -- refused_growth` for each N from 1. Each
//! test checks what is left when its call was refused, and then ends with out of memory.

ghost use Rattle.std.specs.Prelude.{◌≡◌, []};

use crate::active::held::Held;
use crate::active::held_index::HeldIndex;
use crate::active::held_list::HeldList;
use crate::tests::output;
use crate::{HitRule, Shape, Sweep, Want};
use bt_bed::{ByteOrder, Taken, parse_bed};
use bt_lines::{Out, ScriptSink};
use std::alloc::{AllocError, Global};
use std::process::Abort;
use std::test::Fail;

fn holds(rt: &impl Abort, it: bool, name: &str) {
    assert!(rt; it, "{name}");
}

// Adds a record. If that is refused, the same record has to come back, and the list to be as it was.
fn push_or_check<H: Held>(
    rt: &impl Abort,
    alloc: Global,
    held: &mut H,
    line: &[u8],
) -> Result<(), Fail> {
    let Ok(Some(bed)) = parse_bed(line) else {
        return Err(Fail::from(AllocError));
    };
    let count = held.len();
    let Err(back) = held.push(bed.to_rec(alloc)?) else {
        return Ok(());
    };
    let back = back.as_bed();
    let is_back = back.chrom == bed.chrom && back.rest == bed.rest;
    holds(rt, is_back, "the record comes back");
    let are_bounds = (back.start, back.stop) == (bed.start, bed.stop);
    holds(rt, are_bounds, "with its bounds");
    holds(rt, held.len() == count, "the list is as it was");
    Err(Fail::from(AllocError))
}

// Adds records whose texts are too long to be inline, and drops some of them.
fn grow<H: Held>(rt: &impl Abort, alloc: Global, mut held: H) -> Result<(), Fail> {
    for stop in 100u32..120 {
        let line = format!(in alloc; "c\t5\t{stop}\tname and more columns than stand inside")?;
        push_or_check(rt, alloc, &mut held, line.as_bytes())?;
    }
    held.drop_ended(109);
    holds(rt, held.len() == 10, "ten end after 109");
    Ok(())
}

#[test]
fn refused_growth_of_a_list(rt: HostRuntime) -> Result<(), Fail> {
    grow(&rt, rt.alloc(), HeldList::new(rt.alloc()))
}

#[test]
fn refused_growth_of_an_index(rt: HostRuntime) -> Result<(), Fail> {
    grow(&rt, rt.alloc(), HeldIndex::new(rt.alloc()))
}

// A line with the number in its second column, in five digits.
fn numbered(number: u64) -> [u8; 16] {
    let mut line = *b"chr1\t00000\t20000";
    let mut rest = number;
    for at in [9, 8, 7, 6, 5] {
        line[at] = b'0' + (rest % 10) as u8;
        rest /= 10;
    }
    line
}

// Gives ten thousand records that end before the one that waits. None is held, and none is refused.
fn give_short<H: Held>(
    rt: &impl Abort,
    sweep: &mut Sweep<'_, H, ByteOrder>,
    out: &mut Out<ScriptSink>,
) {
    for start in 0..10_000 {
        let line = numbered(start);
        let Ok(Some(bed)) = parse_bed(&line) else {
            return holds(rt, false, "a record");
        };
        let is_asked = sweep.want() == Want::B;
        holds(rt, is_asked, "the second input is asked for");
        if is_asked {
            let given = sweep.give_b(&bed, start + 1, out);
            holds(rt, given == Ok(Taken::Yes), "it is taken");
        }
        holds(rt, sweep.held().len() == 0, "nothing is held");
    }
}

// Only the record of the first input may need memory.
fn give_beside_one<H: Held>(
    rt: &impl Abort,
    alloc: Global,
    held: H,
    first: &[u8],
) -> Result<(), Fail>
    requires { H.records held ≡ [] }
{
    let rule = HitRule::any_overlap();
    let mut sweep = Sweep::new(alloc, held, Shape::Count, rule, None, &ByteOrder);
    let mut out = output(alloc, 512);
    let Ok(Some(bed)) = parse_bed(first) else {
        return Err(Fail::new("a record"));
    };
    if sweep.want() == Want::A && sweep.give_a(&bed, &mut out).is_err() {
        return Err(Fail::from(AllocError));
    }
    give_short(rt, &mut sweep, &mut out);
    Ok(())
}

// The record that waits: one that is kept without memory, and one that isn't.
#[rattlefmt::skip]
const BESIDE: [&[u8]; 2] = [
    b"chr1\t50000\t50001", b"chr1\t50000\t50001\tmore columns than stand inside a record",
];

#[test]
fn refused_growth_beside_records_that_are_not_held(rt: HostRuntime) -> Result<(), Fail> {
    for first in &BESIDE {
        give_beside_one(&rt, rt.alloc(), HeldList::new(rt.alloc()), first)?;
        give_beside_one(&rt, rt.alloc(), HeldIndex::new(rt.alloc()), first)?;
    }
    Ok(())
}
