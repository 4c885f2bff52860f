// Both forms of held records.
use crate::active::held::Held;
use crate::active::held_index::HeldIndex;
use crate::active::held_list::HeldList;
use crate::tests::start_of;
use bt_bed::parse_bed;
use std::alloc::Global;
use std::process::Abort;
use std::test::Fail;

// Adds the record of this line.
fn push<H: Held>(alloc: Global, held: &mut H, line: &[u8]) -> Result<bool, Fail> {
    match parse_bed(line) {
        Ok(Some(bed)) => Ok(held.push(bed.to_rec(alloc)?).is_ok()),
        _ => Ok(false),
    }
}

// Whether each of these lines was added.
fn push_all<H: Held>(alloc: Global, held: &mut H, lines: &[&[u8]]) -> Result<bool, Fail> {
    for line in lines {
        if !push(alloc, held, line)? {
            return Ok(false);
        }
    }
    Ok(true)
}

// A place, and what is left once the records that ended there are dropped: how many, and the starts of the
// first and of the last.
type Left = (u64, usize, Option<u64>, Option<u64>);

// Drops the records that ended at the place, and compares what is left.
fn leaves<H: Held>(held: &mut H, want: &Left) -> bool {
    held.drop_ended(want.0);
    let count = held.len();
    let first = start_of(held, 0);
    let last = start_of(held, count.saturating_sub(1));
    count == want.1 && first == want.2 && last == want.3
}

// The first place at which something else is left.
fn first_otherwise<H: Held>(held: &mut H, rows: &[Left]) -> Option<u64> {
    for row in rows {
        if !leaves(held, row) {
            return Some(row.0);
        }
    }
    None
}

// Of these records, once they are added, that has to be left at these places, and nothing once they are
// cleared.
fn check<H: Held>(
    rt: &impl Abort,
    alloc: Global,
    mut held: H,
    cases: &[(&[&[u8]], &[Left])],
) -> Result<(), Fail> {
    for (lines, rows) in cases {
        let are_added = push_all(alloc, &mut held, lines)?;
        let found = first_otherwise(&mut held, rows);
        held.clear();
        let is_clear = leaves(&mut held, &(0, 0, None, None));
        assert_eq!(rt;
            (are_added, found, is_clear),
            (true, None, true),
            "{lines:?}"
        );
    }
    Ok(())
}

// Also those that don't come by their starts are dropped.
#[rattlefmt::skip]
const CASES: [(&[&[u8]], &[Left]); 2] = [
    (&[b"c\t0\t100", b"c\t1\t20", b"c\t2\t50\tn", b"c\t3\t51", b"c\t3\t20"],
        &[(19, 5, Some(0), Some(3)), (20, 3, Some(0), Some(3)), (50, 2, Some(0), Some(3)),
          (99, 1, Some(0), Some(0))]),
    (&[b"c\t50\t60", b"c\t10\t20", b"c\t30\t90"],
        &[(20, 2, Some(50), Some(30)), (60, 1, Some(30), Some(30))]),
];

#[test]
fn ended_records_are_dropped(rt: HostRuntime) -> Result<(), Fail> {
    check(&rt, rt.alloc(), HeldList::new(rt.alloc()), &CASES)?;
    check(&rt, rt.alloc(), HeldIndex::new(rt.alloc()), &CASES)
}

// Adds a thousand records, each within the one before it.
fn push_nested<H: Held>(alloc: Global, held: &mut H) -> Result<bool, Fail> {
    for start in 0..1000_u32 {
        let line = format!(in alloc; "chr1\t{start}\t{}", 10_000 - start)?;
        if !push(alloc, held, line.as_bytes())? {
            return Ok(false);
        }
    }
    Ok(true)
}

#[rattlefmt::skip]
const LEFT_OF_NESTED: [Left; 4] = [
    (9000, 1000, Some(0), Some(999)), (9500, 500, Some(0), Some(499)), (9999, 1, Some(0), Some(0)),
    (10_000, 0, None, None),
];

fn drops_the_inner_first<H: Held>(rt: &impl Abort, alloc: Global, mut held: H) -> Result<(), Fail> {
    let are_added = push_nested(alloc, &mut held)?;
    let found = first_otherwise(&mut held, &LEFT_OF_NESTED);
    assert_eq!(rt; (are_added, found), (true, None));
    Ok(())
}

#[test]
fn nested_records_are_dropped_from_the_inside(rt: HostRuntime) -> Result<(), Fail> {
    drops_the_inner_first(&rt, rt.alloc(), HeldList::new(rt.alloc()))?;
    drops_the_inner_first(&rt, rt.alloc(), HeldIndex::new(rt.alloc()))
}
