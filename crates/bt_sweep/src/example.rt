//! The example of the crate's first page.

use crate::{HeldList, HitRule, Shape, Sweep, Want};
use bt_bed::{ByteOrder, parse_bed};
use bt_lines::{Out, ScriptSink};
use std::test::Fail;

#[test]
fn two_records(rt: HostRuntime) -> Result<(), Fail> {
    let (held, rule) = (HeldList::new(rt.alloc()), HitRule::any_overlap());
    // In the order of the names' bytes, and without a limit on the records that are held.
    let mut sweep = Sweep::new(rt.alloc(), held, Shape::Cut, rule, None, &ByteOrder);
    let mut out = Out::new(ScriptSink::new(rt.alloc(), 7, None));
    let a = parse_bed(b"chr1\t0\t10")?.ok_or("a record")?;
    let b = parse_bed(b"chr1\t8\t14")?.ok_or("a record")?;
    assert!(rt; sweep.want() == Want::A);
    sweep.give_a(&a, &mut out)?;
    assert!(rt; sweep.want() == Want::B);
    sweep.give_b(&b, 1, &mut out)?;
    assert!(rt; sweep.want() == Want::B);
    sweep.end_b(&mut out)?;
    out.flush()?;
    assert_eq!(rt; out.into_sink().taken(), b"chr1\t8\t10\n".as_slice());
    Ok(())
}
