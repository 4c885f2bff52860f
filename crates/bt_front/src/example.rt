//! The example of the crate's first page.

use crate::tests::strings;
use crate::{Asked, WordReason};
use bt_tool::plan;
use std::test::Fail;

#[test]
fn two_command_lines(rt: HostRuntime) -> Result<(), Fail> {
    let words = strings(rt.alloc(), "intersect -a a.bed -b b.bed -sorted")?;
    let a_plan = plan(rt.alloc(), words.as_slice()).ok().ok_or("a plan")?;
    let asked = Asked::of(words.as_slice(), &a_plan)
        .ok()
        .ok_or("no reason")?;
    assert!(rt; asked.is_sorted);
    let words = strings(rt.alloc(), "merge -i a.bed -s")?;
    let a_plan = plan(rt.alloc(), words.as_slice()).ok().ok_or("a plan")?;
    let reason = Asked::of(words.as_slice(), &a_plan)
        .err()
        .ok_or("a reason")?;
    assert_eq!(rt; reason, WordReason::MergeByStrand);
    Ok(())
}
