//! The example of the crate's first page.

use crate::{SystemFiles, carry_out};
use bt_tool::plan;
use std::test::Fail;

#[test]
fn a_missing_file(rt: HostRuntime) -> Result<(), Fail> {
    let mut words = Vec::new(rt.alloc());
    for word in ["merge", "-i", "no/such/file"] {
        words.push(String::from_str(rt.alloc(), word)?)?;
    }
    let a_plan = plan(rt.alloc(), words.as_slice()).ok().ok_or("a plan")?;
    let ended = carry_out(rt.alloc(), &mut SystemFiles { rt: &rt }, &a_plan);
    let line = b"bedtools merge: no/such/file: cannot be opened\n";
    assert_eq!(rt; ended.message.line.as_bytes(), line.as_slice());
    assert_eq!(rt; ended.message.status, 1);
    Ok(())
}
