//! The example of the crate's first page.

use crate::{Engine, Merge, MergeStrand};
use bt_bed::parse_bed;
use bt_lines::{Out, ScriptSink};
use std::test::Fail;

#[test]
fn merged_records(rt: HostRuntime) -> Result<(), Fail> {
    // Features that overlap or touch, of all strands.
    let mut merge = Merge::new(rt.alloc(), 0, MergeStrand::All);
    let mut out = Out::new(ScriptSink::new(rt.alloc(), 7, None));
    let first = parse_bed(b"chr1\t100\t200")?.ok_or("a record")?;
    let second = parse_bed(b"chr1\t180\t250\tname")?.ok_or("a record")?;
    merge.feed(&first, &mut out)?;
    merge.feed(&second, &mut out)?;
    merge.finish(&mut out)?;
    out.flush()?;
    assert_eq!(rt; out.into_sink().taken(), b"chr1\t100\t250\n".as_slice());
    Ok(())
}
