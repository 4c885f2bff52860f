//! The example of the crate's first page.

use crate::tests::{source_if, strings, whole};
use crate::{plan, run};
use bt_lines::{ScriptSink, ScriptSource};
use std::test::Fail;

#[test]
fn a_run(rt: HostRuntime) -> Result<(), Fail> {
    let words = strings(rt.alloc(), &["merge", "-g", "g.txt", "-d", "1"])?;
    let plan = plan(rt.alloc(), words.as_slice()).ok().ok_or("a plan")?;
    // A source where the plan names the input: here the genome file, and no second one.
    let genome = source_if(&plan.genome, b"chr1\t1000\n", whole(7));
    let second = source_if(&plan.second, b"", whole(7));
    let records = ScriptSource::new(b"chr1\t250\t500\nchr1\t501\t1000\n", 7, None);
    let sink = ScriptSink::new(rt.alloc(), 7, None);
    let ended = run(rt.alloc(), &plan, genome, records, second, sink);
    assert_eq!(rt; ended.out.taken(), b"chr1\t250\t1000\n".as_slice());
    assert_eq!(rt; ended.outcome.status(), 0);
    Ok(())
}
