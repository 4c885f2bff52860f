//! The example of the crate's first page.

use crate::{Input, LineEnd, LineReader, ScriptSource};
use std::test::Fail;

#[test]
fn lines_of_a_source(rt: HostRuntime) -> Result<(), Fail> {
    // Three bytes a call, with no failure.
    let source = ScriptSource::new(b"chr1\t5\t9\nchr2", 3, None);
    let mut reader = LineReader::new(rt.alloc(), source, Input::First);
    let line = reader.next()?.ok_or("a line")?;
    assert_eq!(rt; line.text, b"chr1\t5\t9".as_slice());
    let last = reader.next()?.ok_or("a line")?;
    assert_eq!(rt; (last.number, last.ending), (2, LineEnd::Absent));
    assert!(rt; reader.next()?.is_none());
    Ok(())
}
