//! The example of the crate's first page.

use crate::{Genome, Records};
use bt_lines::{Input, Kind, LineReader, ScriptSource};
use std::test::Fail;

#[test]
fn records_in_order(rt: HostRuntime) -> Result<(), Fail> {
    let lengths = ScriptSource::new(b"chr1\t90\nchr2\t50\n", 7, None);
    let mut lengths = LineReader::new(rt.alloc(), lengths, Input::Genome);
    let genome = Genome::read(rt.alloc(), &mut lengths)?;
    let source = ScriptSource::new(b"chr2\t5\t9\tname\nchr1\t6\t8\n", 7, None);
    let lines = LineReader::new(rt.alloc(), source, Input::First);
    let mut records = Records::new(rt.alloc(), lines, &genome);
    let bed = records.peek()?.ok_or("a record")?;
    assert_eq!(rt; (bed.start, bed.stop), (5, 9));
    assert_eq!(rt; bed.rest, b"\tname".as_slice());
    records.advance();
    let fault = records.peek().err().ok_or("chr1 comes after chr2")?;
    assert_eq!(rt; fault.kind, Kind::OutOfOrder);
    Ok(())
}
