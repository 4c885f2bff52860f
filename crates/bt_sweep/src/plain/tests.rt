use super::*;
use crate::tests::worked::{RuledCase, records_of, worked_cases};
use std::test::Fail;

// The name of the first case that is written otherwise.
fn first_miswritten(
    alloc: Global,
    cases: &[RuledCase],
) -> Result<Option<&'static str>, AllocError> {
    for (name, shape, rule, first, second, want) in cases {
        let first = records_of(alloc, first)?;
        let second = records_of(alloc, second)?;
        let text = plain_intersect(alloc, *shape, *rule, first.as_slice(), second.as_slice())?;
        if text.as_slice() != *want {
            return Ok(Some(*name));
        }
    }
    Ok(None)
}

#[test]
fn worked_rows(rt: HostRuntime) -> Result<(), Fail> {
    let [any_overlap, ruled] = worked_cases();
    let found = first_miswritten(rt.alloc(), any_overlap)?;
    let found = found.or(first_miswritten(rt.alloc(), ruled)?);
    assert_eq!(rt; found, None);
    Ok(())
}
