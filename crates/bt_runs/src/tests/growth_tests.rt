//! Growths that are refused, by `rt try --test --fail-alloc N -- refused_growth` for each N from 1: of ten
//! thousand records that settle nothing, the first alone may take memory.

use crate::tests::testing::{feed_many, genome, output};
use crate::{Complement, Merge, MergeStrand};
use std::alloc::AllocError;
use std::test::Fail;

#[test]
fn refused_growth_of_a_merge(rt: HostRuntime) -> Result<(), Fail> {
    let mut merge = Merge::new(rt.alloc(), 0, MergeStrand::All);
    feed_many(&rt, &mut merge, &mut output(rt.alloc(), 512))
}

#[test]
fn refused_growth_of_a_complement(rt: HostRuntime) -> Result<(), Fail> {
    let Ok(genome) = genome(rt.alloc(), b"chr1\t30000\n") else {
        return Err(Fail::from(AllocError));
    };
    let mut complement = Complement::new(&genome, false);
    feed_many(&rt, &mut complement, &mut output(rt.alloc(), 512))
}
