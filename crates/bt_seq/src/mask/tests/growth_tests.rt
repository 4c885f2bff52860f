//! Growths that are refused, by `rt try --test --fail-alloc N -- refused_growth` for each N from 1: of ten
//! thousand records of an earlier sequence, none takes memory.

use super::{Step, goes, takes};
use crate::{Mask, MaskHow};
use bt_lines::{Out, ScriptSink};
use std::alloc::AllocError;
use std::process::Abort;
use std::test::Fail;

// A line with the number in its second column, in five digits.
fn numbered(number: u64) -> [u8; 13] {
    let mut line = *b"s\t00000\t20000";
    let mut rest = number;
    for at in [6, 5, 4, 3, 2] {
        line[at] = b'0' + (rest % 10) as u8;
        rest /= 10;
    }
    line
}

// Gives ten thousand records of the sequence before. None is held, and none is refused.
fn give_earlier(rt: &impl Abort, mask: &mut Mask, out: &mut Out<ScriptSink>) {
    for start in 0..10_000 {
        let is_taken = takes(mask, &numbered(start), out) == Some(true);
        assert!(rt; is_taken, "it is taken");
        assert!(rt; mask.kept_len() == 0, "nothing is held");
    }
}

// A sequence, the record that decides its header, and the header of the next sequence, which waits.
#[rattlefmt::skip]
const BEGUN: [Step; 3] = [
    Step::Line(b">s"), Step::Leaves(b"s\t0\t20000"), Step::Line(b">t"),
];

#[test]
fn refused_growth_beside_records_that_are_not_held(rt: HostRuntime) -> Result<(), Fail> {
    let mut mask = Mask::new(rt.alloc(), MaskHow::Soft, false);
    let mut out = Out::new(ScriptSink::new(rt.alloc(), 512, None));
    for step in &BEGUN {
        if !goes(&mut mask, *step, &mut out) {
            return Err(Fail::from(AllocError));
        }
    }
    give_earlier(&rt, &mut mask, &mut out);
    Ok(())
}
