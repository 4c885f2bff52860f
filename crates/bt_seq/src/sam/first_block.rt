//! The first block of a text of operations.

ghost use Rattle.std.specs.Prelude.{◌≡◌, ◌++◌, ◌<◌, length};
ghost use Rattle.bt_seq.specs.model.BedLines.{blocks_in, with_bases};
ghost use Rattle.bt_seq.specs.model.Cigar.{operations_in};
ghost use Rattle.bt_seq.specs.inside.Sam.{FitBehind};

use crate::sam::cigar::{covered_by, first_operation};

// The letter of a region of the reference that the read skips.
const SKIP: u8 = b'N';

// Where the operations before the first N end on the reference, what follows the N, and from where
// on that lies.
#[derive(Clone, Copy, Debug)]
pub(crate) struct FirstBlock<'a> {
    pub(crate) stop: u64,
    pub(crate) rest: &'a [u8],
    pub(crate) next: u64,
}

// The first block of a text of operations that lie from `start` on, with a base or without one.
#[tactic(auto, using(crate::proofs::lemmas::Sam::blocks_open_in, crate::proofs::lemmas::Sam::is_skip_by, crate::proofs::lemmas::Sam::open_in, crate::proofs::lemmas::Sam::block_ends, crate::proofs::lemmas::Sam::block_is_last))]
pub(crate) fn first_block(text: &[u8], start: u64) -> FirstBlock<'_>
    requires { FitBehind start (operations_in text.now) }
    ensures blocks { blocks_in start (operations_in text.now)
        ≡ with_bases start result.stop ++ blocks_in result.next (operations_in result.rest.now) }
    ensures fit { FitBehind result.next (operations_in result.rest.now) }
    ensures shorter { 0 < length text.now → length result.rest.now < length text.now }
{
    let mut rest = text;
    let mut stop = start;
    while let Some((operation, behind)) = first_operation(rest) {
        rest = behind;
        if operation.letter == SKIP {
            let next = stop + operation.length;
            return FirstBlock { stop, rest, next };
        }
        stop += covered_by(operation);
    }
    FirstBlock {
        stop,
        rest,
        next: stop,
    }
}
