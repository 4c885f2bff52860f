//! The blocks of an alignment, one after another.

ghost use Rattle.bt_seq.specs.model.Cigar.{operations_in};
ghost use Rattle.bt_seq.specs.inside.Sam.{FitBehind};

use crate::sam::SamRef;
use crate::sam::first_block::first_block;

/// The blocks of an alignment that are still to come, each as its start and its end on the reference.
/// They are zero-based, and the end isn't included.
#[derive(Debug, Drop)]
pub struct SamBlocks<'a> {
    // The alignment, if it isn't cut.
    whole: Option<(u64, u64)>,
    // The operations that are still to be read, and where they lie.
    rest: &'a [u8],
    at: u64,
    ghost fit: { FitBehind at (operations_in rest.now) },
}

impl<'a> SamBlocks<'a> {
    ghost use Rattle.std.specs.Prelude.{◌≡◌};
    ghost use Rattle.bt_seq.specs.model.BedLines.{alignment_blocks};
    ghost use Rattle.bt_seq.specs.calls.Sam.{alignment_lent, blocks_left};

    // The blocks of an alignment.
    #[tactic(auto, using(crate::proofs::lemmas::Sam::no_blocks, crate::proofs::lemmas::Sam::nothing_fits))]
    pub(crate) fn new(sam: &SamRef<'a>, split: bool) -> SamBlocks<'a>
        ensures { blocks_left result ≡ alignment_blocks split (alignment_lent sam.now) }
    {
        if !split {
            return SamBlocks {
                whole: Some((sam.start, sam.stop)),
                rest: &[],
                at: 0,
            };
        }
        SamBlocks {
            whole: None,
            rest: sam.cigar,
            at: sam.start,
        }
    }
}

impl<'a> Iterator for SamBlocks<'a> {
    ghost use Rattle.std.specs.Iterator.{YieldsFirstBy, item_count};
    ghost use Rattle.bt_seq.specs.calls.Sam.{blocks_left, span_given};

    type Item = (u64, u64);

    ghost next_gives = { YieldsFirstBy span_given blocks_left };

    ghost remaining = { item_count blocks_left };

    #[tactic(auto, using(crate::proofs::lemmas::Sam::no_blocks))]
    fn next(&mut self) -> Option<(u64, u64)> {
        if let Some(block) = self.whole {
            self.whole = None;
            return Some(block);
        }
        while !self.rest.is_empty() {
            let start = self.at;
            let block = first_block(self.rest, start);
            self.rest = block.rest;
            self.at = block.next;
            if start < block.stop {
                return Some((start, block.stop));
            }
        }
        None
    }
}
