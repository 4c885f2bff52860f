//! Which sequence a block of records belongs to.

ghost use Rattle.std.specs.Prelude.{◌≡◌, None, false, OnOk, is_some};
ghost use Rattle.bt_seq.specs.calls.MaskState.{is_it, matched_with, named, owner_of};

use std::alloc::{AllocError, Global};
use std::marker::Model;

/// To which sequence a block belongs.
#[derive(Clone, Copy, Debug, PartialEq, Eq)]
pub(crate) enum Owner {
    /// To the one given last.
    Own,
    /// To one before that.
    Earlier,
    /// To none up to now.
    Nobody,
}

// The names are in two buffers, which are used again. While a block belongs to the sequence given
// last, that one's name is its chromosome; before, `block` is the chromosome of the last block that
// belongs to a sequence.
#[derive(Drop)]
pub(crate) struct Matching {
    // The name of the sequence given last, while `is_named` holds.
    name: Vec<u8>,
    // The chromosome of the last block that belongs to an earlier sequence, while `has_block` holds.
    block: Vec<u8>,
    // Whether a sequence was given.
    is_named: bool,
    // Whether a block belonged to an earlier sequence.
    has_block: bool,
    // Whether the last block belongs to the sequence given last.
    is_own: bool,
}

impl Model for Matching {
    ghost use Rattle.std.specs.Prelude.{None, Some, if◌then◌else◌};
    ghost use Rattle.bt_seq.specs.calls.MaskState.{Matched};

    ghost Value = { Matched };

    ghost view = { λ m. record {
      name = if m.is_named then Some m.name.items else None;
      last = if m.is_own then (if m.is_named then Some m.name.items else None)
          else (if m.has_block then Some m.block.items else None);
      own = m.is_own;
    } };
}

impl Matching {
    // No sequence and no block.
    pub(crate) fn new(alloc: Global) -> Matching
        ensures { result ≡ record { name = None; last = None; own = false } }
    {
        Matching {
            name: Vec::new(alloc),
            block: Vec::new(alloc),
            is_named: false,
            has_block: false,
            is_own: false,
        }
    }

    // Whether a sequence was given. Each field is named, as those of a state are: two names are all that is kept here.
    pub(crate) fn is_named(&self) -> bool
        ensures { result ≡ is_some self.now.name }
    {
        let Matching {
            name: _,
            block: _,
            is_named,
            has_block: _,
            is_own: _,
        } = self;
        *is_named
    }

    // Goes on to a new sequence. If memory runs out, nothing is known afterwards. `test_sizes.py` tries that it
    // runs out only if the name's buffer has to grow.
    pub(crate) fn begin(&mut self, name: &[u8]) -> Result<(), AllocError>
        ensures { OnOk result (self.new ≡ named self.old name.now) }
    {
        if self.is_own {
            std::mem::swap(&mut self.name, &mut self.block);
            self.has_block = self.is_named;
            self.is_own = false;
        }
        self.name.clear();
        self.name.extend_from_slice(name)?;
        self.is_named = true;
        Ok(())
    }

    // The sequence of the block of the next record. It doesn't allocate.
    pub(crate) fn owner(&mut self, chrom: &[u8]) -> Owner
        ensures owner { result ≡ owner_of self.old chrom.now }
        ensures next { self.new ≡ matched_with self.old chrom.now }
    {
        if self.goes_on(chrom) {
            return if self.is_own {
                Owner::Own
            } else {
                Owner::Earlier
            };
        }
        if self.is_own || !self.is_named || self.name.as_slice() != chrom {
            return Owner::Nobody;
        }
        self.is_own = true;
        Owner::Own
    }

    // Whether the last block that belongs to a sequence lies on this chromosome.
    fn goes_on(&self, chrom: &[u8]) -> bool
        ensures { result ≡ is_it self.now.last chrom.now }
    {
        if self.is_own {
            return self.is_named && self.name.as_slice() == chrom;
        }
        self.has_block && self.block.as_slice() == chrom
    }
}
