//! The bases of the line given last, and the records that reach into them.

ghost use Rattle.std.specs.Prelude.{◌≡◌, ◌+◌, ◌≤◌, [], ◌∷◌, ◌++◌, OnOk, OnErr, filter, length, min, nat_eq, nat_lt, true, if◌then◌else◌};
ghost use Rattle.bt_bed.specs.calls.Bed.{feature_lent};
ghost use Rattle.bt_seq.specs.inside.Window.{gone_on, limit, no_bases};
ghost use Rattle.bt_seq.specs.model.Masked.{masked_from};

use crate::mask::held_record::{HeldRecord, mask_records};
use crate::mask::mask_how::MaskHow;
use bt_bed::BedRef;
use std::alloc::{AllocError, Global};
use std::marker::Model;

// How far the bases of a sequence are counted. No record reaches beyond it.
pub(crate) const LIMIT: u64 = 1_000_000_000_000;

// How many bases of its sequence come before the line, and up to its end. Then the
// records that start before its end and reach past its start, in file order.
#[derive(Drop)]
pub(crate) struct Window {
    // At most the limit.
    before: u64,
    // At least `before`, at most the limit.
    bases: u64,
    // In file order, each reaching into the line.
    held: Vec<HeldRecord>,
}

impl Model for Window {
    ghost use Rattle.std.specs.Prelude.{◌≤◌};
    ghost use Rattle.bt_seq.specs.inside.Window.{Bounds, limit};

    ghost Value = { Bounds };

    ghost view = { λ w. record { before = w.before; bases = w.bases; held = w.held.items } };

    ghost invariant = { λ w. w.bases ≤ limit };
}

impl Window {
    // No bases.
    pub(crate) fn new(alloc: Global) -> Window
        ensures { result ≡ no_bases }
    {
        Window {
            before: 0,
            bases: 0,
            held: Vec::new(alloc),
        }
    }

    // Begins a sequence.
    pub(crate) fn begin(&mut self)
        ensures { self.new ≡ no_bases }
    {
        self.before = 0;
        self.bases = 0;
        self.held.clear();
    }

    // Goes on to the next line of the sequence, which has `count` bases. It doesn't allocate.
    pub(crate) fn go_on(&mut self, count: usize)
        ensures { self.new ≡ gone_on self.old count }
    {
        self.before = self.bases;
        self.bases = up_to_limit(self.bases, count);
        if !self.is_empty() {
            drop_passed(&mut self.held, self.before);
        }
    }

    // How many bases come before the line.
    pub(crate) fn before(&self) -> u64
        ensures { result ≡ self.now.before }
    {
        self.before
    }

    // How many come up to its end.
    pub(crate) fn bases(&self) -> u64
        ensures bases { result ≡ self.now.bases }
        ensures counted { result ≤ limit }
    {
        self.bases
    }

    // Goes to a line with `before` bases of the sequence before it and `bases` up to its end, if nothing is held.
    pub(crate) fn stand_at(&mut self, before: u64, bases: u64)
        requires held { self.old.held ≡ [] }
        requires within { bases ≤ limit }
        ensures { self.new ≡ record { before = before; bases = bases; held = [] } }
    {
        self.before = before;
        self.bases = bases;
    }

    // Holds a record, if it reaches past the start of the line.
    pub(crate) fn hold(&mut self, bed: &BedRef<'_>) -> Result<(), AllocError>
        ensures held { OnOk result (self.new ≡ (if nat_lt self.old.before bed.now.stop
            then record self.old { held = self.old.held ++ feature_lent bed.now ∷ [] }
            else self.old)) }
        ensures unchanged { OnErr result ((self.new ≡ self.old) × (nat_lt self.old.before bed.now.stop ≡ true)) }
    {
        if bed.stop <= self.before {
            return Ok(());
        }
        self.held.push(HeldRecord::of(bed))?;
        Ok(())
    }

    // How many records are held, in the only list.
    pub(crate) fn len(&self) -> usize
        ensures { result ≡ length self.now.held }
    {
        let Window {
            before: _,
            bases: _,
            held,
        } = self;
        held.len()
    }

    // Whether nothing is held.
    pub(crate) fn is_empty(&self) -> bool
        ensures { result ≡ nat_eq (length self.now.held) 0 }
    {
        self.held.is_empty()
    }

    // Masks the bases of the line.
    pub(crate) fn mask(&self, bases: &mut [u8], how: MaskHow)
        ensures { bases.new ≡ masked_from how self.now.held self.now.before bases.old }
    {
        mask_records(bases, self.before, self.held.as_slice(), how);
    }
}

// The sum, or the limit if it lies above.
pub(crate) fn up_to_limit(bases: u64, count: usize) -> u64
    requires { bases ≤ limit }
    ensures { result ≡ min (bases + count) limit }
{
    let count = count as u64;
    if count < LIMIT - bases {
        bases + count
    } else {
        LIMIT
    }
}

// Drops the records that end at or before the place.
fn drop_passed(held: &mut Vec<HeldRecord>, place: u64)
    ensures { held.new.items ≡ filter (λ r. nat_lt place r.stop) held.old.items }
{
    held.retain(|record| place < record.stop());
}
