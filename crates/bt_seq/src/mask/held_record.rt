//! Records that are held, and the bases that they mask.

ghost use Rattle.std.specs.Prelude.{◌≡◌, ◌-◌, [], ◌∷◌, length, min};
ghost use Rattle.bt_bed.specs.calls.Bed.{feature_lent};
ghost use Rattle.bt_seq.specs.model.Masked.{masked_from};

use crate::mask::mask_how::{MaskHow, mask_slice};
use crate::mask::taken_record::TakenRecord;
use bt_bed::BedRef;
use std::marker::Model;

// A record of the sequence's block. In memory there is where it lies on its sequence: zero-based, the end not included.
#[derive(Drop)]
pub(crate) struct HeldRecord {
    start: u64,
    stop: u64,
    taken: TakenRecord,
}

impl Model for HeldRecord {
    ghost use Rattle.std.specs.Prelude.{◌≡◌};
    ghost use Rattle.bt_bed.specs.model.Feature.{Feature};

    ghost Value = { Feature };

    ghost view = { λ r. r.taken.feature };

    ghost invariant = { λ r. (r.start ≡ r.taken.feature.start) × (r.stop ≡ r.taken.feature.stop) };
}

impl HeldRecord {
    // The record that was taken. It doesn't allocate.
    #[inline(always)]
    pub(crate) fn of(bed: &BedRef<'_>) -> HeldRecord
        ensures { result ≡ feature_lent bed.now }
    {
        HeldRecord {
            start: bed.start,
            stop: bed.stop,
            taken: TakenRecord::of(bed),
        }
    }

    // Where it starts. Each field is named: with one more, in which a copy could be kept, this wouldn't compile.
    #[inline(always)]
    pub(crate) fn start(&self) -> u64
        ensures { result ≡ self.now.start }
    {
        let HeldRecord {
            start,
            stop: _,
            taken,
        } = self;
        let TakenRecord {} = taken;
        *start
    }

    // Where it ends.
    #[inline(always)]
    pub(crate) fn stop(&self) -> u64
        ensures { result ≡ self.now.stop }
    {
        self.stop
    }
}

// Masks those bases that a record covers. The first base has this position.
#[tactic(auto, using(crate::proofs::lemmas::Sam::none_masked))]
pub(crate) fn mask_records(bases: &mut [u8], position: u64, records: &[HeldRecord], how: MaskHow)
    ensures { bases.new ≡ masked_from how records.now position bases.old }
{
    for record in records {
        mask_record(bases, position, record, how);
    }
}

// Masks those bases that one record covers. The first base has this position.
#[tactic(auto, using(crate::proofs::lemmas::Sam::masked_between, crate::proofs::lemmas::Sam::masked_nowhere))]
fn mask_record(bases: &mut [u8], position: u64, held: &HeldRecord, how: MaskHow)
    ensures { bases.new ≡ masked_from how (held.now ∷ []) position bases.old }
{
    let from = index_of(held.start(), position, bases.len());
    let to = index_of(held.stop(), position, bases.len());
    if from < to {
        mask_slice(&mut bases[from..to], how);
    }
}

// How many of `len` bases, the first of them at `position`, lie before a place.
fn index_of(place: u64, position: u64, len: usize) -> usize
    ensures { result ≡ min (place - position) len }
{
    let before = place.saturating_sub(position);
    if before < len as u64 {
        before as usize
    } else {
        len
    }
}
