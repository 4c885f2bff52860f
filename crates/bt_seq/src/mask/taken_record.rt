//! A record that was taken, in proofs alone: at run time it has no bytes, and its function does nothing.

ghost use Rattle.std.specs.Prelude.{◌≡◌};
ghost use Rattle.std.specs.Borrow.{ftrue};
ghost use Rattle.bt_bed.specs.calls.Bed.{feature_lent};
ghost use Rattle.bt_bed.specs.model.Feature.{Feature};

use bt_bed::BedRef;
use std::marker::Model;

#[derive(Drop)]
pub(crate) struct TakenRecord {
    ghost feature: { Feature },
}

impl Model for TakenRecord {
    ghost also_owns = { λ _. ftrue };
}

impl TakenRecord {
    // The record.
    #[inline(always)]
    pub(crate) fn of(bed: &BedRef<'_>) -> TakenRecord
        ensures { result.feature ≡ feature_lent bed.now }
    {
        TakenRecord {}
    }
}
