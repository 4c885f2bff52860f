//! Records that come one after another, on one chromosome.

ghost use Rattle.std.specs.Prelude.{◌≡◌, ◌∷◌, ◌++◌, ◌<◌, ◌≤◌, ℕ, ⊤, [], List, length, take, Some, IfSome, IfNone, false, refl, true};
ghost use Rattle.bt_bed.specs.model.Feature.{Feature};
ghost use Rattle.bt_bed.specs.declared.record.bed.BedRef.{BedRef};

use crate::record::Record;
use crate::record::bed::BedRef;

/// Records of one chromosome in order, of which the first are consumed: those that a reader has buffered
/// ([`Batch`](crate::Batch)), or one ([`Single`]).
pub trait Cursor: Copy {
    type Record: Record;

    // The chromosome of the records.
    ghost name: { Self → List ℕ };

    // These records were given, one after another, and are consumed.
    ghost gives: { Self → List Feature → Self → Type 0 };

    // It gives no record.
    ghost has_ended: { Self → Type 0 };

    // It falls with each record.
    ghost room: { Self → ℕ };

    // The line of the record that was consumed last.
    ghost line: { Self → ℕ };

    // The bytes of the lines that were consumed.
    ghost consumed: { Self → List ℕ };

    /// The chromosome of the records.
    fn chrom(&self) -> &[u8]
        ensures { result.now ≡ name self.now };

    /// The number of the line, counted from 1, of the record that was consumed last.
    fn line(&self) -> u64
        ensures { result ≡ line self.now };

    /// How many bytes of lines were consumed, line ends included. A [`Single`] has none.
    fn offset(&self) -> usize
        ensures { result ≡ length (consumed self.now) };

    /// The bytes that were consumed between two offsets, both counted as [`Cursor::offset`] counts. `to` isn't included.
    fn between(&self, from: usize, to: usize) -> &[u8]
        requires ordered { from ≤ to }
        requires within { to ≤ length (consumed self.now) }
        ensures { take to (consumed self.now) ≡ take from (consumed self.now) ++ result.now };

    /// The next record, which is consumed.
    fn next(&mut self) -> Option<Self::Record>
        ensures some { IfSome result (λ r. gives self.old (Self.Record.feature r ∷ []) self.new) }
        ensures on { IfSome result (λ r. (Self.Record.feature r).chrom ≡ name self.old) }
        ensures same { name self.new ≡ name self.old }
        ensures line { IfSome result (λ r. consumed self.new ≡ consumed self.old ++ Self.Record.raw r) }
        ensures shrinks { IfSome result (λ r. room self.new < room self.old) }
        ensures none { IfNone result (has_ended self.old) }
        ensures unchanged { IfNone result (self.new ≡ self.old) };

    // None was given at first.
    ghost gives_none: { (cursor : Self) → gives cursor [] cursor };

    // What is given after others is given after these.
    ghost gives_more: { (old mid new : Self) (xs ys : List Feature) → gives old xs mid → gives mid ys new → gives old (xs ++ ys) new };

    // One record comes next.
    ghost gives_same: { (old mid new : Self) (x y : Feature) (ys : List Feature) → gives old (x ∷ []) mid → gives old (y ∷ ys) new → x ≡ y };
}

/// One record that a caller gives, or none.
#[derive(Clone, Copy, Debug)]
pub struct Single<'a> {
    chrom: &'a [u8],
    bed: Option<BedRef<'a>>,
    line: u64,
    ghost on: { (r : BedRef) → bed ≡ Some r → r.chrom.now ≡ chrom.now },
}

#[tactic(auto, unfolding(crate::specs::calls::Bed::single_left, crate::specs::calls::Bed::single_name, crate::specs::calls::Bed::single_line))]
impl<'a> Single<'a> {
    ghost use Rattle.bt_bed.specs.calls.Bed.{feature_lent, single_left, single_line, single_name};

    /// This record, which is on this line, counted from 1.
    pub fn new(bed: BedRef<'a>, line: u64) -> Single<'a>
        ensures left { single_left result ≡ feature_lent bed.entry ∷ [] }
        ensures chrom { single_name result ≡ bed.entry.chrom.now }
        ensures line { single_line result ≡ line }
    {
        Single {
            chrom: bed.chrom,
            bed: Some(bed),
            line,
        }
    }

    /// No record, on a chromosome.
    pub fn none(chrom: &'a [u8]) -> Single<'a>
        ensures left { single_left result ≡ [] }
        ensures chrom { single_name result ≡ chrom.now }
    {
        Single {
            chrom,
            bed: None,
            line: 0,
        }
    }

    /// Whether it has no record, or that was consumed.
    pub fn is_empty(&self) -> bool
        ensures some { result ≡ false → (r : Feature) × (single_left self.now ≡ r ∷ []) }
        ensures none { result ≡ true → single_left self.now ≡ [] }
    {
        match self.bed {
            None => true,
            Some(_) => false,
        }
    }
}

#[tactic(auto, unfolding(crate::specs::calls::Bed::single_left, crate::specs::calls::Bed::single_name, crate::specs::calls::Bed::single_line))]
impl<'a> Cursor for Single<'a> {
    ghost use Rattle.bt_bed.specs.calls.CursorLaws.{single_gives_more, single_gives_none, single_gives_same};
    ghost use Rattle.bt_bed.specs.calls.Bed.{GivesSingle, HasNone, single_left, single_line, single_name};

    type Record = BedRef<'a>;

    ghost name = { single_name };

    ghost gives = { GivesSingle };

    ghost has_ended = { HasNone };

    ghost room = { λ one. length (single_left one) };

    ghost line = { single_line };

    ghost consumed = { λ one. [] };

    fn chrom(&self) -> &[u8] {
        self.chrom
    }

    fn line(&self) -> u64 {
        self.line
    }

    fn offset(&self) -> usize {
        0
    }

    fn between(&self, _from: usize, _to: usize) -> &[u8] {
        &[]
    }

    #[inline(always)]
    fn next(&mut self) -> Option<BedRef<'a>> {
        let bed = self.bed?;
        self.bed = None;
        Some(bed)
    }

    ghost gives_none = { single_gives_none };

    ghost gives_more = { single_gives_more };

    ghost gives_same = { single_gives_same };
}

#[cfg(test)]
mod tests;
