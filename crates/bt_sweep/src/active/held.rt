//! What a sweep keeps of the second input.

ghost use Rattle.std.specs.Prelude.{◌≡◌, ℕ, List, [], ◌∷◌, ◌++◌, length, filter, nat_lt, slice_get, option_copied, OnOk, IfErr};
ghost use Rattle.bt_bed.specs.model.Feature.{Feature};

use bt_bed::Rec;

/// Records in file order, which are seen as their list.
pub trait Held: Drop {
    ghost records: { Self → List Feature };

    /// Adds a record after the others. If memory runs out, the record is handed back and the list
    /// stays as it was. The contracts of std don't say when a map can't grow, so `test_sizes.py`
    /// tries that this happens only if a growth was refused.
    fn push(&mut self, rec: Rec) -> Result<(), Rec>
        ensures pushed { OnOk result (records self.new ≡ records self.old ++ rec ∷ []) }
        ensures back { IfErr result (λ back. (back ≡ rec) × (records self.new ≡ records self.old)) };

    /// Drops the records that end at or before this position, which is zero-based. The others stay in their
    /// order. It doesn't allocate.
    fn drop_ended(&mut self, place: u64)
        ensures { records self.new ≡ filter (λ r. nat_lt place r.stop) (records self.old) };

    /// Drops all records. It doesn't allocate.
    fn clear(&mut self)
        ensures { records self.new ≡ [] };

    /// The record at this index, from 0, if there is one.
    fn nth(&self, index: usize) -> Option<&Rec>
        ensures { option_copied result ≡ slice_get (records self.now) index };

    /// How many records there are.
    fn len(&self) -> usize
        ensures { result ≡ length (records self.now) };
}
