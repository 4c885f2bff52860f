//! Rules by which the records of an input are sorted.

ghost use Rattle.std.specs.Prelude.{◌≡◌, IsTrue};
ghost use Rattle.bt_bed.specs.model.Sorted.{Sorting, block_sorting, sorting_of};

use crate::order::ChromOrder;
use std::cmp::Ordering;

/// How the records of an input are sorted: on each chromosome by their starts, and the chromosomes by
/// this rule.
pub(crate) trait Sorted {
    ghost sorting: { Self → Sorting };

    /// Whether the chromosome of this name is known.
    fn knows(&self, name: &[u8]) -> bool
        ensures { result ≡ (sorting self.now).knows name.now };

    /// Whether a known chromosome comes before another.
    fn comes_before(&self, name: &[u8], other: &[u8]) -> bool
        requires name { IsTrue ((sorting self.now).knows name.now) }
        requires other { IsTrue ((sorting self.now).knows other.now) }
        ensures { result ≡ (sorting self.now).comes_before name.now other.now };
}

/// Sorted in an order of the chromosomes.
#[derive(Drop)]
pub(crate) struct ByOrder<'o, O> {
    pub(crate) order: &'o O,
}

impl<'o, O: ChromOrder> Sorted for ByOrder<'o, O> {
    ghost sorting = { λ by. sorting_of (O.order by.order.now) };

    fn knows(&self, name: &[u8]) -> bool {
        self.order.knows(name)
    }

    fn comes_before(&self, name: &[u8], other: &[u8]) -> bool {
        self.order.compare(name, other) == Ordering::Less
    }
}

/// Sorted by their starts alone, on each run of records of one chromosome. The runs come in any order,
/// and a chromosome may have several.
#[derive(Drop)]
pub(crate) struct InBlocks;

impl Sorted for InBlocks {
    ghost sorting = { λ _. block_sorting };

    fn knows(&self, _name: &[u8]) -> bool {
        true
    }

    fn comes_before(&self, _name: &[u8], _other: &[u8]) -> bool {
        false
    }
}
