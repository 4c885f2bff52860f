//! Orders of chromosomes.

pub(crate) mod byte_order;
pub(crate) mod entry;
pub(crate) mod genome;
pub(crate) mod genome_line;
pub(crate) mod genome_order;

ghost use Rattle.std.specs.Prelude.{◌≡◌, IsTrue};
ghost use Rattle.bt_bed.specs.model.Order.{Order};
ghost use Rattle.bt_bed.specs.calls.Orders.{IsTotal};

use std::cmp::Ordering;

/// An order of the chromosomes that it knows, by which sorted input is sorted. It is total, and only
/// equal names compare as equal.
pub trait ChromOrder {
    ghost order: { Self → Order };

    /// Whether the chromosome of this name is known.
    fn knows(&self, name: &[u8]) -> bool
        ensures { result ≡ (order self.now).knows name.now };

    /// Which of two known chromosomes comes first. Both have to be known.
    fn compare(&self, left: &[u8], right: &[u8]) -> Ordering
        requires left { IsTrue ((order self.now).knows left.now) }
        requires right { IsTrue ((order self.now).knows right.now) }
        ensures { result ≡ (order self.now).compare left.now right.now };

    ghost total: { (chroms : Self) → IsTotal (order chroms) };
}
