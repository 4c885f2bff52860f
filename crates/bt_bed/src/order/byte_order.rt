//! The order of chromosomes by the bytes of their names.

ghost use Rattle.std.specs.Prelude.{◌≡◌};
ghost use Rattle.bt_bed.specs.model.Order.{byte_order};
ghost use Rattle.bt_bed.specs.calls.Orders.{bytes_total};

use crate::order::ChromOrder;
use crate::parse::names::is_same_name;
use std::cmp::Ordering;

/// The order of chromosomes by the bytes of their names, as `LC_ALL=C sort` sorts them: `chr1`, `chr10`,
/// `chr2`. It knows every name.
#[derive(Clone, Copy, Debug)]
pub struct ByteOrder;

impl ChromOrder for ByteOrder {
    ghost order = { λ _. byte_order };

    ghost total = { λ _. bytes_total };

    fn knows(&self, _name: &[u8]) -> bool {
        true
    }

    fn compare(&self, left: &[u8], right: &[u8]) -> Ordering {
        if is_same_name(left, right) {
            return Ordering::Equal;
        }
        compare_bytes(left, right)
    }
}

// Which of two names comes first. Out of line, so that equal names need no call.
#[inline(never)]
fn compare_bytes(left: &[u8], right: &[u8]) -> Ordering
    ensures { result ≡ byte_order.compare left.now right.now }
{
    left.cmp(right)
}

#[cfg(test)]
mod tests {
    use super::*;
    use crate::tests::compared;
    use std::cmp::Ordering::{Equal, Greater, Less};

    #[test]
    fn orders_names_by_their_bytes(rt: HostRuntime) {
        assert_eq!(rt; compared(&ByteOrder, b"chr10", b"chr2"), Some(Less));
        assert_eq!(rt; compared(&ByteOrder, b"chr10", b"chr1"), Some(Greater));
        assert_eq!(rt; compared(&ByteOrder, b"", b""), Some(Equal));
    }
}
