//! The chromosomes of a text.

ghost use Rattle.std.specs.Prelude.{◌≡◌, ◌<◌};
ghost use Rattle.std.specs.Ordering.{is_lt, nat_cmp};
ghost use Rattle.std.specs.Cmp.Lexicographic.{slice_cmp};

use bt_bed::is_same_name;
use indexmap::IndexMap;
use std::alloc::{AllocError, Global};

/// Where the records of a chromosome lie.
#[derive(Clone, Copy, Debug, PartialEq, Eq)]
pub struct Extent {
    /// The start of the first of them.
    pub start: u64,
    /// The largest of their ends.
    pub stop: u64,
}

/// The chromosomes of a text in the order in which they first come, each with its extent. A look-up by name is hashed.
#[derive(Drop, Debug)]
pub struct Chromosomes {
    // Always valid: the names are distinct.
    extents: IndexMap<Vec<u8>, Extent>,
}

#[tactic(auto, unfolding(crate::specs::model::Extents::extents_in))]
impl Chromosomes {
    ghost use Rattle.std.specs.Prelude.{◌≡◌, ◌∷◌, ◌++◌, [], IfErr, OnOk, OnErr, Some, length, option_map, slice_get, false};
    ghost use Rattle.bt_bed.specs.model.Order.{is_among, rank_of};
    ghost use Rattle.bt_front.specs.calls.Chromosomes.{is_last_name, placed, widened};
    ghost use Rattle.bt_front.specs.model.Extents.{ascend_by_bytes, extents_in, names_in};

    /// None yet.
    pub fn new(alloc: Global) -> Chromosomes
        ensures { extents_in result ≡ [] }
    {
        Chromosomes {
            extents: IndexMap::new(alloc),
        }
    }

    /// How many there are.
    pub fn count(&self) -> usize
        ensures { result ≡ length (names_in self.now) }
    {
        self.extents.len()
    }

    /// The name of the one at this place, which is below [`Chromosomes::count`].
    pub fn name(&self, at: usize) -> &[u8]
        requires { at < length (names_in self.now) }
        ensures { slice_get (names_in self.now) at ≡ Some result.now }
    {
        let (name, _) = self.extents.get_index(at).unwrap();
        name.as_slice()
    }

    // Whether the last of them has this name.
    pub(crate) fn is_last(&self, name: &[u8]) -> bool
        ensures { result ≡ is_last_name (names_in self.now) name.now }
    {
        let count = self.count();
        count > 0 && is_same_name(self.name(count - 1), name)
    }

    /// Whether each of them comes before the next one by the bytes of their names.
    pub fn are_by_bytes(&self) -> bool
        ensures { result ≡ ascend_by_bytes (names_in self.now) }
    {
        for at in 1..self.count() {
            if !is_before(self.name(at - 1), self.name(at)) {
                return false;
            }
        }
        true
    }

    /// The place of a name, from 0, if it is one of them.
    pub fn place(&self, name: &[u8]) -> Option<usize>
        ensures { result ≡ rank_of (names_in self.now) name.now }
    {
        self.extents.get_index_of(name)
    }

    /// Where the records of the one at this place lie.
    pub fn extent(&self, at: usize) -> Extent
        requires { at < length (names_in self.now) }
        ensures { option_map placed (slice_get (extents_in self.now) at) ≡ Some result }
    {
        self.extents[at]
    }

    /// Adds one that isn't among them. It stays as it is if memory runs out.
    pub fn add(&mut self, alloc: Global, name: &[u8], extent: Extent) -> Result<(), AllocError>
        requires { is_among (names_in self.old) name.now ≡ false }
        ensures added { OnOk result (extents_in self.new ≡ extents_in self.old
            ++ record { chrom = name.now; start = extent.start; stop = extent.stop } ∷ []) }
    {
        let name = Vec::from_slice(alloc, name)?;
        match self.extents.insert(name, extent) {
            Ok(_new) => Ok(()),
            Err(_failed) => Err(AllocError),
        }
    }

    /// Widens the last one up to this end.
    pub fn widen_last(&mut self, stop: u64)
        ensures { extents_in self.new ≡ widened stop (extents_in self.old) }
    {
        let count = self.extents.len();
        if count == 0 {
            return;
        }
        if let Some(extent) = self.extents.get_index_mut(count - 1) {
            extent.stop = extent.stop.max(stop);
        }
    }
}

// Whether a name comes before another by their bytes.
fn is_before(name: &[u8], other: &[u8]) -> bool
    ensures { result ≡ is_lt (slice_cmp nat_cmp name.now other.now) }
{
    name.cmp(other).is_lt()
}

#[cfg(test)]
mod tests {
    use super::*;
    use std::process::Abort;
    use std::test::Fail;

    #[test]
    fn a_chromosome_is_widened(rt: HostRuntime) -> Result<(), Fail> {
        let mut found = Chromosomes::new(rt.alloc());
        found.add(rt.alloc(), b"chr2", Extent { start: 5, stop: 9 })?;
        found.widen_last(8);
        found.widen_last(30);
        assert_eq!(rt; found.count(), 1);
        assert_eq!(rt; found.place(b"chr2"), Some(0));
        assert_eq!(rt; found.place(b"chr1"), None);
        if found.count() == 1 {
            assert_eq!(rt; found.name(0), b"chr2".as_slice());
            assert_eq!(rt; found.extent(0), Extent { start: 5, stop: 30 });
        }
        Ok(())
    }
}
