//! How the names of chromosomes are written, of which bedtools warns if it isn't one way.

ghost use Rattle.std.specs.Prelude.{◌≡◌};
ghost use Rattle.bt_front.specs.model.Extents.{names_in};
ghost use Rattle.bt_front.specs.model.Verdict.{are_named};

use crate::survey::chromosomes::Chromosomes;
use crate::survey::header_name::begins_as;

/// How bedtools takes a name to be written.
#[derive(Clone, Copy, Debug, PartialEq, Eq)]
pub enum Naming {
    /// It doesn't begin with `chr`, in any case.
    Bare,
    /// It begins with `chr`.
    Prefixed,
    /// It begins with `chr0`.
    PrefixedZero,
}

impl Naming {
    ghost use Rattle.bt_front.specs.model.Verdict.{is_named};

    // Whether a name is written so.
    fn is_of(self, name: &[u8]) -> bool
        ensures { result ≡ is_named self name.now }
    {
        match self {
            Naming::Bare => !begins_as(name, b"chr"),
            Naming::Prefixed => begins_as(name, b"chr") && !begins_as(name, b"chr0"),
            Naming::PrefixedZero => begins_as(name, b"chr0"),
        }
    }
}

/// Whether all of the chromosomes' names are written so.
pub(crate) fn are_named(chromosomes: &Chromosomes, way: Naming) -> bool
    ensures { result ≡ are_named way (names_in chromosomes.now) }
{
    for at in 0..chromosomes.count() {
        if !way.is_of(chromosomes.name(at)) {
            return false;
        }
    }
    true
}
