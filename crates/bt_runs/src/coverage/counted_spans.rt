//! The counted records of a chromosome, in proofs alone: at run time a list of them has no bytes, and its functions do nothing.

ghost use Rattle.std.specs.Prelude.{◌≡◌, List, [], ◌∷◌, ◌++◌};
ghost use Rattle.std.specs.Borrow.{ftrue};
ghost use Rattle.bt_bed.specs.model.Feature.{Span};

use bt_bed::Bounds;
use std::marker::Model;

// Where they lie, in file order.
#[derive(Drop, Debug)]
pub(crate) struct CountedSpans {
    ghost spans: { List Span },
}

impl Model for CountedSpans {
    ghost also_owns = { λ _. ftrue };
}

impl CountedSpans {
    // There are none.
    pub(crate) fn new() -> CountedSpans
        ensures { result.spans ≡ [] }
    {
        CountedSpans {}
    }

    // They and one more.
    #[inline(always)]
    pub(crate) fn with(&self, next: &Bounds) -> CountedSpans
        ensures { result.spans ≡ self.now.spans ++ record { start = next.now.start; stop = next.now.stop } ∷ [] }
    {
        CountedSpans {}
    }
}
