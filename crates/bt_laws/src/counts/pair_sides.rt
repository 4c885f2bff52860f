//! The pairs of intersect from both sides, as the contract of a function that does nothing.

ghost use Rattle.bt_laws.specs.Counts.{pairs_have_two_sides};

/// The pairs of intersect -wa -wb don't depend on which input is the first, without `-f` or with `-f` and `-r`.
pub fn pairs_have_two_sides()
    ensures { pairs_have_two_sides }
{}
