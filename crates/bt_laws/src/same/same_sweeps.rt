//! Runs of intersect and subtract that write the same bytes by another second input: each law is the contract of a
//! function that does nothing.

ghost use Rattle.bt_laws.specs.Same.{merged_second_missing, merged_second_once, merged_second_subtract, subtract_by_complement};

/// With merge of the second input instead of it intersect -u, -v and subtract write the same, without `-f` and `-s`.
#[tactic(auto, using(crate::proofs::lemmas::same::SameSweeps::once_merged, crate::proofs::lemmas::same::SameSweeps::missing_merged, crate::proofs::lemmas::same::SameSweeps::subtracts_merged))]
pub fn the_second_input_may_be_merged()
    ensures once { merged_second_once }
    ensures missing { merged_second_missing }
    ensures subtract { merged_second_subtract }
{}

/// subtract is intersect with the complement of the second input, if the first lies within the lengths; without `-f`
/// and `-s`.
#[tactic(auto, using(crate::proofs::lemmas::same::GapsHit::subtract_gaps))]
pub fn what_is_left_lies_in_the_gaps()
    ensures { subtract_by_complement }
{}
