//! The bases that genomecov counts, as the contract of a function that does nothing.

ghost use Rattle.bt_laws.specs.Counts.{depths_sum};

/// Depth times length over genomecov -bg add up to the bases of the counted records below the lengths.
#[tactic(auto, using(crate::proofs::lemmas::Counts::sum_depths))]
pub fn depths_add_up_to_bases()
    ensures { depths_sum }
{}
