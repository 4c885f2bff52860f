//! Runs of merge, complement and genomecov that write the same bytes: each law is the contract of a function that does
//! nothing.

ghost use Rattle.bt_laws.specs.Same.{bg_is_bga_above_0, complement_of_merge, depth_0_is_complement, exchanged_complement, exchanged_genomecov, exchanged_merge, merge_of_merge, repeated_complement, repeated_merge};

/// merge of merge is merge, with the same `-d` and without `-s`.
#[tactic(auto, using(crate::proofs::lemmas::same::SameRuns::merge_twice))]
pub fn merge_is_merged()
    ensures { merge_of_merge }
{}

/// complement of merge is complement, if merge has no options.
#[tactic(auto, using(crate::proofs::lemmas::same::SameRuns::complement_merged))]
pub fn merge_leaves_the_gaps()
    ensures { complement_of_merge }
{}

/// The same records in another order, each list sorted: merge without `-s`, complement and genomecov write the same.
pub fn equal_starts_may_be_exchanged()
    ensures merge { exchanged_merge }
    ensures complement { exchanged_complement }
    ensures genomecov { exchanged_genomecov }
{}

/// A record that comes once more, anywhere, changes nothing in merge without `-s` and in complement.
pub fn a_record_may_come_twice()
    ensures merge { repeated_merge }
    ensures complement { repeated_complement }
{}

/// The lines of depth 0 of genomecov -bga are complement's, without `-strand`, and -bg has the others.
pub fn depths_leave_the_gaps()
    ensures zero { depth_0_is_complement }
    ensures others { bg_is_bga_above_0 }
{}
