//! Runs of merge, complement and genomecov that write the same bytes, as far as the lengths of the genome file go: each
//! law is the contract of a function that does nothing.

ghost use Rattle.bt_laws.specs.Same.{complement_of_complement, merge_of_genomecov};

/// Complement of complement is merge, cut at the lengths, without `-L` and if no chromosome's name begins with the word
/// `track` or `browser`.
pub fn gaps_of_the_gaps_are_the_runs()
    ensures { complement_of_complement }
{}

/// merge of genomecov -bg is merge, if the records lie within the lengths; with the same `-d` and without other options.
#[tactic(auto, using(crate::proofs::lemmas::same::LengthLaws::genomecov_merged))]
pub fn depths_are_merged()
    ensures { merge_of_genomecov }
{}
