//! What maskfasta writes, as its input again: each law is the contract of a function that does nothing.

ghost use Rattle.bt_laws.specs.Same.{repeated_names_differ, masked_by_both, masked_by_merged, masked_by_positions, masked_by_sorted, masked_goes_on, masked_keep_layout, masked_twice};

/// The sequences of the output have the names, lengths and lines of those of the input.
pub fn masked_sequences_keep_their_lines()
    ensures layout { masked_keep_layout }
    ensures next { masked_goes_on }
{}

/// maskfasta twice is once, if bases aren't masked by `>`.
#[tactic(auto, using(crate::proofs::lemmas::same::MaskTwice::mask_twice))]
pub fn masked_sequences_stay_masked()
    ensures { masked_twice }
{}

/// maskfasta sees of a BED which positions of each sequence it masks, and nothing else. By one BED and then by another
/// it is by both, if bases aren't masked by `>`.
#[tactic(auto, using(crate::proofs::lemmas::same::MaskTwice::by_positions, crate::proofs::lemmas::same::MaskTwice::by_both))]
pub fn masked_positions_are_all()
    ensures alike { masked_by_positions }
    ensures both { masked_by_both }
{}

/// maskfasta by merge of a BED is maskfasta by the BED.
#[tactic(auto, using(crate::proofs::lemmas::same::MaskTwice::by_merged))]
pub fn a_bed_may_be_merged()
    ensures { masked_by_merged }
{}

/// maskfasta by one BED and then by another is maskfasta by the records of both in one, if no two sequences have the
/// name of a record's chromosome; with such names it may differ.
pub fn two_beds_may_be_one()
    ensures sorted { masked_by_sorted }
    ensures names { repeated_names_differ }
{}
