//! What to know of the jobs that run the parts: each law is the contract of a function that does nothing.

ghost use Rattle.bt_laws.specs.Parts.{complement_shards_suffice, genomecov_shards_suffice, intersect_shards_suffice, merge_shards_suffice, subtract_shards_suffice, prefixes_begin};

/// If each part has its own part of the genome file, runs of all parts without a fault are enough: nobody has to
/// know on which chromosomes the records of a part lie, since one that lies elsewhere is a fault there.
#[tactic(auto, using(crate::proofs::lemmas::parts::PartOwnGenomes::merge_suffice, crate::proofs::lemmas::parts::PartOwnGenomes::complement_suffice, crate::proofs::lemmas::parts::PartOwnGenomes::genomecov_suffice, crate::proofs::lemmas::parts::PartOwnGenomes::intersect_suffice, crate::proofs::lemmas::parts::PartOwnGenomes::subtract_suffice))]
pub fn runs_without_a_fault_suffice()
    ensures merge { merge_shards_suffice }
    ensures complement { complement_shards_suffice }
    ensures genomecov { genomecov_shards_suffice }
    ensures intersect { intersect_shards_suffice }
    ensures subtract { subtract_shards_suffice }
{}

/// A part whose read, write or memory fails has written a prefix of its output, as `run` promises. After the outputs
/// of the parts before it that is a prefix of the output of the complete run, if this is without a fault.
#[tactic(auto, using(crate::proofs::lemmas::parts::PartReports::prefixes_begin_whole))]
pub fn outputs_up_to_a_failure_begin_the_whole()
    ensures { prefixes_begin }
{}
