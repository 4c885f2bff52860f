//! Parts of two inputs that are divided at the same place: each law is the contract of a function that does nothing.

ghost use Rattle.bt_laws.specs.Parts.{maskfasta_divides, repeated_names_divide, intersect_genomes_divide, subtract_genomes_divide, intersect_divides, subtract_divides};

/// Both inputs of intersect may be divided between the same two chromosomes.
pub fn parts_of_intersect_add_up()
    ensures order { intersect_divides }
    ensures genome { intersect_genomes_divide }
{}

/// And so may those of subtract.
pub fn parts_of_subtract_add_up()
    ensures order { subtract_divides }
    ensures genome { subtract_genomes_divide }
{}

/// FASTA text may be divided at headers, and the records that mask it so that each is in the part of its sequence.
#[tactic(auto, using(crate::proofs::lemmas::parts::PartTexts::mask_divides, crate::proofs::lemmas::parts::PartTexts::repeated_divide))]
pub fn parts_of_maskfasta_add_up()
    ensures names { maskfasta_divides }
    ensures repeated { repeated_names_divide }
{}
