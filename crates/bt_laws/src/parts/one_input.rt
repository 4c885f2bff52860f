//! Parts of one input: each law is the contract of a function that does nothing.

ghost use Rattle.bt_laws.specs.Parts.{complement_divides, genomecov_divides, merge_genomes_divide, bamtobed_divides, merge_divides};

/// Alignments may be divided at any line.
pub fn parts_of_bamtobed_add_up()
    ensures { bamtobed_divides }
{}

/// Records to be merged may be divided between two chromosomes, and the genome file with them.
pub fn parts_of_merge_add_up()
    ensures order { merge_divides }
    ensures genome { merge_genomes_divide }
{}

/// The genome file of complement may be divided between two chromosomes, and its records with it.
pub fn parts_of_complement_add_up()
    ensures { complement_divides }
{}

/// And so may those of genomecov.
pub fn parts_of_genomecov_add_up()
    ensures { genomecov_divides }
{}
