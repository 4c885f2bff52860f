//! Which outputs the next command takes as they are, in the same order of the chromosomes: each law is the contract
//! of a function that does nothing.

ghost use Rattle.bt_laws.specs.Pipes.{bamtobed_is_input, blocks_go_back, cuts_go_back, names_become_strands, pieces_go_back, returns_change_strands, complement_is_input, cut_intersect_is_input, cut_strands_stay, genomecov_is_input, intersect_is_input, kept_places_stay, kept_records_stay, kept_strands_stay, merge_is_input, subtract_is_input, whole_subtract_is_input, complement_writes_disjoint, genomecov_writes_disjoint, merge_writes_disjoint};

/// What merge writes is an input, whose records are the runs.
pub fn merge_goes_on()
    ensures { merge_is_input }
{}

/// What complement writes is an input, whose records are the gaps.
pub fn complement_goes_on()
    ensures { complement_is_input }
{}

/// What genomecov writes is an input, whose records are the intervals.
pub fn genomecov_goes_on()
    ensures { genomecov_is_input }
{}

/// What intersect writes is an input: with -wa, -u, -v, -c, -wa -wb and -wo always, and else where no two records
/// of the first input overlap.
#[tactic(auto, using(crate::proofs::lemmas::pipes::PipeLaws::intersect_input, crate::proofs::lemmas::pipes::PipeLaws::cut_intersect_input))]
pub fn intersect_goes_on()
    ensures kept { intersect_is_input }
    ensures cut { cut_intersect_is_input }
{}

/// What subtract writes is an input: with -A always, and else where no two records of the first input overlap.
#[tactic(auto, using(crate::proofs::lemmas::pipes::PipeLaws::whole_subtract_input, crate::proofs::lemmas::pipes::PipeLaws::subtract_input))]
pub fn subtract_goes_on()
    ensures kept { whole_subtract_is_input }
    ensures cut { subtract_is_input }
{}

/// The records of the first input are read again as they are from -wa, -u, -v and subtract -A, if no last column ends
/// with a carriage return; from -c, -wa -wb and -wo with their places, and with their strands, if no record of five
/// columns lies on a chromosome named `+` or `-`. Cuts and pieces have their strands under the same conditions.
pub fn kept_records_are_read_again()
    ensures records { kept_records_stay }
    ensures places { kept_places_stay }
    ensures strands { kept_strands_stay }
    ensures cuts { cut_strands_stay }
{}

/// Records that are read with another strand: by a carriage return, and by a chromosome named `+`.
pub fn some_strands_change()
    ensures returns { returns_change_strands }
    ensures names { names_become_strands }
{}

/// What bamtobed writes without -split is an input, where the alignments are sorted, and all their references are in the
/// genome file of the next command, if it has one.
#[tactic(auto, using(crate::proofs::lemmas::pipes::ConvertPipes::bamtobed_input))]
pub fn bamtobed_goes_on()
    ensures { bamtobed_is_input }
{}

/// Outputs that the next command refuses: cuts and pieces of records that overlap, and blocks of -split.
pub fn some_outputs_go_back()
    ensures cuts { cuts_go_back }
    ensures pieces { pieces_go_back }
    ensures blocks { blocks_go_back }
{}

/// No two records overlap of what merge without -s, complement and genomecov write: so it goes on into intersect
/// and subtract, and what they write goes on too.
#[tactic(auto, using(crate::proofs::lemmas::pipes::PipeLaws::merge_disjoint, crate::proofs::lemmas::pipes::PipeLaws::complement_disjoint, crate::proofs::lemmas::pipes::PipeLaws::genomecov_disjoint))]
pub fn runs_and_gaps_dont_overlap()
    ensures merge { merge_writes_disjoint }
    ensures complement { complement_writes_disjoint }
    ensures genomecov { genomecov_writes_disjoint }
{}
