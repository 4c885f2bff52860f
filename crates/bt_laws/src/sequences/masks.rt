//! Laws of masked sequences.

ghost use Rattle.std.specs.Prelude.{◌≡◌, [], ◌∷◌, Some, None, codes, true, false};
ghost use Rattle.bt_bed.specs.model.BedLine.{fault_at_line};
ghost use Rattle.bt_seq.specs.calls.MaskStage.{decided_lines_stay, first_unowned_is_told, held_mask_alone, masked_lines_are_before, masked_lines_stay, owned_lack_none};
ghost use Rattle.bt_seq.specs.calls.MaskState.{owners_are_found, next_goes_on_or_begins};
ghost use Rattle.bt_laws.specs.Sequences.{faultless_are_masked, masked_are_a_prefix, taken_are_first, quiet_records_are_taken, blocks_are_maximal_runs, owners_are_first, owners_stay, owners_were, unowned_find_no_name, mask_texts};

use bt_lines::{Input, Kind};
use bt_seq::MaskHow;

/// The blocks of records are their maximal runs of one chromosome.
pub fn blocks_are_runs()
    ensures { blocks_are_maximal_runs }
{}

/// One more record goes on with the last block, or begins one after it.
#[tactic(auto, using(bt_seq::proofs::lemmas::definitions::KnowsLemmas::goes_on_or_begins))]
pub fn blocks_follow_one_another()
    ensures { next_goes_on_or_begins }
{}

/// A record that neither decides the line that waits nor has to be held is taken, and nothing is written.
#[tactic(auto, using(crate::proofs::lemmas::single::Sequences::quiet_taken))]
pub fn quiet_records_are_taken()
    ensures { quiet_records_are_taken }
{}

/// Among the names up to a line and among all names, a block belongs to the same of those sequences.
#[tactic(auto, using(crate::proofs::lemmas::single::Sequences::owners_stay_so, crate::proofs::lemmas::single::Sequences::owners_were_so))]
pub fn owners_agree_among_more_names()
    ensures stay { owners_stay }
    ensures were { owners_were }
{}

/// A block belongs to the first sequence of its name after that of the block before it, and to none if
/// none after that one has its name.
pub fn owners_are_the_first_of_their_name()
    ensures first { owners_are_first }
    ensures none { unowned_find_no_name }
{}

/// What is known line by line and record by record gives the sequence of a block.
#[tactic(auto, using(bt_seq::proofs::lemmas::definitions::KnowsLemmas::owners_found))]
pub fn owners_of_blocks_are_found()
    ensures { owners_are_found }
{}

/// A line that is decided stays decided, and masked as it is, whatever comes after in order: the record
/// that decides it included.
#[tactic(auto, using(bt_seq::proofs::lemmas::definitions::MaskPrefixLemmas::decided_stays, bt_seq::proofs::lemmas::definitions::MaskPrefixLemmas::masked_stay, bt_seq::proofs::lemmas::definitions::MaskPrefixLemmas::masked_before))]
pub fn decided_lines_stay()
    ensures decided { decided_lines_stay }
    ensures masked { masked_lines_stay }
    ensures before { masked_lines_are_before }
{}

/// What is written for a prefix of both inputs begins what is written for the whole of them. If the
/// second input has no fault, all lines are written, masked.
pub fn masked_prefixes_begin()
    ensures prefix { masked_are_a_prefix }
    ensures faultless { faultless_are_masked }
{}

/// The first record whose block belongs to no sequence is reported, if there is one.
#[tactic(auto, using(bt_seq::proofs::lemmas::definitions::MaskPrefixLemmas::lack_none, bt_seq::proofs::lemmas::definitions::MaskPrefixLemmas::first_is_told))]
pub fn first_unowned_is_told()
    ensures none { owned_lack_none }
    ensures first { first_unowned_is_told }
{}

/// Of the records that were taken, no prefix decides all lines given.
pub fn taken_records_come_first()
    ensures { taken_are_first }
{}

/// The records held by a line mask it as all records of the input do.
#[tactic(auto, using(bt_seq::proofs::lemmas::definitions::MaskPrefixLemmas::held_alone))]
pub fn held_records_mask_alone()
    ensures { held_mask_alone }
{}

/// The masked text of small inputs.
#[tactic(auto, unfolding(bt_bed::specs::model::Good::good_after, bt_bed::specs::model::Good::line_says, bt_bed::specs::model::BedLine::record_of, bt_lines::specs::model::Lines::lines_from, bt_lines::specs::model::Lines::value_of))]
pub fn masked_small_texts()
    ensures over_two_lines { mask_texts (MaskHow.Hard 78) false (codes ">s d\nACGTAC\nGTAC") (codes "s\t4\t8\n")
        ≡ record { output = codes ">s d\nACGTNN\nNNAC"; fault = None } }
    ensures soft { mask_texts MaskHow.Soft false (codes ">s d\nACGTAC\nGTAC") (codes "s\t4\t8\n")
        ≡ record { output = codes ">s d\nACGTac\ngtAC"; fault = None } }
    ensures other_byte { mask_texts (MaskHow.Hard 120) false (codes ">s d\nACGTAC\nGTAC") (codes "s\t4\t8\n")
        ≡ record { output = codes ">s d\nACGTxx\nxxAC"; fault = None } }
    ensures past_the_end { mask_texts (MaskHow.Hard 78) false (codes ">s\nACGT\n") (codes "s\t2\t20\n")
        ≡ record { output = codes ">s\nACNN\n"; fault = None } }
    ensures behind_the_end { mask_texts (MaskHow.Hard 78) false (codes ">s\nACGT\n") (codes "s\t10\t20\n")
        ≡ record { output = codes ">s\nACGT\n"; fault = None } }
    ensures line_ends { mask_texts (MaskHow.Hard 78) false (codes "\r\n>s\r\nAC\r\n\nGT\r") (codes "s\t1\t3\n")
        ≡ record { output = codes "\r\n>s\r\nAN\r\n\nNT\r"; fault = None } }
    ensures full_header { mask_texts (MaskHow.Hard 78) true (codes ">s d\nACGT\n") (codes "s d\t0\t1\n")
        ≡ record { output = codes ">s d\nNCGT\n"; fault = None } }
{}

/// Which sequence is masked if several have a name, or a block has none.
#[tactic(auto, unfolding(bt_bed::specs::model::Good::good_after, bt_bed::specs::model::Good::line_says, bt_bed::specs::model::BedLine::record_of, bt_lines::specs::model::Lines::lines_from, bt_lines::specs::model::Lines::value_of))]
pub fn masked_sequences_of_blocks()
    ensures each_in_turn { mask_texts (MaskHow.Hard 78) false (codes ">s\nAAAA\n>t\nCCCC\n>s\nGGGG\n") (codes "s\t0\t1\nt\t0\t1\ns\t0\t1\n")
        ≡ record { output = codes ">s\nNAAA\n>t\nNCCC\n>s\nNGGG\n"; fault = None } }
    ensures second_of_a_name { mask_texts (MaskHow.Hard 78) false (codes ">s\nAAAA\n>t\nCCCC\n>s\nGGGG\n") (codes "t\t0\t1\ns\t0\t1\n")
        ≡ record { output = codes ">s\nAAAA\n>t\nNCCC\n>s\nNGGG\n"; fault = None } }
    ensures across_lines { mask_texts (MaskHow.Hard 78) false (codes ">s\nAC\nGT\n>t\nTTTT\n") (codes "s\t1\t3\nt\t0\t1\n")
        ≡ record { output = codes ">s\nAN\nNT\n>t\nNTTT\n"; fault = None } }
    ensures earlier_name { mask_texts (MaskHow.Hard 78) false (codes ">s\nAA\n>t\nCC\n>u\n") (codes "t\t0\t1\ns\t0\t1\nu\t0\t1\n")
        ≡ record { output = codes ">s\nAA\n>t\nNC\n>u\n"; fault = Some (fault_at_line Input.Second 2 Kind.NoSequence) } }
    ensures empty_name { mask_texts (MaskHow.Hard 78) false (codes ">\nAA\n>t") (codes "t\t0\t1\n")
        ≡ record { output = codes ">\nAA\n>t"; fault = None } }
{}

/// What is written before a fault.
#[tactic(auto, unfolding(bt_bed::specs::model::Good::good_after, bt_bed::specs::model::Good::line_says, bt_bed::specs::model::BedLine::record_of, bt_lines::specs::model::Lines::lines_from, bt_lines::specs::model::Lines::value_of))]
pub fn masked_lines_before_a_fault()
    ensures no_sequence { mask_texts (MaskHow.Hard 78) false (codes ">s\nACGT\n") (codes "t\t0\t2\n")
        ≡ record { output = codes ">s\nACGT\n"; fault = Some (fault_at_line Input.Second 1 Kind.NoSequence) } }
    ensures before_a_fault { mask_texts (MaskHow.Hard 78) false (codes ">s\nAAAA\n") (codes "t\t0\t2\nt\tx\t5\n")
        ≡ record { output = codes ">s\nAAAA\n"; fault = Some (fault_at_line Input.Second 1 Kind.NoSequence) } }
    ensures no_header { mask_texts (MaskHow.Hard 78) false (codes "ACGT\n>s\n") []
        ≡ record { output = []; fault = Some (fault_at_line Input.First 1 Kind.TextBeforeHeader) } }
    ensures out_of_order { mask_texts (MaskHow.Hard 78) false (codes ">s\nAAAA\n") (codes "s\t3\t4\ns\t1\t2\n")
        ≡ record { output = codes ">s\n"; fault = Some (fault_at_line Input.Second 2 Kind.OutOfOrder) } }
    ensures bad_start { mask_texts (MaskHow.Hard 78) false (codes ">s\nAAAA\nCCCC\n") (codes "s\t0\t1\ns\tx\t2\n")
        ≡ record { output = codes ">s\n"; fault = Some (fault_at_line Input.Second 2 Kind.BadStart) } }
    ensures first_line { mask_texts (MaskHow.Hard 78) false (codes ">s\nAAAA\n") (codes "s\tx\t2\n")
        ≡ record { output = []; fault = Some (fault_at_line Input.Second 1 Kind.BadStart) } }
{}
