//! Laws of alignments and of their blocks.

ghost use Rattle.std.specs.Prelude.{◌≡◌, [], ◌∷◌, Some, None, Ok, Err, codes, true, false};
ghost use Rattle.bt_seq.specs.model.Alignment.{alignment_of};
ghost use Rattle.bt_seq.specs.model.BedLines.{blocks_in};
ghost use Rattle.bt_seq.specs.model.Cigar.{cigar_length, operations_of};
ghost use Rattle.bt_seq.specs.calls.Alignments.{sam_kinds_are_of_lines, wrong_have_sam_kinds};
ghost use Rattle.bt_laws.specs.Sequences.{blocks_are_within, unskipped_are_one_block, division_is_found, division_is_one, operations_are_divided};

use bt_lines::Kind;

/// A CIGAR can be divided into numbers and letters in one way only, and its operations are those of
/// that division.
#[tactic(auto, using(crate::proofs::lemmas::single::Sequences::one_division, crate::proofs::lemmas::single::Sequences::division_found, crate::proofs::lemmas::single::Sequences::divided))]
pub fn cigars_are_divided_in_one_way()
    ensures one { division_is_one }
    ensures found { division_is_found }
    ensures divided { operations_are_divided }
{}

/// The reference lengths of small CIGARs.
#[tactic(auto, unfolding(bt_seq::specs::model::Cigar::operations_in, bt_lines::specs::model::Lines::value_of))]
pub fn lengths_of_small_cigars()
    ensures star { cigar_length (codes "*") ≡ Some 0 }
    ensures empty { cigar_length [] ≡ None }
    ensures no_number { cigar_length (codes "M") ≡ None }
    ensures no_letter { cigar_length (codes "5") ≡ None }
    ensures star_behind { cigar_length (codes "5*") ≡ None }
    ensures each_letter { cigar_length (codes "3S5M2I1D4N6=1X2H1P") ≡ Some 17 }
    ensures large { cigar_length (codes "999999999999M999999999999M") ≡ Some 1999999999998 }
    ensures too_large { cigar_length (codes "1000000000000M") ≡ None }
{}

/// What small texts say.
#[tactic(auto, unfolding(bt_seq::specs::model::Alignment::alignment_of, bt_seq::specs::model::Alignment::fields_say, bt_seq::specs::model::Cigar::operations_in, bt_lines::specs::model::Lines::value_of))]
pub fn alignments_of_small_texts()
    ensures blank { alignment_of [] ≡ Ok None }
    ensures header { alignment_of (codes "@HD\tVN:1.6") ≡ Ok None }
    ensures few_columns { alignment_of (codes "r\t0\ts\t1\t30\t5M\t*\t0\t0\t*") ≡ Err Kind.TooFewColumns }
    ensures mapped { alignment_of (codes "r\t147\ts\t037\t30\t9M\t=\t7\t-39\tCA\t*")
        ≡ Ok (Some (record { name = codes "r"; first = false; last = true; reverse = true; chrom = codes "s"; start = 36; stop = 45; quality = 30; cigar = codes "9M" })) }
    ensures unmapped { alignment_of (codes "r\t4\ts\t2\t30\t999999999999M\t*\t0\t0\t*\t*") ≡ Ok None }
    ensures no_reference { alignment_of (codes "r\t0\t*\t1\t30\t5M\t*\t0\t0\t*\t*") ≡ Ok None }
    ensures bad_flag { alignment_of (codes "r\t65536\t\t1\t30\t5M\t*\t0\t0\t*\t*") ≡ Err Kind.BadFlag }
    ensures no_name { alignment_of (codes "r\t4\t\tx\t30\t5M\t*\t0\t0\t*\t*") ≡ Err Kind.EmptyName }
    ensures bad_position { alignment_of (codes "r\t4\ts\t2147483648\tx\t5M\t*\t0\t0\t*\t*") ≡ Err Kind.BadPosition }
    ensures bad_quality { alignment_of (codes "r\t4\ts\t1\t256\t5Q\t*\t0\t0\t*\t*") ≡ Err Kind.BadQuality }
    ensures bad_cigar { alignment_of (codes "r\t4\ts\t1\t30\t5Q\t*\t0\t0\t*\t*") ≡ Err Kind.BadCigar }
    ensures large { alignment_of (codes "r\t0\ts\t2\t30\t999999999999M\t*\t0\t0\t*\t*") ≡ Err Kind.StopTooLarge }
{}

/// The blocks of small CIGARs.
#[tactic(auto, unfolding(bt_seq::specs::model::BedLines::blocks_of, bt_seq::specs::model::Cigar::operations_in, bt_lines::specs::model::Lines::value_of))]
pub fn blocks_of_small_cigars()
    ensures one_skip { blocks_in 15 (operations_of (codes "6M14N5M"))
        ≡ record { start = 15; stop = 21 } ∷ record { start = 35; stop = 40 } ∷ [] }
    ensures skip_of_none { blocks_in 0 (operations_of (codes "5M0N5M"))
        ≡ record { start = 0; stop = 5 } ∷ record { start = 5; stop = 10 } ∷ [] }
    ensures no_bases { blocks_in 0 (operations_of (codes "5N3S2I5M"))
        ≡ record { start = 5; stop = 10 } ∷ [] }
    ensures skip_alone { blocks_in 0 (operations_of (codes "5N")) ≡ [] }
    ensures no_skip { blocks_in 7 (operations_of (codes "3S8M2I4M1D3M"))
        ≡ record { start = 7; stop = 23 } ∷ [] }
{}

/// Operations without an N are one block, if they cover a base.
#[tactic(auto, using(crate::proofs::lemmas::single::Sequences::one_block))]
pub fn operations_without_skips_are_one_block()
    ensures { unskipped_are_one_block }
{}

/// The blocks of an alignment are disjoint and in order, from its start to its end, and each has a base.
#[tactic(auto, using(crate::proofs::lemmas::single::Sequences::within))]
pub fn blocks_lie_within_their_alignment()
    ensures { blocks_are_within }
{}

/// What is wrong with a line is one of seven kinds, each of which lies at a line.
#[tactic(auto, using(bt_seq::proofs::lemmas::Sam::wrong_kinds, bt_seq::proofs::lemmas::Sam::kinds_of_lines))]
pub fn faults_of_alignments_lie_at_lines()
    ensures kinds { wrong_have_sam_kinds }
    ensures lines { sam_kinds_are_of_lines }
{}
