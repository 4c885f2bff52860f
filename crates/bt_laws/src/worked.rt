//! Worked values: what commands give of small inputs, computed by the definitions themselves. Each value is from the public
//! standard or the bedtools manual, worked by hand.

ghost use Rattle.std.specs.Prelude.{◌≡◌, ◌∷◌, true, false, None, Some, [], codes};
ghost use Rattle.bt_lines.specs.model.Fault.{text_of};
ghost use Rattle.bt_lines.specs.model.Lines.{value_of};
ghost use Rattle.bt_laws.specs.WholeRuns.{two_texts};
ghost use Rattle.bt_laws.specs.Worked.{AreRefused, CutGenomeTo, CutTo, Exclude, IsNamed, MaskReaches, Reaches, Shows, StopsAtLine, Writes, by_fraction, on_one_strand, one_text, sam_text, with_genome};

use bt_bed::Strand;
use bt_lines::{Input, Kind};
use bt_runs::MergeStrand;
use bt_seq::MaskHow;
use bt_sweep::Shape;
use bt_tool::Command;

/// Strands with -s (bedtools manual, intersect and subtract, option -s): `+` and `-` hit only their own, and records
/// without a strand one another.
#[tactic(auto, unfolding(bt_tool::specs::model::Report::report_of, bt_lines::specs::model::Lines::lines_from, bt_lines::specs::model::Lines::value_of, bt_bed::specs::model::Good::good_after, bt_bed::specs::model::Good::line_says, bt_bed::specs::model::BedLine::record_of, bt_sweep::specs::model::Lines::lines_for, bt_sweep::specs::model::Hits::is_hit, bt_sweep::specs::model::Hits::strands_agree, bt_sweep::specs::model::Hits::is_enough, bt_sweep::specs::model::Hits::has_fraction, bt_bed::specs::calls::Stretches::stretches_from, bt_bed::specs::calls::Stretches::with_position, bt_sweep::specs::model::Lines::pieces))]
pub fn strands()
    ensures both_plus { Writes (Command.Intersect Shape.Cut on_one_strand None)
        (two_texts (codes "c\t0\t10\ta\t0\t+\n") (codes "c\t5\t8\tb\t0\t+\n")) (codes "c\t5\t8\ta\t0\t+\n") }
    ensures both_minus { Writes (Command.Intersect Shape.Cut on_one_strand None)
        (two_texts (codes "c\t0\t10\ta\t0\t-\n") (codes "c\t5\t8\tb\t0\t-\n")) (codes "c\t5\t8\ta\t0\t-\n") }
    ensures plus_beside_minus { Writes (Command.Intersect Shape.Cut on_one_strand None)
        (two_texts (codes "c\t0\t10\ta\t0\t+\n") (codes "c\t5\t8\tb\t0\t-\n")) [] }
    ensures minus_beside_plus { Writes (Command.Intersect Shape.Cut on_one_strand None)
        (two_texts (codes "c\t0\t10\ta\t0\t-\n") (codes "c\t5\t8\tb\t0\t+\n")) [] }
    ensures without_a_strand { Writes (Command.Intersect Shape.Cut on_one_strand None)
        (two_texts (codes "c\t0\t10\n") (codes "c\t5\t8\n")) (codes "c\t5\t8\n") }
    ensures none_beside_a_point { Writes (Command.Intersect Shape.Cut on_one_strand None)
        (two_texts (codes "c\t0\t10\n") (codes "c\t5\t8\tb\t0\t.\n")) (codes "c\t5\t8\n") }
    ensures none_beside_plus { Writes (Command.Intersect Shape.Cut on_one_strand None)
        (two_texts (codes "c\t0\t10\n") (codes "c\t5\t8\tb\t0\t+\n")) [] }
    ensures minus_beside_none { Writes (Command.Intersect Shape.Cut on_one_strand None)
        (two_texts (codes "c\t0\t10\ta\t0\t-\n") (codes "c\t5\t8\n")) [] }
    ensures not_asked { Writes (Command.Intersect Shape.Cut (by_fraction 0 false) None)
        (two_texts (codes "c\t0\t10\ta\t0\t+\n") (codes "c\t5\t8\tb\t0\t-\n")) (codes "c\t5\t8\ta\t0\t+\n") }
    ensures left_by_the_other { Writes (Command.Subtract false on_one_strand None)
        (two_texts (codes "c\t0\t4\ta\t0\t+\n") (codes "c\t1\t2\tb\t0\t-\n")) (codes "c\t0\t4\ta\t0\t+\n") }
    ensures cut_by_its_own { Writes (Command.Subtract false on_one_strand None)
        (two_texts (codes "c\t0\t4\ta\t0\t+\n") (codes "c\t1\t2\tb\t0\t+\n")) (codes "c\t0\t1\ta\t0\t+\nc\t2\t4\ta\t0\t+\n") }
{}

/// Marks of segments (SAM specification, section 1.4, FLAG: 0x40 the first segment of the template, 0x80 the last one, 0x10
/// reversed, 0x4 unmapped), and what CIGARs cover (there, field 6).
#[tactic(auto, unfolding(bt_tool::specs::model::Report::report_of, bt_lines::specs::model::Lines::lines_from, bt_lines::specs::model::Lines::value_of, bt_bed::specs::model::Good::good_after, bt_bed::specs::model::Good::line_says, bt_bed::specs::model::BedLine::record_of, bt_seq::specs::model::Alignment::alignment_of, bt_seq::specs::model::Alignment::fields_say, bt_seq::specs::model::BedLines::blocks_of, bt_seq::specs::model::Cigar::operations_in))]
pub fn alignments()
    ensures neither { IsNamed (codes "0") (codes "r") (codes "+") }
    ensures first { IsNamed (codes "64") (codes "r/1") (codes "+") }
    ensures last { IsNamed (codes "128") (codes "r/2") (codes "+") }
    ensures both { IsNamed (codes "192") (codes "r/1/2") (codes "+") }
    ensures first_of_a_pair { IsNamed (codes "99") (codes "r/1") (codes "+") }
    ensures last_of_a_pair { IsNamed (codes "147") (codes "r/2") (codes "-") }
    ensures other_bits { IsNamed (codes "3883") (codes "r") (codes "+") }
    ensures reversed { IsNamed (codes "16") (codes "r") (codes "-") }
    ensures unmapped { Writes (Command.BamToBed false false) (one_text (sam_text (codes "4") (codes "2M"))) [] }
    ensures no_cigar { Writes (Command.BamToBed false false) (one_text (sam_text (codes "0") (codes "*"))) [] }
    ensures no_bases { Writes (Command.BamToBed false false) (one_text (sam_text (codes "0") (codes "5I3S"))) [] }
    ensures consumed { Writes (Command.BamToBed false true) (one_text (sam_text (codes "0") (codes "1H2S8M2I4M1D3N1P2=3X")))
        (codes "c\t0\t21\tr\t9\t+\t1H2S8M2I4M1D3N1P2=3X\n") }
    ensures cut { Writes (Command.BamToBed true false) (one_text (sam_text (codes "0") (codes "2M3N1I4M5N")))
        (codes "c\t0\t2\tr\t9\t+\nc\t5\t9\tr\t9\t+\n") }
    ensures whole { Writes (Command.BamToBed false false) (one_text (sam_text (codes "0") (codes "2M3N4M")))
        (codes "c\t0\t9\tr\t9\t+\n") }
    ensures header { Writes (Command.BamToBed false false) (one_text (codes "@HD\tVN:1.6\n\n")) [] }
    ensures no_reference { Writes (Command.BamToBed false false) (one_text (codes "r\t0\t*\t1\t9\t2M\t*\t0\t0\t*\t*\n")) [] }
    ensures no_position { Writes (Command.BamToBed false false) (one_text (codes "r\t0\tc\t0\t9\t2M\t*\t0\t0\t*\t*\n")) [] }
    ensures no_such_operation { StopsAtLine (Command.BamToBed false false) (one_text (sam_text (codes "0") (codes "5Q"))) [] Input.First 1 Kind.BadCigar }
    ensures no_letter { StopsAtLine (Command.BamToBed false false) (one_text (sam_text (codes "0") (codes "5"))) [] Input.First 1 Kind.BadCigar }
    ensures high_flag { StopsAtLine (Command.BamToBed false false) (one_text (sam_text (codes "65536") (codes "2M"))) [] Input.First 1 Kind.BadFlag }
    ensures ten_columns { StopsAtLine (Command.BamToBed false false) (one_text (codes "r\t0\tc\t1\t9\t2M\t*\t0\t0\t*\n")) [] Input.First 1 Kind.TooFewColumns }
    ensures empty_reference { StopsAtLine (Command.BamToBed false false) (one_text (codes "r\t0\t\t1\t9\t2M\t*\t0\t0\t*\t*\n")) [] Input.First 1 Kind.EmptyName }
    ensures high_position { StopsAtLine (Command.BamToBed false false) (one_text (codes "r\t0\tc\t2147483648\t9\t2M\t*\t0\t0\t*\t*\n")) [] Input.First 1 Kind.BadPosition }
    ensures high_quality { StopsAtLine (Command.BamToBed false false) (one_text (codes "r\t0\tc\t1\t256\t2M\t*\t0\t0\t*\t*\n")) [] Input.First 1 Kind.BadQuality }
    ensures far_end { StopsAtLine (Command.BamToBed false false) (one_text (codes "r\t0\tc\t2\t9\t999999999999M\t*\t0\t0\t*\t*\n")) [] Input.First 1 Kind.StopTooLarge }
{}

/// How far the second input is read, also if its next line is at fault: up to the first record at the end of all records of
/// the first or after it. If there is none, it is read up to the line at fault, or all of it.
#[tactic(auto, unfolding(bt_tool::specs::model::Report::report_of, bt_lines::specs::model::Lines::lines_from, bt_lines::specs::model::Lines::value_of, bt_bed::specs::model::Good::good_after, bt_bed::specs::model::Good::line_says, bt_bed::specs::model::BedLine::record_of, bt_sweep::specs::model::Lines::lines_for, bt_sweep::specs::model::Hits::is_hit, bt_sweep::specs::model::Hits::strands_agree, bt_sweep::specs::model::Hits::is_enough, bt_sweep::specs::model::Hits::has_fraction))]
pub fn reaches()
    ensures decided { Reaches (codes "c\t0\t10\n") (codes "c\t2\t4\nc\t50\t60\nc\t70\t80\n") 14 }
    ensures at_its_end { Reaches (codes "c\t0\t10\n") (codes "c\t2\t4\nc\t9\t60\nc\t10\t80\nc\t90\t91\n") 21 }
    ensures before_a_fault { Reaches (codes "c\t0\t10\n") (codes "c\t2\t4\nc\t50\t60\nc\tx\t9\n") 14 }
    ensures up_to_a_fault { Reaches (codes "c\t0\t10\nc\t70\t80\n") (codes "c\t2\t4\nc\t50\t60\nc\tx\t9\n") 20 }
    ensures fault_is_next { Reaches (codes "c\t0\t10\n") (codes "c\tx\t9\nc\t50\t60\n") 6 }
    ensures next_of_the_first_at_fault { Reaches (codes "c\t0\t10\nc\tx\t90\n") (codes "c\t50\t60\nc\t70\t80\n") 8 }
    ensures later_chromosome { Reaches (codes "c\t0\t10\n") (codes "d\t2\t4\nd\t50\t60\n") 6 }
    ensures comment_before { Reaches (codes "c\t0\t10\n") (codes "#x\nc\t50\t60\nc\t70\t80\n") 11 }
    ensures header_line { MaskReaches (codes ">s\n") (codes "s\t0\t1\ns\t2\t3\ns\tx\t4\n") 6 }
    ensures line_of_bases { MaskReaches (codes ">s\nACGT\n") (codes "s\t0\t1\ns\t2\t3\ns\t4\t5\ns\t6\t7\n") 18 }
    ensures fault_within { MaskReaches (codes ">s\nACGT\n") (codes "s\t0\t1\ns\t2\t3\ns\tx\t4\n") 18 }
    ensures fault_after { MaskReaches (codes ">s\nACGT\n") (codes "s\t0\t1\ns\t4\t5\ns\tx\t4\n") 12 }
    ensures other_sequence { MaskReaches (codes ">s\nACGT\n") (codes "s\t0\t1\nt\t0\t1\ns\tx\t4\n") 12 }
    ensures before_a_header { MaskReaches (codes "\n") (codes "s\tx\t1\n") 6 }
{}

/// Hits and their shapes (bedtools manual, intersect).
#[tactic(auto, unfolding(bt_tool::specs::model::Report::report_of, bt_lines::specs::model::Lines::lines_from, bt_lines::specs::model::Lines::value_of, bt_bed::specs::model::Good::good_after, bt_bed::specs::model::Good::line_says, bt_bed::specs::model::BedLine::record_of, bt_sweep::specs::model::Lines::lines_for, bt_sweep::specs::model::Hits::is_hit, bt_sweep::specs::model::Hits::strands_agree, bt_sweep::specs::model::Hits::is_enough, bt_sweep::specs::model::Hits::has_fraction, bt_bed::specs::model::Genome::entry_of))]
pub fn hits()
    ensures bookended { Writes (Command.Intersect Shape.Cut (by_fraction 0 false) None)
        (two_texts (codes "c\t10\t20\n") (codes "c\t20\t30\n")) [] }
    ensures bookended_missing { Writes (Command.Intersect Shape.Missing (by_fraction 0 false) None)
        (two_texts (codes "c\t10\t20\n") (codes "c\t20\t30\n")) (codes "c\t10\t20\n") }
    ensures half { Writes (Command.Intersect Shape.Cut (by_fraction 500000000 false) None)
        (two_texts (codes "c\t0\t10\n") (codes "c\t0\t5\n")) (codes "c\t0\t5\n") }
    ensures above_half { Writes (Command.Intersect Shape.Cut (by_fraction 500000001 false) None)
        (two_texts (codes "c\t0\t10\n") (codes "c\t0\t5\n")) [] }
    ensures half_of_both { Writes (Command.Intersect Shape.Cut (by_fraction 500000000 true) None)
        (two_texts (codes "c\t0\t10\n") (codes "c\t0\t5\n")) (codes "c\t0\t5\n") }
    ensures less_of_the_second { Writes (Command.Intersect Shape.Cut (by_fraction 500000000 true) None)
        (two_texts (codes "c\t0\t5\n") (codes "c\t0\t11\n")) [] }
    ensures all_pairs { Writes (Command.Intersect Shape.Cut (by_fraction 0 false) None)
        (two_texts (codes "c\t0\t100\nc\t50\t60\n") (codes "c\t10\t20\nc\t55\t58\nc\t90\t95\n"))
        (codes "c\t10\t20\nc\t55\t58\nc\t90\t95\nc\t55\t58\n") }
    ensures numbers { Writes (Command.Intersect Shape.Count (by_fraction 0 false) None)
        (two_texts (codes "c\t0\t100\nc\t50\t60\n") (codes "c\t10\t20\nc\t55\t58\nc\t90\t95\n"))
        (codes "c\t0\t100\t3\nc\t50\t60\t1\n") }
    ensures two_held { StopsAtLine (Command.Intersect Shape.Cut (by_fraction 0 false) (Some 2))
        (two_texts (codes "c\t0\t100\nc\t50\t60\n") (codes "c\t10\t20\nc\t55\t58\nc\t90\t95\n")) [] Input.Second 3 Kind.TooManyHeld }
    ensures three_held { Writes (Command.Intersect Shape.Count (by_fraction 0 false) (Some 3))
        (two_texts (codes "c\t0\t100\nc\t50\t60\n") (codes "c\t10\t20\nc\t55\t58\nc\t90\t95\n"))
        (codes "c\t0\t100\t3\nc\t50\t60\t1\n") }
    ensures original { Writes (Command.Intersect Shape.OrigA (by_fraction 0 false) None)
        (two_texts (codes "c\t10\t30\ta\n") (codes "c\t0\t15\tx\nc\t25\t40\ty\n")) (codes "c\t10\t30\ta\nc\t10\t30\ta\n") }
    ensures with_the_second { Writes (Command.Intersect Shape.CutAndB (by_fraction 0 false) None)
        (two_texts (codes "c\t10\t30\ta\n") (codes "c\t0\t15\tx\nc\t25\t40\ty\n"))
        (codes "c\t10\t15\ta\tc\t0\t15\tx\nc\t25\t30\ta\tc\t25\t40\ty\n") }
    ensures both_original { Writes (Command.Intersect Shape.OrigBoth (by_fraction 0 false) None)
        (two_texts (codes "c\t10\t30\ta\n") (codes "c\t0\t15\tx\n")) (codes "c\t10\t30\ta\tc\t0\t15\tx\n") }
    ensures overlap { Writes (Command.Intersect Shape.Overlap (by_fraction 0 false) None)
        (two_texts (codes "c\t10\t30\ta\n") (codes "c\t0\t15\tx\n")) (codes "c\t10\t30\ta\tc\t0\t15\tx\t5\n") }
    ensures once { Writes (Command.Intersect Shape.Once (by_fraction 0 false) None)
        (two_texts (codes "c\t10\t30\ta\nc\t50\t51\n") (codes "c\t0\t15\tx\nc\t25\t40\ty\n")) (codes "c\t10\t30\ta\n") }
    ensures whole_dropped { Writes (Command.Subtract true (by_fraction 0 false) None)
        (two_texts (codes "c\t10\t30\ta\nc\t50\t51\n") (codes "c\t0\t15\tx\n")) (codes "c\t50\t51\n") }
    ensures zeros_before { Writes (Command.Intersect Shape.OrigA (by_fraction 0 false) None)
        (two_texts (codes "track x\n#y\nbrowser\tz\n\nc\t007\t9\n") (codes "c\t0\t15\r\n")) (codes "c\t7\t9\n") }
    ensures second_at_fault { StopsAtLine (Command.Intersect Shape.Cut (by_fraction 0 false) None)
        (two_texts (codes "c\t0\t10\nc\t100\t110\n") (codes "c\t2\t4\nc\t50\t60\nc\tx\t9\n"))
        (codes "c\t2\t4\n") Input.Second 3 Kind.BadStart }
    ensures rest_of_the_second { StopsAtLine (Command.Intersect Shape.Cut (by_fraction 0 false) None)
        (two_texts [] (codes "c\t2\t4\nc\t50\t60\nc\t9\tx\n")) [] Input.Second 3 Kind.BadStop }
    ensures first_at_fault { StopsAtLine (Command.Intersect Shape.Cut (by_fraction 0 false) None)
        (two_texts (codes "c\t0\t10\nc\tx\t5\n") (codes "c\t2\t4\nc\t50\t60\nc\ty\t9\n"))
        (codes "c\t2\t4\n") Input.First 2 Kind.BadStart }
    ensures returns_to_a_chromosome { StopsAtLine (Command.Intersect Shape.Cut (by_fraction 0 false) None)
        (two_texts (codes "c\t0\t10\n") (codes "c\t2\t4\nd\t0\t5\nc\t50\t60\n")) (codes "c\t2\t4\n") Input.Second 3 Kind.OutOfOrder }
    ensures no_bases { StopsAtLine (Command.Intersect Shape.Cut (by_fraction 0 false) None)
        (two_texts (codes "c\t5\t5\n") []) [] Input.First 1 Kind.EmptyFeature }
    ensures two_columns { StopsAtLine (Command.Intersect Shape.Cut (by_fraction 0 false) None)
        (two_texts (codes "c\t5\n") []) [] Input.First 1 Kind.TooFewColumns }
    ensures empty_name { StopsAtLine (Command.Intersect Shape.Cut (by_fraction 0 false) None)
        (two_texts (codes "\t5\t6\n") []) [] Input.First 1 Kind.EmptyName }
    ensures high_start { StopsAtLine (Command.Intersect Shape.Cut (by_fraction 0 false) None)
        (two_texts (codes "c\t1000000000000\t1000000000001\n") []) [] Input.First 1 Kind.BadStart }
{}

/// What is left of records (bedtools manual, subtract).
pub fn pieces()
    ensures pieces { Writes (Command.Subtract false (by_fraction 0 false) None)
        (two_texts (codes "c\t0\t10\tn\t5\t+\n") (codes "c\t1\t2\nc\t1\t3\nc\t9\t20\n")) (codes "c\t0\t1\tn\t5\t+\nc\t3\t9\tn\t5\t+\n") }
    ensures nothing { Writes (Command.Subtract false (by_fraction 0 false) None)
        (two_texts (codes "c\t0\t10\n") (codes "c\t0\t10\n")) [] }
    ensures other_chromosome { Writes (Command.Subtract false (by_fraction 0 false) None)
        (two_texts (codes "c\t2\t4\n") (codes "d\t0\t10\n")) (codes "c\t2\t4\n") }
    ensures too_little { Writes (Command.Subtract false (by_fraction 500000000 false) None)
        (two_texts (codes "c\t2\t5\n") (codes "c\t0\t3\n")) (codes "c\t2\t5\n") }
{}

/// Runs (bedtools manual, merge, options -d, -s and -S).
#[tactic(auto, unfolding(bt_tool::specs::model::Report::report_of, bt_lines::specs::model::Lines::lines_from, bt_lines::specs::model::Lines::value_of, bt_bed::specs::model::Good::good_after, bt_bed::specs::model::Good::line_says, bt_bed::specs::model::BedLine::record_of, bt_bed::specs::calls::Stretches::stretches_from, bt_bed::specs::calls::Stretches::with_position, bt_runs::specs::model::Merged::is_bridged, bt_runs::specs::model::Merged::runs_of, bt_runs::specs::model::Merged::merged, bt_runs::specs::model::Merged::ordered_runs, bt_runs::specs::model::Merged::strand_runs, bt_runs::specs::model::Merged::settled_strand_runs, bt_bed::specs::model::Genome::entry_of))]
pub fn merges()
    ensures touching { Writes (Command.Merge 0 MergeStrand.All) (one_text (codes "c\t1\t3\nc\t2\t4\nc\t4\t6\nc\t7\t9\n")) (codes "c\t1\t6\nc\t7\t9\n") }
    ensures across_a_gap { Writes (Command.Merge 1 MergeStrand.All) (one_text (codes "c\t1\t3\nc\t4\t6\nc\t8\t9\n")) (codes "c\t1\t6\nc\t8\t9\n") }
    ensures each_strand { Writes (Command.Merge 0 MergeStrand.Each)
        (one_text (codes "c\t0\t5\ta\t0\t+\nc\t1\t2\tb\t0\t-\nc\t3\t6\tc\t0\t+\nc\t4\t5\td\t0\t-\n")) (codes "c\t0\t6\nc\t1\t2\nc\t4\t5\n") }
    ensures one_strand { Writes (Command.Merge 0 (MergeStrand.One Strand.Minus))
        (one_text (codes "c\t0\t5\ta\t0\t+\nc\t1\t2\tb\t0\t-\nc\t3\t6\tc\t0\t+\nc\t4\t5\td\t0\t-\n")) (codes "c\t1\t2\nc\t4\t5\n") }
    ensures without_strands { Writes (Command.Merge 0 MergeStrand.Each)
        (one_text (codes "c\t0\t3\nc\t1\t2\tb\t0\t-\nc\t2\t4\tc\t0\t.\n")) (codes "c\t0\t4\nc\t1\t2\n") }
    ensures by_name { Writes (Command.Merge 0 MergeStrand.All) (one_text (codes "c\t1\t2\nca\t0\t1\nd\t0\t1\n")) (codes "c\t1\t2\nca\t0\t1\nd\t0\t1\n") }
    ensures by_rank { Writes (Command.Merge 0 MergeStrand.All)
        (with_genome (codes "d\t9\nc\t9\n") (codes "d\t1\t2\nc\t0\t1\n")) (codes "d\t1\t2\nc\t0\t1\n") }
    ensures out_of_order { StopsAtLine (Command.Merge 0 MergeStrand.All) (one_text (codes "c\t0\t3\nc\t6\t8\nc\t1\t2\n")) (codes "c\t0\t3\n") Input.First 3 Kind.OutOfOrder }
    ensures not_settled { StopsAtLine (Command.Merge 1 MergeStrand.All) (one_text (codes "c\t0\t3\nc\t4\t5\nc\tx\n")) [] Input.First 3 Kind.TooFewColumns }
    ensures settled_strands { StopsAtLine (Command.Merge 0 MergeStrand.Each)
        (one_text (codes "c\t0\t2\ta\t0\t+\nc\t0\t5\tb\t0\t-\nc\t3\t4\tc\t0\t+\nc\tx\n")) (codes "c\t0\t2\n") Input.First 4 Kind.TooFewColumns }
    ensures unknown { StopsAtLine (Command.Merge 0 MergeStrand.All) (with_genome (codes "c\t9\n") (codes "d\t1\t2\n")) [] Input.First 1 Kind.UnknownChrom }
    ensures no_length { StopsAtLine (Command.Merge 0 MergeStrand.All) (with_genome (codes "#x\n\nc\t0\n") []) [] Input.Genome 3 Kind.BadLength }
    ensures one_column { StopsAtLine (Command.Merge 0 MergeStrand.All) (with_genome (codes "c\n") []) [] Input.Genome 1 Kind.TooFewColumns }
    ensures no_name { StopsAtLine (Command.Merge 0 MergeStrand.All) (with_genome (codes "\t9\n") []) [] Input.Genome 1 Kind.EmptyName }
    ensures repeated { StopsAtLine (Command.Merge 0 MergeStrand.All) (with_genome (codes "c\t9\nc\t8\n") []) [] Input.Genome 2 Kind.RepeatedChrom }
    ensures an_index { Writes (Command.Merge 0 MergeStrand.All) (with_genome (codes "c\t9\t52\t60\t61\n") (codes "c\t1\t2\n")) (codes "c\t1\t2\n") }
{}

/// Gaps (bedtools manual, complement, option -L).
pub fn gaps()
    ensures gaps { Writes (Command.Complement false) (with_genome (codes "c\t10\nd\t5\n") (codes "c\t0\t2\nc\t8\t12\n")) (codes "c\t2\t8\nd\t0\t5\n") }
    ensures with_records { Writes (Command.Complement true) (with_genome (codes "c\t10\nd\t5\n") (codes "c\t0\t2\nc\t8\t12\n")) (codes "c\t2\t8\n") }
    ensures empty { Writes (Command.Complement false) (with_genome (codes "d\t5\nc\t3\n") []) (codes "d\t0\t5\nc\t0\t3\n") }
    ensures settled { StopsAtLine (Command.Complement false) (with_genome (codes "b\t2\nc\t10\n") (codes "c\t1\t2\nc\t5\t6\nc\tx\n")) (codes "b\t0\t2\nc\t0\t1\nc\t2\t5\n") Input.First 3 Kind.TooFewColumns }
{}

/// Depths (bedtools manual, genomecov, options -bg, -bga and -strand).
pub fn depths()
    ensures one_stretch { Writes (Command.Coverage false None) (with_genome (codes "c\t9\n") (codes "c\t0\t4\nc\t4\t8\n")) (codes "c\t0\t8\t1\n") }
    ensures two_deep { Writes (Command.Coverage false None) (with_genome (codes "c\t9\n") (codes "c\t0\t4\nc\t2\t4\nc\t4\t6\n"))
        (codes "c\t0\t2\t1\nc\t2\t4\t2\nc\t4\t6\t1\n") }
    ensures one_strand { Writes (Command.Coverage false (Some Strand.Minus)) (with_genome (codes "c\t9\n") (codes "c\t0\t4\ta\t0\t+\nc\t2\t6\tb\t0\t-\n")) (codes "c\t2\t6\t1\n") }
    ensures zeros { Writes (Command.Coverage true None) (with_genome (codes "c\t4\nd\t5\n") (codes "d\t3\t9\n")) (codes "c\t0\t4\t0\nd\t0\t3\t0\nd\t3\t5\t1\n") }
    ensures settled { StopsAtLine (Command.Coverage false None) (with_genome (codes "c\t9\n") (codes "c\t0\t2\nc\t2\t3\nc\t4\t6\nc\tx\n")) (codes "c\t0\t3\t1\n") Input.First 4 Kind.TooFewColumns }
    ensures not_settled { StopsAtLine (Command.Coverage false None) (with_genome (codes "c\t9\n") (codes "c\t0\t2\nc\t2\t3\nc\tx\n")) [] Input.First 3 Kind.TooFewColumns }
{}

/// Masked sequences (bedtools manual, maskfasta, options -soft, -mc and -fullHeader).
#[tactic(auto, unfolding(bt_tool::specs::model::Report::report_of, bt_lines::specs::model::Lines::lines_from, bt_lines::specs::model::Lines::value_of, bt_bed::specs::model::Good::good_after, bt_bed::specs::model::Good::line_says, bt_bed::specs::model::BedLine::record_of))]
pub fn masks()
    ensures over_two_lines { Writes (Command.MaskFasta (MaskHow.Hard 78) false) (two_texts (codes ">s d\nACGTAC\nGTAC") (codes "s\t4\t8\n")) (codes ">s d\nACGTNN\nNNAC") }
    ensures lower_case { Writes (Command.MaskFasta MaskHow.Soft false) (two_texts (codes ">s d\nACGTAC\nGTAC") (codes "s\t4\t8\n")) (codes ">s d\nACGTac\ngtAC") }
    ensures a_character { Writes (Command.MaskFasta (MaskHow.Hard 120) false) (two_texts (codes ">s d\nACGTAC\nGTAC") (codes "s\t4\t8\n")) (codes ">s d\nACGTxx\nxxAC") }
    ensures whole_header { Writes (Command.MaskFasta (MaskHow.Hard 78) true) (two_texts (codes ">s d\nACGT\n") (codes "s d\t0\t1\n")) (codes ">s d\nNCGT\n") }
    ensures not_letters { Writes (Command.MaskFasta MaskHow.Soft false) (two_texts (codes ">s\nA-[c\n") (codes "s\t0\t4\n")) (codes ">s\na-[c\n") }
    ensures past_the_end { Writes (Command.MaskFasta (MaskHow.Hard 78) false) (two_texts (codes ">s\nACGT\n") (codes "s\t2\t20\n")) (codes ">s\nACNN\n") }
    ensures blocks { Writes (Command.MaskFasta (MaskHow.Hard 78) false)
        (two_texts (codes ">s\nAAAA\n>t\nCCCC\n>s\nGGGG\n") (codes "s\t0\t1\nt\t0\t1\ns\t0\t1\n")) (codes ">s\nNAAA\n>t\nNCCC\n>s\nNGGG\n") }
    ensures second_of_a_name { Writes (Command.MaskFasta (MaskHow.Hard 78) false)
        (two_texts (codes ">s\nAAAA\n>t\nCCCC\n>s\nGGGG\n") (codes "t\t0\t1\ns\t0\t1\n")) (codes ">s\nAAAA\n>t\nNCCC\n>s\nNGGG\n") }
    ensures ends_of_lines { Writes (Command.MaskFasta (MaskHow.Hard 78) false) (two_texts (codes "\r\n>s\r\nAC\r\n\nGT\r") (codes "s\t1\t3\n")) (codes "\r\n>s\r\nAN\r\n\nNT\r") }
    ensures no_sequence { StopsAtLine (Command.MaskFasta (MaskHow.Hard 78) false) (two_texts (codes ">s\nACGT\n") (codes "t\t0\t2\n")) (codes ">s\nACGT\n") Input.Second 1 Kind.NoSequence }
    ensures no_sequence_first { StopsAtLine (Command.MaskFasta (MaskHow.Hard 78) false) (two_texts (codes ">s\nAC\n") (codes "t\t0\t2\nt\tx\t5\n")) (codes ">s\nAC\n") Input.Second 1 Kind.NoSequence }
    ensures before_a_header { StopsAtLine (Command.MaskFasta (MaskHow.Hard 78) false) (two_texts (codes "ACGT\n>s\n") []) [] Input.First 1 Kind.TextBeforeHeader }
    ensures out_of_order { StopsAtLine (Command.MaskFasta (MaskHow.Hard 78) false) (two_texts (codes ">s\nAAAA\n") (codes "s\t3\t4\ns\t1\t2\n")) (codes ">s\n") Input.Second 2 Kind.OutOfOrder }
{}

/// The words of each fault, and of the line that tells it.
pub fn texts()
    ensures too_few_columns { text_of Kind.TooFewColumns ≡ codes "too few columns" }
    ensures empty_name { text_of Kind.EmptyName ≡ codes "empty chromosome name" }
    ensures bad_start { text_of Kind.BadStart ≡ codes "start is not a number" }
    ensures bad_stop { text_of Kind.BadStop ≡ codes "end is not a number" }
    ensures empty_feature { text_of Kind.EmptyFeature ≡ codes "start is not below end" }
    ensures unknown_chrom { text_of Kind.UnknownChrom ≡ codes "chromosome is not in the genome file" }
    ensures out_of_order { text_of Kind.OutOfOrder ≡ codes "record is out of order" }
    ensures bad_length { text_of Kind.BadLength ≡ codes "length is not a number" }
    ensures repeated_chrom { text_of Kind.RepeatedChrom ≡ codes "chromosome is repeated" }
    ensures bad_flag { text_of Kind.BadFlag ≡ codes "flag is not a number" }
    ensures bad_position { text_of Kind.BadPosition ≡ codes "position is not a number" }
    ensures bad_quality { text_of Kind.BadQuality ≡ codes "mapping quality is not a number" }
    ensures bad_cigar { text_of Kind.BadCigar ≡ codes "CIGAR is malformed" }
    ensures stop_too_large { text_of Kind.StopTooLarge ≡ codes "end is too large" }
    ensures text_before_header { text_of Kind.TextBeforeHeader ≡ codes "text before the first header" }
    ensures no_sequence { text_of Kind.NoSequence ≡ codes "no such sequence from here on" }
    ensures too_many_held { text_of Kind.TooManyHeld ≡ codes "too many open records" }
    ensures read_failed { text_of Kind.ReadFailed ≡ codes "reading failed" }
    ensures write_failed { text_of Kind.WriteFailed ≡ codes "writing failed" }
    ensures no_memory { text_of Kind.NoMemory ≡ codes "no memory" }
{}

/// Command lines that can't be used.
#[tactic(auto, unfolding(bt_lines::specs::model::Lines::value_of, bt_tool::specs::model::Report::report, bt_tool::specs::model::Options::options, bt_tool::specs::model::Options::word_fault, bt_tool::specs::model::Usage::items_of, bt_tool::specs::model::Fraction::fraction_in))]
pub fn usage()
    ensures no_command { AreRefused ([]) (codes "bedtools: no or unknown command\n") }
    ensures unknown_command { AreRefused (codes "sort" ∷ []) (codes "bedtools: no or unknown command\n") }
    ensures unknown_option { AreRefused (codes "merge" ∷ codes "-q" ∷ []) (codes "bedtools: unknown option: -q\n") }
    ensures missing { AreRefused (codes "merge" ∷ codes "-d" ∷ []) (codes "bedtools: value missing: -d\n") }
    ensures bad { AreRefused (codes "merge" ∷ codes "-d" ∷ codes "x" ∷ []) (codes "bedtools: bad value: -d\n") }
    ensures required { AreRefused (codes "complement" ∷ []) (codes "bedtools: required option missing\n") }
    ensures one_of_two { AreRefused (codes "genomecov" ∷ codes "-g" ∷ codes "g" ∷ []) (codes "bedtools: required option missing\n") }
    ensures exclusive { AreRefused (codes "merge" ∷ codes "-g" ∷ codes "g" ∷ codes "-s" ∷ codes "-S" ∷ codes "+" ∷ []) (codes "bedtools: options exclude one another\n") }
    ensures two_shapes { AreRefused (codes "intersect" ∷ codes "-a" ∷ codes "x" ∷ codes "-b" ∷ codes "y" ∷ codes "-u" ∷ codes "-c" ∷ []) (codes "bedtools: options exclude one another\n") }
    ensures overwritten { AreRefused (codes "maskfasta" ∷ codes "-fi" ∷ codes "a" ∷ codes "-bed" ∷ codes "b" ∷ codes "-fo" ∷ codes "b" ∷ []) (codes "bedtools: options exclude one another\n") }
    ensures twice { AreRefused (codes "intersect" ∷ codes "-a" ∷ codes "-" ∷ codes "-b" ∷ codes "stdin" ∷ []) (codes "bedtools: standard input named twice\n") }
    ensures missing_first { AreRefused (codes "merge" ∷ codes "-g" ∷ codes "-" ∷ []) (codes "bedtools: standard input named twice\n") }
    ensures high_fraction { AreRefused (codes "intersect" ∷ codes "-a" ∷ codes "x" ∷ codes "-b" ∷ codes "y" ∷ codes "-f" ∷ codes "1.5" ∷ []) (codes "bedtools: bad value: -f\n") }
    ensures long_fraction { AreRefused (codes "subtract" ∷ codes "-a" ∷ codes "x" ∷ codes "-b" ∷ codes "y" ∷ codes "-f" ∷ codes "0.5000000000" ∷ []) (codes "bedtools: bad value: -f\n") }
    ensures least_long_fraction { AreRefused (codes "subtract" ∷ codes "-a" ∷ codes "x" ∷ codes "-b" ∷ codes "y" ∷ codes "-f" ∷ codes "0.0000000005" ∷ []) (codes "bedtools: bad value: -f\n") }
    ensures two_characters { AreRefused (codes "maskfasta" ∷ codes "-fi" ∷ codes "a" ∷ codes "-bed" ∷ codes "b" ∷ codes "-mc" ∷ codes "xy" ∷ []) (codes "bedtools: bad value: -mc\n") }
    ensures no_character { AreRefused (codes "maskfasta" ∷ codes "-fi" ∷ codes "a" ∷ codes "-bed" ∷ codes "b" ∷ codes "-mc" ∷ codes " " ∷ []) (codes "bedtools: bad value: -mc\n") }
    ensures soft_character { AreRefused (codes "maskfasta" ∷ codes "-fi" ∷ codes "a" ∷ codes "-bed" ∷ codes "b" ∷ codes "-soft" ∷ codes "-mc" ∷ codes "x" ∷ []) (codes "bedtools: options exclude one another\n") }
    ensures missing_before_exclusive { AreRefused (codes "intersect" ∷ codes "-a" ∷ codes "x" ∷ codes "-u" ∷ codes "-c" ∷ []) (codes "bedtools: required option missing\n") }
    ensures exclusive_before_twice { AreRefused (codes "intersect" ∷ codes "-a" ∷ codes "-" ∷ codes "-b" ∷ codes "-" ∷ codes "-u" ∷ codes "-c" ∷ []) (codes "bedtools: options exclude one another\n") }
    ensures no_strand { AreRefused (codes "genomecov" ∷ codes "-bg" ∷ codes "-g" ∷ codes "g" ∷ codes "-strand" ∷ codes "." ∷ []) (codes "bedtools: bad value: -strand\n") }
{}

/// Options of intersect that exclude one another.
#[tactic(auto, unfolding(bt_lines::specs::model::Lines::value_of, bt_tool::specs::model::Report::report, bt_tool::specs::model::Options::options, bt_tool::specs::model::Options::word_fault, bt_tool::specs::model::Usage::items_of))]
pub fn exclusive_options()
    ensures wa_wo { Exclude (codes "-wa") (codes "-wo") }
    ensures wb_wo { Exclude (codes "-wb") (codes "-wo") }
    ensures wb_u { Exclude (codes "-wb") (codes "-u") }
    ensures wb_v { Exclude (codes "-wb") (codes "-v") }
    ensures wb_c { Exclude (codes "-wb") (codes "-c") }
    ensures wo_u { Exclude (codes "-wo") (codes "-u") }
    ensures wo_v { Exclude (codes "-wo") (codes "-v") }
    ensures wo_c { Exclude (codes "-wo") (codes "-c") }
    ensures u_v { Exclude (codes "-u") (codes "-v") }
    ensures u_c { Exclude (codes "-u") (codes "-c") }
    ensures v_c { Exclude (codes "-v") (codes "-c") }
{}

/// Command lines with their inputs: standard output, standard error and the status.
pub fn runs()
    ensures without_a_fault { Shows (codes "merge" ∷ codes "-d" ∷ codes "5" ∷ codes "-d" ∷ codes "0" ∷ []) [] (codes "c\t1\t2\nc\t3\t4\n") [] (codes "c\t1\t2\nc\t3\t4\n") None 0 }
    ensures of_the_first { Shows (codes "merge" ∷ codes "-i" ∷ codes "a.bed" ∷ []) [] (codes "c\t0\t3\nc\t6\t8\nc\t1\t2\n") []
        (codes "c\t0\t3\n") (Some (codes "bedtools merge: a.bed:3: record is out of order\n")) 1 }
    ensures of_standard_input { Shows (codes "merge" ∷ []) [] (codes "c\t0\t3\nc\t6\t8\nc\t1\t2\n") []
        (codes "c\t0\t3\n") (Some (codes "bedtools merge: stdin:3: record is out of order\n")) 1 }
    ensures of_the_genome_file { Shows (codes "merge" ∷ codes "-g" ∷ codes "g.txt" ∷ []) (codes "c\t9\nc\t8\n") (codes "c\t0\t3\n") []
        [] (Some (codes "bedtools merge: g.txt:2: chromosome is repeated\n")) 1 }
    ensures of_the_second { Shows (codes "intersect" ∷ codes "-a" ∷ codes "a.bed" ∷ codes "-b" ∷ codes "b.bed" ∷ codes "-wa" ∷ codes "-sorted" ∷ []) [] (codes "c\t0\t10\nc\t100\t110\n") (codes "c\t2\t4\nc\t50\t60\nc\tx\t9\n")
        (codes "c\t0\t10\n") (Some (codes "bedtools intersect: b.bed:3: start is not a number\n")) 1 }
{}

/// What options mean, by what they make a command write (bedtools manual, intersect and maskfasta).
#[tactic(auto, unfolding(bt_tool::specs::model::Report::report_of, bt_lines::specs::model::Lines::lines_from, bt_lines::specs::model::Lines::value_of, bt_bed::specs::model::Good::good_after, bt_bed::specs::model::Good::line_says, bt_bed::specs::model::BedLine::record_of, bt_bed::specs::calls::Stretches::stretches_from, bt_bed::specs::calls::Stretches::with_position, bt_runs::specs::model::Merged::is_bridged, bt_runs::specs::model::Merged::runs_of, bt_runs::specs::model::Merged::merged, bt_runs::specs::model::Merged::ordered_runs, bt_runs::specs::model::Merged::strand_runs, bt_runs::specs::model::Merged::settled_strand_runs, bt_bed::specs::model::Genome::entry_of, bt_sweep::specs::model::Lines::lines_for, bt_sweep::specs::model::Hits::is_hit, bt_sweep::specs::model::Hits::strands_agree, bt_sweep::specs::model::Hits::is_enough, bt_sweep::specs::model::Hits::has_fraction, bt_tool::specs::model::Report::report, bt_tool::specs::model::Options::options, bt_tool::specs::model::Options::word_fault, bt_tool::specs::model::Usage::items_of, bt_tool::specs::model::Fraction::fraction_in))]
pub fn meanings()
    ensures once { Shows (codes "intersect" ∷ codes "-a" ∷ codes "a" ∷ codes "-b" ∷ codes "b" ∷ codes "-u" ∷ []) [] (codes "c\t0\t9\nc\t20\t30\n") (codes "c\t2\t4\nc\t5\t6\n")
        (codes "c\t0\t9\n") None 0 }
    ensures missing { Shows (codes "intersect" ∷ codes "-a" ∷ codes "a" ∷ codes "-b" ∷ codes "b" ∷ codes "-v" ∷ []) [] (codes "c\t0\t9\nc\t20\t30\n") (codes "c\t2\t4\nc\t5\t6\n")
        (codes "c\t20\t30\n") None 0 }
    ensures count { Shows (codes "intersect" ∷ codes "-a" ∷ codes "a" ∷ codes "-b" ∷ codes "b" ∷ codes "-c" ∷ []) [] (codes "c\t0\t9\nc\t20\t30\n") (codes "c\t2\t4\nc\t5\t6\n")
        (codes "c\t0\t9\t2\nc\t20\t30\t0\n") None 0 }
    ensures overlap { Shows (codes "intersect" ∷ codes "-a" ∷ codes "a" ∷ codes "-b" ∷ codes "b" ∷ codes "-wo" ∷ []) [] (codes "c\t0\t9\nc\t20\t30\n") (codes "c\t2\t4\nc\t5\t6\n")
        (codes "c\t0\t9\tc\t2\t4\t2\nc\t0\t9\tc\t5\t6\t1\n") None 0 }
    ensures with_the_second { Shows (codes "intersect" ∷ codes "-a" ∷ codes "a" ∷ codes "-b" ∷ codes "b" ∷ codes "-wb" ∷ []) [] (codes "c\t0\t9\nc\t20\t30\n") (codes "c\t2\t4\nc\t5\t6\n")
        (codes "c\t2\t4\tc\t2\t4\nc\t5\t6\tc\t5\t6\n") None 0 }
    ensures both_original { Shows (codes "intersect" ∷ codes "-a" ∷ codes "a" ∷ codes "-b" ∷ codes "b" ∷ codes "-wa" ∷ codes "-wb" ∷ []) [] (codes "c\t0\t9\nc\t20\t30\n") (codes "c\t2\t4\nc\t5\t6\n")
        (codes "c\t0\t9\tc\t2\t4\nc\t0\t9\tc\t5\t6\n") None 0 }
    ensures soft { Shows (codes "maskfasta" ∷ codes "-fi" ∷ codes "a" ∷ codes "-bed" ∷ codes "b" ∷ codes "-soft" ∷ []) [] (codes ">s\nACGT\n") (codes "s\t1\t3\n")
        (codes ">s\nAcgT\n") None 0 }
    ensures a_character { Shows (codes "maskfasta" ∷ codes "-fi" ∷ codes "a" ∷ codes "-bed" ∷ codes "b" ∷ codes "-mc" ∷ codes "x" ∷ []) [] (codes ">s\nACGT\n") (codes "s\t1\t3\n")
        (codes ">s\nAxxT\n") None 0 }
    ensures neither { Shows (codes "maskfasta" ∷ codes "-fi" ∷ codes "a" ∷ codes "-bed" ∷ codes "b" ∷ []) [] (codes ">s\nACGT\n") (codes "s\t1\t3\n")
        (codes ">s\nANNT\n") None 0 }
    ensures whole_header { Shows (codes "maskfasta" ∷ codes "-fi" ∷ codes "a" ∷ codes "-bed" ∷ codes "b" ∷ codes "-fullHeader" ∷ []) [] (codes ">s d\nACGT\n") (codes "s d\t1\t3\n")
        (codes ">s d\nANNT\n") None 0 }
    ensures standard_output { Shows (codes "maskfasta" ∷ codes "-fi" ∷ codes "a" ∷ codes "-bed" ∷ codes "b" ∷ codes "-fo" ∷ codes "stdout" ∷ codes "-fi" ∷ codes "stdout" ∷ []) [] (codes ">s\nACGT\n") (codes "s\t1\t3\n")
        (codes ">s\nANNT\n") None 0 }
    ensures once_original { Shows (codes "intersect" ∷ codes "-a" ∷ codes "a" ∷ codes "-b" ∷ codes "b" ∷ codes "-wa" ∷ codes "-u" ∷ []) [] (codes "c\t0\t9\nc\t20\t30\n") (codes "c\t2\t4\nc\t5\t6\n")
        (codes "c\t0\t9\n") None 0 }
    ensures one_held { Shows (codes "intersect" ∷ codes "-a" ∷ codes "a" ∷ codes "-b" ∷ codes "b" ∷ codes "-held" ∷ codes "1" ∷ []) [] (codes "c\t0\t9\nc\t20\t30\n") (codes "c\t2\t4\nc\t5\t6\n")
        [] (Some (codes "bedtools intersect: b:2: too many open records\n")) 1 }
{}

/// Texts of which reading failed: a piece that was cut off is no line.
#[tactic(auto, unfolding(bt_lines::specs::model::Lines::whole_lines_from, bt_tool::specs::model::Report::report_of, bt_lines::specs::model::Lines::lines_from, bt_lines::specs::model::Lines::value_of, bt_bed::specs::model::Good::good_after, bt_bed::specs::model::Good::line_says, bt_bed::specs::model::BedLine::record_of, bt_bed::specs::calls::Stretches::stretches_from, bt_bed::specs::calls::Stretches::with_position, bt_runs::specs::model::Merged::is_bridged, bt_runs::specs::model::Merged::runs_of, bt_runs::specs::model::Merged::merged, bt_runs::specs::model::Merged::ordered_runs, bt_runs::specs::model::Merged::strand_runs, bt_runs::specs::model::Merged::settled_strand_runs, bt_bed::specs::model::Genome::entry_of))]
pub fn cut_texts()
    ensures after_three_lines { CutTo (Command.Merge 0 MergeStrand.All) (codes "c\t1\t3\nc\t2\t4\nc\t4\t6\n") [] 4 }
    ensures within_a_line { CutTo (Command.Merge 0 MergeStrand.All) (codes "c\t0\t3\nc\t6\t8\nc\t9\t12") (codes "c\t0\t3\n") 3 }
    ensures at_once { CutTo (Command.Merge 0 MergeStrand.All) [] [] 1 }
    ensures genome_file { CutGenomeTo (Command.Merge 0 MergeStrand.All) (codes "c\t9\nd\t9") 2 }
{}

/// Numbers of at most twelve digits.
#[tactic(auto, unfolding(bt_lines::specs::model::Lines::value_of))]
pub fn numbers()
    ensures zeros_before { value_of (codes "0000000000000000000000012") ≡ Some 12 }
    ensures greatest { value_of (codes "999999999999") ≡ Some 999999999999 }
    ensures above { value_of (codes "1000000000000") ≡ None }
    ensures none { value_of [] ≡ None }
    ensures no_digit { value_of (codes "1x") ≡ None }
    ensures sign { value_of (codes "-1") ≡ None }
{}
