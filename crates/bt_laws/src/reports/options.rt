//! Laws of command lines, and the results of some.

ghost use Rattle.std.specs.Prelude.{◌≡◌, true, false, Ok, Err, Some, None, [], ◌∷◌, codes};
ghost use Rattle.bt_tool.specs.model.Fraction.{fraction_of};
ghost use Rattle.bt_laws.specs.Reports.{AnswerIsUnique, LongestDivisionIsUnique, FaultIsOfWhatIsLeft, LastItemCounts, FaultsCanBeTold};
ghost use Rattle.bt_tool.specs.model.Options.{options};
ghost use Rattle.bt_tool.specs.model.Usage.{no_command, unknown_option, value_missing, bad_value, required_missing, input_named_twice};

use bt_bed::Strand;
use bt_runs::MergeStrand;
use bt_sweep::Shape;
use bt_tool::Command;

/// How the words after a command are divided into items.
pub fn division()
    ensures unique { LongestDivisionIsUnique }
    ensures answer { AnswerIsUnique }
    ensures left { FaultIsOfWhatIsLeft }
    ensures last { LastItemCounts }
    ensures told { FaultsCanBeTold }
{}

/// Some command lines, and what they mean.
#[tactic(auto, unfolding(bt_tool::specs::model::Usage::items_of, bt_tool::specs::model::Options::word_fault, bt_tool::specs::model::Options::options, bt_tool::specs::model::Fraction::fraction_in, bt_lines::specs::model::Lines::value_of))]
pub fn worked_cases()
    ensures no_words { options [] ≡ Err no_command }
    ensures no_such_command { options (codes "mend" ∷ codes "-g" ∷ codes "g" ∷ [])
        ≡ Err no_command }
    ensures unknown { options (codes "merge" ∷ codes "-q" ∷ []) ≡ Err (unknown_option 1) }
    ensures missing { options (codes "merge" ∷ codes "-g" ∷ []) ≡ Err (value_missing 1) }
    ensures bad { options (codes "merge" ∷ codes "-g" ∷ [] ∷ []) ≡ Err (bad_value 1) }
    ensures required { options (codes "complement" ∷ []) ≡ Err required_missing }
    ensures no_genome { options (codes "merge" ∷ [])
        ≡ Ok (record {
          command = Command.Merge 0 MergeStrand.All;
          names = record { genome = None; first = codes "stdin"; second = None; output = None };
        }) }
    ensures one_input { options (codes "intersect" ∷ codes "-a" ∷ codes "x" ∷ []) ≡ Err required_missing }
    ensures twice { options (codes "merge" ∷ codes "-g" ∷ codes "-" ∷ [])
        ≡ Err input_named_twice }
    ensures standard_input { options (codes "merge" ∷ codes "-g" ∷ codes "g" ∷ [])
        ≡ Ok (record {
          command = Command.Merge 0 MergeStrand.All;
          names = record { genome = Some (codes "g"); first = codes "stdin"; second = None; output = None };
        }) }
    ensures genome_from_standard_input { options (codes "merge" ∷ codes "-g" ∷ codes "-"
        ∷ codes "-i" ∷ codes "a.bed" ∷ []) ≡ Ok (record {
          command = Command.Merge 0 MergeStrand.All;
          names = record { genome = Some (codes "-"); first = codes "a.bed"; second = None; output = None };
        }) }
    ensures last_value { options (codes "merge" ∷ codes "-g" ∷ codes "a"
        ∷ codes "-g" ∷ codes "b" ∷ []) ≡ Ok (record {
          command = Command.Merge 0 MergeStrand.All;
          names = record { genome = Some (codes "b"); first = codes "stdin"; second = None; output = None };
        }) }
    ensures gap_without_a_number { options (codes "merge" ∷ codes "-g" ∷ codes "g" ∷ codes "-d" ∷ [])
        ≡ Err (value_missing 3) }
    ensures last_gap { options (codes "merge" ∷ codes "-g" ∷ codes "g" ∷ codes "-d" ∷ codes "1"
        ∷ codes "-d" ∷ codes "5" ∷ []) ≡ Ok (record {
          command = Command.Merge 5 MergeStrand.All;
          names = record { genome = Some (codes "g"); first = codes "stdin"; second = None; output = None };
        }) }
    ensures complement_of_chromosomes_with_records { options (codes "complement" ∷ codes "-L"
        ∷ codes "-g" ∷ codes "g" ∷ []) ≡ Ok (record {
          command = Command.Complement true;
          names = record { genome = Some (codes "g"); first = codes "stdin"; second = None; output = None };
        }) }
    ensures fraction_of_both_on_one_strand { options (codes "intersect" ∷ codes "-a" ∷ codes "x" ∷ codes "-b"
        ∷ codes "y" ∷ codes "-g" ∷ codes "g" ∷ codes "-f" ∷ codes ".5" ∷ codes "-r" ∷ codes "-s" ∷ [])
        ≡ Ok (record {
          command = Command.Intersect Shape.Cut (record { billionths = 500000000; both = true; same_strand = true }) None;
          names = record { genome = Some (codes "g"); first = codes "x"; second = Some (codes "y"); output = None };
        }) }
    ensures whole_records_by_a_fraction { options (codes "subtract" ∷ codes "-A" ∷ codes "-a" ∷ codes "x" ∷ codes "-b"
        ∷ codes "y" ∷ codes "-g" ∷ codes "g" ∷ codes "-f" ∷ codes "1" ∷ [])
        ≡ Ok (record {
          command = Command.Subtract true (record { billionths = 1000000000; both = false; same_strand = false }) None;
          names = record { genome = Some (codes "g"); first = codes "x"; second = Some (codes "y"); output = None };
        }) }
    ensures neither_depths { options (codes "genomecov" ∷ codes "-g" ∷ codes "g" ∷ []) ≡ Err required_missing }
    ensures all_depths_of_one_strand { options (codes "genomecov" ∷ codes "-bg" ∷ codes "-g" ∷ codes "g"
        ∷ codes "-strand" ∷ codes "-" ∷ codes "-bga" ∷ [])
        ≡ Ok (record {
          command = Command.Coverage true (Some Strand.Minus);
          names = record { genome = Some (codes "g"); first = codes "stdin"; second = None; output = None };
        }) }
    ensures subtract_of_both { options (codes "subtract" ∷ codes "-r" ∷ []) ≡ Err (unknown_option 1) }
    ensures value_like_an_option { options (codes "merge" ∷ codes "-g" ∷ codes "-i" ∷ [])
        ≡ Ok (record {
          command = Command.Merge 0 MergeStrand.All;
          names = record { genome = Some (codes "-i"); first = codes "stdin"; second = None; output = None };
        }) }
    ensures first_fault { options (codes "merge" ∷ codes "-i" ∷ codes "a" ∷ codes "-q"
        ∷ codes "-g" ∷ []) ≡ Err (unknown_option 3) }
{}

/// Some command lines of bamtobed, which has no genome, and what they mean.
#[tactic(auto, unfolding(bt_tool::specs::model::Usage::items_of, bt_tool::specs::model::Options::word_fault, bt_tool::specs::model::Options::options))]
pub fn worked_conversions()
    ensures no_words { options (codes "bamtobed" ∷ []) ≡ Ok (record {
      command = Command.BamToBed false false;
      names = record { genome = None; first = codes "stdin"; second = None; output = None };
    }) }
    ensures cut_and_with_cigars { options (codes "bamtobed" ∷ codes "-split" ∷ codes "-cigar" ∷ [])
        ≡ Ok (record {
          command = Command.BamToBed true true;
          names = record { genome = None; first = codes "stdin"; second = None; output = None };
        }) }
    ensures cigars_alone { options (codes "bamtobed" ∷ codes "-cigar" ∷ codes "-i" ∷ codes "a.sam" ∷ [])
        ≡ Ok (record {
          command = Command.BamToBed false true;
          names = record { genome = None; first = codes "a.sam"; second = None; output = None };
        }) }
    ensures no_genome { options (codes "bamtobed" ∷ codes "-g" ∷ codes "g" ∷ [])
        ≡ Err (unknown_option 1) }
{}

/// Some words, and the fractions that they denote, in billionths.
#[tactic(auto, unfolding(bt_tool::specs::model::Fraction::fraction_in))]
pub fn worked_fractions()
    ensures half { fraction_of (codes "0.5") ≡ Some 500000000 }
    ensures no_digit_before { fraction_of (codes ".5") ≡ Some 500000000 }
    ensures zeros_before { fraction_of (codes "00.5") ≡ Some 500000000 }
    ensures nothing { fraction_of (codes "0") ≡ Some 0 }
    ensures one { fraction_of (codes "1") ≡ Some 1000000000 }
    ensures no_digit_behind { fraction_of (codes "1.") ≡ Some 1000000000 }
    ensures nine_decimals { fraction_of (codes "1.000000000") ≡ Some 1000000000 }
    ensures least { fraction_of (codes "0.000000001") ≡ Some 1 }
    ensures above_one { fraction_of (codes "1.000000001") ≡ None }
    ensures one_and_a_half { fraction_of (codes "1.5") ≡ None }
    ensures ten_decimals { fraction_of (codes "0.5000000000") ≡ None }
    ensures no_word { fraction_of [] ≡ None }
    ensures point_alone { fraction_of (codes ".") ≡ None }
    ensures two_points { fraction_of (codes "0.5.") ≡ None }
    ensures exponent { fraction_of (codes "5e-1") ≡ None }
    ensures sign { fraction_of (codes "+1") ≡ None }
    ensures space { fraction_of (codes " 1") ≡ None }
{}
