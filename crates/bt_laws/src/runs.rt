//! Laws of merged runs, gaps and depths.

ghost use Rattle.std.specs.Prelude.{◌≡◌, ℕ, List};
ghost use Rattle.bt_bed.specs.model.Feature.{Feature, intervals_of, Span};
ghost use Rattle.bt_bed.specs.model.Positions.{AreStretchesOf};
ghost use Rattle.bt_bed.specs.calls.Orders.{ArePlaced, IsTotal, AreDistinct};
ghost use Rattle.bt_bed.specs.model.Order.{Order, rank_order};
ghost use Rattle.bt_runs.specs.calls.Engine.{SettledBegins, SettledStays};
ghost use Rattle.bt_runs.specs.declared.merge.merge_strand.MergeStrand.{MergeStrand};
ghost use Rattle.bt_runs.specs.model.Merged.{counted, merged, runs_of, merged_runs, ordered_runs, settled_strand_runs, strand_runs};
ghost use Rattle.bt_runs.specs.calls.MergedRuns.{Bridged, AreMergeable, settled_runs};
ghost use Rattle.bt_laws.specs.Merges.{one_run_is_kept, strand_runs_divide, strands_stay_in_order, strand_runs_come_in_order, strand_runs_come_in_turn, strand_runs_start_with_records};
ghost use Rattle.bt_laws.specs.Runs.{chromosomes_are_named_once, file_runs_are_ordered, names_come_in_order, one_place_is_kept, settled_gaps_begin, settled_gaps_stay, settled_depths_begin, settled_depths_stay, levels_are, levels_only, scan_finds_levels, stretches_are_levels, covered_have_depth, gaps_are_levels, gaps_have_depth_0, touching_runs_are_levels, runs_are_levels};
ghost use Rattle.bt_runs.specs.model.Gaps.{gaps_of};
ghost use Rattle.bt_runs.specs.calls.Complementing.{IsBare};

/// The merged runs of a chromosome are the stretches of its bridged positions, and no other list is.
pub fn runs_are_determined()
    ensures are { (gap : ℕ) (spans : List Span) → AreStretchesOf (Bridged gap spans) (runs_of gap spans) }
    ensures only { (gap : ℕ) (spans runs : List Span) → AreStretchesOf (Bridged gap spans) runs → runs ≡ runs_of gap spans }
{}

/// Chromosomes that have records are named once each, and in a total order each of these names comes before
/// the next.
#[tactic(auto, using(bt_runs::proofs::lemmas::order::FileOrder::distinct_chromosomes, crate::proofs::lemmas::single::StrandOrder::names_in_order))]
pub fn chromosomes_come_in_order()
    ensures once { chromosomes_are_named_once }
    ensures order { names_come_in_order }
{}

/// For records in a total order of the chromosomes the merged runs come in that order.
#[tactic(auto, using(bt_runs::proofs::lemmas::order::FileOrder::ordered_come))]
pub fn runs_follow_the_order()
    ensures { (order : Order) (gap : ℕ) (strand : MergeStrand) (records : List Feature) → IsTotal order
        → ArePlaced order (intervals_of records) → ordered_runs order gap strand records ≡ merged_runs gap strand records }
{}

/// In the order of a genome file the chromosomes of the merged runs come as in that file, which is the
/// order of its names' ranks.
#[tactic(auto, using(bt_runs::proofs::lemmas::order::FileOrder::in_file_order, crate::proofs::lemmas::single::StrandOrder::file_ordered))]
pub fn runs_come_in_file_order()
    ensures come { (names : List (List ℕ)) (gap : ℕ) (strand : MergeStrand) (records : List Feature) → AreDistinct names
        → ArePlaced (rank_order names) (intervals_of records) → merged names gap (counted strand records) ≡ merged_runs gap strand records }
    ensures ordered { file_runs_are_ordered }
{}

/// No later record changes a settled run, and all runs but one are settled.
pub fn settled_runs_are_a_prefix()
    ensures stay { (gap : ℕ) (strand : MergeStrand) → SettledStays (settled_runs gap strand) AreMergeable }
    ensures begin { (gap : ℕ) (strand : MergeStrand) → SettledBegins (settled_runs gap strand) (merged_runs gap strand) AreMergeable }
    ensures kept { one_run_is_kept }
{}

/// With each strand separately no later record changes a settled run either, and the kept runs are the
/// others. The runs of one strand are listed in their order, each once.
#[tactic(auto, using(bt_runs::proofs::lemmas::merge::StrandSettling::stay, bt_runs::proofs::lemmas::merge::StrandSettling::begin, crate::proofs::lemmas::single::LevelLemmas::divide, crate::proofs::lemmas::single::LevelLemmas::in_order))]
pub fn settled_strand_runs_are_a_prefix()
    ensures stay { (gap : ℕ) → SettledStays (settled_strand_runs gap) AreMergeable }
    ensures begin { (gap : ℕ) → SettledBegins (settled_strand_runs gap) (strand_runs gap) AreMergeable }
    ensures kept { strand_runs_divide }
    ensures order { strands_stay_in_order }
{}

/// The runs of several strands come in the order of their first records, and each starts where its
/// first record does. So they are in a total order of the chromosomes if the records are.
#[tactic(auto, using(crate::proofs::lemmas::single::StrandOrder::in_turn, crate::proofs::lemmas::single::StrandOrder::start_with_records, crate::proofs::lemmas::single::StrandOrder::in_order))]
pub fn strand_runs_follow_the_order()
    ensures turn { strand_runs_come_in_turn }
    ensures start { strand_runs_start_with_records }
    ensures order { strand_runs_come_in_order }
{}

/// The gaps of a chromosome are the stretches of its bare positions, and no other list is.
pub fn gaps_are_determined()
    ensures are { (size : ℕ) (spans : List Span) → AreStretchesOf (IsBare size spans) (gaps_of size spans) }
    ensures only { (size : ℕ) (spans gaps : List Span) → AreStretchesOf (IsBare size spans) gaps → gaps ≡ gaps_of size spans }
{}

/// No later record changes a settled gap, and one place at most is kept.
pub fn settled_gaps_are_a_prefix()
    ensures stay { settled_gaps_stay }
    ensures begin { settled_gaps_begin }
    ensures kept { one_place_is_kept }
{}

/// The values of the positions of a chromosome make up one list of intervals, and no other; a scan finds it. If one
/// value stands for membership, it is the list of a set of positions.
pub fn levels_are_determined()
    ensures are { levels_are }
    ensures only { levels_only }
    ensures scan { scan_finds_levels }
    ensures stretches { stretches_are_levels }
{}

/// No later record changes a settled interval.
pub fn settled_depths_are_a_prefix()
    ensures stay { settled_depths_stay }
    ensures begin { settled_depths_begin }
{}

/// The merged runs of a chromosome that no record reaches past are the intervals of its bridged
/// positions; with a gap of 0, of its covered ones.
pub fn runs_are_intervals_of_one_value()
    ensures bridged { runs_are_levels }
    ensures covered { touching_runs_are_levels }
{}

/// The gaps of a chromosome are the intervals of its positions that aren't covered: those of depth 0,
/// which a coverage gives if depth 0 is wanted.
pub fn gaps_are_intervals_of_one_value()
    ensures bare { gaps_are_levels }
    ensures depth { covered_have_depth }
    ensures coverage { gaps_have_depth_0 }
{}
