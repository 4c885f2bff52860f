//! Laws of what a sweep decides, takes and writes.

ghost use Rattle.bt_laws.specs.Sweeps.{decided_stays, both_of_nothing, taken_are_first, quiet_are_taken, written_are_a_prefix, limit_is_kept, limit_stops, decided_before_the_limit, fault_behind_undecided, fault_of_first, fault_within_the_limit, first_is_too_many, half_is_taken, limit_before_the_fault, none_is_held, parts_are_left, third_is_too_many, three_are_enough, whole_is_left};
ghost use Rattle.bt_sweep.specs.calls.LineLaws.{lines_are_before, lines_stay, pieces_are, pieces_only, left_are_lines, subtract_is_met, faultless_are_all};

/// What is decided stays decided, and its lines stay as they are, whatever comes after in order: the
/// record that decides it included.
#[tactic(auto, using(crate::proofs::lemmas::single::Sweeps::stays_decided, bt_sweep::proofs::lemmas::definitions::HitLemmas::stay_lines, bt_sweep::proofs::lemmas::definitions::HitLemmas::before_lines))]
pub fn decided_lines_stay()
    ensures decided { decided_stays }
    ensures lines { lines_stay }
    ensures before { lines_are_before }
{}

/// Without a fraction, requiring it of both records changes nothing.
#[tactic(auto, using(crate::proofs::lemmas::single::Sweeps::of_nothing))]
pub fn no_fraction_is_that_of_both()
    ensures { both_of_nothing }
{}

/// The pieces of a record are the stretches of its positions that none of the others has, and no other
/// list is.
pub fn pieces_are_stretches()
    ensures are { pieces_are }
    ensures only { pieces_only }
{}

/// What subtract leaves of one record by those that hit it is what the sweep writes of it, in pieces or
/// whole.
#[tactic(auto, using(bt_sweep::proofs::lemmas::definitions::HitLemmas::left_at))]
pub fn lines_of_one_record_are_what_is_left()
    ensures { left_are_lines }
{}

/// If the second input has no fault, what the sweep writes for subtract is what all pairs give.
#[tactic(auto, using(bt_sweep::proofs::lemmas::definitions::HitLemmas::subtract_met))]
pub fn faultless_inputs_are_subtracted()
    ensures { subtract_is_met }
{}

/// If the second input has no fault, what is written is what all pairs give.
#[tactic(auto, using(bt_sweep::proofs::lemmas::definitions::HitLemmas::faultless_all))]
pub fn faultless_inputs_give_all_pairs()
    ensures { faultless_are_all }
{}

/// What is written after a prefix of both inputs is a prefix of what is written for the whole.
#[tactic(auto, using(crate::proofs::lemmas::single::Sweeps::written_front))]
pub fn prefixes_write_prefixes()
    ensures { written_are_a_prefix }
{}

/// The records that were taken are those before the first that decides all that was given.
#[tactic(auto, using(crate::proofs::lemmas::single::Sweeps::first_taken))]
pub fn taken_records_come_first()
    ensures { taken_are_first }
{}

/// A limit on the number of held records refuses a run exactly if it is passed at a line of the second input:
/// more records up to there would have to be held for the first one that they leave undecided. At the first such
/// line the lines of the records before the undecided one are written. Else the limit changes
/// nothing.
pub fn limits_stop_at_the_first_too_many()
    ensures stops { limit_stops }
    ensures kept { limit_is_kept }
{}

/// A record of the second input that neither decides the current record of the first nor has to be
/// held is taken. So it needs no memory, and nothing is written.
#[tactic(auto, using(crate::proofs::lemmas::single::Sweeps::quiet_taken))]
pub fn quiet_records_are_taken()
    ensures { quiet_are_taken }
{}

/// What is written and reported of small inputs.
pub fn small_inputs_meet()
    ensures undecided { fault_behind_undecided }
    ensures first { fault_of_first }
    ensures parts { parts_are_left }
    ensures half { half_is_taken }
    ensures whole { whole_is_left }
{}

/// What a sweep of small inputs writes if the number of held records is limited.
pub fn small_inputs_meet_within_a_limit()
    ensures third { third_is_too_many }
    ensures three { three_are_enough }
    ensures decided { decided_before_the_limit }
    ensures first { first_is_too_many }
    ensures none { none_is_held }
    ensures before { limit_before_the_fault }
    ensures behind { fault_within_the_limit }
{}
