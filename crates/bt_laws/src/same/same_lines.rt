//! Which options of intersect and subtract write the same lines: each law is the contract of a function that does
//! nothing.

ghost use Rattle.bt_laws.specs.Same.{counts_say_all, missing_is_whole};

/// intersect -v is subtract -A with the same rule.
#[tactic(auto, using(crate::proofs::lemmas::same::SameSweeps::missing_whole))]
pub fn records_without_hits_are_whole()
    ensures { missing_is_whole }
{}

/// What -u, -v and -wa write can be read off -c.
#[tactic(auto, using(crate::proofs::lemmas::same::SameSweeps::counts_all))]
pub fn numbers_of_hits_say_all()
    ensures { counts_say_all }
{}
