//! Several runs in the order of their first records, and where the last one of each strand is.

ghost use Rattle.std.specs.Prelude.{◌≡◌, ◌<◌, ◌++◌, ◌∷◌, [], length, drop, OnOk, Some};
ghost use Rattle.std.specs.List.{slice_get};
ghost use Rattle.bt_runs.specs.inside.merge.StrandStep.{place_of, slot_of, with_joined};

use crate::merge::pending_runs::PendingRun;
use bt_bed::Strand;
use std::alloc::{AllocError, Global};
use std::collections::VecDeque;
use std::marker::Model;

// For how many runs room is made with the first one. They are in a ring, and each time round it costs a mispredicted
// branch, so a small ring would cost one every few runs.
const ROOM: usize = 64;

// The runs, and the place of each strand's last one, which alone may still grow. A run is added, joined
// and taken off without a look at the others, and without a branch on its strand, which nothing predicts.
#[derive(Drop, Debug)]
pub(crate) struct RunList {
    // In the order of their first records.
    runs: VecDeque<PendingRun>,
    // How many runs there are up to the last one of each strand, that one too, in the strand's slot; 0 if
    // none of it waits.
    up_to_last: [usize; 3],
}

impl Model for RunList {
    ghost use Rattle.std.specs.Prelude.{◌≡◌, List};
    ghost use Rattle.bt_runs.specs.declared.merge.pending_runs.PendingRun.{PendingRun};
    ghost use Rattle.bt_runs.specs.inside.merge.StrandStep.{counts_up_to_last};

    ghost Value = { List PendingRun };

    ghost view = { λ a. a.runs.items };

    ghost invariant = { λ a. a.up_to_last ≡ counts_up_to_last a.runs.items };
}

impl RunList {
    pub(crate) fn new(alloc: Global) -> RunList
        ensures { result ≡ [] }
    {
        RunList {
            runs: VecDeque::new(alloc),
            up_to_last: [0, 0, 0],
        }
    }

    // How many there are. Each field is named: with one more, in which a list could be kept, this wouldn't compile.
    pub(crate) fn len(&self) -> usize
        ensures { result ≡ length self.now }
    {
        let RunList {
            runs,
            up_to_last: _,
        } = self;
        runs.len()
    }

    #[inline]
    pub(crate) fn first(&self) -> Option<PendingRun>
        ensures { result ≡ slice_get self.now 0 }
    {
        match self.runs.front() {
            Some(run) => Some(*run),
            None => None,
        }
    }

    // Takes off the first run, if there is one.
    #[inline]
    pub(crate) fn drop_first(&mut self)
        ensures { self.new ≡ drop 1 self.old }
    {
        let _ = self.runs.pop_front();
        self.up_to_last[0] = self.up_to_last[0].saturating_sub(1);
        self.up_to_last[1] = self.up_to_last[1].saturating_sub(1);
        self.up_to_last[2] = self.up_to_last[2].saturating_sub(1);
    }

    // Joins a record that ends at `stop` to the last run of its strand, unless that ends below `reach`,
    // and returns true if it joined it.
    #[inline]
    pub(crate) fn join(&mut self, strand: Strand, stop: u64, reach: u64) -> bool
        ensures { (result, self.new) ≡ with_joined reach stop self.old (place_of strand self.old) }
    {
        let Some(place) = self.up_to_last[slot_of(strand)].checked_sub(1) else {
            return false;
        };
        lengthen(&mut self.runs, place, stop, reach)
    }

    // Adds a run after the others. The contracts of std don't say when a list can't grow: `test_sizes.py` tries that memory
    // runs out only if a growth was refused.
    #[tactic(auto, using(crate::proofs::lemmas::merge::StrandSettling::added_counts))]
    pub(crate) fn push(&mut self, run: PendingRun) -> Result<(), AllocError>
        ensures { OnOk result (self.new ≡ self.old ++ run ∷ []) }
    {
        if self.runs.is_empty() {
            self.runs.reserve(ROOM)?;
        }
        let strand = run.strand;
        self.runs.push_back(run)?;
        self.up_to_last[slot_of(strand)] = self.runs.len();
        Ok(())
    }
}

// Which of the three counts is that of a strand.
#[inline]
fn slot_of(strand: Strand) -> usize
    ensures { result ≡ slot_of strand }
{
    match strand {
        Strand::Plus => 0,
        Strand::Minus => 1,
        Strand::Dot => 2,
    }
}

#[inline]
#[tactic(auto, using(crate::proofs::lemmas::merge::StrandSettling::joined_not, crate::proofs::lemmas::merge::StrandSettling::joined_so))]
fn lengthen(runs: &mut VecDeque<PendingRun>, place: usize, stop: u64, reach: u64) -> bool
    requires { place < length runs.old.items }
    ensures { (result, runs.new.items) ≡ with_joined reach stop runs.old.items (Some place) }
{
    let run = &mut runs[place];
    if run.stop < reach {
        return false;
    }
    run.stop = run.stop.max(stop);
    true
}
