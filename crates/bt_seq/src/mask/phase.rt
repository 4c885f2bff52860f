//! How far a masking engine has come.

use crate::mask::MaskWant;

// What a masking engine wants, and what for.
#[derive(Clone, Copy, Debug)]
pub(crate) enum Phase {
    // The next line.
    Lines,
    // The record that decides the line that waits.
    Waits,
    // The records that are left after the last line.
    Checks,
    // Nothing: both inputs have ended, or there was a fault.
    Ended,
}

impl Phase {
    ghost use Rattle.std.specs.Prelude.{◌≡◌};
    ghost use Rattle.bt_seq.specs.inside.Masking.{waits_in, mask_want_in};

    // What is wanted.
    pub(crate) fn want(self) -> MaskWant
        ensures { result ≡ mask_want_in self }
    {
        match self {
            Phase::Lines => MaskWant::Line,
            Phase::Waits | Phase::Checks => MaskWant::Bed,
            Phase::Ended => MaskWant::Nothing,
        }
    }

    // Whether a line waits.
    pub(crate) fn waits(self) -> bool
        ensures { result ≡ waits_in self }
    {
        matches!(self, Phase::Waits)
    }
}
