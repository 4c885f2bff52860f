//! What leaves a text to bedtools.

use crate::survey::oddity::OddLine;
use bt_lines::Fault;

/// What leaves a text to bedtools: the first that a survey meets.
#[derive(Clone, Copy, Debug, PartialEq, Eq)]
pub enum Trouble {
    /// bedtools may read a line otherwise. If its bytes show that, records before it weren't all looked at.
    Odd(OddLine),
    /// Dunekettle refuses a line, can't read on, or has no memory, and would end with that fault.
    Refused(Fault),
    /// A chromosome comes back after another one.
    ComesBack {
        /// The line of its first record there, counted from 1.
        line: u64,
    },
}
