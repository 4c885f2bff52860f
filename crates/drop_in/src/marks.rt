//! What the file of a program has, by which programs are told apart. None of them is run for that.

ghost use Rattle.std.specs.Prelude.{◌≡◌, ◌≤◌, ◌-◌, ◌↔◌, IsTrue, drop, length, min, take};
ghost use Rattle.drop_in.specs.calls.Marks.{Has, HasMark, Shows, overlap};

use bt_lines::Source;
use memchr::memmem;

/// What is looked for in a program.
#[derive(Clone, Copy, Debug, PartialEq, Eq)]
pub enum Mark {
    /// The words that each program and script of Dunekettle has.
    Ours,
    /// The name of a version of bedtools with which everything was compared.
    KnownVersion,
}

/// What a search found.
#[derive(Clone, Copy, Debug, PartialEq, Eq)]
pub enum Search {
    /// The mark.
    Found,
    /// No mark, up to the end or up to a failed read.
    Absent,
    /// No end: that takes 2^64 - 1 bytes.
    Endless,
}

const OURS: &[u8] = b"no such sequence from here on";

// How many bytes are read together.
const PIECE: usize = 65536;

// How many bytes of a mark may stand before a border of blocks: all but one of the longest.
const OVERLAP: usize = 28;

impl Mark {
    /// Looks for the mark in what a source has, block by block.
    pub fn search<S: Source>(self, source: &mut S) -> Search
        ensures { Shows S.Source self source.old result source.new }
    {
        let mut block = [0u8; OVERLAP + PIECE];
        let mut kept = 0;
        for _ in 0..u64::MAX {
            let count = match source.read(&mut block[kept..]) {
                Ok(0) => return Search::Absent,
                Ok(count) => count,
                Err(_failed) => return Search::Absent,
            };
            let end = kept + count;
            if self.is_in(&block[..end]) {
                return Search::Found;
            }
            kept = keep_last(&mut block, end);
        }
        Search::Endless
    }

    // Whether bytes have the mark.
    fn is_in(self, bytes: &[u8]) -> bool
        ensures { IsTrue result ↔ HasMark self bytes.now }
    {
        match self {
            Mark::Ours => has(bytes, OURS),
            Mark::KnownVersion => has(bytes, b"v2.30.0") || has(bytes, b"v2.31."),
        }
    }
}

// Whether bytes have these words in them.
fn has(bytes: &[u8], words: &[u8]) -> bool
    ensures { IsTrue result ↔ Has words.now bytes.now }
{
    memmem::find(bytes, words).is_some()
}

// Moves the last bytes before an end, in which a mark may begin, to the front. Answers how many.
fn keep_last(block: &mut [u8], end: usize) -> usize
    requires { end ≤ length block.old }
    ensures count { result ≡ min end overlap }
    ensures length { length block.new ≡ length block.old }
    ensures last { take result block.new ≡ drop (end - result) (take end block.old) }
{
    let kept = end.min(OVERLAP);
    block.copy_within(end - kept..end, 0);
    kept
}
