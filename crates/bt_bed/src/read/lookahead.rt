//! The last record and the chromosome of the one ahead, sorted by some rule.

ghost use Rattle.std.specs.Prelude.{◌≡◌, ℕ, Some};
ghost use Rattle.bt_bed.specs.inside.FirstColumns.{HasKey, IsRecordName};

use crate::parse::faults::at_line;
use crate::parse::names::is_same_name;
use crate::parse::packed_name::PackedName;
use crate::parse::parsing::parse_bed;
use crate::read::batch::Batch;
use crate::read::sorted::Sorted;
use crate::record::bed::BedRef;
use bt_lines::{BufferedLines, Fault, Kind, Place, no_memory};
use std::alloc::Global;

// What the next record is checked against. The names of chromosomes are in buffers that are used again. A record on the
// chromosome of the last one has the name of that. Another one has its own in `ahead_name`, as long as it is ahead.
#[derive(Drop)]
pub(crate) struct OrderedLookahead<Q> {
    pub(crate) rule: Q,
    // The chromosome of the last record, while `last` is one.
    last_name: Vec<u8>,
    // The chromosome of the record ahead, if that is another one.
    ahead_name: Vec<u8>,
    // By which lines on these are recognized.
    last_key: PackedName,
    ahead_key: PackedName,
    // The start of the last record; `None` before the first.
    last: Option<u64>,
    // Whether the record ahead lies on another chromosome than the last.
    is_elsewhere: bool,
    ghost last_keyed: { HasKey last_name.items last_key },
    ghost ahead_keyed: { HasKey ahead_name.items ahead_key },
    ghost named: { (start : ℕ) → last ≡ Some start → IsRecordName last_name.items },
}

#[tactic(auto, unfolding(crate::specs::inside::OrderedLookahead::last_in, crate::specs::inside::OrderedLookahead::name_in, crate::specs::inside::OrderedLookahead::start_in))]
impl<Q: Sorted> OrderedLookahead<Q> {
    ghost use Rattle.std.specs.Prelude.{◌≡◌, IsTrue, None, Some};
    ghost use Rattle.std.specs.Result.{result_map_both};
    ghost use Rattle.bt_lines.specs.calls.Reader.{lines_in};
    ghost use Rattle.bt_bed.specs.calls.Bed.{feature_lent};
    ghost use Rattle.bt_bed.specs.model.Good.{in_order};
    ghost use Rattle.bt_bed.specs.inside.OrderedLookahead.{HasNext, IsKnownLast, MakesLast, TakesLine, goes_on, last_in, name_in, start_in};

    // No record yet.
    pub(crate) fn new(alloc: Global, rule: Q) -> OrderedLookahead<Q>
        ensures rule { result.rule ≡ rule }
        ensures last { last_in result ≡ None }
    {
        OrderedLookahead {
            rule,
            last_name: Vec::new(alloc),
            ahead_name: Vec::new(alloc),
            last_key: PackedName::of(b""),
            ahead_key: PackedName::of(b""),
            last: None,
            is_elsewhere: false,
        }
    }

    // The name of the chromosome of the record ahead.
    pub(crate) fn name(&self) -> &[u8]
        ensures { result.now ≡ name_in self.now }
    {
        if self.is_elsewhere {
            self.ahead_name.as_slice()
        } else {
            self.last_name.as_slice()
        }
    }

    // By which lines on it are recognized.
    pub(crate) fn key(&self) -> PackedName
        ensures { HasKey (name_in self.now) result }
    {
        if self.is_elsewhere {
            self.ahead_key
        } else {
            self.last_key
        }
    }

    // From where on records may start on that chromosome.
    pub(crate) fn start(&self) -> u64
        ensures { result ≡ start_in self.now }
    {
        match self.last {
            Some(start) if !self.is_elsewhere => start,
            _ => 0,
        }
    }

    // Makes a record on the chromosome of the one ahead, which starts here, the last one.
    pub(crate) fn advance(&mut self, start: u64)
        requires { IsRecordName (name_in self.old) }
        ensures { MakesLast self.old start self.new }
    {
        if self.is_elsewhere {
            std::mem::swap(&mut self.last_name, &mut self.ahead_name);
            std::mem::swap(&mut self.last_key, &mut self.ahead_key);
            self.is_elsewhere = false;
        }
        self.last = Some(start);
    }

    // Whether the next of these lines says a record that may follow the last one on its chromosome, which a batch finds.
    pub(crate) fn has_next_in(&self, lines: BufferedLines<'_>) -> bool
        ensures { IsTrue result → HasNext self.now (lines_in lines.entry) }
    {
        match self.last {
            Some(start) if !self.is_elsewhere => {
                let batch = Batch::new(lines, self.last_name.as_slice(), self.last_key, start);
                batch.first().is_some()
            }
            _ => false,
        }
    }

    // Takes the line that follows the last record's, and returns true if it has a record, which
    // is ahead then. Memory runs out only for the name of another chromosome. No clause says how much
    // room the buffer of names has, so `test_sizes.py` tries that it runs out only if a growth was refused.
    pub(crate) fn take_line(&mut self, place: Place, text: &[u8]) -> Result<bool, Fault>
        requires known { IsKnownLast (Q.sorting self.old.rule) (last_in self.old) }
        ensures { TakesLine (Q.sorting self.old.rule) place text.now self.old result self.new }
    {
        let bed = match parse_bed(text) {
            Ok(Some(bed)) => bed,
            Ok(None) => return Ok(false),
            Err(kind) => return Err(at_line(kind, place)),
        };
        let is_same = self.last.is_some() && is_same_name(self.last_name.as_slice(), bed.chrom);
        if let Err(kind) = self.check(is_same, bed) {
            return Err(at_line(kind, place));
        }
        self.is_elsewhere = !is_same;
        if is_same {
            return Ok(true);
        }
        // Only the name of another chromosome is copied.
        self.ahead_name.clear();
        let copied = self.ahead_name.extend_from_slice(bed.chrom);
        self.ahead_key = PackedName::of(self.ahead_name.as_slice());
        match copied {
            Ok(()) => Ok(true),
            Err(_) => Err(no_memory()),
        }
    }

    // Whether a record fits after the last one, or what is wrong with it. Its chromosome isn't looked
    // up again if it is that of the last record.
    fn check(&self, is_same: bool, bed: BedRef<'_>) -> Result<(), Kind>
        requires same { is_same ≡ goes_on self.now bed.chrom.now }
        requires known { IsKnownLast (Q.sorting self.now.rule) (last_in self.now) }
        ensures { in_order (Q.sorting self.now.rule) (last_in self.now) (feature_lent bed.entry)
            ≡ result_map_both (λ done. Some (feature_lent bed.entry)) (λ kind. kind) result }
    {
        if !is_same && !self.rule.knows(bed.chrom) {
            return Err(Kind::UnknownChrom);
        }
        let is_below = match self.last {
            Some(last) if is_same => bed.start < last,
            Some(_) => self.rule.comes_before(bed.chrom, self.last_name.as_slice()),
            None => false,
        };
        if is_below {
            return Err(Kind::OutOfOrder);
        }
        Ok(())
    }
}
