//! What a masking engine keeps, and its steps.

ghost use Rattle.std.specs.Prelude.{◌≡◌, ◌<◌, ◌≤◌, ℕ, None, Some, [], OnErr, OnOk, IfErr, IfSome, IsErr, IsOk, cond, false, true, is_some, length, nat_eq, nat_le, nat_lt, if◌then◌else◌};
ghost use Rattle.std.specs.Option.{option_map_or};
ghost use Rattle.bt_lines.specs.calls.Faults.{no_memory};
ghost use Rattle.bt_lines.specs.calls.Names.{fault_value};
ghost use Rattle.bt_bed.specs.calls.Bed.{feature_lent};
ghost use Rattle.bt_bed.specs.model.BedLine.{fault_at_line};
ghost use Rattle.bt_lines.specs.calls.Reader.{lines_in};
ghost use Rattle.bt_seq.specs.inside.Masking.{CopiesThrough};
ghost use Rattle.bt_seq.specs.calls.MaskSteps.{GivesBoth};
ghost use Rattle.bt_seq.specs.calls.MaskState.{ChecksBed, Keeps, Moves, TakesBed, TakesSequenceLine, Waiting, WritesWaiting, WritesGiven, decides_by, decides_up_to, with_held, writes_at_once};
ghost use Rattle.bt_seq.specs.inside.Window.{limit, no_bases};

use crate::mask::MaskWant;
use crate::mask::copy_through::{CopyThrough, is_decided_to};
use crate::mask::header_name::{is_header, name_in};
use crate::mask::mask_how::MaskHow;
use crate::mask::matching::{Matching, Owner};
use crate::mask::phase::Phase;
use crate::mask::put_text::put_text;
use crate::mask::window::{LIMIT, Window};
use bt_bed::{BedRef, Cursor, Taken, at_line};
use bt_lines::{
    BufferedLines, Fault, Input, Kind, Line, LineEnd, Out, Place, Sink, no_memory, put_line,
};
use std::alloc::Global;
use std::marker::Model;

// The line that waits is in a buffer, which is used again.
#[derive(Drop)]
pub(crate) struct MaskState {
    // What stands for a masked base.
    how: MaskHow,
    // Whether a sequence has its whole header for a name.
    full: bool,
    // Which sequence and which block came last, until memory runs out.
    matching: Matching,
    // Where the line given last lies, and what reaches into it.
    window: Window,
    // The line that waits, if one does.
    text: Vec<u8>,
    // How that line ended.
    ending: LineEnd,
    // Whether a line waits, and what is wanted.
    phase: Phase,
    // Whether the end of the records was given.
    bed_ended: bool,
    // Up to which base of the sequence the record ahead decides lines. Valid while a line is wanted
    // after the first header and the records haven't ended.
    decided_to: u64,
}

impl Model for MaskState {
    ghost use Rattle.std.specs.Prelude.{None, Some, if◌then◌else◌};
    ghost use Rattle.bt_seq.specs.calls.MaskState.{Masking};
    ghost use Rattle.bt_seq.specs.inside.Masking.{waits_in, mask_want_in};

    ghost Value = { Masking };

    ghost view = { λ m. record {
      how = m.how;
      full = m.full;
      matched = m.matching;
      window = m.window;
      waiting = if waits_in m.phase then Some (record { text = m.text.items; ending = m.ending }) else None;
      want = mask_want_in m.phase;
      bed_ended = m.bed_ended;
      decided_to = m.decided_to;
    } };
}

impl MaskState {
    // Nothing was given.
    pub(crate) fn new(alloc: Global, how: MaskHow, full: bool) -> MaskState
        ensures { result ≡ record {
          how = how;
          full = full;
          matched = record { name = None; last = None; own = false };
          window = no_bases;
          waiting = None;
          want = MaskWant.Line;
          bed_ended = false;
          decided_to = 0;
        } }
    {
        MaskState {
            how,
            full,
            matching: Matching::new(alloc),
            window: Window::new(alloc),
            text: Vec::new(alloc),
            ending: LineEnd::Absent,
            phase: Phase::Lines,
            bed_ended: false,
            decided_to: 0,
        }
    }

    // What is wanted.
    pub(crate) fn want(&self) -> MaskWant
        ensures { result ≡ self.now.want }
    {
        self.phase.want()
    }

    // How many records are held: the list that is kept is the window's. Each field is named: with one more, in which a second
    // list could be kept, this wouldn't compile.
    pub(crate) fn kept_len(&self) -> usize
        ensures { result ≡ length self.now.window.held }
    {
        let MaskState {
            how: _,
            full: _,
            matching: _,
            window,
            text: _,
            ending: _,
            phase: _,
            bed_ended: _,
            decided_to: _,
        } = self;
        window.len()
    }

    // Whether a line waits.
    pub(crate) fn waits(&self) -> bool
        ensures { result ≡ is_some self.now.waiting }
    {
        self.phase.waits()
    }

    // Takes the next line, which is written at once or kept until it is decided.
    #[tactic(auto, using(crate::proofs::lemmas::mask::bases::MaskingLemmas::keeps_line, crate::proofs::lemmas::mask::bases::MaskingLemmas::writes_line))]
    pub(crate) fn take_line<K: Sink>(
        &mut self,
        line: &Line<'_>,
        out: &mut Out<K>,
    ) -> Result<(), Fault>
        ensures { TakesSequenceLine self.old line.now.number
            (record { text = line.now.text.now; ending = line.now.ending }) out.old.output result self.new out.new.output }
    {
        if let Err(fault) = self.move_to(line.number, line.text) {
            self.phase = Phase::Ended;
            return Err(fault);
        }
        if self.writes_at_once(line.text) {
            return self.write_at_once(line.text, line.ending, out);
        }
        self.keep(line.text, line.ending)
    }

    // Takes the lines that nothing masks, and the one after them, and returns true if there is one. Whatever records
    // a cursor is at, they stay.
    #[tactic(auto, using(crate::proofs::lemmas::mask::steps::AdvanceLemmas::wants_more))]
    #[inline(always)]
    pub(crate) fn give_lines<C: Cursor, K: Sink>(
        &mut self,
        lines: &mut BufferedLines<'_>,
        out: &mut Out<K>,
    ) -> Result<bool, Fault>
        requires { self.old.want ≡ MaskWant.Line }
        ensures gives { (records : C) → GivesBoth C.Cursor self.old lines.old records out.old.output result
            self.new lines.new records out.new.output }
        ensures stops { result ≡ Ok false → (lines_in lines.new ≡ []) × (self.new.want ≡ MaskWant.Line) }
        ensures shrinks { result ≡ Ok true → length (lines_in lines.new) < length (lines_in lines.old) }
    {
        self.copy_through(lines, out)?;
        let Some(line) = lines.next() else {
            return Ok(false);
        };
        self.take_line(&line, out)?;
        Ok(true)
    }

    // Takes a record while a line waits, unless it decides the line.
    pub(crate) fn take_bed<K: Sink>(
        &mut self,
        bed: &BedRef<'_>,
        out: &mut Out<K>,
    ) -> Result<Taken, Fault>
        ensures takes { (line : Waiting) → self.old.waiting ≡ Some line
            → TakesBed self.old line (feature_lent bed.now) out.old.output result self.new out.new.output }
        ensures stops { OnErr result (self.new.want ≡ MaskWant.Nothing) }
        ensures leaves { result ≡ Ok Taken.No → self.new.want ≡ MaskWant.Line }
    {
        let owner = self.matching.owner(bed.chrom);
        if let Some(to) = decided_up_to(owner, bed.start)
            && self.window.bases() <= to
        {
            self.decided_to = to;
            self.write(out)?;
            return Ok(Taken::No);
        }
        if owner == Owner::Own {
            self.hold(bed)?;
        }
        Ok(Taken::Yes)
    }

    // Checks that the block of a record after the last line belongs to a sequence.
    pub(crate) fn check_bed(&mut self, bed: &BedRef<'_>, line: u64) -> Result<(), Fault>
        ensures { ChecksBed self.old (feature_lent bed.now) line result self.new }
    {
        match self.matching.owner(bed.chrom) {
            Owner::Own | Owner::Earlier => Ok(()),
            Owner::Nobody => {
                self.phase = Phase::Ended;
                Err(no_sequence(line))
            }
        }
    }

    // Takes the end of the lines.
    pub(crate) fn end_lines(&mut self)
        requires { self.old.want ≡ MaskWant.Line }
        ensures { self.new ≡ record self.old {
          want = cond self.old.bed_ended MaskWant.Nothing MaskWant.Bed;
        } }
    {
        self.phase = if self.bed_ended {
            Phase::Ended
        } else {
            Phase::Checks
        };
    }

    // Takes the end of the records, and writes the line that waits.
    pub(crate) fn end_bed<K: Sink>(&mut self, out: &mut Out<K>) -> Result<(), Fault>
        ensures waits { (line : Waiting) → self.old.waiting ≡ Some line
            → WritesWaiting (record self.old { bed_ended = true }) line out.old.output result self.new out.new.output }
        ensures none_waits { self.old.waiting ≡ None → IsOk result
            × (self.new ≡ record self.old { bed_ended = true; want = MaskWant.Nothing })
            × (out.new.output ≡ out.old.output) }
        ensures stops { OnErr result (self.new.want ≡ MaskWant.Nothing) }
    {
        self.bed_ended = true;
        if self.phase.waits() {
            return self.write(out);
        }
        self.phase = Phase::Ended;
        Ok(())
    }

    // Copies those of the next lines through that are known beforehand to be written unchanged.
    #[tactic(auto, using(crate::proofs::lemmas::mask::steps::CopyLemmas::bytes_between, crate::proofs::lemmas::mask::steps::CopyLemmas::copies_within))]
    #[inline(always)]
    pub(crate) fn copy_through<K: Sink>(
        &mut self,
        lines: &mut BufferedLines<'_>,
        out: &mut Out<K>,
    ) -> Result<(), Fault>
        ensures { CopiesThrough self.old lines.old out.old.output result self.new lines.new out.new.output }
    {
        if !self.may_copy() || lines.is_open() {
            return Ok(());
        }
        let through = CopyThrough {
            lines: *lines,
            before: self.window.before(),
            bases: self.window.bases(),
        };
        let through = through.consume_up_to(self.known_to());
        let copied = lines.between(lines.offset(), through.lines.offset());
        if copied.is_empty() {
            return Ok(());
        }
        *lines = through.lines;
        self.window.stand_at(through.before, through.bases);
        let put = put_line(copied, b"", out);
        self.finish_write(put)
    }

    // Whether a sequence has begun, nothing is held, and bases after the last line are known to be decided.
    fn may_copy(&self) -> bool
        ensures named { result ≡ true → is_some self.now.matched.name ≡ true }
        ensures held { result ≡ true → nat_eq (length self.now.window.held) 0 ≡ true }
    {
        self.window.bases() < self.known_to() && self.matching.is_named() && self.window.is_empty()
    }

    // Up to which base of the sequence lines are known to be decided, if they come after a header.
    fn known_to(&self) -> u64
        ensures { result ≡ (if self.now.bed_ended then limit else self.now.decided_to) }
    {
        if self.bed_ended {
            LIMIT
        } else {
            self.decided_to
        }
    }

    // Whether a line of this text is written at once: the records have ended, no header has come, or it is
    // known to be decided.
    fn writes_at_once(&self, text: &[u8]) -> bool
        ensures { result ≡ writes_at_once self.now text.now }
    {
        self.bed_ended
            || !self.matching.is_named()
            || is_decided_to(text, self.window.bases(), self.decided_to)
    }

    // Holds a record, if it reaches past the start of the line.
    fn hold(&mut self, bed: &BedRef<'_>) -> Result<(), Fault>
        ensures held { OnOk result (self.new ≡ record self.old {
          window = with_held (nat_lt self.old.window.before bed.now.stop) self.old.window (feature_lent bed.now);
        }) }
        ensures lost { IfErr result (λ fault. (fault_value fault ≡ no_memory) × (self.new.want ≡ MaskWant.Nothing)
            × (nat_lt self.old.window.before bed.now.stop ≡ true)) }
    {
        if self.window.hold(bed).is_err() {
            self.phase = Phase::Ended;
            return Err(no_memory());
        }
        Ok(())
    }

    // Goes on to a line.
    fn move_to(&mut self, number: u64, text: &[u8]) -> Result<(), Fault>
        ensures { Moves self.old number text.now result self.new }
    {
        if is_header(text) {
            if self.matching.begin(name_in(self.full, text)).is_err() {
                return Err(no_memory());
            }
            self.window.begin();
            return Ok(());
        }
        if !self.matching.is_named() && !text.is_empty() {
            return Err(stray_text(number));
        }
        self.window.go_on(text.len());
        Ok(())
    }

    // Keeps a line until it is decided. What is seen of an engine doesn't say how much room it has, so
    // `test_sizes.py` tries that memory runs out only if the buffer has to grow.
    fn keep(&mut self, text: &[u8], ending: LineEnd) -> Result<(), Fault>
        ensures { Keeps self.old (record { text = text.now; ending = ending }) result self.new }
    {
        self.text.clear();
        if self.text.extend_from_slice(text).is_err() {
            self.phase = Phase::Ended;
            return Err(no_memory());
        }
        self.ending = ending;
        self.phase = Phase::Waits;
        Ok(())
    }

    // Writes a line as it was given, unless something that is held masks it: then it is kept first.
    #[tactic(auto, using(crate::proofs::lemmas::mask::bases::MaskingLemmas::none_held, crate::proofs::lemmas::mask::bases::MaskingLemmas::wrote_given, crate::proofs::lemmas::mask::bases::MaskingLemmas::wrote_kept))]
    fn write_at_once<K: Sink>(
        &mut self,
        text: &[u8],
        ending: LineEnd,
        out: &mut Out<K>,
    ) -> Result<(), Fault>
        ensures { WritesGiven self.old (record { text = text.now; ending = ending }) out.old.output result self.new out.new.output }
    {
        if self.window.is_empty() {
            let written = put_text(text, ending, out);
            return self.finish_write(written);
        }
        self.keep(text, ending)?;
        self.write(out)
    }

    // Writes the line that waits.
    fn write<K: Sink>(&mut self, out: &mut Out<K>) -> Result<(), Fault>
        ensures writes { (line : Waiting) → self.old.waiting ≡ Some line
            → WritesWaiting self.old line out.old.output result self.new out.new.output }
        ensures stops { OnErr result (self.new.want ≡ MaskWant.Nothing) }
        ensures goes_on { OnOk result (self.new.want ≡ MaskWant.Line) }
    {
        self.window.mask(self.text.as_mut_slice(), self.how);
        let written = put_text(self.text.as_slice(), self.ending, out);
        self.finish_write(written)
    }

    // Wants the next line, if the last one was written.
    fn finish_write(&mut self, written: Result<(), Fault>) -> Result<(), Fault>
        ensures same { result ≡ written }
        ensures next { IsOk written → self.new ≡ record self.old { waiting = None; want = MaskWant.Line } }
        ensures stops { IsErr written → self.new.want ≡ MaskWant.Nothing }
    {
        self.phase = if written.is_ok() {
            Phase::Lines
        } else {
            Phase::Ended
        };
        written?;
        Ok(())
    }
}

// Up to which base of the sequence given last a record of a block with this owner decides lines, if it decides any: up to its
// start, or all if its block belongs to no sequence.
fn decided_up_to(owner: Owner, start: u64) -> Option<u64>
    ensures decides { (bases : ℕ) → bases ≤ limit → decides_by owner bases start ≡ option_map_or (nat_le bases) result false }
    ensures to { IfSome result (λ to. to ≡ decides_up_to owner start) }
{
    match owner {
        Owner::Earlier => None,
        Owner::Own => Some(start),
        Owner::Nobody => Some(LIMIT),
    }
}

// The fault of text before the first header.
fn stray_text(line: u64) -> Fault
    ensures { fault_value result ≡ fault_at_line Input.First line Kind.TextBeforeHeader }
{
    let input = Input::First;
    at_line(Kind::TextBeforeHeader, Place { input, line })
}

// The fault of a record whose block belongs to no sequence.
fn no_sequence(line: u64) -> Fault
    ensures { fault_value result ≡ fault_at_line Input.Second line Kind.NoSequence }
{
    let input = Input::Second;
    at_line(Kind::NoSequence, Place { input, line })
}
