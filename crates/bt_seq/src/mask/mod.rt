//! The engine of `bedtools maskfasta`.

pub(crate) mod copy_through;
pub(crate) mod header_name;
pub(crate) mod held_record;
pub(crate) mod mask_how;
pub(crate) mod mask_state;
pub(crate) mod matching;
pub(crate) mod phase;
#[cfg(test)]
mod plain;
pub(crate) mod put_text;
pub(crate) mod taken_record;
pub(crate) mod window;

ghost use Rattle.std.specs.Prelude.{◌≡◌, ◌<◌, ◌⊎◌, [], Bool, None, OnErr, OnOk, Some, false, length, true};
ghost use Rattle.std.specs.List.{last_or};
ghost use Rattle.bt_bed.specs.calls.Bed.{feature_lent};
ghost use Rattle.bt_bed.specs.calls.Orders.{AreInBlocks};
ghost use Rattle.bt_lines.specs.calls.Line.{line_seen};
ghost use Rattle.bt_lines.specs.declared.reader.buffered_lines.BufferedLines.{BufferedLines};
ghost use Rattle.bt_bed.specs.calls.Stage.{given};
ghost use Rattle.bt_seq.specs.calls.MaskStage.{MayComeNext, MaskStage, first_stage, held_by, want_at, with_lines_ended};
ghost use Rattle.bt_seq.specs.calls.MaskSteps.{MaskMovesTo, MaskStandsAt, GivesBoth, DoesNothing, StopsAt, left_to_give, ChecksRecord, EndsCheck, EndsRecords, GivesNextLine, GivesBed};
ghost use Rattle.bt_seq.specs.model.Fasta.{SequenceLine};

use crate::mask::mask_how::MaskHow;
use crate::mask::mask_state::MaskState;
use bt_bed::{BedRef, Cursor, Record, Taken};
use bt_lines::{BufferedLines, Fault, Line, Out, Sink};
use std::alloc::Global;
use std::marker::Model;

/// What a [`Mask`] wants next.
#[derive(Clone, Copy, Debug, PartialEq, Eq)]
pub enum MaskWant {
    /// A line of the FASTA input, or its end.
    Line,
    /// A record of the BED input, or its end.
    Bed,
    /// Nothing more: both inputs have ended, or a fault was returned.
    Nothing,
}

/// Masks the bases of a FASTA input that records of a BED input cover. It is given what it wants
/// ([`Mask::want`]): the lines of the FASTA input and the records of the BED input, each one after
/// another, and finally the end of each. A line is written as soon as no later record can change it.
/// Contiguous records of one chromosome are a block; a block masks the first sequence of
/// its name after that of the block before it. Positions of a sequence count from 0. Only one line is kept,
/// and of the records of its sequence's block those that reach into it. A first fault ends it: then it wants nothing.
#[derive(Drop)]
pub struct Mask {
    // After a fault it wants nothing.
    state: MaskState,
}

impl Model for Mask {
    ghost use Rattle.bt_seq.specs.calls.MaskState.{Masking};

    ghost Value = { Masking };

    ghost view = { λ m. m.state };
}

impl Mask {
    /// An engine that was given nothing. With `full` a sequence's name is its whole header, and else
    /// what comes before the first space or tab. It doesn't allocate.
    pub fn new(alloc: Global, how: MaskHow, full: bool) -> Mask
        ensures stands { MaskMovesTo how full first_stage result }
    {
        Mask {
            state: MaskState::new(alloc, how, full),
        }
    }

    /// What it wants next.
    pub fn want(&self) -> MaskWant
        ensures is { result ≡ self.now.want }
        ensures stage { (stage : MaskStage) → MaskStandsAt stage self.now → result ≡ want_at stage }
    {
        self.state.want()
    }

    /// How many records it holds: those of the sequence's block that start before the end of the line
    /// given last and reach past its start. After the last line none is added, since the records of
    /// a block rise.
    pub fn kept_len(&self) -> usize
        ensures stage { (stage : MaskStage) → MaskStandsAt stage self.now
            → (stage.inputs.first_ended ≡ false) ⊎ AreInBlocks stage.inputs.taken
            → result ≡ length (held_by (last_or None (given stage.inputs)) stage.inputs.taken) }
    {
        let Mask { state } = self;
        state.kept_len()
    }

    /// Takes the next line. It is written at once if the records have ended, if it is a blank line
    /// before the first header, or if it is no header and the record ahead, which wasn't taken,
    /// decides it. Else it waits. It fails with `TextBeforeHeader` if it has text before the first
    /// header, and with `WriteFailed` if it can't be written. It fails with `NoMemory` if a header can't
    /// be named, or a line that waits or is to be masked can't be kept.
    #[tactic(auto, using(crate::proofs::lemmas::mask::steps::LineStepLemmas::gives_line, crate::proofs::lemmas::mask::steps::CopyLemmas::stays_at))]
    pub fn give_line<K: Sink>(&mut self, line: &Line<'_>, out: &mut Out<K>) -> Result<(), Fault>
        requires { self.old.want ≡ MaskWant.Line }
        ensures gives { (stage : MaskStage) → MaskStandsAt stage self.old
            → GivesNextLine self.old.how self.old.full stage (line_seen line.now) out.old.output result self.new out.new.output }
        ensures stops { OnErr result (self.new.want ≡ MaskWant.Nothing) }
    {
        self.state.take_line(line, out)
    }

    /// Takes lines and records, one after another, as long as the next one that it wants is available. It fails as
    /// [`Mask::give_line`] and [`Mask::give_bed`] do. Lines that nothing masks are written together. An engine that wants
    /// nothing takes nothing.
    #[tactic(auto, using(crate::proofs::lemmas::mask::steps::AdvanceLemmas::gave_none))]
    pub fn advance<C: Cursor, K: Sink>(
        &mut self,
        lines: &mut BufferedLines<'_>,
        records: &mut C,
        out: &mut Out<K>,
    ) -> Result<(), Fault>
        ensures gives { GivesBoth C.Cursor self.old lines.old records.old out.old.output result
            self.new lines.new records.new out.new.output }
        ensures stops { OnOk result (StopsAt C.Cursor self.new.want lines.new records.new) }
        ensures idle { self.old.want ≡ MaskWant.Nothing → (result ≡ Ok tt) × DoesNothing self.old lines.old records.old out.old.output
            self.new lines.new records.new out.new.output }
    {
        while self.gives_next(lines, records, out)? {}
        Ok(())
    }

    // Takes what it wants next, and returns true if that is available.
    #[tactic(auto, using(crate::proofs::lemmas::mask::steps::AdvanceLemmas::line_shrinks, crate::proofs::lemmas::mask::steps::AdvanceLemmas::record_shrinks))]
    #[inline(always)]
    fn gives_next<C: Cursor, K: Sink>(
        &mut self,
        lines: &mut BufferedLines<'_>,
        records: &mut C,
        out: &mut Out<K>,
    ) -> Result<bool, Fault>
        ensures gives { GivesBoth C.Cursor self.old lines.old records.old out.old.output result
            self.new lines.new records.new out.new.output }
        ensures stops { result ≡ Ok false → StopsAt C.Cursor self.new.want lines.new records.new }
        ensures shrinks { result ≡ Ok true → left_to_give C.Cursor self.new lines.new records.new
            < left_to_give C.Cursor self.old lines.old records.old }
        ensures idle { self.old.want ≡ MaskWant.Nothing → (result ≡ Ok false) × DoesNothing self.old lines.old records.old out.old.output
            self.new lines.new records.new out.new.output }
    {
        match self.want() {
            MaskWant::Line => self.state.give_lines::<C, K>(lines, out),
            MaskWant::Bed => self.give_record(records, out),
            MaskWant::Nothing => Ok(false),
        }
    }

    // Takes the next record, if there is one, unless it decides the line that waits. Whatever lines are buffered, they stay.
    #[tactic(auto, using(crate::proofs::lemmas::mask::steps::AdvanceLemmas::gave_none))]
    #[inline(always)]
    fn give_record<C: Cursor, K: Sink>(
        &mut self,
        records: &mut C,
        out: &mut Out<K>,
    ) -> Result<bool, Fault>
        requires { self.old.want ≡ MaskWant.Bed }
        ensures gives { (lines : BufferedLines) → GivesBoth C.Cursor self.old lines records.old out.old.output result
            self.new lines records.new out.new.output }
        ensures stops { result ≡ Ok false → C.has_ended records.new × (self.new.want ≡ MaskWant.Bed) }
        ensures shrinks { result ≡ Ok true → (C.room records.new < C.room records.old)
            ⊎ ((records.new ≡ records.old) × (self.new.want ≡ MaskWant.Line)) }
    {
        let mut later = *records;
        let Some(next) = later.next() else {
            return Ok(false);
        };
        match self.give_bed(&next.bed(), later.line(), out)? {
            Taken::Yes => {
                *records = later;
                Ok(true)
            }
            Taken::No => Ok(true),
        }
    }

    /// Takes the end of the lines. Nothing is written. Records are wanted until they end: each has
    /// to belong to a sequence.
    pub fn end_lines(&mut self)
        requires { self.old.want ≡ MaskWant.Line }
        ensures stands { (stage : MaskStage) → MaskStandsAt stage self.old
            → MaskMovesTo self.old.how self.old.full (with_lines_ended stage) self.new }
    {
        self.state.end_lines();
    }

    /// Takes the next record, which is on this line, counted from 1, unless it decides the line that waits: then
    /// that is written, and the record is to be given again. It fails with `WriteFailed` if the line
    /// can't be written, and with `NoMemory` if the record has to be held and can't be. After the
    /// last line it fails with `NoSequence` if its block belongs to no sequence. For a record that neither
    /// decides nor has to be held it doesn't allocate.
    #[tactic(auto, using(crate::proofs::lemmas::mask::steps::BedStepLemmas::gives_bed, crate::proofs::lemmas::mask::steps::BedStepLemmas::kept_is))]
    pub fn give_bed<K: Sink>(
        &mut self,
        bed: &BedRef<'_>,
        line: u64,
        out: &mut Out<K>,
    ) -> Result<Taken, Fault>
        requires { self.old.want ≡ MaskWant.Bed }
        ensures waits { (stage : MaskStage) (waiting : SequenceLine)
            → MaskStandsAt stage self.old → stage.inputs.waiting ≡ Some waiting
            → MayComeNext stage.ahead (feature_lent bed.now)
            → GivesBed self.old.how self.old.full stage waiting (feature_lent bed.now) out.old.output result self.new out.new.output }
        ensures none_waits { (stage : MaskStage)
            → MaskStandsAt stage self.old → stage.inputs.waiting ≡ None
            → MayComeNext stage.ahead (feature_lent bed.now)
            → ChecksRecord self.old.how self.old.full stage (feature_lent bed.now) line out.old.output result self.new out.new.output }
        ensures stops { OnErr result (self.new.want ≡ MaskWant.Nothing) }
        ensures leaves { result ≡ Ok Taken.No → self.new.want ≡ MaskWant.Line }
    {
        if self.state.waits() {
            return self.state.take_bed(bed, out);
        }
        self.state.check_bed(bed, line)?;
        Ok(Taken::Yes)
    }

    /// Takes the end of the records, and writes the line that waits. It fails with `WriteFailed` if
    /// that can't be written.
    #[tactic(auto, using(crate::proofs::lemmas::mask::steps::BedStepLemmas::ends_bed, crate::proofs::lemmas::mask::steps::BedStepLemmas::kept_is, crate::proofs::lemmas::mask::steps::CopyLemmas::stays_at))]
    pub fn end_bed<K: Sink>(&mut self, out: &mut Out<K>) -> Result<(), Fault>
        requires { self.old.want ≡ MaskWant.Bed }
        ensures waits { (stage : MaskStage) (waiting : SequenceLine)
            → MaskStandsAt stage self.old → stage.inputs.waiting ≡ Some waiting
            → EndsRecords self.old.how self.old.full stage waiting out.old.output result self.new out.new.output }
        ensures none_waits { (stage : MaskStage)
            → MaskStandsAt stage self.old → stage.inputs.waiting ≡ None
            → EndsCheck self.old.how self.old.full stage out.old.output result self.new out.new.output }
        ensures stops { OnErr result (self.new.want ≡ MaskWant.Nothing) }
    {
        self.state.end_bed(out)
    }
}

#[cfg(test)]
mod tests;
