//! The lines of a source, one after another.

ghost use Rattle.std.specs.Prelude.{◌≡◌, ◌<◌, ◌≤◌, ◌^◌, ◌+◌, [], false, length};
ghost use Rattle.bt_lines.specs.inside.ReadBuffer.{complete, unread, lends_at, open_at, told_at};
ghost use Rattle.bt_lines.specs.inside.Shape.{IsLast, held_at};

use crate::device::Source;
use crate::fault::faults::no_memory;
use crate::fault::{Fault, Input, Kind, Place};
use crate::reader::buffered_lines::{BufferedLines, ConsumedLines, LineText, ending_of};
use crate::reader::line::Line;
use crate::reader::read_buffer::ReadBuffer;
use crate::reader::spill::{Stop, read_lines};
use std::alloc::Global;

// How far a reader is.
#[derive(Clone, Copy)]
pub(crate) enum State {
    // Before the end of the text.
    Reading,
    // The text has ended with a line that has no line feed.
    LastLine,
    // After the last line.
    Ended,
    // The source failed.
    ReadFailed,
    // The text is too long: a byte past the bound was read, and isn't counted.
    TooLong,
    // The line couldn't grow.
    NoMemory,
}

/// Reads the lines of a source, a block of bytes at a time. `fill` makes a line buffered, or the end, `buffered` borrows
/// the lines, and `consume` takes some of them.
#[derive(Drop)]
pub struct LineReader<S> {
    // Not read after the end or a fault.
    source: S,
    // What the source is called in faults.
    input: Input,
    // What was read ahead, and the text of the last line.
    buffer: ReadBuffer,
    // How many lines were given.
    lines: u64,
    // How many bytes were taken from the source, at most the bound.
    taken: u64,
    state: State,
    ghost counted: { taken < 2 ^ 63 },
    // Each line given has a byte at least, and those that are held are no line's yet.
    ghost a_byte_each: { lines + length (held_at (open_at state) (complete buffer) (unread buffer)) ≤ taken },
    ghost quiet: { lends_at state ≡ false → complete buffer ≡ [] },
    ghost last: { IsLast (told_at state) (open_at state) (complete buffer) (unread buffer) },
}

#[tactic(auto, unfolding(crate::specs::calls::Reader::source_of, crate::specs::calls::Reader::input_of, crate::specs::calls::Reader::lines_given, crate::specs::calls::Reader::bytes_taken, crate::specs::calls::Reader::held, crate::specs::calls::Reader::fault_kept, crate::specs::calls::Reader::has_ended, crate::specs::calls::Reader::end_told, crate::specs::calls::Reader::lines_coming, crate::specs::calls::Reader::feeds_taken, crate::specs::calls::Reader::line_room))]
impl<S: Source> LineReader<S> {
    ghost use Rattle.std.specs.Prelude.{◌≡◌, ℕ, List, suc, ◌<◌, ◌-◌, ◌≤◌, ◌^◌, None, Some, IsSome, Option, Ok, Err, [], false, true};
    ghost use Rattle.std.specs.Borrow.{sem};
    ghost use Rattle.std.specs.Io.BufRead.{Rests};
    ghost use Rattle.bt_lines.specs.contracts.reader.line_reader.LineReader.{the_row};
    ghost use Rattle.bt_lines.specs.calls.Reader.{FillsItsRoom, FillsLines, IsKept, IsPrefix, IsTaken, TakesLines, buffered_bytes, buffered_in, is_open, IsSound, NextLine, feeds_taken, source_of, input_of, lines_given, bytes_taken, held, fault_kept, has_ended, end_told, lines_coming, BeginsLines, lines_in};
    ghost use Rattle.bt_lines.specs.model.Lines.{text_lines};
    ghost use Rattle.bt_lines.specs.model.Fault.{read_failed};
    ghost use Rattle.bt_lines.specs.calls.Names.{fault_value};

    /// A reader of the source's lines, which stands for this input in faults.
    pub fn new(alloc: Global, source: S, input: Input) -> LineReader<S>
        ensures source { source_of result ≡ source }
        ensures input { input_of result ≡ input }
        ensures lines { (rest : List ℕ) → lines_coming rest result ≡ text_lines rest }
        ensures none_given { lines_given result ≡ 0 }
        ensures none_taken { (bytes_taken result ≡ 0) × (held result ≡ []) }
        ensures none_fed { feeds_taken result ≡ 0 }
        ensures sound { IsSound S.Source result }
        ensures going { (fault_kept result ≡ None) × (has_ended result ≡ false) × (end_told result ≡ false) }
    {
        LineReader {
            source,
            input,
            buffer: ReadBuffer::new(alloc),
            lines: 0,
            taken: 0,
            state: State::Reading,
        }
    }

    /// Makes at least one line buffered, and returns true if there is one: there is none at the end of the text. It reads
    /// nothing while one is buffered. It fails as [`LineReader::next`] does.
    #[inline(always)]
    pub fn fill(&mut self) -> Result<bool, Fault>
        ensures fills { FillsLines S.Source self.old result self.new }
        ensures memory { FillsItsRoom self.old result self.new }
    {
        if !self.buffer.lines().is_empty() {
            return Ok(true);
        }
        self.read_on()
    }

    /// The lines that are buffered.
    #[inline(always)]
    pub fn buffered(&self) -> BufferedLines<'_>
        ensures begins { BeginsLines (buffered_bytes self.now) (lines_given self.now) (is_open self.now) result }
        ensures lines { lines_in result ≡ buffered_in self.now }
        ensures prefix { IsPrefix self.now }
    {
        BufferedLines::new(self.buffer.lines(), self.lines, self.is_open())
    }

    /// Takes the lines that were consumed of what [`LineReader::buffered`] gave. It reads nothing and can't fail.
    pub fn consume(&mut self, consumed: ConsumedLines)
        requires { IsTaken self.old consumed }
        ensures { TakesLines S.Source self.old consumed self.new }
    {
        self.buffer.consume(consumed.bytes);
        self.lines = consumed.lines;
    }

    /// The next line, or none at the end of the text: `fill`, the first of those buffered, and `consume` of one. If the
    /// source failed in this call or gave more than 2^63 - 1 bytes, it fails with `ReadFailed`, at the line after the last
    /// one given. If the line's buffer has to grow and can't, it fails with `NoMemory`. A fault is returned again, and
    /// after it and after the end nothing is read.
    #[inline(always)]
    pub fn next(&mut self) -> Result<Option<Line<'_>>, Fault>
        ensures* after { sem 𝓛 (Rests (the_row S.row) self.entry (λ new.
            NextLine S.Source self.old result new)) }
    {
        if !self.fill()? {
            return Ok(None);
        }
        let Some(LineText { text, size }) = self.buffered().first() else {
            return Ok(None);
        };
        let count = text.len();
        let ending = ending_of(count + 1 < size, self.is_open());
        self.buffer.consume(size);
        self.lines += 1;
        Ok(Some(Line {
            number: self.lines,
            text: self.buffer.consumed(size, count),
            ending,
        }))
    }

    /// How many lines were given.
    #[inline(always)]
    pub fn lines(&self) -> u64
        ensures { result ≡ lines_given self.now }
    {
        self.lines
    }

    /// The input that the reader stands for.
    pub fn input(&self) -> Input
        ensures { result ≡ input_of self.now }
    {
        self.input
    }

    /// Gives back the source. What was taken from it and not given as lines is lost.
    pub fn into_source(self) -> S
        ensures { result ≡ source_of self }
    {
        let LineReader { source, .. } = self;
        source
    }

    // Whether the last line buffered has no line feed of its own.
    fn is_open(&self) -> bool
        ensures { result ≡ open_at self.now.state }
    {
        matches!(self.state, State::LastLine)
    }

    // The fault that ended the reading: a failed read lies at the line after those given.
    #[inline(always)]
    fn fault(&self) -> Fault
        requires { IsSome (fault_kept self.now) }
        ensures { fault_kept self.now ≡ Some (fault_value result) }
    {
        if matches!(self.state, State::NoMemory) {
            return no_memory();
        }
        let place = Place {
            input: self.input,
            line: self.lines + 1,
        };
        Fault {
            kind: Kind::ReadFailed,
            place: Some(place),
        }
    }

    // Makes a line buffered, or the end, if none is.
    #[cold]
    #[inline(never)]
    fn read_on(&mut self) -> Result<bool, Fault>
        requires { complete self.old.buffer ≡ [] }
        ensures fills { FillsLines S.Source self.old result self.new }
        ensures memory { FillsItsRoom self.old result self.new }
    {
        match self.state {
            State::Reading => self.read_more(),
            State::LastLine => {
                self.state = State::Ended;
                Ok(false)
            }
            State::Ended => Ok(false),
            State::ReadFailed | State::TooLong | State::NoMemory => Err(self.fault()),
        }
    }

    // Reads on until a line is buffered, or the text ends. The state is `Reading`.
    fn read_more(&mut self) -> Result<bool, Fault>
        requires none { complete self.old.buffer ≡ [] }
        requires going { self.old.state ≡ State.Reading }
        ensures fills { FillsLines S.Source self.old result self.new }
        ensures memory { FillsItsRoom self.old result self.new }
    {
        match read_lines(&mut self.source, &mut self.buffer, &mut self.taken) {
            Stop::LineFeed => Ok(true),
            Stop::End if self.buffer.lines().is_empty() => {
                self.state = State::Ended;
                Ok(false)
            }
            Stop::End => {
                self.state = State::LastLine;
                Ok(true)
            }
            Stop::Failed => {
                self.state = State::ReadFailed;
                Err(self.fault())
            }
            Stop::TooLong => {
                self.state = State::TooLong;
                Err(self.fault())
            }
            Stop::NoMemory => {
                self.state = State::NoMemory;
                Err(self.fault())
            }
        }
    }
}
