//! Lines that a reader has buffered.

ghost use Rattle.std.specs.Prelude.{◌≡◌, ◌+◌, ◌≤◌, ◌^◌, [], drop, length, option_map, true};
ghost use Rattle.std.specs.Io.BufRead.{ends_with_byte, strip_last};
ghost use Rattle.bt_lines.specs.calls.Line.{IsFirst, ending_at, line_shown};
ghost use Rattle.bt_lines.specs.inside.Shape.{IsLast, is_fed};

use crate::reader::line::{Line, LineEnd};
use crate::reader::newline::line_length;

/// The complete lines that a reader has buffered, as a cursor over them. What was consumed is reported to the reader
/// ([`LineReader::consume`](crate::LineReader::consume)).
#[derive(Clone, Copy, Debug)]
pub struct BufferedLines<'a> {
    all: &'a [u8],
    // How many of these bytes were consumed.
    at: usize,
    // How many lines were given, those consumed here too.
    lines: u64,
    // Whether the line, which is alone then, has a line feed that isn't one of the text.
    is_open: bool,
    ghost within: { at ≤ length all.now },
    // Each line has a byte.
    ghost a_byte_each: { lines + length all.now ≤ 2 ^ 63 + at },
    ghost fed: { is_fed (drop at all.now) ≡ true },
    ghost last: { IsLast is_open is_open (drop at all.now) [] },
}

/// What was consumed of the lines that a reader had buffered.
#[derive(Clone, Copy, Debug)]
pub struct ConsumedLines {
    /// How many bytes, line feeds included.
    pub bytes: usize,
    /// How many lines the reader has given then.
    pub lines: u64,
}

/// The text of a line, and how many bytes the line has with its end.
#[derive(Clone, Copy, Debug)]
pub struct LineText<'a> {
    pub text: &'a [u8],
    pub size: usize,
}

#[tactic(auto, unfolding(crate::specs::calls::Reader::rest_in, crate::specs::calls::Reader::lines_in))]
impl<'a> BufferedLines<'a> {
    ghost use Rattle.std.specs.Prelude.{◌≡◌, ◌+◌, ◌-◌, ◌≤◌, ◌<◌, ◌^◌, ◌∷◌, [], IfNone, IfSome, drop, length, nat_eq, slice_range, take, true};
    ghost use Rattle.bt_lines.specs.calls.Reader.{BeginsLines, IsWhere, PassesLine, PassesLines, lines_after, lines_in, shown_text_line, rest_in};
    ghost use Rattle.bt_lines.specs.calls.Line.{Cut, Shown, shown_of, line_seen};
    ghost use Rattle.bt_lines.specs.inside.Shape.{IsLast, is_fed};

    // Those of these bytes.
    pub(crate) fn new(all: &'a [u8], lines: u64, is_open: bool) -> BufferedLines<'a>
        requires room { lines + length all.now ≤ 2 ^ 63 }
        requires fed { is_fed all.now ≡ true }
        requires last { IsLast is_open is_open all.now [] }
        ensures begins { BeginsLines all.now lines is_open result }
    {
        BufferedLines {
            all,
            at: 0,
            lines,
            is_open,
        }
    }

    /// A cursor at the same place that has no line left.
    #[inline(always)]
    pub fn none(&self) -> BufferedLines<'a>
        ensures rest { rest_in result ≡ [] }
        ensures left { lines_in result ≡ [] }
        ensures at { result.at ≡ self.now.at }
        ensures lines { result.lines ≡ self.now.lines }
    {
        BufferedLines {
            all: &self.all[..self.at],
            at: self.at,
            lines: self.lines,
            is_open: false,
        }
    }

    /// Whether none is left.
    #[inline(always)]
    pub fn is_empty(&self) -> bool
        ensures { result ≡ nat_eq (length (rest_in self.now)) 0 }
    {
        self.rest().is_empty()
    }

    /// The text of the next line, if there is one. It isn't consumed.
    #[inline(always)]
    pub fn first(&self) -> Option<LineText<'a>>
        ensures cut { IsFirst (rest_in self.now) (option_map line_shown result) }
        ensures some { IfSome result (λ line. lines_in self.now ≡ shown_text_line self.now (line_shown line) ∷ lines_after self.now line.size) }
        ensures none { IfNone result (lines_in self.now ≡ []) }
    {
        if self.is_empty() {
            return None;
        }
        let line = self.first_line();
        Some(LineText {
            text: without_return(line),
            size: line.len() + 1,
        })
    }

    /// The bytes of the next line without its line feed: empty if there is no line. It isn't consumed.
    #[inline(always)]
    pub fn first_line(&self) -> &'a [u8]
        ensures prefix { take (length result.now) (rest_in self.now) ≡ result.now }
        ensures some { 0 < length (rest_in self.now) → Cut (rest_in self.now) (shown_of result.now)
            × (lines_in self.now ≡ shown_text_line self.now (shown_of result.now) ∷ lines_after self.now (length result.now + 1)) }
        ensures none { rest_in self.now ≡ [] → lines_in self.now ≡ [] }
    {
        let rest = self.rest();
        &rest[..line_length(rest)]
    }

    /// The next line, which is consumed.
    #[inline(always)]
    pub fn next(&mut self) -> Option<Line<'a>>
        ensures some { IfSome result (λ line. PassesLine self.old (line_seen line) self.new) }
        ensures passes { IfSome result (λ line. PassesLines self.old 1 self.new) }
        ensures none { IfNone result (lines_in self.old ≡ []) }
        ensures unchanged { IfNone result (self.new ≡ self.old) }
    {
        let LineText { text, size } = self.first()?;
        let ending = ending_of(text.len() + 1 < size, self.is_open);
        self.consume(size);
        Some(Line {
            number: self.lines,
            text,
            ending,
        })
    }

    /// Whether the next line is the last one and has no line feed of its own.
    #[inline(always)]
    pub fn is_open(&self) -> bool
        ensures { result ≡ self.now.is_open }
    {
        self.is_open
    }

    /// Consumes the next line. `size` is how many bytes it has with its line end, as [`BufferedLines::first`] says.
    #[inline(always)]
    pub fn consume(&mut self, size: usize)
        requires { (line : Shown) × Cut (rest_in self.old) line × (line.size ≡ size) }
        ensures rest { rest_in self.new ≡ drop size (rest_in self.old) }
        ensures at { self.new.at ≡ self.old.at + size }
        ensures lines { self.new.lines ≡ self.old.lines + 1 }
        ensures same { (self.new.all ≡ self.old.all) × (self.new.is_open ≡ self.old.is_open) }
        ensures left { lines_in self.new ≡ lines_after self.old size }
        ensures passes { PassesLines self.old 1 self.new }
    {
        self.at += size;
        self.lines += 1;
    }

    /// The bytes of the lines that come.
    #[inline(always)]
    pub fn rest(&self) -> &'a [u8]
        ensures { result.now ≡ rest_in self.now }
    {
        &self.all[self.at..]
    }

    /// How many bytes were consumed of those that the reader had buffered, line ends included.
    #[inline(always)]
    pub fn offset(&self) -> usize
        ensures { result ≡ self.now.at }
    {
        self.at
    }

    /// How many lines were given, those consumed here too.
    #[inline(always)]
    pub fn lines(&self) -> u64
        ensures { result ≡ self.now.lines }
    {
        self.lines
    }

    /// The bytes from one offset to another, both counted from the first byte that the reader had buffered.
    /// `to` isn't included. They may be consumed, or still come.
    #[inline(always)]
    pub fn between(&self, from: usize, to: usize) -> &'a [u8]
        requires ordered { from ≤ to }
        requires within { to ≤ length self.now.all.now }
        ensures { result.now ≡ slice_range self.now.all.now from to }
    {
        &self.all[from..to]
    }

    /// What was consumed, for [`LineReader::consume`](crate::LineReader::consume).
    #[inline(always)]
    pub fn consumed(&self) -> ConsumedLines
        ensures { IsWhere self.now result }
    {
        ConsumedLines {
            bytes: self.at,
            lines: self.lines,
        }
    }
}

// How a line ends, by whether it has a carriage return at its end and whether it lacks a line feed.
#[inline(always)]
pub(crate) fn ending_of(has_return: bool, is_open: bool) -> LineEnd
    ensures { result ≡ ending_at is_open has_return }
{
    match (is_open, has_return) {
        (false, false) => LineEnd::Lf,
        (false, true) => LineEnd::CrLf,
        (true, false) => LineEnd::Absent,
        (true, true) => LineEnd::Cr,
    }
}

/// A line without its line feed, without a carriage return at its end.
#[inline(always)]
pub fn without_return(line: &[u8]) -> &[u8]
    ensures { result.now ≡ strip_last 13 line.now }
{
    if ends_with_return(line) {
        return &line[..line.len() - 1];
    }
    line
}

/// Whether a carriage return ends a line without its line feed.
#[inline(always)]
pub fn ends_with_return(line: &[u8]) -> bool
    ensures { result ≡ ends_with_byte 13 line.now }
{
    line.last() == Some(&b'\r')
}
