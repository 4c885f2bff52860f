//! Records that a reader has buffered.

ghost use Rattle.std.specs.Prelude.{◌≡◌, ◌-◌, ◌<◌, ◌≤◌, IfNone, IfSome, IsTrue, drop, false, get_or, length, nat_eq};
ghost use Rattle.std.specs.Io.BufRead.{strip_last};
ghost use Rattle.bt_lines.specs.calls.Reader.{rest_in};
ghost use Rattle.bt_bed.specs.inside.FirstColumns.{EndsFirst, HasKey, IsRecordName, SaysBounds};
ghost use Rattle.bt_bed.specs.calls.Bed.{is_on};
ghost use Rattle.bt_bed.specs.model.BedLine.{record_of};

use crate::parse::columns::{FirstColumns, LOOKAHEAD, begins_with_long, scan_columns};
use crate::parse::names::is_same_name;
use crate::parse::packed_name::PackedName;
use crate::parse::parsing::parse_bed;
use crate::read::cursor::Cursor;
use crate::record::kept_strand::behind;
use crate::record::raw_record::{ParsedNumber, RawRecord};
use bt_lines::{BufferedLines, ConsumedLines, first_tab, without_return};

/// Records that a reader has buffered, of one chromosome and in order, as a cursor over them. It ends before the first line
/// that isn't such a record's. What was consumed is reported to the reader ([`Records::consume`](crate::Records::consume)).
#[derive(Clone, Copy, Debug)]
pub struct Batch<'a> {
    lines: BufferedLines<'a>,
    // The chromosome.
    name: &'a [u8],
    // By which a line on it is recognized.
    key: PackedName,
    // The start of the record before, or 0.
    start: u64,
    ghost named: { 0 < length (rest_in lines) → IsRecordName name.now },
    ghost keyed: { HasKey name.now key },
}

/// What was consumed of the records that a reader had buffered.
#[derive(Clone, Copy, Debug)]
pub struct Consumed {
    pub(crate) lines: ConsumedLines,
    // The start of the record consumed last.
    pub(crate) start: u64,
    // Whether another one follows.
    pub(crate) is_ahead: bool,
}

#[tactic(auto, unfolding(crate::specs::calls::Batch::left, crate::specs::calls::Batch::left_after, crate::specs::calls::Batch::chrom_in, crate::specs::calls::Batch::start_in, crate::specs::calls::Batch::line_in, crate::specs::calls::Batch::cursor_in, crate::specs::calls::Bed::text_in))]
impl<'a> Batch<'a> {
    ghost use Rattle.std.specs.Prelude.{◌≡◌, ◌<◌, ◌≤◌, ◌∷◌, ◌++◌, [], IfNone, IfSome, false, length, take};
    ghost use Rattle.std.specs.Io.BufRead.{strip_last};
    ghost use Rattle.bt_lines.specs.calls.Reader.{lines_in, rest_in};
    ghost use Rattle.bt_bed.specs.calls.Batch.{IsWhere, Passes, StandsFirst, chrom_in, consumed_in, cursor_in, left, line_in, start_in};
    ghost use Rattle.bt_bed.specs.inside.FirstColumns.{HasKey, IsRecordName, SaysBounds};
    ghost use Rattle.bt_bed.specs.calls.Bed.{IsOnLine, raw_in, record_in, is_on, run_of};
    ghost use Rattle.bt_bed.specs.model.BedLine.{record_of};

    // The records of these lines on the chromosome of this name and key, from this start on.
    pub(crate) fn new(
        lines: BufferedLines<'a>,
        name: &'a [u8],
        key: PackedName,
        start: u64,
    ) -> Batch<'a>
        requires name { 0 < length (rest_in lines) → IsRecordName name.now }
        requires key { HasKey name.now key }
        ensures left { left result ≡ run_of name.now start (lines_in lines.entry) }
        ensures cursor { cursor_in result ≡ lines.entry }
        ensures chrom { chrom_in result ≡ name.now }
        ensures start { start_in result ≡ start }
    {
        Batch {
            lines,
            name,
            key,
            start,
        }
    }

    /// The next record, which is consumed.
    #[inline(always)]
    pub fn next(&mut self) -> Option<RawRecord<'a>>
        ensures some { IfSome result (λ r. Passes self.old (record_in r ∷ []) self.new) }
        ensures on { IfSome result (λ r. (record_in r).chrom ≡ chrom_in self.old) }
        ensures line { IfSome result (λ r. consumed_in self.new ≡ consumed_in self.old ++ raw_in r) }
        ensures none { IfNone result (left self.old ≡ []) }
        ensures unchanged { IfNone result (self.new ≡ self.old) }
    {
        let record = self.first()?;
        self.lines.consume(record.line.len() + 1);
        self.start = record.start.value;
        Some(record)
    }

    /// The next record, which isn't consumed. Its first three columns are scanned in the buffer; the line is parsed if the
    /// scan declines.
    #[inline(always)]
    pub fn first(&self) -> Option<RawRecord<'a>>
        ensures some { IfSome result (StandsFirst self.now) }
        ensures on { IfSome result (λ r. (record_in r).chrom ≡ chrom_in self.now) }
        ensures none { IfNone result (left self.now ≡ []) }
    {
        let line = self.lines.first_line();
        let record = self.read(line)?;
        if record.start.value < self.start {
            return None;
        }
        Some(record)
    }

    // The record of the next line, which is this one, if it lies on the chromosome: by a scan, or else by the parser.
    #[inline(always)]
    fn read(&self, line: &'a [u8]) -> Option<RawRecord<'a>>
        requires { take (length line.now) (rest_in (cursor_in self.now)) ≡ line.now }
        ensures some { IfSome result (IsOnLine line.now (chrom_in self.now)) }
        ensures none { IfNone result (is_on (chrom_in self.now) (record_of (strip_last 13 line.now)) ≡ false) }
    {
        let columns = match self.scan(line) {
            Some(columns) => columns,
            None => parsed_columns(line, self.name)?,
        };
        Some(RawRecord {
            line,
            name: self.name.len(),
            start: columns.start,
            stop: columns.stop,
        })
    }

    // The bounds by a scan of the first columns; `None` says nothing.
    #[inline(always)]
    fn scan(&self, line: &'a [u8]) -> Option<FirstColumns>
        requires { take (length line.now) (rest_in (cursor_in self.now)) ≡ line.now }
        ensures { IfSome result (λ columns. SaysBounds (strip_last 13 line.now) (chrom_in self.now) columns.start columns.stop) }
    {
        let rest = self.lines.rest();
        if rest.len() < self.name.len() + LOOKAHEAD {
            return None;
        }
        let columns = scan_columns(rest, self.name, self.key)?;
        let end = self.name.len() + columns.start.end + columns.stop.end + 2;
        if !ends_column(line, end) {
            return None;
        }
        Some(columns)
    }

    /// What was consumed.
    #[inline(never)]
    pub fn consumed(&self) -> Consumed
        ensures { IsWhere self.now result }
    {
        Consumed {
            lines: self.lines.consumed(),
            start: self.start,
            is_ahead: self.first().is_some(),
        }
    }
}

#[tactic(auto, unfolding(crate::specs::calls::Batch::chrom_in, crate::specs::calls::Batch::line_in))]
impl<'a> Cursor for Batch<'a> {
    ghost use Rattle.bt_bed.specs.calls.Batch.{HasEnded, Passes, batch_room, chrom_in, consumed_in, line_in};
    ghost use Rattle.bt_bed.specs.calls.CursorLaws.{batch_gives_more, batch_gives_none, batch_gives_same};

    type Record = RawRecord<'a>;

    ghost name = { chrom_in };

    ghost gives = { Passes };

    ghost has_ended = { HasEnded };

    ghost room = { batch_room };

    ghost line = { line_in };

    ghost consumed = { consumed_in };

    #[inline(always)]
    fn chrom(&self) -> &[u8] {
        self.name
    }

    #[inline(always)]
    fn line(&self) -> u64 {
        self.lines.lines()
    }

    #[inline(always)]
    fn offset(&self) -> usize {
        self.lines.offset()
    }

    #[inline(always)]
    fn between(&self, from: usize, to: usize) -> &[u8] {
        self.lines.between(from, to)
    }

    #[inline(always)]
    fn next(&mut self) -> Option<RawRecord<'a>> {
        self.next()
    }

    ghost gives_none = { batch_gives_none };

    ghost gives_more = { batch_gives_more };

    ghost gives_same = { batch_gives_same };
}

// Whether the column of a line that reaches up to `end` ends there. The byte before `end` is no carriage return.
#[inline(always)]
fn ends_column(line: &[u8], end: usize) -> bool
    requires { end ≤ length line.now → get_or line.now (end - 1) 0 ≡ 13 → ⊥ }
    ensures within { IsTrue result → end ≤ length (strip_last 13 line.now) }
    ensures tab { IsTrue result → end < length (strip_last 13 line.now) → get_or (strip_last 13 line.now) end 0 ≡ 9 }
{
    if end < line.len() {
        return line[end] == b'\t' || ends_text(line, end);
    }
    end == line.len()
}

// Whether the text of a line has `end` bytes. Out of line: few lines end by CR LF.
#[cold]
#[inline(never)]
fn ends_text(line: &[u8], end: usize) -> bool
    ensures { result ≡ nat_eq (length (strip_last 13 line.now)) end }
{
    without_return(line).len() == end
}

// The bounds by the parser, if the line says a record on the chromosome of this name. One that begins with another name
// isn't parsed.
#[cold]
#[inline(never)]
#[tactic(auto, using(crate::proofs::lemmas::read::ColumnLemmas::begins_within, crate::proofs::lemmas::read::ColumnLemmas::not_on))]
fn parsed_columns(line: &[u8], name: &[u8]) -> Option<FirstColumns>
    ensures some { IfSome result (λ columns. SaysBounds (strip_last 13 line.now) name.now columns.start columns.stop) }
    ensures none { IfNone result (is_on name.now (record_of (strip_last 13 line.now)) ≡ false) }
{
    let text = without_return(line);
    if text.len() <= name.len() || !begins_with_long(text, name) {
        return None;
    }
    let Ok(Some(bed)) = parse_bed(text) else {
        return None;
    };
    if !is_same_name(bed.chrom, name) {
        return None;
    }
    let start = column_end(text, name.len() + 1);
    let stop = column_end(text, name.len() + start + 2);
    Some(FirstColumns {
        start: ParsedNumber {
            value: bed.start,
            end: start,
        },
        stop: ParsedNumber {
            value: bed.stop,
            end: stop,
        },
    })
}

// Where the column that begins here ends, counted from there.
#[tactic(auto, using(crate::proofs::lemmas::read::ColumnLemmas::alone_ends))]
fn column_end(text: &[u8], from: usize) -> usize
    requires { from ≤ length text.now }
    ensures { EndsFirst (drop from text.now) result }
{
    let rest = behind(text, from);
    match first_tab(rest) {
        Some(end) => end,
        None => rest.len(),
    }
}

#[cfg(test)]
mod tests;
