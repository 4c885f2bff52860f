//! The bytes that a reader has buffered.

ghost use Rattle.std.specs.Prelude.{◌≡◌, ◌+◌, ◌-◌, ◌<◌, ◌≤◌, ◌++◌, cond, drop, length, slice_range, take, vec_capacity, IfOk, OnOk, OnErr, true};
ghost use Rattle.bt_lines.specs.calls.Output.{block_size};
ghost use Rattle.bt_lines.specs.inside.Shape.{AreComplete, IsSearched};

use crate::device::{BLOCK, DeviceFailed, Source};
use crate::reader::newline::line_length;
use memchr::memrchr;
use std::alloc::{AllocError, Global};

// Complete lines, and what was read after them. The lines are `start..whole` of the block, or if a line is longer than
// the block what comes from `start` on of `spilled`; `whole..end` of the block comes after them.
#[derive(Drop)]
pub(crate) struct ReadBuffer {
    bytes: [u8; BLOCK],
    start: usize,
    whole: usize,
    end: usize,
    // Up to here there is no line feed after the lines.
    searched: usize,
    // A line that is longer than the block, with a line feed.
    spilled: Vec<u8>,
    is_spilled: bool,
    ghost ordered: { start ≤ cond is_spilled (length spilled.items) whole },
    ghost whole_searched: { whole ≤ searched },
    ghost searched_within: { searched ≤ end },
    ghost within: { end ≤ block_size },
    ghost clear: { IsSearched (slice_range bytes whole searched) },
    ghost are_complete: { AreComplete is_spilled (cond is_spilled (drop start spilled.items) (slice_range bytes start whole)) },
}

#[tactic(auto, unfolding(crate::specs::inside::ReadBuffer::complete, crate::specs::inside::ReadBuffer::unread, crate::specs::inside::ReadBuffer::gone))]
impl ReadBuffer {
    ghost use Rattle.std.specs.Prelude.{◌≡◌, ℕ, List, ◌+◌, ◌<◌, ◌≤◌, ◌++◌, ◌∷◌, [], drop, false, length, nat_eq, take, vec_capacity, IfOk, OnOk, OnErr, Some, None};
    ghost use Rattle.bt_lines.specs.inside.ReadBuffer.{FindsLines, MovesPiece, complete, gone, unread};
    ghost use Rattle.bt_lines.specs.inside.Shape.{is_fed};
    ghost use Rattle.bt_lines.specs.calls.Line.{line_feeds};
    ghost use Rattle.bt_lines.specs.inside.Spill.{closed};

    // No byte.
    pub(crate) fn new(alloc: Global) -> ReadBuffer
        ensures none { complete result ≡ [] }
        ensures unread { unread result ≡ [] }
        ensures plain { result.is_spilled ≡ false }
    {
        ReadBuffer {
            bytes: [0; BLOCK],
            start: 0,
            whole: 0,
            end: 0,
            searched: 0,
            spilled: Vec::new(alloc),
            is_spilled: false,
        }
    }

    // The complete lines.
    #[inline(always)]
    pub(crate) fn lines(&self) -> &[u8]
        ensures { result.now ≡ complete self.now }
    {
        if self.is_spilled {
            return &self.spilled[self.start..];
        }
        &self.bytes[self.start..self.whole]
    }

    // The first `count` of the last `size` bytes that were consumed. They stay until more is read.
    pub(crate) fn consumed(&self, size: usize, count: usize) -> &[u8]
        requires size { size ≤ length (gone self.now) }
        requires count { count ≤ size }
        ensures { result.now ≡ take count (drop (length (gone self.now) - size) (gone self.now)) }
    {
        let from = self.start - size;
        if self.is_spilled {
            return &self.spilled[from..from + count];
        }
        &self.bytes[from..from + count]
    }

    // Takes bytes from the start of the lines.
    pub(crate) fn consume(&mut self, count: usize)
        requires { count ≤ length (complete self.old) }
        ensures lines { complete self.new ≡ drop count (complete self.old) }
        ensures gone { gone self.new ≡ gone self.old ++ take count (complete self.old) }
        ensures unread { unread self.new ≡ unread self.old }
        ensures spilled { self.new.is_spilled ≡ self.old.is_spilled }
    {
        self.start += count;
    }

    // If no complete line is left, finds those in what was read after them.
    pub(crate) fn find_lines(&mut self) -> bool
        requires { complete self.old ≡ [] }
        ensures finds { FindsLines self.old result self.new }
        ensures spilled { self.new.spilled ≡ self.old.spilled }
        ensures plain { result ≡ true → self.new.is_spilled ≡ false }
    {
        let from = self.searched;
        let Some(last) = memrchr(b'\n', &self.bytes[from..self.end]) else {
            self.searched = self.end;
            return false;
        };
        self.is_spilled = false;
        self.start = self.whole;
        self.whole = from + last + 1;
        self.searched = self.end;
        true
    }

    // Whether what was read after the lines fills the block.
    pub(crate) fn is_full(&self) -> bool
        ensures { result ≡ nat_eq (length (unread self.now)) block_size }
    {
        self.end - self.whole == BLOCK
    }

    // If no complete line is left, moves what was read after them to the start of the block, and reads up to `most`
    // bytes after it.
    pub(crate) fn read_more<S: Source>(
        &mut self,
        source: &mut S,
        most: u64,
    ) -> Result<usize, DeviceFailed>
        requires none { complete self.old ≡ [] }
        requires some { 0 < most }
        requires room { length (unread self.old) < block_size }
        ensures bytes { IfOk result (λ n. n ≤ most × ((piece : List ℕ) × (n ≡ length piece)
            × (unread self.new ≡ unread self.old ++ piece)
            × S.is_read source.old (Some piece) source.new)) }
        ensures served { OnOk result (S.has_failed source.new ≡ S.has_failed source.old) }
        ensures failed { OnErr result ((S.has_failed source.new ≡ true) × (unread self.new ≡ unread self.old)) }
        ensures none { complete self.new ≡ [] }
        ensures plain { self.new.is_spilled ≡ false }
        ensures front { self.new.whole ≡ 0 }
        ensures spilled { self.new.spilled ≡ self.old.spilled }
        ensures refused { OnErr result (S.is_read source.old None source.new) }
    {
        self.move_front();
        let room = BLOCK - self.end;
        let most = (room as u64).min(most) as usize;
        let count = read_behind(source, &mut self.bytes, self.end, most)?;
        self.end += count;
        Ok(count)
    }

    // If no complete line is left, ends the text: a last line without a line feed is given one.
    pub(crate) fn end_text(&mut self)
        requires none { complete self.old ≡ [] }
        requires room { length (unread self.old) < block_size }
        requires front { self.old.whole ≡ 0 }
        ensures lines { complete self.new ≡ closed (unread self.old) }
        ensures unread { unread self.new ≡ [] }
    {
        if self.whole == self.end {
            return;
        }
        self.bytes[self.end] = b'\n';
        self.is_spilled = false;
        self.start = self.whole;
        self.end += 1;
        self.whole = self.end;
        self.searched = self.end;
    }

    // Clears the vector for a line that is longer than the block.
    pub(crate) fn begin_spill(&mut self)
        requires { complete self.old ≡ [] }
        ensures none { complete self.new ≡ [] }
        ensures unread { unread self.new ≡ unread self.old }
        ensures plain { self.new.is_spilled ≡ false }
        ensures empty { self.new.spilled.items ≡ [] }
        ensures room { vec_capacity self.new.spilled ≡ vec_capacity self.old.spilled }
    {
        self.clear_lines();
        self.spilled.clear();
    }

    // Moves what was read up to its first line feed, or else all, to the end of the vector. Returns true if there was a
    // line feed.
    pub(crate) fn spill(&mut self) -> Result<bool, AllocError>
        requires none { complete self.old ≡ [] }
        requires plain { self.old.is_spilled ≡ false }
        ensures moves { MovesPiece (unread self.old) self.old.spilled.items result (unread self.new) self.new.spilled.items }
        ensures none { complete self.new ≡ [] }
        ensures plain { self.new.is_spilled ≡ false }
        ensures room { vec_capacity self.old.spilled ≤ vec_capacity self.new.spilled }
        ensures full { OnErr result (vec_capacity self.old.spilled < length self.old.spilled.items + length (unread self.old)) }
    {
        let from = self.whole;
        let feed = from + line_length(&self.bytes[from..self.end]);
        if feed == self.end {
            append_part(&mut self.spilled, &self.bytes, from, self.end)?;
            self.clear_unread();
            return Ok(false);
        }
        let line = feed + 1;
        append_part(&mut self.spilled, &self.bytes, from, line)?;
        self.whole = line;
        self.start = line;
        self.searched = line;
        Ok(true)
    }

    // Drops what was read after the lines.
    pub(crate) fn clear_unread(&mut self)
        ensures lines { complete self.new ≡ complete self.old }
        ensures unread { unread self.new ≡ [] }
        ensures whole { self.new.whole ≡ self.old.whole }
        ensures plain { self.new.is_spilled ≡ self.old.is_spilled }
        ensures spilled { self.new.spilled ≡ self.old.spilled }
    {
        self.end = self.whole;
        self.searched = self.whole;
    }

    // Ends a last line in the vector by a line feed.
    pub(crate) fn end_spilled(&mut self) -> Result<(), AllocError>
        requires { self.old.is_spilled ≡ false }
        ensures ended { OnOk result (self.new.spilled.items ≡ self.old.spilled.items ++ 10 ∷ []) }
        ensures full { OnErr result (vec_capacity self.old.spilled ≤ length self.old.spilled.items) }
        ensures lines { complete self.new ≡ complete self.old }
        ensures unread { unread self.new ≡ unread self.old }
        ensures plain { self.new.is_spilled ≡ false }
    {
        self.spilled.extend_from_slice(b"\n")
    }

    // The line in the vector is the complete one.
    pub(crate) fn use_spilled(&mut self)
        requires fed { is_fed self.old.spilled.items ≡ true }
        requires one { line_feeds self.old.spilled.items ≤ 1 }
        ensures lines { complete self.new ≡ self.old.spilled.items }
        ensures unread { unread self.new ≡ unread self.old }
    {
        self.is_spilled = true;
        self.start = 0;
    }

    // No complete line.
    fn clear_lines(&mut self)
        ensures none { complete self.new ≡ [] }
        ensures unread { unread self.new ≡ unread self.old }
        ensures plain { self.new.is_spilled ≡ false }
        ensures spilled { self.new.spilled ≡ self.old.spilled }
        ensures whole { (self.new.whole ≡ self.old.whole) × (self.new.start ≡ self.old.whole) }
        ensures searched { (self.new.searched ≡ self.old.searched) × (self.new.end ≡ self.old.end) × (self.new.bytes ≡ self.old.bytes) }
    {
        self.is_spilled = false;
        self.start = self.whole;
    }

    // Moves what was read after the lines to the start of the block.
    fn move_front(&mut self)
        ensures none { complete self.new ≡ [] }
        ensures unread { unread self.new ≡ unread self.old }
        ensures front { self.new.whole ≡ 0 }
        ensures end { self.new.end ≡ length (unread self.old) }
        ensures plain { self.new.is_spilled ≡ false }
        ensures spilled { self.new.spilled ≡ self.old.spilled }
    {
        if self.whole == 0 {
            self.clear_lines();
            return;
        }
        self.bytes.copy_within(self.whole..self.end, 0);
        self.is_spilled = false;
        self.start = 0;
        self.end -= self.whole;
        self.searched -= self.whole;
        self.whole = 0;
    }
}

// Adds the bytes from one place to another to the end of a vector.
fn append_part(
    to: &mut Vec<u8>,
    bytes: &[u8; BLOCK],
    from: usize,
    stop: usize,
) -> Result<(), AllocError>
    requires ordered { from ≤ stop }
    requires within { stop ≤ block_size }
    ensures added { OnOk result (to.new.items ≡ to.old.items ++ slice_range bytes.now from stop) }
    ensures same { OnErr result (to.new.items ≡ to.old.items) }
    ensures room { vec_capacity to.old ≤ vec_capacity to.new }
    ensures full { OnErr result (vec_capacity to.old < length to.old.items + (stop - from)) }
{
    to.extend_from_slice(&bytes[from..stop])
}

// Reads up to `most` bytes after the first ones.
fn read_behind<S: Source>(
    source: &mut S,
    bytes: &mut [u8; BLOCK],
    from: usize,
    most: usize,
) -> Result<usize, DeviceFailed>
    requires some { 0 < most }
    requires fits { from + most ≤ block_size }
    ensures count { IfOk result (λ n. n ≤ most) }
    ensures size { length bytes.new ≡ 8192 }
    ensures before { take from bytes.new ≡ take from bytes.old }
    ensures served { OnOk result (S.has_failed source.new ≡ S.has_failed source.old) }
    ensures failed { OnErr result (S.has_failed source.new ≡ true) }
    ensures handed { IfOk result (λ n. S.is_read source.old (Some (slice_range bytes.new from (from + n))) source.new) }
    ensures refused { OnErr result (S.is_read source.old None source.new) }
{
    source.read(&mut bytes[from..from + most])
}
