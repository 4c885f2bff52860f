//! The bytes that an output holds back.

ghost use Rattle.std.specs.Prelude.{◌≡◌, ◌+◌, ◌-◌, ◌≤◌, ◌<◌, ◌++◌, ℕ, List, [], ◌∷◌, false, length, take, true};
ghost use Rattle.bt_lines.specs.inside.Copying.{IsShort};
ghost use Rattle.bt_lines.specs.calls.Output.{block_size, span_text};

use crate::device::BLOCK;
use crate::numbers::number_column::{COLUMN, write_column};
use crate::writer::copying::{copy_end, copy_short, copy_wide, is_end, is_wide};
use std::marker::Model;
use std::simd::prelude::*;

// Where the byte that ends a start and a stop is first written: there is room for both before it.
const LAST: usize = 2 * COLUMN;

// How many bytes are moved at once: a start and a stop of any length, and the byte that ends them.
const MOVED: usize = 64;

// The room for what is written after a name.
pub(crate) const SPAN_ROOM: usize = LAST + MOVED;

// Its first `len` bytes are held back.
#[derive(Drop)]
pub(crate) struct WriteBuffer {
    // Those after the first `len` are unspecified.
    bytes: [u8; BLOCK],
    // At most the block.
    len: usize,
}

impl Model for WriteBuffer {
    ghost use Rattle.std.specs.Prelude.{ℕ, List, ◌≤◌, take};
    ghost use Rattle.bt_lines.specs.calls.Output.{block_size};

    ghost Value = { List ℕ };

    ghost view = { λ held. take held.len held.bytes };

    ghost invariant = { λ held. held.len ≤ block_size };
}

impl WriteBuffer {
    // Nothing is held back.
    pub(crate) fn new() -> WriteBuffer
        ensures { result ≡ [] }
    {
        WriteBuffer {
            bytes: [0; BLOCK],
            len: 0,
        }
    }

    // How many bytes fit after those that are held back.
    pub(crate) fn room(&self) -> usize
        ensures { result + length self.now ≡ block_size }
    {
        BLOCK - self.len
    }

    // The bytes that are held back.
    pub(crate) fn as_slice(&self) -> &[u8]
        ensures { result.now ≡ self.now }
    {
        &self.bytes[..self.len]
    }

    // Holds back a piece too.
    #[inline]
    pub(crate) fn append(&mut self, piece: &[u8])
        requires { length self.old + length piece.now ≤ block_size }
        ensures { self.new ≡ self.old ++ piece.now }
    {
        let len = self.len;
        self.bytes[len..len + piece.len()].copy_from_slice(piece);
        self.len = len + piece.len();
    }

    // Holds back two pieces too, of which the second may be a single byte.
    #[inline(always)]
    pub(crate) fn append_both(&mut self, piece: &[u8], end: &[u8])
        requires { length self.old + (length piece.now + length end.now) ≤ block_size }
        ensures { self.new ≡ self.old ++ (piece.now ++ end.now) }
    {
        if !is_wide(piece.len()) || !is_end(end.len()) {
            return self.append_any(piece, end);
        }
        let len = self.len;
        let middle = len + piece.len();
        let stop = middle + end.len();
        copy_wide(&mut self.bytes[len..middle], piece);
        copy_end(&mut self.bytes[middle..stop], end);
        self.len = stop;
    }

    // Holds back two short pieces too.
    #[inline(always)]
    pub(crate) fn append_short(&mut self, piece: &[u8], next: &[u8])
        requires piece { IsShort (length piece.now) }
        requires next { IsShort (length next.now) }
        requires room { length self.old + (length piece.now + length next.now) ≤ block_size }
        ensures { self.new ≡ self.old ++ (piece.now ++ next.now) }
    {
        let len = self.len;
        let middle = len + piece.len();
        let stop = middle + next.len();
        copy_short(&mut self.bytes[len..middle], piece);
        copy_short(&mut self.bytes[middle..stop], next);
        self.len = stop;
    }

    // Holds back the first columns of a line too: a short name, a start and a stop, and a byte that ends them.
    #[inline(always)]
    pub(crate) fn append_span(&mut self, name: &[u8], start: u64, stop: u64, end: u8)
        requires name { IsShort (length name.now) }
        requires room { length self.old + (length name.now + SPAN_ROOM) ≤ block_size }
        ensures { self.new ≡ self.old ++ (name.now ++ span_text start stop end) }
    {
        let len = self.len;
        let middle = len + name.len();
        copy_short(&mut self.bytes[len..middle], name);
        let size = write_span(start, stop, end, &mut self.bytes[middle..]);
        self.len = middle + size;
    }

    // Holds back two pieces too, of any length.
    #[inline(never)]
    fn append_any(&mut self, piece: &[u8], end: &[u8])
        requires { length self.old + (length piece.now + length end.now) ≤ block_size }
        ensures { self.new ≡ self.old ++ (piece.now ++ end.now) }
    {
        self.append(piece);
        self.append(end);
    }

    // Drops all.
    pub(crate) fn clear(&mut self)
        ensures { self.new ≡ [] }
    {
        self.len = 0;
    }
}

// Writes a start, a stop and a byte that ends them to the beginning of a text, and returns how many bytes they have. They
// are first written to the right of where they belong, from the last to the first, and moved by one vector. Bytes after
// them may change too.
#[inline(always)]
fn write_span(start: u64, stop: u64, end: u8, text: &mut [u8]) -> usize
    requires { SPAN_ROOM ≤ length text.old }
    ensures within { result ≤ length text.new }
    ensures written { take result text.new ≡ span_text start stop end }
{
    text[LAST] = end;
    let before_stop = write_column(stop, text, LAST);
    let first = write_column(start, text, before_stop);
    u8x64::from_slice(&text[first..]).copy_to_slice(text);
    LAST + 1 - first
}
