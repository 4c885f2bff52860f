//! A line that is longer than a block, and the reads of a source.

ghost use Rattle.std.specs.Prelude.{◌≡◌, ◌+◌, ◌<◌, ◌≤◌, ◌^◌, [], false, length, vec_capacity};
ghost use Rattle.bt_lines.specs.calls.Output.{block_size};
ghost use Rattle.bt_lines.specs.inside.ReadBuffer.{complete, unread};
ghost use Rattle.bt_lines.specs.calls.Line.{NoLineFeed};
ghost use Rattle.bt_lines.specs.inside.Spill.{AsksMore, Buffers};

use crate::device::Source;
use crate::reader::read_buffer::ReadBuffer;

// As many bytes of a text are read at most.
const BOUND: u64 = (1 << 63) - 1;

// Why the reading of a line stopped.
#[derive(Clone, Copy)]
pub(crate) enum Stop {
    // A line feed.
    LineFeed,
    // The end of the text.
    End,
    // The source failed.
    Failed,
    // A byte came after the last one that may be read.
    TooLong,
    // The line couldn't grow.
    NoMemory,
}

// The outcome of a read for more bytes.
#[derive(Clone, Copy)]
pub(crate) enum More {
    // Bytes, in the block.
    Bytes,
    // None, since the text has ended.
    NoBytes,
    // None, since the source failed.
    BadRead,
    // A byte past the bound.
    PastBound,
}

// Makes at least one line buffered, or the end, if none is. It counts all bytes that it takes. Memory runs out only if the
// bytes of the line so far fill the block and the room that the vector had.
#[tactic(auto, using(crate::proofs::lemmas::reader::block::BufferLemmas::more_read, crate::proofs::lemmas::reader::block::BufferLemmas::not_full, crate::proofs::lemmas::reader::block::BufferLemmas::unread_fits))]
pub(crate) fn read_lines<S: Source>(
    source: &mut S,
    buffer: &mut ReadBuffer,
    taken: &mut u64,
) -> Stop
    requires counted { taken.old < 2 ^ 63 }
    requires none { complete buffer.old ≡ [] }
    ensures buffers { Buffers S.Source source.old (unread buffer.old) taken.old result
        source.new (complete buffer.new) (unread buffer.new) taken.new }
    ensures full { result ≡ Stop.NoMemory → block_size + taken.old ≤ length (unread buffer.old) + taken.new }
    ensures memory { result ≡ Stop.NoMemory → vec_capacity buffer.old.spilled + taken.old ≤ length (unread buffer.old) + taken.new }
{
    while !buffer.find_lines() {
        if buffer.is_full() {
            return read_long(source, buffer, taken);
        }
        match ask_more(source, buffer, taken) {
            More::Bytes => {}
            More::NoBytes => {
                buffer.end_text();
                return Stop::End;
            }
            More::BadRead => return Stop::Failed,
            More::PastBound => return Stop::TooLong,
        }
    }
    Stop::LineFeed
}

// Reads on in a line that fills the block: moves it to a vector, and reads up to its line feed.
#[tactic(auto, using(crate::proofs::lemmas::reader::block::BufferLemmas::at_first, crate::proofs::lemmas::reader::block::BufferLemmas::more_came))]
fn read_long<S: Source>(source: &mut S, buffer: &mut ReadBuffer, taken: &mut u64) -> Stop
    requires counted { taken.old < 2 ^ 63 }
    requires none { complete buffer.old ≡ [] }
    requires clear { NoLineFeed (unread buffer.old) }
    requires full { block_size ≤ length (unread buffer.old) }
    ensures buffers { Buffers S.Source source.old (unread buffer.old) taken.old result
        source.new (complete buffer.new) (unread buffer.new) taken.new }
    ensures full { result ≡ Stop.NoMemory → block_size + taken.old ≤ length (unread buffer.old) + taken.new }
    ensures memory { result ≡ Stop.NoMemory → vec_capacity buffer.old.spilled + taken.old ≤ length (unread buffer.old) + taken.new }
{
    buffer.begin_spill();
    'reads: loop {
        match buffer.spill() {
            Err(_refused) => return Stop::NoMemory,
            Ok(true) => {
                buffer.use_spilled();
                return Stop::LineFeed;
            }
            Ok(false) => {}
        }
        match ask_more(source, buffer, taken) {
            More::Bytes => {}
            More::NoBytes => match buffer.end_spilled() {
                Ok(()) => {
                    buffer.use_spilled();
                    return Stop::End;
                }
                Err(_refused) => return Stop::NoMemory,
            },
            More::BadRead => return Stop::Failed,
            More::PastBound => return Stop::TooLong,
        }
    }
}

// Reads more bytes, and one past the bound only once the bound is reached.
#[tactic(auto, using(crate::proofs::lemmas::reader::block::ReadsLemmas::fails_once, crate::proofs::lemmas::reader::block::ReadsLemmas::reads_one))]
fn ask_more<S: Source>(source: &mut S, buffer: &mut ReadBuffer, taken: &mut u64) -> More
    requires counted { taken.old < 2 ^ 63 }
    requires none { complete buffer.old ≡ [] }
    requires room { length (unread buffer.old) < block_size }
    ensures asks { AsksMore S.Source source.old (unread buffer.old) taken.old result
        source.new (unread buffer.new) taken.new }
    ensures none { complete buffer.new ≡ [] }
    ensures plain { buffer.new.is_spilled ≡ false }
    ensures front { buffer.new.whole ≡ 0 }
    ensures spilled { buffer.new.spilled.items ≡ buffer.old.spilled.items }
    ensures room { vec_capacity buffer.new.spilled ≡ vec_capacity buffer.old.spilled }
{
    let room = BOUND - *taken;
    match buffer.read_more(source, room.max(1)) {
        Err(_failed) => More::BadRead,
        Ok(0) => More::NoBytes,
        Ok(_byte) if room == 0 => {
            buffer.clear_unread();
            More::PastBound
        }
        Ok(count) => {
            *taken += count as u64;
            More::Bytes
        }
    }
}
