//! Bytes out, in order, to a sink.

ghost use Rattle.std.specs.Prelude.{◌≡◌, ◌++◌, ◌+◌, ◌%◌, ℕ, ◌≤◌, ◌<◌, false, true, List, [], length, OnOk, OnErr, IfErr, IsErr};
ghost use Rattle.bt_lines.specs.calls.Output.{HoldsBlock, IsPrefixOf, Grows, SinkFailed, block_size, PutsAll, span_text};
ghost use Rattle.bt_lines.specs.calls.Faults.{write_failed};
ghost use Rattle.bt_lines.specs.calls.Names.{fault_value};

use crate::device::{BLOCK, DeviceFailed, Sink};
use crate::fault::Fault;
use crate::fault::faults::write_failed;
use crate::writer::copying::is_short;
use crate::writer::write_buffer::{SPAN_ROOM, WriteBuffer};
use std::marker::Model;

/// Puts bytes to a sink in order, a block at a time: at most [`BLOCK`] bytes are held back until a
/// `flush`. Once the sink has failed, nothing more is written, and each call
/// says that writing failed.
#[derive(Drop)]
pub struct Out<K: Sink> {
    // Not written to after it has failed.
    sink: K,
    // What was put and not yet written; lost once the sink has failed.
    held: WriteBuffer,
    // Whether a write or a flush has failed; it stays so.
    has_failed: bool,
}

impl<K: Sink> Model for Out<K> {
    ghost use Rattle.std.specs.Prelude.{◌≡◌, ◌++◌, true};
    ghost use Rattle.bt_lines.specs.calls.Output.{OutputOver};

    ghost Value = { OutputOver K };

    ghost view = { λ o. record {
      output = record {
        put = K.took o.sink ++ o.held;
        took = K.took o.sink;
        has_failed = o.has_failed;
        sink_has_failed = K.has_failed o.sink;
        sink_last_failed = K.last_failed o.sink;
        sink_is_flushed = K.is_flushed o.sink;
      };
      sink = o.sink;
    } };

    ghost invariant = { λ o. o.has_failed ≡ true
        → (K.has_failed o.sink ≡ true) × (K.last_failed o.sink ≡ true) };
}

impl<K: Sink> Out<K> {
    /// An output that has put nothing yet beside what the sink took before.
    pub fn new(sink: K) -> Out<K>
        ensures { result ≡ record {
          output = record {
            put = K.took sink;
            took = K.took sink;
            has_failed = false;
            sink_has_failed = K.has_failed sink;
            sink_last_failed = K.last_failed sink;
            sink_is_flushed = K.is_flushed sink;
          };
          sink = sink;
        } }
    {
        Out {
            sink,
            held: WriteBuffer::new(),
            has_failed: false,
        }
    }

    /// Puts a piece after what was put before. It may not reach the sink until a `flush`. It fails with `WriteFailed`,
    /// only if the sink has failed: then the sink took a prefix of all bytes put, and each later call fails too.
    pub fn put(&mut self, piece: &[u8]) -> Result<(), Fault>
        ensures put { OnOk result (self.new.output.put ≡ self.old.output.put ++ piece.now) }
        ensures block { OnOk result (HoldsBlock self.new.output.took self.new.output.put) }
        ensures front { OnErr result (IsPrefixOf self.new.output.took self.old.output.put piece.now) }
        ensures grows { Grows self.old.output.took self.new.output.took }

        ensures served { OnOk result ((self.new.output.has_failed ≡ false)
            × (self.old.output.has_failed ≡ false)
            × (self.new.output.sink_has_failed ≡ self.old.output.sink_has_failed)) }
        ensures fault { IfErr result (λ fault. fault_value fault ≡ write_failed) }
        ensures cause { OnErr result ((self.new.output.has_failed ≡ true)
            × SinkFailed self.new.output) }
        ensures again { self.old.output.has_failed ≡ true → IsErr result × (self.new.output ≡ self.old.output) }
        ensures unasked { self.old.output.has_failed ≡ true → self.new.sink ≡ self.old.sink }
    {
        if self.has_failed {
            return Err(write_failed());
        }
        if piece.len() <= self.held.room() {
            self.held.append(piece);
            return Ok(());
        }
        if put_blocks(&mut self.sink, &mut self.held, piece).is_err() {
            self.has_failed = true;
            return Err(write_failed());
        }
        Ok(())
    }

    /// Puts a piece and a short one after it and returns true, if no write has failed and there is room for
    /// both; else nothing changes. It writes nothing to the sink.
    #[inline(always)]
    pub fn try_put_pair(&mut self, piece: &[u8], end: &[u8]) -> bool
        ensures held { result ≡ true → PutsAll self.old.output (piece.now ++ end.now) self.new.output }
        ensures untaken { self.new.output.took ≡ self.old.output.took }
        ensures unasked { self.new.sink ≡ self.old.sink }
        ensures unchanged { result ≡ false → self.new.output ≡ self.old.output }
    {
        if self.has_failed || self.held.room() < piece.len() + end.len() {
            return false;
        }
        self.held.append_both(piece, end);
        true
    }

    // Puts two short pieces, as `try_put_pair` does, and no others. It is out of line, and calls nothing.
    #[inline(never)]
    pub(crate) fn try_put_short(&mut self, piece: &[u8], next: &[u8]) -> bool
        ensures held { result ≡ true → PutsAll self.old.output (piece.now ++ next.now) self.new.output }
        ensures unasked { self.new.sink ≡ self.old.sink }
        ensures unchanged { result ≡ false → self.new.output ≡ self.old.output }
    {
        if self.has_failed || self.held.room() < piece.len() + next.len() {
            return false;
        }
        if !is_short(piece.len()) || !is_short(next.len()) {
            return false;
        }
        self.held.append_short(piece, next);
        true
    }

    /// Puts a name, a start and a stop in the columns after it, and a byte that ends them, and returns true. If a write has
    /// failed, the name doesn't have 1 to 64 bytes, or there is no room for it and 106 bytes more, it returns false and
    /// nothing changes. It writes nothing to the sink.
    #[inline(always)]
    pub fn try_put_interval(&mut self, name: &[u8], start: u64, stop: u64, end: u8) -> bool
        ensures held { result ≡ true → PutsAll self.old.output (name.now ++ span_text start stop end) self.new.output }
        ensures untaken { self.new.output.took ≡ self.old.output.took }
        ensures unasked { self.new.sink ≡ self.old.sink }
        ensures unchanged { result ≡ false → self.new.output ≡ self.old.output }
    {
        if self.has_failed || !is_short(name.len()) || self.held.room() < name.len() + SPAN_ROOM {
            return false;
        }
        self.held.append_span(name, start, stop, end);
        true
    }

    /// Hands all bytes put to the sink, and flushes it. After an `Ok` the sink has taken them. It fails as [`Out::put`]
    /// does.
    pub fn flush(&mut self) -> Result<(), Fault>
        ensures put { OnOk result (self.new.output.put ≡ self.old.output.put) }
        ensures taken { OnOk result (self.new.output.took ≡ self.new.output.put) }
        ensures flushed { OnOk result (self.new.output.sink_is_flushed ≡ true) }
        ensures front { OnErr result (IsPrefixOf self.new.output.took self.old.output.put []) }
        ensures grows { Grows self.old.output.took self.new.output.took }

        ensures served { OnOk result ((self.new.output.has_failed ≡ false)
            × (self.old.output.has_failed ≡ false)
            × (self.new.output.sink_has_failed ≡ self.old.output.sink_has_failed)) }
        ensures fault { IfErr result (λ fault. fault_value fault ≡ write_failed) }
        ensures cause { OnErr result ((self.new.output.has_failed ≡ true)
            × SinkFailed self.new.output) }
        ensures again { self.old.output.has_failed ≡ true → IsErr result × (self.new.output ≡ self.old.output) }
        ensures unasked { self.old.output.has_failed ≡ true → self.new.sink ≡ self.old.sink }
    {
        if self.has_failed {
            return Err(write_failed());
        }
        if send(&mut self.sink, &mut self.held).is_err() || self.sink.flush().is_err() {
            self.has_failed = true;
            return Err(write_failed());
        }
        Ok(())
    }

    /// Gives back the sink. What was held back and not flushed is lost.
    pub fn into_sink(self) -> K
        ensures sink { result ≡ self.sink }
        ensures took { K.took result ≡ self.output.took }
        ensures failed { K.has_failed result ≡ self.output.sink_has_failed }
        ensures last { K.last_failed result ≡ self.output.sink_last_failed }
        ensures flushed { K.is_flushed result ≡ self.output.sink_is_flushed }
    {
        let Out { sink, .. } = self;
        sink
    }
}

// Puts a piece for which there is no room after the bytes that are held back. It fills up their block,
// which goes to the sink, as do the next full blocks of the piece. So until a flush the sink is given
// full blocks, as long as it takes each in full.
#[cold]
#[inline(never)]
#[tactic(auto, using(crate::proofs::Std::take_rest, crate::proofs::lemmas::Writer::put_over))]
fn put_blocks<K: Sink>(
    sink: &mut K,
    held: &mut WriteBuffer,
    piece: &[u8],
) -> Result<(), DeviceFailed>
    requires fits { length held.old ≤ block_size }
    requires across { block_size < length held.old + length piece.now }
    ensures put { OnOk result (K.took sink.new ++ held.new ≡ (K.took sink.old ++ held.old) ++ piece.now) }
    ensures block { length held.new ≤ block_size }
    ensures front { OnErr result
        (IsPrefixOf (K.took sink.new) (K.took sink.old ++ held.old) piece.now) }
    ensures grows { Grows (K.took sink.old) (K.took sink.new) }
    ensures served { OnOk result (K.has_failed sink.new ≡ K.has_failed sink.old) }
    ensures failed { OnErr result ((K.has_failed sink.new ≡ true) × (K.last_failed sink.new ≡ true)) }
{
    let room = held.room();
    held.append(&piece[..room]);
    send(sink, held)?;
    let rest = &piece[room..];
    let whole = rest.len() - rest.len() % BLOCK;
    write_whole(sink, &rest[..whole])?;
    held.append(&rest[whole..]);
    Ok(())
}

// Hands on the bytes that are held back. If the sink fails they are lost, and never sent again.
fn send<K: Sink>(sink: &mut K, held: &mut WriteBuffer) -> Result<(), DeviceFailed>
    ensures whole { OnOk result (K.took sink.new ≡ K.took sink.old ++ held.old) }
    ensures empty { held.new ≡ [] }
    ensures front { OnErr result (IsPrefixOf (K.took sink.new) (K.took sink.old) held.old) }
    ensures grows { Grows (K.took sink.old) (K.took sink.new) }
    ensures served { OnOk result (K.has_failed sink.new ≡ K.has_failed sink.old) }
    ensures failed { OnErr result ((K.has_failed sink.new ≡ true) × (K.last_failed sink.new ≡ true)) }
{
    let sent = write_whole(sink, held.as_slice());
    held.clear();
    sent
}

// Hands a whole piece to the sink, by as many writes as it takes.
fn write_whole<K: Sink>(sink: &mut K, piece: &[u8]) -> Result<(), DeviceFailed>
    ensures whole { OnOk result (K.took sink.new ≡ K.took sink.old ++ piece.now) }
    ensures front { OnErr result (IsPrefixOf (K.took sink.new) (K.took sink.old) piece.now) }
    ensures grows { Grows (K.took sink.old) (K.took sink.new) }
    ensures served { OnOk result (K.has_failed sink.new ≡ K.has_failed sink.old) }
    ensures failed { OnErr result ((K.has_failed sink.new ≡ true) × (K.last_failed sink.new ≡ true)) }
{
    let mut rest = piece;
    while !rest.is_empty() {
        let count = sink.write(rest)?;
        rest = &rest[count..];
    }
    Ok(())
}
