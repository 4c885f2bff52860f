//! A writer of std as a sink.

ghost use Rattle.std.specs.Prelude.{◌≡◌, List, ℕ, ◌<◌, ◌≤◌, ◌++◌, [], false, true, IsTrue, IsErr, is_err, length, take, IfOk, OnOk, OnErr};
ghost use Rattle.std.specs.Io.KnownBytes.{Keeps, WriteAppends};
ghost use Rattle.bt_lines.specs.calls.Device.{HoldsKnown, known_or_none, writer_of, writer_took, write_has_failed, write_is_flushed};

use crate::device::moved_bytes::{MovedBytes, Piece};
use crate::device::{DeviceFailed, Sink};
use std::io::Write;
use std::marker::Model;

/// A sink over a writer. An error, an interrupted call among them, isn't tried again, and a write
/// that takes none of a piece with bytes is a failure. Once failed, the writer isn't written to again.
#[derive(Drop, Debug)]
pub struct ToWrite<W: Write> {
    // Not written to again once it has failed.
    writer: W,
    // Whether a call has failed; it stays so.
    has_failed: bool,
    // Whether nothing was written since the last flush that went well.
    is_flushed: bool,
    // What the writer took, in proofs alone.
    taken: MovedBytes,
}

impl<W: Write> Model for ToWrite<W> {
    ghost use Rattle.bt_lines.specs.calls.Device.{WritesTo, HoldsKnown};

    ghost Value = { WritesTo W };

    ghost view = { λ s. record {
      writer = s.writer;
      has_failed = s.has_failed;
      is_flushed = s.is_flushed;
      taken = s.taken.bytes;
    } };

    ghost invariant = { λ s. HoldsKnown W.contents s.writer s.taken.bytes };
}

impl<W: Write> ToWrite<W> {
    /// A sink that hands bytes to the writer.
    #[tactic(auto, using(crate::proofs::lemmas::Passing::holds_none))]
    pub fn new(writer: W) -> ToWrite<W>
        ensures writer { writer_of result ≡ writer }
        ensures took { writer_took result ≡ known_or_none (W.contents writer) }
        ensures served { write_has_failed result ≡ false }
        ensures unflushed { write_is_flushed result ≡ false }
    {
        ToWrite::start(writer)
    }

    // A sink over a writer that holds these bytes, if it always knows its contents.
    fn start(writer: W) -> ToWrite<W>
        ghost before: { List ℕ }
        requires { HoldsKnown W.contents writer before }
        ensures writer { writer_of result ≡ writer }
        ensures took { writer_took result ≡ before }
        ensures served { write_has_failed result ≡ false }
        ensures unflushed { write_is_flushed result ≡ false }
    {
        ToWrite {
            writer,
            has_failed: false,
            is_flushed: false,
            taken: MovedBytes::after(),
        }
    }

    /// The writer.
    pub fn into_inner(self) -> W
        ensures writer { result ≡ writer_of self }
        ensures holds { HoldsKnown W.contents result (writer_took self) }
    {
        let ToWrite { writer, .. } = self;
        writer
    }
}

impl<W: Write> Sink for ToWrite<W> {
    ghost took = { writer_took };

    ghost has_failed = { write_has_failed };

    // Once it has failed, each call fails.
    ghost last_failed = { write_has_failed };

    ghost is_flushed = { write_is_flushed };

    // `below` says that the writer takes the same bytes, if it knows its contents.
    #[tactic(auto, using(crate::proofs::lemmas::Passing::holds_more))]
    fn write(&mut self, bytes: &[u8]) -> Result<usize, DeviceFailed>
        ensures within { IfOk result (λ n. n ≤ length bytes.now) }
        ensures progress { IfOk result (λ n. 0 < length bytes.now → 0 < n) }
        ensures takes { IfOk result (λ n. writer_took self.new ≡ writer_took self.old ++ take n bytes.now) }
        ensures takes_none { OnErr result (writer_took self.new ≡ writer_took self.old) }
        ensures below { WriteAppends (W.contents (writer_of self.old))
            (W.contents (writer_of self.new)) result bytes.now }
        ensures served { OnOk result (write_has_failed self.new ≡ write_has_failed self.old) }
        ensures failed { OnErr result (write_has_failed self.new ≡ true) }
        ensures last { write_has_failed self.new ≡ is_err result }
        ensures for_good { IsTrue (write_has_failed self.old)
            → IsErr result × (self.new ≡ self.old) }
        ensures unflushed { write_has_failed self.old ≡ false
            → write_is_flushed self.new ≡ false }
    {
        if self.has_failed {
            return Err(DeviceFailed);
        }
        self.is_flushed = false;
        match self.writer.write(bytes) {
            Ok(count) if count > 0 || bytes.is_empty() => {
                self.taken = self.taken.with(&Piece {
                    bytes: &bytes[..count],
                });
                Ok(count)
            }
            _ => {
                self.has_failed = true;
                Err(DeviceFailed)
            }
        }
    }

    #[tactic(auto, using(crate::proofs::lemmas::Passing::holds_same))]
    fn flush(&mut self) -> Result<(), DeviceFailed>
        ensures takes_none { writer_took self.new ≡ writer_took self.old }
        ensures below { Keeps (W.contents (writer_of self.old)) (W.contents (writer_of self.new)) }
        ensures flushed { OnOk result (write_is_flushed self.new ≡ true) }
        ensures served { OnOk result (write_has_failed self.new ≡ write_has_failed self.old) }
        ensures failed { OnErr result (write_has_failed self.new ≡ true) }
        ensures last { write_has_failed self.new ≡ is_err result }
        ensures for_good { IsTrue (write_has_failed self.old)
            → IsErr result × (self.new ≡ self.old) }
    {
        if self.has_failed {
            return Err(DeviceFailed);
        }
        if self.writer.flush().is_err() {
            self.has_failed = true;
            return Err(DeviceFailed);
        }
        self.is_flushed = true;
        Ok(())
    }

    fn failed(&self) -> bool {
        self.has_failed
    }
}
