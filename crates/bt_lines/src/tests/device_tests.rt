ghost use Rattle.std.specs.Prelude.{◌≡◌, ◌++◌, IfSome, true, ⊤};

use crate::tests::output_tests::fails_again;
use crate::tests::{Want, gives_all, gives_some, has_ended, holds};
use crate::{
    BLOCK, DeviceFailed, FromRead, Input, LineEnd, LineReader, MovedBytes, Out, Piece, Sink,
    Source, ToWrite,
};
use std::alloc::Global;
use std::io;
use std::io::{BufWriter, Read, Write};
use std::test::Fail;

// A device of which one call fails, by its number from 1, and all others work. It counts its calls.
#[derive(Drop)]
struct FailsOnce {
    failing: u8,
    calls: u8,
}

impl FailsOnce {
    fn call(&mut self) -> io::Result<()> {
        self.calls = self.calls.saturating_add(1);
        if self.calls == self.failing {
            return Err(io::ErrorKind::Interrupted.into());
        }
        Ok(())
    }
}

fn fails_at(failing: u8) -> FailsOnce {
    FailsOnce { failing, calls: 0 }
}

impl Read for FailsOnce {
    fn read(&mut self, buf: &mut [u8]) -> io::Result<usize> {
        self.call()?;
        if buf.is_empty() {
            return Ok(0);
        }
        buf[0] = b'x';
        Ok(1)
    }
}

impl Write for FailsOnce {
    fn write(&mut self, buf: &[u8]) -> io::Result<usize> {
        self.call()?;
        Ok(buf.len())
    }

    fn flush(&mut self) -> io::Result<()> {
        self.call()
    }
}

// A reader of a text, a byte a call, which then has ended. It counts its calls.
#[derive(Drop)]
struct CountsReads {
    text: &'static [u8],
    calls: u8,
}

impl Read for CountsReads {
    fn read(&mut self, buf: &mut [u8]) -> io::Result<usize> {
        self.calls = self.calls.saturating_add(1);
        if self.text.is_empty() || buf.is_empty() {
            return Ok(0);
        }
        buf[0] = self.text[0];
        self.text = &self.text[1..];
        Ok(1)
    }
}

// Whether reads of two bytes and their end are one call each, and the end is no failure.
fn ends_in_three_calls() -> bool {
    let (text, calls) = (b"ab".as_slice(), 0);
    let mut source = FromRead::new(CountsReads { text, calls });
    let mut block = [0u8; 4];
    for count in [1, 1, 0] {
        if !matches!(source.read(&mut block), Ok(read) if read == count) {
            return false;
        }
    }
    !source.failed() && source.into_inner().calls == 3
}

#[test]
fn an_end_is_one_call_and_no_failure(rt: HostRuntime) {
    holds(&rt, ends_in_three_calls(), "three calls");
}

// After the end of a text its reader isn't asked again, nor a second time for that end.
#[test]
fn an_end_is_asked_for_once(rt: HostRuntime) {
    let (text, calls) = (b"a\nb".as_slice(), 0);
    let source = FromRead::new(CountsReads { text, calls });
    let mut reader = LineReader::new(rt.alloc(), source, Input::First);
    let lines: [Want; 2] = [(b"a", LineEnd::Lf), (b"b", LineEnd::Absent)];
    let are_given = gives_all(&mut reader, &lines)
        && has_ended(&mut reader)
        && has_ended(&mut reader);
    let calls = reader.into_source().into_inner().calls;
    holds(&rt, are_given && calls == 4, "three bytes and the end");
}

// A writer that takes everything, and counts its writes and its flushes.
#[derive(Drop)]
struct CountsWrites {
    writes: u8,
    flushes: u8,
}

impl Write for CountsWrites {
    fn write(&mut self, buf: &[u8]) -> io::Result<usize> {
        self.writes = self.writes.saturating_add(1);
        Ok(buf.len())
    }

    fn flush(&mut self) -> io::Result<()> {
        self.flushes = self.flushes.saturating_add(1);
        Ok(())
    }
}

// Each flush of the sink is one of its writer, and each write is one too.
#[test]
fn a_flush_is_one_call(rt: HostRuntime) {
    let (writes, flushes) = (0, 0);
    let mut sink = ToWrite::new(CountsWrites { writes, flushes });
    let are_served = sink.write(b"chr1").is_ok() && sink.flush().is_ok() && sink.flush().is_ok();
    let writer = sink.into_inner();
    holds(
        &rt,
        are_served && (writer.writes, writer.flushes) == (1, 2),
        "a write and two flushes",
    );
}

// Whether each read fails, and the reader was asked once.
fn is_asked_once() -> bool {
    let mut source = FromRead::new(fails_at(1));
    let mut block = [0u8; 4];
    for _ in 0..3 {
        if source.read(&mut block).is_ok() {
            return false;
        }
    }
    source.failed() && source.into_inner().calls == 1
}

#[test]
fn a_reader_that_failed_is_asked_no_more(rt: HostRuntime) {
    holds(&rt, is_asked_once(), "asked once");
}

// Whether a sink whose first call fails is asked once, and all these flushes and writes fail.
fn asks_once(are_flushes: &[bool]) -> bool {
    let mut sink = ToWrite::new(fails_at(1));
    for is_flush in are_flushes {
        let is_served = if *is_flush {
            sink.flush().is_ok()
        } else {
            sink.write(b"chr1").is_ok()
        };
        if is_served {
            return false;
        }
    }
    sink.failed() && sink.into_inner().calls == 1
}

#[test]
fn a_writer_that_failed_is_asked_no_more(rt: HostRuntime) {
    holds(
        &rt,
        asks_once(&[false, false, false, true]),
        "a write fails",
    );
    holds(&rt, asks_once(&[true, true, true, false]), "a flush fails");
}

// A source that failed before, and serves now.
#[derive(Drop)]
struct ServesAgain {
    bytes: &'static [u8],
}

impl Source for ServesAgain {
    ghost has_failed = { λ _. true };

    ghost is_read = { λ _ _ _. ⊤ };

    fn read(&mut self, block: &mut [u8]) -> Result<usize, DeviceFailed> {
        if block.is_empty() || self.bytes.is_empty() {
            return Ok(0);
        }
        block[0] = self.bytes[0];
        self.bytes = &self.bytes[1..];
        Ok(1)
    }

    fn failed(&self) -> bool {
        true
    }
}

#[test]
fn a_failure_of_before_is_no_failed_read(rt: HostRuntime) {
    let bytes = b"a\nb".as_slice();
    let mut reader = LineReader::new(rt.alloc(), ServesAgain { bytes }, Input::First);
    let lines: [Want; 2] = [(b"a", LineEnd::Lf), (b"b", LineEnd::Absent)];
    let are_given = gives_all(&mut reader, &lines) && has_ended(&mut reader);
    holds(&rt, are_given && reader.into_source().failed(), "two lines");
}

// A source of which each read fails. It counts them.
#[derive(Drop)]
struct NeverServes {
    reads: u8,
}

impl Source for NeverServes {
    ghost has_failed = { λ _. true };

    ghost is_read = { λ _ _ _. ⊤ };

    fn read(&mut self, _block: &mut [u8]) -> Result<usize, DeviceFailed> {
        self.reads = self.reads.saturating_add(1);
        Err(DeviceFailed)
    }

    fn failed(&self) -> bool {
        true
    }
}

#[test]
fn a_source_that_failed_is_read_no_more(rt: HostRuntime) {
    let mut reader = LineReader::new(rt.alloc(), NeverServes { reads: 0 }, Input::First);
    let have_failed = reader.next().is_err() && reader.fill().is_err() && reader.next().is_err();
    holds(
        &rt,
        have_failed && reader.into_source().reads == 1,
        "read once",
    );
}

// A sink that takes everything, and whose first flush fails.
#[derive(Drop)]
struct FlushFails {
    taken: MovedBytes,
    flushes: u8,
    has_failed: bool,
}

impl Sink for FlushFails {
    ghost took = { λ s. s.taken.bytes };

    ghost has_failed = { λ s. s.has_failed };

    ghost last_failed = { λ s. s.has_failed };

    ghost is_flushed = { λ _. true };

    fn write(&mut self, bytes: &[u8]) -> Result<usize, DeviceFailed> {
        if self.has_failed {
            return Err(DeviceFailed);
        }
        self.taken = self.taken.with(&Piece { bytes });
        Ok(bytes.len())
    }

    fn flush(&mut self) -> Result<(), DeviceFailed> {
        self.flushes = self.flushes.saturating_add(1);
        self.has_failed = true;
        Err(DeviceFailed)
    }

    fn failed(&self) -> bool {
        self.has_failed
    }
}

#[test]
fn a_flush_that_fails(rt: HostRuntime) {
    let (flushes, has_failed) = (0, false);
    let mut output = Out::new(FlushFails {
        taken: MovedBytes::new(),
        flushes,
        has_failed,
    });
    let is_put = output.put(b"chr1").is_ok();
    let is_failed = fails_again(&mut output);
    holds(&rt, is_put && is_failed, "the flush fails");
    holds(
        &rt,
        output.into_sink().flushes == 1,
        "the sink is asked once",
    );
}

#[test]
fn a_reader_of_std(rt: HostRuntime) {
    let bytes = b"ab\ncd\n";
    let mut reader = LineReader::new(rt.alloc(), FromRead::new(bytes.as_slice()), Input::First);
    let are_given = gives_some(&mut reader, 2) && has_ended(&mut reader);
    let left = reader.into_source().into_inner().len();
    holds(&rt, are_given && left == 0, "two lines");
}

// A flush reaches what the writer writes to.
#[test]
fn a_writer_of_std(rt: HostRuntime) -> Result<(), Fail> {
    let writer = BufWriter::new(rt.alloc(), Vec::new(rt.alloc()))?;
    let mut output = Out::new(ToWrite::new(writer));
    let is_put = output.put(b"ab").is_ok() && output.put(b"c").is_ok() && output.flush().is_ok();
    let writer = output.into_sink().into_inner();
    holds(
        &rt,
        is_put && writer.get_ref().as_slice() == b"abc".as_slice(),
        "abc",
    );
    Ok(())
}

// Puts a piece after what is in memory, and gives all of it.
fn put_in_memory(memory: Vec<u8>, piece: &[u8]) -> Option<Vec<u8>>
    ensures { IfSome result (λ now. now.items ≡ memory.items ++ piece.now) }
{
    let mut output = Out::new(ToWrite::new(memory));
    if output.put(piece).is_err() {
        return None;
    }
    if output.flush().is_err() {
        return None;
    }
    Some(output.into_sink().into_inner())
}

#[test]
fn memory_has_what_was_put_after_what_it_had(rt: HostRuntime) -> Result<(), Fail> {
    let memory = Vec::from_slice(rt.alloc(), b"ab")?;
    let now = put_in_memory(memory, b"c").ok_or("all was put")?;
    assert_eq!(rt; now.as_slice(), b"abc".as_slice());
    Ok(())
}

// Whether no bytes are written, and three whole blocks, by one call each.
fn is_written(alloc: Global) -> bool {
    let mut sink = ToWrite::new(Vec::new(alloc));
    let is_nothing_served = matches!(sink.write(b""), Ok(0));
    let is_written = matches!(sink.write(&[b'x'; 3 * BLOCK]), Ok(count) if count == 3 * BLOCK);
    is_nothing_served && is_written && sink.flush().is_ok() && sink.into_inner().len() == 3 * BLOCK
}

// Whether reads of three blocks give these numbers of bytes.
fn are_read(counts: &[usize]) -> bool {
    let bytes = [b'x'; 3 * BLOCK];
    let mut source = FromRead::new(bytes.as_slice());
    let mut block = [0u8; BLOCK];
    for count in counts {
        if !matches!(source.read(&mut block), Ok(read) if read == *count) {
            return false;
        }
    }
    !source.failed()
}

// The end is returned again, and isn't taken for a failure.
#[test]
fn whole_blocks_are_served(rt: HostRuntime) {
    holds(
        &rt,
        is_written(rt.alloc()),
        "no bytes and three blocks are written",
    );
    holds(
        &rt,
        are_read(&[BLOCK, BLOCK, BLOCK, 0, 0]),
        "a read gives a whole block",
    );
}
