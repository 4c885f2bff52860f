//! A reader of std as a source.

ghost use Rattle.std.specs.Prelude.{◌≡◌, ℕ, ◌<◌, ◌≤◌, false, true, IsTrue, IsErr, length, IfOk, OnOk, OnErr};
ghost use Rattle.std.specs.Io.KnownBytes.{ReadConsumes};
ghost use Rattle.bt_lines.specs.calls.Device.{IsReaderRead, TellsEnd, call_of, reader_of, read_has_failed, read_end_told};

use crate::device::{DeviceFailed, Source};
use std::io::Read;

/// A source over a reader. An error, an interrupted call among them, isn't tried again: once the
/// reader has failed, it isn't read again.
#[derive(Drop, Debug)]
pub struct FromRead<R> {
    // Not read again once it has failed.
    reader: R,
    // Whether a read has failed; it stays so.
    has_failed: bool,
    // Whether a read into a block with room gave no bytes.
    end_told: bool,
}

impl<R> FromRead<R> {
    /// A source that hands over what the reader has left.
    pub fn new(reader: R) -> FromRead<R>
        ensures reader { reader_of result ≡ reader }
        ensures served { read_has_failed result ≡ false }
        ensures end { read_end_told result ≡ false }
    {
        FromRead {
            reader,
            has_failed: false,
            end_told: false,
        }
    }

    /// The reader.
    pub fn into_inner(self) -> R
        ensures { result ≡ reader_of self }
    {
        let FromRead { reader, .. } = self;
        reader
    }
}

impl<R: Read> Source for FromRead<R> {
    ghost has_failed = { read_has_failed };

    ghost is_read = { IsReaderRead R.remaining };

    fn read(&mut self, block: &mut [u8]) -> Result<usize, DeviceFailed>
        ensures within { IfOk result (λ n. n ≤ length block.new) }
        ensures bytes { ReadConsumes (R.remaining (reader_of self.old))
            (R.remaining (reader_of self.new)) result block.new }
        ensures served { OnOk result (read_has_failed self.new ≡ read_has_failed self.old) }
        ensures failed { OnErr result (read_has_failed self.new ≡ true) }
        ensures handed { 0 < length block.new → IsReaderRead R.remaining self.old (call_of result block.new) self.new }
        ensures end { TellsEnd (read_end_told self.old) (read_end_told self.new) result block.new }
        ensures for_good { IsTrue (read_has_failed self.old) → IsErr result × (self.new ≡ self.old) }
    {
        if self.has_failed {
            return Err(DeviceFailed);
        }
        match self.reader.read(block) {
            Ok(count) => {
                if count == 0 && !block.is_empty() {
                    self.end_told = true;
                }
                Ok(count)
            }
            Err(_error) => {
                self.has_failed = true;
                Err(DeviceFailed)
            }
        }
    }

    fn failed(&self) -> bool {
        self.has_failed
    }
}
