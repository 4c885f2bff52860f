//! A source whose bytes are kept as they pass.

ghost use Rattle.std.specs.Prelude.{◌≡◌, ◌+◌, ◌≤◌, IsTrue, length};
ghost use Rattle.std.specs.Vec.{vec_capacity};

use bt_lines::{DeviceFailed, Source};
use std::alloc::Global;

/// Hands on what another source gives, and keeps it. Once more than the room is kept, or memory runs out, each read fails
/// before the other source is read: so what is kept is always all that it gave.
#[derive(Drop, Debug)]
pub struct Keeping<S> {
    source: S,
    kept: Vec<u8>,
    // How many bytes are kept before the reads fail.
    room: usize,
    // Whether a read has failed; it stays so.
    has_failed: bool,
}

impl<S> Keeping<S> {
    ghost use Rattle.std.specs.Prelude.{◌≡◌, [], false};
    ghost use Rattle.bt_front.specs.calls.Stream.{has_stopped, kept_of, room_of, source_of};

    /// Keeps what comes from the source from now on.
    pub fn new(alloc: Global, source: S, room: usize) -> Keeping<S>
        ensures source { source_of result ≡ source }
        ensures kept { kept_of result ≡ [] }
        ensures room { room_of result ≡ room }
        ensures served { has_stopped result ≡ false }
    {
        Keeping {
            source,
            kept: Vec::new(alloc),
            room,
            has_failed: false,
        }
    }

    /// The source, and what it gave.
    pub fn into_parts(self) -> (S, Vec<u8>)
        ensures source { result.0 ≡ source_of self }
        ensures kept { result.1.items ≡ kept_of self }
    {
        let Keeping { source, kept, .. } = self;
        (source, kept)
    }

    // Makes room for a block, and returns false if no more bytes may be kept.
    fn can_keep(&mut self, count: usize) -> bool
        ensures source { source_of self.new ≡ source_of self.old }
        ensures kept { kept_of self.new ≡ kept_of self.old }
        ensures room { room_of self.new ≡ room_of self.old }
        ensures served { has_stopped self.new ≡ has_stopped self.old }
        ensures fits { IsTrue result → length (kept_of self.new) + count ≤ vec_capacity self.new.kept }
    {
        !self.has_failed && self.kept.len() <= self.room && self.kept.reserve(count).is_ok()
    }
}

impl<S: Source> Source for Keeping<S> {
    ghost use Rattle.bt_front.specs.calls.Stream.{IsKeptRead, has_stopped, source_of};

    ghost has_failed = { has_stopped };

    ghost is_read = { IsKeptRead S.is_read };

    fn read(&mut self, block: &mut [u8]) -> Result<usize, DeviceFailed> {
        if !self.can_keep(block.len()) {
            self.has_failed = true;
            return Err(DeviceFailed);
        }
        let Ok(count) = self.source.read(block) else {
            self.has_failed = true;
            return Err(DeviceFailed);
        };
        // There is room for them.
        let _kept = self.kept.extend_from_slice(&block[..count]);
        Ok(count)
    }

    fn failed(&self) -> bool {
        self.has_failed
    }
}
