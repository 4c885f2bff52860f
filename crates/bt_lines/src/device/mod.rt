//! Where bytes come from and where they go to.

pub(crate) mod from_read;
pub(crate) mod moved_bytes;
pub(crate) mod script_sink;
pub(crate) mod script_source;
pub(crate) mod telling;
pub(crate) mod to_write;

ghost use Rattle.std.specs.Prelude.{◌≡◌, ℕ, ◌<◌, ◌≤◌, Bool, true, false, Option, Some, None, List, ◌++◌, is_err, length, take, IfNone, IfSome, IfOk, OnOk, OnErr};
ghost use Rattle.bt_lines.specs.calls.Device.{call_of, is_spent, let_through};

/// How many bytes a reader buffers at most, and an output holds back.
pub const BLOCK: usize = 8192;

/// A call of a device failed. Which error it was stays with the device.
#[derive(Clone, Copy, Debug, PartialEq, Eq)]
pub struct DeviceFailed;

/// Where bytes come from.
pub trait Source {
    // Whether a read has failed.
    ghost has_failed: { Self → Bool };

    // A read into a block with room took the one source to the other and handed over these bytes, or failed if there
    // are none to name. No bytes, `Some []`, report the end. Only `read` gives it.
    ghost is_read: { Self → Option (List ℕ) → Self → Type 0 };

    /// Hands over the next bytes, as many as it likes of those that fit the block, and 0 for a block
    /// with room only at the end. An error isn't tried again.
    fn read(&mut self, block: &mut [u8]) -> Result<usize, DeviceFailed>
        ensures within { IfOk result (λ n. n ≤ length block.new) }
        ensures served { OnOk result (has_failed self.new ≡ has_failed self.old) }
        ensures failed { OnErr result (has_failed self.new ≡ true) }
        ensures handed { 0 < length block.new → is_read self.old (call_of result block.new) self.new };

    /// Whether a read has failed. Once true, it stays so.
    fn failed(&self) -> bool
        ensures { result ≡ has_failed self.now };
}

/// Where bytes go to.
pub trait Sink {
    // The bytes that it took.
    ghost took: { Self → List ℕ };

    // Whether a write or a flush has failed.
    ghost has_failed: { Self → Bool };

    // Whether the last call, a write or a flush, failed.
    ghost last_failed: { Self → Bool };

    // Whether it has passed on all that it took, by a flush at the latest.
    ghost is_flushed: { Self → Bool };

    /// Takes a prefix of the bytes, at least one byte if there is one, and returns how many. An error
    /// takes none of them, and isn't tried again.
    fn write(&mut self, bytes: &[u8]) -> Result<usize, DeviceFailed>
        ensures within { IfOk result (λ n. n ≤ length bytes.now) }
        ensures progress { IfOk result (λ n. 0 < length bytes.now → 0 < n) }
        ensures takes { IfOk result (λ n. took self.new ≡ took self.old ++ take n bytes.now) }
        ensures takes_none { OnErr result (took self.new ≡ took self.old) }
        ensures served { OnOk result (has_failed self.new ≡ has_failed self.old) }
        ensures failed { OnErr result (has_failed self.new ≡ true) }
        ensures last { last_failed self.new ≡ is_err result };

    /// Passes on what it may still hold back.
    fn flush(&mut self) -> Result<(), DeviceFailed>
        ensures takes_none { took self.new ≡ took self.old }
        ensures flushed { OnOk result (is_flushed self.new ≡ true) }
        ensures served { OnOk result (has_failed self.new ≡ has_failed self.old) }
        ensures failed { OnErr result (has_failed self.new ≡ true) }
        ensures last { last_failed self.new ≡ is_err result };

    /// Whether a write or a flush has failed. Once true, it stays so.
    fn failed(&self) -> bool
        ensures { result ≡ has_failed self.now };
}

// How many of `most` bytes a script moves after `moved` others, or none if its good bytes are used up.
pub(crate) fn let_through(good: Option<usize>, moved: usize, most: usize) -> Option<usize>
    ensures spent { IfNone result (is_spent good moved ≡ true) }
    ensures works { IfSome result (λ n. is_spent good moved ≡ false) }
    ensures count { IfSome result (λ n. n ≡ let_through good moved most) }
    ensures within { IfSome result (λ n. n ≤ most) }
    ensures some { IfSome result (λ n. 0 < most → 0 < n) }
{
    match good {
        Some(good) if good <= moved => None,
        Some(good) => Some(most.min(good - moved)),
        None => Some(most),
    }
}
