//! A sink that plays a script, for tests.

ghost use Rattle.std.specs.Prelude.{◌≡◌, ℕ, ◌+◌, ◌<◌, ◌≤◌, ◌++◌, [], IsTrue, IsErr, IsOk, is_err, length, IfOk, OnOk, OnErr, true, false, take, min};
ghost use Rattle.bt_lines.specs.calls.Device.{is_spent, let_through};

use crate::device::{DeviceFailed, Sink, let_through};
use std::alloc::Global;
use std::marker::Model;

/// Takes bytes, at most `step` of them a call, and fails at the next piece with a byte once `good`
/// bytes were taken. If it can't grow it has failed. Once failed, it takes nothing more.
#[derive(Drop, Debug)]
pub struct ScriptSink {
    // What was taken, also once it has failed.
    taken: Vec<u8>,
    // At least 1.
    step: usize,
    // How many bytes go well; `None` if all do.
    good: Option<usize>,
    // Whether a call has failed; it stays so.
    has_failed: bool,
}

impl Model for ScriptSink {
    ghost use Rattle.std.specs.Prelude.{◌<◌};
    ghost use Rattle.bt_lines.specs.calls.Device.{Writing};

    ghost Value = { Writing };

    ghost view = { λ s. record {
      taken = s.taken.items;
      step = s.step;
      good = s.good;
      has_failed = s.has_failed;
    } };

    ghost invariant = { λ s. 0 < s.step };
}

impl ScriptSink {
    /// A sink that has taken nothing yet.
    pub fn new(alloc: Global, step: usize, good: Option<usize>) -> ScriptSink
        requires { 0 < step }
        ensures { result ≡ record { taken = []; step = step; good = good; has_failed = false } }
    {
        ScriptSink {
            taken: Vec::new(alloc),
            step,
            good,
            has_failed: false,
        }
    }

    /// The bytes that it has taken.
    pub fn taken(&self) -> &[u8]
        ensures { result.now ≡ self.now.taken }
    {
        self.taken.as_slice()
    }
}

impl Sink for ScriptSink {
    ghost took = { λ s. s.taken };

    ghost has_failed = { λ s. s.has_failed };

    ghost last_failed = { λ s. s.has_failed };

    ghost is_flushed = { λ _. true };

    fn write(&mut self, bytes: &[u8]) -> Result<usize, DeviceFailed>
        ensures within { IfOk result (λ n. n ≤ length bytes.now) }
        ensures progress { IfOk result (λ n. 0 < length bytes.now → 0 < n) }
        ensures takes { IfOk result (λ n. self.new.taken ≡ self.old.taken ++ take n bytes.now) }
        ensures takes_none { OnErr result (self.new.taken ≡ self.old.taken) }
        ensures served { OnOk result (self.new.has_failed ≡ self.old.has_failed) }
        ensures failed { OnErr result (self.new.has_failed ≡ true) }
        ensures last { self.new.has_failed ≡ is_err result }

        ensures count { IfOk result (λ n. 0 < length bytes.now
            → n ≡ let_through self.old.good (length self.old.taken) (min self.old.step (length bytes.now))) }
        ensures spent { IsTrue (is_spent self.old.good (length self.old.taken))
            → 0 < length bytes.now → IsErr result }
        ensures for_good { IsTrue self.old.has_failed → IsErr result × (self.new ≡ self.old) }
        ensures nothing { self.old.has_failed ≡ false → length bytes.now ≡ 0 → IsOk result }
        ensures same_script { (self.new.step ≡ self.old.step) × (self.new.good ≡ self.old.good) }
    {
        if self.has_failed {
            return Err(DeviceFailed);
        }
        if bytes.is_empty() {
            return Ok(0);
        }
        let most = self.step.min(bytes.len());
        let Some(count) = let_through(self.good, self.taken.len(), most) else {
            self.has_failed = true;
            return Err(DeviceFailed);
        };
        if self.taken.extend_from_slice(&bytes[..count]).is_err() {
            self.has_failed = true;
            return Err(DeviceFailed);
        }
        Ok(count)
    }

    fn flush(&mut self) -> Result<(), DeviceFailed>
        ensures takes_none { self.new.taken ≡ self.old.taken }
        ensures served { OnOk result (self.new.has_failed ≡ self.old.has_failed) }
        ensures failed { OnErr result (self.new.has_failed ≡ true) }
        ensures last { self.new.has_failed ≡ is_err result }
        ensures only_after { OnErr result (self.old.has_failed ≡ true) }
        ensures for_good { IsTrue self.old.has_failed → IsErr result }
        ensures unchanged { self.new ≡ self.old }
    {
        if self.has_failed {
            return Err(DeviceFailed);
        }
        Ok(())
    }

    fn failed(&self) -> bool {
        self.has_failed
    }
}
