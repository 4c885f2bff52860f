//! A source that plays a script, for tests.

ghost use Rattle.std.specs.Prelude.{◌≡◌, ℕ, ◌<◌, ◌≤◌, ◌↔◌, IsTrue, length, IfNone, IfSome, IfOk, OnOk, OnErr, Some, true, false, drop, take, IsErr, min, ◌+◌, ◌-◌};
ghost use Rattle.std.specs.Io.KnownBytes.{ReadConsumes};
ghost use Rattle.bt_lines.specs.calls.Device.{TellsEnd, IsScriptRead, call_of, is_spent, let_through};

use crate::device::{DeviceFailed, Source, let_through};
use std::marker::Model;

/// Hands over the bytes of a text, at most `step` of them a call, and fails once `good` bytes were
/// given, also if the text has ended.
#[derive(Drop, Debug)]
pub struct ScriptSource<'a> {
    // All that it ever gives.
    bytes: &'a [u8],
    // At least 1.
    step: usize,
    // How many bytes go well; `None` if all do.
    good: Option<usize>,
    // How many bytes were given, at most all.
    given: usize,
    // Whether a call has failed; it stays so.
    has_failed: bool,
    // Whether a call with a block with room was given no bytes.
    end_told: bool,
}

impl<'a> Model for ScriptSource<'a> {
    ghost use Rattle.std.specs.Prelude.{length, ◌≤◌, ◌<◌};
    ghost use Rattle.bt_lines.specs.calls.Device.{Reading};

    ghost Value = { Reading };

    ghost view = { λ s. record {
      bytes = s.bytes.now;
      step = s.step;
      good = s.good;
      given = s.given;
      has_failed = s.has_failed;
      end_told = s.end_told;
    } };

    ghost invariant = { λ s. (0 < s.step) × (s.given ≤ length s.bytes.now) };
}

impl<'a> ScriptSource<'a> {
    /// A source that has given nothing yet.
    pub fn new(bytes: &'a [u8], step: usize, good: Option<usize>) -> ScriptSource<'a>
        requires { 0 < step }
        ensures { result ≡ record {
          bytes = bytes.now;
          step = step;
          good = good;
          given = 0;
          has_failed = false;
          end_told = false;
        } }
    {
        ScriptSource {
            bytes,
            step,
            good,
            given: 0,
            has_failed: false,
            end_told: false,
        }
    }

    /// How many bytes it has given.
    pub fn given(&self) -> usize
        ensures { result ≡ self.now.given }
    {
        self.given
    }
}

// Copies as much of `from` as fits to the start of `to`.
fn copy_front(from: &[u8], to: &mut [u8])
    requires { length from.now ≤ length to.old }
    ensures { take (length from.now) to.new ≡ from.now }
{
    let count = from.len();
    to[..count].copy_from_slice(from);
}

#[tactic(auto, using(crate::proofs::lemmas::Device::handed_on))]
impl Source for ScriptSource<'_> {
    ghost has_failed = { λ s. s.has_failed };

    ghost is_read = { IsScriptRead };

    fn read(&mut self, block: &mut [u8]) -> Result<usize, DeviceFailed>
        ensures within { IfOk result (λ n. n ≤ length block.new) }
        ensures bytes { ReadConsumes (Some (drop self.old.given self.old.bytes))
            (Some (drop self.new.given self.new.bytes)) result block.new }
        ensures served { OnOk result (self.new.has_failed ≡ self.old.has_failed) }
        ensures failed { OnErr result (self.new.has_failed ≡ true) }
        ensures handed { 0 < length block.new → IsScriptRead self.old (call_of result block.new) self.new }
        ensures end { TellsEnd self.old.end_told self.new.end_told result block.new }

        ensures spent { IsErr result ↔ IsTrue (is_spent self.old.good self.old.given) }
        ensures count { IfOk result (λ n. n ≡ let_through self.old.good self.old.given
            (min (min self.old.step (length block.new)) (length self.old.bytes - self.old.given))) }
        ensures given { IfOk result (λ n. self.new.given ≡ self.old.given + n) }
        ensures given_at_failure { OnErr result (self.new.given ≡ self.old.given) }
        ensures same_script { (self.new.bytes ≡ self.old.bytes) × (self.new.step ≡ self.old.step)
            × (self.new.good ≡ self.old.good) }
    {
        let room = block.len();
        let most = self.step.min(room).min(self.bytes.len() - self.given);
        let Some(count) = let_through(self.good, self.given, most) else {
            self.has_failed = true;
            return Err(DeviceFailed);
        };
        copy_front(&self.bytes[self.given..self.given + count], block);
        self.given += count;
        if count == 0 && room > 0 {
            self.end_told = true;
        }
        Ok(count)
    }

    fn failed(&self) -> bool {
        self.has_failed
    }
}
