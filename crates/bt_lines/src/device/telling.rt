//! What the reads of a source tell of its text. The functions do nothing: each carries a fact.

ghost use Rattle.bt_lines.specs.calls.Device.{readers_tell_their_text, scripts_tell_their_text};
ghost use Rattle.bt_lines.specs.calls.Telling.{what_is_left_is_told};

use crate::device::Source;
use std::io::Read;

/// A source over a reader that knows its rest tells it as its text: its reads hand over the start of it, and all of
/// it once one of them reports the end.
pub fn readers_tell_their_text<R: Read>()
    ensures { readers_tell_their_text R.remaining }
{}

/// A script tells the bytes that it hasn't given yet as its text.
pub fn scripts_tell_their_text()
    ensures { scripts_tell_their_text }
{}

/// Once reads handed over the start of a text that a source tells, it tells what is left of it.
pub fn what_is_left_is_told<S: Source>()
    ensures { what_is_left_is_told S.is_read }
{}
