//! Lines put unchanged.

ghost use Rattle.std.specs.Prelude.{◌≡◌, ◌++◌};
ghost use Rattle.bt_lines.specs.model.Lines.{end_bytes};
ghost use Rattle.bt_lines.specs.calls.Output.{Adds};

use bt_lines::{Fault, LineEnd, Out, Sink, put_line};

// Puts a text and its line end, which mostly is a line feed. It doesn't allocate.
#[inline(always)]
pub(crate) fn put_text<K: Sink>(text: &[u8], ending: LineEnd, out: &mut Out<K>) -> Result<(), Fault>
    ensures { Adds out.old.output (text.now ++ end_bytes ending) result out.new.output }
{
    if ending == LineEnd::Lf {
        return put_line(text, b"\n", out);
    }
    put_ended(text, ending, out)
}

// Puts a text and any line end, or nothing if both are empty.
#[tactic(auto, using(crate::proofs::lemmas::BamToBed::some_put))]
#[cold]
#[inline(never)]
fn put_ended<K: Sink>(text: &[u8], ending: LineEnd, out: &mut Out<K>) -> Result<(), Fault>
    ensures { Adds out.old.output (text.now ++ end_bytes ending) result out.new.output }
{
    let end = bytes_of(ending);
    if text.len().max(end.len()) == 0 {
        return Ok(());
    }
    put_line(text, end, out)
}

// The bytes of a line end.
fn bytes_of(ending: LineEnd) -> &'static [u8]
    ensures { result.now ≡ end_bytes ending }
{
    match ending {
        LineEnd::Absent => b"",
        LineEnd::Lf => b"\n",
        LineEnd::CrLf => b"\r\n",
        LineEnd::Cr => b"\r",
    }
}
