//! Columns put to an output.

ghost use Rattle.std.specs.Prelude.{◌≡◌, ◌++◌, decimal, false, true};
ghost use Rattle.bt_lines.specs.calls.Faults.{write_failed};
ghost use Rattle.bt_lines.specs.calls.Output.{FailsToPut, Puts, PutsAll};

use crate::device::Sink;
use crate::fault::Fault;
use crate::fault::faults::write_failed;
use crate::writer::copying::is_wide;
use crate::writer::output::Out;
use itoa::Buffer;

/// Puts a column and what ends it, as a tab or a line feed. It fails with `WriteFailed`, only if the sink has failed:
/// then the sink took a prefix of all bytes put.
#[tactic(auto, using(crate::proofs::lemmas::Writer::puts_more, crate::proofs::lemmas::Writer::puts_from))]
pub fn put_column<K: Sink>(column: &[u8], end: &[u8], out: &mut Out<K>) -> Result<(), Fault>
    ensures { Puts out.old.output (column.now ++ end.now) result out.new.output }
{
    out.put(column)?;
    out.put(end)
}

/// Puts a text and its line end, by one test of the room if there is room for both. It fails as [`put_column`] does.
#[inline]
pub fn put_line<K: Sink>(text: &[u8], end: &[u8], out: &mut Out<K>) -> Result<(), Fault>
    ensures { Puts out.old.output (text.now ++ end.now) result out.new.output }
{
    if out.try_put_pair(text, end) || put_across(text, end, out) {
        return Ok(());
    }
    Err(write_failed())
}

/// Puts two pieces of a line as [`put_line`] does, by a call that they share, and fails as it does. It is fast if both
/// have 1 to 64 bytes.
#[inline(always)]
pub fn put_both<K: Sink>(piece: &[u8], next: &[u8], out: &mut Out<K>) -> Result<(), Fault>
    ensures { Puts out.old.output (piece.now ++ next.now) result out.new.output }
{
    if out.try_put_short(piece, next) || put_across(piece, next, out) {
        return Ok(());
    }
    Err(write_failed())
}

// Puts both if there is no room for them, or one is long, and returns true if it could. A `Result` with a fault would
// take room in the loops that this is called from.
#[cold]
#[inline(never)]
fn put_across<K: Sink>(text: &[u8], end: &[u8], out: &mut Out<K>) -> bool
    ensures put { result ≡ true → PutsAll out.old.output (text.now ++ end.now) out.new.output }
    ensures cut { result ≡ false → FailsToPut out.old.output (text.now ++ end.now) write_failed out.new.output }
{
    put_column(text, end, out).is_ok()
}

/// Puts a number in decimal, without leading zeros, and what ends it. It doesn't allocate. One of up to three digits, as
/// most counts are, is put by the call that [`put_both`] shares. It fails as [`put_column`] does.
pub fn put_number<K: Sink>(number: u64, end: &[u8], out: &mut Out<K>) -> Result<(), Fault>
    ensures { Puts out.old.output (decimal number ++ end.now) result out.new.output }
{
    let mut buffer = Buffer::new();
    let digits = buffer.format(number).as_bytes();
    if is_wide(digits.len()) {
        return put_line(digits, end, out);
    }
    put_both(digits, end, out)
}

#[cfg(test)]
mod tests {
    use super::*;
    use crate::device::script_sink::ScriptSink;

    fn put_all<K: Sink>(out: &mut Out<K>) -> Result<(), Fault> {
        put_column(b"chr1", b"\t", out)?;
        put_number(0, b"\t", out)?;
        put_number(999, b"\t", out)?;
        put_number(999999999999, b"\n", out)?;
        put_both(b"chr1", b"\t", out)?;
        put_line(b"ACGT", b"\r\n", out)?;
        out.flush()
    }

    #[test]
    fn columns_numbers_and_lines_are_put_with_what_ends_them(rt: HostRuntime) {
        let mut out = Out::new(ScriptSink::new(rt.alloc(), 2, None));
        let put = put_all(&mut out);
        let want: &[u8] = b"chr1\t0\t999\t999999999999\nchr1\tACGT\r\n";
        assert_eq!(rt; (put, out.into_sink().taken()), (Ok(()), want));
    }
}
