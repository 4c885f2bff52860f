//! The line of an interval in BED output.

ghost use Rattle.std.specs.Prelude.{◌≡◌, ◌+◌, ◌≤◌, ◌++◌, codes, decimal, drop, false, true};
ghost use Rattle.bt_lines.specs.calls.Faults.{write_failed};
ghost use Rattle.bt_lines.specs.calls.Output.{FailsToPut, Puts, PutsAll, span_text};
ghost use Rattle.bt_bed.specs.model.BedLine.{interval_line};
ghost use Rattle.bt_bed.specs.inside.FirstColumns.{bounds_text};

use bt_lines::{COLUMN, Fault, Out, Sink, put_both, put_column, write_column, write_failed};

// The room for what follows the name: two columns and what ends the second, a byte.
const ROOM: usize = 2 * COLUMN + 1;

/// Puts the line of an interval. It doesn't allocate. The start is zero-based, and the end isn't included. It fails
/// with `WriteFailed`, only if the sink has failed: then the sink took a prefix of all bytes put.
#[tactic(auto, using(crate::proofs::lemmas::Writing::line_parts))]
#[inline]
pub fn put_interval<K: Sink>(
    chrom: &[u8],
    start: u64,
    stop: u64,
    out: &mut Out<K>,
) -> Result<(), Fault>
    ensures { Puts out.old.output (interval_line (record { chrom = chrom.now; start = start; stop = stop }))
        result out.new.output }
{
    put_ended(chrom, start, stop, b'\n', out)
}

// Puts the name and the bounds of an interval, and a byte that ends them.
#[inline]
pub(crate) fn put_ended<K: Sink>(
    chrom: &[u8],
    start: u64,
    stop: u64,
    end: u8,
    out: &mut Out<K>,
) -> Result<(), Fault>
    ensures { Puts out.old.output (chrom.now ++ span_text start stop end) result out.new.output }
{
    if hold_ended(chrom, start, stop, end, out) || put_slowly(chrom, start, stop, end, out) {
        return Ok(());
    }
    Err(write_failed())
}

// Puts what `put_ended` puts and returns true, if `Out::try_put_interval` does. Out of line, so that the loops over records
// stay small.
#[inline(never)]
fn hold_ended<K: Sink>(chrom: &[u8], start: u64, stop: u64, end: u8, out: &mut Out<K>) -> bool
    ensures held { result ≡ true → PutsAll out.old.output (chrom.now ++ span_text start stop end) out.new.output }
    ensures unchanged { result ≡ false → out.new.output ≡ out.old.output }
{
    out.try_put_interval(chrom, start, stop, end)
}

// Puts what `put_ended` puts, by a text that is written beside the output, and returns true if it could. A
// `Result` with a fault would take room in the loops that this is called from.
#[tactic(auto, using(crate::proofs::lemmas::Writing::puts_text, crate::proofs::lemmas::Writing::was_cut, crate::proofs::lemmas::Writing::was_put))]
#[cold]
#[inline(never)]
fn put_slowly<K: Sink>(chrom: &[u8], start: u64, stop: u64, end: u8, out: &mut Out<K>) -> bool
    ensures put { result ≡ true → PutsAll out.old.output (chrom.now ++ span_text start stop end) out.new.output }
    ensures cut { result ≡ false
        → FailsToPut out.old.output (chrom.now ++ span_text start stop end) write_failed out.new.output }
{
    let mut text = [0; ROOM];
    let first = write_bounds(start, stop, end, &mut text);
    put_column(chrom, &text[first..], out).is_ok()
}

// Puts the name and the bounds of an interval, without a line feed.
#[tactic(auto, using(crate::proofs::lemmas::Writing::bounds_before_feed))]
#[inline]
pub(crate) fn put_columns<K: Sink>(
    chrom: &[u8],
    start: u64,
    stop: u64,
    out: &mut Out<K>,
) -> Result<(), Fault>
    ensures { Puts out.old.output (chrom.now ++ bounds_text start stop) result out.new.output }
{
    let mut text = [0; ROOM];
    let first = write_bounds(start, stop, b'\n', &mut text);
    put_both(chrom, &text[first..ROOM - 1], out)
}

// Writes what follows the name, and a byte that ends it, so that it ends where the text does, and gives where it begins.
// Out of line, as `hold_ended` is.
#[inline(never)]
fn write_bounds(start: u64, stop: u64, end: u8, text: &mut [u8; ROOM]) -> usize
    ensures within { result ≤ ROOM }
    ensures written { drop result text.new ≡ span_text start stop end }
{
    text[ROOM - 1] = end;
    let before_stop = write_column(stop, text, ROOM - 1);
    write_column(start, text, before_stop)
}

#[cfg(test)]
mod tests {
    use super::*;
    use bt_lines::{BLOCK, ScriptSink};

    // Puts a line that doesn't fit into the block that is buffered, lines with the least and the
    // greatest bounds, and a line with a long name.
    fn put_lines<K: Sink>(out: &mut Out<K>) -> Result<(), Fault> {
        out.put(&[b'.'; BLOCK - 5])?;
        put_interval(b"chr 1", 0, 999999999999, out)?;
        put_interval(b"", 7, 8, out)?;
        put_interval(b"chr1", 99999999, 100000000, out)?;
        put_interval(&[b'n'; 65], 7, 8, out)?;
        out.flush()
    }

    #[test]
    fn a_line_has_name_start_and_end(rt: HostRuntime) {
        let mut out = Out::new(ScriptSink::new(rt.alloc(), 3, None));
        let put = put_lines(&mut out);
        let want: &[u8] = b".chr 1\t0\t999999999999\n\t7\t8\nchr1\t99999999\t100000000\n\
            nnnnnnnnnnnnnnnnnnnnnnnnnnnnnnnnnnnnnnnnnnnnnnnnnnnnnnnnnnnnnnnnn\t7\t8\n";
        assert_eq!(rt;
            (put, out.into_sink().taken().ends_with(want)),
            (Ok(()), true)
        );
    }

    // Whether a line is put, and cut by a flush, and then none is put.
    fn fails<K: Sink>(out: &mut Out<K>) -> bool {
        put_interval(b"chr1", 7, 8, out).is_ok()
            && out.flush().is_err()
            && put_interval(b"chr1", 7, 8, out).is_err()
    }

    #[test]
    fn a_line_is_not_put_after_a_failure(rt: HostRuntime) {
        let mut out = Out::new(ScriptSink::new(rt.alloc(), 3, Some(4)));
        let has_failed = fails(&mut out);
        let want: &[u8] = b"chr1";
        assert_eq!(rt; (has_failed, out.into_sink().taken()), (true, want));
    }
}
