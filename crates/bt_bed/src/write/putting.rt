//! Records put to an output.

ghost use Rattle.std.specs.Prelude.{◌++◌};
ghost use Rattle.bt_lines.specs.calls.Output.{Puts};
ghost use Rattle.bt_bed.specs.calls.Bed.{feature_lent};
ghost use Rattle.bt_bed.specs.model.BedLine.{bed_text, cut_to};

use crate::record::bed::BedRef;
use crate::write::interval_line::{put_columns, put_ended};
use bt_lines::{Fault, Out, Sink, put_line};

/// Puts a record and what ends it, as a tab or a line feed: chromosome, start, end and the kept
/// columns, with tabs between them. Start and end are printed without leading zeros. It doesn't
/// allocate. It fails with `WriteFailed`, only if the sink has failed: then the sink took a prefix of all bytes put.
pub fn put_bed<K: Sink>(bed: &BedRef<'_>, end: &[u8], out: &mut Out<K>) -> Result<(), Fault>
    ensures { Puts out.old.output (bed_text (feature_lent bed.now) ++ end.now) result out.new.output }
{
    put_cut(bed, bed.start, bed.stop, end, out)
}

/// Puts a record as [`put_bed`] does, with this start, which is zero-based, and this end, which isn't
/// included, instead of its own: a part of it, with its other columns. It doesn't allocate, and fails as [`put_bed`]
/// does.
pub fn put_cut<K: Sink>(
    bed: &BedRef<'_>,
    start: u64,
    stop: u64,
    end: &[u8],
    out: &mut Out<K>,
) -> Result<(), Fault>
    ensures { Puts out.old.output (bed_text (cut_to start stop (feature_lent bed.now)) ++ end.now) result out.new.output }
{
    if bed.rest.is_empty() && end.len() == 1 {
        return put_ended(bed.chrom, start, stop, end[0], out);
    }
    put_columns(bed.chrom, start, stop, out)?;
    put_line(bed.rest, end, out)
}

#[cfg(test)]
mod tests {
    use super::*;
    use crate::tests::record;
    use bt_lines::{BLOCK, ScriptSink, put_number};
    use std::alloc::Global;
    use std::test::Fail;

    // Puts the lines of two records that share bases: the shared part beside the second, both with the
    // number of shared bases, and the second with nothing after it.
    fn put_lines<K: Sink>(a: &BedRef<'_>, b: &BedRef<'_>, out: &mut Out<K>) -> Result<(), Fault> {
        put_cut(a, 10, 15, b"\t", out)?;
        put_bed(b, b"\n", out)?;
        put_bed(a, b"\t", out)?;
        put_bed(b, b"\t", out)?;
        put_number(5, b"\n", out)?;
        put_bed(b, b"", out)?;
        out.flush()
    }

    const LINES: &[u8] =
        b"chr1\t10\t15\ta\tchr1\t0\t15\nchr1\t10\t30\ta\tchr1\t0\t15\t5\nchr1\t0\t15";

    // What the sink takes: all, or nine bytes and then it fails.
    const TAKEN: [(Option<usize>, &[u8]); 2] = [(None, LINES), (Some(9), b"chr1\t10\t1")];

    #[test]
    fn records_and_parts_share_a_line(rt: HostRuntime) -> Result<(), Fail> {
        let a = record(b"chr1\t010\t30\ta").ok_or("a record")?;
        let b = record(b"chr1\t0\t15").ok_or("a record")?;
        for (good, want) in &TAKEN {
            let mut out = Out::new(ScriptSink::new(rt.alloc(), 3, *good));
            let is_put = put_lines(&a, &b, &mut out).is_ok();
            assert_eq!(rt; (is_put, out.into_sink().taken()), (good.is_none(), *want));
        }
        Ok(())
    }

    // An output with room for this many bytes in its block, whose sink takes nothing.
    fn nearly_full(alloc: Global, room: usize) -> Result<Out<ScriptSink>, Fail> {
        let mut out = Out::new(ScriptSink::new(alloc, 512, Some(0)));
        out.put([b'.'; BLOCK].get(room..).unwrap_or(b""))?;
        Ok(out)
    }

    #[test]
    fn a_line_that_has_no_room_and_cannot_be_written(rt: HostRuntime) -> Result<(), Fail> {
        for line in [b"chr1\t0\t15".as_slice(), b"chr1\t0\t15\ta"] {
            let bed = record(line).ok_or("a record")?;
            for room in 0..line.len() {
                let mut out = nearly_full(rt.alloc(), room)?;
                let put = put_cut(&bed, 5, 15, b"\n", &mut out);
                assert!(rt;
                    put.is_err() && out.into_sink().taken().is_empty(),
                    "{room}"
                );
            }
        }
        Ok(())
    }
}
