//! Records as they are written.

ghost use Rattle.std.specs.Prelude.{◌≡◌, ◌+◌, ◌<◌, ◌++◌, OnOk, OnErr, length, take, vec_capacity};
ghost use Rattle.bt_bed.specs.calls.Bed.{feature_lent};
ghost use Rattle.bt_bed.specs.model.BedLine.{bed_text, cut_to};

use crate::record::bed::BedRef;
use itoa::Buffer;
use std::alloc::AllocError;

/// Adds the line of a record, without its line feed: chromosome, start, end and the kept columns, with
/// tabs between them. Start and end are printed without leading zeros. If memory runs out, nothing
/// is added; that is only if the line has no room for the record.
pub fn write_bed(bed: &BedRef<'_>, line: &mut Vec<u8>) -> Result<(), AllocError>
    ensures appended { OnOk result (line.new.items ≡ line.old.items ++ bed_text (feature_lent bed.now)) }
    ensures unchanged { OnErr result (line.new.items ≡ line.old.items) }
    ensures full { OnErr result (vec_capacity line.old
        < length line.old.items + length (bed_text (feature_lent bed.now))) }
{
    write_cut(bed, bed.start, bed.stop, line)
}

/// Adds the line of a record as [`write_bed`] does, with this start and this end instead of its own: a part
/// of it, with its other columns. The start is zero-based, and the end isn't included. If memory
/// runs out, nothing is added; that is only if the line has no room for the part.
pub fn write_cut(
    bed: &BedRef<'_>,
    start: u64,
    stop: u64,
    line: &mut Vec<u8>,
) -> Result<(), AllocError>
    ensures appended { OnOk result (line.new.items
        ≡ line.old.items ++ bed_text (cut_to start stop (feature_lent bed.now))) }
    ensures unchanged { OnErr result (line.new.items ≡ line.old.items) }
    ensures full { OnErr result (vec_capacity line.old
        < length line.old.items + length (bed_text (cut_to start stop (feature_lent bed.now)))) }
{
    let before = line.len();
    let written = push_columns(bed, start, stop, line);
    if written.is_err() {
        line.truncate(before);
    }
    written
}

// Adds the columns of a record with this start and this end, or if memory runs out some of their
// bytes. It runs out only if the line has no room for them.
fn push_columns(
    bed: &BedRef<'_>,
    start: u64,
    stop: u64,
    line: &mut Vec<u8>,
) -> Result<(), AllocError>
    ensures appended { OnOk result (line.new.items
        ≡ line.old.items ++ bed_text (cut_to start stop (feature_lent bed.now))) }
    ensures kept { take (length line.old.items) line.new.items ≡ line.old.items }
    ensures full { OnErr result (vec_capacity line.old
        < length line.old.items + length (bed_text (cut_to start stop (feature_lent bed.now)))) }
{
    let mut digits = Buffer::new();
    line.extend_from_slice(bed.chrom)?;
    line.extend_from_slice(b"\t")?;
    line.extend_from_slice(digits.format(start).as_bytes())?;
    line.extend_from_slice(b"\t")?;
    line.extend_from_slice(digits.format(stop).as_bytes())?;
    line.extend_from_slice(bed.rest)
}

#[cfg(test)]
mod tests {
    use super::*;
    use crate::tests::record;
    use std::alloc::Global;
    use std::test::Fail;

    // A line, the bounds of the part of its record that is written if it isn't written whole, and
    // what is written.
    #[rattlefmt::skip]
    const WRITTEN: [(&[u8], Option<(u64, u64)>, &[u8]); 6] = [
        (b"chr1\t10\t30\ta", None, b"chr1\t10\t30\ta"),
        (b"chr1\t007\t9\tn\t0\t+", None, b"chr1\t7\t9\tn\t0\t+"),
        (b"chr 1\t000\t00012", None, b"chr 1\t0\t12"),
        (b"c\t999999999998\t999999999999\t", None, b"c\t999999999998\t999999999999\t"),
        (b"chr1\t0\t100\tn\t5\t+", Some((30, 90)), b"chr1\t30\t90\tn\t5\t+"),
        (b"chr1\t010\t020", Some((10, 20)), b"chr1\t10\t20"),
    ];

    // What is written after `> `.
    fn written(
        alloc: Global,
        text: &[u8],
        part: Option<(u64, u64)>,
    ) -> Result<Vec<u8>, AllocError> {
        let mut line = Vec::from_slice(alloc, b"> ")?;
        if let Some(bed) = record(text) {
            match part {
                Some((start, stop)) => write_cut(&bed, start, stop, &mut line)?,
                None => write_bed(&bed, &mut line)?,
            }
        }
        Ok(line)
    }

    #[test]
    fn records_and_parts_are_appended(rt: HostRuntime) -> Result<(), Fail> {
        for (text, part, want) in &WRITTEN {
            let line = written(rt.alloc(), text, *part)?;
            assert_eq!(rt; line.strip_prefix(b"> "), Some(*want), "{text:?} {part:?}");
        }
        Ok(())
    }
}
