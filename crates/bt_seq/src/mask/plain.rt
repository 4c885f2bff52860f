//! The masked bases of a line, each by a look at all records: slow, and plainly what the definition says. Tests compare the
//! engine with it.

ghost use Rattle.std.specs.Prelude.{◌≡◌, ◌+◌, ◌<◌, ◌^◌, ◌∷◌, [], IfOk, length};
ghost use Rattle.std.specs.List.{list_any};
ghost use Rattle.bt_bed.specs.model.Feature.{record_covers};
ghost use Rattle.bt_seq.specs.model.Masked.{masked_from};

use crate::mask::mask_how::{MaskHow, mask_byte};
use bt_bed::Rec;
use std::alloc::{AllocError, Global};

/// The bases of a line, of whose sequence that many come before it. Those that a record covers are masked.
pub(crate) fn plain_masked(
    alloc: Global,
    how: MaskHow,
    records: &[Rec],
    before: u64,
    bases: &[u8],
) -> Result<Vec<u8>, AllocError>
    requires { before + length bases.now < 2 ^ 64 }
    ensures { IfOk result (λ v. v.items ≡ masked_from how records.now before bases.now) }
{
    let mut masked = Vec::new(alloc);
    let mut position = before;
    for base in bases {
        masked.push(plain_base(how, records, position, *base))?;
        position += 1;
    }
    Ok(masked)
}

// The base at a position, masked if a record covers it.
fn plain_base(how: MaskHow, records: &[Rec], position: u64, base: u8) -> u8
    ensures { result ∷ [] ≡ masked_from how records.now position (base ∷ []) }
{
    if is_covered(records, position) {
        mask_byte(base, how)
    } else {
        base
    }
}

fn is_covered(records: &[Rec], position: u64) -> bool
    ensures { result ≡ list_any (record_covers position) records.now }
{
    records.iter().any(|rec| rec.as_bed().start <= position && position < rec.as_bed().stop)
}

#[cfg(test)]
mod tests {
    use super::*;
    use crate::mask::Mask;
    use crate::mask::tests::give;
    use bt_bed::parse_bed;
    use bt_lines::ScriptSink;
    use std::test::Fail;

    // All intervals of six positions.
    #[rattlefmt::skip]
    const INTERVALS: [(u64, u64); 21] = [
        (0, 1), (0, 2), (0, 3), (0, 4), (0, 5), (0, 6), (1, 2), (1, 3), (1, 4), (1, 5), (1, 6),
        (2, 3), (2, 4), (2, 5), (2, 6), (3, 4), (3, 5), (3, 6), (4, 5), (4, 6), (5, 6),
    ];

    const FASTA: &[u8] = b">s\nACG\nTAC\n";

    // What the plain program makes of the FASTA text.
    fn plain_text(alloc: Global, records: &[Rec]) -> Result<Vec<u8>, AllocError> {
        let mut text = Vec::new(alloc);
        text.extend_from_slice(b">s\n")?;
        for (before, bases) in &[(0, b"ACG"), (3, b"TAC")] {
            let masked = plain_masked(alloc, MaskHow::Soft, records, *before, *bases)?;
            text.extend_from_slice(masked.as_slice())?;
            text.push(b'\n')?;
        }
        Ok(text)
    }

    // The BED text of these intervals, and their records.
    fn records_of(
        alloc: Global,
        intervals: &[(u64, u64)],
    ) -> Result<(Vec<u8>, Vec<Rec>), AllocError> {
        let mut text = Vec::new(alloc);
        let mut records = Vec::new(alloc);
        for (start, stop) in intervals {
            let line = format!(in alloc; "s\t{start}\t{stop}\n")?;
            text.extend_from_slice(line.as_bytes())?;
            let line = line.as_bytes().strip_suffix(b"\n").unwrap_or(b"");
            if let Ok(Some(bed)) = parse_bed(line) {
                records.push(bed.to_rec(alloc)?)?;
            }
        }
        Ok((text, records))
    }

    // Whether the engine writes what the plain program does.
    fn is_like_plain(alloc: Global, intervals: &[(u64, u64)]) -> Result<bool, AllocError> {
        let (text, records) = records_of(alloc, intervals)?;
        let want = plain_text(alloc, records.as_slice())?;
        let mut mask = Mask::new(alloc, MaskHow::Soft, false);
        let sink = ScriptSink::new(alloc, 7, None);
        let (sink, driven) = give(&mut mask, alloc, (FASTA, text.as_slice()), sink, false);
        Ok(driven.is_ok() && records.len() == intervals.len() && sink.taken() == want.as_slice())
    }

    // The intervals at these indices, which don't come in order if a start falls; none for an index past the last.
    fn intervals_at(
        alloc: Global,
        indices: [usize; 3],
    ) -> Result<Option<Vec<(u64, u64)>>, AllocError> {
        let mut intervals = Vec::new(alloc);
        let mut last = 0;
        for index in indices {
            if let Some((start, stop)) = INTERVALS.get(index) {
                if *start < last {
                    return Ok(None);
                }
                last = *start;
                intervals.push((*start, *stop))?;
            }
        }
        Ok(Some(intervals))
    }

    // Whether all lists of up to three intervals whose first is at this index are masked alike.
    fn are_like_plain(alloc: Global, first: usize) -> Result<bool, AllocError> {
        for second in 0..22_usize {
            for third in 0..22_usize {
                let Some(intervals) = intervals_at(alloc, [first, second, third])? else {
                    continue;
                };
                if !is_like_plain(alloc, intervals.as_slice())? {
                    return Ok(false);
                }
            }
        }
        Ok(true)
    }

    #[test]
    fn all_small_inputs_are_masked_as_the_plain_program_does(rt: HostRuntime) -> Result<(), Fail> {
        for first in 0..22_usize {
            assert!(rt; are_like_plain(rt.alloc(), first)?, "{first}");
        }
        Ok(())
    }
}
