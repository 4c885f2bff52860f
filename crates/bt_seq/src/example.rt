//! The example of the crate's first page, and bases of a slice that are masked.

use crate::{BamToBed, MaskHow, mask_slice, sam_line};
use bt_lines::{Out, ScriptSink};
use std::test::Fail;

#[test]
fn bed_line_of_an_alignment(rt: HostRuntime) -> Result<(), Fail> {
    let text = b"r\t16\tchr1\t8\t60\t3M2D4M\t*\t0\t0\tACGTACG\t*";
    let sam = sam_line(text)?.ok_or("an alignment")?;
    assert_eq!(rt; (sam.start, sam.stop), (7, 16));
    // Neither cut at its N operations nor with its CIGAR.
    let mut engine = BamToBed::new(false, false);
    let mut out = Out::new(ScriptSink::new(rt.alloc(), 7, None));
    engine.feed(&sam, &mut out)?;
    out.flush()?;
    let line = b"chr1\t7\t16\tr\t60\t-\n".as_slice();
    assert_eq!(rt; out.into_sink().taken(), line);
    Ok(())
}

#[test]
fn masked_bases_of_a_slice(rt: HostRuntime) {
    let mut bases = *b"ACGTACGT";
    // From position 2 up to 6, which isn't included: in lower case, and then the last two of them by an N.
    mask_slice(&mut bases[2..6], MaskHow::Soft);
    mask_slice(&mut bases[4..6], MaskHow::Hard(b'N'));
    assert_eq!(rt; bases.as_slice(), b"ACgtNNGT".as_slice());
}
