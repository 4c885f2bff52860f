//! Records that are kept.

ghost use Rattle.std.specs.Prelude.{◌≡◌, ◌+◌, ◌<◌, IfOk, OnErr, length};
ghost use Rattle.bt_bed.specs.calls.Bed.{feature_lent, inline_size};

use crate::record::bed::BedRef;
use crate::record::inline_text::InlineText;
use crate::record::strand::Strand;
use std::alloc::{AllocError, Global};
use std::marker::Model;

/// A feature that owns its bytes: what a [`BedRef`] borrows. A short text is inline, and a longer
/// one in a buffer. Contracts see the feature itself, so a list of records is a list of features.
#[derive(Debug, Drop)]
pub struct Rec {
    // The chromosome's name, and after it the columns from the fourth on, each with the tab before it. Bytes that are
    // unspecified may come last.
    text: InlineText,
    // How much of the text is the name. The fields below are always those of one feature.
    name_len: usize,
    start: u64,
    stop: u64,
    strand: Strand,
    // How many bytes at the end of the text are unspecified.
    stale_len: u32,
}

impl Model for Rec {
    ghost use Rattle.std.specs.Prelude.{◌-◌, ◌≤◌, length, take};
    ghost use Rattle.bt_bed.specs.model.Feature.{Feature};
    ghost use Rattle.bt_bed.specs.calls.Bed.{IsFeatureIn, feature_in};
    ghost use Rattle.bt_bed.specs.inside.FirstColumns.{bytes_of};

    ghost Value = { Feature };

    ghost view = { λ r. feature_in (take (length (bytes_of r.text) - r.stale_len) (bytes_of r.text))
        r.name_len r.start r.stop r.strand };

    ghost invariant = { λ r. (r.stale_len ≤ length (bytes_of r.text))
        × IsFeatureIn (take (length (bytes_of r.text) - r.stale_len) (bytes_of r.text))
        r.name_len r.start r.stop r.strand };
}

impl Rec {
    /// The record, which borrows from this one. It doesn't allocate.
    #[inline]
    pub fn as_bed(&self) -> BedRef<'_>
        ensures { feature_lent result ≡ self.now }
    {
        let text = self.text.as_slice();
        let len = text.len() - self.stale_len as usize;
        let (chrom, rest) = text[..len].split_at(self.name_len);
        BedRef {
            chrom,
            start: self.start,
            stop: self.stop,
            strand: self.strand,
            rest,
        }
    }
}

impl BedRef<'_> {
    /// The record with bytes of its own. It allocates once if its name and other columns are longer
    /// than what a [`Rec`] has inline, and else not. `Err` if memory runs out. A longer record is refused
    /// only if its allocation was. The contracts of std don't say when an allocation fails, so `test_sizes.py` tries it.
    pub fn to_rec(&self, alloc: Global) -> Result<Rec, AllocError>
        ensures kept { IfOk result (λ rec. rec ≡ feature_lent self.now) }
        ensures long { OnErr result (inline_size < length self.now.chrom.now + length self.now.rest.now) }
    {
        let (text, stale_len) = InlineText::of(alloc, self.chrom, self.rest)?;
        Ok(Rec {
            text,
            name_len: self.chrom.len(),
            start: self.start,
            stop: self.stop,
            strand: self.strand,
            stale_len,
        })
    }
}

#[cfg(test)]
mod tests {
    use super::*;
    use crate::record::strand::Strand::{Dot, Minus, Plus};
    use crate::tests::{Said, record, said};
    use std::test::Fail;

    // Lines, and what their records say. The texts are inline, up to the longest of 31 bytes, or in a
    // buffer, from the shortest of 32 on.
    #[rattlefmt::skip]
    const RECORDS: [(&[u8], Said); 5] = [
        (b"chr1\t0\t15", (0, 15, Dot, b"")),
        (b"chr1\t007\t9\tn\t0\t+", (7, 9, Plus, b"\tn\t0\t+")),
        (b"chr1\t8\t9\tabcdefghijklmnopqrstuvwxyz", (8, 9, Dot, b"\tabcdefghijklmnopqrstuvwxyz")),
        (b"chr1\t8\t10\tabcdefghijklmnopqrstuvwxyz0",
            (8, 10, Dot, b"\tabcdefghijklmnopqrstuvwxyz0")),
        (b"chr1\t1\t11\tlong\t5\t-\t0123456789abcdefghijklmnopqrstuvwxyz0123456789abcdefghijklmnopqrstuvwxyz",
            (1, 11, Minus, b"\tlong\t5\t-\t0123456789abcdefghijklmnopqrstuvwxyz0123456789abcdefghijklmnopqrstuvwxyz")),
    ];

    // Whether the record of a line says this once it is kept.
    fn is_kept(alloc: Global, line: &[u8], want: Said<'_>) -> Result<bool, AllocError> {
        let Some(bed) = record(line) else {
            return Ok(false);
        };
        let rec = bed.to_rec(alloc)?;
        Ok(rec.as_bed().chrom == b"chr1".as_slice() && said(rec.as_bed()) == want)
    }

    #[test]
    fn records_are_kept_and_lent_as_they_were(rt: HostRuntime) -> Result<(), Fail> {
        for (line, want) in &RECORDS {
            assert!(rt; is_kept(rt.alloc(), line, *want)?, "{line:?}");
        }
        Ok(())
    }
}
