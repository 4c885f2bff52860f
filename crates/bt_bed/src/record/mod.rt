//! What a record is to those that take records.

pub(crate) mod bed;
pub(crate) mod inline_text;
pub(crate) mod kept_strand;
pub(crate) mod raw_record;
pub(crate) mod rec;
pub(crate) mod strand;
pub(crate) mod taken;

ghost use Rattle.std.specs.Prelude.{◌≡◌, ◌∷◌, ◌++◌, ℕ, List, [], IfSome, IsTrue};
ghost use Rattle.bt_bed.specs.calls.Bed.{feature_lent, raw_in, record_in};
ghost use Rattle.bt_bed.specs.model.Feature.{Feature};
ghost use Rattle.bt_bed.specs.model.BedLine.{bed_text};
ghost use Rattle.bt_bed.specs.calls.Features.{IsRecord};

use crate::record::bed::BedRef;
use crate::record::kept_strand::kept_strand;
use crate::record::raw_record::RawRecord;
use crate::record::strand::Strand;
use bt_lines::ends_with_return;

/// A record: a line that a reader has buffered ([`RawRecord`]), or a [`BedRef`] that a caller gives.
pub trait Record: Copy {
    // The record.
    ghost feature: { Self → Feature };

    // The bytes of its line with its end, if it is on one that is buffered.
    ghost raw: { Self → List ℕ };

    /// The record with its columns.
    fn bed(&self) -> BedRef<'_>
        ensures { feature_lent result ≡ feature self.now };

    /// Its chromosome. Unlike [`Record::bed`] it doesn't look for the strand.
    fn chrom(&self) -> &[u8]
        ensures { result.now ≡ (feature self.now).chrom };

    /// Where it starts on its chromosome, zero-based.
    fn start(&self) -> u64
        ensures { result ≡ (feature self.now).start };

    /// Where it ends on its chromosome, above its start; the end isn't included.
    fn stop(&self) -> u64
        ensures is { result ≡ (feature self.now).stop }
        ensures said { IsRecord (feature self.now) };

    /// Its text, if it is buffered as the record is written.
    fn written(&self) -> Option<&[u8]>
        ensures { IfSome result (λ text. text.now ≡ bed_text (feature self.now)) };

    /// True only if its buffered line, with its end, is what is written for it.
    fn is_canonical_line(&self) -> bool
        ensures { IsTrue result → raw self.now ≡ bed_text (feature self.now) ++ 10 ∷ [] };

    /// Its strand.
    fn strand(&self) -> Strand
        ensures { result ≡ (feature self.now).strand };
}

impl<'a> Record for BedRef<'a> {
    ghost feature = { feature_lent };

    ghost raw = { λ bed. [] };

    #[inline(always)]
    fn bed(&self) -> BedRef<'_> {
        *self
    }

    #[inline(always)]
    fn chrom(&self) -> &[u8] {
        self.chrom
    }

    #[inline(always)]
    fn start(&self) -> u64 {
        self.start
    }

    #[inline(always)]
    fn stop(&self) -> u64 {
        self.stop
    }

    #[inline(always)]
    fn written(&self) -> Option<&[u8]> {
        None
    }

    #[inline(always)]
    fn is_canonical_line(&self) -> bool {
        false
    }

    #[inline(always)]
    fn strand(&self) -> Strand {
        self.strand
    }
}

#[tactic(auto, unfolding(crate::specs::calls::Bed::record_in, crate::specs::calls::Bed::raw_in, crate::specs::calls::Bed::text_in, crate::specs::calls::Bed::kept_in))]
impl<'a> Record for RawRecord<'a> {
    ghost feature = { record_in };

    ghost raw = { raw_in };

    #[inline(always)]
    fn bed(&self) -> BedRef<'_> {
        self.to_bed()
    }

    #[inline(always)]
    fn chrom(&self) -> &[u8] {
        self.chrom()
    }

    #[inline(always)]
    fn start(&self) -> u64 {
        self.start.value
    }

    #[inline(always)]
    fn stop(&self) -> u64 {
        self.stop.value
    }

    #[inline(always)]
    fn written(&self) -> Option<&[u8]> {
        if self.is_canonical() {
            Some(self.text())
        } else {
            None
        }
    }

    #[inline(always)]
    fn is_canonical_line(&self) -> bool {
        !ends_with_return(self.line) && self.is_canonical()
    }

    #[inline(always)]
    fn strand(&self) -> Strand {
        kept_strand(self.text(), self.name + self.start.end + self.stop.end + 2)
    }
}
