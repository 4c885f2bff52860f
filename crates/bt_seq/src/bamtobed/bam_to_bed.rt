//! The engine of `bedtools bamtobed`.

ghost use Rattle.std.specs.Prelude.{◌≡◌, flat_map, IfErr, IsErr, OnOk, None, Some, true};
ghost use Rattle.bt_lines.specs.model.Fault.{FaultValue};
ghost use Rattle.bt_lines.specs.calls.Faults.{write_failed};
ghost use Rattle.bt_lines.specs.calls.Names.{fault_value};
ghost use Rattle.bt_lines.specs.calls.Output.{Adds};
ghost use Rattle.bt_seq.specs.model.BedLines.{bed_lines};
ghost use Rattle.bt_seq.specs.calls.Sam.{alignment_lent};

use crate::bamtobed::bed_line::put_line;
use crate::sam::SamRef;
use crate::sam::splitting::blocks;
use bt_lines::{Fault, Out, Sink, write_failed};
use std::marker::Model;

/// Writes alignments as BED lines, each at once: it keeps nothing of them, and doesn't allocate. Start
/// and end are zero-based, and the end isn't included.
#[derive(Drop, Debug)]
pub struct BamToBed {
    // Whether alignments are cut into blocks.
    split: bool,
    // Whether the CIGAR is one more column.
    with_cigar: bool,
    // Whether a write has failed; it stays so.
    has_failed: bool,
}

impl Model for BamToBed {
    ghost use Rattle.std.specs.Prelude.{None, Some, if◌then◌else◌};
    ghost use Rattle.bt_lines.specs.calls.Faults.{write_failed};
    ghost use Rattle.bt_seq.specs.calls.Sam.{Converting};

    ghost Value = { Converting };

    ghost view = { λ m. record {
      split = m.split;
      with_cigar = m.with_cigar;
      fault = if m.has_failed then Some write_failed else None;
    } };
}

impl BamToBed {
    /// With `split` an alignment is cut at each N of its CIGAR, and each block is a line; with `cigar`
    /// each line has the whole CIGAR as its seventh column.
    pub fn new(split: bool, cigar: bool) -> BamToBed
        ensures { result ≡ record { split = split; with_cigar = cigar; fault = None } }
    {
        BamToBed {
            split,
            with_cigar: cigar,
            has_failed: false,
        }
    }

    /// Writes the lines of an alignment: chromosome, start, end, name with `/1` and `/2` for the first
    /// and the last segment, mapping quality, strand. It fails only if a write fails, and returns
    /// that fault from then on.
    pub fn feed<K: Sink>(&mut self, sam: &SamRef<'_>, out: &mut Out<K>) -> Result<(), Fault>
        ensures writes { self.old.fault ≡ None
            → Adds out.old.output (bed_lines self.old.split self.old.with_cigar (alignment_lent sam.now)) result out.new.output }
        ensures unchanged { OnOk result (self.new ≡ self.old) }
        ensures kept { IfErr result (λ fault.
            self.new ≡ record self.old { fault = Some (fault_value fault) }) }
        ensures cause { IfErr result (λ fault. fault_value fault ≡ write_failed) }
        ensures again { (fault : FaultValue) → self.old.fault ≡ Some fault
            → IsErr result × (self.new ≡ self.old) × (out.new.output ≡ out.old.output) }
    {
        if self.has_failed {
            return Err(write_failed());
        }
        let put = put_lines(sam, self.split, self.with_cigar, out);
        self.has_failed = put.is_err();
        put
    }
}

// Puts the line of each block of an alignment.
#[tactic(auto, using(crate::proofs::lemmas::BamToBed::adds_line))]
fn put_lines<K: Sink>(
    sam: &SamRef<'_>,
    split: bool,
    with_cigar: bool,
    out: &mut Out<K>,
) -> Result<(), Fault>
    ensures { Adds out.old.output (bed_lines split with_cigar (alignment_lent sam.now)) result out.new.output }
{
    if !split {
        return put_line(sam, sam.start, sam.stop, with_cigar, out);
    }
    put_blocks(sam, with_cigar, out)
}

// Puts the line of each block of an alignment that is cut at each N.
#[tactic(auto, using(std::proofs::lemmas::Result::err_from_is_err_and))]
#[inline(never)]
fn put_blocks<K: Sink>(sam: &SamRef<'_>, with_cigar: bool, out: &mut Out<K>) -> Result<(), Fault>
    ensures { Adds out.old.output (bed_lines true with_cigar (alignment_lent sam.now)) result out.new.output }
{
    for (start, stop) in blocks(sam, true) {
        put_line(sam, start, stop, with_cigar, out)?;
    }
    Ok(())
}

#[cfg(test)]
mod tests;
