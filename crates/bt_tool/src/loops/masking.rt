//! Masking a FASTA input by a BED input: a masking engine is given the lines and the records.

ghost use Rattle.std.specs.Prelude.{Some, option_map};
ghost use Rattle.bt_lines.specs.calls.Names.{fault_value};
ghost use Rattle.bt_lines.specs.calls.Output.{HoldsBlock};
ghost use Rattle.bt_tool.specs.model.Behaviour.{of_maskfasta};
ghost use Rattle.bt_tool.specs.calls.Run.{RunsBy};

use crate::loops::Sources;
use crate::loops::two_inputs::{TwoInputEngine, run_two};
use bt_bed::Blocks;
use bt_lines::{Fault, Input, LineReader, Out, Sink, Source};
use bt_seq::{Mask, MaskHow, MaskWant};
use bt_sweep::Want;
use std::alloc::Global;

// A reader of lines and one of records, and the masking engine that is given their lines and records.
struct MaskRun<A, B> {
    lines: LineReader<A>,
    records: Blocks<B>,
    mask: Mask,
}

impl<A: Source, B: Source> TwoInputEngine for MaskRun<A, B> {
    ghost use Rattle.bt_tool.specs.inside.MaskLoop.{mask_run};

    ghost definition = { mask_run A.Source B.Source };

    fn want(&self) -> Want {
        match self.mask.want() {
            MaskWant::Line => Want::A,
            MaskWant::Bed => Want::B,
            MaskWant::Nothing => Want::Nothing,
        }
    }

    fn fill_first(&mut self) -> Result<(), Fault> {
        if self.lines.fill()? {
            return Ok(());
        }
        self.mask.end_lines();
        Ok(())
    }

    fn fill_second<K: Sink>(&mut self, out: &mut Out<K>) -> Result<(), Fault> {
        if self.records.fill()? {
            return Ok(());
        }
        self.mask.end_bed(out)
    }

    fn give_buffered<K: Sink>(&mut self, out: &mut Out<K>) -> Result<(), Fault> {
        let mut texts = self.lines.buffered();
        let mut beds = self.records.buffered();
        let masked = self.mask.advance(&mut texts, &mut beds, out);
        let consumed = texts.consumed();
        self.lines.consume(consumed);
        let consumed = beds.consumed();
        self.records.consume(consumed);
        masked
    }

    // The engine wants both inputs to their ends, so nothing is left to check.
    fn finish(&mut self) -> Result<(), Fault> {
        Ok(())
    }
}

/// Masks the bases of a FASTA input that the records of a BED input cover, and writes its lines. It gives
/// the sources back, and the fault that the run ends with, if there is one. The records are read only as far
/// as the lines need, and once those have ended without a fault, to their end or their first fault.
pub(crate) fn mask<A: Source, B: Source, K: Sink>(
    alloc: Global,
    how: MaskHow,
    full: bool,
    sources: Sources<A, B>,
    out: &mut Out<K>,
) -> (Option<Fault>, Sources<A, B>)
    requires { HoldsBlock out.old.output.took out.old.output.put }
    ensures { RunsBy A.Source B.Source (of_maskfasta how full)
        sources.first (Some sources.second) out.old.output (option_map fault_value result.0)
        result.1.first (Some result.1.second) out.new.output }
{
    let Sources { first, second } = sources;
    let lines = LineReader::new(alloc, first, Input::First);
    let records = Blocks::new(alloc, LineReader::new(alloc, second, Input::Second));
    let mask = Mask::new(alloc, how, full);
    let mut run = MaskRun {
        lines,
        records,
        mask,
    };
    let masked = run_two(&mut run, out);
    let MaskRun {
        lines,
        records,
        mask: _mask,
    } = run;
    let first = lines.into_source();
    let second = records.into_reader().into_source();
    (masked.err(), Sources { first, second })
}
