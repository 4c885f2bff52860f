//! Sweeping two sorted inputs: a sweep is given the records of both.

ghost use Rattle.std.specs.Prelude.{◌≡◌, None, Some, option_map};
ghost use Rattle.bt_lines.specs.calls.Names.{fault_value};
ghost use Rattle.bt_lines.specs.calls.Output.{HoldsBlock};
ghost use Rattle.bt_lines.specs.calls.Reader.{fault_kept as line_fault};
ghost use Rattle.bt_bed.specs.model.BedLine.{IsBedKind};
ghost use Rattle.bt_bed.specs.calls.Orders.{IsTotal};
ghost use Rattle.bt_bed.specs.calls.Records.{below, buffered_in, fault_kept, order_in, view_of};
ghost use Rattle.bt_bed.specs.calls.CursorOf.{batch_cursor};
ghost use Rattle.bt_bed.specs.declared.read.batch.Batch.{Batch};
ghost use Rattle.bt_sweep.specs.calls.Sweeping.{AdvancesOn};
ghost use Rattle.bt_sweep.specs.calls.SweepView.{order_of as sweep_order, state_of};
ghost use Rattle.bt_tool.specs.model.Behaviour.{of_intersect};
ghost use Rattle.bt_tool.specs.inside.Feed.{ConsumesGiven, HasTaken, IsKeptBelow};
ghost use Rattle.bt_tool.specs.inside.SweepLoop.{ReadsRest};
ghost use Rattle.bt_tool.specs.calls.Run.{AnswersNoRead, RunsBy, TellsNoRead};

use crate::loops::Sources;
use crate::loops::two_inputs::{TwoInputEngine, run_two};
use bt_bed::{ChromOrder, Records};
use bt_lines::{Fault, Input, LineReader, Out, Sink, Source};
use bt_sweep::{HeldIndex, HitRule, Shape, Sweep, Want};
use std::alloc::Global;

/// What a sweep writes, by which rule, and how many records of the second input it may hold.
#[derive(Clone, Copy, Debug)]
pub(crate) struct SweepConfig {
    pub(crate) shape: Shape,
    pub(crate) rule: HitRule,
    // `None` if there is no limit.
    pub(crate) limit: Option<u64>,
}

// Gives the sweep what both inputs have buffered, and consumes what it took.
fn advance_buffered<A: Source, B: Source, O: ChromOrder, K: Sink>(
    first: &mut Records<'_, A, O>,
    second: &mut Records<'_, B, O>,
    sweep: &mut Sweep<'_, HeldIndex, O>,
    out: &mut Out<K>,
) -> Result<(), Fault>
    requires order { sweep_order sweep.old ≡ order_in first.old }
    requires second { sweep_order sweep.old ≡ order_in second.old }
    ensures advances { (firsts : Batch) × (seconds : Batch) × (last_firsts : Batch) × (last_seconds : Batch)
        × ConsumesGiven A.Source first.old firsts last_firsts first.new
        × ConsumesGiven B.Source second.old seconds last_seconds second.new
        × AdvancesOn batch_cursor batch_cursor (sweep_order sweep.old) (state_of sweep.old) firsts seconds
        out.old.output result (state_of sweep.new) last_firsts last_seconds out.new.output }
    ensures order { sweep_order sweep.new ≡ sweep_order sweep.old }
{
    let mut firsts = first.buffered();
    let mut seconds = second.buffered();
    let swept = sweep.advance(&mut firsts, &mut seconds, out);
    let first_consumed = firsts.consumed();
    first.consume(first_consumed);
    let second_consumed = seconds.consumed();
    second.consume(second_consumed);
    swept
}

// Consumes all records that are buffered.
fn consume_buffered<B: Source, O: ChromOrder>(second: &mut Records<'_, B, O>)
    ensures takes { HasTaken B.Source (view_of second.old) (buffered_in second.old) (view_of second.new) }
    ensures order { order_in second.new ≡ order_in second.old }
{
    let mut seconds = second.buffered();
    while let Some(_next) = seconds.next() {}
    let consumed = seconds.consumed();
    second.consume(consumed);
}

// Reads an input to its end, so that a fault after the last record that was wanted is reported.
fn check_rest<B: Source, O: ChromOrder>(second: &mut Records<'_, B, O>) -> Result<(), Fault>
    ensures reads { ReadsRest B.Source (IsBedKind (order_in second.old)) (view_of second.old) result (view_of second.new) }
    ensures none_kept { fault_kept second.old ≡ None → AnswersNoRead result → TellsNoRead (line_fault (below second.new)) }
    ensures kept { fault_kept second.old ≡ None → IsKeptBelow (view_of second.new) (below second.new) }
{
    while second.fill()? {
        consume_buffered(second);
    }
    Ok(())
}

// Two readers of records, and the sweep that is given their records.
struct SweepRun<'o, A, B, O: ChromOrder> {
    first: Records<'o, A, O>,
    second: Records<'o, B, O>,
    sweep: Sweep<'o, HeldIndex, O>,
}

impl<'o, A: Source, B: Source, O: ChromOrder> TwoInputEngine for SweepRun<'o, A, B, O> {
    ghost use Rattle.bt_tool.specs.inside.SweepLoop.{sweep_run};

    ghost definition = { sweep_run A.Source B.Source };

    fn want(&self) -> Want {
        self.sweep.want()
    }

    fn fill_first(&mut self) -> Result<(), Fault> {
        if self.first.fill()? {
            return Ok(());
        }
        self.sweep.end_a();
        Ok(())
    }

    fn fill_second<K: Sink>(&mut self, out: &mut Out<K>) -> Result<(), Fault> {
        if self.second.fill()? {
            return Ok(());
        }
        self.sweep.end_b(out)
    }

    fn give_buffered<K: Sink>(&mut self, out: &mut Out<K>) -> Result<(), Fault> {
        advance_buffered(&mut self.first, &mut self.second, &mut self.sweep, out)
    }

    // A fault after the last record that was wanted is reported.
    fn finish(&mut self) -> Result<(), Fault> {
        check_rest(&mut self.second)
    }
}

/// Sweeps two inputs, in an order of their chromosomes, and writes the lines of a shape by a rule of what
/// hits a record. If there is a limit, no more records of the second are held than it allows. It gives
/// the sources back, and the fault that the run ends with, if there is one. The second input is read
/// only as far as the records of the first need, and once those are all written, to its end.
pub(crate) fn sweep<A: Source, B: Source, O: ChromOrder, K: Sink>(
    alloc: Global,
    order: &O,
    config: SweepConfig,
    sources: Sources<A, B>,
    out: &mut Out<K>,
) -> (Option<Fault>, Sources<A, B>)
    requires total { IsTotal (O.order order.now) }
    requires block { HoldsBlock out.old.output.took out.old.output.put }
    ensures { RunsBy A.Source B.Source
        (of_intersect (O.order order.now) config.shape config.rule config.limit)
        sources.first (Some sources.second) out.old.output (option_map fault_value result.0)
        result.1.first (Some result.1.second) out.new.output }
{
    let Sources { first, second } = sources;
    let first = Records::new(alloc, LineReader::new(alloc, first, Input::First), order);
    let second = Records::new(alloc, LineReader::new(alloc, second, Input::Second), order);
    let sweep = Sweep::new(
        alloc,
        HeldIndex::new(alloc),
        config.shape,
        config.rule,
        config.limit,
        order,
    );
    let mut run = SweepRun {
        first,
        second,
        sweep,
    };
    let swept = run_two(&mut run, out);
    let SweepRun {
        first,
        second,
        sweep: _sweep,
    } = run;
    let first = first.into_reader().into_source();
    let second = second.into_reader().into_source();
    (swept.err(), Sources { first, second })
}
