//! Feeding an engine with the records of an input.

ghost use Rattle.std.specs.Prelude.{◌≡◌, [], List, None, option_map};
ghost use Rattle.bt_lines.specs.calls.Names.{fault_value};
ghost use Rattle.bt_lines.specs.calls.Output.{HoldsBlock};
ghost use Rattle.bt_lines.specs.calls.Reader.{fault_kept as line_fault};
ghost use Rattle.bt_bed.specs.model.Feature.{Feature, intervals_of};
ghost use Rattle.bt_bed.specs.calls.Orders.{AreNonEmpty, IsTotal, ArePlaced};
ghost use Rattle.bt_bed.specs.model.BedLine.{IsBedKind};
ghost use Rattle.bt_bed.specs.model.Sorted.{sorting_of};
ghost use Rattle.bt_bed.specs.model.Good.{bed_format};
ghost use Rattle.bt_bed.specs.calls.Records.{below, last_locus, order_in, view_of};
ghost use Rattle.bt_bed.specs.calls.CursorOf.{batch_cursor};
ghost use Rattle.bt_bed.specs.declared.read.batch.Batch.{Batch};
ghost use Rattle.bt_runs.specs.calls.Engine.{FeedsBatch, SettledBegins, SettledStays};
ghost use Rattle.bt_tool.specs.model.Behaviour.{of_records};
ghost use Rattle.bt_tool.specs.inside.Feed.{AreInOrder, ConsumesGiven, FeedsMembers, IsFresh, IsKeptBelow};
ghost use Rattle.bt_tool.specs.calls.Run.{AnswersNoRead, RunsAlone, TellsNoRead};

use bt_bed::{ChromOrder, Records};
use bt_lines::{Fault, Input, LineReader, Out, Sink, Source};
use bt_runs::Engine;
use std::alloc::Global;

// Feeds an engine that has taken no record with all records of a reader.
fn feed_all<S: Source, O: ChromOrder, E: Engine, K: Sink>(
    records: &mut Records<'_, S, O>,
    engine: &mut E,
    out: &mut Out<K>,
) -> Result<(), Fault>
    requires fresh { IsFresh S.Source (view_of records.old) }
    requires sorted { (view_of records.old).format ≡ bed_format (sorting_of (order_in records.old)) }
    requires none_last { last_locus records.old ≡ None }
    requires total { IsTotal (order_in records.old) }
    requires stands { E.definition.is_after engine.old [] engine.old }
    requires nothing { E.definition.settled engine.old [] ≡ [] }
    requires takes { (past : List Feature) → ArePlaced (order_in records.old) (intervals_of past)
        → AreNonEmpty (intervals_of past) → E.definition.takes engine.old past }
    requires block { HoldsBlock out.old.output.took out.old.output.put }
    ensures feeds { FeedsMembers (E.definition.settled engine.old) (IsBedKind (order_in records.old)) (AreInOrder (order_in records.old)) S.Source
        (λ past. E.definition.is_after engine.old past engine.new) (view_of records.old) out.old.output result (view_of records.new) out.new.output }
    ensures none_kept { AnswersNoRead result → TellsNoRead (line_fault (below records.new)) }
    ensures kept { IsKeptBelow (view_of records.new) (below records.new) }
{
    while records.fill()? {
        feed_buffered(records, engine, out)?;
    }
    Ok(())
}

// Feeds an engine with the records that are buffered. One that it fails at is consumed too.
fn feed_buffered<S: Source, O: ChromOrder, E: Engine, K: Sink>(
    records: &mut Records<'_, S, O>,
    engine: &mut E,
    out: &mut Out<K>,
) -> Result<(), Fault>
    ensures { (first : Batch) × (last : Batch) × ConsumesGiven S.Source records.old first last records.new
        × FeedsBatch E.definition batch_cursor engine.old first out.old.output result engine.new last out.new.output }
{
    let mut batch = records.buffered();
    let fed = engine.feed_batch(&mut batch, out);
    let consumed = batch.consumed();
    records.consume(consumed);
    fed
}

/// Feeds an engine with all records of an input, in an order of their chromosomes, and lets it finish.
/// It gives the source back, and the fault that the run ends with, if there is one.
pub(crate) fn drive<A: Source, O: ChromOrder, E: Engine + Drop, K: Sink>(
    alloc: Global,
    order: &O,
    engine: E,
    first: A,
    out: &mut Out<K>,
) -> (Option<Fault>, A)
    requires stands { E.definition.is_after engine [] engine }
    requires nothing { E.definition.settled engine [] ≡ [] }
    requires takes { (past : List Feature) → ArePlaced (O.order order.now) (intervals_of past)
        → AreNonEmpty (intervals_of past) → E.definition.takes engine past }
    requires stays { SettledStays (E.definition.settled engine) (E.definition.takes engine) }
    requires begins { SettledBegins (E.definition.settled engine) (E.definition.output engine) (E.definition.takes engine) }
    requires block { HoldsBlock out.old.output.took out.old.output.put }
    ensures { RunsAlone A.Source
        (of_records (O.order order.now) (record { whole = E.definition.output engine; settled = E.definition.settled engine }))
        first out.old.output (option_map fault_value result.0) result.1 out.new.output }
{
    let reader = LineReader::new(alloc, first, Input::First);
    let mut records = Records::new(alloc, reader, order);
    let mut engine = engine;
    let fed = feed_all(&mut records, &mut engine, out);
    let first = records.into_reader().into_source();
    if let Err(fault) = fed {
        return (Some(fault), first);
    }
    (engine.finish(out).err(), first)
}
