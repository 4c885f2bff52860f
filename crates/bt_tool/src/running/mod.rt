//! Running a plan over its devices.

pub(crate) mod outcome;

ghost use Rattle.std.specs.Prelude.{IfSome, IsNone, IsSome, IsTrue, MatchResult, ◌≡◌, ◌≤◌, ◌⊎◌, ⊤, true, Some, is_some, option_map};
ghost use Rattle.bt_lines.specs.model.Lines.{max_number};
ghost use Rattle.bt_lines.specs.calls.Faults.{write_failed};
ghost use Rattle.bt_lines.specs.calls.Names.{fault_value};
ghost use Rattle.bt_lines.specs.calls.Output.{HoldsBlock};
ghost use Rattle.bt_bed.specs.calls.GenomeTable.{names_of};
ghost use Rattle.bt_bed.specs.calls.Orders.{AreDistinct};
ghost use Rattle.bt_sweep.specs.model.Lines.{subtract_shape};
ghost use Rattle.bt_tool.specs.model.Behaviour.{behaviour_of, of_intersect, of_records, order_in_use};
ghost use Rattle.bt_tool.specs.calls.Run.{ReadsChromosomes, Runs, RunsAlone, RunsBy};
ghost use Rattle.bt_tool.specs.calls.Limits.{is_within_limits, IsNamedBy};
ghost use Rattle.bt_tool.specs.inside.Feed.{Flushes};
ghost use Rattle.bt_tool.specs.inside.Setup.{chromosomes_in};
ghost use Rattle.bt_tool.specs.model.Table.{table_of, tool_of};
ghost use Rattle.bt_tool.specs.model.Written.{merge_written};

use crate::loops::Sources;
use crate::loops::converting::convert;
use crate::loops::driving::drive;
use crate::loops::masking::mask;
use crate::loops::sweeping::{SweepConfig, sweep};
use crate::planning::plan_type::{Command, Plan};
use crate::running::outcome::Outcome;
use bt_bed::{ByteOrder, Genome};
use bt_lines::{Fault, Input, Kind, LineReader, Out, Sink, Source};
use bt_runs::{Complement, Coverage, Merge, MergeStrand};
use bt_sweep::Shape;
use std::alloc::Global;

/// How a run ended, and the devices that it was given: `genome` and `second` are `Some` exactly if
/// they were.
#[derive(Debug, Drop)]
pub struct Ended<G, A, B, K> {
    pub outcome: Outcome,
    pub genome: Option<G>,
    pub first: A,
    pub second: Option<B>,
    pub out: K,
}

/// Runs a plan: reads the genome file to its end, if there is one, and then the other inputs once, from their
/// start, and writes to the sink. Without a genome file the inputs have to come in the order of the bytes
/// of their chromosomes' names. A fault of the genome file ends the run before any other input is read.
/// The output is flushed at every ending except after a failed write.
pub fn run<G: Source, A: Source, B: Source, K: Sink>(
    alloc: Global,
    plan: &Plan,
    genome: Option<G>,
    first: A,
    second: Option<B>,
    out: K,
) -> Ended<G, A, B, K>
    requires genome { is_some genome ≡ is_some plan.now.genome }
    requires second { is_some second ≡ is_some plan.now.second }
    ensures genome { is_some result.genome ≡ is_some genome }
    ensures second { is_some result.second ≡ is_some second }
    ensures flushed { (option_map fault_value result.outcome.fault ≡ Some write_failed)
        ⊎ (K.is_flushed result.out ≡ true) }
    ensures report { Runs G.Source A.Source B.Source K.Sink
        plan.now.command genome first second out (option_map fault_value result.outcome.fault)
        result.genome result.first result.second result.out }
{
    let mut out = Out::new(out);
    let (chromosomes, genome) = read_genome(alloc, genome);
    let (fault, first, second) = match chromosomes {
        Ok(table) => {
            let setup = Setup {
                alloc,
                genome: &table,
            };
            write_records(&setup, plan.command, first, second, &mut out)
        }
        Err(fault) => (Some(fault), first, second),
    };
    let fault = flushed(fault, &mut out);
    Ended {
        outcome: Outcome { fault },
        genome,
        first,
        second,
        out: out.into_sink(),
    }
}

// Hands on what is held back, unless a write failed, and gives the fault that the run ends with.
fn flushed<K: Sink>(fault: Option<Fault>, out: &mut Out<K>) -> Option<Fault>
    ensures ends { Flushes out.old.output (option_map fault_value fault) (option_map fault_value result) out.new.output }
    ensures flushed { (option_map fault_value result ≡ Some write_failed)
        ⊎ (out.new.output.sink_is_flushed ≡ true) }
{
    if let Some(fault) = fault {
        if fault.kind == Kind::WriteFailed {
            return Some(fault);
        }
    }
    match out.flush() {
        Ok(()) => fault,
        Err(failure) => Some(failure),
    }
}

// Reads the genome file, if there is one, and gives its source back.
fn read_genome<G: Source>(
    alloc: Global,
    genome: Option<G>,
) -> (Result<Option<Genome>, Fault>, Option<G>)
    ensures genome { is_some result.1 ≡ is_some genome }
    ensures named { MatchResult result.0 (λ table. is_some table ≡ is_some genome) (λ _. ⊤) }
    ensures read { ReadsChromosomes G.Source genome result.0 result.1 }
{
    let Some(genome) = genome else {
        return (Ok(None), None);
    };
    let mut lines = LineReader::new(alloc, genome, Input::Genome);
    let read = Genome::read(alloc, &mut lines);
    let genome = Some(lines.into_source());
    match read {
        Ok(table) => (Ok(Some(table)), genome),
        Err(fault) => (Err(fault), genome),
    }
}

// What every command goes by: the allocator, and the genome file, if there is one.
#[derive(Clone, Copy)]
struct Setup<'g> {
    alloc: Global,
    genome: &'g Option<Genome>,
}

// Writes what the inputs make a command write, by the genome file, if there is one. It gives the sources
// back, and the fault that the run ends with, if there is one.
fn write_records<A: Source, B: Source, K: Sink>(
    setup: &Setup<'_>,
    command: Command,
    first: A,
    second: Option<B>,
    out: &mut Out<K>,
) -> (Option<Fault>, A, Option<B>)
    requires limits { IsTrue (is_within_limits command) }
    requires genome { IsNamedBy (table_of (tool_of command)) (table_of (tool_of command)).genome setup.now.genome.now }
    requires second { IsNamedBy (table_of (tool_of command)) (table_of (tool_of command)).second second }
    requires distinct { IfSome setup.now.genome.now (λ table. AreDistinct (names_of table)) }
    requires block { HoldsBlock out.old.output.took out.old.output.put }
    ensures runs { RunsBy A.Source B.Source (behaviour_of command (chromosomes_in setup.now))
        first second out.old.output (option_map fault_value result.0) result.1 result.2 out.new.output }
    ensures second { is_some result.2 ≡ is_some second }
{
    match second {
        Some(second) => {
            let sources = Sources { first, second };
            let (fault, Sources { first, second }) = write_both(setup, command, sources, out);
            (fault, first, Some(second))
        }
        None => {
            let (fault, first) = write_alone(setup, command, first, out);
            (fault, first, None)
        }
    }
}

// Writes what a command of one input makes of it.
fn write_alone<A: Source, K: Sink>(
    setup: &Setup<'_>,
    command: Command,
    first: A,
    out: &mut Out<K>,
) -> (Option<Fault>, A)
    requires limits { IsTrue (is_within_limits command) }
    requires genome { IsNamedBy (table_of (tool_of command)) (table_of (tool_of command)).genome setup.now.genome.now }
    requires alone { IsNone (table_of (tool_of command)).second }
    requires distinct { IfSome setup.now.genome.now (λ table. AreDistinct (names_of table)) }
    requires block { HoldsBlock out.old.output.took out.old.output.put }
    ensures { RunsAlone A.Source (behaviour_of command (chromosomes_in setup.now))
        first out.old.output (option_map fault_value result.0) result.1 out.new.output }
{
    match (command, setup.genome) {
        (Command::Merge { d: gap, strand }, _) => merge(setup, gap, strand, first, out),
        (Command::Complement { limit }, Some(genome)) => {
            let engine = Complement::new(genome, limit);
            drive(setup.alloc, genome, engine, first, out)
        }
        (Command::Coverage { zeros, strand }, Some(genome)) => {
            let engine = Coverage::new(setup.alloc, genome, zeros, strand);
            drive(setup.alloc, genome, engine, first, out)
        }
        (Command::BamToBed { split, cigar }, _) => convert(setup.alloc, split, cigar, first, out),
        // The other commands have two inputs, and these two a genome file.
        _ => unreachable!(),
    }
}

// Merges the records of an input, in the order of the genome file, or of the names' bytes without one.
fn merge<A: Source, K: Sink>(
    setup: &Setup<'_>,
    gap: u64,
    strand: MergeStrand,
    first: A,
    out: &mut Out<K>,
) -> (Option<Fault>, A)
    requires limit { gap ≤ max_number }
    requires block { HoldsBlock out.old.output.took out.old.output.put }
    ensures { RunsAlone A.Source
        (of_records (order_in_use (chromosomes_in setup.now)) (merge_written (order_in_use (chromosomes_in setup.now)) gap strand))
        first out.old.output (option_map fault_value result.0) result.1 out.new.output }
{
    let engine = Merge::new(setup.alloc, gap, strand);
    match setup.genome {
        Some(genome) => drive(setup.alloc, genome, engine, first, out),
        None => drive(setup.alloc, &ByteOrder, engine, first, out),
    }
}

// Writes what a command of two inputs makes of them.
fn write_both<A: Source, B: Source, K: Sink>(
    setup: &Setup<'_>,
    command: Command,
    sources: Sources<A, B>,
    out: &mut Out<K>,
) -> (Option<Fault>, Sources<A, B>)
    requires both { IsSome (table_of (tool_of command)).second }
    requires block { HoldsBlock out.old.output.took out.old.output.put }
    ensures { RunsBy A.Source B.Source (behaviour_of command (chromosomes_in setup.now))
        sources.first (Some sources.second) out.old.output (option_map fault_value result.0)
        result.1.first (Some result.1.second) out.new.output }
{
    match command {
        Command::Intersect { shape, rule, held } => {
            let config = SweepConfig {
                shape,
                rule,
                limit: held,
            };
            sweep_both(setup, config, sources, out)
        }
        Command::Subtract { whole, rule, held } => {
            let config = SweepConfig {
                shape: shape_left(whole),
                rule,
                limit: held,
            };
            sweep_both(setup, config, sources, out)
        }
        Command::MaskFasta { how, full } => mask(setup.alloc, how, full, sources, out),
        // The other commands have one input.
        _ => unreachable!(),
    }
}

// The shape of what is left of a record: its pieces, or all of it.
fn shape_left(whole: bool) -> Shape
    ensures { result ≡ subtract_shape whole }
{
    if whole { Shape::Whole } else { Shape::Pieces }
}

// Sweeps the two inputs of intersect, or of subtract in its shapes, both in the order of the genome file,
// or of the names' bytes without one.
fn sweep_both<A: Source, B: Source, K: Sink>(
    setup: &Setup<'_>,
    config: SweepConfig,
    sources: Sources<A, B>,
    out: &mut Out<K>,
) -> (Option<Fault>, Sources<A, B>)
    requires { HoldsBlock out.old.output.took out.old.output.put }
    ensures { RunsBy A.Source B.Source
        (of_intersect (order_in_use (chromosomes_in setup.now)) config.shape config.rule config.limit)
        sources.first (Some sources.second) out.old.output (option_map fault_value result.0)
        result.1.first (Some result.1.second) out.new.output }
{
    match setup.genome {
        Some(genome) => sweep(setup.alloc, genome, config, sources, out),
        None => sweep(setup.alloc, &ByteOrder, config, sources, out),
    }
}
