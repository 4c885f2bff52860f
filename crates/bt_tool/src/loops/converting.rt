//! The loop over the alignments of a SAM input: each is written as soon as its line was read.

ghost use Rattle.std.specs.Prelude.{◌≡◌, None, option_map};
ghost use Rattle.bt_lines.specs.calls.Line.{line_seen};
ghost use Rattle.bt_lines.specs.calls.Names.{fault_value};
ghost use Rattle.bt_lines.specs.calls.Output.{HoldsBlock};
ghost use Rattle.bt_lines.specs.calls.Reader.{fault_kept};
ghost use Rattle.bt_seq.specs.model.Alignment.{sam_format, is_sam_kind};
ghost use Rattle.bt_tool.specs.model.Behaviour.{of_members};
ghost use Rattle.bt_tool.specs.model.Written.{IsOneOf, alignments_written};
ghost use Rattle.bt_tool.specs.inside.Feed.{ConvertsAll, ConvertsLine, sam_reader, IsFresh};
ghost use Rattle.bt_tool.specs.calls.Run.{AnswersNoRead, RunsAlone, TellsNoRead};

use bt_bed::at_line;
use bt_lines::{Fault, Input, Line, LineReader, Out, Place, Sink, Source};
use bt_seq::{BamToBed, sam_line};
use std::alloc::Global;

// Writes the alignment that a line says, if it says one.
#[inline(always)]
fn convert_line<K: Sink>(
    line: Line<'_>,
    input: Input,
    converter: &mut BamToBed,
    out: &mut Out<K>,
) -> Result<(), Fault>
    requires { converter.old.fault ≡ None }
    ensures { ConvertsLine input converter.old (line_seen line.entry) out.old.output result converter.new out.new.output }
{
    match sam_line(line.text) {
        Ok(Some(sam)) => converter.feed(&sam, out),
        Ok(None) => Ok(()),
        Err(kind) => {
            let line = line.number;
            Err(at_line(kind, Place { input, line }))
        }
    }
}

// Writes the alignments of all lines of a reader that has given none.
fn convert_all<S: Source, K: Sink>(
    lines: &mut LineReader<S>,
    converter: &mut BamToBed,
    out: &mut Out<K>,
) -> Result<(), Fault>
    requires fresh { IsFresh S.Source (sam_reader lines.old) }
    requires going { converter.old.fault ≡ None }
    requires block { HoldsBlock out.old.output.took out.old.output.put }
    ensures converts { ConvertsAll S.Source converter.old lines.old out.old.output result
        lines.new out.new.output }
    ensures none_kept { AnswersNoRead result → TellsNoRead (fault_kept lines.new) }
{
    let input = lines.input();
    while let Some(line) = lines.next()? {
        convert_line(line, input, converter, out)?;
    }
    Ok(())
}

/// Writes the alignments of an input as BED lines, with `split` one for each block, and with `cigar` each
/// with its CIGAR. It gives the source back, and the fault that the run ends with, if there is one.
pub(crate) fn convert<A: Source, K: Sink>(
    alloc: Global,
    split: bool,
    cigar: bool,
    first: A,
    out: &mut Out<K>,
) -> (Option<Fault>, A)
    requires { HoldsBlock out.old.output.took out.old.output.put }
    ensures { RunsAlone A.Source (of_members (IsOneOf is_sam_kind) (alignments_written split cigar) sam_format)
        first out.old.output (option_map fault_value result.0) result.1 out.new.output }
{
    let mut lines = LineReader::new(alloc, first, Input::First);
    let mut converter = BamToBed::new(split, cigar);
    let converted = convert_all(&mut lines, &mut converter, out);
    (converted.err(), lines.into_source())
}
