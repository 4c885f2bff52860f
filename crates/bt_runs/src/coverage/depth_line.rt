//! The line of an interval with its depth.

ghost use Rattle.std.specs.Prelude.{◌≡◌, ◌+◌, ◌≤◌, drop};
ghost use Rattle.bt_lines.specs.calls.Output.{Puts};
ghost use Rattle.bt_runs.specs.model.Depth.{depth_line};
ghost use Rattle.bt_runs.specs.inside.Coverage.{depth_text};

use bt_lines::{COLUMN, Fault, Out, Sink, put_both, write_column};

// The room for what follows the name: three columns and a line feed.
const ROOM: usize = 3 * COLUMN + 1;

// Puts the line of an interval: its name, and what follows it in one piece. It doesn't allocate.
#[inline(always)]
#[tactic(auto, using(crate::proofs::lemmas::coverage::DepthSteps::line_parts))]
pub(crate) fn put_depth<K: Sink>(
    chrom: &[u8],
    start: u64,
    stop: u64,
    depth: u64,
    out: &mut Out<K>,
) -> Result<(), Fault>
    ensures { Puts out.old.output (depth_line (record { chrom = chrom.now; start = start; stop = stop; depth = depth })) result out.new.output }
{
    let mut text = [0; ROOM];
    let first = write_depth(start, stop, depth, &mut text);
    put_both(chrom, &text[first..], out)
}

// Writes what follows the name so that it ends where the text does, and returns where it begins. Out of line, so
// that the loops over records stay small.
#[inline(never)]
fn write_depth(start: u64, stop: u64, depth: u64, text: &mut [u8; ROOM]) -> usize
    ensures within { result ≤ ROOM }
    ensures written { drop result text.new ≡ depth_text start stop depth }
{
    text[ROOM - 1] = b'\n';
    let before_depth = write_column(depth, text, ROOM - 1);
    let before_stop = write_column(stop, text, before_depth);
    write_column(start, text, before_stop)
}
