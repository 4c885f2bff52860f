//! Records that nothing hits.

ghost use Rattle.std.specs.Prelude.{[], ◌<◌, ◌++◌};
ghost use Rattle.bt_lines.specs.calls.Output.{Adds, Puts};
ghost use Rattle.bt_bed.specs.model.BedLine.{bed_text};
ghost use Rattle.bt_sweep.specs.model.Lines.{lines_of};
ghost use Rattle.bt_sweep.specs.inside.Joining.{IsUnmatched};

use crate::output::shape::Shape;
use bt_bed::{Record, put_bed};
use bt_lines::{Fault, Out, Sink, put_line};

// What is written of a record that nothing hits.
#[derive(Clone, Copy, Debug, PartialEq, Eq)]
pub(crate) enum Unmatched {
    // No line.
    Nothing,
    // The record.
    Itself,
    // The record, and how many hit it.
    Counted,
}

// What is written of it in this shape.
#[tactic(auto, using(crate::proofs::lemmas::sweep::KeepLemmas::unmatched_itself))]
#[inline(always)]
pub(crate) fn unmatched_in(shape: Shape) -> Unmatched
    ensures { IsUnmatched result shape }
{
    match shape {
        Shape::Cut
        | Shape::OrigA
        | Shape::CutAndB
        | Shape::OrigBoth
        | Shape::Overlap
        | Shape::Once => Unmatched::Nothing,
        Shape::Missing | Shape::Pieces | Shape::Whole => Unmatched::Itself,
        Shape::Count => Unmatched::Counted,
    }
}

// Puts what is written of a record that nothing hits.
#[tactic(auto, using(crate::proofs::lemmas::sweep::KeepLemmas::counted_adds, crate::proofs::lemmas::sweep::KeepLemmas::itself_adds))]
#[inline(always)]
pub(crate) fn put_unmatched<R: Record, K: Sink>(
    shape: Shape,
    a: &R,
    out: &mut Out<K>,
) -> Result<(), Fault>
    requires { (R.feature a.now).start < (R.feature a.now).stop }
    ensures { Adds out.old.output (lines_of shape (R.feature a.now) []) result out.new.output }
{
    match unmatched_in(shape) {
        Unmatched::Nothing => Ok(()),
        Unmatched::Itself => put_itself(a, b"\n", out),
        Unmatched::Counted => put_itself(a, b"\t0\n", out),
    }
}

// Puts a record and what ends its line. Its columns aren't looked at if it is buffered as it is written.
#[inline(always)]
fn put_itself<R: Record, K: Sink>(a: &R, end: &[u8], out: &mut Out<K>) -> Result<(), Fault>
    ensures { Puts out.old.output (bed_text (R.feature a.now) ++ end.now) result out.new.output }
{
    match a.written() {
        None => put_bed(&a.bed(), end, out),
        Some(text) => put_line(text, end, out),
    }
}
