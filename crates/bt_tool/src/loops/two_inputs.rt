//! The loop over two inputs: an engine is given what it wants of both.

ghost use Rattle.std.specs.Prelude.{◌≡◌};
ghost use Rattle.bt_lines.specs.calls.Output.{Output};
ghost use Rattle.bt_tool.specs.inside.Rounds.{FillsWanted, EndsRun, Gives, TwoInputDef, Wants};
ghost use Rattle.bt_bed.specs.calls.SortedReader.{fault_in};

use bt_lines::{Fault, Out, Sink};
use bt_sweep::Want;

// Two readers, and the engine that is given what they have buffered.
pub(crate) trait TwoInputEngine {
    // How far a run has come, how it ends, and what is wanted.
    ghost definition: { TwoInputDef Self };

    // The input that is wanted next.
    fn want(&self) -> Want
        ensures { result ≡ definition.wants self.now };

    // Buffers some of the first input, or gives the engine its end. It writes nothing.
    fn fill_first(&mut self) -> Result<(), Fault>
        requires { definition.wants self.old ≡ Want.A }
        ensures { (grown : Output) → FillsWanted definition self.old grown result self.new grown };

    // Buffers some of the second input, or gives the engine its end, at which it may write.
    fn fill_second<K: Sink>(&mut self, out: &mut Out<K>) -> Result<(), Fault>
        requires { definition.wants self.old ≡ Want.B }
        ensures { FillsWanted definition self.old out.old.output result self.new out.new.output };

    // Gives the engine what both inputs have buffered, as far as it wants it, and consumes that.
    fn give_buffered<K: Sink>(&mut self, out: &mut Out<K>) -> Result<(), Fault>
        requires { (start : Self) × (before : Output) × definition.comes start before self.old out.old.output }
        ensures { Gives definition self.old out.old.output result self.new out.new.output };

    // Called once nothing is wanted: checks what is left.
    fn finish(&mut self) -> Result<(), Fault>
        requires { definition.wants self.old ≡ Want.Nothing }
        ensures { (grown : Output) → EndsRun definition self.old grown result self.new };
}

// Reads on the input that is wanted, and returns false if none is.
fn fill_wanted<E: TwoInputEngine, K: Sink>(engine: &mut E, out: &mut Out<K>) -> Result<bool, Fault>
    ensures { Wants E.definition engine.old out.old.output result engine.new out.new.output }
{
    match engine.want() {
        Want::A => {
            engine.fill_first()?;
            Ok(true)
        }
        Want::B => {
            engine.fill_second(out)?;
            Ok(true)
        }
        Want::Nothing => Ok(false),
    }
}

// Gives an engine all that it wants, and runs it to its end.
pub(crate) fn run_two<E: TwoInputEngine, K: Sink>(
    engine: &mut E,
    out: &mut Out<K>,
) -> Result<(), Fault>
    requires { E.definition.comes engine.old out.old.output engine.old out.old.output }
    ensures { E.definition.ends engine.old out.old.output (fault_in result) engine.new out.new.output }
{
    while fill_wanted(engine, out)? {
        engine.give_buffered(out)?;
    }
    engine.finish()
}
