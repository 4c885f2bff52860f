//! What becomes of a stream that another program takes.

ghost use Rattle.std.specs.Prelude.{◌≡◌, ◌++◌, IfErr, OnErr, OnOk};
ghost use Rattle.bt_lines.specs.calls.Output.{SinkFailed};
ghost use Rattle.bt_front.specs.calls.Stream.{IsCutOff, IsPoured};
ghost use Rattle.bt_front.specs.declared.stream.pouring.Unpoured.TheVariants.{Stream, Taker};

use bt_lines::{Out, Sink, Source};

// How many bytes are read together: as many as a pipe has.
const PIECE: usize = 65536;

/// What ended the pouring before the stream's end.
#[derive(Clone, Copy, Debug, PartialEq, Eq)]
pub enum Unpoured {
    /// The stream couldn't be read on.
    Stream,
    /// Its taker takes no more.
    Taker,
}

/// Hands on what was kept of a stream, and then the rest of it.
pub fn pour<S: Source, K: Sink>(
    kept: &[u8],
    stream: &mut S,
    taker: &mut Out<K>,
) -> Result<(), Unpoured>
    ensures all { OnOk result (IsPoured S.Source kept.now stream.old taker.old.output stream.new taker.new.output) }
    ensures cut_off { IfErr result (λ why. why ≡ Stream
        → IsCutOff S.Source kept.now stream.old taker.old.output stream.new taker.new.output) }
    ensures gone { IfErr result (λ why. why ≡ Taker → SinkFailed taker.new.output) }
{
    put(kept, taker)?;
    let mut piece = [0u8; PIECE];
    for _ in 0..u64::MAX {
        match stream.read(&mut piece) {
            Ok(0) => return Ok(()),
            Ok(count) => put(&piece[..count], taker)?,
            Err(_failed) => return Err(Unpoured::Stream),
        }
    }
    Err(Unpoured::Stream)
}

// Hands on a piece, of which nothing is held back.
fn put<K: Sink>(piece: &[u8], taker: &mut Out<K>) -> Result<(), Unpoured>
    ensures put { OnOk result (taker.new.output.put ≡ taker.old.output.put ++ piece.now) }
    ensures taken { OnOk result (taker.new.output.took ≡ taker.new.output.put) }
    ensures taker { IfErr result (λ why. why ≡ Taker) }
    ensures gone { OnErr result (SinkFailed taker.new.output) }
{
    match taker.put(piece) {
        Ok(()) => {}
        Err(_fault) => return Err(Unpoured::Taker),
    }
    match taker.flush() {
        Ok(()) => Ok(()),
        Err(_fault) => Err(Unpoured::Taker),
    }
}
