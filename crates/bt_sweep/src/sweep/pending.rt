//! Lines that are copied through together.

ghost use Rattle.std.specs.Prelude.{◌≡◌, [], ◌≤◌, length};
ghost use Rattle.bt_lines.specs.calls.Output.{Adds};

use bt_bed::Cursor;
use bt_lines::{Fault, Out, Sink};

// A cursor, and lines of records that it gave which are to be put as they are: those between two offsets.
#[derive(Drop)]
pub(crate) struct Pending<A: Cursor> {
    // Gives the records that follow.
    pub(crate) cursor: A,
    // Where the lines begin.
    pub(crate) from: usize,
    // Where they end. The line of the record given last begins there, unless it is among them.
    pub(crate) to: usize,
    ghost ordered: { from ≤ to },
    ghost within: { to ≤ length (A.consumed cursor) },
}

#[tactic(auto, unfolding(crate::specs::inside::Joining::pending_in, crate::specs::inside::Joining::line_in))]
impl<A: Cursor> Pending<A> {
    ghost use Rattle.std.specs.Prelude.{◌≡◌, ◌∷◌, ◌++◌, ◌<◌, [], IfSome, IfNone, true, false};
    ghost use Rattle.bt_sweep.specs.inside.Joining.{line_in, pending_in};

    // No lines.
    #[inline(always)]
    pub(crate) fn new(cursor: A) -> Pending<A>
        ensures cursor { result.cursor ≡ cursor }
        ensures none { pending_in (A.consumed result.cursor) result.from result.to ≡ [] }
        ensures line { line_in (A.consumed result.cursor) result.to ≡ [] }
    {
        let offset = cursor.offset();
        Pending {
            cursor,
            from: offset,
            to: offset,
        }
    }

    // The next record. Its line isn't among the lines.
    #[inline(always)]
    pub(crate) fn next(&mut self) -> Option<A::Record>
        ensures some { IfSome result (λ r. A.gives self.old.cursor (A.Record.feature r ∷ []) self.new.cursor) }
        ensures on { IfSome result (λ r. (A.Record.feature r).chrom ≡ A.name self.old.cursor) }
        ensures same { A.name self.new.cursor ≡ A.name self.old.cursor }
        ensures shrinks { IfSome result (λ r. A.room self.new.cursor < A.room self.old.cursor) }
        ensures none { IfNone result (A.has_ended self.old.cursor) }
        ensures unchanged { IfNone result (self.new.cursor ≡ self.old.cursor) }
        ensures pending { pending_in (A.consumed self.new.cursor) self.new.from self.new.to
            ≡ pending_in (A.consumed self.old.cursor) self.old.from self.old.to }
        ensures line { IfSome result (λ r. line_in (A.consumed self.new.cursor) self.new.to
            ≡ line_in (A.consumed self.old.cursor) self.old.to ++ A.Record.raw r) }
    {
        self.cursor.next()
    }

    // The lines.
    #[inline(always)]
    pub(crate) fn lines(&self) -> &[u8]
        ensures { result.now ≡ pending_in (A.consumed self.now.cursor) self.now.from self.now.to }
    {
        self.cursor.between(self.from, self.to)
    }

    // Adds the line of the record given last.
    #[inline(always)]
    pub(crate) fn add_line(&mut self)
        ensures cursor { self.new.cursor ≡ self.old.cursor }
        ensures pending { pending_in (A.consumed self.new.cursor) self.new.from self.new.to
            ≡ pending_in (A.consumed self.old.cursor) self.old.from self.old.to ++ line_in (A.consumed self.old.cursor) self.old.to }
        ensures line { line_in (A.consumed self.new.cursor) self.new.to ≡ [] }
    {
        self.to = self.cursor.offset();
    }

    // Drops the lines, and that of the record given last.
    #[inline(always)]
    pub(crate) fn clear(&mut self)
        ensures cursor { self.new.cursor ≡ self.old.cursor }
        ensures none { pending_in (A.consumed self.new.cursor) self.new.from self.new.to ≡ [] }
        ensures line { line_in (A.consumed self.new.cursor) self.new.to ≡ [] }
    {
        let offset = self.cursor.offset();
        self.from = offset;
        self.to = offset;
    }
}

// Puts lines, of which there may be none.
#[inline(always)]
pub(crate) fn put_copied<K: Sink>(lines: &[u8], out: &mut Out<K>) -> Result<(), Fault>
    ensures { Adds out.old.output lines.now result out.new.output }
{
    if lines.is_empty() {
        return Ok(());
    }
    out.put(lines)
}
