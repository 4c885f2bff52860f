//! Lines of bases that are copied through unchanged.

ghost use Rattle.std.specs.Prelude.{◌≡◌, ◌≤◌, ◌&&◌, nat_le, not};
ghost use Rattle.bt_seq.specs.inside.Window.{limit};
ghost use Rattle.bt_seq.specs.model.Fasta.{is_sequence_header};

use crate::mask::header_name::is_header;
use crate::mask::window::up_to_limit;
use bt_lines::{BufferedLines, LineText};

// Iterates over lines of a sequence. Nothing but this is written to for each line.
#[derive(Clone, Copy)]
pub(crate) struct CopyThrough<'a> {
    // The lines that come.
    pub(crate) lines: BufferedLines<'a>,
    // How many bases of the sequence come before the line that was consumed last.
    pub(crate) before: u64,
    // How many come up to its end, at most the limit.
    pub(crate) bases: u64,
    ghost counted: { bases ≤ limit },
}

impl<'a> CopyThrough<'a> {
    ghost use Rattle.std.specs.Prelude.{◌≡◌, List, true, false};
    ghost use Rattle.bt_lines.specs.model.Lines.{TextLine};
    ghost use Rattle.bt_seq.specs.inside.Masking.{CopiesLine, CopiesLines};

    // Consumes the lines that are no headers and have their bases up to this one, up to the first that isn't such a line.
    // It is out of line, so that the loop stays small.
    #[inline(never)]
    pub(crate) fn consume_up_to(self, to: u64) -> CopyThrough<'a>
        requires { self.lines.is_open ≡ false }
        ensures { (lines : List TextLine) × CopiesLines to self.entry lines result }
    {
        let mut through = self;
        while through.consume_next(to) {}
        through
    }

    // Consumes the next line and returns true, if it is such a line.
    #[inline(always)]
    fn consume_next(&mut self, to: u64) -> bool
        requires { self.old.lines.is_open ≡ false }
        ensures consumed { result ≡ true → (line : TextLine) × CopiesLine to self.old line self.new }
        ensures unchanged { result ≡ false → self.new ≡ self.old }
    {
        let Some(LineText { text, size }) = self.lines.first() else {
            return false;
        };
        let bases = up_to_limit(self.bases, text.len());
        if !is_decided_to(text, bases, to) {
            return false;
        }
        self.lines.consume(size);
        self.before = self.bases;
        self.bases = bases;
        true
    }
}

// Whether a line of this text, which has the bases of its sequence up to this one, is known to be decided, if those up to `to`
// are. A header never is: its name may be that of the next record.
#[inline(always)]
pub(crate) fn is_decided_to(text: &[u8], bases: u64, to: u64) -> bool
    ensures { result ≡ (not (is_sequence_header text.now) && nat_le bases to) }
{
    !is_header(text) && bases <= to
}
