//! The BED line of a block of an alignment.

ghost use Rattle.std.specs.Prelude.{◌≡◌, ◌+◌, ◌≤◌, ◌++◌, ◌∷◌, [], codes, drop, false, length, true};
ghost use Rattle.bt_lines.specs.calls.Output.{Puts, PutsAll};
ghost use Rattle.bt_seq.specs.model.BedLines.{bed_line, strand_sign, text_if};
ghost use Rattle.bt_seq.specs.inside.Sam.{bounds_text, end_sign, line_tail, marks, quality_text};
ghost use Rattle.bt_seq.specs.calls.Sam.{alignment_lent};

use crate::sam::SamRef;
use bt_lines::{COLUMN, Fault, Out, Sink, copy_piece, put_both, put_column, write_column};

// The room for what comes between chromosome and name: two columns and a tab.
const BOUNDS_ROOM: usize = 2 * COLUMN + 1;

// The room for what follows the name, except the CIGAR: two marks of two bytes, a number of up to
// 20 digits, the strand, two tabs, and what ends it.
const TAIL_ROOM: usize = 28;

// How long the name may be for a line that is written whole before it is put, and how long the CIGAR.
const NAME_ROOM: usize = 64;

const CIGAR_ROOM: usize = 64;

// The room for what follows the chromosome of such a line.
const LINE_ROOM: usize = BOUNDS_ROOM + NAME_ROOM + TAIL_ROOM + CIGAR_ROOM + 1;

// Puts the line of the block from `start` up to `stop`: the chromosome, the bounds, the name, and what
// follows it.
pub(crate) fn put_line<K: Sink>(
    sam: &SamRef<'_>,
    start: u64,
    stop: u64,
    with_cigar: bool,
    out: &mut Out<K>,
) -> Result<(), Fault>
    ensures { Puts out.old.output (bed_line with_cigar (alignment_lent sam.now)
        (record { start = start; stop = stop })) result out.new.output }
{
    if try_put_line(sam, start, stop, with_cigar, out) {
        return Ok(());
    }
    put_pieces(sam, start, stop, with_cigar, out)
}

// Puts the line, of any length, by two pieces: its place, and what follows it.
#[cold]
#[inline(never)]
fn put_pieces<K: Sink>(
    sam: &SamRef<'_>,
    start: u64,
    stop: u64,
    with_cigar: bool,
    out: &mut Out<K>,
) -> Result<(), Fault>
    ensures { Puts out.old.output (bed_line with_cigar (alignment_lent sam.now)
        (record { start = start; stop = stop })) result out.new.output }
{
    put_place(sam.chrom, start, stop, out)?;
    put_read(sam, with_cigar, out)
}

// Puts the line of a block by one test of the room and returns true, if name and CIGAR aren't long and there is room.
// Else nothing is put.
#[inline(always)]
fn try_put_line<K: Sink>(
    sam: &SamRef<'_>,
    start: u64,
    stop: u64,
    with_cigar: bool,
    out: &mut Out<K>,
) -> bool
    ensures put { result ≡ true → PutsAll out.old.output (bed_line with_cigar (alignment_lent sam.now)
        (record { start = start; stop = stop })) out.new.output }
    ensures unchanged { result ≡ false → out.new.output ≡ out.old.output }
{
    if !is_short(sam, with_cigar) {
        return false;
    }
    let mut text = [0; LINE_ROOM];
    let first = write_behind(sam, start, stop, with_cigar, &mut text);
    out.try_put_pair(sam.chrom, &text[first..])
}

// Whether there is room for name and CIGAR in a line that is written whole.
#[inline(always)]
fn is_short(sam: &SamRef<'_>, with_cigar: bool) -> bool
    ensures name { result ≡ true → length sam.now.name.now ≤ NAME_ROOM }
    ensures cigar { result ≡ true → with_cigar ≡ true → length sam.now.cigar.now ≤ CIGAR_ROOM }
{
    sam.name.len() <= NAME_ROOM && (!with_cigar || sam.cigar.len() <= CIGAR_ROOM)
}

// Writes what follows the chromosome of a line so that it ends where the text does, and returns where it begins.
#[tactic(auto, using(std::proofs::Common::append_assoc))]
#[inline(always)]
fn write_behind(
    sam: &SamRef<'_>,
    start: u64,
    stop: u64,
    with_cigar: bool,
    text: &mut [u8; LINE_ROOM],
) -> usize
    requires name { length sam.now.name.now ≤ NAME_ROOM }
    requires cigar { with_cigar ≡ true → length sam.now.cigar.now ≤ CIGAR_ROOM }
    ensures within { result ≤ LINE_ROOM }
    ensures written { drop result text.new ≡ bounds_text start stop
        ++ (sam.now.name.now ++ line_tail with_cigar (alignment_lent sam.now)) }
{
    let cigar = write_cigar(sam.cigar, with_cigar, text);
    let quality = write_quality(sam, with_cigar, text, cigar);
    let marks = write_marks(sam.first, sam.last, text, quality);
    let name = write_piece(sam.name, text, marks);
    write_bounds(start, stop, text, name)
}

// Writes a CIGAR, if it is requested, and a line feed so that they end where the text does, and returns where
// they begin.
#[inline(always)]
fn write_cigar(cigar: &[u8], with_cigar: bool, text: &mut [u8; LINE_ROOM]) -> usize
    requires { with_cigar ≡ true → length cigar.now ≤ CIGAR_ROOM }
    ensures low { LINE_ROOM ≤ result + (CIGAR_ROOM + 1) }
    ensures within { result ≤ LINE_ROOM }
    ensures written { drop result text.new ≡ text_if with_cigar (cigar.now ++ codes "\n") }
{
    if !with_cigar {
        return LINE_ROOM;
    }
    text[LINE_ROOM - 1] = b'\n';
    write_piece(cigar, text, LINE_ROOM - 1)
}

// Writes a piece up to an index, and returns where it begins.
#[inline(always)]
fn write_piece(piece: &[u8], text: &mut [u8], end: usize) -> usize
    requires room { length piece.now ≤ end }
    requires within { end ≤ length text.old }
    ensures size { result + length piece.now ≡ end }
    ensures written { drop result text.new ≡ piece.now ++ drop end text.old }
{
    let first = end - piece.len();
    copy_piece(&mut text[first..end], piece);
    first
}

// Puts the chromosome and the bounds of a block, with a tab between and after them.
#[tactic(auto, using(std::proofs::lemmas::List::drop_all, std::proofs::lemmas::List::take_all))]
fn put_place<K: Sink>(chrom: &[u8], start: u64, stop: u64, out: &mut Out<K>) -> Result<(), Fault>
    ensures { Puts out.old.output (chrom.now ++ bounds_text start stop) result out.new.output }
{
    let mut text = [0; BOUNDS_ROOM];
    let first = write_bounds(start, stop, &mut text, BOUNDS_ROOM);
    put_both(chrom, &text[first..], out)
}

// Puts name, marks, mapping quality and strand, and the CIGAR if it is requested.
fn put_read<K: Sink>(sam: &SamRef<'_>, with_cigar: bool, out: &mut Out<K>) -> Result<(), Fault>
    ensures { Puts out.old.output (sam.now.name.now ++ line_tail with_cigar (alignment_lent sam.now)) result out.new.output }
{
    let mut text = [0; TAIL_ROOM];
    let quality = write_quality(sam, with_cigar, &mut text, TAIL_ROOM);
    let first = write_marks(sam.first, sam.last, &mut text, quality);
    if !with_cigar {
        return put_both(sam.name, &text[first..], out);
    }
    put_both(sam.name, &text[first..], out)?;
    put_column(sam.cigar, b"\n", out)
}

// Writes the bounds up to an index, and returns where they begin.
#[inline(always)]
fn write_bounds(start: u64, stop: u64, text: &mut [u8], end: usize) -> usize
    requires room { BOUNDS_ROOM ≤ end }
    requires within { end ≤ length text.old }
    ensures within { result ≤ end }
    ensures written { drop result text.new ≡ bounds_text start stop ++ drop end text.old }
{
    text[end - 1] = b'\t';
    let before_stop = write_column(stop, text, end - 1);
    write_column(start, text, before_stop)
}

// Writes what follows the marks up to an index, except the CIGAR, and returns where it begins.
#[inline(always)]
fn write_quality(sam: &SamRef<'_>, with_cigar: bool, text: &mut [u8], end: usize) -> usize
    requires room { TAIL_ROOM ≤ end }
    requires within { end ≤ length text.old }
    ensures low { end ≤ result + 24 }
    ensures within { result ≤ end }
    ensures written { drop result text.new ≡ quality_text with_cigar (alignment_lent sam.now)
        ++ drop end text.old }
{
    text[end - 1] = end_sign(with_cigar);
    text[end - 2] = strand_sign(sam.reverse);
    text[end - 3] = b'\t';
    write_column(sam.quality, text, end - 3)
}

// Writes the marks of the first and of the last segment up to an index, and returns where they begin.
fn write_marks(first: bool, last: bool, text: &mut [u8], end: usize) -> usize
    requires room { 4 ≤ end }
    requires within { end ≤ length text.old }
    ensures low { end ≤ result + 4 }
    ensures within { result ≤ end }
    ensures written { drop result text.new ≡ marks first last ++ drop end text.old }
{
    let behind = write_mark(last, b'2', text, end);
    write_mark(first, b'1', text, behind)
}

// Writes a slash and a digit up to an index, if they are requested.
fn write_mark(asked: bool, digit: u8, text: &mut [u8], end: usize) -> usize
    requires room { 2 ≤ end }
    requires within { end ≤ length text.old }
    ensures low { end ≤ result + 2 }
    ensures high { result ≤ end }
    ensures written { drop result text.new ≡ text_if asked (47 ∷ digit ∷ []) ++ drop end text.old }
{
    if !asked {
        return end;
    }
    text[end - 1] = digit;
    text[end - 2] = b'/';
    end - 2
}

// The strand.
fn strand_sign(reverse: bool) -> u8
    ensures { result ∷ [] ≡ strand_sign reverse }
{
    if reverse { b'-' } else { b'+' }
}

// What ends the strand.
fn end_sign(with_cigar: bool) -> u8
    ensures { result ∷ [] ≡ end_sign with_cigar }
{
    if with_cigar { b'\t' } else { b'\n' }
}
