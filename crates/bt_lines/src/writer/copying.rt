//! Short pieces, copied without a call.

ghost use Rattle.std.specs.Prelude.{◌≡◌, ◌*◌, ◌≤◌, length, true};
ghost use Rattle.bt_lines.specs.inside.Copying.{IsEnd, IsShort, IsWide};

use std::simd::prelude::*;

// Whether a piece is copied without a call: it has 1 to 64 bytes, as most have.
#[inline(always)]
pub(crate) fn is_short(size: usize) -> bool
    ensures { result ≡ true → IsShort size }
{
    size >= 1 && size <= 64
}

// Whether a piece is copied by vectors: it has 4 to 64 bytes.
#[inline(always)]
pub(crate) fn is_wide(size: usize) -> bool
    ensures { result ≡ true → IsWide size }
{
    size >= 4 && size <= 64
}

// Whether a piece is copied by vectors, or is a single byte, as most line ends are.
#[inline(always)]
pub(crate) fn is_end(size: usize) -> bool
    ensures { result ≡ true → IsEnd size }
{
    size == 1 || is_wide(size)
}

// Copies a short piece to as many bytes.
#[inline(always)]
pub(crate) fn copy_short(to: &mut [u8], piece: &[u8])
    requires same { length to.old ≡ length piece.now }
    requires short { IsShort (length piece.now) }
    ensures { to.new ≡ piece.now }
{
    if piece.len() < 4 {
        copy_few(to, piece);
    } else {
        copy_wide(to, piece);
    }
}

// Copies a piece to as many bytes: its first ones and its last ones, by one vector each, which may overlap.
#[inline(always)]
pub(crate) fn copy_wide(to: &mut [u8], piece: &[u8])
    requires same { length to.old ≡ length piece.now }
    requires wide { IsWide (length piece.now) }
    ensures { to.new ≡ piece.now }
{
    let size = piece.len();
    if size > 16 {
        if size > 32 {
            copy_ends::<32>(to, piece);
        } else {
            copy_ends::<16>(to, piece);
        }
    } else if size > 8 {
        copy_ends::<8>(to, piece);
    } else {
        copy_ends::<4>(to, piece);
    }
}

/// Copies a piece to as many bytes, as `copy_from_slice` does: without a call if it has 4 to 64 bytes.
#[inline(always)]
pub fn copy_piece(to: &mut [u8], piece: &[u8])
    requires { length to.old ≡ length piece.now }
    ensures { to.new ≡ piece.now }
{
    if is_wide(piece.len()) {
        copy_wide(to, piece);
    } else if !piece.is_empty() {
        copy_any(to, piece);
    }
}

// Copies a piece of any length to as many bytes.
#[inline(never)]
fn copy_any(to: &mut [u8], piece: &[u8])
    requires { length to.old ≡ length piece.now }
    ensures { to.new ≡ piece.now }
{
    to.copy_from_slice(piece);
}

// Copies a piece by vectors, or a single byte, to as many bytes.
#[inline(always)]
pub(crate) fn copy_end(to: &mut [u8], piece: &[u8])
    requires same { length to.old ≡ length piece.now }
    requires end { IsEnd (length piece.now) }
    ensures { to.new ≡ piece.now }
{
    if piece.len() == 1 {
        to[0] = piece[0];
    } else {
        copy_wide(to, piece);
    }
}

// Copies the first byte, the middle one and the last.
#[tactic(auto, using(crate::proofs::lemmas::Writer::few_copied))]
fn copy_few(to: &mut [u8], piece: &[u8])
    requires same { length to.old ≡ length piece.now }
    requires some { 1 ≤ length piece.now }
    requires few { length piece.now ≤ 3 }
    ensures { to.new ≡ piece.now }
{
    let last = piece.len() - 1;
    let middle = piece.len() / 2;
    to[0] = piece[0];
    to[middle] = piece[middle];
    to[last] = piece[last];
}

// Copies the first bytes and the last ones, `N` of each.
#[tactic(auto, using(crate::proofs::lemmas::Writer::both_ends))]
fn copy_ends<const N: usize>(to: &mut [u8], piece: &[u8])
    requires same { length to.old ≡ length piece.now }
    requires covers { (N ≤ length piece.now) × (length piece.now ≤ 2 * N) }
    ensures { to.new ≡ piece.now }
{
    let last = piece.len() - N;
    Simd::<u8, N>::from_slice(piece).copy_to_slice(to);
    Simd::<u8, N>::from_slice(&piece[last..]).copy_to_slice(&mut to[last..]);
}

#[cfg(test)]
mod tests {
    use super::*;

    // Copies a piece over the first of forty dots, and returns them.
    fn copied(piece: &[u8]) -> [u8; 40] {
        let mut text = [b'.'; 40];
        if let Some(room) = text.get_mut(..piece.len()) {
            copy_piece(room, piece);
        }
        text
    }

    // A piece that is copied by vectors, and one that is copied by a call.
    #[test]
    fn pieces_are_copied(rt: HostRuntime) {
        assert_eq!(rt;
            copied(b"a piece of twenty-one"),
            *b"a piece of twenty-one..................."
        );
        assert_eq!(rt;
            copied(b"abc"),
            *b"abc....................................."
        );
    }
}
