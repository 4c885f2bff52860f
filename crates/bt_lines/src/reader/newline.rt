//! The first byte of a value among some bytes, as a line feed or a tab.

ghost use Rattle.std.specs.Prelude.{◌≡◌, ◌-◌, ◌≤◌, ◌++◌, length, replicate, take};
ghost use Rattle.bt_lines.specs.calls.Columns.{IsBefore, IsFirstOf, Lacks};

use crate::writer::copying::copy_short;
use memchr::{memchr, memchr2};

// How many bytes are searched at once.
const NEAR: usize = 32;

// How many bytes come before the first line feed, or in all. Most lines end in the first sixty-four bytes.
#[inline(always)]
pub(crate) fn line_length(text: &[u8]) -> usize
    ensures { IsBefore 10 text.now result }
{
    let Some(near) = text.first_chunk::<NEAR>() else {
        return late_length(b'\n', text, 0);
    };
    if let Some(at) = find_near(b'\n', near) {
        return at;
    }
    let Some(next) = text[NEAR..].first_chunk::<NEAR>() else {
        return late_length(b'\n', text, NEAR);
    };
    if let Some(at) = find_near(b'\n', next) {
        return NEAR + at;
    }
    late_length(b'\n', text, 2 * NEAR)
}

/// How many bytes come before the first of this value, or in all: most often less than thirty-two.
#[inline(always)]
pub fn length_before(byte: u8, text: &[u8]) -> usize
    ensures { IsBefore byte text.now result }
{
    let Some(near) = text.first_chunk::<NEAR>() else {
        return late_length(byte, text, 0);
    };
    if let Some(at) = find_near(byte, near) {
        return at;
    }
    late_length(byte, text, NEAR)
}

// How many bytes come before a byte that isn't among the first `from`. It returns a number, for which the caller makes
// no room.
#[inline(never)]
fn late_length(byte: u8, text: &[u8], from: usize) -> usize
    requires within { from ≤ length text.now }
    requires clear { Lacks byte (take from text.now) }
    ensures { IsBefore byte text.now result }
{
    from + rest_length(byte, &text[from..])
}

// How many of the bytes after those come before it: it is looked for among the next thirty-two, and then further on.
#[inline(always)]
fn rest_length(byte: u8, rest: &[u8]) -> usize
    ensures { IsBefore byte rest.now result }
{
    let Some(near) = rest.first_chunk::<NEAR>() else {
        return match find_near(byte, &padded(rest, !byte)) {
            Some(at) => at,
            None => rest.len(),
        };
    };
    match find_near(byte, near) {
        Some(at) => at,
        None => far_length(byte, rest),
    }
}

// How many of many bytes come before it, by `memchr2`, which looks at 128 at once. A second call of `memchr` wouldn't be
// inlined.
#[cold]
#[inline(never)]
fn far_length(byte: u8, text: &[u8]) -> usize
    ensures { IsBefore byte text.now result }
{
    match memchr2(byte, byte, text) {
        Some(at) => at,
        None => text.len(),
    }
}

// Fewer than thirty-two bytes, and others of one value after them.
#[inline]
fn padded(bytes: &[u8], other: u8) -> [u8; NEAR]
    requires { length bytes.now ≤ 32 }
    ensures { result ≡ bytes.now ++ replicate (32 - length bytes.now) other }
{
    let mut near = [other; NEAR];
    if !bytes.is_empty() {
        copy_short(&mut near[..bytes.len()], bytes);
    }
    near
}

// Where a byte first occurs among thirty-two. This is the only call of `memchr`, which is inlined and folded into a few
// instructions while there is no other.
#[inline]
fn find_near(byte: u8, bytes: &[u8; NEAR]) -> Option<usize>
    ensures { IsFirstOf byte bytes.now result }
{
    memchr(byte, bytes)
}
