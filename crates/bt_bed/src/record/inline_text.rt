//! The text of a record that is kept.

ghost use Rattle.std.specs.Prelude.{◌≡◌, ◌≤◌, ◌<◌, ◌++◌, ◌+◌, ◌-◌, length, take, IfNone, IfOk, IfSome, OnErr};
ghost use Rattle.bt_bed.specs.calls.Bed.{inline_size};
ghost use Rattle.bt_bed.specs.inside.FirstColumns.{bytes_of};

use bt_lines::copy_piece;
use std::alloc::{AllocError, Global};

// That many bytes are inside. A record that is kept takes 64 bytes with them, and most names and later columns fit.
const SHORT: usize = 31;

// The bytes of a record that is kept, of which some at the end may be unspecified. A short text is inside, so that
// nothing is allocated for it. A longer one is in a buffer.
#[derive(Debug, Drop)]
pub(crate) enum InlineText {
    Short([u8; SHORT]),
    Long(Vec<u8>),
}

impl InlineText {
    // A name and what comes after it, and how many bytes at its end are unspecified.
    pub(crate) fn of(
        alloc: Global,
        name: &[u8],
        rest: &[u8],
    ) -> Result<(InlineText, u32), AllocError>
        ensures within { IfOk result (λ kept. kept.1 ≤ length (bytes_of kept.0)) }
        ensures filled { IfOk result (λ kept. take (length (bytes_of kept.0) - kept.1) (bytes_of kept.0) ≡ name.now ++ rest.now) }
        ensures long { OnErr result (inline_size < length name.now + length rest.now) }
    {
        let mut bytes = [0; SHORT];
        if let Some(left) = copy_both(&mut bytes, name, rest) {
            return Ok((InlineText::Short(bytes), left));
        }
        let mut text = Vec::with_capacity(alloc, name.len() + rest.len())?;
        text.extend_from_slice(name)?;
        text.extend_from_slice(rest)?;
        Ok((InlineText::Long(text), 0))
    }

    // All its bytes.
    #[inline(always)]
    pub(crate) fn as_slice(&self) -> &[u8]
        ensures { result.now ≡ bytes_of self.now }
    {
        match self {
            InlineText::Short(bytes) => bytes,
            InlineText::Long(text) => text.as_slice(),
        }
    }
}

// Copies two pieces over bytes from the first on, and returns how many are left after them. If the pieces don't fit, it
// copies none.
#[inline(always)]
fn copy_both(bytes: &mut [u8], piece: &[u8], next: &[u8]) -> Option<u32>
    requires { length bytes.old ≤ SHORT }
    ensures within { IfSome result (λ left. left ≤ length bytes.new) }
    ensures put { IfSome result (λ left. take (length bytes.new - left) bytes.new ≡ piece.now ++ next.now) }
    ensures none { IfNone result (length bytes.old < length piece.now + length next.now) }
{
    let middle = piece.len();
    let used = middle + next.len();
    if bytes.len() < used {
        return None;
    }
    copy_piece(&mut bytes[..middle], piece);
    copy_piece(&mut bytes[middle..used], next);
    Some((bytes.len() - used) as u32)
}
