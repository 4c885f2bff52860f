//! The bytes that a device handed over or took, in proofs alone: at run time this has no bytes, and its functions do nothing.

ghost use Rattle.std.specs.Prelude.{◌≡◌, List, ℕ, [], ◌++◌};
ghost use Rattle.std.specs.Borrow.{ftrue};

use std::marker::Model;

/// The bytes that the calls of a device moved, in order.
#[derive(Drop, Debug)]
pub struct MovedBytes {
    ghost bytes: { List ℕ },
}

impl Model for MovedBytes {
    ghost also_owns = { λ _. ftrue };
}

/// What one call moved.
#[derive(Clone, Copy, Drop)]
pub struct Piece<'a> {
    pub bytes: &'a [u8],
}

impl MovedBytes {
    /// No bytes.
    pub fn new() -> MovedBytes
        ensures { result.bytes ≡ [] }
    {
        MovedBytes {}
    }

    /// Bytes that were moved before, which a proof names.
    pub fn after() -> MovedBytes
        ghost before: { List ℕ }
        ensures { result.bytes ≡ before }
    {
        MovedBytes {}
    }

    /// Those before, and a piece after them.
    #[inline(always)]
    pub fn with(&self, piece: &Piece<'_>) -> MovedBytes
        ensures { result.bytes ≡ self.now.bytes ++ piece.now.bytes.now }
    {
        MovedBytes {}
    }
}
