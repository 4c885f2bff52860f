//! What an option takes after its own word.

ghost use Rattle.std.specs.Prelude.{◌≡◌, None, Some};
ghost use Rattle.bt_tool.specs.model.Table.{character_of, fits};

use crate::options::fraction::fraction;
use bt_lines::number;

/// What an option takes after its own word.
#[derive(Clone, Copy, Debug, PartialEq, Eq)]
pub(crate) enum Takes {
    Nothing,
    FileName,
    /// A number of at most twelve digits, leading zeros aside.
    Number,
    /// A number of at most 1, with at most nine decimals.
    Fraction,
    /// `+` or `-`.
    Strand,
    /// One printable character of ASCII, no space.
    Character,
}

impl Takes {
    /// Whether it takes nothing.
    pub(crate) fn stands_alone(self) -> bool
        ensures { result ≡ fits self None }
    {
        matches!(self, Takes::Nothing)
    }

    /// Whether this word may be its value.
    pub(crate) fn fits(self, value: &str) -> bool
        ensures { result ≡ fits self (Some value.now) }
    {
        match self {
            Takes::Nothing => false,
            Takes::FileName => !value.is_empty(),
            Takes::Number => number(value.as_bytes()).is_some(),
            Takes::Fraction => fraction(value).is_some(),
            Takes::Strand => value == "+" || value == "-",
            Takes::Character => character(value).is_some(),
        }
    }
}

/// The byte of a word of one printable character of ASCII, no space.
pub(crate) fn character(word: &str) -> Option<u8>
    ensures { result ≡ character_of word.now }
{
    match word.as_bytes() {
        [byte] if byte.is_ascii_graphic() => Some(*byte),
        _ => None,
    }
}
