//! The line that says who takes a call.

ghost use Rattle.std.specs.Prelude.{◌≡◌, IfOk};
ghost use Rattle.drop_in.specs.calls.Line.{line_text};

use itoa::Buffer;
use std::alloc::{AllocError, Global};

/// Who takes a call.
#[derive(Clone, Copy, Debug)]
pub enum Line<'a> {
    /// It isn't known yet, and the first byte of a stream is about to be read.
    Begins,
    /// Dunekettle does, and its output begins.
    Dunekettle,
    /// The bedtools of this path, with the words as they came.
    Original(&'a str),
    /// The same, and the stream that was read comes behind the line. It replaces this word, counted from 1; 0 is standard
    /// input.
    Stream(usize, &'a str),
    /// Nobody yet: this word, counted from 1, is a gzip file, and the program is to be started again with its text.
    Zipped(usize),
    /// The drop-in of the shell, with the words as they came, for this reason.
    Shell(&'a str),
}

impl Line<'_> {
    /// The line, with its line feed.
    pub fn text(&self, alloc: Global) -> Result<Vec<u8>, AllocError>
        ensures { IfOk result (λ line. line.items ≡ line_text self.now) }
    {
        match self {
            Line::Begins => Vec::from_slice(alloc, b"r\n"),
            Line::Dunekettle => Vec::from_slice(alloc, b"d\n"),
            Line::Original(path) => {
                let mut line = Vec::from_slice(alloc, b"o ")?;
                line.extend_from_slice(path.as_bytes())?;
                line.extend_from_slice(b"\n")?;
                Ok(line)
            }
            Line::Stream(word, path) => {
                let mut line = Vec::from_slice(alloc, b"s ")?;
                let mut digits = Buffer::new();
                line.extend_from_slice(digits.format(*word).as_bytes())?;
                line.extend_from_slice(b" ")?;
                line.extend_from_slice(path.as_bytes())?;
                line.extend_from_slice(b"\n")?;
                Ok(line)
            }
            Line::Zipped(place) => {
                let mut line = Vec::from_slice(alloc, b"z ")?;
                let mut digits = Buffer::new();
                line.extend_from_slice(digits.format(*place).as_bytes())?;
                line.extend_from_slice(b"\n")?;
                Ok(line)
            }
            Line::Shell(reason) => {
                let mut line = Vec::from_slice(alloc, b"t ")?;
                line.extend_from_slice(reason.as_bytes())?;
                line.extend_from_slice(b"\n")?;
                Ok(line)
            }
        }
    }
}
