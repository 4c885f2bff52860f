//! The pipes that the program is given, by its first word.

use std::alloc::Global;

/// The pipes, by their names.
#[derive(Drop)]
pub struct Pipes {
    /// The one to which the line is written.
    pub line: String,
    /// Those on which the texts of gzip files come.
    pub texts: Vec<TextPipe>,
}

/// The pipe on which the text of a gzip file comes.
#[derive(Drop)]
pub struct TextPipe {
    /// The word of the call that names the file, counted from 1.
    pub word: usize,
    pub name: String,
}

impl Pipes {
    /// The pipes of a first word: `8`, or `8,3=5` if the text of the file that word 3 names comes on descriptor 5, and so on.
    pub fn of(alloc: Global, word: &str) -> Option<Pipes> {
        let mut pieces = word.split(',');
        let line = pipe_name(alloc, pieces.next()?)?;
        let mut texts = Vec::new(alloc);
        for piece in pieces {
            texts.push(TextPipe::of(alloc, piece)?).ok()?;
        }
        Some(Pipes { line, texts })
    }

    /// The pipe on which the text of the file comes that this word names.
    pub fn text_of(&self, word: usize) -> Option<&str> {
        for text in &self.texts {
            if text.word == word {
                return Some(text.name.as_str());
            }
        }
        None
    }

    /// Whether this is the name of a pipe on which a text comes.
    pub fn has_text(&self, name: &str) -> bool {
        for text in &self.texts {
            if text.name.as_str() == name {
                return true;
            }
        }
        false
    }
}

impl TextPipe {
    fn of(alloc: Global, piece: &str) -> Option<TextPipe> {
        let (word, number) = piece.split_once('=')?;
        let word = word.parse::<usize>().ok()?;
        let name = pipe_name(alloc, number)?;
        Some(TextPipe { word, name })
    }
}

// The name of the pipe of the descriptor that has this number.
fn pipe_name(alloc: Global, number: &str) -> Option<String> {
    if number.is_empty() || !number.bytes().all(|byte| byte.is_ascii_digit()) {
        return None;
    }
    let mut name = String::from_str(alloc, "/dev/fd/").ok()?;
    name.push_str(number).ok()?;
    Some(name)
}
