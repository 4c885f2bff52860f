//! What the program itself reports: the lines that come of no run.

ghost use Rattle.std.specs.Prelude.{◌≡◌, ◌++◌, codes, IfOk};
ghost use Rattle.bt_files.specs.calls.Message.{CanBeReported, Says, obstacle_line, message_seen, obstacle_status};

use bt_tool::{Usage, usage_line};
use std::alloc::{AllocError, Global};
use std::io::Write;

/// What kept a run from beginning, or its fault from being reported.
#[derive(Clone, Copy)]
pub enum Obstacle<'a> {
    /// A word of the command line isn't UTF-8.
    NotUnicode,
    /// The words are no valid command line.
    Usage(&'a [String], Usage),
    /// A standard stream is closed, and nothing could be opened in its place.
    ClosedStream,
    /// A file of this name, which a run of this command needs, can't be opened.
    CannotOpen(&'a str, &'a str),
    /// There is no memory.
    NoMemory,
}

/// What standard error is to say, and the exit status that goes with it.
#[derive(Debug, Drop)]
pub struct Message {
    pub line: MessageLine,
    pub status: u8,
}

/// The line of a message, with its line feed.
#[derive(Debug, Drop)]
pub enum MessageLine {
    /// Nothing is printed.
    Nothing,
    Text(Vec<u8>),
    /// The line that needs no memory: that there was none.
    NoMemory,
}

impl Message {
    /// Says what kept a run from beginning. The exit status is 2 for a command line that can't be used,
    /// else 1. If there is no memory for the line, that is reported, with status 1; this line needs none.
    pub fn of(alloc: Global, obstacle: &Obstacle<'_>) -> Message
        requires { CanBeReported obstacle.now }
        ensures { Says (obstacle_line obstacle.now) (obstacle_status obstacle.now) result }
    {
        match line_of(alloc, obstacle) {
            Ok(line) => Message {
                line: MessageLine::Text(line),
                status: status_of(obstacle),
            },
            Err(AllocError) => Message {
                line: MessageLine::NoMemory,
                status: 1,
            },
        }
    }

    /// Prints the line on standard error. If that fails there is nowhere left to say so.
    pub fn print(&self, rt: &HostRuntime) {
        let _ = rt.stderr().write_all(self.line.as_bytes());
    }
}

impl MessageLine {
    /// The bytes to print.
    pub fn as_bytes(&self) -> &[u8]
        ensures { result.now ≡ message_seen self.now }
    {
        match self {
            MessageLine::Nothing => b"",
            MessageLine::Text(line) => line.as_slice(),
            MessageLine::NoMemory => b"bedtools: no memory\n",
        }
    }
}

// The line of what kept a run from beginning. `Err` if there is no memory for it, or if that is what it is to say.
fn line_of(alloc: Global, obstacle: &Obstacle<'_>) -> Result<Vec<u8>, AllocError>
    requires { CanBeReported obstacle.now }
    ensures { IfOk result (λ line. line.items ≡ obstacle_line obstacle.now) }
{
    match obstacle {
        Obstacle::NotUnicode => Vec::from_slice(alloc, b"bedtools: argument is not UTF-8\n"),
        Obstacle::Usage(words, usage) => usage_line(alloc, words, usage),
        Obstacle::ClosedStream => {
            Vec::from_slice(alloc, b"bedtools: standard stream is closed\n")
        }
        Obstacle::CannotOpen(command, name) => cannot_open(alloc, command, name),
        Obstacle::NoMemory => Err(AllocError),
    }
}

// The exit status that goes with it.
fn status_of(obstacle: &Obstacle<'_>) -> u8
    ensures { result ≡ obstacle_status obstacle.now }
{
    match obstacle {
        Obstacle::NotUnicode | Obstacle::Usage(_, _) => 2,
        Obstacle::ClosedStream | Obstacle::CannotOpen(_, _) | Obstacle::NoMemory => 1,
    }
}

// The line `bedtools COMMAND: NAME: cannot be opened`.
fn cannot_open(alloc: Global, command: &str, name: &str) -> Result<Vec<u8>, AllocError>
    ensures { IfOk result (λ line. line.items ≡ codes "bedtools " ++ command.now ++ codes ": "
        ++ name.now ++ codes ": cannot be opened\n") }
{
    let mut line = Vec::from_slice(alloc, b"bedtools ")?;
    line.extend_from_slice(command.as_bytes())?;
    line.extend_from_slice(b": ")?;
    line.extend_from_slice(name.as_bytes())?;
    line.extend_from_slice(b": cannot be opened\n")?;
    Ok(line)
}

#[cfg(test)]
mod tests {
    use super::*;
    use std::test::Fail;

    #[test]
    fn messages(rt: HostRuntime) -> Result<(), Fail> {
        let alloc = rt.alloc();
        let words = [
            String::from_str(alloc, "merge")?,
            String::from_str(alloc, "-q")?,
        ];
        let unopened = Obstacle::CannotOpen("merge", "g.txt");
        let usage = Obstacle::Usage(&words, Usage { number: 2, word: 1 });
        let cases: [(Obstacle<'_>, &str, u8); 5] = [
            (unopened, " merge: g.txt: cannot be opened", 1),
            (Obstacle::NotUnicode, ": argument is not UTF-8", 2),
            (Obstacle::ClosedStream, ": standard stream is closed", 1),
            (usage, ": unknown option: -q", 2),
            (Obstacle::NoMemory, ": no memory", 1),
        ];
        for (obstacle, text, status) in &cases {
            let message = Message::of(alloc, obstacle);
            let line = format!(in alloc; "bedtools{text}\n")?;
            assert_eq!(rt; message.line.as_bytes(), line.as_bytes());
            assert_eq!(rt; message.status, *status);
        }
        Ok(())
    }
}
