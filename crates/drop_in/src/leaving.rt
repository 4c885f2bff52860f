//! How a call is left to the bedtools on PATH, or to the drop-in of the shell; or how the text of a gzip file is asked for.

use crate::line::Line;
use crate::looks::ReadStream;
use crate::original::Original;
use crate::pipes::Pipes;
use crate::system::{find_original, say, tell, warn};
use crate::warning::Warning;
use crate::why::{Taker, Why};
use bt_files::Opened;
use bt_front::{Unpoured, pour};
use bt_lines::{Out, Source, ToWrite};
use bt_tool::{Usage, usage_line};
use std::fs::File;
use std::io;

/// A call, as it came.
#[derive(Clone, Copy)]
pub struct Call<'c> {
    pub rt: &'c HostRuntime,
    pub words: &'c [String],
    /// The pipes that came with it.
    pub pipes: &'c Pipes,
}

/// Why a call is left, and the name of the input that is the cause.
#[derive(Clone, Copy)]
pub struct Cause<'c> {
    pub why: Why,
    pub name: &'c str,
    /// What is said of a line of that input before bedtools reads it.
    pub warning: Option<Warning>,
}

/// Who takes a stream: the bedtools of this path, in place of this word of the call.
#[derive(Clone, Copy)]
pub struct Heir<'c> {
    pub path: &'c str,
    pub word: usize,
}

impl Call<'_> {
    /// Leaves a call of which no stream was read.
    pub fn leave(&self, pipe: File, cause: Cause<'_>) -> u8 {
        let mut pipe = pipe;
        if matches!(cause.why.taker(self.is_coverage()), Taker::Shell) {
            return self.leave_to_shell(&mut pipe, cause);
        }
        match find_original(self.rt) {
            Original::Named(path) => {
                self.tell_cause(path.as_str(), cause);
                self.warn(cause);
                self.said(&mut pipe, &Line::Original(path.as_str()))
            }
            Original::Missing | Original::Unclear => self.leave_to_shell(&mut pipe, cause),
        }
    }

    /// Asks for the text of the gzip file that this word names.
    pub fn ask_for_text(&self, pipe: File, word: usize) -> u8 {
        let mut pipe = pipe;
        self.said(&mut pipe, &Line::Zipped(word))
    }

    /// Leaves a call whose stream was read, and hands that on. If its first read failed, bedtools may try it too.
    pub fn leave_stream(
        &self,
        pipe: File,
        cause: Cause<'_>,
        heir: Heir<'_>,
        stream: ReadStream<Opened>,
    ) -> u8 {
        let mut pipe = pipe;
        self.tell_cause(heir.path, cause);
        self.warn(cause);
        if stream.kept.is_empty() && stream.source.failed() {
            return self.said(&mut pipe, &Line::Original(heir.path));
        }
        match say(self.rt, &mut pipe, &Line::Stream(heir.word, heir.path)) {
            Ok(()) => hand_on(pipe, stream),
            Err(_) => 1,
        }
    }

    // Leaves a call to the drop-in of the shell. A reason that would be two lines is said without its name.
    fn leave_to_shell(&self, pipe: &mut File, cause: Cause<'_>) -> u8 {
        match self.reason(cause) {
            Some(reason) if !reason.as_str().contains('\n') => {
                self.said(pipe, &Line::Shell(reason.as_str()))
            }
            _ => self.said(pipe, &Line::Shell(cause.why.text())),
        }
    }

    // Whether it is a call of genomecov.
    fn is_coverage(&self) -> bool {
        match self.words.first() {
            Some(word) => word.as_str() == "genomecov",
            None => false,
        }
    }

    // Says the line, and gives the status that goes with it.
    fn said(&self, pipe: &mut File, line: &Line<'_>) -> u8 {
        match say(self.rt, pipe, line) {
            Ok(()) => 0,
            Err(_) => 1,
        }
    }

    // Says on which line bedtools loses or changes output silently.
    fn warn(&self, cause: Cause<'_>) {
        let Some(warning) = cause.warning else {
            return;
        };
        let Warning { line, silent } = warning;
        let name = cause.name;
        let text = silent.text();
        if let Ok(said) = format!(in self.rt.alloc(); "dunekettle: {name}:{line} {text}\n") {
            warn(self.rt, said.as_str());
        }
    }

    // Tells who takes the call and why.
    fn tell_cause(&self, path: &str, cause: Cause<'_>) {
        let command = match self.words.first() {
            Some(word) => word.as_str(),
            None => "it",
        };
        let Some(reason) = self.reason(cause) else {
            return;
        };
        let reason = reason.as_str();
        if let Ok(told) = format!(in self.rt.alloc(); "{path} takes {command}: {reason}") {
            tell(self.rt, told.as_str());
        }
    }

    // Why the call is left, in words, with the name of the input that is the cause.
    fn reason(&self, cause: Cause<'_>) -> Option<String> {
        let Cause { why, name, .. } = cause;
        let usage = match why {
            Why::Usage(usage) => self.usage_text(usage),
            _ => None,
        };
        let text = match &usage {
            Some(text) => text.as_str(),
            None => why.text(),
        };
        if name.is_empty() {
            return self.own(text);
        }
        format!(in self.rt.alloc(); "{name}: {text}").ok()
    }

    // The plan's own words for a fault of usage, but for help and other commands.
    fn usage_text(&self, usage: Usage) -> Option<String> {
        if usage.number == 1 {
            return self.own("it is no command of Dunekettle");
        }
        for word in self.words {
            if matches!(word.as_str(), "-h" | "--help") {
                return self.own("it asks for help");
            }
        }
        if usage.number == 0 || usage.number > 7 || usage.word >= self.words.len() {
            return None;
        }
        let line = usage_line(self.rt.alloc(), self.words, &usage).ok()?;
        let text = String::from_utf8(line).ok()?;
        let text = text.as_str().trim_end();
        self.own(text.strip_prefix("bedtools: ").unwrap_or(text))
    }

    fn own(&self, text: &str) -> Option<String> {
        String::from_str(self.rt.alloc(), text).ok()
    }
}

// Hands a stream on. The status is that of a success if its taker has all of it, or takes no more.
fn hand_on(pipe: File, stream: ReadStream<Opened>) -> u8 {
    let ReadStream { source, kept } = stream;
    let mut source = source;
    let mut taker = Out::new(ToWrite::new(pipe));
    match pour(kept.as_slice(), &mut source, &mut taker) {
        Ok(()) | Err(Unpoured::Taker) => 0,
        Err(Unpoured::Stream) => 1,
    }
}
