//! `drop_in`: decides who takes a call of bedtools, and runs it if Dunekettle does.
//!
//! Its first word is the number of a descriptor that is open for writing; the others are those of the call. It writes a line
//! there ([`line::Line`]). The script that is named `bedtools` starts it and reads that line. If the line asks for the text of
//! a gzip file, the script starts it again: the first word then also has the descriptor on which that text comes
//! ([`pipes::Pipes`]).
//!
//! Words:
//!
//! - *call*: a command line of bedtools, with the standard streams that it has.
//! - *stream*: an input that can be read only once, as standard input or a named pipe.
//! - *take*: to run a call here. What isn't taken is *left*: to the bedtools on PATH, or to the drop-in of the shell.
//! - *line*: what says who takes a call.
#![tactic(auto)]

#[cfg(test)]
mod answer_tests;
mod answering;
mod front_files;
mod genome_file;
mod gzip;
mod hits;
mod leaving;
mod line;
#[cfg(test)]
mod line_tests;
mod looks;
mod marks;
mod naming;
mod opening;
mod original;
#[cfg(test)]
mod original_tests;
mod pipes;
mod programs;
mod system;
mod system_programs;
mod versions;
mod warning;
#[cfg(test)]
mod warning_tests;
mod why;
mod words;

use answering::{Answered, answer};
use bt_files::{Finished, Message, Opened, Output, StandIns, SystemFiles};
use bt_lines::{Input, Sink};
use bt_tool::Plan;
use front_files::FrontInput;
use hits::Listed;
use leaving::{Call, Cause, Heir};
use looks::Left;
use opening::{Way, Ways};
use original::Original;
use pipes::Pipes;
use std::env::Env;
use std::fs::File;
use std::process::ExitCode;
use std::{env, io};
use system::{
    DropInFiles, begins_as_gzip, find_original, fit_room, open_pipe, room, ways_of, writes_to_pipe,
};
use system_programs::SystemPrograms;
use versions::{is_for_any_version, is_known_version};
use warning::Case;
use why::Why;
use words::{Request, name_place, option_of, stream_word};

// The status of a run whose output has no reader any more.
const GONE: u8 = 121;

fn main(rt: HostRuntime) -> ExitCode {
    // They are kept to the end, so that no file is ever a standard stream.
    let stand_ins = StandIns::take(&rt);
    let status = match &stand_ins {
        Ok(_) => start(&rt),
        Err(_) => 1,
    };
    ExitCode::from(status)
}

// Opens the pipe for the line, and answers the call.
fn start(rt: &HostRuntime) -> u8 {
    let Some(pipes) = given_pipes(rt) else {
        return 1;
    };
    let pipes = &pipes;
    let Ok(pipe) = open_pipe(rt, pipes.line.as_str()) else {
        return 1;
    };
    match call_words(rt) {
        Ok(words) => {
            let words = words.as_slice();
            answer_call(&Call { rt, words, pipes }, pipe)
        }
        Err(_) => Call {
            rt,
            words: &[],
            pipes,
        }
        .leave(pipe, cause_of(Why::NotUnicode)),
    }
}

// The pipes that the first word gives.
fn given_pipes(rt: &HostRuntime) -> Option<Pipes> {
    let mut block = [0u8; 64];
    let count = rt.arg(1, &mut block).ok()?;
    let word = str::from_utf8(&block[..count]).ok()?;
    Pipes::of(rt.alloc(), word)
}

// The words after it.
fn call_words(rt: &HostRuntime) -> io::Result<Vec<String>> {
    let mut all = Vec::new(rt.alloc());
    for word in env::args(rt)?.skip(2) {
        all.push(word)?;
    }
    Ok(all)
}

// A cause that no input is.
fn cause_of(why: Why) -> Cause<'static> {
    Cause {
        why,
        name: "",
        warning: None,
    }
}

fn answer_call(call: &Call<'_>, pipe: File) -> u8 {
    let request = match Request::of(call.rt.alloc(), call.words) {
        Ok(request) => request,
        Err(why) => return call.leave(pipe, cause_of(why)),
    };
    let ways = ways_of(call.rt, call.words, &request.plan, call.pipes);
    if let Some(why) = why_unknown(call.rt, &request) {
        return call.leave(pipe, cause_of(why));
    }
    if let Some(word) = gzip_word(call, &request.plan, ways) {
        return call.ask_for_text(pipe, word);
    }
    if !ways.first.is_stream() && !ways.second.is_stream() {
        return answer_files(call, pipe, request, ways);
    }
    match find_original(call.rt) {
        Original::Named(path) => answer_stream(call, pipe, request, ways, path.as_str()),
        Original::Missing | Original::Unclear => call.leave(pipe, cause_of(Why::NoOriginal)),
    }
}

// The word that names the first input that is a gzip file, if its text isn't given. It is asked for before any text is read,
// since what comes on a pipe can't be read again.
fn gzip_word(call: &Call<'_>, plan: &Plan, ways: Ways<'_>) -> Option<usize> {
    if ways.first == Way::File && begins_as_gzip(call.rt, plan.first.as_str()) {
        return place_of(call.words, plan, Input::First, plan.first.as_str());
    }
    match &plan.second {
        Some(second) if ways.second == Way::File && begins_as_gzip(call.rt, second.as_str()) => {
            place_of(call.words, plan, Input::Second, second.as_str())
        }
        _ => None,
    }
}

// Where the name of an input stands among the words.
fn place_of(words: &[String], plan: &Plan, input: Input, name: &str) -> Option<usize> {
    name_place(words, option_of(plan.command, input), name)
}

// Why the bedtools on PATH takes the words of a request: it isn't of a version that all was compared with.
fn why_unknown(rt: &HostRuntime, request: &Request) -> Option<Why> {
    if is_for_any_version(request.plan.command, request.is_sorted) {
        return None;
    }
    match find_original(rt) {
        Original::Named(path) => match is_known_version(&SystemPrograms { rt }, path.as_str()) {
            Ok(true) => None,
            _ => Some(Why::Version),
        },
        Original::Missing | Original::Unclear => None,
    }
}

// Answers a call without a stream.
fn answer_files(call: &Call<'_>, pipe: File, request: Request, ways: Ways<'_>) -> u8 {
    let Ok(names) = InputNames::of(call.rt, &request) else {
        return call.leave(pipe, cause_of(Why::NoMemory));
    };
    let Some(room) = room(call.rt) else {
        return call.leave(pipe, cause_of(Why::Room));
    };
    if request.orders_hits() && !fit_room(call.rt, &request.plan, ways, room) {
        return call.leave(pipe, cause_of(Why::HitsRoom));
    }
    let files = DropInFiles {
        system: SystemFiles { rt: call.rt },
        pipe,
        pipes: call.pipes,
        command: request.plan.command.name(),
    };
    let (answered, files) = answer(call.rt.alloc(), files, request, ways, room);
    match answered {
        Answered::Took(finished) => end(call.rt, finished),
        Answered::Listed(listed) => end_listed(call.rt, listed),
        Answered::Left(left) => call.leave(files.pipe, names.cause(left.why)),
    }
}

// Answers a call with a stream, which the bedtools of this path gets if it takes it.
fn answer_stream(call: &Call<'_>, pipe: File, request: Request, ways: Ways<'_>, path: &str) -> u8 {
    let Some(room) = room(call.rt) else {
        return call.leave(pipe, cause_of(Why::Room));
    };
    let Ok(names) = InputNames::of(call.rt, &request) else {
        return call.leave(pipe, cause_of(Why::NoMemory));
    };
    let Some(word) = word_of(call.words, &request.plan, ways.second.is_stream()) else {
        return call.leave(pipe, cause_of(Why::NoWord));
    };
    let files = DropInFiles {
        system: SystemFiles { rt: call.rt },
        pipe,
        pipes: call.pipes,
        command: request.plan.command.name(),
    };
    let (answered, files) = answer(call.rt.alloc(), files, request, ways, room);
    match answered {
        Answered::Took(finished) => end(call.rt, finished),
        Answered::Listed(listed) => end_listed(call.rt, listed),
        Answered::Left(left) => {
            let Left { why, stream } = left;
            match stream {
                Some(stream) => {
                    let heir = Heir { path, word };
                    call.leave_stream(files.pipe, names.cause(why), heir, stream)
                }
                None => call.leave(files.pipe, names.cause(why)),
            }
        }
    }
}

// The names of a plan's inputs, kept beside it, and what decides what bedtools does with their lines.
#[derive(Drop)]
struct InputNames {
    genome: String,
    first: String,
    second: String,
    case: Case,
}

impl InputNames {
    fn of(rt: &HostRuntime, request: &Request) -> io::Result<InputNames> {
        let plan = &request.plan;
        Ok(InputNames {
            genome: copy_of(rt, &plan.genome)?,
            first: String::from_str(rt.alloc(), plan.first.as_str())?,
            second: copy_of(rt, &plan.second)?,
            case: Case {
                command: plan.command,
                is_sorted: request.is_sorted,
                has_genome: plan.genome.is_some(),
            },
        })
    }

    // The cause of a call that is left.
    fn cause(&self, why: Why) -> Cause<'_> {
        Cause {
            why,
            name: self.about(why),
            warning: self.case.warning(why),
        }
    }

    // The name of the input that is the cause, or no text.
    fn about(&self, why: Why) -> &str {
        match why.input() {
            Some(Input::Genome) => self.genome.as_str(),
            Some(Input::First) => self.first.as_str(),
            Some(Input::Second) => self.second.as_str(),
            None => "",
        }
    }
}

fn copy_of(rt: &HostRuntime, name: &Option<String>) -> io::Result<String> {
    match name {
        Some(name) => Ok(String::from_str(rt.alloc(), name.as_str())?),
        None => Ok(String::new(rt.alloc())),
    }
}

// The word of the call that the stream replaces.
fn word_of(words: &[String], plan: &Plan, is_second: bool) -> Option<usize> {
    let (name, input) = match &plan.second {
        Some(second) if is_second => (second.as_str(), Input::Second),
        _ => (plan.first.as_str(), Input::First),
    };
    stream_word(words, option_of(plan.command, input), name)
}

// How a call that was run ends.
fn end(rt: &HostRuntime, finished: Finished<FrontInput<Opened>, Output>) -> u8 {
    let has_failed = match &finished.left {
        Some(left) => left.output.failed(),
        None => false,
    };
    end_with(rt, &finished.message, has_failed)
}

// How a call whose hits were listed ends.
fn end_listed(rt: &HostRuntime, listed: Listed<Output>) -> u8 {
    end_with(rt, &listed.message, listed.output.failed())
}

// If the output has no reader any more, the script ends as bedtools does then.
fn end_with(rt: &HostRuntime, message: &Message, has_failed: bool) -> u8 {
    if has_failed && writes_to_pipe(rt) {
        return GONE;
    }
    message.print(rt);
    message.status
}
