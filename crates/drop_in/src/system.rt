//! What the system has: streams, pipes, the environment.

ghost use Rattle.std.specs.Prelude.{⊤};

use crate::line::Line;
use crate::naming::is_stream_name;
use crate::opening::{Way, Ways};
use crate::original::Original;
use crate::pipes::Pipes;
use crate::system_programs::SystemPrograms;
use crate::words::{name_place, option_of};
use bt_files::{Files, Opened, Output, SystemFiles, Unopened};
use bt_lines::Input;
use bt_tool::Plan;
use std::fs::{File, OpenOptions};
use std::io::{Read, Write};
use std::os::unix::fs::FileTypeExt;
use std::{env, fs, io};

/// How many bytes of a stream are kept if DUNEKETTLE_ROOM doesn't say it.
const ROOM: usize = 268_435_456;

// The byte by which bedtools knows a gzip file.
const GZIP: u8 = 0x1f;

/// Opens a pipe to write to it.
pub fn open_pipe(rt: &HostRuntime, name: &str) -> io::Result<File> {
    OpenOptions::new().write(true).open(rt, name)
}

/// Writes the line.
pub fn say(rt: &HostRuntime, pipe: &mut File, line: &Line<'_>) -> io::Result<()> {
    let text = line.text(rt.alloc())?;
    pipe.write_all(text.as_slice())
}

/// How many bytes of a stream are kept; `None` if DUNEKETTLE_ROOM is no number.
pub fn room(rt: &HostRuntime) -> Option<usize> {
    match env::var(rt, "DUNEKETTLE_ROOM") {
        Ok(text) if !text.is_empty() => text.as_str().parse::<usize>().ok(),
        _ => Some(ROOM),
    }
}

/// Whether the inputs of a plan that are files fit the room, both together. The text of a gzip file may be as long as the room.
pub fn fit_room(rt: &HostRuntime, plan: &Plan, ways: Ways<'_>, room: usize) -> bool {
    let first = size_if_file(rt, plan.first.as_str(), ways.first);
    let second = match &plan.second {
        Some(second) => size_if_file(rt, second.as_str(), ways.second),
        None => 0,
    };
    first.saturating_add(second) <= room as u64
}

// How many bytes an input has; of the text of a gzip file it isn't known.
fn size_if_file(rt: &HostRuntime, name: &str, way: Way<'_>) -> u64 {
    match way {
        Way::Unzipped(_) => 0,
        Way::File | Way::Stream => size_of(rt, name),
    }
}

// How many bytes a file has; of what is no file it isn't known.
fn size_of(rt: &HostRuntime, name: &str) -> u64 {
    match fs::metadata(rt, name) {
        Ok(found) => found.len(),
        Err(_) => 0,
    }
}

/// How the inputs of a plan come, whose words these are.
pub fn ways_of<'p>(rt: &HostRuntime, words: &[String], plan: &Plan, pipes: &'p Pipes) -> Ways<'p> {
    let first = plan.first.as_str();
    let option = option_of(plan.command, Input::First);
    let first_text = text_pipe(words, option, first, pipes);
    Ways {
        genome: match &plan.genome {
            Some(genome) => is_stream(rt, genome.as_str()),
            None => false,
        },
        first: way_of(rt, first, first_text),
        second: match &plan.second {
            Some(second) => {
                let second = second.as_str();
                let option = option_of(plan.command, Input::Second);
                way_of(rt, second, text_pipe(words, option, second, pipes))
            }
            None => Way::File,
        },
    }
}

// The pipe on which the text of the input comes that is the value of this option, if one does.
fn text_pipe<'p>(words: &[String], option: &str, name: &str, pipes: &'p Pipes) -> Option<&'p str> {
    match name_place(words, option, name) {
        Some(place) => pipes.text_of(place),
        None => None,
    }
}

// How an input of this name comes, whose text may come on a pipe.
fn way_of<'p>(rt: &HostRuntime, name: &str, text: Option<&'p str>) -> Way<'p> {
    match text {
        Some(pipe) => Way::Unzipped(pipe),
        None if is_stream(rt, name) => Way::Stream,
        None => Way::File,
    }
}

// Whether an input can't be looked at and then read again.
fn is_stream(rt: &HostRuntime, name: &str) -> bool {
    if is_stream_name(name) {
        return true;
    }
    match fs::metadata(rt, name) {
        Ok(found) => !found.is_file() && !found.is_dir(),
        Err(_) => false,
    }
}

/// Whether a file begins as a gzip file, as far as it can be read.
pub fn begins_as_gzip(rt: &HostRuntime, name: &str) -> bool {
    let Ok(mut file) = File::open(rt, name) else {
        return false;
    };
    let mut first = [0u8; 1];
    matches!(file.read(&mut first), Ok(1)) && first[0] == GZIP
}

/// Whether standard output is a pipe or a socket, whose reader may go away.
pub fn writes_to_pipe(rt: &HostRuntime) -> bool {
    match fs::metadata(rt, "/dev/stdout") {
        Ok(found) => found.file_type().is_fifo() || found.file_type().is_socket(),
        Err(_) => false,
    }
}

/// The bedtools on PATH that takes what isn't run here. One whose path has a line feed can't be named in a line.
pub fn find_original(rt: &HostRuntime) -> Original {
    let Ok(path) = env::var(rt, "PATH") else {
        return Original::Missing;
    };
    let programs = SystemPrograms { rt };
    let found = match env::var(rt, "DUNEKETTLE_TRIED") {
        Ok(tried) => Original::find(rt.alloc(), &programs, path.as_str(), tried.as_str()),
        Err(_) => Original::find(rt.alloc(), &programs, path.as_str(), ""),
    };
    match found {
        Ok(Original::Named(path)) if path.as_bytes().contains(&b'\n') => Original::Unclear,
        Ok(found) => found,
        Err(_) => Original::Unclear,
    }
}

/// Says who takes a call, if DUNEKETTLE_TELL asks for it: on standard error, or in the file that it names.
pub fn tell(rt: &HostRuntime, text: &str) {
    let Ok(to) = env::var(rt, "DUNEKETTLE_TELL") else {
        return;
    };
    let Ok(line) = format!(in rt.alloc(); "dunekettle: {text}\n") else {
        return;
    };
    match to.as_str() {
        "" | "0" => {}
        "1" => {
            let _ = rt.stderr().write_all(line.as_bytes());
        }
        name => {
            if let Ok(mut file) = open_told(rt, name) {
                let _ = file.write_all(line.as_bytes());
            }
        }
    }
}

/// Writes a line to standard error, unless DUNEKETTLE_WARN is 0.
pub fn warn(rt: &HostRuntime, line: &str) {
    match env::var(rt, "DUNEKETTLE_WARN") {
        Ok(to) if to.as_str() == "0" => {}
        _ => {
            let _ = rt.stderr().write_all(line.as_bytes());
        }
    }
}

// A named pipe that is opened for both doesn't wait for a reader.
fn open_told(rt: &HostRuntime, name: &str) -> io::Result<File> {
    let is_pipe = match fs::metadata(rt, name) {
        Ok(found) => found.file_type().is_fifo(),
        Err(_) => false,
    };
    if is_pipe {
        return OpenOptions::new().read(true).write(true).open(rt, name);
    }
    OpenOptions::new().append(true).create(true).open(rt, name)
}

/// The files of the system. When the output is made the line says so.
#[derive(Drop)]
pub struct DropInFiles<'r> {
    pub system: SystemFiles<'r>,
    pub pipe: File,
    pub pipes: &'r Pipes,
    pub command: &'static str,
}

impl Files for DropInFiles<'_> {
    type Input = Opened;

    type Output = Output;

    ghost opens = { λ before name input after. ⊤ };

    ghost creates = { λ before name output after. ⊤ };

    ghost refuses = { λ before name after. ⊤ };

    // Before a stream is opened the line begins: from then on the shell doesn't take the call any more. The text of a gzip
    // file is no stream of the call.
    fn open(&mut self, name: &str) -> Result<Opened, Unopened> {
        if is_stream(self.system.rt, name) && !self.pipes.has_text(name) {
            let _ = say(self.system.rt, &mut self.pipe, &Line::Begins);
        }
        self.system.open(name)
    }

    fn standard_output(&mut self) -> Output {
        let rt = self.system.rt;
        let _ = say(rt, &mut self.pipe, &Line::Dunekettle);
        let name = self.command;
        if let Ok(text) = format!(in rt.alloc();
            "Dunekettle takes {name}: its words and its files are as it takes them"
        ) {
            tell(rt, text.as_str());
        }
        self.system.standard_output()
    }

    fn create(&mut self, plan: &Plan, name: &str) -> Result<Output, Unopened> {
        self.system.create(plan, name)
    }
}
