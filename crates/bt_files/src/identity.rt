//! Whether names lead to one file.

use crate::opened::{Input, input_named};
use bt_tool::Plan;
use std::fs::metadata;
use std::os::unix::fs::MetadataExt;

// The name by which the system knows what standard input reads.
const STANDARD_INPUT: &str = "/dev/stdin";

// Its name on Linux if there is no `/dev`, as in some containers.
const FIRST_DESCRIPTOR: &str = "/proc/self/fd/0";

/// Whether a name leads to a regular file that is an input of the plan, as by a link or another spelling.
/// To create the output there would empty that input.
pub fn is_input(rt: &HostRuntime, plan: &Plan, name: &str) -> bool {
    let Some(file) = FileIdentity::of(rt, name) else {
        return false;
    };
    file.is_read_as(rt, plan.first.as_str())
        || file.is_read_if_named(rt, &plan.second)
        || file.is_read_if_named(rt, &plan.genome)
}

// A regular file: its device, and its number there.
#[derive(Clone, Copy, Debug)]
struct FileIdentity {
    device: u64,
    number: u64,
}

impl FileIdentity {
    // That of the file to which a name leads. There is none for a device, a pipe or a directory, nor if the
    // system doesn't tell.
    fn of(rt: &HostRuntime, name: &str) -> Option<FileIdentity> {
        let found = metadata(rt, name).ok()?;
        if !found.is_file() {
            return None;
        }
        Some(FileIdentity {
            device: found.dev(),
            number: found.ino(),
        })
    }

    // That of standard input.
    fn of_standard_input(rt: &HostRuntime) -> Option<FileIdentity> {
        match FileIdentity::of(rt, STANDARD_INPUT) {
            Some(file) => Some(file),
            None => FileIdentity::of(rt, FIRST_DESCRIPTOR),
        }
    }

    // Whether the input of this name reads the file.
    fn is_read_as(self, rt: &HostRuntime, name: &str) -> bool {
        let input = match input_named(name) {
            Input::Standard => FileIdentity::of_standard_input(rt),
            Input::File(name) => FileIdentity::of(rt, name),
        };
        match input {
            Some(read) => read.device == self.device && read.number == self.number,
            None => false,
        }
    }

    // Whether it is read as an input that the plan may lack.
    fn is_read_if_named(self, rt: &HostRuntime, name: &Option<String>) -> bool {
        match name {
            Some(name) => self.is_read_as(rt, name.as_str()),
            None => false,
        }
    }
}
