//! The programs that the system has.

ghost use Rattle.std.specs.Prelude.{⊤};

use crate::programs::{Programs, Standing};
use bt_files::Unopened;
use bt_lines::FromRead;
use std::fs::{File, metadata};
use std::io;
use std::os::unix::fs::MetadataExt;

/// Asks the system, as the user who runs the call.
#[derive(Clone, Copy)]
pub struct SystemPrograms<'r> {
    pub rt: &'r HostRuntime,
}

impl SystemPrograms<'_> {
    // The number of the user: the owner of the process.
    fn user(&self) -> Option<u32> {
        match metadata(self.rt, "/proc/self") {
            Ok(process) => Some(process.uid()),
            Err(_) => None,
        }
    }
}

impl Programs for SystemPrograms<'_> {
    type Program = FromRead<File>;

    ghost stands = { λ system name standing. ⊤ };

    ghost opens = { λ system name program. ⊤ };

    ghost refuses = { λ system name. ⊤ };

    fn standing(&self, name: &str) -> Standing {
        match metadata(self.rt, name) {
            Ok(found) if found.is_file() => match by_all(found.mode()) {
                Standing::Unclear => by_user(found.mode(), found.uid(), self.user()),
                standing => standing,
            },
            Err(error) if error.kind() == io::ErrorKind::OutOfMemory => Standing::Unclear,
            Ok(_) | Err(_) => Standing::Other,
        }
    }

    fn open(&self, name: &str) -> Result<FromRead<File>, Unopened> {
        match File::open(self.rt, name) {
            Ok(file) => Ok(FromRead::new(file)),
            Err(error) if error.kind() == io::ErrorKind::OutOfMemory => Err(Unopened::NoMemory),
            Err(_) => Err(Unopened::Refused),
        }
    }
}

// The bits of a mode by which a file may be run: by its owner, its group, and others (POSIX, file access permissions).
const OWNER: u32 = 0o100;

const GROUP: u32 = 0o010;

const OTHERS: u32 = 0o001;

// Whether a file of this mode may be run, where all users or none may.
fn by_all(mode: u32) -> Standing {
    match mode & (OWNER | GROUP | OTHERS) {
        0 => Standing::Other,
        0o111 => Standing::Program,
        _ => Standing::Unclear,
    }
}

// Whether this user may run it, where some users may: the first one may run all of them. Who is in its group isn't known here.
fn by_user(mode: u32, owner: u32, user: Option<u32>) -> Standing {
    let Some(user) = user else {
        return Standing::Unclear;
    };
    let is_of_group = mode & GROUP != 0;
    let is_of_others = mode & OTHERS != 0;
    let may_run = if user == 0 {
        true
    } else if user == owner {
        mode & OWNER != 0
    } else if is_of_group == is_of_others {
        is_of_others
    } else {
        return Standing::Unclear;
    };
    if may_run {
        Standing::Program
    } else {
        Standing::Other
    }
}
