//! The files that the system has.

ghost use Rattle.bt_files.specs.calls.RealFiles.{system_files};

use crate::files::{Files, Unopened};
use crate::identity::is_input;
use crate::opened::Opened;
use crate::output::Output;
use bt_tool::Plan;
use std::io;

/// Opens files by the system, with the program's own standard streams.
#[derive(Drop)]
pub struct SystemFiles<'r> {
    pub rt: &'r HostRuntime,
}

impl Files for SystemFiles<'_> {
    type Input = Opened;

    type Output = Output;

    ghost opens = { system_files.opens };

    ghost creates = { system_files.creates };

    ghost refuses = { system_files.refuses };

    fn open(&mut self, name: &str) -> Result<Opened, Unopened> {
        match Opened::open(self.rt, name) {
            Ok(input) => Ok(input),
            Err(error) => Err(unopened(&error)),
        }
    }

    fn standard_output(&mut self) -> Output {
        Output::standard(self.rt)
    }

    fn create(&mut self, plan: &Plan, name: &str) -> Result<Output, Unopened> {
        if is_input(self.rt, plan, name) {
            return Err(Unopened::Refused);
        }
        match Output::create(self.rt, name) {
            Ok(output) => Ok(output),
            Err(error) => Err(unopened(&error)),
        }
    }
}

// Why the system opened nothing.
fn unopened(error: &io::Error) -> Unopened {
    if error.kind() == io::ErrorKind::OutOfMemory {
        return Unopened::NoMemory;
    }
    Unopened::Refused
}
