//! What ends an engine.

ghost use Rattle.std.specs.Prelude.{◌≡◌, ◌⊎◌};
ghost use Rattle.bt_lines.specs.calls.Faults.{no_memory, write_failed};
ghost use Rattle.bt_lines.specs.calls.Names.{fault_value};
ghost use Rattle.bt_runs.specs.calls.Engine.{fault_of};

use bt_lines::{Fault, Kind};

// A failed write, or out of memory.
#[derive(Clone, Copy, Debug)]
pub(crate) enum Failure {
    Write,
    Memory,
}

impl Failure {
    // The fault that reports it.
    pub(crate) fn fault(self) -> Fault
        ensures { fault_value result ≡ fault_of self }
    {
        let kind = match self {
            Failure::Write => Kind::WriteFailed,
            Failure::Memory => Kind::NoMemory,
        };
        Fault { kind, place: None }
    }

    // What a fault of a write or of memory reports.
    pub(crate) fn of(fault: &Fault) -> Failure
        requires { (fault_value fault.now ≡ write_failed) ⊎ (fault_value fault.now ≡ no_memory) }
        ensures { fault_value fault.now ≡ fault_of result }
    {
        match fault.kind {
            Kind::WriteFailed => Failure::Write,
            _ => Failure::Memory,
        }
    }
}
