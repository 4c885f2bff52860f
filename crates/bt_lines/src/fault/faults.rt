//! The faults that lie at no line.

ghost use Rattle.std.specs.Prelude.{◌≡◌};
ghost use Rattle.bt_lines.specs.calls.Faults.{no_memory, write_failed};
ghost use Rattle.bt_lines.specs.calls.Names.{fault_value};

use crate::fault::{Fault, Kind};

/// The fault of a refused growth.
pub fn no_memory() -> Fault
    ensures { fault_value result ≡ no_memory }
{
    Fault {
        kind: Kind::NoMemory,
        place: None,
    }
}

/// The fault of a failed write.
pub fn write_failed() -> Fault
    ensures { fault_value result ≡ write_failed }
{
    Fault {
        kind: Kind::WriteFailed,
        place: None,
    }
}
