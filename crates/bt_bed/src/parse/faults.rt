//! Faults of a line.

ghost use Rattle.std.specs.Prelude.{◌≡◌, true};
ghost use Rattle.bt_bed.specs.model.BedLine.{fault_at_line};
ghost use Rattle.bt_bed.specs.calls.Reading.{is_of_line};
ghost use Rattle.bt_lines.specs.calls.Names.{fault_value};

use bt_lines::{Fault, Kind, Place};

/// A fault of this kind, which is one of a line, at this line.
pub fn at_line(kind: Kind, place: Place) -> Fault
    requires { is_of_line kind ≡ true }
    ensures { fault_value result ≡ fault_at_line place.input place.line kind }
{
    Fault {
        kind,
        place: Some(place),
    }
}
