//! The line that reports a fault to the user.

ghost use Rattle.std.specs.Prelude.{◌≡◌, ◌++◌, IfOk};
ghost use Rattle.bt_lines.specs.model.Fault.{line_of, name_of, place_text};
ghost use Rattle.bt_lines.specs.calls.Names.{names_seen, fault_value};

use crate::fault::{Fault, Input, Place};
use itoa::Buffer;
use std::alloc::{AllocError, Global};

/// The names of a run's inputs, as the user gave them. An input that the run doesn't have may have
/// any name.
#[derive(Clone, Copy, Debug)]
pub struct Names<'a> {
    pub genome: &'a [u8],
    pub first: &'a [u8],
    pub second: &'a [u8],
}

/// The line `bedtools COMMAND: NAME:LINE: TEXT` with its line feed; for a fault without a place
/// `bedtools COMMAND: TEXT`. `Err` if memory runs out.
pub fn fault_line(
    alloc: Global,
    command: &[u8],
    names: &Names,
    fault: &Fault,
) -> Result<Vec<u8>, AllocError>
    ensures { IfOk result (λ line. line.items ≡ line_of command.now (names_seen names.now) (fault_value fault.now)) }
{
    let mut line = Vec::from_slice(alloc, b"bedtools ")?;
    line.extend_from_slice(command)?;
    line.extend_from_slice(b": ")?;
    if let Some(place) = fault.place {
        push_place(&mut line, names, place)?;
    }
    line.extend_from_slice(fault.kind.text())?;
    line.extend_from_slice(b"\n")?;
    Ok(line)
}

// The name of an input.
fn name_of<'a>(names: &Names<'a>, input: Input) -> &'a [u8]
    ensures { result.now ≡ name_of (names_seen names.now) input }
{
    match input {
        Input::Genome => names.genome,
        Input::First => names.first,
        Input::Second => names.second,
    }
}

// Adds `NAME:LINE: `.
fn push_place(line: &mut Vec<u8>, names: &Names, place: Place) -> Result<(), AllocError>
    ensures { IfOk result (λ _. line.new.items
        ≡ line.old.items ++ place_text (names_seen names.now) (Some place)) }
{
    line.extend_from_slice(name_of(names, place.input))?;
    line.extend_from_slice(b":")?;
    let mut digits = Buffer::new();
    line.extend_from_slice(digits.format(place.line).as_bytes())?;
    line.extend_from_slice(b": ")?;
    Ok(())
}
