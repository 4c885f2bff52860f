use super::*;
use crate::options::table::{Row, Table};
use crate::options::takes::Takes;
use std::alloc::Global;
use std::test::Fail;

/// A tool that has all that a table can say: two inputs, an output, options of which one has to be
/// given, and options that exclude one another.
#[rattlefmt::skip]
const TABLE: Table = Table {
    options: &[
        Row { option: "-a", takes: Takes::FileName },
        Row { option: "-b", takes: Takes::FileName },
        Row { option: "-o", takes: Takes::FileName },
        Row { option: "-g", takes: Takes::FileName },
        Row { option: "-x", takes: Takes::Nothing },
        Row { option: "-y", takes: Takes::Nothing },
        Row { option: "-z", takes: Takes::Nothing },
    ],
    required: &["-a", "-b"],
    one_of: &["-x", "-y"],
    exclusive: &[("-x", "-z")],
    genome: Some("-g"),
    first: "-a",
    second: Some("-b"),
    output: Some("-o"),
};

// The number of a fault.
const NONE: u8 = 0;

const MISSING: u8 = 5;

const EXCLUSIVE: u8 = 6;

const NAMED_TWICE: u8 = 7;

/// The words after the command, and the number of their fault.
const CASES: [(&[&str], u8); 19] = [
    (&["-a", "1", "-b", "2", "-x"], NONE),
    (&["-a", "1", "-b", "2", "-x", "-y"], NONE),
    (&["-a", "1", "-b", "2", "-y", "-z"], NONE),
    (&["-a", "1", "-b", "2"], MISSING),
    (&["-a", "1", "-b", "2", "-z"], MISSING),
    (&["-a", "1", "-x"], MISSING),
    (&["-b", "1", "-x"], MISSING),
    (&["-a", "1", "-b", "2", "-x", "-z"], EXCLUSIVE),
    (&["-a", "1", "-b", "2", "-x", "-o", "1"], EXCLUSIVE),
    (&["-a", "1", "-b", "2", "-x", "-o", "2"], EXCLUSIVE),
    (&["-a", "1", "-b", "2", "-x", "-o", "3"], NONE),
    (&["-a", "-", "-b", "2", "-x", "-o", "-"], NONE),
    (&["-a", "1", "-b", "stdout", "-x", "-o", "stdout"], NONE),
    (&["-a", "1", "-b", "2", "-x", "-o", "stdin"], NONE),
    (&["-a", "-", "-b", "-", "-x"], NAMED_TWICE),
    (&["-a", "-", "-b", "stdin", "-x"], NAMED_TWICE),
    (&["-a", "1", "-b", "stdin", "-x", "-g", "-"], NAMED_TWICE),
    (&["-a", "stdin", "-b", "2", "-x", "-g", "-"], NAMED_TWICE),
    (&["-a", "stdin", "-b", "2", "-x", "-g", "g"], NONE),
];

// The number of the fault of these words.
fn fault_of(alloc: Global, words: &[&str]) -> Result<u8, Fail> {
    let mut all = Vec::new(alloc);
    all.push(String::from_str(alloc, "tool")?)?;
    for word in words {
        all.push(String::from_str(alloc, word)?)?;
    }
    let Ok(given) = Given::read(&TABLE, all.as_slice()) else {
        return Err(words.into());
    };
    match check(given) {
        Ok(()) => Ok(NONE),
        Err(usage) => Ok(usage.number),
    }
}

// The first words with another fault.
fn first_misjudged(
    alloc: Global,
    cases: &[(&'static [&'static str], u8)],
) -> Result<Option<&'static [&'static str]>, Fail> {
    for (words, number) in cases {
        if fault_of(alloc, words)? != *number {
            return Ok(Some(*words));
        }
    }
    Ok(None)
}

#[test]
fn options_together(rt: HostRuntime) -> Result<(), Fail> {
    assert_eq!(rt; first_misjudged(rt.alloc(), &CASES)?, None);
    Ok(())
}
