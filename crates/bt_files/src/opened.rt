//! An input that the program has opened: a file or standard input.

ghost use Rattle.std.specs.Prelude.{◌≡◌, IfOk};
ghost use Rattle.bt_files.specs.calls.Opened.{IsUnused, file_named, input_meant, opened_source};

use crate::logged::Logged;
use bt_lines::{DeviceFailed, FromRead, Source};
use bt_tool::is_standard_input;
use std::fs::File;
use std::io;
use std::io::Stdin;

/// An opened input. `run` reads it in blocks.
#[derive(Drop)]
pub struct Opened {
    pub(crate) device: Device,
}

#[derive(Drop)]
pub(crate) enum Device {
    File(Logged<FromRead<File>>),
    Standard(Logged<FromRead<Stdin>>),
}

impl Opened {
    /// Opens the input of this name. `Err` if it can't be opened, or memory runs out.
    pub fn open(rt: &HostRuntime, name: &str) -> io::Result<Opened>
        ensures { IfOk result (IsUnused name.now) }
    {
        let device = match input_named(name) {
            Input::Standard => Device::Standard(Logged::new(FromRead::new(rt.stdin()))),
            Input::File(name) => Device::File(Logged::new(FromRead::new(File::open(rt, name)?))),
        };
        Ok(Opened { device })
    }
}

/// What the name of an input means.
#[derive(Clone, Copy, Debug, PartialEq, Eq)]
pub enum Input<'a> {
    Standard,
    /// The file of this name.
    File(&'a str),
}

/// The input that a name means: standard input for `-` and `stdin`, else a file.
pub fn input_named(name: &str) -> Input<'_>
    ensures { input_meant result ≡ file_named name.now }
{
    if is_standard_input(name) {
        return Input::Standard;
    }
    Input::File(name)
}

impl Source for Opened {
    ghost has_failed = { opened_source.has_failed };

    ghost is_read = { opened_source.is_read };

    fn read(&mut self, block: &mut [u8]) -> Result<usize, DeviceFailed> {
        match &mut self.device {
            Device::File(source) => source.read(block),
            Device::Standard(source) => source.read(block),
        }
    }

    fn failed(&self) -> bool {
        match &self.device {
            Device::File(source) => source.failed(),
            Device::Standard(source) => source.failed(),
        }
    }
}

#[cfg(test)]
mod tests {
    use super::*;
    use std::test::Fail;

    #[test]
    fn names_of_inputs(rt: HostRuntime) -> Result<(), Fail> {
        let cases = [
            ("-", Input::Standard),
            ("stdin", Input::Standard),
            ("a.bed", Input::File("a.bed")),
            ("./-", Input::File("./-")),
            ("stdin.bed", Input::File("stdin.bed")),
            ("--", Input::File("--")),
        ];
        for (name, input) in &cases {
            assert_eq!(rt; input_named(name), *input);
        }
        Ok(())
    }
}
