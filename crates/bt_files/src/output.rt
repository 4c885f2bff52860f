//! Where the program writes to: standard output or a file.

ghost use Rattle.std.specs.Prelude.{◌≡◌, ◌<◌, ◌≤◌, ◌++◌, [], IfOk, IsErr, IsTrue, OnErr, OnOk, false, is_err, length, take, true};
ghost use Rattle.bt_files.specs.calls.Opened.{output_has_failed, output_is_file, output_is_flushed, output_sink, output_took};

use bt_lines::{DeviceFailed, Sink, ToWrite};
use std::fs::File;
use std::io;
use std::io::Stdout;

/// An output. `run` writes to it in blocks of 8,192 bytes, and nothing is held back after them.
#[derive(Drop)]
pub struct Output {
    // Not called again once it has failed.
    pub(crate) device: Device,
}

#[derive(Drop)]
pub(crate) enum Device {
    Standard(ToWrite<Stdout>),
    File(ToWrite<File>),
}

impl Output {
    /// Standard output.
    pub fn standard(rt: &HostRuntime) -> Output
        ensures standard { output_is_file result ≡ false }
        ensures none { output_took result ≡ [] }
    {
        Output {
            device: Device::Standard(ToWrite::new(rt.stdout())),
        }
    }

    /// Creates the file of this name, or empties it if it exists. `Err` if it can't be created, or memory runs out.
    pub fn create(rt: &HostRuntime, name: &str) -> io::Result<Output>
        ensures file { IfOk result (λ output. output_is_file output ≡ true) }
        ensures none { IfOk result (λ output. output_took output ≡ []) }
    {
        let file = File::create(rt, name)?;
        Ok(Output {
            device: Device::File(ToWrite::new(file)),
        })
    }
}

impl Sink for Output {
    ghost took = { output_sink.took };

    ghost has_failed = { output_sink.has_failed };

    ghost last_failed = { output_sink.last_failed };

    ghost is_flushed = { output_sink.is_flushed };

    fn write(&mut self, bytes: &[u8]) -> Result<usize, DeviceFailed>
        ensures within { IfOk result (λ n. n ≤ length bytes.now) }
        ensures progress { IfOk result (λ n. 0 < length bytes.now → 0 < n) }
        ensures takes { IfOk result (λ n. output_took self.new ≡ output_took self.old ++ take n bytes.now) }
        ensures takes_none { OnErr result (output_took self.new ≡ output_took self.old) }
        ensures served { OnOk result (output_has_failed self.new ≡ output_has_failed self.old) }
        ensures failed { OnErr result (output_has_failed self.new ≡ true) }
        ensures last { output_has_failed self.new ≡ is_err result }
        ensures for_good { IsTrue (output_has_failed self.old) → IsErr result × (self.new ≡ self.old) }
    {
        if self.failed() {
            return Err(DeviceFailed);
        }
        match &mut self.device {
            Device::Standard(sink) => sink.write(bytes),
            Device::File(sink) => sink.write(bytes),
        }
    }

    fn flush(&mut self) -> Result<(), DeviceFailed>
        ensures takes_none { output_took self.new ≡ output_took self.old }
        ensures flushed { OnOk result (output_is_flushed self.new ≡ true) }
        ensures served { OnOk result (output_has_failed self.new ≡ output_has_failed self.old) }
        ensures failed { OnErr result (output_has_failed self.new ≡ true) }
        ensures last { output_has_failed self.new ≡ is_err result }
        ensures for_good { IsTrue (output_has_failed self.old) → IsErr result × (self.new ≡ self.old) }
    {
        if self.failed() {
            return Err(DeviceFailed);
        }
        match &mut self.device {
            Device::Standard(sink) => sink.flush(),
            Device::File(sink) => sink.flush(),
        }
    }

    fn failed(&self) -> bool {
        match &self.device {
            Device::Standard(sink) => sink.failed(),
            Device::File(sink) => sink.failed(),
        }
    }
}
