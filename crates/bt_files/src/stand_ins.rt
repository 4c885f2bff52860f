//! What replaces a standard stream that was closed before the program began.

ghost use Rattle.std.specs.Prelude.{◌≡◌, IfOk, IfSome, Some};
ghost use Rattle.std.specs.Fd.{file_raw_fd};
ghost use Rattle.bt_files.specs.calls.StandIns.{StandInPlace};

use std::fs::File;
use std::io;
use std::os::fd::{AsFd, AsRawFd};

/// The files that replace the closed streams. Each is the root directory, which can neither be
/// read nor written. Without it the next file to be opened would be that stream.
#[derive(Drop)]
pub struct StandIns {
    // `None` if the stream is open, here and below.
    input: Option<File>,
    output: Option<File>,
    error: Option<File>,
}

impl StandIns {
    /// Takes the place of each closed stream, until the result is dropped. It has to come before any
    /// file is opened. `Err` if a stream is closed and its place can't be taken.
    pub fn take(rt: &HostRuntime) -> io::Result<StandIns>
        ensures { IfOk result StandInPlace }
    {
        Ok(StandIns {
            input: stand_in(rt, &rt.stdin())?,
            output: stand_in(rt, &rt.stdout())?,
            error: stand_in(rt, &rt.stderr())?,
        })
    }
}

// What replaces a stream, `None` if it is open. The system gives a file the least descriptor
// that is free, so the streams before this one have to be taken.
fn stand_in<S: AsFd + AsRawFd>(rt: &HostRuntime, stream: &S) -> io::Result<Option<File>>
    ensures { IfOk result (λ held. IfSome held (λ file. IfSome (S.raw_fd stream.now) (λ number.
        file_raw_fd file ≡ number))) }
{
    if !is_closed(stream) {
        return Ok(None);
    }
    let file = File::open(rt, "/")?;
    if file.as_raw_fd() == stream.as_raw_fd() {
        Ok(Some(file))
    } else {
        Err(io::Error::from(io::ErrorKind::Other))
    }
}

// Whether a stream has no descriptor: then there is nothing that can be copied.
fn is_closed<S: AsFd>(stream: &S) -> bool {
    match stream.as_fd().try_clone_to_owned() {
        Ok(_) => false,
        Err(error) => error.raw_os_error() == Some(BAD_DESCRIPTOR),
    }
}

// EBADF of POSIX, as Linux numbers it. If no descriptor is left for the copy the error is another.
const BAD_DESCRIPTOR: i32 = 9;

#[cfg(test)]
mod tests {
    use super::*;
    use std::test::Fail;

    // A file that replaces a stream fails when it is read and when it is written.
    #[test]
    fn stand_ins_fail(rt: HostRuntime) -> Result<(), Fail> {
        assert!(rt; StandIns::take(&rt).is_ok());
        let mut file = File::open(&rt, "/")?;
        let mut block = [0u8; 4];
        assert!(rt; io::Read::read(&mut file, &mut block).is_err());
        assert!(rt; io::Write::write(&mut file, b"line").is_err());
        Ok(())
    }
}
