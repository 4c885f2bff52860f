//! Which names of inputs are streams, that can be read only once.

ghost use Rattle.std.specs.Prelude.{◌≡◌};
ghost use Rattle.drop_in.specs.calls.Names.{is_of_standard_input};

/// Whether a name leads to standard input: then the words of a call may stay as they are.
#[tactic(auto, unfolding(crate::specs::calls::Names::is_of_standard_input))]
pub fn is_of_standard_input(name: &str) -> bool
    ensures { result ≡ is_of_standard_input name.now }
{
    matches!(name, "-" | "stdin" | "/dev/stdin" | "/dev/fd/0")
}

/// Whether a name is that of a stream, whatever the file is: those by which an open file is opened again.
pub fn is_stream_name(name: &str) -> bool {
    is_of_standard_input(name)
        || name.starts_with("/dev/std")
        || name.starts_with("/dev/fd/")
        || name.starts_with("/proc/")
}
