//! Lines in, bytes out, and faults with a name and a place.
//!
//! The lowest layer: it reads lines from any [`Source`], hands bytes to any [`Sink`], and reports
//! what went wrong where. It knows nothing of BED.
//!
//! Words:
//!
//! - *line*: what comes before a line feed, or a last piece that isn't empty; its number counts from 1.
//! - *line end*: what follows a line's text: a line feed with or without a carriage return, or nothing.
//! - *source*, *sink*: a device that hands over bytes, and one that takes them.
//! - *buffered*: completely read, so that it is given without another read.
//! - *consume*: take buffered lines out of a reader, after they were used.
//! - *fault*: what ended a run, with its place: an input and a line of it, if it lies at one.
//!
//! An example, which is the test in `example.rt`: the lines of a source.
//!
//! ```text
//! fn lines_of_a_source(rt: HostRuntime) -> Result<(), Fail> {
//!     // Three bytes a call, with no failure.
//!     let source = ScriptSource::new(b"chr1\t5\t9\nchr2", 3, None);
//!     let mut reader = LineReader::new(rt.alloc(), source, Input::First);
//!     let line = reader.next()?.ok_or("a line")?;
//!     assert_eq!(rt; line.text, b"chr1\t5\t9".as_slice());
//!     let last = reader.next()?.ok_or("a line")?;
//!     assert_eq!(rt; (last.number, last.ending), (2, LineEnd::Absent));
//!     assert!(rt; reader.next()?.is_none());
//!     Ok(())
//! }
//! ```
#![tactic(auto)]

mod device;
mod fault;
mod numbers;
mod reader;
#[cfg(test)]
mod tests;
mod writer;

pub use device::from_read::FromRead;
pub use device::moved_bytes::{MovedBytes, Piece};
pub use device::script_sink::ScriptSink;
pub use device::script_source::ScriptSource;
pub use device::telling::{readers_tell_their_text, scripts_tell_their_text, what_is_left_is_told};
pub use device::to_write::ToWrite;
pub use device::{BLOCK, DeviceFailed, Sink, Source};
pub use fault::faults::{no_memory, write_failed};
pub use fault::report::{Names, fault_line};
pub use fault::{Fault, Input, Kind, Place};
pub use numbers::number_column::{COLUMN, write_column};
pub use numbers::short_number::{long_number, short_number};
pub use numbers::{MAX_NUMBER, eight_digits, few_digits, number};
pub use reader::buffered_lines::{
    BufferedLines, ConsumedLines, LineText, ends_with_return, without_return,
};
pub use reader::column_iter::Columns;
pub use reader::line::{Line, LineEnd};
pub use reader::line_reader::LineReader;
pub use reader::newline::length_before;
pub use reader::split::{columns, first_tab};
pub use writer::copying::copy_piece;
pub use writer::output::Out;
pub use writer::putting::{put_both, put_column, put_line, put_number};

#[cfg(test)]
mod example;
