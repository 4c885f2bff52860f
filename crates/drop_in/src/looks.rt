//! What is in the inputs of a call, and what its run reads of them.

ghost use Rattle.std.specs.Prelude.{◌≡◌, IfErr, IfOk};
ghost use Rattle.drop_in.specs.calls.Looks.{LeavesFile, LeavesStream, SeesFile, SeesStream, SurveysStream};
ghost use Rattle.drop_in.specs.calls.Whys.{file_why, stream_why, text_why};

use crate::opening::{OpenedFile, open};
use crate::why::Why;
use bt_files::Files;
use bt_front::{Keeping, OddLine, Oddity, Survey, Trouble};
use bt_lines::{Fault, Input, Kind, Source};
use std::alloc::Global;

/// A stream of which some was read.
#[derive(Drop)]
pub struct ReadStream<I> {
    pub source: I,
    /// All that came of it, in order.
    pub kept: Vec<u8>,
}

/// Why a call isn't run here, and what was read of its stream.
#[derive(Drop)]
pub struct Left<I> {
    pub why: Why,
    pub stream: Option<ReadStream<I>>,
}

/// What the run of a call reads of an input.
#[derive(Drop)]
pub enum Reading<I> {
    /// A file that was opened again.
    File(I),
    /// A stream that was read to its end.
    Stream(ReadStream<I>),
    /// The text of a gzip file, which was read to its end.
    Text(Vec<u8>),
}

/// An input that was looked at.
#[derive(Drop)]
pub struct Seen<I> {
    pub survey: Survey,
    pub reading: Reading<I>,
}

/// Looks at a file.
pub fn look_at_file<I: Source + Drop>(
    alloc: Global,
    file: OpenedFile<I>,
    input: Input,
) -> Result<Seen<I>, Why>
    ensures sees { IfOk result (SeesFile I.Source file) }
    ensures leaves { IfErr result (LeavesFile I.Source file input) }
{
    let OpenedFile {
        for_survey,
        for_run,
    } = file;
    let (surveyed, source) = Survey::read(alloc, for_survey);
    match surveyed {
        Ok(survey) => Ok(Seen {
            survey,
            reading: Reading::File(for_run),
        }),
        Err(trouble) => Err(file_why(input, trouble, source.failed())),
    }
}

// Why a file is left, of which a read has failed or not.
fn file_why(input: Input, trouble: Trouble, has_failed: bool) -> Why
    ensures { result ≡ file_why input trouble has_failed }
{
    match trouble {
        Trouble::Odd(
            OddLine {
                oddity: Oddity::Gzip,
                ..
            },
        ) => Why::Zipped(input),
        _ => text_why(input, trouble, has_failed),
    }
}

/// Why a text is left. If reading failed, and its source didn't, there was no memory.
pub fn text_why(input: Input, trouble: Trouble, has_failed: bool) -> Why
    ensures { result ≡ text_why input trouble has_failed }
{
    match trouble {
        Trouble::Refused(
            Fault {
                kind: Kind::ReadFailed,
                ..
            },
        ) if !has_failed => Why::NoMemory,
        _ => Why::Text(input, trouble),
    }
}

/// Looks at a stream, of which as many bytes are kept as there is room for.
pub fn look_at_stream<F: Files>(
    alloc: Global,
    files: &mut F,
    name: &str,
    input: Input,
    room: usize,
) -> Result<Seen<F::Input>, Left<F::Input>>
    ensures sees { IfOk result (λ seen. SeesStream F.Files F.Input.Source files.old name.now seen files.new) }
    ensures leaves { IfErr result (λ left. LeavesStream F.Files F.Input.Source files.old name.now input room left files.new) }
{
    let source = match open(files, name, input) {
        Ok(source) => source,
        Err(why) => return Err(Left { why, stream: None }),
    };
    let (surveyed, stream) = survey_stream(alloc, source, room);
    match surveyed {
        Ok(survey) => Ok(Seen {
            survey,
            reading: Reading::Stream(stream),
        }),
        Err(trouble) => Err(Left {
            why: stream_why(
                input,
                trouble,
                room < stream.kept.len(),
                stream.source.failed(),
            ),
            stream: Some(stream),
        }),
    }
}

// Why a stream is left. A long one isn't read on.
fn stream_why(input: Input, trouble: Trouble, is_long: bool, has_failed: bool) -> Why
    ensures { result ≡ stream_why input trouble is_long has_failed }
{
    match trouble {
        Trouble::Refused(
            Fault {
                kind: Kind::ReadFailed,
                ..
            },
        ) if is_long => Why::LongStream,
        _ => text_why(input, trouble, has_failed),
    }
}

// Surveys a stream, which is kept.
fn survey_stream<I: Source>(
    alloc: Global,
    source: I,
    room: usize,
) -> (Result<Survey, Trouble>, ReadStream<I>)
    ensures { SurveysStream I.Source source result.1 result.0 }
{
    let keeping = Keeping::new(alloc, source, room);
    let (surveyed, keeping) = Survey::read(alloc, keeping);
    let (source, kept) = keeping.into_parts();
    (surveyed, ReadStream { source, kept })
}
