//! Gzip files, whose text comes on a pipe of its own: what unzips them puts a NUL after the text once all of it is written.

ghost use Rattle.std.specs.Prelude.{ℕ, List, [], ◌∷◌, ◌++◌, ◌≡◌, IfErr, IfNone, IfOk, IfSome};
ghost use Rattle.bt_front.specs.calls.Survey.{IsTroubleOf};
ghost use Rattle.bt_front.specs.model.Survey.{IsSurveyOf};
ghost use Rattle.drop_in.specs.calls.Gzip.{has_extra_fields, is_bam, is_one_part, tells_length};
ghost use Rattle.drop_in.specs.calls.Looks.{IsUnzipped, IsWhyUnzipped, LeavesGzip, ReadsText, SeesGzip};
ghost use Rattle.drop_in.specs.calls.Whys.{unread_why, unzipped_why};

use crate::genome_file::{Unfinished, read_text};
use crate::looks::{Reading, Seen, text_why};
use crate::opening::OpenedGzip;
use crate::why::Why;
use bt_front::{Survey, Trouble};
use bt_lines::{FromRead, Input, Source};
use std::alloc::Global;

/// Looks at the text of a gzip file, of which as many bytes are kept as there is room for.
pub fn look_at_gzip<I: Source + Drop>(
    alloc: Global,
    gzip: OpenedGzip<I>,
    input: Input,
    room: usize,
) -> Result<Seen<I>, Why>
    ensures sees { IfOk result (SeesGzip I.Source gzip) }
    ensures leaves { IfErr result (LeavesGzip I.Source gzip input room) }
{
    let text = match unzip(alloc, gzip, input, room) {
        Ok(text) => text,
        Err(why) => return Err(why),
    };
    match survey_text(alloc, text.as_slice()) {
        Ok(survey) => Ok(Seen {
            survey,
            reading: Reading::Text(text),
        }),
        Err(trouble) => Err(unzipped_why(input, trouble, text.as_slice())),
    }
}

// Why the text of a gzip file leaves the call: BAM files are gzip files too.
fn unzipped_why(input: Input, trouble: Trouble, text: &[u8]) -> Why
    ensures { result ≡ unzipped_why input trouble text.now }
{
    if is_bam(text) {
        return Why::Bam(input);
    }
    text_why(input, trouble, false)
}

// Whether a text begins as BAM.
fn is_bam(text: &[u8]) -> bool
    ensures { result ≡ is_bam text.now }
{
    text.starts_with(b"BAM\x01")
}

// The text of a gzip file, if it is whole, and if the file is one part.
fn unzip<I: Source + Drop>(
    alloc: Global,
    gzip: OpenedGzip<I>,
    input: Input,
    room: usize,
) -> Result<Vec<u8>, Why>
    ensures gives { IfOk result (λ text. IsUnzipped I.Source gzip text.items) }
    ensures leaves { IfErr result (IsWhyUnzipped I.Source gzip input room) }
{
    let OpenedGzip { zipped, text } = gzip;
    let bytes = match read_text(alloc, text, room) {
        Ok(bytes) => bytes,
        Err(cause) => return Err(unread_why(input, cause)),
    };
    let text = match without_end(bytes) {
        Some(text) => text,
        None => return Err(Why::Unzip(input)),
    };
    let zipped = match read_text(alloc, zipped, room) {
        Ok(zipped) => zipped,
        Err(cause) => return Err(unread_why(input, cause)),
    };
    if is_one_part(zipped.as_slice(), text.len()) {
        Ok(text)
    } else {
        Err(Why::Parts(input))
    }
}

// The text without the NUL that comes after it; none if it has no NUL there.
fn without_end(bytes: Vec<u8>) -> Option<Vec<u8>>
    ensures whole { IfSome result (λ text. bytes.items ≡ text.items ++ 0 ∷ []) }
    ensures cut { IfNone result ((text : List ℕ) → ¬ (bytes.items ≡ text ++ 0 ∷ [])) }
{
    let mut bytes = bytes;
    match bytes.pop() {
        Some(0) => Some(bytes),
        _ => None,
    }
}

// Why a text that isn't read to its end leaves the call.
fn unread_why(input: Input, cause: Unfinished) -> Why
    ensures { result ≡ unread_why input cause }
{
    match cause {
        Unfinished::Failed | Unfinished::Long => Why::Unzip(input),
        Unfinished::NoMemory => Why::NoMemory,
    }
}

// Whether a gzip file is one part, as far as that can be known: of several, bedtools may read the first alone. Blocks as bgzip
// writes them are one, since bedtools reads them all.
fn is_one_part(zipped: &[u8], count: usize) -> bool
    ensures { result ≡ is_one_part zipped.now count }
{
    has_extra_fields(zipped) || tells_length(zipped, count)
}

// Whether its header has extra fields, and nothing else that may be left out.
fn has_extra_fields(zipped: &[u8]) -> bool
    ensures { result ≡ has_extra_fields zipped.now }
{
    zipped.starts_with(&[0x1f, 0x8b, 8, 4])
}

// Whether its end says that its text has this many bytes.
fn tells_length(zipped: &[u8], count: usize) -> bool
    ensures { result ≡ tells_length zipped.now count }
{
    match zipped.last_chunk::<4>() {
        Some(last) => u64::from(u32::from_le_bytes(*last)) == count as u64 % 4_294_967_296,
        None => false,
    }
}

// Surveys a text.
fn survey_text(alloc: Global, text: &[u8]) -> Result<Survey, Trouble>
    ensures surveys { IfOk result (IsSurveyOf text.now) }
    ensures leaves { IfErr result (IsTroubleOf text.now) }
{
    let source = FromRead::new(text);
    let (surveyed, _source) = Survey::read(alloc, source);
    surveyed
}
