//! A table of calls over scripted files: who takes them, and what is written.

ghost use Rattle.std.specs.Prelude.{⊤};

use crate::answering::{Answered, answer};
use crate::looks::Left;
use crate::opening::{Way, Ways};
use crate::why::Why;
use crate::words::Request;
use bt_files::{Files, Unopened};
use bt_front::{OddLine, Oddity, Reason, Trouble};
use bt_lines::{Fault, Input, Kind, Place, ScriptSink, ScriptSource};
use bt_tool::Plan;
use std::alloc::{AllocError, Global};
use std::process::Abort;
use std::test::Fail;

// The files `a`, `b` and `g`, the pipe `x`, and no others. Each read gives seven bytes at most.
#[derive(Drop)]
struct ScriptFiles<'t> {
    alloc: Global,
    first: &'t [u8],
    second: &'t [u8],
    genome: &'t [u8],
    text: &'t [u8],
}

impl<'t> Files for ScriptFiles<'t> {
    type Input = ScriptSource<'t>;

    type Output = ScriptSink;

    ghost opens = { λ before name input after. ⊤ };

    ghost creates = { λ before name output after. ⊤ };

    ghost refuses = { λ before name after. ⊤ };

    fn open(&mut self, name: &str) -> Result<ScriptSource<'t>, Unopened> {
        match name {
            "a" => Ok(ScriptSource::new(self.first, 7, None)),
            "b" => Ok(ScriptSource::new(self.second, 7, None)),
            "g" => Ok(ScriptSource::new(self.genome, 7, None)),
            "x" => Ok(ScriptSource::new(self.text, 7, None)),
            _ => Err(Unopened::Refused),
        }
    }

    fn standard_output(&mut self) -> ScriptSink {
        ScriptSink::new(self.alloc, 7, None)
    }

    fn create(&mut self, _plan: &Plan, _name: &str) -> Result<ScriptSink, Unopened> {
        Err(Unopened::Refused)
    }
}

// How `a` and `b` come.
type BothWays = (Way<'static>, Way<'static>);

// A call, how its inputs come, and the texts of `a`, `b` and `g`. Then what is written if it is taken; or why it is
// left, and what was kept of its stream.
type Row = (
    &'static str,
    BothWays,
    &'static [u8],
    &'static [u8],
    &'static [u8],
    Option<&'static [u8]>,
    Option<Why>,
    Option<&'static [u8]>,
);

const FILES: BothWays = (Way::File, Way::File);

const FIRST_STREAM: BothWays = (Way::Stream, Way::File);

const SECOND_STREAM: BothWays = (Way::File, Way::Stream);

const STREAMS: BothWays = (Way::Stream, Way::Stream);

// The text of the input that is a gzip file comes from `x`.
const FIRST_GZIP: BothWays = (Way::Unzipped("x"), Way::File);

const SECOND_GZIP: BothWays = (Way::File, Way::Unzipped("x"));

const GZIP_AND_STREAM: BothWays = (Way::Unzipped("x"), Way::Stream);

const ONE: &[u8] = b"chr1\t1\t5\nchr1\t3\t9\n";

const OTHER: &[u8] = b"chr2\t0\t4\nchr1\t2\t4\n";

const BACK: &[u8] = b"chr1\t3\t9\nchr1\t1\t5\n";

// Of one record hits in a large bin and in a small one, which bedtools lists first.
const PEAKS: &[u8] = b"chr2\t5\t9\nchr1\t100\t200\n";

const GENES: &[u8] = b"chr2\t1\t6\nchr1\t0\t20000\nchr1\t10\t150\n";

// More than there is room for.
const LONG: &[u8] =
    b"chr1\t0\t20000\tabcdefghijklmnopqrstuvwxyzabcdefghijklmnopqrstuvwxyzabcdefghijklmnopqrstuvwxyz\n\
    chr1\t10\t150\tabcdefghijklmnopqrstuvwxyz\n";

const OUT_OF_ORDER: Why = Why::Text(
    Input::Second,
    Trouble::Refused(Fault {
        kind: Kind::OutOfOrder,
        place: Some(Place {
            input: Input::First,
            line: 2,
        }),
    }),
);

const BLANK: Why = Why::Text(
    Input::First,
    Trouble::Odd(OddLine {
        line: 2,
        oddity: Oddity::Blank,
    }),
);

#[rattlefmt::skip]
const ROWS: [Row; 22] = [
    ("merge -i a", FILES, ONE, b"", b"", Some(b"chr1\t1\t9\n"), None, None),
    ("merge -i a", FIRST_STREAM, ONE, b"", b"", Some(b"chr1\t1\t9\n"), None, None),
    ("merge -i a", FILES, OTHER, b"", b"", Some(b"chr2\t0\t4\nchr1\t2\t4\n"), None, None),
    ("intersect -u -a a -b b", FILES, OTHER, b"chr1\t3\t4\n", b"", Some(b"chr1\t2\t4\n"), None, None),
    ("intersect -v -a a -b b", SECOND_STREAM, OTHER, b"chr1\t3\t4\n", b"", Some(b"chr2\t0\t4\n"), None, None),
    ("intersect -v -a a -b b", FIRST_STREAM, OTHER, b"chr1\t3\t4\n", b"", Some(b"chr2\t0\t4\n"), None, None),
    ("complement -i a -g g", FILES, ONE, b"", b"chr1\t20\n", Some(b"chr1\t0\t1\nchr1\t9\t20\n"), None, None),
    ("complement -i a -g g", FILES, ONE, b"", b"#chr\t5\nchr1\t20\n", None, Some(Why::TabInComment), None),
    ("complement -i a -g g", FILES, ONE, b"", b"chr1\t20\nch\0r2\t5\n#chr\t5\n", None, Some(Why::NulInGenome), None),
    ("complement -i a -g g", FILES, ONE, b"", b"chr2\t20\n", None, Some(Why::Verdict(Reason::NotByGenome)), None),
    ("intersect -sorted -u -a a -b b", FIRST_STREAM, OTHER, OTHER, b"", None, Some(Why::Verdict(Reason::NotByBytes)), Some(OTHER)),
    ("merge -i a", FIRST_STREAM, b"chr1\t1\t5\n\nchr1\t3\t9\n", b"", b"", None, Some(BLANK), Some(b"chr1\t1\t5\n\nchr1")),
    ("merge -i c", FILES, ONE, b"", b"", None, Some(Why::Unopened(Input::First)), None),
    ("intersect -v -a a -b b", STREAMS, ONE, ONE, b"", None, Some(Why::TwoStreams), None),
    ("intersect -wb -a a -b b", FILES, PEAKS, GENES, b"", Some(b"chr2\t5\t6\tchr2\t1\t6\nchr1\t100\t150\tchr1\t10\t150\nchr1\t100\t200\tchr1\t0\t20000\n"), None, None),
    ("intersect -wo -a a -b b", FILES, PEAKS, GENES, b"", Some(b"chr2\t5\t9\tchr2\t1\t6\t1\nchr1\t100\t200\tchr1\t10\t150\t50\nchr1\t100\t200\tchr1\t0\t20000\t100\n"), None, None),
    ("intersect -a a -b b", FILES, PEAKS, GENES, b"", Some(b"chr2\t5\t6\nchr1\t100\t150\nchr1\t100\t200\n"), None, None),
    ("intersect -wa -wb -a a -b b", FIRST_STREAM, PEAKS, GENES, b"", Some(b"chr2\t5\t9\tchr2\t1\t6\nchr1\t100\t200\tchr1\t10\t150\nchr1\t100\t200\tchr1\t0\t20000\n"), None, None),
    ("intersect -wa -wb -a a -b b", SECOND_STREAM, PEAKS, GENES, b"", Some(b"chr2\t5\t9\tchr2\t1\t6\nchr1\t100\t200\tchr1\t10\t150\nchr1\t100\t200\tchr1\t0\t20000\n"), None, None),
    ("intersect -wb -a a -b b", FILES, PEAKS, LONG, b"", None, Some(Why::HitsRoom), None),
    ("intersect -wb -a a -b b", FIRST_STREAM, PEAKS, LONG, b"", None, Some(Why::HitsRoom), Some(PEAKS)),
    ("intersect -wb -a a -b b", FILES, ONE, BACK, b"", None, Some(OUT_OF_ORDER), None),
];

// The records of `ONE` as gzip writes them, as bgzip does, and in two parts; and those of other texts.
const ONE_GZIP: &[u8] =
    b"\x1f\x8b\x08\x00\x00\x00\x00\x00\x02\x03K\xce(2\xe44\xe44\xe5J\x061\x8c9-\xb9\x000\xd1\t\
    \xa9\x12\x00\x00\x00";

const ONE_BGZIP: &[u8] =
    b"\x1f\x8b\x08\x04\x00\x00\x00\x00\x00\xff\x06\x00BC\x02\x00*\x00K\xce(2\xe44\xe44\xe5J\
    \x061\x8c9-\xb9\x000\xd1\t\xa9\x12\x00\x00\x00\x1f\x8b\x08\x04\x00\x00\x00\x00\x00\xff\
    \x06\x00BC\x02\x00\x1b\x00\x03\x00\x00\x00\x00\x00\x00\x00\x00\x00";

const ONE_IN_PARTS: &[u8] =
    b"\x1f\x8b\x08\x00\x00\x00\x00\x00\x02\x03K\xce(2\xe44\xe44\xe5\x02\x00Y\xea\x8a<\t\x00\
    \x00\x00\x1f\x8b\x08\x00\x00\x00\x00\x00\x02\x03K\xce(2\xe44\xe6\xb4\xe4\x02\x00\xdem6:\
    \t\x00\x00\x00";

const BLANK_GZIP: &[u8] =
    b"\x1f\x8b\x08\x00\x00\x00\x00\x00\x02\x03K\xce(2\xe44\xe44\xe5\xe2J\x06\xb1\x8c9-\xb9\x00\
    \x0cq\xb6o\x13\x00\x00\x00";

const NOTHING_GZIP: &[u8] =
    b"\x1f\x8b\x08\x00\x00\x00\x00\x00\x02\x03\x03\x00\x00\x00\x00\x00\x00\x00\x00\x00";

const GENES_GZIP: &[u8] =
    b"\x1f\x8b\x08\x00\x00\x00\x00\x00\x02\x03K\xce(2\xe24\xe44\xe3J\xce(2\xe44\xe042\x00\x02\
    \x08\xc7\xd0\x80\xd3\xd0\xd4\x80\x0b\x00\x05=\x038\"\x00\x00\x00";

// A call, how its inputs come, what `a`, `b` and `x` give, and what is written if it is taken, or why it is left.
type GzipRow = (
    &'static str,
    BothWays,
    &'static [u8],
    &'static [u8],
    &'static [u8],
    Option<&'static [u8]>,
    Option<Why>,
);

const UNZIP: Option<Why> = Some(Why::Unzip(Input::First));

const PARTS: Option<Why> = Some(Why::Parts(Input::First));

#[rattlefmt::skip]
const GZIP_ROWS: [GzipRow; 14] = [
    ("merge -i a", FIRST_GZIP, ONE_GZIP, b"", b"chr1\t1\t5\nchr1\t3\t9\n\0", Some(b"chr1\t1\t9\n"), None),
    ("merge -i a", FIRST_GZIP, ONE_BGZIP, b"", b"chr1\t1\t5\nchr1\t3\t9\n\0", Some(b"chr1\t1\t9\n"), None),
    ("merge -i a", FIRST_GZIP, NOTHING_GZIP, b"", b"\0", Some(b""), None),
    ("merge -i a", FIRST_GZIP, ONE_GZIP, b"", b"chr1\t1\t5\nchr1\t3\t9\n", None, UNZIP),
    ("merge -i a", FIRST_GZIP, ONE_BGZIP, b"", b"chr1\t1\t5\n", None, UNZIP),
    ("merge -i a", FIRST_GZIP, ONE_GZIP, b"", b"", None, UNZIP),
    ("merge -i a", FIRST_GZIP, ONE_IN_PARTS, b"", b"chr1\t1\t5\nchr1\t3\t9\n\0", None, PARTS),
    ("merge -i a", FIRST_GZIP, b"\x1f\x8b\x08", b"", b"\0", None, PARTS),
    ("merge -i a", FIRST_GZIP, BLANK_GZIP, b"", b"chr1\t1\t5\n\nchr1\t3\t9\n\0", None, Some(BLANK)),
    ("merge -i c", FIRST_GZIP, ONE_GZIP, b"", b"\0", None, Some(Why::Unopened(Input::First))),
    ("intersect -v -a a -b b", GZIP_AND_STREAM, ONE_GZIP, b"chr1\t8\t10\n", b"chr1\t1\t5\nchr1\t3\t9\n\0", Some(b"chr1\t1\t5\n"), None),
    ("intersect -wb -a a -b b", SECOND_GZIP, PEAKS, GENES_GZIP, b"chr2\t1\t6\nchr1\t0\t20000\nchr1\t10\t150\n\0", Some(b"chr2\t5\t6\tchr2\t1\t6\nchr1\t100\t150\tchr1\t10\t150\nchr1\t100\t200\tchr1\t0\t20000\n"), None),
    ("intersect -wb -a a -b b", SECOND_GZIP, PEAKS, ONE_BGZIP, b"chr1\t0\t20000\tabcdefghijklmnopqrstuvwxyzabcdefghijklmnopqrstuvwxyzabcdefghijklmnopqrstuvwxyz\n\0", None, Some(Why::HitsRoom)),
    ("merge -i a", FIRST_GZIP, ONE_BGZIP, b"", b"chr1\t0\t20000\tabcdefghijklmnopqrstuvwxyzabcdefghijklmnopqrstuvwxyzabcdefghijklmnopqrstuvwxyz\n\
        chr1\t10\t150\tabcdefghijklmnopqrstuvwxyz\n\0", None, UNZIP),
];

// The words of a line, which spaces divide.
fn strings(alloc: Global, line: &str) -> Result<Vec<String>, AllocError> {
    let mut words = Vec::new(alloc);
    for word in line.split(' ') {
        words.push(String::from_str(alloc, word)?)?;
    }
    Ok(words)
}

fn is_text(text: &[u8], want: Option<&'static [u8]>) -> bool {
    match want {
        Some(wanted) => text == wanted,
        None => false,
    }
}

// What a row wants.
#[derive(Drop)]
struct Wanted {
    written: Option<&'static [u8]>,
    why: Option<Why>,
    kept: Option<&'static [u8]>,
}

// Whether a call becomes what is wanted.
fn becomes(
    alloc: Global,
    words: &'static str,
    both: BothWays,
    files: ScriptFiles<'static>,
    wanted: &Wanted,
) -> Result<bool, Fail> {
    let all = strings(alloc, words)?;
    let request = Request::of(alloc, all.as_slice()).ok().ok_or(words)?;
    let ways = Ways {
        genome: false,
        first: both.0,
        second: both.1,
    };
    let (answered, _files) = answer(alloc, files, request, ways, 100);
    match answered {
        Answered::Took(finished) => match &finished.left {
            Some(left) => Ok(is_text(left.output.taken(), wanted.written)),
            None => Ok(false),
        },
        Answered::Listed(listed) => Ok(is_text(listed.output.taken(), wanted.written)),
        Answered::Left(left) => {
            let Left { why, stream } = left;
            let is_why = Some(why) == wanted.why;
            match stream {
                Some(stream) => Ok(is_why && is_text(stream.kept.as_slice(), wanted.kept)),
                None => Ok(is_why && wanted.kept.is_none()),
            }
        }
    }
}

#[test]
fn calls_are_answered(rt: HostRuntime) -> Result<(), Fail> {
    for row in &ROWS {
        let files = ScriptFiles {
            alloc: rt.alloc(),
            first: row.2,
            second: row.3,
            genome: row.4,
            text: b"",
        };
        let wanted = Wanted {
            written: row.5,
            why: row.6,
            kept: row.7,
        };
        assert!(rt;
            becomes(rt.alloc(), row.0, row.1, files, &wanted)?,
            "{}",
            row.0
        );
    }
    Ok(())
}

#[test]
fn gzip_files_are_read(rt: HostRuntime) -> Result<(), Fail> {
    for row in &GZIP_ROWS {
        let files = ScriptFiles {
            alloc: rt.alloc(),
            first: row.2,
            second: row.3,
            genome: b"",
            text: row.4,
        };
        let wanted = Wanted {
            written: row.5,
            why: row.6,
            kept: None,
        };
        assert!(rt;
            becomes(rt.alloc(), row.0, row.1, files, &wanted)?,
            "{}",
            row.0
        );
    }
    Ok(())
}
