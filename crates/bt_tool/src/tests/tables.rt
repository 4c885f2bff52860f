//! Tables of runs: a command, a head that names the parts of a row, and a run a row.

use crate::tests::{Answer, Devices, GENOME, Script, expect, failing_by, run_words, whole};
use std::alloc::{AllocError, Global};
use std::process::Abort;
use std::test::Fail;

// The head says what is between the bars of each row:
//   name      what the row shows
//   options   the words after those of the command
//   genome    the genome file; without this part it is GENOME
//   first     the first input
//   second    the second input
//   output    what is written
//   fault     what the fault line says after the command; empty for a run that serves
//   fails     `genome`, `first`, `second` or `out`, and how many bytes it moves before it fails
// `failing_tests` reads two more, `cuts` and `second cuts`.
// A part of the head as `first = TEXT` is the same in all rows, which leave it out.
#[derive(Clone, Copy)]
pub(crate) struct Table {
    pub(crate) command: &'static str,
    // Whether inputs and output are given as they are; otherwise each is a row of `text`.
    pub(crate) is_exact: bool,
    pub(crate) head: &'static str,
    pub(crate) rows: &'static [&'static str],
}

// The text of a row: one space stands for a tab, and ` ; ` separates lines, each of which ends with
// a line feed.
fn text(alloc: Global, row: &str) -> Result<Vec<u8>, Fail> {
    let mut text = Vec::new(alloc);
    if row.is_empty() {
        return Ok(text);
    }
    for line in row.split(" ; ") {
        for byte in line.bytes() {
            text.push(if byte == b' ' { b'\t' } else { byte })?;
        }
        text.push(b'\n')?;
    }
    Ok(text)
}

// The parts of a row, and the row.
#[derive(Clone, Copy)]
pub(crate) struct Parts {
    pub(crate) row: &'static str,
    options: &'static str,
    genome: Option<&'static str>,
    first: &'static str,
    second: &'static str,
    output: &'static str,
    pub(crate) fault: &'static str,
    fails: &'static str,
    pub(crate) cuts: &'static str,
    pub(crate) second_cuts: &'static str,
}

fn put_part(parts: &mut Parts, column: &str, part: &'static str) -> Option<()> {
    match column {
        "name" => {}
        "options" => parts.options = part,
        "genome" => parts.genome = Some(part),
        "first" => parts.first = part,
        "second" => parts.second = part,
        "output" => parts.output = part,
        "fault" => parts.fault = part,
        "fails" => parts.fails = part,
        "cuts" => parts.cuts = part,
        "second cuts" => parts.second_cuts = part,
        _ => return None,
    }
    Some(())
}

// The name of a column, and its text in all rows if the head has one.
fn column_of(part: &'static str) -> (&'static str, Option<&'static str>) {
    match part.split_once(" = ") {
        Some((name, shared)) => (name.trim_matches(' '), Some(shared)),
        None => (part.trim_matches(' '), None),
    }
}

// Whether a head names a column twice.
fn names_twice(head: &'static str) -> bool {
    for (at, part) in head.split('|').enumerate() {
        let name = column_of(part).0;
        for other in head.split('|').take(at) {
            if column_of(other).0 == name {
                return true;
            }
        }
    }
    false
}

// The rows of a table. Without rows it would show nothing, and of two parts of one name one would
// be lost.
pub(crate) fn rows_of(table: &Table) -> Result<&'static [&'static str], Fail> {
    if table.rows.is_empty() || names_twice(table.head) {
        return Err(table.head.into());
    }
    Ok(table.rows)
}

// None if the row doesn't fit the head.
fn parts_of(head: &'static str, row: &'static str) -> Option<Parts> {
    let mut parts = Parts {
        row,
        options: "",
        genome: None,
        first: "",
        second: "",
        output: "",
        fault: "",
        fails: "",
        cuts: "",
        second_cuts: "",
    };
    let mut rest = row.split('|');
    for column in head.split('|') {
        let (name, shared) = column_of(column);
        let part = match shared {
            Some(part) => part,
            None => rest.next()?,
        };
        put_part(&mut parts, name, part.trim_matches(' '))?;
    }
    if rest.next().is_some() {
        return None;
    }
    Some(parts)
}

fn bytes_of(alloc: Global, table: &Table, part: &str) -> Result<Vec<u8>, Fail> {
    if table.is_exact {
        return Ok(Vec::from_slice(alloc, part.as_bytes())?);
    }
    text(alloc, part)
}

// The words of a command, and these options.
fn words_of(
    alloc: Global,
    command: &'static str,
    options: &'static str,
) -> Result<Vec<&'static str>, AllocError> {
    let mut words = Vec::new(alloc);
    for text in [command, options] {
        for word in text.split_whitespace() {
            words.push(word)?;
        }
    }
    Ok(words)
}

// A device that fails, and how many bytes it moves before.
pub(crate) type Failing<'a> = (&'a str, usize);

// What a row says of the device that fails. None if there is no such device, or no number.
fn failing_of(fails: &str) -> Option<Failing<'_>> {
    if fails.is_empty() {
        return Some(("", 0));
    }
    let (device, good) = fails.split_once(' ')?;
    match device {
        "genome" | "first" | "second" | "out" => Some((device, good.parse::<usize>().ok()?)),
        _ => None,
    }
}

fn script_of(device: &str, failing: Failing<'_>, step: usize) -> Script {
    if device == failing.0 {
        failing_by(step.max(1), failing.1)
    } else {
        whole(step.max(1))
    }
}

// The run of a row.
#[derive(Drop)]
pub(crate) struct Run {
    pub(crate) parts: Parts,
    pub(crate) words: Vec<&'static str>,
    pub(crate) genome: Vec<u8>,
    pub(crate) first: Vec<u8>,
    pub(crate) second: Vec<u8>,
    pub(crate) output: Vec<u8>,
}

impl Run {
    // What it gives if this device fails, and each moves `step` bytes a call.
    pub(crate) fn answer(
        &self,
        alloc: Global,
        failing: Failing<'_>,
        step: usize,
    ) -> Result<Answer, Fail> {
        let devices = Devices {
            genome: (self.genome.as_slice(), script_of("genome", failing, step)),
            first: (self.first.as_slice(), script_of("first", failing, step)),
            second: (self.second.as_slice(), script_of("second", failing, step)),
            out: script_of("out", failing, step),
        };
        run_words(alloc, self.words.as_slice(), &devices)
    }

    // What it gave has to be this output and this fault, an empty one for none.
    pub(crate) fn expect(
        &self,
        rt: &impl Abort,
        alloc: Global,
        answer: &Answer,
        (output, fault): (&[u8], &str),
    ) -> Result<(), Fail> {
        let command = self.words.first().copied().unwrap_or("");
        let line = if fault.is_empty() {
            String::new(alloc)
        } else {
            format!(in alloc; "bedtools {command}: {fault}\n")?
        };
        expect(rt, answer, output, line.as_bytes(), self.parts.row);
        Ok(())
    }
}

pub(crate) fn run_of(alloc: Global, table: &Table, row: &'static str) -> Result<Run, Fail> {
    let parts = parts_of(table.head, row).ok_or(row)?;
    let genome = match parts.genome {
        Some(genome) => bytes_of(alloc, table, genome)?,
        None => Vec::from_slice(alloc, GENOME)?,
    };
    Ok(Run {
        parts,
        words: words_of(alloc, table.command, parts.options)?,
        genome,
        first: bytes_of(alloc, table, parts.first)?,
        second: bytes_of(alloc, table, parts.second)?,
        output: bytes_of(alloc, table, parts.output)?,
    })
}

// By devices that move bytes one by one, seven a call, and all at once.
fn check_row(rt: &impl Abort, alloc: Global, table: &Table, row: &'static str) -> Result<(), Fail> {
    let run = run_of(alloc, table, row)?;
    let failing = failing_of(run.parts.fails).ok_or(row)?;
    for step in [1, 7, 8192] {
        let answer = run.answer(alloc, failing, step)?;
        run.expect(rt, alloc, &answer, (run.output.as_slice(), run.parts.fault))?;
    }
    Ok(())
}

// Runs the commands of these tables.
pub(crate) fn check_tables(rt: &impl Abort, alloc: Global, tables: &[Table]) -> Result<(), Fail> {
    for table in tables {
        for row in rows_of(table)? {
            check_row(rt, alloc, table, row)?;
        }
    }
    Ok(())
}
