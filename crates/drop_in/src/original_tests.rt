//! What is found behind ours, among scripted files.

use crate::marks::{Mark, Search};
use crate::original::Original;
use crate::programs::{Programs, Standing};
use crate::versions::{is_for_any_version, is_known_version};
use bt_files::Unopened;
use bt_lines::ScriptSource;
use bt_runs::MergeStrand;
use bt_sweep::{HitRule, Shape};
use bt_tool::Command;
use std::alloc::Global;
use std::process::Abort;
use std::test::Fail;

// A file: its name, what it is, and what it has, if it can be read.
#[derive(Clone, Copy)]
struct ScriptFile {
    name: &'static str,
    standing: Standing,
    bytes: Option<&'static [u8]>,
}

#[rattlefmt::skip]
const FILES: [ScriptFile; 7] = [
    ScriptFile { name: "/ours/bedtools", standing: Standing::Program, bytes: Some(b"#!/bin/sh\n# no such sequence from here on\n") },
    ScriptFile { name: "/text/bedtools", standing: Standing::Other, bytes: Some(b"v2.30.0") },
    ScriptFile { name: "/new/bedtools", standing: Standing::Program, bytes: Some(b"\x7fELF bedtools v2.31.1\0") },
    ScriptFile { name: "./bedtools", standing: Standing::Program, bytes: Some(b"v2.30.0") },
    ScriptFile { name: "/old/bedtools", standing: Standing::Program, bytes: Some(b"v2.29.2 no such sequence") },
    ScriptFile { name: "/group/bedtools", standing: Standing::Unclear, bytes: None },
    ScriptFile { name: "/closed/bedtools", standing: Standing::Program, bytes: None },
];

// These files alone are there.
struct Script;

impl Script {
    fn file(&self, name: &str) -> Option<ScriptFile> {
        for file in &FILES {
            if file.name == name {
                return Some(*file);
            }
        }
        None
    }
}

impl Programs for Script {
    ghost use Rattle.std.specs.Prelude.{⊤};

    type Program = ScriptSource<'static>;

    ghost stands = { λ script name standing. ⊤ };

    ghost opens = { λ script name program. ⊤ };

    ghost refuses = { λ script name. ⊤ };

    fn standing(&self, name: &str) -> Standing {
        match self.file(name) {
            Some(file) => file.standing,
            None => Standing::Other,
        }
    }

    fn open(&self, name: &str) -> Result<ScriptSource<'static>, Unopened> {
        match self.file(name) {
            Some(
                ScriptFile {
                    bytes: Some(bytes),
                    ..
                },
            ) => Ok(ScriptSource::new(bytes, 3, None)),
            _ => Err(Unopened::Refused),
        }
    }
}

// PATH, and after `|` the files that were tried; after `=> ` what is found, and `known` if its version is.
#[rattlefmt::skip]
const ROWS: [&str; 12] = [
    "/no:/ours:/text:/new:/old| => /new/bedtools known",
    "/ours:/text| => missing",
    "| => ./bedtools known",
    "/no:| => ./bedtools known",
    ":/new| => ./bedtools known",
    "/no::/old| => ./bedtools known",
    "/new:/old|/x/bedtools:/new/bedtools => /old/bedtools",
    "/new:/old|:/new/bedtools2:/new/bedtool => /new/bedtools known",
    "/new:|/new/bedtools:./bedtools => missing",
    "/ours:/group:/new| => unclear",
    "/group:/new|/group/bedtools => /new/bedtools known",
    "/closed:/new| => /closed/bedtools",
];

// What is behind ours for this PATH and these tried, in words.
fn found(alloc: Global, path: &str, tried: &str) -> Result<String, Fail> {
    match Original::find(alloc, &Script, path, tried)? {
        Original::Named(name) => {
            let is_known = is_known_version(&Script, name.as_str())?;
            let known = if is_known { " known" } else { "" };
            Ok(format!(in alloc; "{name}{known}")?)
        }
        Original::Missing => Ok(String::from_str(alloc, "missing")?),
        Original::Unclear => Ok(String::from_str(alloc, "unclear")?),
    }
}

fn expect(rt: &impl Abort, found: &str, wanted: &str, row: &str) {
    assert_eq!(rt; found, wanted, "at {row}");
}

#[test]
fn the_original_is_found(rt: HostRuntime) -> Result<(), Fail> {
    for row in &ROWS {
        let (words, wanted) = row.split_once(" => ").ok_or(*row)?;
        let (path, tried) = words.split_once('|').ok_or(*row)?;
        let found = found(rt.alloc(), path, tried)?;
        expect(&rt, found.as_str(), wanted, row);
    }
    Ok(())
}

const OURS: &[u8] = b"xx no such sequence from here on yy";

// A search through our words, of which so many bytes come together, and so many in all.
fn expect_search(rt: &impl Abort, step: usize, good: Option<usize>, wanted: Search) {
    let mut source = ScriptSource::new(OURS, step.max(1), good);
    assert_eq!(rt; Mark::Ours.search(&mut source), wanted, "at {step}");
}

#[test]
fn words_are_found_across_borders(rt: HostRuntime) -> Result<(), Fail> {
    for step in [1, 2, 7, 28, 29, 31, 100] {
        expect_search(&rt, step, None, Search::Found);
        expect_search(&rt, step, Some(32), Search::Found);
        expect_search(&rt, step, Some(31), Search::Absent);
    }
    Ok(())
}

// A rule with these parts.
fn rule(billionths: u64, both: bool, same_strand: bool) -> HitRule {
    HitRule {
        billionths,
        both,
        same_strand,
    }
}

// The command of intersect, of this shape and rule.
fn intersect(shape: Shape, rule: HitRule) -> Command {
    Command::Intersect {
        shape,
        rule,
        held: None,
    }
}

#[test]
fn commands_for_any_version(rt: HostRuntime) -> Result<(), Fail> {
    let any = HitRule::any_overlap();
    let merge = Command::Merge {
        d: 5,
        strand: MergeStrand::All,
    };
    assert!(rt; is_for_any_version(merge, false));
    assert!(rt; is_for_any_version(intersect(Shape::Once, any), false));
    assert!(rt; is_for_any_version(intersect(Shape::Cut, any), true));
    assert!(rt; !is_for_any_version(intersect(Shape::Cut, any), false));
    assert!(rt; !is_for_any_version(intersect(Shape::Once, rule(0, true, false)), true));
    assert!(rt; !is_for_any_version(intersect(Shape::Once, rule(1, false, false)), true));
    assert!(rt; !is_for_any_version(intersect(Shape::Once, rule(0, false, true)), true));
    Ok(())
}
