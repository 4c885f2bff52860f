//! A genome file, which is read once: for the verdict and for the run.

ghost use Rattle.std.specs.Prelude.{◌≡◌, Err, IfErr, IfOk, Ok, true};
ghost use Rattle.bt_lines.specs.declared.fault.Input.TheVariants.{Genome as OfGenome};
ghost use Rattle.bt_lines.specs.calls.Names.{fault_value};
ghost use Rattle.bt_lines.specs.model.Lines.{whole_text};
ghost use Rattle.bt_bed.specs.model.Genome.{genome_handed};
ghost use Rattle.bt_bed.specs.calls.GenomeTable.{entries};
ghost use Rattle.drop_in.specs.calls.GenomeFiles.{IsWhyOfGenome, fault_why, is_comment, is_of_text, odd_in, odd_line};
ghost use Rattle.drop_in.specs.calls.Looks.{IsUnfinished, ReadsGenome, ReadsText, Unfinishes};

use crate::why::Why;
use bt_bed::Genome;
use bt_front::Keeping;
use bt_lines::{Fault, FromRead, Input, Kind, LineReader, Source, length_before};
use std::alloc::Global;

// How many bytes are read together.
const PIECE: usize = 8192;

/// A genome file: its chromosomes, and its text.
#[derive(Drop)]
pub struct GenomeFile {
    pub genome: Genome,
    pub text: Vec<u8>,
}

/// Why a source isn't read to its end.
#[derive(Clone, Copy, Debug, PartialEq, Eq)]
pub enum Unfinished {
    /// A read failed.
    Failed,
    /// It is longer than there is room for.
    Long,
    /// There is no memory.
    NoMemory,
}

/// Reads a genome file that was opened.
pub fn read_genome<I: Source + Drop>(alloc: Global, source: I) -> Result<GenomeFile, Why>
    ensures reads { IfOk result (ReadsGenome I.Source source) }
    ensures why { IfErr result (IsWhyOfGenome I.Source source) }
{
    let text = match read_text(alloc, source, usize::MAX) {
        Ok(text) => text,
        Err(Unfinished::Failed) => return Err(Why::Unopened(Input::Genome)),
        Err(_) => return Err(Why::NoMemory),
    };
    match odd_in(text.as_slice()) {
        Some(why) => Err(why),
        None => match genome_in(alloc, text.as_slice()) {
            Ok(genome) => Ok(GenomeFile { genome, text }),
            Err(fault) => Err(fault_why(fault)),
        },
    }
}

/// All that a source hands over, up to its end.
pub fn read_text<S: Source + Drop>(
    alloc: Global,
    source: S,
    room: usize,
) -> Result<Vec<u8>, Unfinished>
    ensures text { IfOk result (λ text. ReadsText S.Source source text.items) }
    ensures unfinished { IfErr result (IsUnfinished S.Source source room) }
{
    let mut keeping = Keeping::new(alloc, source, room);
    let mut piece = [0u8; PIECE];
    for _ in 0..u64::MAX {
        match keeping.read(&mut piece) {
            Ok(0) => {
                let (_source, text) = keeping.into_parts();
                return Ok(text);
            }
            Ok(_) => {}
            Err(_failed) => return Err(why_unfinished(keeping, room)),
        }
    }
    Err(Unfinished::NoMemory)
}

// Why a read of what is kept failed.
fn why_unfinished<S: Source + Drop>(keeping: Keeping<S>, room: usize) -> Unfinished
    ensures { Unfinishes S.Source keeping room result }
{
    let (source, text) = keeping.into_parts();
    if room < text.len() {
        Unfinished::Long
    } else if source.failed() {
        Unfinished::Failed
    } else {
        Unfinished::NoMemory
    }
}

/// The chromosomes of a text.
pub fn genome_in(alloc: Global, text: &[u8]) -> Result<Genome, Fault>
    ensures reads { IfOk result (λ genome. genome_handed OfGenome (whole_text text.now) ≡ Ok (entries genome)) }
    ensures wrong { IfErr result (λ fault. is_of_text fault.kind ≡ true
        → genome_handed OfGenome (whole_text text.now) ≡ Err (fault_value fault)) }
{
    let source = FromRead::new(text);
    let mut lines = LineReader::new(alloc, source, Input::Genome);
    match Genome::read(alloc, &mut lines) {
        Ok(genome) => Ok(genome),
        Err(fault) => Err(fault),
    }
}

// Why a genome file is left whose text isn't read: its line at fault, or no memory.
fn fault_why(fault: Fault) -> Why
    ensures { result ≡ fault_why fault }
{
    match fault.kind {
        Kind::NoMemory | Kind::ReadFailed => Why::NoMemory,
        _ => Why::Genome(fault),
    }
}

// What bedtools reads otherwise in the text of a genome file.
fn odd_in(text: &[u8]) -> Option<Why>
    ensures { result ≡ odd_in text.now }
{
    let mut rest = text;
    loop {
        let count = length_before(b'\n', rest);
        match odd_line(&rest[..count]) {
            Some(why) => return Some(why),
            None => {
                if count == rest.len() {
                    return None;
                }
                rest = &rest[count..][1..];
            }
        }
    }
}

// What it reads otherwise in a line.
fn odd_line(line: &[u8]) -> Option<Why>
    ensures { result ≡ odd_line line.now }
{
    if is_comment(line) && line.contains(&b'\t') {
        Some(Why::TabInComment)
    } else if line.contains(&0) {
        Some(Why::NulInGenome)
    } else {
        None
    }
}

// Whether a line begins with #.
fn is_comment(line: &[u8]) -> bool
    ensures { result ≡ is_comment line.now }
{
    match line.first() {
        Some(first) => *first == b'#',
        None => false,
    }
}
