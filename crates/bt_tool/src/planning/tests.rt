use super::*;
use crate::options::usage::usage_line;
use std::process::Abort;
use std::test::Fail;

mod two_inputs;

// The words of a command line and, after `=> `, the plan or the line on standard error that they
// give. `''` is an empty word, and `_` a space in one.
const CASES: [&str; 44] = [
    "=> bedtools: no or unknown command",
    "'' -g g => bedtools: no or unknown command",
    "-g g merge => bedtools: no or unknown command",
    "merge -q => bedtools: unknown option: -q",
    "merge -held 1 => bedtools: unknown option: -held",
    "merge -s -g g => Merge { d: 0, strand: Each } genome=g first=stdin",
    "merge -g g -s -d 5 -s => Merge { d: 5, strand: Each } genome=g first=stdin",
    "merge -g g -s -S + => bedtools: options exclude one another",
    "merge -S - -s -g g => bedtools: options exclude one another",
    "complement -g g -d 5 => bedtools: unknown option: -d",
    "merge -L -g g => bedtools: unknown option: -L",
    "merge -d => bedtools: value missing: -d",
    "merge -g g -S => bedtools: value missing: -S",
    "merge -d x => bedtools: bad value: -d",
    "merge -d -1 => bedtools: bad value: -d",
    "merge -d '' => bedtools: bad value: -d",
    "merge -d 1000000000000 => bedtools: bad value: -d",
    "merge -S . => bedtools: bad value: -S",
    "merge -S ++ => bedtools: bad value: -S",
    "complement => bedtools: required option missing",
    "complement -L => bedtools: required option missing",
    "complement -g - -L => bedtools: standard input named twice",
    "complement -L -g g -L => Complement { limit: true } genome=g first=stdin",
    "complement -g g -i a => Complement { limit: false } genome=g first=a",
    "merge -g g -d 1 -d 5 => Merge { d: 5, strand: All } genome=g first=stdin",
    "merge -g g -d 007 -S - -S + => Merge { d: 7, strand: One(Plus) } genome=g first=stdin",
    "merge -S - -g g -d 999999999999 => \
     Merge { d: 999999999999, strand: One(Minus) } genome=g first=stdin",
    "merge -g g a.bed => bedtools: unknown option: a.bed",
    "merge -g => bedtools: value missing: -g",
    "merge -g g -i => bedtools: value missing: -i",
    "merge -g '' => bedtools: bad value: -g",
    "merge -i '' -q => bedtools: bad value: -i",
    "merge => Merge { d: 0, strand: All } first=stdin",
    "merge -i - => Merge { d: 0, strand: All } first=-",
    "merge -s -d 5 -i a => Merge { d: 5, strand: Each } first=a",
    "merge -g - => bedtools: standard input named twice",
    "merge -g stdin -i - => bedtools: standard input named twice",
    "merge -i stdin -g - => bedtools: standard input named twice",
    "merge -g g => Merge { d: 0, strand: All } genome=g first=stdin",
    "merge -g - -i a.bed => Merge { d: 0, strand: All } genome=- first=a.bed",
    "merge -i - -g g => Merge { d: 0, strand: All } genome=g first=-",
    "merge -g a -g b => Merge { d: 0, strand: All } genome=b first=stdin",
    "merge -i -g -g -i => Merge { d: 0, strand: All } genome=-i first=-g",
    "merge -g - -i stdin -i a => Merge { d: 0, strand: All } genome=- first=a",
];

// Words after `genomecov`, and their plans.
const COVERAGE: [&str; 19] = [
    "-g g => bedtools: required option missing",
    "-g g -strand + => bedtools: required option missing",
    "-bg => bedtools: required option missing",
    "-bg -bga -i a => bedtools: required option missing",
    "-g - => bedtools: required option missing",
    "-bg -g - => bedtools: standard input named twice",
    "-bg -strand => bedtools: value missing: -strand",
    "-strand . => bedtools: bad value: -strand",
    "-strand '' => bedtools: bad value: -strand",
    "-strand +- => bedtools: bad value: -strand",
    "-d => bedtools: unknown option: -d",
    "-dz => bedtools: unknown option: -dz",
    "-split => bedtools: unknown option: -split",
    "-S + => bedtools: unknown option: -S",
    "-g g -bg => Coverage { zeros: false, strand: None } genome=g first=stdin",
    "-bga -g g -i a.bed => Coverage { zeros: true, strand: None } genome=g first=a.bed",
    "-bga -g g -bg => Coverage { zeros: true, strand: None } genome=g first=stdin",
    "-strand - -g - -i a -bg -bg => \
     Coverage { zeros: false, strand: Some(Minus) } genome=- first=a",
    "-strand - -bga -g g -strand + => \
     Coverage { zeros: true, strand: Some(Plus) } genome=g first=stdin",
];

// Words after `bamtobed`, and their plans.
const BAM_TO_BED: [&str; 9] = [
    "=> BamToBed { split: false, cigar: false } first=stdin",
    "-split -i a.sam -cigar => BamToBed { split: true, cigar: true } first=a.sam",
    "-cigar -i a.sam -cigar -i - => BamToBed { split: false, cigar: true } first=-",
    "-i -split -split => BamToBed { split: true, cigar: false } first=-split",
    "-g x => bedtools: unknown option: -g",
    "x => bedtools: unknown option: x",
    "-splitD => bedtools: unknown option: -splitD",
    "-i => bedtools: value missing: -i",
    "-cigar -i '' => bedtools: bad value: -i",
];

// Words after `maskfasta`, and their plans.
const MASK_FASTA: [&str; 23] = [
    "=> bedtools: required option missing",
    "-fi a => bedtools: required option missing",
    "-bed b => bedtools: required option missing",
    "-fi a -bed b => MaskFasta { how: Hard(78), full: false } first=a second=b",
    "-fi a -bed b -soft => MaskFasta { how: Soft, full: false } first=a second=b",
    "-fullHeader -fi a -bed b -mc x => MaskFasta { how: Hard(120), full: true } first=a second=b",
    "-fi a -bed b -mc ! -mc ~ => MaskFasta { how: Hard(126), full: false } first=a second=b",
    "-fi a -bed b -mc - => MaskFasta { how: Hard(45), full: false } first=a second=b",
    "-fi - -bed b -fo c => MaskFasta { how: Hard(78), full: false } first=- second=b output=c",
    "-fi a -bed b -fo - => MaskFasta { how: Hard(78), full: false } first=a second=b",
    "-fi a -bed b -fo stdout => MaskFasta { how: Hard(78), full: false } first=a second=b",
    "-fi - -bed b -fo - => MaskFasta { how: Hard(78), full: false } first=- second=b",
    "-fi a -bed b -fo a -fo stdin => \
     MaskFasta { how: Hard(78), full: false } first=a second=b output=stdin",
    "-fi a -bed b -soft -mc x => bedtools: options exclude one another",
    "-fi a -bed b -fo a => bedtools: options exclude one another",
    "-fi a -bed b -fo b => bedtools: options exclude one another",
    "-fi - -bed stdin => bedtools: standard input named twice",
    "-fi a -bed b -mc xy => bedtools: bad value: -mc",
    "-fi a -bed b -mc _ => bedtools: bad value: -mc",
    "-fi a -bed b -mc '' => bedtools: bad value: -mc",
    "-fi a -bed b -mc é => bedtools: bad value: -mc",
    "-fi a -bed b -fo => bedtools: value missing: -fo",
    "-fi a -bed b -g g => bedtools: unknown option: -g",
];

// A command that joins two inputs.
fn shown_join(
    alloc: Global,
    name: &str,
    rule: HitRule,
    held: Option<u64>,
) -> Result<String, AllocError> {
    let mut text = format!(in alloc; "{name} f={}", rule.billionths)?;
    if rule.both {
        text.push_str(" both")?;
    }
    if rule.same_strand {
        text.push_str(" strand")?;
    }
    if let Some(held) = held {
        let held = format!(in alloc; " held={held}")?;
        text.push_str(held.as_str())?;
    }
    Ok(text)
}

fn shown_command(alloc: Global, command: Command) -> Result<String, AllocError> {
    match command {
        Command::Intersect { shape, rule, held } => {
            let name = format!(in alloc; "Intersect {shape:?}")?;
            shown_join(alloc, name.as_str(), rule, held)
        }
        Command::Subtract { whole, rule, held } => {
            let name = if whole {
                "Subtract whole"
            } else {
                "Subtract pieces"
            };
            shown_join(alloc, name, rule, held)
        }
        other => format!(in alloc; "{other:?}"),
    }
}

fn push_name(text: &mut String, key: &str, name: &Option<String>) -> Result<(), AllocError> {
    if let Some(name) = name {
        text.push_str(key)?;
        text.push_str(name.as_str())?;
    }
    Ok(())
}

// The command of a plan, and each file that it names.
fn shown(alloc: Global, plan: &Plan) -> Result<String, AllocError> {
    let mut text = shown_command(alloc, plan.command)?;
    push_name(&mut text, " genome=", &plan.genome)?;
    text.push_str(" first=")?;
    text.push_str(plan.first.as_str())?;
    push_name(&mut text, " second=", &plan.second)?;
    push_name(&mut text, " output=", &plan.output)?;
    Ok(text)
}

// The words of the command and of a row.
fn owned(
    alloc: Global,
    command: &'static str,
    words: &'static str,
) -> Result<Vec<String>, AllocError> {
    let mut all = Vec::new(alloc);
    for text in [command, words] {
        for word in text.split_whitespace() {
            let word = if word == "''" { "" } else { word };
            all.push(word.replace(alloc, "_", " ")?)?;
        }
    }
    Ok(all)
}

// A plan, or a line on standard error without its line feed.
fn answer(alloc: Global, words: &[String]) -> Result<String, Fail> {
    match plan(alloc, words) {
        Ok(plan) => Ok(shown(alloc, &plan)?),
        Err(Refusal::Usage(usage)) => {
            let line = usage_line(alloc, words, &usage)?;
            let line = String::from_utf8(line).map_err(|_| AllocError)?;
            let text = line.as_str().strip_suffix("\n").ok_or("a line feed")?;
            Ok(String::from_str(alloc, text)?)
        }
        Err(Refusal::NoMemory) => Err(Fail::from(AllocError)),
    }
}

// Each row gives what it says, after this command.
fn check_all(
    rt: &impl Abort,
    alloc: Global,
    command: &'static str,
    rows: &[&'static str],
) -> Result<(), Fail> {
    for row in rows {
        let (words, wanted) = row.split_once("=> ").ok_or(*row)?;
        let words = owned(alloc, command, words)?;
        let given = answer(alloc, words.as_slice())?;
        assert_eq!(rt; given.as_str(), wanted, "at {row}");
    }
    Ok(())
}

#[test]
fn words_give_a_plan_or_a_usage_line(rt: HostRuntime) -> Result<(), Fail> {
    check_all(&rt, rt.alloc(), "", &CASES)
}

#[test]
fn words_of_genomecov(rt: HostRuntime) -> Result<(), Fail> {
    check_all(&rt, rt.alloc(), "genomecov", &COVERAGE)
}

#[test]
fn words_of_bamtobed(rt: HostRuntime) -> Result<(), Fail> {
    check_all(&rt, rt.alloc(), "bamtobed", &BAM_TO_BED)
}

#[test]
fn words_of_maskfasta(rt: HostRuntime) -> Result<(), Fail> {
    check_all(&rt, rt.alloc(), "maskfasta", &MASK_FASTA)
}
