//! `bedtools`: makes the plan of a command line, has it carried out, and reports what went wrong. The words *plan* and
//! *message* are those of bt_files.
//!
//! An example, as the stored run in this crate's folder (`args`, `stdin`, `stdout`) makes it among the files of `data`:
//!
//! ```text
//! $ tr '\t' ' ' < stdin
//! chr1 100 200
//! chr1 180 250
//! chr1 250 500
//! chr1 501 1000
//! $ cd data; bedtools merge -i stdin -g g.txt < ../stdin | tr '\t' ' '
//! chr1 100 500
//! chr1 501 1000
//! ```
#![tactic(auto)]

ghost use Rattle.std.specs.Prelude.{◌≡◌, ◌⊎◌, None, Ok, Err};
ghost use Rattle.bt_tool.specs.model.Options.{PlanSeen, options};
ghost use Rattle.bt_tool.specs.calls.Plan.{words_seen};
ghost use Rattle.bt_tool.specs.model.Usage.{usage_text};
ghost use Rattle.bt_tool.specs.declared.options.usage.Usage.{Usage};
ghost use Rattle.bt_files.specs.calls.Ending.{Ends, LeavesAll};
ghost use Rattle.bt_files.specs.calls.Message.{Says, SaysNoMemory};
ghost use Rattle.bt_files.specs.calls.RealFiles.{ReportsRealRun};

use bt_files::{
    Files, Finished, Message, Obstacle, Opened, Output, StandIns, SystemFiles, carry_out,
    real_files_get_their_report,
};
use bt_tool::{Refusal, plan};
use std::alloc::Global;
use std::process::ExitCode;
use std::{env, io};

fn main(rt: HostRuntime) -> ExitCode {
    // They are kept to the end, so that no file is ever a standard stream.
    let stand_ins = StandIns::take(&rt);
    let message = match &stand_ins {
        Ok(_) => start_by_words(&rt),
        Err(_) => Message::of(rt.alloc(), &Obstacle::ClosedStream),
    };
    message.print(&rt);
    ExitCode::from(message.status)
}

// Reads the words of the command line and starts with them.
fn start_by_words(rt: &HostRuntime) -> Message {
    match words(rt) {
        Ok(words) => start_over_system(rt, words.as_slice()).message,
        Err(error) if error.kind() == io::ErrorKind::OutOfMemory => {
            Message::of(rt.alloc(), &Obstacle::NoMemory)
        }
        Err(_) => Message::of(rt.alloc(), &Obstacle::NotUnicode),
    }
}

// The words after the program's name.
fn words(rt: &HostRuntime) -> io::Result<Vec<String>> {
    let mut all = Vec::new(rt.alloc());
    for word in env::args(rt)?.skip(1) {
        all.push(word)?;
    }
    Ok(all)
}

// Makes the plan and carries it out over the files of the system.
fn start_over_system(rt: &HostRuntime, words: &[String]) -> Finished<Opened, Output>
    ensures usage { (usage : Usage) → options (words_seen words.now) ≡ Err usage
        → Says (usage_text (words_seen words.now) usage) 2 result.message × (result.left ≡ None) }
    ensures run { (plan : PlanSeen) → options (words_seen words.now) ≡ Ok plan
        → ReportsRealRun plan result.message result.left }
{
    real_files_get_their_report();
    start(rt.alloc(), &mut SystemFiles { rt }, words)
}

// Makes the plan and carries it out over these files. Without a plan nothing is asked of them.
fn start<F: Files>(alloc: Global, files: &mut F, words: &[String]) -> Finished<F::Input, F::Output>
    ensures usage { (usage : Usage) → options (words_seen words.now) ≡ Err usage
        → Says (usage_text (words_seen words.now) usage) 2 result.message
        × LeavesAll files.old result.left files.new }
    ensures run { (plan : PlanSeen) → options (words_seen words.now) ≡ Ok plan
        → Ends F.Files F.Input.Source F.Output.Sink files.old plan result.message result.left files.new
        ⊎ (SaysNoMemory result.message × LeavesAll files.old result.left files.new) }
{
    let message = match plan(alloc, words) {
        Ok(plan) => return carry_out(alloc, files, &plan),
        Err(Refusal::Usage(usage)) => Message::of(alloc, &Obstacle::Usage(words, usage)),
        Err(Refusal::NoMemory) => Message::of(alloc, &Obstacle::NoMemory),
    };
    Finished {
        message,
        left: None,
    }
}

#[cfg(test)]
mod tests {
    use super::*;
    use std::process::Abort;
    use std::test::Fail;

    // Words, and after `=> ` the status of their end, and its line if there is one.
    const ENDS: [&str; 21] = [
        "=> 2 bedtools: no or unknown command\n",
        "sort => 2 bedtools: no or unknown command\n",
        "merge -q => 2 bedtools: unknown option: -q\n",
        "complement -i a.bed => 2 bedtools: required option missing\n",
        "merge -g no/such/file => 1 bedtools merge: no/such/file: cannot be opened\n",
        "intersect -a no/a -b no/b -g no/g => 1 bedtools intersect: no/g: cannot be opened\n",
        "intersect -a no/a -b no/b -g /dev/null => 1 bedtools intersect: no/a: cannot be opened\n",
        "intersect -a /dev/null -b no/b -g /dev/null => \
         1 bedtools intersect: no/b: cannot be opened\n",
        "intersect -a . -b /dev/null -g /dev/null => 1 bedtools intersect: .:1: reading failed\n",
        "intersect -a /dev/null -b . -g /dev/null => 1 bedtools intersect: .:1: reading failed\n",
        "merge -i . -g /dev/null => 1 bedtools merge: .:1: reading failed\n",
        "merge -i /dev/null -g /dev/null => 0",
        "bamtobed -i /dev/null => 0",
        "bamtobed -g g.txt => 2 bedtools: unknown option: -g\n",
        "maskfasta -fi /dev/null -bed /dev/null => 0",
        "maskfasta -fi /dev/null -bed /dev/null -fo stdout => 0",
        "maskfasta -fi /dev/null -bed /dev/null -fo /dev/null => \
         2 bedtools: options exclude one another\n",
        "maskfasta -fi no/fa -bed no/bed -fo no/out => \
         1 bedtools maskfasta: no/fa: cannot be opened\n",
        "maskfasta -fi /dev/null -bed no/bed -fo no/out => \
         1 bedtools maskfasta: no/bed: cannot be opened\n",
        "maskfasta -fi /dev/null -bed /dev/./null -fo no/out => \
         1 bedtools maskfasta: no/out: cannot be opened\n",
        "maskfasta -fi /dev/null -bed . -fo /dev/./null => \
         1 bedtools maskfasta: .:1: reading failed\n",
    ];

    // The end of a command line.
    fn message_of(rt: &HostRuntime, command: &str) -> Result<Message, Fail> {
        let mut words = Vec::new(rt.alloc());
        for word in command.split_whitespace() {
            words.push(String::from_str(rt.alloc(), word)?)?;
        }
        Ok(start_over_system(rt, words.as_slice()).message)
    }

    fn expect(rt: &impl Abort, message: &Message, end: &str, row: &str) {
        let (status, line) = end.split_once(' ').unwrap_or((end, ""));
        assert_eq!(rt; message.line.as_bytes(), line.as_bytes(), "at {row}");
        assert_eq!(rt; Some(message.status), status.parse::<u8>().ok(), "at {row}");
    }

    // With memory for its line, each end has its own line and status.
    #[test]
    fn ends(rt: HostRuntime) -> Result<(), Fail> {
        for row in &ENDS {
            let (command, end) = row.split_once("=> ").ok_or(*row)?;
            let message = message_of(&rt, command)?;
            expect(&rt, &message, end, row);
        }
        Ok(())
    }
}
