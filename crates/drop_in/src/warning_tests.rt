//! A table of lines that leave a call to bedtools, and what is said of them: what bedtools 2.30.0 does with each.

use crate::warning::{Case, Silent, Warning};
use crate::why::Why;
use crate::words::Request;
use bt_front::{OddLine, Oddity, Reason, Trouble};
use bt_lines::{Input, no_memory};
use std::alloc::{AllocError, Global};
use std::process::Abort;
use std::test::Fail;

type Row = (&'static str, Input, Oddity, Option<Silent>);

#[rattlefmt::skip]
const ROWS: [Row; 23] = [
    ("intersect -sorted -u -a a -b b", Input::First, Oddity::Blank, Some(Silent::EndsInput)),
    ("intersect -sorted -u -a a -b b", Input::Second, Oddity::Blank, Some(Silent::EndsInput)),
    ("intersect -u -a a -b b", Input::First, Oddity::Blank, None),
    ("subtract -a a -b b", Input::First, Oddity::Blank, None),
    ("merge -i a", Input::First, Oddity::Blank, Some(Silent::EndsRun)),
    ("complement -i a -g g", Input::First, Oddity::Blank, Some(Silent::EndsRun)),
    ("genomecov -bg -i a -g g", Input::First, Oddity::Blank, None),
    ("intersect -sorted -u -a a -b b", Input::First, Oddity::DoubleReturn, Some(Silent::DropsReturns)),
    ("intersect -sorted -u -a a -b b", Input::Second, Oddity::DoubleReturn, None),
    ("intersect -sorted -wb -a a -b b", Input::Second, Oddity::DoubleReturn, Some(Silent::DropsReturns)),
    ("subtract -a a -b b", Input::First, Oddity::DoubleReturn, Some(Silent::DropsReturns)),
    ("merge -i a", Input::First, Oddity::DoubleReturn, None),
    ("intersect -v -a a -b b", Input::First, Oddity::Nul, Some(Silent::CutsColumn)),
    ("genomecov -bg -i a -g g", Input::First, Oddity::Nul, None),
    ("intersect -sorted -wo -a a -b b", Input::Second, Oddity::Long, Some(Silent::CutsLine)),
    ("merge -i a", Input::First, Oddity::Long, Some(Silent::CutsLine)),
    ("complement -i a -g g", Input::First, Oddity::Long, None),
    ("merge -i a", Input::First, Oddity::HeaderName, Some(Silent::SkipsRecord)),
    ("subtract -a a -b b", Input::Second, Oddity::HeaderName, Some(Silent::SkipsRecord)),
    ("genomecov -bga -i a -g g", Input::First, Oddity::HeaderName, Some(Silent::SkipsRecord)),
    ("merge -i a", Input::First, Oddity::ByteOrderMark, None),
    ("merge -i a", Input::First, Oddity::Vcf, None),
    ("merge -i a", Input::First, Oddity::FarEnd, None),
];

// The call of these words, which spaces divide.
fn case_of(alloc: Global, line: &str) -> Result<Case, Fail> {
    let mut words = Vec::new(alloc);
    for word in line.split(' ') {
        words.push(String::from_str(alloc, word)?)?;
    }
    let request = Request::of(alloc, words.as_slice()).ok().ok_or("words")?;
    Ok(Case {
        command: request.plan.command,
        is_sorted: request.is_sorted,
        has_genome: request.plan.genome.is_some(),
    })
}

#[test]
fn odd_lines_have_warnings(rt: HostRuntime) -> Result<(), Fail> {
    for (words, input, oddity, silent) in &ROWS {
        let why = Why::Text(
            *input,
            Trouble::Odd(OddLine {
                line: 17,
                oddity: *oddity,
            }),
        );
        let want = match silent {
            Some(silent) => Some(Warning {
                line: 17,
                silent: *silent,
            }),
            None => None,
        };
        let found = case_of(rt.alloc(), words)?.warning(why);
        assert_eq!(rt; found, want, "{words}: {oddity:?}");
    }
    Ok(())
}

// A call, the input whose chromosome comes back, and whether bedtools may not notice.
const ORDERS: [(&str, Input, bool); 4] = [
    ("intersect -sorted -u -a a -b b -g g", Input::Second, true),
    ("intersect -sorted -u -a a -b b", Input::Second, false),
    ("intersect -sorted -u -a a -b b -g g", Input::First, false),
    ("merge -i a", Input::First, false),
];

#[test]
fn lines_out_of_order_have_warnings(rt: HostRuntime) -> Result<(), Fail> {
    for (words, input, is_lost) in &ORDERS {
        let why = Why::Text(*input, Trouble::ComesBack { line: 3 });
        let found = case_of(rt.alloc(), words)?.warning(why);
        let want = Warning {
            line: 3,
            silent: Silent::LosesHits,
        };
        assert_eq!(rt; found == Some(want), *is_lost, "{words}");
    }
    Ok(())
}

#[test]
fn what_has_no_line_has_no_warning(rt: HostRuntime) -> Result<(), Fail> {
    let case = case_of(rt.alloc(), "intersect -sorted -u -a a -b b")?;
    let whys = [
        Why::Verdict(Reason::NotByBytes),
        Why::Unopened(Input::First),
        Why::Text(Input::First, Trouble::Refused(no_memory())),
    ];
    for why in &whys {
        assert!(rt; case.warning(*why).is_none());
    }
    assert_eq!(rt;
        Silent::EndsInput.text(),
        "is a blank line: bedtools ignores what follows"
    );
    Ok(())
}
