//! The words of the commands that join two BED inputs.

use super::check_all;
use std::test::Fail;

// The words after intersect, and the plan or the line on standard error that they give. A plan has
// the fraction `f` in billionths, and of `both`, `strand` and `held` what is asked for.
const INTERSECT: [&str; 24] = [
    "-a x => bedtools: required option missing",
    "-a x -g g => bedtools: required option missing",
    "-a - -b stdin => bedtools: standard input named twice",
    "-a x -b y => Intersect Cut f=0 first=x second=y",
    "-b y -g g => bedtools: required option missing",
    "-a x -b y -g g -u -c => bedtools: options exclude one another",
    "-a x -b y -g g -wa -wo => bedtools: options exclude one another",
    "-a x -b y -g g -u -v => bedtools: options exclude one another",
    "-a x -b y -g g -wa -wb -u => bedtools: options exclude one another",
    "-a x -b y -g g -wb -wo => bedtools: options exclude one another",
    "-a x -b y -g g -v -c => bedtools: options exclude one another",
    "-a - -b stdin -g g => bedtools: standard input named twice",
    "-a x -b - -g stdin => bedtools: standard input named twice",
    "-a x -b y -g g -F 0.5 => bedtools: unknown option: -F",
    "-i x => bedtools: unknown option: -i",
    "-a x -b => bedtools: value missing: -b",
    "-a x -b y -g g => Intersect Cut f=0 genome=g first=x second=y",
    "-sorted -a x -b y -g g -wa -wa => Intersect OrigA f=0 genome=g first=x second=y",
    "-a x -b y -g g -wb => Intersect CutAndB f=0 genome=g first=x second=y",
    "-wb -a x -b y -wa -g g => Intersect OrigBoth f=0 genome=g first=x second=y",
    "-a x -b y -g g -wo => Intersect Overlap f=0 genome=g first=x second=y",
    "-a x -b y -g g -u -wa => Intersect Once f=0 genome=g first=x second=y",
    "-a x -b y -g g -v -sorted => Intersect Missing f=0 genome=g first=x second=y",
    "-a - -b y -g g -c => Intersect Count f=0 genome=g first=- second=y",
];

// Plans of intersect by the options that say what a hit is.
const RULES: [&str; 19] = [
    "-a x -b y -g g -f 1.5 => bedtools: bad value: -f",
    "-a x -b y -g g -f 0.5000000000 => bedtools: bad value: -f",
    "-a x -b y -g g -f . => bedtools: bad value: -f",
    "-a x -b y -g g -f 1.000000001 => bedtools: bad value: -f",
    "-a x -b y -g g -f '' => bedtools: bad value: -f",
    "-a x -b y -g g -f 5e-1 => bedtools: bad value: -f",
    "-a x -b y -g g -f +1 => bedtools: bad value: -f",
    "-a x -b y -g g -f _1 => bedtools: bad value: -f",
    "-a x -b y -g g -f => bedtools: value missing: -f",
    "-a x -b y -g g -f 0.5 => Intersect Cut f=500000000 genome=g first=x second=y",
    "-a x -b y -g g -f .5 -r -s => Intersect Cut f=500000000 both strand genome=g first=x second=y",
    "-r -a x -b y -g g -f 1 => Intersect Cut f=1000000000 both genome=g first=x second=y",
    "-a x -b y -g g -s -u -s => Intersect Once f=0 strand genome=g first=x second=y",
    "-a x -b y -g g -f 1. -f 0.000000001 => Intersect Cut f=1 genome=g first=x second=y",
    "-a x -b y -held x => bedtools: bad value: -held",
    "-a x -b y -held 1000000000000 => bedtools: bad value: -held",
    "-held => bedtools: value missing: -held",
    "-a x -b y -held 0 => Intersect Cut f=0 held=0 first=x second=y",
    "-a x -b y -held 3 -held 999999999999 => Intersect Cut f=0 held=999999999999 first=x second=y",
];

// Plans of subtract.
const SUBTRACT: [&str; 18] = [
    "-a x => bedtools: required option missing",
    "-b x -g g => bedtools: required option missing",
    "-a x -b y => Subtract pieces f=0 first=x second=y",
    "-a - -b stdin -g g => bedtools: standard input named twice",
    "-a x -b - -g - => bedtools: standard input named twice",
    "-a x -b y -g g -r => bedtools: unknown option: -r",
    "-a x -b y -g g -sorted => bedtools: unknown option: -sorted",
    "-a x -b y -g g -N => bedtools: unknown option: -N",
    "-a x -b y -g g -wb => bedtools: unknown option: -wb",
    "-a x -b y -g g -wo => bedtools: unknown option: -wo",
    "-a x -b y -g g -F => bedtools: unknown option: -F",
    "-a x -b y -g g -S => bedtools: unknown option: -S",
    "-a x -b y -g g -f 1.000000001 => bedtools: bad value: -f",
    "-a x -b y -g g => Subtract pieces f=0 genome=g first=x second=y",
    "-a x -b y -g g -A => Subtract whole f=0 genome=g first=x second=y",
    "-a x -b y -g g -s -f 00.5 -A => Subtract whole f=500000000 strand genome=g first=x second=y",
    "-A -a x -b y -held 007 => Subtract whole f=0 held=7 first=x second=y",
    "-f 0.5 -a x -b y -g g -f 1 => Subtract pieces f=1000000000 genome=g first=x second=y",
];

#[test]
fn words_of_intersect(rt: HostRuntime) -> Result<(), Fail> {
    check_all(&rt, rt.alloc(), "intersect", &INTERSECT)
}

#[test]
fn words_of_rules(rt: HostRuntime) -> Result<(), Fail> {
    check_all(&rt, rt.alloc(), "intersect", &RULES)
}

#[test]
fn words_of_subtract(rt: HostRuntime) -> Result<(), Fail> {
    check_all(&rt, rt.alloc(), "subtract", &SUBTRACT)
}
