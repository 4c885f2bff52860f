use crate::tests::tables::{Table, check_tables};
use crate::tests::{Devices, expect, run_words, whole};
use std::alloc::{AllocError, Global};
use std::process::Abort;
use std::test::Fail;

const MASKFASTA: &[&str] = &["maskfasta", "-fi", "a.fa", "-bed", "b.bed"];

// What stands for the bases that records cover.
const OPTIONS: Table = Table {
    command: "maskfasta -fi a.fa -bed b.bed",
    is_exact: true,
    head: "name | options | first | second | output",
    rows: &[
        "lower case | -soft | >s d\nACGTAC\nGTAC | s\t4\t8\n | >s d\nACGTac\ngtAC",
        "another character | -mc x | >s d\nACGTAC\nGTAC | s\t4\t8\n | >s d\nACGTxx\nxxAC",
        "the last of two characters | -mc - -mc ~ | >s\nACGT\n | s\t1\t3\n | >s\nA~~T\n",
        "lower case of letters alone | -soft | >s\nAcN*-zZ\n | s\t0\t7\n | >s\nacn*-zz\n",
        "lower case, and a record ahead | -soft | >s\nACGT\nACGT\nACGT\n | s\t9\t11\n \
             | >s\nACGT\nACGT\nAcgT\n",
    ],
};

const FULL_HEADERS: Table = Table {
    command: "maskfasta -fi a.fa -bed b.bed",
    is_exact: true,
    head: "options = -fullHeader | name | first | second | output | fault",
    rows: &[
        "the whole header as a name | >s d\nACGT\n | s d\t0\t1\n | >s d\nNCGT\n |",
        "a part of the whole header | >s d\nACGT\n | s\t0\t1\n | >s d\nACGT\n \
             | b.bed:1: no such sequence from here on",
    ],
};

// Which bases a record covers.
const BASES: Table = Table {
    command: "maskfasta -fi a.fa -bed b.bed",
    is_exact: true,
    head: "name | first | second | output",
    rows: &[
        "records over a line's end | >s d\nACGTAC\nGTAC | s\t4\t8\n | >s d\nACGTNN\nNNAC",
        "a record past the end of the sequence | >s\nACGT\n | s\t10\t20\n | >s\nACGT\n",
        "a record over the end of the sequence | >s\nACGT\n | s\t2\t20\n | >s\nACNN\n",
        "carriage returns before the line feeds | >s\r\nACGT\r\n | s\t1\t2\n | >s\r\nANGT\r\n",
        "a lone carriage return at the end of the last line | >s\r\nACGT\r | s\t1\t2\n \
             | >s\r\nANGT\r",
        "a record over all positions | >s\nAC\nGT\n | s\t0\t999999999999\n | >s\nNN\nNN\n",
    ],
};

// Which block masks which sequence.
const BLOCKS: Table = Table {
    command: "maskfasta -fi a.fa -bed b.bed",
    is_exact: true,
    head: "name | first | second | output",
    rows: &[
        "two blocks and two sequences of one name | >s\nAAAA\n>t\nCCCC\n>s\nGGGG\n \
             | s\t0\t1\nt\t0\t1\ns\t0\t1\n | >s\nNAAA\n>t\nNCCC\n>s\nNGGG\n",
        "a block behind that of the sequence between | >s\nAAAA\n>t\nCCCC\n>s\nGGGG\n \
             | t\t0\t1\ns\t0\t1\n | >s\nAAAA\n>t\nNCCC\n>s\nNGGG\n",
        "one block and two sequences of one name | >s\nAA\n>s\nCC\n | s\t0\t1\ns\t1\t2\n \
             | >s\nNN\n>s\nCC\n",
        "a sequence without records between others | >a\nAA\n>b\nCC\n>c\nGG\n | a\t0\t1\nc\t1\t2\n \
             | >a\nNA\n>b\nCC\n>c\nGN\n",
    ],
};

// Names of sequences, and records over several lines.
const NAMES: Table = Table {
    command: "maskfasta -fi a.fa -bed b.bed",
    is_exact: true,
    head: "name | first | second | output",
    rows: &[
        "a name before a tab | >s\td\nACGT\n | s\t0\t1\n | >s\td\nNCGT\n",
        "a record over the end of a line, and the next sequence | >s\nAC\nGT\n>t\nTTTT\n \
             | s\t1\t3\nt\t0\t1\n | >s\nAN\nNT\n>t\nNTTT\n",
        "a record over several lines | >s\nAC\nGT\nAC\nGT\n | s\t1\t7\n | >s\nAN\nNN\nNN\nNT\n",
        "a record from a line's end on | >s\nAC\nGT\n | s\t2\t3\n | >s\nAC\nNT\n",
        "a record up to a line's end | >s\nAC\nGT\n | s\t0\t2\n | >s\nNN\nGT\n",
        "records one over another | >s\nACGTAC\n | s\t0\t3\ns\t1\t2\ns\t2\t4\n | >s\nNNNNAC\n",
    ],
};

// Line ends, blank lines and empty inputs.
const LINES: Table = Table {
    command: "maskfasta -fi a.fa -bed b.bed",
    is_exact: true,
    head: "name | first | second | output",
    rows: &[
        "lines that end in CR LF | >s\r\nACGT\r\nAC\r\n | s\t3\t5\n | >s\r\nACGN\r\nNC\r\n",
        "a last line that ends in CR | >s\r\nAC\r | s\t1\t9\n | >s\r\nAN\r",
        "blank lines before the first header | \n\r\n>s\nAC\n | s\t0\t1\n | \n\r\n>s\nNC\n",
        "blank lines between bases | >s\nAC\n\n\r\nGT\n | s\t1\t3\n | >s\nAN\n\n\r\nNT\n",
        "a header as the last line | >s\nAC\n>t\n | s\t0\t2\nt\t0\t5\n | >s\nNN\n>t\n",
        "a header without a line end | >s | s\t0\t2\n | >s",
        "an empty name without records | >\nACGT\n | | >\nACGT\n",
        "header lines and further columns of the second input | >s\nACGT\n \
             | # a\ntrack x\n\ns\t0\t1\tname\t0\t-\nbrowser y\ns\t2\t3\n | >s\nNCNT\n",
        "no records | >s\nACGT\n | | >s\nACGT\n",
        "nothing in either input | | |",
    ],
};

// Lines that a later record decides.
const AHEAD: Table = Table {
    command: "maskfasta -fi a.fa -bed b.bed",
    is_exact: true,
    head: "name | first | second | output",
    rows: &[
        "a record several lines ahead | >s\nAC\nGT\n\nAA\nCC\nGG\n | s\t7\t8\n \
             | >s\nAC\nGT\n\nAA\nCN\nGG\n",
        "a record at the end of a line several lines ahead | >s\nAC\nGT\nAA\nCC\n | s\t4\t5\n \
             | >s\nAC\nGT\nNA\nCC\n",
        "a record ahead in the sequence behind | >s\nAC\nGT\n>t\nAA\nCC\n | t\t2\t3\n \
             | >s\nAC\nGT\n>t\nAA\nNC\n",
        "a record ahead past the end of its sequence | >s\nAC\nGT\n>s\nAA\nCC\nGG\n | s\t5\t6\n \
             | >s\nAC\nGT\n>s\nAA\nCC\nGG\n",
        "the same name behind a sequence that was passed | >s\nAC\nGT\n>t\nAA\n>s\nAA\nCC\n \
             | t\t0\t1\ns\t3\t4\n | >s\nAC\nGT\n>t\nNA\n>s\nAA\nCN\n",
        "a block that goes over to the next sequence | >s\nAC\nGT\nAA\n>t\nCC\nGG\n \
             | s\t3\t4\nt\t3\t4\n | >s\nAC\nGN\nAA\n>t\nCC\nGN\n",
        "a record over two lines while another is ahead | >s\nACGT\nACGT\nACGT\nACGT\n \
             | s\t2\t7\ns\t14\t15\n | >s\nACNN\nNNNT\nACGT\nACNT\n",
        "line ends before a record ahead | >s\r\nAC\r\n\r\nGT\nAA\r | s\t50\t60\n \
             | >s\r\nAC\r\n\r\nGT\nAA\r",
        "one line end of CR LF among others, and a record in the sequence behind \
             | >s\nAC\n\nGT\r\nAA\nCC\n>t\nGG\nTT\nAC | t\t5\t6\n \
             | >s\nAC\n\nGT\r\nAA\nCC\n>t\nGG\nTT\nAN",
        "lines behind the last record, and one without a line feed | >s\nAC\nGT\nAA\n>t\nCC\n\nGG \
             | s\t0\t1\n | >s\nNC\nGT\nAA\n>t\nCC\n\nGG",
    ],
};

// Records whose sequence doesn't come.
const UNUSED: Table = Table {
    command: "maskfasta -fi a.fa -bed b.bed",
    is_exact: true,
    head: "name | first | second | output | fault",
    rows: &[
        "no such sequence | >s\nACGT\n | t\t0\t2\n | >s\nACGT\n \
             | b.bed:1: no such sequence from here on",
        "a block whose sequence came earlier | >s\nAA\n>t\nCC\n | t\t0\t1\ns\t0\t1\n \
             | >s\nAA\n>t\nNC\n | b.bed:2: no such sequence from here on",
        "blocks behind one without a sequence | >s\nAA\n>t\nCC\n | u\t0\t1\nt\t0\t1\n \
             | >s\nAA\n>t\nCC\n | b.bed:1: no such sequence from here on",
        "no sequence, told before a later fault | >s\nAAAA\n | t\t0\t2\nt\tx\t5\n | >s\nAAAA\n \
             | b.bed:1: no such sequence from here on",
        "no sequence behind a block that has one, told before a later fault | >s\nAA\n \
             | s\t0\t1\nt\t0\t1\ns\tx\t2\n | >s\nNA\n | b.bed:2: no such sequence from here on",
        "an empty name | >\nACGT\n> s\nACGT\n | s\t0\t1\n | >\nACGT\n> s\nACGT\n \
             | b.bed:1: no such sequence from here on",
        "records without a line | | s\t0\t1\n | | b.bed:1: no such sequence from here on",
        "blank lines alone | \n\n | s\t0\t1\n | \n\n | b.bed:1: no such sequence from here on",
        "a block without a sequence and several lines behind | >s\nAC\nGT\nAA\n>t\nCC\nGG\n \
             | u\t0\t1\nt\t0\t1\n | >s\nAC\nGT\nAA\n>t\nCC\nGG\n \
             | b.bed:1: no such sequence from here on",
    ],
};

// Which fault is reported, and which lines before it.
const FAULTS: Table = Table {
    command: "maskfasta -fi a.fa -bed b.bed",
    is_exact: true,
    head: "name | first | second | output | fault",
    rows: &[
        "a fault without a line | | s\t0\n | | b.bed:1: too few columns",
        "text before the first header | ACGT\n>s\n | s\t0\t1\n | \
             | a.fa:1: text before the first header",
        "text behind a blank line, before the first header | \nACGT\n>s\n | s\t0\t1\n | \n \
             | a.fa:2: text before the first header",
        "a first input at fault before the second | ACGT\n>s\n | s\tx\t1\n | \
             | a.fa:1: text before the first header",
        "a second input at fault that no line asks for | \nACGT\n | s\tx\t1\n | \n \
             | a.fa:2: text before the first header",
        "records out of order in a block | >s\nAAAA\n | s\t3\t4\ns\t1\t2\n | >s\n \
             | b.bed:2: record is out of order",
        "a fault before the first record | >s\nAAAA\n | s\tx\t2\n | \
             | b.bed:1: start is not a number",
        "a fault decides no line | >s\nAAAA\nCCCC\n | s\t0\t1\ns\tx\t2\n | >s\n \
             | b.bed:2: start is not a number",
        "a fault behind what decides all lines | >s\nAA\n | s\t0\t1\ns\t5\t6\ns\tx\t1\n | >s\nNA\n \
             | b.bed:3: start is not a number",
        "a line decided by a record at its end | >s\nAA\n | s\t2\t6\ns\tx\t1\n | >s\nAA\n \
             | b.bed:2: start is not a number",
        "a line that a record before its end leaves open | >s\nAA\n | s\t1\t6\ns\tx\t1\n | >s\n \
             | b.bed:2: start is not a number",
    ],
};

#[test]
fn masked_bases(rt: HostRuntime) -> Result<(), Fail> {
    check_tables(
        &rt,
        rt.alloc(),
        &[OPTIONS, FULL_HEADERS, BASES, BLOCKS, NAMES],
    )
}

#[test]
fn lines_and_records_ahead(rt: HostRuntime) -> Result<(), Fail> {
    check_tables(&rt, rt.alloc(), &[LINES, AHEAD])
}

#[test]
fn faults(rt: HostRuntime) -> Result<(), Fail> {
    check_tables(&rt, rt.alloc(), &[UNUSED, FAULTS])
}

// Sixty bases after the first one of a line.
const BASES_BEHIND: &[u8] = b"CGTACGTACGTACGTACGTACGTACGTACGTACGTACGTACGTACGTACGTACGTACGTA";

// Several blocks of lines, each of which begins with A or, for the one of this index, with N. One
// of them is longer than a block, and some end in CR LF.
fn long_sequence(alloc: Global, index: u64) -> Result<Vec<u8>, AllocError> {
    let mut text = Vec::from_slice(alloc, b">s\n")?;
    for line in 0..600_u64 {
        text.push(if line == index { b'N' } else { b'A' })?;
        let times = if line == 300 { 200 } else { 1 };
        for _ in 0..times {
            text.extend_from_slice(BASES_BEHIND)?;
        }
        let end: &[u8] = if line % 100 == 50 { b"\r\n" } else { b"\n" };
        text.extend_from_slice(end)?;
    }
    Ok(text)
}

// A record on the first base of the line of this index, at most the last one or one after it.
fn on_first_base(alloc: Global, index: u64) -> Result<String, AllocError> {
    let line = index.min(600);
    let longer = if line > 300 { 199 * 60 } else { 0 };
    let start = 61 * line + longer;
    format!(in alloc; "s\t{}\t{}\n", start, start + 1)
}

// The line of this index is masked by a record on its first base, and no other line is.
fn check_line(rt: &impl Abort, alloc: Global, text: &[u8], index: u64) -> Result<(), Fail> {
    let record = on_first_base(alloc, index)?;
    let masked = long_sequence(alloc, index)?;
    let devices = Devices {
        genome: (b"", whole(1)),
        first: (text, whole(8192)),
        second: (record.as_str().as_bytes(), whole(8192)),
        out: whole(8192),
    };
    let answer = run_words(alloc, MASKFASTA, &devices)?;
    expect(rt, &answer, masked.as_slice(), b"", record.as_str());
    Ok(())
}

// Lines that stay are copied through several at once, up to the end of a block, a line that ends
// otherwise, or the record.
#[test]
fn a_record_after_several_blocks(rt: HostRuntime) -> Result<(), Fail> {
    let text = long_sequence(rt.alloc(), 600)?;
    for index in [0, 1, 49, 50, 51, 134, 135, 299, 300, 301, 599, 600] {
        check_line(&rt, rt.alloc(), text.as_slice(), index)?;
    }
    Ok(())
}
