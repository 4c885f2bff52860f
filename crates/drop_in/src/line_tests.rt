//! The lines that are written, and the first words that are read.

use crate::line::Line;
use crate::pipes::Pipes;
use std::process::Abort;
use std::test::Fail;

#[test]
fn lines_are_written(rt: HostRuntime) -> Result<(), Fail> {
    let rows = [
        (Line::Begins, "r\n"),
        (Line::Dunekettle, "d\n"),
        (Line::Original("/usr/bin/bedtools"), "o /usr/bin/bedtools\n"),
        (
            Line::Stream(3, "/usr/bin/bedtools"),
            "s 3 /usr/bin/bedtools\n",
        ),
        (Line::Zipped(12), "z 12\n"),
        (
            Line::Shell("it limits the records"),
            "t it limits the records\n",
        ),
    ];
    for (line, wanted) in &rows {
        let text = line.text(rt.alloc())?;
        assert!(rt; text.as_slice() == wanted.as_bytes(), "{wanted}");
    }
    Ok(())
}

#[test]
fn first_words_are_read(rt: HostRuntime) -> Result<(), Fail> {
    let alone = Pipes::of(rt.alloc(), "8").ok_or("8")?;
    assert!(rt; alone.line.as_str() == "/dev/fd/8");
    assert!(rt; alone.text_of(3).is_none());
    let both = Pipes::of(rt.alloc(), "8,3=5,7=14").ok_or("8,3=5,7=14")?;
    assert!(rt; both.line.as_str() == "/dev/fd/8");
    assert!(rt; both.text_of(3) == Some("/dev/fd/5"));
    assert!(rt; both.text_of(7) == Some("/dev/fd/14"));
    assert!(rt; both.text_of(5).is_none());
    assert!(rt; both.has_text("/dev/fd/14") && !both.has_text("/dev/fd/8"));
    for word in ["", "x", "8,", "8,3", "8,3=", "8,=5", "8,3=/", "-1", "8 "] {
        assert!(rt; Pipes::of(rt.alloc(), word).is_none(), "{word}");
    }
    Ok(())
}
