//! Tables of texts whose bytes are looked at in blocks.

use super::*;
use std::alloc::{AllocError, Global};
use std::test::Fail;

// The first odd line of a text that comes in blocks of this many bytes, with its number.
fn odd_of(text: &[u8], size: usize) -> Option<(Oddity, u64)> {
    let mut watch = ByteWatch::new();
    let mut line = 1_u64;
    for block in text.chunks(size.max(1)) {
        if let Some(found) = watch.look(block) {
            return Some((found.oddity, line.saturating_add(found.feeds)));
        }
        line = line.saturating_add(feeds_in(block));
    }
    Some((watch.finish()?, line))
}

// A text, and its first odd line.
type Row<'a> = (&'a [u8], Option<(Oddity, u64)>);

const ROWS: [Row; 23] = [
    (b"", None),
    (b"chr1\t1\t5\nchr1\t4\t9", None),
    (b"chr1\t1\t5\r\nchr1\t4\t9\r\n", None),
    (b"#\n# a comment\n#\n", None),
    (b"##fileformat=VC\n##fileformat=vcf\n", None),
    (b"a\n\x1f\x8b\n\xef\xbb\xbf\n", None),
    (b"\x1e\x1f\n", None),
    (b"\n", Some((Oddity::Blank, 1))),
    (b"chr1\t1\t5\n\nchr1\t4\t9\n", Some((Oddity::Blank, 2))),
    (b"chr1\t1\t5\n\r\nchr1\t4\t9\n", Some((Oddity::Blank, 2))),
    (b"chr1\t1\t5\n\r", Some((Oddity::Blank, 2))),
    (b"\r", Some((Oddity::Blank, 1))),
    (b"a\nchr1\t4\t9\r\r\n", Some((Oddity::DoubleReturn, 2))),
    (b"\r\r", Some((Oddity::DoubleReturn, 1))),
    (b"chr1\t1\t5\nchr1\t4\t9\0\n", Some((Oddity::Nul, 2))),
    (b"\0", Some((Oddity::Nul, 1))),
    (b"##fileformat=VCFv4.2\n", Some((Oddity::Vcf, 1))),
    (b"#a\n##fileformat=VCF", Some((Oddity::Vcf, 2))),
    (
        b"\xef\xbb\xbfchr1\t1\t5\n",
        Some((Oddity::ByteOrderMark, 1)),
    ),
    (b"\x1f\x8bchr1\t1\t5\n", Some((Oddity::Gzip, 1))),
    (b"\x1f\x8c\n", Some((Oddity::Gzip, 1))),
    (b"\x1f\x8b\n\n", Some((Oddity::Gzip, 1))),
    (b"\xef\xbb\n\n", Some((Oddity::Blank, 2))),
];

const SIZES: [usize; 9] = [1, 2, 3, 5, 16, 63, 64, 65, 8192];

#[test]
fn odd_lines_are_found(rt: HostRuntime) {
    for (text, want) in &ROWS {
        for size in &SIZES {
            assert_eq!(rt; odd_of(text, *size), *want, "{text:?} by {size}");
        }
    }
}

// A line of this many bytes after one of 70, and another after it.
fn long_line(alloc: Global, length: u64) -> Result<Vec<u8>, AllocError> {
    let mut text = Vec::new(alloc);
    for _ in 0..70 {
        text.push(b'x')?;
    }
    text.push(b'\n')?;
    for _ in 0..length {
        text.push(b'y')?;
    }
    text.extend_from_slice(b"\nz\n")?;
    Ok(text)
}

#[test]
fn long_lines_are_found(rt: HostRuntime) -> Result<(), Fail> {
    let longest = long_line(rt.alloc(), 1015)?;
    let longer = long_line(rt.alloc(), 1016)?;
    for size in &SIZES {
        assert_eq!(rt; odd_of(longest.as_slice(), *size), None, "{size}");
        assert_eq!(rt;
            odd_of(longer.as_slice(), *size),
            Some((Oddity::Long, 2)),
            "{size}"
        );
    }
    Ok(())
}
