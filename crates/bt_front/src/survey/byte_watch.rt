//! What the bytes of a text show, one block at a time: what no record shows, as blank lines, NUL or long lines.

ghost use Rattle.std.specs.Prelude.{◌≡◌, ◌++◌, ◌+◌, ◌<◌, ◌≤◌, IfNone, IfSome, false, length, map};
ghost use Rattle.std.specs.Simd.Lanes.{mask_l};
ghost use Rattle.bt_front.specs.calls.Bytes.{feeds_in};
ghost use Rattle.bt_front.specs.model.Odd.{has_special, is_feed, is_mark};

use crate::survey::oddity::Oddity;
use memchr::memrchr;
use std::simd::prelude::*;

// The most bytes of a line that bedtools takes.
const LONGEST: usize = 1015;

// How many bytes the beginning of VCF has.
const VCF_LENGTH: usize = 16;

const VCF: [u8; 16] = *b"##fileformat=VCF";

/// The first odd line that a block showed.
#[derive(Clone, Copy, Debug, PartialEq, Eq)]
pub(crate) struct OddBytes {
    pub(crate) oddity: Oddity,
    /// How many line feeds of the block come before it.
    pub(crate) feeds: u64,
}

/// Looks at a text as it passes, up to the first odd line.
#[derive(Clone, Copy, Debug)]
pub(crate) struct ByteWatch {
    // The byte before, a line feed at the beginning of a line.
    last: u8,
    // How many bytes of the line have passed.
    line: usize,
    // How many of them are as those of `VCF`, if all are.
    vcf: usize,
    // Whether no line feed has passed.
    is_first: bool,
    // The first byte of the line, if that is the first line.
    first: u8,
}

impl ByteWatch {
    ghost use Rattle.std.specs.Prelude.{[], ◌==◌, List, Option, Some, drop, if◌then◌else◌, take, true, ℕ};
    ghost use Rattle.bt_front.specs.calls.Bytes.{EndsBytes, IsOddAfter, ShowsBytes};
    ghost use Rattle.bt_front.specs.inside.Watching.{AreQuiet, IsFound, IsPassed, after, are_plain, is_blank_end, is_only_return, may_be_odd, next_vcf, oddity_at, stepped};

    /// Before the first byte.
    pub(crate) fn new() -> ByteWatch
        ensures { ShowsBytes [] result }
    {
        ByteWatch {
            last: b'\n',
            line: 0,
            vcf: 0,
            is_first: true,
            first: 0,
        }
    }

    /// Looks at the next bytes. The first odd line ends the watch.
    pub(crate) fn look(&mut self, block: &[u8]) -> Option<OddBytes>
        ensures plain { IfNone result ((before : List ℕ) → ShowsBytes before self.old
            → ShowsBytes (before ++ block.now) self.new) }
        ensures odd { IfSome result (λ found. (before : List ℕ) → ShowsBytes before self.old
            → IsOddAfter before block.now found) }
    {
        self.pass(block)
    }

    /// At the end of the text: a last line without a line feed may be blank.
    pub(crate) fn finish(&self) -> Option<Oddity>
        ensures { (before : List ℕ) → ShowsBytes before self.now → EndsBytes before result }
    {
        if self.is_only_return() {
            Some(Oddity::Blank)
        } else {
            None
        }
    }

    // Passes a block, up to the first byte with which something is odd.
    fn pass(&mut self, block: &[u8]) -> Option<OddBytes>
        ensures plain { IfNone result (are_plain self.old block.now ≡ true) }
        ensures passed { IfNone result (self.new ≡ after self.old block.now) }
        ensures odd { IfSome result (λ found. IsFound self.old block.now found) }
    {
        if block.is_empty() {
            return None;
        }
        if self.may_be_odd(block[0]) || has_special(block) {
            self.pass_bytes(block)
        } else {
            self.pass_lines(block)
        }
    }

    // Whether something may be odd with the byte that comes next but the length of the line, or is begun that may become odd.
    fn may_be_odd(&self, byte: u8) -> bool
        ensures { result ≡ may_be_odd self.now byte }
    {
        let first = self.first_with(byte);
        (byte == b'\n' && self.ends_blank())
            || (self.is_first && (first == 0x1f || first == 0xef))
            || self.vcf > 0
            || self.line > LONGEST
    }

    // The first byte of the line, if it goes on with this one.
    fn first_with(&self, byte: u8) -> u8
        ensures { result ≡ (if self.now.line == 0 then byte else self.now.first) }
    {
        if self.line == 0 { byte } else { self.first }
    }

    // Whether a line that ends here is blank.
    fn ends_blank(&self) -> bool
        ensures { result ≡ is_blank_end self.now }
    {
        self.line == 0 || self.is_only_return()
    }

    // Whether the line is a CR so far.
    fn is_only_return(&self) -> bool
        ensures { result ≡ is_only_return self.now }
    {
        self.line == 1 && self.last == b'\r'
    }

    // Of bytes that have nothing else that is odd: from each line feed that a line of at most 1,015 bytes may have to the
    // next such one.
    fn pass_lines(&mut self, block: &[u8]) -> Option<OddBytes>
        requires some { 0 < length block.now }
        requires quiet { AreQuiet self.old block.now }
        ensures plain { IfNone result (are_plain self.old block.now ≡ true) }
        ensures passed { IfNone result (self.new ≡ after self.old block.now) }
        ensures odd { IfSome result (λ found. IsFound self.old block.now found) }
    {
        let mut at = 0;
        while at < block.len() && self.line <= LONGEST {
            let end = block.len().min(at + (LONGEST + 1 - self.line));
            at += self.pass_window(&block[at..end]);
        }
        if self.line <= LONGEST {
            return None;
        }
        Some(OddBytes {
            oddity: Oddity::Long,
            feeds: feeds_in(&block[..at]),
        })
    }

    // Passes the lines that end in these bytes, or all of them, and returns how many bytes it passed.
    #[inline(always)]
    fn pass_window(&mut self, window: &[u8]) -> usize
        requires some { 0 < length window.now }
        requires short { self.old.line + length window.now ≤ 1016 }
        ensures within { result ≤ length window.now }
        ensures some { 0 < result }
        ensures passed { (rest : List ℕ) → AreQuiet self.old (window.now ++ rest)
            → IsPassed self.old (take result window.now) self.new }
        ensures quiet { (rest : List ℕ) → AreQuiet self.old (window.now ++ rest) → self.new.line ≤ 1015
            → AreQuiet self.new (drop result window.now ++ rest) }
    {
        match memrchr(b'\n', window) {
            Some(found) => {
                *self = ByteWatch {
                    last: b'\n',
                    line: 0,
                    vcf: 0,
                    is_first: false,
                    first: 0,
                };
                found + 1
            }
            None => {
                *self = ByteWatch {
                    last: window[window.len() - 1],
                    line: self.line + window.len(),
                    vcf: 0,
                    is_first: self.is_first,
                    first: self.first_with(window[0]),
                };
                window.len()
            }
        }
    }

    // Byte by byte: there is a NUL, a CR, a # or a blank line, of which not all are odd.
    #[cold]
    #[inline(never)]
    fn pass_bytes(&mut self, block: &[u8]) -> Option<OddBytes>
        ensures plain { IfNone result (are_plain self.old block.now ≡ true) }
        ensures passed { IfNone result (self.new ≡ after self.old block.now) }
        ensures odd { IfSome result (λ found. IsFound self.old block.now found) }
    {
        let mut feeds = 0;
        for byte in block {
            if let Some(oddity) = self.oddity(*byte) {
                return Some(OddBytes { oddity, feeds });
            }
            self.step(*byte);
            if *byte == b'\n' {
                feeds += 1;
            }
        }
        None
    }

    // What is odd with the byte that comes next.
    fn oddity(&self, byte: u8) -> Option<Oddity>
        ensures { result ≡ oddity_at self.now byte }
    {
        if byte == b'\n' {
            return if self.ends_blank() {
                Some(Oddity::Blank)
            } else {
                None
            };
        }
        if byte == 0 {
            Some(Oddity::Nul)
        } else if byte == b'\r' && self.last == b'\r' {
            Some(Oddity::DoubleReturn)
        } else if self.line >= LONGEST {
            Some(Oddity::Long)
        } else if self.next_vcf(byte) == VCF_LENGTH {
            Some(Oddity::Vcf)
        } else if self.is_first && self.line == 0 && byte == 0x1f {
            Some(Oddity::Gzip)
        } else if self.is_first
            && self.line == 2
            && self.first == 0xef
            && self.last == 0xbb
            && byte == 0xbf
        {
            Some(Oddity::ByteOrderMark)
        } else {
            None
        }
    }

    // How many bytes of the line are as those of `VCF` after one byte more.
    fn next_vcf(&self, byte: u8) -> usize
        ensures { result ≡ next_vcf self.now byte }
    {
        if self.vcf == self.line && self.line < VCF_LENGTH && byte == VCF[self.line] {
            self.line + 1
        } else {
            0
        }
    }

    // Passes one byte.
    fn step(&mut self, byte: u8)
        ensures { self.new ≡ stepped self.old byte }
    {
        if byte == b'\n' {
            *self = ByteWatch {
                last: b'\n',
                line: 0,
                vcf: 0,
                is_first: false,
                first: 0,
            };
            return;
        }
        *self = ByteWatch {
            last: byte,
            line: if self.line > LONGEST {
                self.line
            } else {
                self.line + 1
            },
            vcf: self.next_vcf(byte),
            is_first: self.is_first,
            first: self.first_with(byte),
        };
    }
}

/// How many line feeds there are.
pub(crate) fn feeds_in(bytes: &[u8]) -> u64
    ensures { result ≡ feeds_in bytes.now }
{
    let mut count = 0_u64;
    let mut at = 0;
    while bytes.len() - at >= LANES {
        let feeds = feed_bits(u8x64::from_slice(&bytes[at..]));
        count += u64::from(feeds.count_ones());
        at += LANES;
    }
    count + few_feeds(&bytes[at..])
}

// The same, byte by byte.
fn few_feeds(bytes: &[u8]) -> u64
    ensures { result ≡ feeds_in bytes.now }
{
    bytes.iter().filter(|byte| **byte == b'\n').count() as u64
}

// Whether these bytes may have a NUL, a CR, a # or two line feeds one after the other: if it returns false, they have none.
#[inline(always)]
fn has_special(block: &[u8]) -> bool
    ensures { result ≡ false → has_special block.now ≡ false }
{
    let mut at = 0;
    while block.len() - at > LANES {
        let near = u8x64::from_slice(&block[at..]);
        let next = u8x64::from_slice(&block[at + 1..]);
        if mark_bits(near) != 0 || feed_bits(near) & feed_bits(next) != 0 {
            return true;
        }
        at += LANES;
    }
    ends_special(&block[at..])
}

// How many bytes are looked at together.
const LANES: usize = 64;

// The bits of the bytes that are NUL, CR or #.
#[inline(always)]
fn mark_bits(bytes: u8x64) -> u64
    ensures { result ≡ mask_l (map is_mark bytes) }
{
    let nuls = bytes.simd_eq(u8x64::splat(0)).to_bitmask();
    let returns = bytes.simd_eq(u8x64::splat(b'\r')).to_bitmask();
    let hashes = bytes.simd_eq(u8x64::splat(b'#')).to_bitmask();
    nuls | returns | hashes
}

// The bits of the bytes that are line feeds.
#[inline(always)]
fn feed_bits(bytes: u8x64) -> u64
    ensures { result ≡ mask_l (map is_feed bytes) }
{
    bytes.simd_eq(u8x64::splat(b'\n')).to_bitmask()
}

// The same, byte by byte.
fn ends_special(block: &[u8]) -> bool
    ensures { result ≡ has_special block.now }
{
    let mut last = b' ';
    for byte in block {
        if matches!(*byte, 0 | b'\r' | b'#') || (*byte == b'\n' && last == b'\n') {
            return true;
        }
        last = *byte;
    }
    false
}

#[cfg(test)]
mod tests;
