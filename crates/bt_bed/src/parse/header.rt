//! Lines of a BED file that aren't features.

ghost use Rattle.std.specs.Prelude.{◌≡◌, false, bytes_eq};
ghost use Rattle.std.specs.List.{All};
ghost use Rattle.bt_bed.specs.model.BedLine.{ends_word, first_word, says_nothing};

/// Whether a line is blank or a header: a comment, or a line whose first word is `track` or `browser`
/// (UCSC custom tracks description). A space or a tab ends the word, and `trackX` is another one.
pub(crate) fn says_nothing(text: &[u8]) -> bool
    ensures { result ≡ says_nothing text.now }
{
    match text {
        [] | [b'#', ..] => true,
        [b't', ..] => begins_with_word(text, b"track"),
        [b'b', ..] => begins_with_word(text, b"browser"),
        _ => false,
    }
}

// Whether a text's first word is this one.
#[tactic(auto, using(crate::proofs::lemmas::parse::FeatureLemmas::word_alone, crate::proofs::lemmas::parse::FeatureLemmas::word_ended))]
fn begins_with_word(text: &[u8], word: &[u8]) -> bool
    requires { All (λ byte. ends_word byte ≡ false) word.now }
    ensures { result ≡ bytes_eq (first_word text.now) word.now }
{
    match text.strip_prefix(word) {
        None => false,
        Some([]) => true,
        Some([next, ..]) => ends_word(*next),
    }
}

// Whether a byte ends a word.
fn ends_word(byte: u8) -> bool
    ensures { result ≡ ends_word byte }
{
    matches!(byte, b' ' | b'\t')
}

#[cfg(test)]
pub(crate) mod tests {
    use super::*;

    #[rattlefmt::skip]
    pub(crate) const HEADERS: [&[u8]; 10] = [
        b"", b"#", b"#chr1\t1\t2", b"track", b"track\tx", b"track name=x", b"browser", b"browser\t",
        b"browser position", b"browser\tposition",
    ];

    const OTHERS: [&[u8]; 4] = [b"trac", b"trackX\t1\t2", b"brows er", b" track"];

    // Whether all of these lines are headers, or none.
    fn are_headers(lines: &[&[u8]], want: bool) -> bool {
        for line in lines {
            if says_nothing(line) != want {
                return false;
            }
        }
        true
    }

    #[test]
    fn headers(rt: HostRuntime) {
        assert!(rt; are_headers(&HEADERS, true));
        assert!(rt; are_headers(&OTHERS, false));
    }
}
