//! Names of chromosomes that bedtools may pass over.

ghost use Rattle.std.specs.Prelude.{◌≡◌, drop};
ghost use Rattle.bt_front.specs.model.Odd.{begins_as, begins_header, is_chrom, is_header_name, is_space, is_spaced, is_spaced_chr};

/// Whether bedtools may pass over a line with this name, as a header line: some commands do.
pub(crate) fn is_header_name(name: &[u8]) -> bool
    ensures { result ≡ is_header_name name.now }
{
    begins_header(name) || is_spaced_chr(name) || is_chrom(name)
}

// Whether it begins as a header line does, whatever comes after it.
fn begins_header(name: &[u8]) -> bool
    ensures { result ≡ begins_header name.now }
{
    begins_as(name, b"!")
        || begins_as(name, b">")
        || begins_as(name, b"track")
        || begins_as(name, b"browser")
        || begins_as(name, b"visibility")
}

// Whether it is `chr` with a space after it.
fn is_spaced_chr(name: &[u8]) -> bool
    ensures { result ≡ is_spaced_chr name.now }
{
    begins_as(name, b"chr") && is_space_at(name, 3)
}

// Whether it is the word `chrom`, or has a space after it.
fn is_chrom(name: &[u8]) -> bool
    ensures { result ≡ is_chrom name.now }
{
    begins_as(name, b"chrom") && (name.len() == 5 || is_space_at(name, 5))
}

// Whether a byte that isn't printed as a letter, but that bedtools takes for a space, stands there.
#[tactic(auto, using(crate::proofs::lemmas::survey::NameLemmas::spaced_at, crate::proofs::lemmas::survey::NameLemmas::spaced_past))]
fn is_space_at(name: &[u8], at: usize) -> bool
    ensures { result ≡ is_spaced (drop at name.now) }
{
    at < name.len() && is_space(name[at])
}

// Whether bedtools takes it for a space. A tab isn't in a name.
fn is_space(byte: u8) -> bool
    ensures { result ≡ is_space byte }
{
    matches!(byte, b' ' | 11 | 12 | b'\r')
}

/// Whether a name begins with a word of lowercase letters, whatever the case of its own.
#[tactic(auto, using(crate::proofs::lemmas::survey::NameLemmas::begins_next, crate::proofs::lemmas::survey::NameLemmas::begins_end, crate::proofs::lemmas::survey::NameLemmas::begins_short))]
pub(crate) fn begins_as(name: &[u8], word: &[u8]) -> bool
    ensures { result ≡ begins_as word.now name.now }
{
    if name.len() < word.len() {
        return false;
    }
    let mut at = 0;
    while at < word.len() {
        if name[at].to_ascii_lowercase() != word[at] {
            return false;
        }
        at += 1;
    }
    true
}
