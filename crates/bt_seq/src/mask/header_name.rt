//! Names of sequences.

ghost use Rattle.std.specs.Prelude.{◌≡◌, ◌≤◌, length, not, take, true};
ghost use Rattle.std.specs.List.{take_while};
ghost use Rattle.bt_bed.specs.model.BedLine.{ends_word};
ghost use Rattle.bt_seq.specs.model.Fasta.{is_sequence_header, name_in};

use bt_lines::length_before;

// Whether a line is a header.
pub(crate) fn is_header(text: &[u8]) -> bool
    ensures { result ≡ is_sequence_header text.now }
{
    matches!(text, [b'>', ..])
}

// The name that a header gives: up to the first space or tab, or whole.
pub(crate) fn name_in(full: bool, text: &[u8]) -> &[u8]
    requires { is_sequence_header text.now ≡ true }
    ensures { result.now ≡ name_in full text.now }
{
    let name = &text[1..];
    if full {
        return name;
    }
    &name[..name_length(name)]
}

// How many bytes there are before the first space or tab, or in all.
#[tactic(auto, using(crate::proofs::lemmas::mask::bases::MaskingLemmas::name_within))]
fn name_length(text: &[u8]) -> usize
    ensures within { result ≤ length text.now }
    ensures name { take result text.now ≡ take_while (λ byte. not (ends_word byte)) text.now }
{
    let end = length_before(b' ', text);
    length_before(b'\t', &text[..end])
}
