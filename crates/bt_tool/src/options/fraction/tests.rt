use super::*;

// Words, and the fraction that each of them denotes, in billionths.
const FRACTIONS: [(&str, Option<u64>); 9] = [
    ("0|0.|.0", Some(0)),
    ("0.000000001", Some(1)),
    (".05", Some(50_000_000)),
    ("0.1", Some(100_000_000)),
    ("0.5|.5|00.5", Some(500_000_000)),
    ("0.999999999", Some(999_999_999)),
    ("1|1.|1.000000000", Some(1_000_000_000)),
    ("0000000000000000000000000000001", Some(1_000_000_000)),
    // The first of these is an empty one.
    (
        "|.|..5|0.5.|1.000000001|1.5|2|10|1000000000000|0.5000000000|0.0000000000|\
         5e-1|+1|-0.5| 1|1 |0.5 |0,5|0.5x|x",
        None,
    ),
];

fn first_misread(cases: &[(&'static str, Option<u64>)]) -> Option<&'static str> {
    for (words, billionths) in cases {
        for word in words.split('|') {
            if fraction(word) != *billionths {
                return Some(word);
            }
        }
    }
    None
}

#[test]
fn words_denote_fractions(rt: HostRuntime) {
    assert_eq!(rt; first_misread(&FRACTIONS), None);
}
