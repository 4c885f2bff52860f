//! Up to which length bedtools compares a fraction exactly.

ghost use Rattle.std.specs.Prelude.{◌≡◌};
ghost use Rattle.bt_front.specs.model.Verdict.{exact_below};

/// Below which length a fraction of a record, in billionths, is compared exactly by seven digits.
pub(crate) fn exact_below(billionths: u64) -> u64
    ensures { result ≡ exact_below billionths }
{
    if billionths % 1_000_000_000 == 0 {
        16_777_000
    } else if billionths % 100_000_000 == 0 {
        1_677_000
    } else if billionths % 10_000_000 == 0 {
        167_000
    } else if billionths % 1_000_000 == 0 {
        16_000
    } else if billionths % 100_000 == 0 {
        1_000
    } else {
        0
    }
}
