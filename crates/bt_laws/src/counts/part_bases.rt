//! The bases that intersect writes and those that subtract leaves, as the contract of a function that does nothing.

ghost use Rattle.bt_laws.specs.Counts.{intersect_and_subtract_part};

/// What intersect and subtract write part the bases of the first input, if no two of its records overlap; without `-f`
/// and `-s`.
pub fn intersect_and_subtract_part()
    ensures { intersect_and_subtract_part }
{}
