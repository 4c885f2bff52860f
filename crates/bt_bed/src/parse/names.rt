//! Names of chromosomes: whether two are equal.

ghost use Rattle.std.specs.Prelude.{◌≡◌, ◌-◌, ◌≤◌, ◌<◌, IfSome, bytes_eq, drop, length, take};
ghost use Rattle.std.specs.Int.{from_le_bytes, w32, w64};

// The longest name that two words of four bytes cover.
const SHORT: usize = 8;

// The longest one that two words of eight bytes cover.
const LONG: usize = 16;

// The longest one that two such names cover.
const LONGEST: usize = 32;

/// Whether two names are equal. The first and the last bytes of a name of four to sixteen bytes are read as one
/// number each, of four or eight bytes, and a name of up to thirty-two as two of sixteen: names are compared several
/// times a record.
#[inline(always)]
pub fn is_same_name(left: &[u8], right: &[u8]) -> bool
    ensures { result ≡ bytes_eq left.now right.now }
{
    if left.len() != right.len() || left.len() > LONGEST {
        return is_same_text(left, right);
    }
    if left.len() > LONG {
        return have_same_halves(left, right);
    }
    if left.len() > SHORT {
        return have_same_ends(left, right);
    }
    let (Some(ends), Some(others)) = (ends_of(left), ends_of(right)) else {
        return is_same_text(left, right);
    };
    ends.0 == others.0 && ends.1 == others.1
}

// Whether two names of the same length, nine to sixteen bytes, are equal.
#[inline(always)]
fn have_same_ends(left: &[u8], right: &[u8]) -> bool
    requires same { length left.now ≡ length right.now }
    requires long { 8 < length left.now }
    requires short { length left.now ≤ 16 }
    ensures { result ≡ bytes_eq left.now right.now }
{
    let (Some(words), Some(other)) = (long_ends_of(left), long_ends_of(right)) else {
        // Both have eight bytes, so this isn't reached.
        return is_same_text(left, right);
    };
    words.0 == other.0 && words.1 == other.1
}

// Whether two names of the same length, seventeen to thirty-two bytes, are equal. Those of an assembly's parts mostly
// differ in their last bytes.
#[inline(always)]
fn have_same_halves(left: &[u8], right: &[u8]) -> bool
    requires same { length left.now ≡ length right.now }
    requires long { 16 < length left.now }
    requires short { length left.now ≤ 32 }
    ensures { result ≡ bytes_eq left.now right.now }
{
    let last = left.len() - LONG;
    have_same_ends(&left[last..], &right[last..]) && have_same_ends(&left[..LONG], &right[..LONG])
}

// Whether two names of any length are equal. Those of an assembly's parts mostly differ in their last byte.
#[cold]
#[inline(never)]
fn is_same_text(left: &[u8], right: &[u8]) -> bool
    ensures { result ≡ bytes_eq left.now right.now }
{
    if left.last() != right.last() {
        return false;
    }
    left == right
}

// The first and the last four bytes of a name as one number each, if it has that many.
#[inline(always)]
fn ends_of(name: &[u8]) -> Option<(u32, u32)>
    ensures { IfSome result (λ ends. (4 ≤ length name.now)
        × (ends.0 ≡ from_le_bytes w32 (take 4 name.now))
        × (ends.1 ≡ from_le_bytes w32 (drop (length name.now - 4) name.now))) }
{
    let first = name.first_chunk::<4>()?;
    let last = name.last_chunk::<4>()?;
    Some((u32::from_le_bytes(*first), u32::from_le_bytes(*last)))
}

// The first and the last eight bytes, if it has that many.
#[inline(always)]
fn long_ends_of(name: &[u8]) -> Option<(u64, u64)>
    ensures { IfSome result (λ ends. (8 ≤ length name.now)
        × (ends.0 ≡ from_le_bytes w64 (take 8 name.now))
        × (ends.1 ≡ from_le_bytes w64 (drop (length name.now - 8) name.now))) }
{
    let first = name.first_chunk::<8>()?;
    let last = name.last_chunk::<8>()?;
    Some((u64::from_le_bytes(*first), u64::from_le_bytes(*last)))
}
