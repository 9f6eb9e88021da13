//! The order of texts, eight bytes at a time.

ghost use Rattle.std.specs.Cmp.Lexicographic.{slice_cmp};
ghost use Rattle.std.specs.Ordering.{nat_cmp};
ghost use Rattle.std.specs.Prelude.{◌≡◌};

use std::cmp::Ordering;

/// How eight bytes are ordered beside eight others: as the numbers that they spell are.
fn order_eight(one: &[u8; 8], other: &[u8; 8]) -> Ordering
    ensures { result ≡ slice_cmp nat_cmp one.now other.now }
{
    let number = u64::from_be_bytes(*one);
    number.cmp(&u64::from_be_bytes(*other))
}

/// How a text is ordered beside another one, byte by byte. Eight bytes at a time are compared.
pub fn order(one: &[u8], other: &[u8]) -> Ordering
    ensures { result ≡ slice_cmp nat_cmp one.now other.now }
{
    let mut left = one;
    let mut right = other;
    while let (Some((front, after)), Some((beside, behind))) = (
        left.split_first_chunk::<8>(),
        right.split_first_chunk::<8>(),
    ) {
        let found = order_eight(front, beside);
        // The first eight bytes that differ decide.
        if found.is_ne() {
            return found;
        }
        left = after;
        right = behind;
    }
    left.cmp(right)
}
