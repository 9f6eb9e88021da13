//! Versions.

ghost use Rattle.drv_funcs.specs.Code.Reading.{read_on};
ghost use Rattle.drv_funcs.specs.Versions.{compared, version};
ghost use Rattle.std.specs.Prelude.{◌≡◌, [], option_map};

use arrayvec::ArrayVec;
use std::cmp::Ordering;

/// The most parts of a version.
pub const MOST_PARTS: usize = 32;

/// The most digits of a part.
const MOST_DIGITS: u32 = 9;

/// The numbers of a version, or `None` for another text.
#[tactic(auto, using(crate::proofs::Reading::read_version, crate::proofs::Reading::has_room, crate::proofs::Reading::one_more))]
pub fn version_of(text: &[u8]) -> Option<ArrayVec<u32, MOST_PARTS>>
    ensures { option_map (λ numbers. numbers.items) result ≡ version text.now }
{
    let mut numbers = ArrayVec::new();
    let mut number: u32 = 0;
    let mut digits: u32 = 0;
    for byte in text {
        // So many digits fit into `u32`.
        if byte.is_ascii_digit() && digits < MOST_DIGITS {
            number = number * 10 + (*byte - b'0') as u32;
            digits += 1;
        } else if *byte == b'.' && 0 < digits && numbers.len() < MOST_PARTS {
            numbers.push(number);
            number = 0;
            digits = 0;
        } else {
            return None;
        }
    }
    // The last part has no dot after it.
    if 0 < digits && numbers.len() < MOST_PARTS {
        numbers.push(number);
        Some(numbers)
    } else {
        None
    }
}

/// The order of two versions: part by part as numbers, where a version is earlier than any that
/// continues it. `None` if one of the texts is not a version.
pub fn compare_versions(one: &[u8], other: &[u8]) -> Option<Ordering>
    ensures { result ≡ compared (version one.now) (version other.now) }
{
    let one = version_of(one)?;
    let other = version_of(other)?;
    Some(one.as_slice().cmp(other.as_slice()))
}
