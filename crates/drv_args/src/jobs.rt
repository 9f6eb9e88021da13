//! How many jobs may be under way at once, and the number that a word names.

ghost use Rattle.drv_args.specs.Jobs.{digit_of, in_range, jobs_named, joined, number_of, tens_of};
ghost use Rattle.std.specs.Prelude.{◌≡◌, ◌<◌, IfSome};

use std::marker::Model;

/// The most sources that may be under way at once.
const MOST_JOBS: usize = 64;

/// How many sources may be under way at once, from 1 to 64.
#[derive(Clone, Copy)]
pub struct Jobs {
    number: usize,
}

impl Model for Jobs {
    ghost use Rattle.std.specs.Prelude.{◌≤◌, ℕ};

    ghost Value = { ℕ };

    ghost view = { λ j. j.number };

    ghost invariant = { λ j. (1 ≤ j.number) × (j.number ≤ 64) };

    ghost inverse = { λ n. record { number = n } };
}

impl Jobs {
    ghost use Rattle.std.specs.Prelude.{◌≡◌, ◌≤◌};

    /// This many sources, if that is a number from 1 to 64.
    pub fn new(number: usize) -> Option<Jobs>
        ensures { result ≡ in_range number }
    {
        if 1 <= number && number <= MOST_JOBS {
            return Some(Jobs { number });
        }
        None
    }

    /// One source after another.
    pub(crate) fn one() -> Jobs
        ensures { result ≡ 1 }
    {
        Jobs { number: 1 }
    }

    /// The number.
    pub fn number(self) -> usize
        ensures number { result ≡ self }
        ensures some { 1 ≤ result }
        ensures most { result ≤ 64 }
    {
        self.number
    }
}

/// The value of a decimal digit.
fn digit(byte: u8) -> Option<usize>
    ensures is { result ≡ digit_of byte }
    ensures small { IfSome result (λ d. d < 10) }
{
    match byte {
        b'0'..=b'9' => Some((byte - b'0') as usize),
        _ => None,
    }
}

/// The value of the first of two digits.
fn tens(byte: u8) -> Option<usize>
    ensures is { result ≡ tens_of byte }
    ensures small { IfSome result (λ d. d < 10) }
{
    match byte {
        b'1'..=b'9' => Some((byte - b'0') as usize),
        _ => None,
    }
}

/// The number of two digits.
fn pair(high: u8, low: u8) -> Option<usize>
    ensures { result ≡ joined (tens_of high) (digit_of low) }
{
    Some(tens(high)? * 10 + digit(low)?)
}

/// The number of one or two digits, without a leading zero.
fn number(digits: &[u8]) -> Option<usize>
    ensures { result ≡ number_of digits.now }
{
    match digits {
        [one] => digit(*one),
        [high, low] => pair(*high, *low),
        _ => None,
    }
}

/// The number of jobs after `--jobs`: an equals sign, and a number from 1 to 64 in decimal digits
/// without a leading zero.
pub(crate) fn jobs_named(following: &[u8]) -> Option<Jobs>
    ensures { result ≡ jobs_named following.now }
{
    match following {
        [b'=', digits @ ..] => Jobs::new(number(digits)?),
        _ => None,
    }
}
