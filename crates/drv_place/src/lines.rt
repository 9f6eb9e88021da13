//! The line of a text that has a byte.

ghost use Rattle.drv_place.specs.LinePlaces.{line_after, line_before, line_number};
ghost use Rattle.drv_specs.specs.Lines.{ends_line};
ghost use Rattle.std.specs.List.{position};
ghost use Rattle.std.specs.Prelude.{◌≡◌, ◌<◌, ◌≤◌, IfNone, IfSome, filter, length, suc};

use crate::slices::{after_first, first_of};
use bstr::ByteSlice;
use drv_words::split_at_last;

/// What follows the first newline.
#[tactic(auto, using(crate::proofs::Newlines::one_more, crate::proofs::Newlines::none_left))]
fn behind_newline(bytes: &[u8]) -> Option<&[u8]>
    ensures none { IfNone result (length (filter ends_line bytes.now) ≡ 0) }
    ensures some { IfSome result (λ rest. length (filter ends_line bytes.now)
        ≡ suc (length (filter ends_line rest.now))) }
    ensures shorter { IfSome result (λ rest. length rest.now < length bytes.now) }
{
    match bytes.find_byte(b'\n') {
        Some(at) => Some(after_first(bytes, at + 1)),
        None => None,
    }
}

/// How many newlines there are: it goes from one to the next, and doesn't look at each byte.
fn count_newlines(bytes: &[u8]) -> usize
    ensures is { result ≡ length (filter ends_line bytes.now) }
    ensures few { result ≤ length bytes.now }
{
    let mut count = 0;
    let mut left = bytes;
    while let Some(rest) = behind_newline(left) {
        count += 1;
        left = rest;
    }
    count
}

/// The place of the first newline.
#[tactic(auto, using(drv_specs::proofs::Sliced::place_found))]
fn newline_in(bytes: &[u8]) -> Option<usize>
    ensures is { result ≡ position ends_line bytes.now }
    ensures within { IfSome result (λ at. at < length bytes.now) }
{
    bytes.find_byte(b'\n')
}

/// The number of the line that has a byte, from 1; for a place after the end, of the last line.
pub fn line_number(text: &[u8], at: usize) -> usize
    ensures { result ≡ line_number text.now at }
{
    count_newlines(first_of(text, at)) + 1
}

/// What precedes a byte in its line. The byte's column, from 1, is one more than its length.
pub fn line_before(text: &[u8], at: usize) -> &[u8]
    ensures { result.now ≡ line_before text.now at }
{
    let bytes = first_of(text, at);
    match split_at_last(b'\n', bytes) {
        Some((_, line)) => line,
        None => bytes,
    }
}

/// The rest of a byte's line from the byte on.
pub fn line_after(text: &[u8], at: usize) -> &[u8]
    ensures { result.now ≡ line_after text.now at }
{
    let bytes = after_first(text, at);
    match newline_in(bytes) {
        Some(end) => &bytes[..end],
        None => bytes,
    }
}
