//! The names of options beyond the table are the lines of a text. They are looked for in its bytes,
//! first as in a sorted text.

ghost use Rattle.drv_cc.specs.Code.Known.{is_ended};
ghost use Rattle.drv_cc.specs.Items.{first_line, is_known, is_own, own_line};
ghost use Rattle.std.specs.Prelude.{◌≡◌, ◌<◌, ◌≤◌, ◌||◌, IsFalse, drop, length, true};

use crate::classes::stands_in;
use crate::places::first_place;
use crate::reading::rest_after;
use drv_words::order;

/// The most bytes of a text whose lines are gone over one by one.
const NEAR: usize = 64;

/// The lowest bit of each of eight bytes.
const LOWEST: u64 = 0x0101_0101_0101_0101;

/// Whether a line ends at a place of a text.
fn is_end(text: &[u8], at: usize) -> bool
    ensures { IsFalse result → at < length text.now }
{
    match text.get(at) {
        Some(byte) => *byte == b'\n',
        None => true,
    }
}

/// Where the line ends in which a place is, byte by byte.
fn near_end(text: &[u8], at: usize) -> usize
    ensures from { at ≤ result }
    ensures to { at ≤ length text.now → result ≤ length text.now }
{
    let mut end = at;
    while !is_end(text, end) {
        end += 1;
    }
    end
}

/// The ends of lines among eight bytes, of which the first is the lowest: the highest bit of each of
/// them, and maybe of a byte behind one.
fn ends_among_eight(bytes: u64) -> u64 {
    let others = bytes ^ u64::from_le_bytes([b'\n'; 8]);
    others.wrapping_sub(LOWEST) & !others & (LOWEST << 7)
}

/// Where the line ends in which a place is.
pub(crate) fn line_end(text: &[u8], at: usize) -> usize
    ensures from { at ≤ result }
    ensures to { at < length text.now → result ≤ length text.now }
{
    let mut end = at;
    while let Some((eight, _)) = rest_from(text, end).split_first_chunk::<8>() {
        let ends = ends_among_eight(u64::from_le_bytes(*eight));
        if ends != 0 {
            return end + (ends.trailing_zeros() as usize / 8).min(8);
        }
        end += 8;
    }
    near_end(text, end)
}

/// The first sixteen bytes of a text that has fewer, filled up with ends of lines.
fn first_bytes(text: &[u8]) -> [u8; 16] {
    let mut bytes = [b'\n'; 16];
    if let Some(front) = bytes.get_mut(..text.len()) {
        front.copy_from_slice(text);
    }
    bytes
}

/// How a line begins: its first sixteen bytes as a number. All bytes of names come after the end of
/// a line, so of two lines that begin otherwise the number of the earlier one is less.
pub(crate) fn beginning_of(text: &[u8]) -> u128 {
    match text.split_first_chunk::<16>() {
        Some((front, _)) => u128::from_be_bytes(*front),
        None => u128::from_be_bytes(first_bytes(text)),
    }
}

/// Whether the line at the beginning of a text comes before another one that begins as it does, by
/// what follows.
fn is_before_further(rest: &[u8], line: &[u8]) -> bool {
    let left = rest_from(&rest[..line.len().min(rest.len())], 16);
    order(left, rest_from(line, 16)).is_lt()
}

/// Whether the line at a place of a text comes before another one, which begins so.
fn is_before(text: &[u8], at: usize, line: &[u8], beginning: u128) -> bool {
    let rest = rest_from(text, at);
    let own = beginning_of(rest);
    if own == beginning {
        is_before_further(rest, line)
    } else {
        own < beginning
    }
}

/// Where to begin a search line by line between two places, if the lines of a text are sorted by
/// their bytes: the line is not before this place, and only a few lines are between.
fn near_place(text: &[u8], line: &[u8], beginning: u128, from: usize, to: usize) -> usize {
    let mut high = to.min(text.len());
    let mut low = from.min(high);
    while NEAR < high - low {
        let middle = low + (high - low) / 2;
        let next = line_end(text, middle) + 1;
        if next < high && is_before(text, next, line, beginning) {
            low = next;
        } else {
            high = middle;
        }
    }
    low
}

/// Where a line that begins so is, if the lines of a text are sorted by their bytes and it is one of
/// them, not before one place and not behind another. The caller checks which line is there.
fn place_of(text: &[u8], line: &[u8], beginning: u128, from: usize, to: usize) -> usize {
    let mut at = near_place(text, line, beginning, from, to);
    while at < text.len() && is_before(text, at, line, beginning) {
        at = line_end(text, at) + 1;
    }
    at
}

/// Whether a line ends where this text begins.
fn is_ended(rest: &[u8]) -> bool
    ensures { result ≡ is_ended rest.now }
{
    match rest {
        [byte, ..] => *byte == b'\n',
        _ => true,
    }
}

/// Whether a text begins with this line.
#[tactic(auto, using(crate::proofs::Lines::begun))]
fn begins_with(text: &[u8], line: &[u8]) -> bool
    ensures { result ≡ true → is_known text.now line.now ≡ true }
{
    let rest = rest_after(text, line);
    text.starts_with(line) && is_ended(rest) && !line.contains(&b'\n')
}

/// The rest of a text from a place on.
pub(crate) fn rest_from(text: &[u8], at: usize) -> &[u8]
    ensures { result.now ≡ drop at text.now }
{
    text.get(at..).unwrap_or(&[])
}

/// Whether this line begins at a place of a text.
fn stands_at(text: &[u8], at: usize, line: &[u8]) -> bool
    ensures { result ≡ true → is_known text.now line.now ≡ true }
{
    if at == 0 {
        return begins_with(text, line);
    }
    match rest_from(text, at - 1) {
        [byte, rest @ ..] => *byte == b'\n' && begins_with(rest, line),
        _ => false,
    }
}

/// Whether a name is found as in a sorted text.
pub(crate) fn is_found(known: &[u8], name: &[u8]) -> bool
    ensures { result ≡ true → is_known known.now name.now ≡ true }
{
    is_found_between(known, name, beginning_of(name), 0, known.len())
}

/// Whether a name that begins so is found in the same way between two places.
pub(crate) fn is_found_between(
    known: &[u8],
    name: &[u8],
    beginning: u128,
    from: usize,
    to: usize,
) -> bool
    ensures { result ≡ true → is_known known.now name.now ≡ true }
{
    stands_at(known, place_of(known, name, beginning, from, to), name)
}

/// Whether a name is known, by all lines.
fn is_known(known: &[u8], name: &[u8]) -> bool
    ensures { result ≡ is_known known.now name.now }
{
    known
        .split(|byte| *byte == b'\n')
        .any(|other| name == other)
}

/// Whether a line is one of the names.
pub(crate) fn is_known_line(known: &[u8], line: &[u8]) -> bool
    ensures { result ≡ is_known known.now line.now }
{
    is_found(known, line) || is_known(known, line)
}

/// Whether one of two names is known. Lines one by one are gone over only where neither is found.
pub(crate) fn is_either_known(known: &[u8], one: &[u8], other: &[u8]) -> bool
    ensures { result ≡ (is_known known.now one.now || is_known known.now other.now) }
{
    if is_found(known, one) || is_found(known, other) {
        return true;
    }
    is_known(known, one) || is_known(known, other)
}

/// Whether one of three names is known. Lines one by one are gone over only where none is found.
pub(crate) fn are_known(known: &[u8], name: &[u8], head: &[u8], numbered: &[u8]) -> bool
    ensures { result ≡ (is_known known.now name.now
        || (is_known known.now head.now || is_known known.now numbered.now)) }
{
    if is_found(known, name) || is_found(known, head) || is_found(known, numbered) {
        return true;
    }
    is_known(known, name) || is_known(known, head) || is_known(known, numbered)
}

/// The first line of a text.
#[tactic(auto, using(crate::proofs::Cuts::line_at, crate::proofs::Cuts::line_whole))]
fn first_line(text: &[u8]) -> &[u8]
    ensures { result.now ≡ first_line text.now }
{
    match first_place(b'\n', text) {
        Some(at) => &text[..at],
        None => text,
    }
}

/// The first line of the names without its blank, if it begins with one.
fn own_line(known: &[u8]) -> &[u8]
    ensures { result.now ≡ own_line known.now }
{
    match known {
        [b' ', rest @ ..] => first_line(rest),
        _ => b"",
    }
}

/// Whether names say that the compiler takes an option as it is which newer ones ignore or call by
/// another name.
pub(crate) fn is_own(known: &[u8], option: &[u8]) -> bool
    ensures { result ≡ is_own known.now option.now }
{
    stands_in(own_line(known), option)
}
