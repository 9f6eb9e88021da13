//! Some lines of the names beyond the table, by which a line with many such words looks each up.

ghost use Rattle.drv_cc.specs.Items.{is_known};
ghost use Rattle.std.specs.Prelude.{◌≡◌, true};

use crate::known::{beginning_of, is_found_between, line_end, rest_from};
use std::alloc::{AllocError, Global};

/// The fewest bytes of a part.
const LEAST: usize = 64;

/// A line of the names.
#[derive(Clone, Copy)]
pub(crate) struct Fence {
    /// Where it begins.
    place: usize,
    /// How it begins.
    beginning: u128,
}

/// The line that follows a place.
fn fence_after(text: &[u8], at: usize) -> Fence {
    let place = line_end(text, at).saturating_add(1);
    Fence {
        place,
        beginning: beginning_of(rest_from(text, place)),
    }
}

/// Lines that cut a text into so many parts of one size, or fewer where the text is short.
pub(crate) fn fences_of(
    alloc: Global,
    text: &[u8],
    parts: usize,
) -> Result<Vec<Fence>, AllocError> {
    let count = parts.min(text.len() / LEAST);
    let mut fences = Vec::with_capacity(alloc, count)?;
    let size = text.len() / count.max(1);
    for number in 1..count {
        fences.push(fence_after(text, size.saturating_mul(number)))?;
    }
    Ok(fences)
}

/// The places between which a line is that begins so, if these are sorted.
fn places(fences: &[Fence], beginning: u128) -> (usize, usize) {
    let below = fences.partition_point(|fence| fence.beginning < beginning);
    let (before, others) = fences.split_at(below);
    let from = before.last().map_or(0, |fence| fence.place);
    let to = others.iter().find(|fence| beginning < fence.beginning);
    (from, to.map_or(usize::MAX, |fence| fence.place))
}

/// Whether a name is found between two of these lines, as in a sorted text.
pub(crate) fn is_found_near(known: &[u8], fences: &[Fence], name: &[u8]) -> bool
    ensures { result ≡ true → is_known known.now name.now ≡ true }
{
    let beginning = beginning_of(name);
    let (from, to) = places(fences, beginning);
    is_found_between(known, name, beginning, from, to)
}
