//! Where in files the bytes of a set's texts are.

ghost use Rattle.drv_check.specs.Origins.{agree, byte_at, is_byte, spot_at};
ghost use Rattle.std.specs.Prelude.{◌≡◌, ◌-◌, IfOk, drop, length, true};

use crate::findings::{Source, Spot};
use crate::loading_order::{LoadedFiles, LoadedPiece};
use drv_place::after_first;
use drv_words::Word;
use std::alloc::{AllocError, Global};

/// Whether a word is there and is this one.
fn is_head(word: &Option<Word>, head: &Word) -> bool {
    match word {
        Some(word) => word == head,
        None => false,
    }
}

/// The spots of a head's text after directives: the last one that gives it the text counts, with
/// those after it that add to it, and before a `%rename` it has another head.
fn spots_after(
    alloc: Global,
    head: &[u8],
    pieces: &[LoadedPiece],
) -> Result<Vec<Spot>, AllocError> {
    let mut spots = Vec::new(alloc);
    let mut head = Word::from_bytes(alloc, head)?;
    for piece in pieces.iter().rev() {
        if is_head(&piece.head, &head) {
            for &at in piece.places.as_slice().iter().rev() {
                spots.push(Spot {
                    source: piece.spot.source,
                    at,
                })?;
            }
            if !piece.adds {
                break;
            }
        } else if let Some(renaming) = &piece.renaming {
            if renaming.new == head {
                head = renaming.old.clone()?;
            }
        }
    }
    spots.reverse();
    Ok(spots)
}

/// The byte at a spot.
fn byte_at(sources: &[Source], spot: Spot) -> Option<u8>
    ensures { result ≡ byte_at sources.now spot }
{
    match sources.get(spot.source) {
        Some(source) => source.text.as_bytes().get(spot.at).copied(),
        None => None,
    }
}

/// Whether it is this byte.
fn is_byte(found: Option<u8>, byte: u8) -> bool
    ensures { result ≡ is_byte found byte }
{
    match found {
        Some(other) => other == byte,
        None => false,
    }
}

/// Whether files have the bytes of a text at these spots.
#[tactic(auto, using(crate::proofs::SpotLaws::agree_next))]
fn agree(sources: &[Source], spots: &[Spot], text: &[u8]) -> bool
    ensures { result ≡ agree sources.now spots.now text.now }
{
    let mut spots_left = spots;
    let mut bytes_left = text;
    while let [spot, spots_after @ ..] = spots_left {
        let [byte, bytes_after @ ..] = bytes_left else {
            return false;
        };
        if !is_byte(byte_at(sources, *spot), *byte) {
            return false;
        }
        spots_left = spots_after;
        bytes_left = bytes_after;
    }
    true
}

/// These spots of a text's last bytes, if files have those bytes there.
fn if_agreed<'a>(sources: &[Source], text: &[u8], spots: &'a [Spot]) -> &'a [Spot]
    ensures { agree sources.now result.now (drop (length text.now - length result.now) text.now)
        ≡ true }
{
    let last = after_first(text, text.len().saturating_sub(spots.len()));
    if agree(sources, spots, last) {
        spots
    } else {
        &[]
    }
}

/// The spots of the last bytes of a head's text: the files that are loaded have these bytes there.
pub fn spots_of(
    alloc: Global,
    files: &LoadedFiles<'_>,
    head: &[u8],
    text: &[u8],
) -> Result<Vec<Spot>, AllocError>
    ensures { IfOk result (λ spots. agree files.now spots.items
        (drop (length text.now - length spots.items) text.now) ≡ true) }
{
    let all = spots_after(alloc, head, files.pieces())?;
    // At most as many as the text has bytes, the last ones.
    let last = after_first(all.as_slice(), all.len().saturating_sub(text.len()));
    Vec::from_slice(alloc, if_agreed(files.sources(), text, last))
}

/// The spot of the byte at this place of a text of this size, whose last bytes have these spots.
pub fn spot_at(spots: &[Spot], size: usize, place: usize) -> Option<Spot>
    ensures { result ≡ spot_at spots.now size place }
{
    let before = size.saturating_sub(spots.len());
    if place < before {
        return None;
    }
    spots.get(place - before).copied()
}
