//! What differs between two dumps of spec sets.

use crate::pieces::{Piece, pieces_of};
use drv_forms::{Edit, edits};
use drv_words::{Listing, Word};
use std::alloc::{AllocError, Global};

/// Adds the lines of a text, each after a mark.
fn push_marked(text: &mut Word, mark: &[u8], lines: &[u8]) -> Result<(), AllocError> {
    for line in lines.split(|byte| *byte == b'\n') {
        text.extend_from_slice(mark)?;
        text.extend_from_slice(line)?;
        text.push(b'\n')?;
    }
    Ok(())
}

/// Whether a directive is a text with a name.
fn is_named(piece: &Piece) -> bool {
    piece.text.as_bytes().starts_with(b"*")
}

/// Adds those named texts that others don't have.
fn push_missing(
    text: &mut Word,
    mark: &[u8],
    others: &[Piece],
    pieces: &[Piece],
) -> Result<(), AllocError> {
    for piece in pieces {
        if is_named(piece) && !others.iter().any(|other| other.text == piece.text) {
            push_marked(text, mark, piece.text.as_bytes())?;
        }
    }
    Ok(())
}

/// The pairs among directives, each as its lines.
fn pairs_of(alloc: Global, pieces: &[Piece]) -> Result<Listing<Word>, AllocError> {
    let mut pairs = Listing::new(alloc);
    for piece in pieces {
        if !is_named(piece) {
            pairs.push(piece.text.clone()?)?;
        }
    }
    Ok(pairs)
}

/// What differs between two dumps of spec sets: each named text that only the first one has, and
/// then each that only the second one has; and the pairs that go and those that come, in their
/// order. Each line of the first dump is after `- `, and each of the second after `+ `.
pub fn texts_difference(alloc: Global, first: &[u8], second: &[u8]) -> Result<Word, AllocError> {
    let before = pieces_of(alloc, first)?;
    let after = pieces_of(alloc, second)?;
    let mut text = Word::empty(alloc);
    push_missing(&mut text, b"- ", after.as_slice(), before.as_slice())?;
    push_missing(&mut text, b"+ ", before.as_slice(), after.as_slice())?;
    let pairs = pairs_of(alloc, before.as_slice())?;
    let others = pairs_of(alloc, after.as_slice())?;
    for edit in edits(alloc, pairs.as_slice(), others.as_slice())?.as_slice() {
        match edit {
            Edit::Goes(pair) => push_marked(&mut text, b"- ", pair.as_bytes())?,
            Edit::Comes(pair) => push_marked(&mut text, b"+ ", pair.as_bytes())?,
        }
    }
    Ok(text)
}
