//! A star in braces ends its word in this driver, but in gcc only where nothing follows it. So what
//! goes on with that word behind the braces is put into their alternatives.

use crate::fault::Fault;
use drv_dump::{Kind, Piece, read_text};
use drv_words::{Listing, Word};
use std::alloc::Global;
use std::mem;

/// Whether a byte is between words.
fn is_white(byte: u8) -> bool {
    matches!(byte, b' ' | b'\t' | b'\n')
}

/// Adds plain bytes as a piece.
fn push_run(bytes: Word, pieces: &mut Listing<Piece>) -> Result<(), Fault> {
    Ok(pieces.push(Piece {
        kind: Kind::Text,
        bytes,
    })?)
}

/// Adds a piece of plain bytes, cut where white space begins and ends.
fn push_cut(alloc: Global, bytes: &[u8], pieces: &mut Listing<Piece>) -> Result<(), Fault> {
    let mut run = Word::empty(alloc);
    let mut was_white = false;
    for byte in bytes {
        if !run.is_empty() && is_white(*byte) != was_white {
            push_run(mem::replace(&mut run, Word::empty(alloc)), pieces)?;
        }
        was_white = is_white(*byte);
        run.push(*byte)?;
    }
    push_run(run, pieces)
}

/// The pieces of a text, those of plain bytes cut so; none if it can't be read.
fn pieces_of(alloc: Global, text: &[u8]) -> Result<Option<Listing<Piece>>, Fault> {
    let Ok(pieces) = read_text(alloc, text) else {
        return Ok(None);
    };
    let mut cut = Listing::new(alloc);
    for piece in pieces.into_vec() {
        match piece.kind {
            Kind::Text => push_cut(alloc, piece.bytes.as_bytes(), &mut cut)?,
            _ => cut.push(piece)?,
        }
    }
    Ok(Some(cut))
}

/// How many braces are open after a piece of this kind.
fn depth_after(depth: usize, kind: Kind) -> usize {
    match kind {
        Kind::Opening => depth.saturating_add(1),
        Kind::Closing => depth.saturating_sub(1),
        _ => depth,
    }
}

/// Whether a piece is a star.
fn is_star(piece: &Piece) -> bool {
    matches!(piece.kind, Kind::Directive) && piece.bytes.as_bytes() == b"%*".as_slice()
}

/// Whether pieces have a star that is in no braces among them.
fn has_star(pieces: &[Piece]) -> bool {
    let mut depth = 0;
    for piece in pieces {
        depth = depth_after(depth, piece.kind);
        if depth == 0 && is_star(piece) {
            return true;
        }
    }
    false
}

/// Whether a piece ends a word, or what braces give.
fn is_end(piece: &Piece) -> bool {
    match (piece.kind, piece.bytes.as_bytes()) {
        (Kind::Otherwise | Kind::Closing, _) => true,
        (Kind::Text, [byte, ..]) => is_white(*byte),
        _ => false,
    }
}

/// What pieces begin in.
#[derive(Clone, Copy)]
enum Within {
    Braces,
    Word,
}

/// Whether a piece ends it.
fn ends(it: Within, piece: &Piece) -> bool {
    match it {
        Within::Braces => matches!(piece.kind, Kind::Closing),
        Within::Word => is_end(piece),
    }
}

/// The number of pieces before the first that ends what they begin in.
fn size_before(pieces: &[Piece], it: Within) -> usize {
    let mut depth = 0;
    for (n, piece) in pieces.iter().enumerate() {
        if depth == 0 && ends(it, piece) {
            return n;
        }
        depth = depth_after(depth, piece.kind);
    }
    pieces.len()
}

/// Braces with a star, and what goes on with the word that they end in.
#[derive(Clone, Copy)]
struct Glued<'a> {
    /// The pieces before them, with how they begin.
    before: &'a [Piece],
    /// What is in them.
    inside: &'a [Piece],
    /// What goes on with the word.
    tail: &'a [Piece],
    /// What follows that.
    after: &'a [Piece],
}

/// The braces that begin before this place, with what follows them.
fn braces_at<'a>(pieces: &'a [Piece], start: usize) -> Glued<'a> {
    let (before, rest) = pieces.split_at(start.min(pieces.len()));
    let (inside, rest) = rest.split_at(size_before(rest, Within::Braces).min(rest.len()));
    let rest = rest.get(1..).unwrap_or(&[]);
    let (tail, after) = rest.split_at(size_before(rest, Within::Word).min(rest.len()));
    Glued {
        before,
        inside,
        tail,
        after,
    }
}

/// The first braces with a star with whose word something goes on.
fn first_glued<'a>(pieces: &'a [Piece]) -> Option<Glued<'a>> {
    for (n, piece) in pieces.iter().enumerate() {
        if let Kind::Opening = piece.kind {
            let found = braces_at(pieces, n.saturating_add(1));
            if has_star(found.inside) && !found.tail.is_empty() {
                return Some(found);
            }
        }
    }
    None
}

/// Adds pieces to a text.
fn push_all(pieces: &[Piece], text: &mut Word) -> Result<(), Fault> {
    for piece in pieces {
        text.extend_from_slice(piece.bytes.as_bytes())?;
    }
    Ok(())
}

/// What an alternative has: tests or none, and whether a star is the last of it.
#[derive(Clone, Copy)]
struct Alternative {
    has_tests: bool,
    ends_in_star: bool,
}

/// What an alternative has with one more piece, in so many braces.
fn with_piece(it: Alternative, piece: &Piece, depth: usize) -> Alternative {
    let is_test = matches!(piece.kind, Kind::Test | Kind::TestCall | Kind::NegatedCall);
    Alternative {
        has_tests: it.has_tests || (depth == 0 && is_test),
        ends_in_star: depth == 0 && is_star(piece),
    }
}

/// An alternative of which nothing is read.
const BEGUN: Alternative = Alternative {
    has_tests: false,
    ends_in_star: false,
};

/// Adds the alternatives of braces, each with the tail. False where gcc ends a word before the tail.
fn push_alternatives(glued: Glued<'_>, text: &mut Word) -> Result<bool, Fault> {
    let mut depth = 0;
    let mut it = BEGUN;
    for piece in glued.inside {
        if let (0, Kind::Otherwise) = (depth, piece.kind) {
            if it.ends_in_star {
                return Ok(false);
            }
            push_all(glued.tail, text)?;
            it = BEGUN;
        }
        depth = depth_after(depth, piece.kind);
        it = with_piece(it, piece, depth);
        text.extend_from_slice(piece.bytes.as_bytes())?;
    }
    push_all(glued.tail, text)?;
    // If the last alternative has a test, it is no default: then add one that gives the tail alone.
    if it.has_tests {
        text.extend_from_slice(b";:")?;
        push_all(glued.tail, text)?;
    }
    Ok(!it.ends_in_star)
}

/// A text in which the tail of braces is in their alternatives; none where it can't be there.
fn rewrite(alloc: Global, glued: Glued<'_>) -> Result<Option<Word>, Fault> {
    let mut text = Word::empty(alloc);
    push_all(glued.before, &mut text)?;
    if has_star(glued.tail) || !push_alternatives(glued, &mut text)? {
        return Ok(None);
    }
    text.extend_from_slice(b"}")?;
    push_all(glued.after, &mut text)?;
    Ok(Some(text))
}

/// How many braces of a text are rewritten.
const MOST: usize = 64;

/// A text in which nothing goes on with a word after braces with a star; none if it can't be put so.
pub fn unglue(alloc: Global, text: Word) -> Result<Option<Word>, Fault> {
    let mut text = text;
    for _ in 0..MOST {
        let Some(pieces) = pieces_of(alloc, text.as_bytes())? else {
            return Ok(None);
        };
        let Some(glued) = first_glued(pieces.as_slice()) else {
            return Ok(Some(text));
        };
        let Some(other) = rewrite(alloc, glued)? else {
            return Ok(None);
        };
        text = other;
    }
    Ok(None)
}
