//! The files that a text of gcc looks for by their names.

ghost use Rattle.drv_dump.specs.Files.{ending_in, ending_of, file_pieces, files_from, is_name_byte};
ghost use Rattle.drv_dump.specs.Files.{is_name, is_other_byte, is_text, is_whole_word, joint_after};
ghost use Rattle.drv_dump.specs.Files.{ends_in_name, put_piece, skip_after, split_from};
ghost use Rattle.drv_dump.specs.declared.files.Joint.TheVariants.{Open};
ghost use Rattle.std.specs.List.{list_any};
ghost use Rattle.std.specs.Prelude.{◌≡◌, ◌++◌, [], IfOk, OnOk, not};

use crate::turns_of_tests::is_white;
use crate::{Kind, Piece};
use drv_words::{Listing, Word};
use std::alloc::{AllocError, Global};

/// What follows a text.
#[derive(Clone, Copy, Debug)]
pub(crate) enum Ending {
    /// Neither of the others.
    Other,
    /// `%s`: its last word is the name of a file.
    Found,
    /// `%O%s`: the same, with the suffix of an object.
    FoundObject,
}

/// What precedes a piece.
#[derive(Clone, Copy, Debug)]
pub(crate) enum Joint {
    /// Nothing that belongs to its first word.
    Open,
    /// A piece that its first word may go on from.
    Glued,
}

/// A text up to its last word, and that word.
#[derive(Drop)]
pub(crate) struct LastWord {
    pub(crate) front: Word,
    pub(crate) word: Word,
}

/// In the name of a file that becomes a named text.
fn is_name_byte(byte: u8) -> bool
    ensures { result ≡ is_name_byte byte }
{
    byte.is_ascii_alphanumeric() || matches!(byte, b'_' | b'.' | b'+' | b'-')
}

/// A text split before its last word.
#[tactic(auto, using(crate::proofs::Naming::split_white, crate::proofs::Naming::split_next))]
fn split_last(alloc: Global, text: &[u8]) -> Result<LastWord, AllocError>
    ensures { IfOk result (λ last. last ≡ split_from [] [] text.now) }
{
    let mut front = Word::empty(alloc);
    let mut word = Word::empty(alloc);
    let mut left = text;
    while let [byte, rest @ ..] = left {
        left = rest;
        if is_white(*byte) {
            front.extend_from_slice(word.as_bytes())?;
            front.push(*byte)?;
            word = Word::empty(alloc);
            continue;
        }
        word.push(*byte)?;
    }
    Ok(LastWord { front, word })
}

/// What follows a text.
fn ending_of(rest: &[Piece]) -> Ending
    ensures { result ≡ ending_of rest.now }
{
    match rest {
        [first, ..] if first.bytes.as_bytes() == b"%s".as_slice() => Ending::Found,
        [first, second, ..]
            if first.bytes.as_bytes() == b"%O".as_slice()
                && second.bytes.as_bytes() == b"%s".as_slice() => { Ending::FoundObject }
        _ => Ending::Other,
    }
}

/// In no such name.
fn is_other_byte(byte: &u8) -> bool
    ensures { result ≡ is_other_byte byte.now }
{
    !is_name_byte(*byte)
}

/// A byte of a word is in no such name.
fn has_other_byte(word: &[u8]) -> bool
    ensures { result ≡ list_any is_other_byte word.now }
{
    word.iter().any(is_other_byte)
}

/// The name of a file that can become a named text.
fn is_name(word: &[u8]) -> bool
    ensures { result ≡ is_name word.now }
{
    !word.is_empty() && !has_other_byte(word)
}

/// A word after this text is whole.
fn is_whole_word(joint: Joint, front: &[u8]) -> bool
    ensures { result ≡ is_whole_word joint front.now }
{
    match joint {
        Joint::Open => true,
        Joint::Glued => !front.is_empty(),
    }
}

/// The last word is whole, and the name of a file that can become a named text.
fn ends_in_name(joint: Joint, last: &LastWord) -> bool
    ensures { result ≡ ends_in_name joint last.now }
{
    is_name(last.word.as_bytes()) && is_whole_word(joint, last.front.as_bytes())
}

/// What follows a piece, if its last word is the name of a file.
fn ending_in(
    alloc: Global,
    joint: Joint,
    piece: &Piece,
    rest: &[Piece],
) -> Result<Ending, AllocError>
    ensures { IfOk result (λ ending. ending ≡ ending_in joint piece.now rest.now) }
{
    if !matches!(piece.kind, Kind::Text) {
        return Ok(Ending::Other);
    }
    let last = split_last(alloc, piece.bytes.as_bytes())?;
    if ends_in_name(joint, &last) {
        Ok(ending_of(rest))
    } else {
        Ok(Ending::Other)
    }
}

/// Adds a text with a named text in place of its last word.
fn push_file(
    alloc: Global,
    text: &[u8],
    suffix: &[u8],
    named: &mut Listing<Piece>,
) -> Result<(), AllocError>
    ensures { OnOk result (named.new ≡ named.old ++ file_pieces text.now suffix.now) }
{
    let last = split_last(alloc, text)?;
    let mut bytes = Word::from_bytes(alloc, b"%(file_")?;
    bytes.extend_from_slice(last.word.as_bytes())?;
    bytes.extend_from_slice(suffix)?;
    bytes.push(b')')?;
    named.push(Piece {
        kind: Kind::Text,
        bytes: last.front,
    })?;
    named.push(Piece {
        kind: Kind::NamedText,
        bytes,
    })?;
    Ok(())
}

/// Adds a piece that this follows.
fn push_piece(
    alloc: Global,
    piece: &Piece,
    ending: Ending,
    named: &mut Listing<Piece>,
) -> Result<(), AllocError>
    ensures { OnOk result (named.new ≡ named.old ++ put_piece ending piece.now) }
{
    match ending {
        Ending::Found => push_file(alloc, piece.bytes.as_bytes(), b"", named),
        Ending::FoundObject => push_file(alloc, piece.bytes.as_bytes(), b".o", named),
        Ending::Other => {
            let bytes = piece.bytes.clone()?;
            named.push(Piece {
                kind: piece.kind,
                bytes,
            })?;
            Ok(())
        }
    }
}

/// How many pieces after a text belong to the name of a file.
fn skip_after(ending: Ending) -> usize
    ensures { result ≡ skip_after ending }
{
    match ending {
        Ending::Other => 0,
        Ending::Found => 1,
        Ending::FoundObject => 2,
    }
}

/// What a piece is to the word after it.
fn joint_after(piece: &Piece) -> Joint
    ensures { result ≡ joint_after piece.now }
{
    if piece.bytes.as_bytes() == b":".as_slice() {
        Joint::Open
    } else {
        Joint::Glued
    }
}

/// The pieces with a named text in place of each name of a file and the `%s` after it.
#[tactic(auto, using(crate::proofs::Naming::piece_skipped, crate::proofs::Naming::piece_named))]
pub(crate) fn with_named_texts(
    alloc: Global,
    pieces: &[Piece],
) -> Result<Listing<Piece>, AllocError>
    ensures { IfOk result (λ named. named ≡ files_from 0 Open pieces.now) }
{
    let mut named = Listing::new(alloc);
    let mut skip = 0;
    let mut joint = Joint::Open;
    let mut left = pieces;
    while let [piece, rest @ ..] = left {
        left = rest;
        if skip > 0 {
            skip -= 1;
            continue;
        }
        let ending = ending_in(alloc, joint, piece, rest)?;
        push_piece(alloc, piece, ending, &mut named)?;
        skip = skip_after(ending);
        joint = joint_after(piece);
    }
    Ok(named)
}
