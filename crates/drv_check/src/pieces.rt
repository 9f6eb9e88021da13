//! The pieces of a settled text that are directives.

ghost use Rattle.drv_check.specs.Code.Recovering.{recovers};
ghost use Rattle.drv_check.specs.Pieces.{alone_at, begins_head, begun_after, checked_pieces, ended_by};
ghost use Rattle.drv_check.specs.Pieces.{first_lacks_colon, goes_on_at, is_cut, is_head_byte, is_keyword, lacks_colon};
ghost use Rattle.drv_check.specs.Pieces.{line_kind, longer, name_precedes, opened_by, piece_of, pieces_cut, pieces_of};
ghost use Rattle.drv_specs.specs.Lines.{lines_of, words_of};
ghost use Rattle.std.specs.Prelude.{◌≡◌, ◌++◌, IfOk, OnOk};

use crate::pointing::colon_in;
use drv_specs::bytes::{is_empty_line, without_blanks};
use drv_specs::is_name;
use drv_specs::lines::{cut_line, next_word};
use drv_words::{Listing, Word};
use std::alloc::{AllocError, Global};

/// A directive of a text.
#[derive(Debug, Drop)]
pub struct Piece {
    /// The number of its first line, from 1.
    pub number: usize,
    /// Where that line begins, in bytes from the start of the text.
    pub start: usize,
    /// Its lines.
    pub text: Word,
}

/// What a line begins that is in no body.
#[derive(Clone, Copy)]
pub(crate) enum LineKind {
    /// Nothing: it is empty, or a comment.
    Passed,
    /// A directive of one line.
    Alone,
    /// A directive with a body.
    Opens,
}

/// What a line begins that is in no body.
pub(crate) fn line_kind(line: &[u8]) -> LineKind
    ensures { result ≡ line_kind line.now }
{
    match without_blanks(line) {
        [] | [b'#', ..] => LineKind::Passed,
        [b'%', ..] => LineKind::Alone,
        _ => LineKind::Opens,
    }
}

/// The piece of one line.
fn piece_of(alloc: Global, number: usize, at: usize, line: &[u8]) -> Result<Piece, AllocError>
    ensures { IfOk result (λ piece. piece ≡ piece_of number at line.now) }
{
    let text = Word::from_bytes(alloc, line)?;
    Ok(Piece {
        number,
        start: at,
        text,
    })
}

/// A piece with one more line.
fn longer(piece: Piece, line: &[u8]) -> Result<Piece, AllocError>
    ensures { IfOk result (λ next. next ≡ longer piece line.now) }
{
    let mut text = piece.text;
    text.push(b'\n')?;
    text.extend_from_slice(line)?;
    Ok(Piece {
        number: piece.number,
        start: piece.start,
        text,
    })
}

/// A line of a text.
#[derive(Drop)]
struct Line<'a> {
    /// Its number, from 1.
    number: usize,
    /// The place of its first byte.
    at: usize,
    /// Its bytes.
    bytes: &'a [u8],
}

/// What reading does below a line that is no directive.
#[derive(Clone, Copy, Debug)]
enum Reading {
    /// It takes all up to an empty line for that line's body.
    Strict,
    /// It goes on where a directive begins.
    Recovering,
}

/// Whether reading goes on there where a directive begins.
fn recovers(reading: Reading) -> bool
    ensures { result ≡ recovers reading }
{
    match reading {
        Reading::Strict => false,
        Reading::Recovering => true,
    }
}

/// Whether a line has no colon, so that it begins no directive with a body.
fn lacks_colon(line: &[u8]) -> bool
    ensures { result ≡ lacks_colon line.now }
{
    colon_in(without_blanks(line)).is_none()
}

/// Whether the first line of a text has no colon.
fn first_lacks_colon(text: &[u8]) -> bool
    ensures { result ≡ first_lacks_colon (lines_of text.now) }
{
    let (line, _) = cut_line(text);
    lacks_colon(line)
}

/// Whether what precedes a place is a name.
fn name_precedes(at: Option<usize>, line: &[u8]) -> bool
    ensures { result ≡ name_precedes at line.now }
{
    match at {
        Some(at) if at <= line.len() => is_name(&line[..at]),
        Some(_) => is_name(line),
        None => false,
    }
}

/// Whether a line would begin a directive of one line.
fn begins_keyword(line: &[u8]) -> bool
    ensures { result ≡ is_keyword (words_of line.now) }
{
    match next_word(line) {
        Some((word, _)) => {
            word == b"%rename".as_slice()
                || word == b"%include".as_slice()
                || word == b"%include_noerr".as_slice()
        }
        None => false,
    }
}

/// Whether a byte begins the head of a directive with a body.
fn is_head_byte(byte: u8) -> bool
    ensures { result ≡ is_head_byte byte }
{
    byte == b'*' || byte == b'.' || byte == b'@'
}

/// Whether a line without the blanks at its front begins with such a head.
fn begins_head(line: &[u8]) -> bool
    ensures { result ≡ begins_head line.now }
{
    match line {
        [first, rest @ ..] => is_head_byte(*first) && name_precedes(colon_in(rest), rest),
        [] => false,
    }
}

/// Whether reading goes on at a line below one that is no directive.
fn goes_on_at(line: &[u8]) -> bool
    ensures { result ≡ goes_on_at line.now }
{
    begins_head(without_blanks(line)) || begins_keyword(line)
}

/// Whether a line of a body would begin a text or a directive of one line, were the line before it
/// empty.
pub(crate) fn begins_directive(line: &[u8]) -> bool {
    goes_on_at(line) && matches!(without_blanks(line), [b'*' | b'%', ..])
}

/// Whether a line ends the piece above it, as that is no directive.
fn is_cut(piece: &Piece, line: &[u8]) -> bool
    ensures { result ≡ is_cut piece.now line.now }
{
    goes_on_at(line) && first_lacks_colon(piece.text.as_bytes())
}

/// Takes a line that is in no body.
fn take_first(
    alloc: Global,
    pieces: &mut Vec<Piece>,
    line: &Line<'_>,
) -> Result<Option<Piece>, AllocError>
    ensures begun { IfOk result (λ next. next ≡ opened_by line.now.number line.now.at line.now.bytes.now) }
    ensures ended { OnOk result
        (pieces.new.items ≡ pieces.old.items ++ alone_at line.now.number line.now.at line.now.bytes.now) }
{
    match line_kind(line.bytes) {
        LineKind::Passed => Ok(None),
        LineKind::Alone => {
            pieces.push(piece_of(alloc, line.number, line.at, line.bytes)?)?;
            Ok(None)
        }
        LineKind::Opens => Ok(Some(piece_of(alloc, line.number, line.at, line.bytes)?)),
    }
}

/// Takes a line after a piece that may go on.
fn take_line(
    alloc: Global,
    pieces: &mut Vec<Piece>,
    reading: Reading,
    begun: Option<Piece>,
    line: &Line<'_>,
) -> Result<Option<Piece>, AllocError>
    ensures begun { IfOk result
        (λ next. next ≡ begun_after (recovers reading) begun line.now.number line.now.at line.now.bytes.now) }
    ensures ended { OnOk result
        (pieces.new.items
        ≡ pieces.old.items ++ ended_by (recovers reading) begun line.now.number line.now.at line.now.bytes.now) }
{
    let Some(piece) = begun else {
        return take_first(alloc, pieces, line);
    };
    if is_empty_line(line.bytes) {
        pieces.push(piece)?;
        return Ok(None);
    }
    if recovers(reading) && is_cut(&piece, line.bytes) {
        pieces.push(piece)?;
        return take_first(alloc, pieces, line);
    }
    Ok(Some(longer(piece, line.bytes)?))
}

/// The pieces of a settled text that is read so.
#[tactic(auto, using(crate::proofs::Cutting::pieces_more))]
fn cut_pieces(alloc: Global, reading: Reading, text: &[u8]) -> Result<Listing<Piece>, AllocError>
    ensures { IfOk result (λ pieces. pieces ≡ pieces_cut (recovers reading) text.now) }
{
    let mut pieces = Vec::new(alloc);
    let mut begun = None;
    let mut number = 1;
    let mut at = 0;
    let mut left = Some(text);
    while let Some(bytes) = left {
        let (line, rest) = cut_line(bytes);
        let taken = Line {
            number,
            at,
            bytes: line,
        };
        begun = take_line(alloc, &mut pieces, reading, begun, &taken)?;
        number += 1;
        at += line.len() + 1;
        left = rest;
    }
    if let Some(piece) = begun {
        pieces.push(piece)?;
    }
    Ok(Listing::from_vec(pieces))
}

/// The pieces of a settled text that are directives, in their order (GCC manual, "Spec Files").
pub fn pieces_of(alloc: Global, text: &[u8]) -> Result<Listing<Piece>, AllocError>
    ensures { IfOk result (λ pieces. pieces ≡ pieces_of text.now) }
{
    cut_pieces(alloc, Reading::Strict, text)
}

/// The pieces of a settled text that are checked: also those below a line that is no directive, at
/// which the driver ends.
pub(crate) fn checked_pieces(alloc: Global, text: &[u8]) -> Result<Listing<Piece>, AllocError>
    ensures { IfOk result (λ pieces. pieces ≡ checked_pieces text.now) }
{
    cut_pieces(alloc, Reading::Recovering, text)
}
