//! The directives of a line's files in the order in which they are loaded.

ghost use Rattle.std.specs.Prelude.{◌≡◌, IfOk};

use crate::findings::{Source, Spot};
use crate::opening::{OpenFile, open_file};
use crate::pieces::Piece;
use crate::pointing::{blanks_before, is_addition, own_start};
use crate::stepping::spot_in;
use drv_place::{after_first, first_of};
use drv_specs::{Directive, first_directive};
use drv_words::Word;
use std::alloc::{AllocError, Global};
use std::marker::Model;

/// The two heads of a `%rename`, as `*cc1`.
#[derive(Debug, Drop)]
pub(crate) struct Renaming {
    pub(crate) old: Word,
    pub(crate) new: Word,
}

/// A directive that is loaded.
#[derive(Debug, Drop)]
pub(crate) struct LoadedPiece {
    /// Where it begins.
    pub(crate) spot: Spot,
    /// What precedes its colon, as `*cc1` or `.c`, if it has one.
    pub(crate) head: Option<Word>,
    /// Whether its text is an addition.
    pub(crate) adds: bool,
    /// Where in its file the bytes of its text are.
    pub(crate) places: Vec<usize>,
    /// The heads that it changes, if it is a `%rename`.
    pub(crate) renaming: Option<Renaming>,
}

/// The head `*NAME`.
fn name_head(alloc: Global, name: &[u8]) -> Result<Word, AllocError> {
    let mut head = Word::from_bytes(alloc, b"*")?;
    head.extend_from_slice(name)?;
    Ok(head)
}

/// A piece of a file as a directive that is loaded.
fn loaded_piece(alloc: Global, file: &OpenFile, piece: &Piece) -> Result<LoadedPiece, AllocError> {
    let text = piece.text.as_bytes();
    let mut head = None;
    let mut renaming = None;
    match first_directive(text) {
        Some(Directive::Text { name, .. }) => head = Some(name_head(alloc, name)?),
        Some(Directive::Pair { key, .. }) => head = Some(Word::from_bytes(alloc, key)?),
        Some(Directive::Rename { old, new }) => {
            renaming = Some(Renaming {
                old: name_head(alloc, old)?,
                new: name_head(alloc, new)?,
            });
        }
        _ => {}
    }
    let places = first_of(after_first(file.places.as_slice(), piece.start), text.len());
    Ok(LoadedPiece {
        spot: spot_in(file, piece, blanks_before(text)),
        head,
        adds: is_addition(text),
        places: Vec::from_slice(alloc, after_first(places, own_start(text)))?,
        renaming,
    })
}

/// Adds the directives of a file.
fn push_file(
    alloc: Global,
    pieces: &mut Vec<LoadedPiece>,
    file: &OpenFile,
) -> Result<(), AllocError> {
    for piece in file.pieces.as_slice() {
        pieces.push(loaded_piece(alloc, file, piece)?)?;
    }
    Ok(())
}

/// Directives with those of one more file: behind the one at this spot, which includes it, or last.
fn with_file(
    alloc: Global,
    pieces: Vec<LoadedPiece>,
    from: Option<Spot>,
    file: &OpenFile,
) -> Result<Vec<LoadedPiece>, AllocError> {
    let mut all = Vec::new(alloc);
    for piece in pieces {
        let here = piece.spot;
        all.push(piece)?;
        if from.is_some_and(|spot| spot.source == here.source && spot.at == here.at) {
            push_file(alloc, &mut all, file)?;
        }
    }
    if from.is_none() {
        push_file(alloc, &mut all, file)?;
    }
    Ok(all)
}

/// The directives of files, in the order in which they are loaded.
fn loaded_pieces(alloc: Global, sources: &[Source]) -> Result<Vec<LoadedPiece>, AllocError> {
    let mut pieces = Vec::new(alloc);
    for (number, source) in sources.iter().enumerate() {
        let file = open_file(alloc, number, source.text.as_bytes())?;
        pieces = with_file(alloc, pieces, source.from, &file)?;
    }
    Ok(pieces)
}

/// The files of a line, read for their directives. Contracts see the files.
#[derive(Drop)]
pub struct LoadedFiles<'a> {
    /// The files.
    sources: &'a [Source],
    /// Their directives, in the order in which they are loaded.
    pieces: Vec<LoadedPiece>,
}

impl<'a> Model for LoadedFiles<'a> {
    ghost use Rattle.drv_check.specs.declared.findings.Source.{Source};
    ghost use Rattle.std.specs.Prelude.{List};

    ghost Value = { List Source };

    ghost view = { λ f. f.sources.now };
}

impl<'a> LoadedFiles<'a> {
    /// Reads the directives of files, once for all that is asked of them.
    pub fn new(alloc: Global, sources: &'a [Source]) -> Result<LoadedFiles<'a>, AllocError>
        ensures { IfOk result (λ files. files ≡ sources.now) }
    {
        let pieces = loaded_pieces(alloc, sources)?;
        Ok(LoadedFiles { sources, pieces })
    }

    /// The files.
    pub(crate) fn sources(&self) -> &'a [Source]
        ensures { result.now ≡ self.now }
    {
        self.sources
    }

    /// Their directives, in the order in which they are loaded.
    pub(crate) fn pieces(&self) -> &[LoadedPiece] {
        self.pieces.as_slice()
    }
}
