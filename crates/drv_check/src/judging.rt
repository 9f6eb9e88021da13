//! What is surely not meant, told as the pieces are loaded or at the end.

ghost use Rattle.std.specs.Prelude.{◌≡◌, OnOk};

use crate::findings::{Checking, Findings, MOST_FAULTS, Warned, Warning, is_full};
use crate::opening::{FilePiece, Search, Telling};
use crate::pieces::Piece;
use crate::pointing::{has_body, own_start};
use crate::stepping::spot_in;
use crate::token_warning::names_in;
use crate::warning::{Mark, later_marks, marks_of};
use drv_specs::bytes::following;
use drv_syntax::{SpecTree, SyntaxFault, parse};
use std::alloc::{AllocError, Global};

/// The tree of the text that a piece gives, if it has one.
fn own_tree(alloc: Global, text: &[u8]) -> Result<Option<SpecTree>, AllocError> {
    if !has_body(text) {
        return Ok(None);
    }
    match parse(alloc, following(text, own_start(text))) {
        Ok(tree) => Ok(Some(tree)),
        Err(SyntaxFault::Memory) => Err(AllocError),
        Err(_) => Ok(None),
    }
}

/// Adds the names of texts that a tree names, if there is one.
fn add_names(
    alloc: Global,
    findings: &mut Findings,
    tree: &Option<SpecTree>,
) -> Result<(), AllocError>
    ensures { OnOk result (findings.new ≡ findings.old) }
{
    match tree {
        Some(tree) => findings.add_named(names_in(alloc, tree)?),
        None => Ok(()),
    }
}

/// Adds what is surely not meant in a piece.
fn push_all(
    findings: &mut Findings,
    here: &FilePiece<'_>,
    marks: Vec<Mark>,
) -> Result<(), AllocError>
    ensures { OnOk result (findings.new ≡ findings.old) }
{
    for mark in marks {
        findings.push_warning(spot_in(here.file, here.piece, mark.at), mark.warning)?;
    }
    Ok(())
}

/// Keeps what the end of the check decides on of a piece.
fn keep_all(
    findings: &mut Findings,
    here: &FilePiece<'_>,
    marks: Vec<Mark>,
) -> Result<(), AllocError>
    ensures { OnOk result (findings.new ≡ findings.old) }
{
    for mark in marks {
        let spot = spot_in(here.file, here.piece, mark.at);
        findings.push_later(spot, mark.warning, mark.name)?;
    }
    Ok(())
}

/// The pieces of its file that follow one.
fn later_pieces<'a>(here: &FilePiece<'a>) -> &'a [Piece] {
    let pieces = here.file.pieces.as_slice();
    for (place, piece) in pieces.iter().enumerate() {
        if piece.number > here.piece.number {
            return &pieces[place..];
        }
    }
    &[]
}

/// Notes the texts that a piece names and what is surely not meant in it, before it is loaded. Of a
/// file that was read before all is known.
pub(crate) fn warn(
    search: &Search<'_>,
    checking: &mut Checking,
    here: &FilePiece<'_>,
) -> Result<(), AllocError>
    ensures { OnOk result (checking.new ≡ checking.old) }
{
    if here.file.again {
        return Ok(());
    }
    let alloc = search.alloc;
    let text = here.piece.text.as_bytes();
    let tree = own_tree(alloc, text)?;
    add_names(alloc, &mut checking.findings, &tree)?;
    match search.telling {
        Telling::Faults => Ok(()),
        Telling::Warnings => {
            let marks = marks_of(alloc, checking.whose, &checking.set, text)?;
            push_all(&mut checking.findings, here, marks)?;
            let later = later_marks(alloc, checking.whose, text, &tree, later_pieces(here))?;
            keep_all(&mut checking.findings, here, later)
        }
    }
}

/// Whether a warning holds once all files are loaded.
fn holds(checking: &Checking, warned: &Warned) -> bool {
    match &warned.name {
        None => true,
        Some(name) => {
            let is_there = checking.set.text(name.as_bytes()).is_some();
            match warned.warning {
                Warning::UnknownText => !is_there,
                _ => is_there && !checking.findings.is_named(name.as_bytes()),
            }
        }
    }
}

/// Adds the warnings that hold at the end, unless the check ended before.
pub(crate) fn judge(alloc: Global, checking: &mut Checking) -> Result<(), AllocError>
    ensures { OnOk result (checking.new ≡ checking.old) }
{
    if is_full(checking, MOST_FAULTS) {
        return Ok(());
    }
    for warned in checking.findings.take_later(alloc) {
        if holds(checking, &warned) {
            checking.findings.push_warning(warned.spot, warned.warning)?;
        }
    }
    Ok(())
}
