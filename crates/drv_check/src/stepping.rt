//! One piece of a file is checked.

// In clauses: `Extends F G` says that G has every answer of F. `Asked` says that a call only asked,
// and that the table has the answers.
ghost use Rattle.drv_check.specs.Checks.{changed, faulty, spot_in, step, with_number};
ghost use Rattle.drv_specs.specs.Loading.{loaded};
ghost use Rattle.drv_system.specs.Asking.{Extends};
ghost use Rattle.drv_system.specs.Code.Asked.{Asked};
ghost use Rattle.drv_system.specs.Facts.{Facts};
ghost use Rattle.drv_system.specs.Known.{Is};
ghost use Rattle.std.specs.Prelude.{◌≡◌, ◌<◌, IfOk, IfSome, OnOk, Some};

use crate::findings::{Checking, Spot};
use crate::judging::warn;
use crate::opening::{FilePiece, Nesting, OpenFile, Search, inclusion_in, open};
use crate::pieces::Piece;
use crate::pointing::{blanks_before, point};
use drv_place::{after_first, item_or};
use drv_search::Prefixes;
use drv_specs::SpecsFault;
use drv_system::{Outside, System};
use std::alloc::AllocError;

/// A fault with this number, if it is of a line.
fn with_number(number: usize, fault: SpecsFault) -> SpecsFault
    ensures { result ≡ with_number number fault }
{
    match fault {
        SpecsFault::BadLine(_) => SpecsFault::BadLine(number),
        other => other,
    }
}

/// Where a byte of a piece is.
pub(crate) fn spot_in(file: &OpenFile, piece: &Piece, at: usize) -> Spot
    ensures { Some result ≡ spot_in file.now piece.now at }
{
    let places = after_first(file.places.as_slice(), piece.start);
    Spot {
        source: file.number,
        at: item_or(places, at, file.size),
    }
}

/// Adds a fault of a piece.
fn note_fault(
    checking: &mut Checking,
    file: &OpenFile,
    piece: &Piece,
    fault: SpecsFault,
) -> Result<(), AllocError>
    ensures { OnOk result (checking.new ≡ faulty checking.old file.now piece.now fault) }
{
    let places = after_first(file.places.as_slice(), piece.start);
    let text = piece.text.as_bytes();
    let spot = Spot {
        source: file.number,
        at: point(&checking.set, text, places, file.size, &fault),
    };
    let fault = with_number(piece.number, fault);
    checking.findings.push_fault(Some(spot), fault)
}

/// Loads a piece as a text by itself, or adds its fault.
#[tactic(auto, using(crate::proofs::PieceSteps::changes, crate::proofs::PieceSteps::faults))]
fn change<S: System>(
    checking: &mut Checking,
    file: &OpenFile,
    piece: &Piece,
    prefixes: &Prefixes,
    outside: &mut Outside<'_, S>,
) -> Result<(), AllocError>
    ensures asks { Asked S.events outside.old outside.new }
    ensures changes { (F : Facts) → Extends outside.new.facts.now F
        → IfOk result (λ _. changed checking.old file.now piece.now
        (loaded F prefixes.now checking.old.set piece.now.text) ≡ Is checking.new) }
{
    let text = piece.text.as_bytes();
    match checking
        .set
        .load(text, prefixes, outside.sys, outside.facts)
    {
        Ok(()) => Ok(()),
        Err(SpecsFault::Memory) => Err(AllocError),
        Err(fault) => note_fault(checking, file, piece, fault),
    }
}

/// Checks a piece: it changes the set, or opens a file. `levels` more files may be nested.
#[tactic(auto, using(crate::proofs::PieceSteps::steps_in, crate::proofs::PieceSteps::steps_on))]
pub(crate) fn step<S: System>(
    search: &Search<'_>,
    checking: &mut Checking,
    levels: usize,
    here: &FilePiece<'_>,
    outside: &mut Outside<'_, S>,
) -> Result<Option<OpenFile>, AllocError>
    ensures asks { Asked S.events outside.old outside.new }
    ensures steps { (F : Facts) → Extends outside.new.facts.now F
        → IfOk result (λ next. step F search.now.prefixes.now levels checking.old
        here.now.file.now here.now.piece.now ≡ Is (checking.new, next)) }
    ensures within { IfOk result (λ next. IfSome next (λ _. 0 < levels)) }
{
    let text = here.piece.text.as_bytes();
    match inclusion_in(search.alloc, text)? {
        Some(inclusion) => {
            let nesting = Nesting {
                from: Some(spot_in(here.file, here.piece, blanks_before(text))),
                levels,
            };
            open(search, checking, nesting, &inclusion, outside)
        }
        None => {
            warn(search, checking, here)?;
            change(checking, here.file, here.piece, search.prefixes, outside)?;
            Ok(None)
        }
    }
}
