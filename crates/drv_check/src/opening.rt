//! Files whose directives are checked.

// In clauses: `Extends F G` says that G has every answer of F. `Asked` says that a call only asked,
// and that the table has the answers.
ghost use Rattle.drv_check.specs.Checks.{by_text, found_text, open_file, opened, was_read};
ghost use Rattle.drv_check.specs.Includes.{inclusion_in};
ghost use Rattle.drv_specs.specs.Loading.{text_read};
ghost use Rattle.drv_system.specs.Asking.{Extends};
ghost use Rattle.drv_system.specs.Code.Asked.{Asked};
ghost use Rattle.drv_system.specs.Facts.{Facts};
ghost use Rattle.drv_system.specs.Known.{Is};
ghost use Rattle.std.specs.Prelude.{◌≡◌, ◌<◌, IfOk, IfSome};

use crate::findings::{Checking, Source, Spot};
use crate::pieces::{Piece, checked_pieces};
use drv_place::settle;
use drv_search::{Prefixes, find_file};
use drv_specs::{Directive, IfMissing, SpecsFault, first_directive};
use drv_system::{Outside, ReadAnswer, System};
use drv_words::{Listing, Word};
use std::alloc::{AllocError, Global};

/// What is told of files.
#[derive(Clone, Copy, Debug)]
pub(crate) enum Telling {
    /// Their faults alone.
    Faults,
    /// Also what is surely not meant.
    Warnings,
}

/// How files are found, along prefixes, and what is told of them.
#[derive(Clone, Copy)]
pub(crate) struct Search<'a> {
    pub(crate) alloc: Global,
    pub(crate) prefixes: &'a Prefixes,
    pub(crate) telling: Telling,
}

/// Where a file is opened.
#[derive(Clone, Copy)]
pub(crate) struct Nesting {
    /// The spot that includes it; a file of the call has none.
    pub(crate) from: Option<Spot>,
    /// How many more files may be nested.
    pub(crate) levels: usize,
}

/// The file that a piece includes.
#[derive(Debug, Drop)]
pub(crate) struct Inclusion {
    /// What becomes of it where the file is missing.
    pub(crate) if_missing: IfMissing,
    /// Its name.
    pub(crate) file: Word,
}

/// A piece of an open file.
#[derive(Clone, Copy)]
pub(crate) struct FilePiece<'a> {
    pub(crate) file: &'a OpenFile,
    pub(crate) piece: &'a Piece,
}

/// A file whose directives are checked.
#[derive(Drop)]
pub(crate) struct OpenFile {
    /// Its place among the sources.
    pub(crate) number: usize,
    /// Whether it was read before, so that its warnings are told.
    pub(crate) again: bool,
    /// The size of its text.
    pub(crate) size: usize,
    /// Where each byte is in that text that is left of it.
    pub(crate) places: Listing<usize>,
    /// Its directives.
    pub(crate) pieces: Listing<Piece>,
}

/// A file with this text, the next of the sources.
pub(crate) fn open_file(alloc: Global, number: usize, text: &[u8]) -> Result<OpenFile, AllocError>
    ensures { IfOk result (λ file. file ≡ open_file number text.now) }
{
    let settled = settle(alloc, text)?;
    let pieces = checked_pieces(alloc, settled.text.as_bytes())?;
    Ok(OpenFile {
        number,
        again: false,
        size: text.len(),
        places: settled.places,
        pieces,
    })
}

/// The file that a piece includes, if it is such a directive.
pub(crate) fn inclusion_in(alloc: Global, text: &[u8]) -> Result<Option<Inclusion>, AllocError>
    ensures { IfOk result (λ inclusion. inclusion ≡ inclusion_in text.now) }
{
    match first_directive(text) {
        Some(Directive::Include { if_missing, file }) => Ok(Some(Inclusion {
            if_missing,
            file: Word::from_bytes(alloc, file)?,
        })),
        _ => Ok(None),
    }
}

/// The text that an answer gives.
fn text_read(
    alloc: Global,
    if_missing: IfMissing,
    path: &Word,
    answer: &ReadAnswer,
) -> Result<Result<Word, SpecsFault>, AllocError>
    ensures { IfOk result (λ text. text ≡ text_read if_missing path.now answer.now) }
{
    match answer {
        ReadAnswer::Read(text) => Ok(Ok(text.clone()?)),
        ReadAnswer::Missing => match if_missing {
            IfMissing::PassOver => Ok(Ok(Word::empty(alloc))),
            IfMissing::Refuse => Ok(Err(SpecsFault::NoSuchFile(path.clone()?))),
        },
        ReadAnswer::Failed | ReadAnswer::TooLarge => {
            Ok(Err(SpecsFault::Unreadable(path.clone()?)))
        }
    }
}

/// The path of an included file, and its text.
#[tactic(auto, using(drv_system::proofs::AskedCalls::asked_further))]
fn find_text<S: System>(
    search: &Search<'_>,
    inclusion: &Inclusion,
    outside: &mut Outside<'_, S>,
) -> Result<(Word, Result<Word, SpecsFault>), AllocError>
    ensures asks { Asked S.events outside.old outside.new }
    ensures finds { (F : Facts) → Extends outside.new.facts.now F
        → IfOk result (λ found. found_text F search.now.prefixes.now inclusion.now ≡ Is found) }
{
    let alloc = search.alloc;
    let prefixes = search.prefixes;
    let path = find_file(alloc, prefixes, &inclusion.file, outside.sys, outside.facts)?;
    outside.facts.read(outside.sys, &path)?;
    let answer = outside.facts.read_answer(&path);
    let text = text_read(alloc, inclusion.if_missing, &path, answer)?;
    Ok((path, text))
}

/// Whether one of these sources has a path.
fn was_read(sources: &[Source], path: &[u8]) -> bool
    ensures { result ≡ was_read sources.now path.now }
{
    sources.iter().any(|source| path == source.name.as_bytes())
}

/// Adds a file with this text to the sources, or why it has none.
fn take_text(
    alloc: Global,
    checking: &mut Checking,
    from: Option<Spot>,
    path: Word,
    text: Result<Word, SpecsFault>,
) -> Result<Option<OpenFile>, AllocError>
    ensures { IfOk result (λ file. (checking.new, file) ≡ by_text checking.old from path text) }
{
    match text {
        Ok(text) => {
            let again = was_read(checking.sources.as_slice(), path.as_bytes());
            let mut file = open_file(alloc, checking.sources.len(), text.as_bytes())?;
            file.again = again;
            checking.sources.push(Source {
                name: path,
                text,
                from,
            })?;
            Ok(Some(file))
        }
        Err(fault) => {
            checking.findings.push_fault(from, fault)?;
            Ok(None)
        }
    }
}

/// Opens a file, or adds why it can't be opened.
#[tactic(auto, using(crate::proofs::FilesOpened::opens, crate::proofs::FilesOpened::opens_none, crate::proofs::FilesOpened::opens_deep))]
pub(crate) fn open<S: System>(
    search: &Search<'_>,
    checking: &mut Checking,
    nesting: Nesting,
    inclusion: &Inclusion,
    outside: &mut Outside<'_, S>,
) -> Result<Option<OpenFile>, AllocError>
    ensures asks { Asked S.events outside.old outside.new }
    ensures opens { (F : Facts) → Extends outside.new.facts.now F
        → IfOk result (λ file. opened F search.now.prefixes.now nesting.levels checking.old
        nesting.from inclusion.now ≡ Is (checking.new, file)) }
    ensures within { IfOk result (λ file. IfSome file (λ _. 0 < nesting.levels)) }
{
    let from = nesting.from;
    if nesting.levels == 0 {
        checking
            .findings
            .push_fault(from, SpecsFault::IncludeTooDeep)?;
        return Ok(None);
    }
    if checking.files == 0 {
        checking
            .findings
            .push_fault(from, SpecsFault::TooManyIncludes)?;
        return Ok(None);
    }
    checking.files -= 1;
    let (path, text) = find_text(search, inclusion, outside)?;
    take_text(search.alloc, checking, from, path, text)
}
