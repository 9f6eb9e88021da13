//! The spec file of a call, and the files beside it.

// In clauses: `Asked` says that a call only asked, and that the table has the answers. `Tells` says
// that a result is that of a definition, by any facts that extend what is known.
ghost use Rattle.drv_compile.specs.Beside.{bytes_read, given_by, is_written, known_names};
ghost use Rattle.drv_compile.specs.Beside.{path_if_plain};
ghost use Rattle.drv_compile.specs.Beside.{file_of_variable, or_own, plain_at, spec_file};
ghost use Rattle.drv_compile.specs.Beside.{written_beside, written_lines};
ghost use Rattle.drv_compile.specs.Written.{whole_lines};
ghost use Rattle.drv_search.specs.Code.Telling.{Tells};
ghost use Rattle.drv_search.specs.Search.{is_plain};
ghost use Rattle.drv_system.specs.Code.Asked.{Asked};
ghost use Rattle.std.specs.Option.{is_some, option_and_then, option_copied};
ghost use Rattle.std.specs.Prelude.{◌≡◌, IfOk};

use crate::places::{companion, path_of_caller};
use crate::written::whole_lines;
use drv_system::{Outside, PathKind, ReadAnswer, System};
use drv_words::Word;
use std::alloc::{AllocError, Global};

/// Whether a path is that of a plain file.
pub(crate) fn is_plain(kind: PathKind) -> bool
    ensures { result ≡ is_plain kind }
{
    matches!(kind, PathKind::Plain)
}

/// The lines before the mark of a file that was read, where it is whole.
fn lines_in(alloc: Global, answer: &ReadAnswer) -> Result<Option<Word>, AllocError>
    ensures { IfOk result (λ lines. lines ≡ option_and_then whole_lines (bytes_read answer.now)) }
{
    let ReadAnswer::Read(text) = answer else {
        return Ok(None);
    };
    match whole_lines(text.as_bytes()) {
        Some(lines) => Ok(Some(Word::from_bytes(alloc, lines)?)),
        None => Ok(None),
    }
}

/// The lines before the mark of a file that `gdrv-write-specs` wrote, where it is a plain file and
/// whole.
pub(crate) fn written_lines<S: System>(
    alloc: Global,
    path: &Word,
    outside: &mut Outside<'_, S>,
) -> Result<Option<Word>, AllocError>
    ensures asks { Asked S.events outside.old outside.new }
    ensures lines { Tells outside.new result (λ F. written_lines F path.now) }
{
    let kind = outside.facts.kind(outside.sys, path)?;
    if is_plain(kind) {
        outside.facts.read(outside.sys, path)?;
        return lines_in(alloc, outside.facts.read_answer(path));
    }
    Ok(None)
}

/// Whether a file that was read is whole.
fn is_whole(answer: &ReadAnswer) -> bool
    ensures { result ≡ is_some (option_and_then whole_lines (bytes_read answer.now)) }
{
    match answer {
        ReadAnswer::Read(text) => whole_lines(text.as_bytes()).is_some(),
        ReadAnswer::Missing | ReadAnswer::Failed | ReadAnswer::TooLarge => false,
    }
}

/// Whether a file that `gdrv-write-specs` wrote is a plain file and whole. Its lines aren't copied.
pub(crate) fn is_written<S: System>(
    path: &Word,
    outside: &mut Outside<'_, S>,
) -> Result<bool, AllocError>
    ensures asks { Asked S.events outside.old outside.new }
    ensures is { Tells outside.new result (λ F. is_written F path.now) }
{
    let kind = outside.facts.kind(outside.sys, path)?;
    if is_plain(kind) {
        outside.facts.read(outside.sys, path)?;
        return Ok(is_whole(outside.facts.read_answer(path)));
    }
    Ok(false)
}

/// The lines of the file of this ending beside a spec file, where it is whole.
pub(crate) fn written_beside<S: System>(
    alloc: Global,
    specs: &[u8],
    ending: &[u8],
    outside: &mut Outside<'_, S>,
) -> Result<Option<Word>, AllocError>
    ensures asks { Asked S.events outside.old outside.new }
    ensures lines { Tells outside.new result (λ F. written_beside F specs.now ending.now) }
{
    let path = companion(alloc, specs, ending)?;
    written_lines(alloc, &path, outside)
}

/// The names of the compiler's options, a line each, where the file that has them is whole.
pub(crate) fn known_names<S: System>(
    alloc: Global,
    specs: &[u8],
    outside: &mut Outside<'_, S>,
) -> Result<Option<Word>, AllocError>
    ensures asks { Asked S.events outside.old outside.new }
    ensures names { Tells outside.new result (λ F. known_names F specs.now) }
{
    written_beside(alloc, specs, b".options", outside)
}

/// The path, if it is that of a plain file.
fn path_if_plain(path: Word, kind: PathKind) -> Option<Word>
    ensures { result ≡ path_if_plain path kind }
{
    if is_plain(kind) { Some(path) } else { None }
}

/// The path, if it is a plain file.
fn plain_at<S: System>(
    path: Option<Word>,
    outside: &mut Outside<'_, S>,
) -> Result<Option<Word>, AllocError>
    ensures asks { Asked S.events outside.old outside.new }
    ensures path { Tells outside.new result (λ F. plain_at F path) }
{
    let Some(path) = path else {
        return Ok(None);
    };
    let kind = outside.facts.kind(outside.sys, &path)?;
    Ok(path_if_plain(path, kind))
}

/// The path that a variable gives, if it is set and not empty.
fn given_by(alloc: Global, value: Option<&Word>) -> Result<Option<Word>, AllocError>
    ensures { IfOk result (λ path. path ≡ given_by (option_copied value.entry)) }
{
    match value {
        Some(path) if !path.is_empty() => Ok(Some(path_of_caller(alloc, path.as_bytes())?)),
        _ => Ok(None),
    }
}

/// The path of the spec file that a variable names, if it names one.
pub(crate) fn file_of_variable<S: System>(
    alloc: Global,
    outside: &mut Outside<'_, S>,
) -> Result<Option<Word>, AllocError>
    ensures asks { Asked S.events outside.old outside.new }
    ensures path { Tells outside.new result (λ F. file_of_variable F) }
{
    let name = Word::from_bytes(alloc, b"GDRV_CC_SPECS")?;
    outside.facts.variable(outside.sys, &name)?;
    given_by(alloc, outside.facts.variable_answer(&name))
}

/// The path of a variable, or else one's own.
pub(crate) fn or_own(own: Option<Word>, named: Option<Word>) -> Option<Word>
    ensures { result ≡ or_own own named }
{
    match named {
        Some(path) => Some(path),
        None => own,
    }
}

/// The path of the spec file that a variable names, or else of the one at its own place, if that is
/// a plain file.
#[tactic(auto, using(drv_system::proofs::AskedCalls::asked_further))]
pub(crate) fn spec_file<S: System>(
    alloc: Global,
    own: Option<Word>,
    outside: &mut Outside<'_, S>,
) -> Result<Option<Word>, AllocError>
    ensures asks { Asked S.events outside.old outside.new }
    ensures path { Tells outside.new result (λ F. spec_file F own) }
{
    let named = file_of_variable(alloc, outside)?;
    plain_at(or_own(own, named), outside)
}
