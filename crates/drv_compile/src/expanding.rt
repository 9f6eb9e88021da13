//! The words of a call.

// In clauses: `Extends F G` says that G has every answer of F. `Asked` says that a call only asked,
// and that the table has the answers. `Tells` says that a result is that of a definition, by any
// facts that extend what is known. `Gives` says that a result is the defined one, or lack of
// memory. `IfTold stop P` says that P holds of the text of a stop, if it has one.
ghost use Rattle.drv_args.specs.Expansion.{Expands, file_named};
ghost use Rattle.drv_compile.specs.Tasks.{IfTold};
ghost use Rattle.drv_compile.specs.Words.{IsUnexpanded, IsUnfronted, IsUnread, RefusesWords};
ghost use Rattle.drv_compile.specs.Words.{Words, first_unread, if_unread, stop_of, words_of_front};
ghost use Rattle.drv_compile.specs.Words.{unread_at, unserved, within_limit};
ghost use Rattle.drv_run.specs.declared.ending.Ending.TheVariants as ending;
ghost use Rattle.drv_search.specs.Code.Telling.{Tells};
ghost use Rattle.drv_system.specs.Asking.{Extends};
ghost use Rattle.drv_system.specs.Code.Asked.{Asked};
ghost use Rattle.drv_system.specs.Facts.{Facts};
ghost use Rattle.drv_words.specs.Gives.{Gives};
ghost use Rattle.drv_system.specs.Known.{Is};
ghost use Rattle.std.specs.Option.{option_copied};
ghost use Rattle.std.specs.Prelude.{◌≡◌, IfOk, MatchResult, None, Ok};

use crate::calling::{Calling, Front};
use crate::stop::Stop;
use crate::wording::{told_refusal, unread_text};
use drv_args::{Expanded, expand_within};
use drv_plan::PlanFault;
use drv_run::{Ending, Refusal};
use drv_system::{Outside, ReadAnswer, System};
use drv_words::{Listing, Word};
use std::alloc::{AllocError, Global};

/// The most words of one response file.
const MOST_WORDS: usize = 262_144;

/// The path of the response file that a word names.
pub(crate) fn file_named(word: &[u8]) -> Option<&[u8]>
    ensures { option_copied result ≡ file_named word.now }
{
    match word {
        [b'@', path @ ..] if !path.is_empty() => Some(path),
        _ => None,
    }
}

/// The path of a file that can't be read.
fn if_unread(path: Word, answer: &ReadAnswer) -> Option<Word>
    ensures { result ≡ if_unread path answer.now }
{
    match answer {
        ReadAnswer::Failed => Some(path),
        ReadAnswer::Read(_) | ReadAnswer::Missing | ReadAnswer::TooLarge => None,
    }
}

/// The path of a response file that is there and can't be read, if there is a path.
fn unread_at<S: System>(
    alloc: Global,
    path: Option<&[u8]>,
    outside: &mut Outside<'_, S>,
) -> Result<Option<Word>, AllocError>
    ensures asks { Asked S.events outside.old outside.new }
    ensures path { Tells outside.new result (λ F. unread_at F (option_copied path.entry)) }
{
    let Some(path) = path else {
        return Ok(None);
    };
    let path = Word::from_bytes(alloc, path)?;
    outside.facts.read(outside.sys, &path)?;
    let answer = outside.facts.read_answer(&path);
    Ok(if_unread(path, answer))
}

/// The path of the first response file that words name and that can't be read.
#[tactic(auto, using(drv_system::proofs::AskedCalls::asked_further))]
fn first_unread<S: System>(
    alloc: Global,
    words: &[Word],
    outside: &mut Outside<'_, S>,
) -> Result<Option<Word>, AllocError>
    ensures asks { Asked S.events outside.old outside.new }
    ensures path { Tells outside.new result (λ F. first_unread F words.now) }
{
    for word in words {
        let unread = unread_at(alloc, file_named(word.as_bytes()), outside)?;
        if unread.is_some() {
            return Ok(unread);
        }
    }
    Ok(None)
}

/// The refusal of a line in a language that no spec file serves.
fn unserved(alloc: Global, language: &[u8]) -> Result<Ending, AllocError>
    ensures { IfOk result (λ ending. ending ≡ unserved language.now) }
{
    let language = Word::from_bytes(alloc, language)?;
    Ok(Ending::Refused(Refusal::Plan(PlanFault::NotInstalled(language))))
}

/// The words of gcc for those of a front.
fn words_of_front(alloc: Global, front: Front, expanded: Expanded) -> Result<Expanded, Ending>
    ensures { Gives ending.OutOfMemory (λ words. words) result (words_of_front front expanded) }
{
    match front {
        Front::Gcc => Ok(expanded),
        Front::C99 => {
            let words = drv_c99::front(alloc, expanded.words.as_slice())?;
            Ok(Expanded { words, ..expanded })
        }
        Front::Cxx => {
            let ending = unserved(alloc, b"C++")?;
            Err(ending)
        }
    }
}

/// Why a call ends that the driver would end so.
pub(crate) fn stop_of(alloc: Global, name: &[u8], ending: &Ending) -> Result<Stop, AllocError>
    ensures { IfOk result (λ stop. stop ≡ stop_of name.now ending.now) }
{
    match ending {
        Ending::Refused(refusal) => Ok(Stop::Told(told_refusal(alloc, name, refusal)?)),
        Ending::Done(_) | Ending::OutOfMemory => Ok(Stop::Memory),
    }
}

/// Arguments with their response files expanded.
///
/// # Errors
/// The text of their refusal.
fn expansion<S: System>(
    alloc: Global,
    name: &[u8],
    args: &Listing<Word>,
    outside: &mut Outside<'_, S>,
) -> Result<Expanded, Stop>
    ensures asks { Asked S.events outside.old outside.new }
    ensures gives { (F : Facts) → Extends outside.new.facts.now F
        → MatchResult result
        (λ expanded. Expands (within_limit F) 2000 args.now (Ok expanded))
        (λ stop. IfTold stop (IsUnexpanded F name.now args.now)) }
{
    let args = args.clone()?;
    match expand_within(alloc, args, MOST_WORDS, outside.sys, outside.facts) {
        Ok(expanded) => Ok(expanded),
        Err(fault) => {
            let stop = stop_of(alloc, name, &Ending::from(fault))?;
            Err(stop)
        }
    }
}

/// Refuses words of which one names a response file that can't be read.
///
/// # Errors
/// The text about the first such file.
fn refuse_unread<S: System>(
    alloc: Global,
    name: &[u8],
    words: &[Word],
    outside: &mut Outside<'_, S>,
) -> Result<(), Stop>
    ensures asks { Asked S.events outside.old outside.new }
    ensures gives { (F : Facts) → Extends outside.new.facts.now F
        → MatchResult result (λ _. first_unread F words.now ≡ Is None)
        (λ stop. IfTold stop (IsUnread F name.now words.now)) }
{
    let unread = first_unread(alloc, words, outside)?;
    let Some(path) = unread else {
        return Ok(());
    };
    let text = unread_text(alloc, name, path.as_bytes())?;
    Err(Stop::Told(text))
}

/// The words of gcc for those of the call's front.
///
/// # Errors
/// The text of their refusal.
fn gcc_words(alloc: Global, calling: &Calling, expanded: Expanded) -> Result<Expanded, Stop>
    ensures { MatchResult result (λ words. words_of_front calling.now.front expanded ≡ Ok words)
        (λ stop. IfTold stop (IsUnfronted calling.now expanded)) }
{
    match words_of_front(alloc, calling.front, expanded) {
        Ok(words) => Ok(words),
        Err(ending) => {
            let stop = stop_of(alloc, calling.name.as_bytes(), &ending)?;
            Err(stop)
        }
    }
}

/// The words of a call: response files expanded, and those of c99 turned into gcc's.
///
/// # Errors
/// The text of their refusal.
#[tactic(auto, using(drv_system::proofs::AskedCalls::asked_further))]
pub(crate) fn line_words<S: System>(
    alloc: Global,
    calling: &Calling,
    args: &Listing<Word>,
    outside: &mut Outside<'_, S>,
) -> Result<Expanded, Stop>
    ensures asks { Asked S.events outside.old outside.new }
    ensures gives { (F : Facts) → Extends outside.new.facts.now F
        → MatchResult result (λ words. Words F calling.now args.now words)
        (λ stop. IfTold stop (RefusesWords F calling.now args.now)) }
{
    let name = calling.name.as_bytes();
    let expanded = expansion(alloc, name, args, outside)?;
    refuse_unread(alloc, name, expanded.words.as_slice(), outside)?;
    gcc_words(alloc, calling, expanded)
}
