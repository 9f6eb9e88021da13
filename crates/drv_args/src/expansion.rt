//! Expands response files.

// In clauses: `Extends F G` says that G has every answer of F. `Expands` says what an expansion
// gives. `Asks` says that a call only asked: it added new questions to the journal, and their
// answers to the table. `Asked` says that a call only asked, and that the table has the answers.
ghost use Rattle.drv_args.specs.Expansion.{Expands, file_named, is_over, limited};
ghost use Rattle.drv_args.specs.Code.Replacing.{IsPut, IsReplaced};
ghost use Rattle.drv_system.specs.Asking.{Asks, Extends};
ghost use Rattle.drv_system.specs.Code.Asked.{Asked};
ghost use Rattle.drv_system.specs.Facts.{Facts};
ghost use Rattle.drv_words.specs.Response.{SplitsOnto};
ghost use Rattle.std.specs.List.{list_any};
ghost use Rattle.std.specs.Prelude.{◌≡◌, ◌++◌, IfOk, IsTrue, OnOk, Some, drop, is_some, not, reverse};
ghost use Rattle.std.specs.Prelude.{take};

use crate::{ArgsFault, Expanded};
use drv_system::{FactTable, Outside, ReadAnswer, System};
use drv_words::{Listing, Word, split_onto, split_within};
use std::alloc::{AllocError, Global};

/// The most replacements.
const MOST_FILES: u32 = 2000;

/// The file that a word `@PATH` names.
fn referenced_path(alloc: Global, word: &Word) -> Result<Option<Word>, AllocError>
    ensures { IfOk result (λ path. path ≡ file_named word.now) }
{
    match word.as_bytes() {
        [b'@', path @ ..] if !path.is_empty() => Ok(Some(Word::from_bytes(alloc, path)?)),
        _ => Ok(None),
    }
}

/// Adds the words of a text to others, unless they are more than the limit. Returns whether they
/// are within it.
fn add_words(
    alloc: Global,
    words: &mut Listing<Word>,
    text: &[u8],
    most: Option<usize>,
) -> Result<bool, AllocError>
    ensures fits { IfOk result (λ fits. fits ≡ not (is_over most text.now)) }
    ensures splits { IfOk result (λ fits. IsTrue fits → SplitsOnto text.now words.old words.new) }
{
    let Some(most) = most else {
        split_onto(alloc, words, text)?;
        return Ok(true);
    };
    split_within(alloc, words, text, most)
}

/// If a word names a response file that can be read, adds the words of that file to `words`.
/// Returns the name of the file, and the index of the first of these words.
#[tactic(auto, using(drv_system::proofs::AskedCalls::asked_further))]
fn replace_word<S: System>(
    alloc: Global,
    word: &Word,
    most: Option<usize>,
    outside: &mut Outside<'_, S>,
    words: &mut Listing<Word>,
) -> Result<Option<(Word, usize)>, ArgsFault>
    ensures asks { Asked S.events outside.old outside.new }
    ensures replaces { (F : Facts) → Extends outside.new.facts.now F
        → IsReplaced (limited most F) word.now words.old words.new result }
{
    let Some(path) = referenced_path(alloc, word)? else {
        return Ok(None);
    };
    outside.facts.read(outside.sys, &path)?;
    match outside.facts.read_answer(&path) {
        ReadAnswer::Read(text) => {
            let start = words.len();
            if add_words(alloc, words, text.as_bytes(), most)? {
                return Ok(Some((path, start)));
            }
            Err(ArgsFault::ResponseTooLarge(path))
        }
        ReadAnswer::Missing | ReadAnswer::Failed => Ok(None),
        ReadAnswer::TooLarge => Err(ArgsFault::ResponseTooLarge(path)),
    }
}

/// Moves the words from an index on to the stack, with the first on top.
fn push_reversed(
    stack: &mut Vec<Word>,
    words: &mut Listing<Word>,
    start: usize,
) -> Result<(), AllocError>
    ensures stack { OnOk result
        (stack.new.items ≡ stack.old.items ++ reverse (drop start words.old)) }
    ensures words { OnOk result (words.new ≡ take start words.old) }
{
    while words.len() > start {
        let Some(word) = words.pop() else {
            return Ok(());
        };
        stack.push(word)?;
    }
    Ok(())
}

/// Whether a word names a file.
fn is_reference(word: &Word) -> bool
    ensures { result ≡ is_some (file_named word.now) }
{
    matches!(word.as_bytes(), [b'@', _, ..])
}

/// Whether one of these words names a file.
fn have_references(words: &[Word]) -> bool
    ensures { result ≡ list_any (λ word. is_some (file_named word)) words.now }
{
    words.iter().any(is_reference)
}

/// Keeps the words of a file, which are those from an index on, if none of them names a file.
/// Otherwise moves them to the stack, with the first on top.
fn put_words(
    stack: &mut Vec<Word>,
    words: &mut Listing<Word>,
    start: usize,
) -> Result<(), AllocError>
    ensures { OnOk result (IsPut (drop start words.old) stack.old.items stack.new.items
        (take start words.old) words.new) }
{
    let inner = words.as_slice().get(start..).unwrap_or(&[]);
    // A word that names a file is expanded before those after it.
    if have_references(inner) {
        return push_reversed(stack, words, start);
    }
    Ok(())
}

/// Replaces each argument that names a file.
#[tactic(auto, using(drv_system::proofs::AskedCalls::asked_further))]
fn expand_all<S: System>(
    alloc: Global,
    args: Listing<Word>,
    most: Option<usize>,
    outside: &mut Outside<'_, S>,
) -> Result<Expanded, ArgsFault>
    ensures asks { Asked S.events outside.old outside.new }
    ensures expands { (F : Facts) → Extends outside.new.facts.now F
        → Expands (limited most F) 2000 args result }
{
    let mut stack = args.into_vec();
    stack.reverse();
    let mut words = Listing::new(alloc);
    let mut files = Listing::new(alloc);
    let mut left = MOST_FILES;
    while let Some(word) = stack.pop() {
        match replace_word(alloc, &word, most, outside, &mut words)? {
            None => words.push(word)?,
            // A file may name itself, so there is a limit.
            Some(_) if left == 0 => return Err(ArgsFault::TooManyFiles),
            Some((path, start)) => {
                files.push(path)?;
                left -= 1;
                put_words(&mut stack, &mut words, start)?;
            }
        }
    }
    Ok(Expanded {
        words,
        from_file: left < MOST_FILES,
        files,
    })
}

/// Replaces each argument that names a file, if there is one.
fn expand_by<S: System>(
    alloc: Global,
    args: Listing<Word>,
    most: Option<usize>,
    sys: &mut S,
    facts: &mut FactTable,
) -> Result<Expanded, ArgsFault>
    ensures asks { Asks (S.events sys.old) (S.events sys.new) facts.old facts.new }
    ensures expands { (F : Facts) → Extends facts.new F
        → Expands (limited most F) 2000 args result }
{
    if have_references(args.as_slice()) {
        return expand_all(alloc, args, most, &mut Outside { sys, facts });
    }
    Ok(Expanded {
        words: args,
        from_file: false,
        files: Listing::new(alloc),
    })
}

/// Replaces each argument `@PATH` by the words of that response file, expanded in turn (GCC manual,
/// "Overall Options"). If the file is missing or can't be read, the argument stays.
///
/// # Errors
/// The first of these in the order of the words: `ResponseTooLarge` for a file of more than
/// 16,777,216 bytes, and `TooManyFiles` if more than 2,000 words would be replaced.
pub fn expand<S: System>(
    alloc: Global,
    args: Listing<Word>,
    sys: &mut S,
    facts: &mut FactTable,
) -> Result<Expanded, ArgsFault>
    ensures asks { Asks (S.events sys.old) (S.events sys.new) facts.old facts.new }
    ensures expands { (F : Facts) → Extends facts.new F → Expands F 2000 args result }
{
    expand_by(alloc, args, None, sys, facts)
}

/// Replaces arguments as [`expand`] does, with a limit on the words of one file.
///
/// # Errors
/// Those of [`expand`], and `ResponseTooLarge` in place of the words of a file that has more than
/// `most`.
pub fn expand_within<S: System>(
    alloc: Global,
    args: Listing<Word>,
    most: usize,
    sys: &mut S,
    facts: &mut FactTable,
) -> Result<Expanded, ArgsFault>
    ensures asks { Asks (S.events sys.old) (S.events sys.new) facts.old facts.new }
    ensures expands { (F : Facts) → Extends facts.new F
        → Expands (limited (Some most) F) 2000 args result }
{
    expand_by(alloc, args, Some(most), sys, facts)
}
