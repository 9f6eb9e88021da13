//! How the words of one command become those of another.

use drv_words::{Command, Listing, Word, quote};
use std::alloc::{AllocError, Global};

/// What makes one list of words another, at one place: any other word stays.
#[derive(Debug, Drop)]
pub enum Edit {
    /// This word of the first list goes.
    Goes(Word),
    /// This word of the second list comes.
    Comes(Word),
}

/// Adds that words come.
fn push_coming(found: &mut Listing<Edit>, words: &[Word]) -> Result<(), AllocError> {
    for word in words {
        found.push(Edit::Comes(word.clone()?))?;
    }
    Ok(())
}

/// The place of the first word like this one.
fn place_of(word: &Word, words: &[Word]) -> Option<usize> {
    words.iter().position(|other| word == other)
}

/// Whether the first of two words goes, by the place of the second behind the first, and of the
/// first behind the second.
fn goes_first(here: Option<usize>, there: Option<usize>) -> bool {
    match (here, there) {
        (None, Some(_)) => false,
        (Some(here), Some(there)) => here <= there,
        (_, None) => true,
    }
}

/// Adds the words of the first list that go and those of the second that come, in their order.
fn push_word_edits(
    found: &mut Listing<Edit>,
    words: &[Word],
    others: &[Word],
) -> Result<(), AllocError> {
    let mut left = words;
    let mut coming = others;
    while let [word, behind @ ..] = left {
        let [other, rest @ ..] = coming else {
            found.push(Edit::Goes(word.clone()?))?;
            left = behind;
            continue;
        };
        if word == other {
            left = behind;
            coming = rest;
        } else if goes_first(place_of(other, behind), place_of(word, rest)) {
            found.push(Edit::Goes(word.clone()?))?;
            left = behind;
        } else {
            found.push(Edit::Comes(other.clone()?))?;
            coming = rest;
        }
    }
    push_coming(found, coming)
}

/// The words of the first list that go and those of the second that come, in their order. They make
/// the first list the second, but may not be the fewest that do.
pub fn edits(alloc: Global, words: &[Word], others: &[Word]) -> Result<Listing<Edit>, AllocError> {
    let mut found = Listing::new(alloc);
    push_word_edits(&mut found, words, others)?;
    Ok(found)
}

/// The words of a command that go and those of another one that come.
pub(crate) fn command_edits(
    alloc: Global,
    command: &Command,
    other: &Command,
) -> Result<Listing<Edit>, AllocError> {
    let mut found = Listing::new(alloc);
    if command.program != other.program {
        found.push(Edit::Goes(command.program.clone()?))?;
        found.push(Edit::Comes(other.program.clone()?))?;
    }
    push_word_edits(&mut found, command.words.as_slice(), other.words.as_slice())?;
    Ok(found)
}

/// Adds a line for a word, after a mark, as a shell reads the word.
fn push_word(alloc: Global, text: &mut Vec<u8>, mark: u8, word: &Word) -> Result<(), AllocError> {
    text.push(mark)?;
    text.push(b' ')?;
    text.extend_from_slice(quote(alloc, word)?.as_bytes())?;
    text.push(b'\n')?;
    Ok(())
}

/// Adds words that go and those that come, each on a line of its own.
pub(crate) fn push_edits(
    alloc: Global,
    text: &mut Vec<u8>,
    edits: &[Edit],
) -> Result<(), AllocError> {
    for edit in edits {
        match edit {
            Edit::Goes(word) => push_word(alloc, text, b'<', word)?,
            Edit::Comes(word) => push_word(alloc, text, b'>', word)?,
        }
    }
    Ok(())
}
