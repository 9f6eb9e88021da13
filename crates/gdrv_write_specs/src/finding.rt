//! Words of plans are found.

use crate::fault::Fault;
use drv_words::{Listing, Word, base};
use std::alloc::Global;

/// A list has this word.
pub fn has_word(words: &[Word], word: &[u8]) -> bool {
    words.iter().any(|it| it.as_bytes() == word)
}

/// Whether a program has this name, alone or after that of a target: `as`, `bpf-as`.
fn is_called(program: &[u8], name: &[u8]) -> bool {
    match base(program).strip_suffix(name) {
        Some(target) => target.is_empty() || target.ends_with(b"-"),
        None => false,
    }
}

/// The last command of a program of this name, with its words; empty where there is none.
pub fn command_named<'a>(commands: &'a [Listing<Word>], name: &[u8]) -> &'a [Word] {
    let mut found: &[Word] = &[];
    for command in commands {
        if let [program, ..] = command.as_slice() {
            if is_called(program.as_bytes(), name) {
                found = command.as_slice();
            }
        }
    }
    found
}

/// The words after the first that is this one.
pub fn words_after<'a>(words: &'a [Word], before: &[u8]) -> &'a [Word] {
    match words.iter().position(|word| word.as_bytes() == before) {
        Some(at) => words
            .get(at..)
            .and_then(|rest| rest.get(1..))
            .unwrap_or(&[]),
        None => &[],
    }
}

/// The words from one on and before another.
pub fn words_between<'a>(words: &'a [Word], from: &[u8], to: &[u8]) -> &'a [Word] {
    let rest = words_after(words, from);
    let end = rest.iter().position(|word| word.as_bytes() == to);
    rest.get(..end.unwrap_or(rest.len())).unwrap_or(rest)
}

/// The word after this one; empty where there is none.
pub fn word_after(alloc: Global, words: &[Word], before: &[u8]) -> Result<Word, Fault> {
    match words_after(words, before) {
        [word, ..] => Ok(word.clone()?),
        [] => Ok(Word::empty(alloc)),
    }
}

/// The first word that begins so; empty where there is none.
pub fn word_beginning(alloc: Global, words: &[Word], start: &[u8]) -> Result<Word, Fault> {
    match words.iter().find(|word| word.as_bytes().starts_with(start)) {
        Some(word) => Ok(word.clone()?),
        None => Ok(Word::empty(alloc)),
    }
}
