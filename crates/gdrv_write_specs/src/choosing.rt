//! Options for no machine by which a gcc chooses words for its machine.

use crate::asking::Gcc;
use crate::fault::Fault;
use crate::finding::has_word;
use crate::rows::switches_of;
use crate::texts::{add_all, joined};
use drv_gcc::values;
use drv_words::{Listing, Word, split};
use std::alloc::Global;

/// Options by which some gccs choose such words (mips: `-mno-shared` where code is at a fixed place).
const CHOOSERS: [&[u8]; 8] = [
    b"-fpic",
    b"-fPIC",
    b"-fpie",
    b"-fPIE",
    b"-fno-pic",
    b"-fno-PIC",
    b"-fno-pie",
    b"-fno-PIE",
];

/// An option by which a gcc chooses words.
#[derive(Drop)]
pub struct Chooser {
    /// The option.
    pub option: Word,
    /// The first of those that choose the same words.
    pub first: Word,
    /// The words.
    words: Listing<Word>,
}

/// Whether a word is one of these options. It keeps its place on the line, so no row has it.
pub fn is_chooser(word: &[u8]) -> bool {
    CHOOSERS.iter().any(|option| *option == word)
}

/// Whether two lists have the same words.
fn are_alike(words: &[Word], others: &[Word]) -> bool {
    words.len() == others.len() && words.iter().all(|word| has_word(others, word.as_bytes()))
}

/// The first of these options that chooses such words; else this one.
fn first_alike(choosers: &[Chooser], words: &[Word], option: &Word) -> Result<Word, Fault> {
    match choosers
        .iter()
        .find(|it| are_alike(it.words.as_slice(), words))
    {
        Some(it) => Ok(it.first.clone()?),
        None => Ok(option.clone()?),
    }
}

/// The options by which a gcc chooses words for its machine.
pub fn choosers_of(gcc: Gcc<'_>) -> Result<Listing<Chooser>, Fault> {
    let alloc = gcc.alloc();
    let mut choosers: Listing<Chooser> = Listing::new(alloc);
    let Some(usual) = switches_of(gcc)? else {
        return Ok(choosers);
    };
    for option in CHOOSERS {
        if let Some(words) = switches_of(gcc.with(option))?
            && !are_alike(words.as_slice(), usual.as_slice())
        {
            let option = Word::from_bytes(alloc, option)?;
            let first = first_alike(choosers.as_slice(), words.as_slice(), &option)?;
            choosers.push(Chooser {
                option,
                first,
                words,
            })?;
        }
    }
    Ok(choosers)
}

/// Adds an option to a key.
pub fn add_option(key: &mut Word, option: &[u8]) -> Result<(), Fault> {
    if !key.is_empty() {
        key.push(b' ')?;
    }
    Ok(key.extend_from_slice(option)?)
}

/// These options, as a line has them.
pub fn options_text(alloc: Global, options: &[Word]) -> Result<Word, Fault> {
    let mut text = Word::empty(alloc);
    for option in options {
        add_option(&mut text, option.as_bytes())?;
    }
    Ok(text)
}

/// A key, and the same with each option that is the first of its like.
pub fn keys_with(key: &Word, choosers: &[Chooser], alloc: Global) -> Result<Listing<Word>, Fault> {
    let mut keys = Listing::new(alloc);
    keys.push(key.clone()?)?;
    for it in choosers {
        if it.option.as_bytes() == it.first.as_bytes() {
            let mut other = key.clone()?;
            add_option(&mut other, it.option.as_bytes())?;
            keys.push(other)?;
        }
    }
    Ok(keys)
}

/// Whether a row can be for an option by the lines of a text: one for a machine, as gdrv-cc reads a
/// line, or one by which the gcc chooses words.
fn fits(alloc: Global, text: &[u8], option: &[u8]) -> Result<bool, Fault> {
    let is_machine = option.starts_with(b"-m")
        || option == b"-EB".as_slice()
        || option == b"-EL".as_slice();
    if is_machine || !is_chooser(option) {
        return Ok(is_machine);
    }
    let head = joined(alloc, &[b"key ".as_slice(), option, b" "])?;
    Ok(!values(alloc, head.as_bytes(), text)?.is_empty())
}

/// The first of these options for which no row can be, by the lines of a text. A word without one is
/// such, too.
pub fn misfit_in(alloc: Global, text: &[u8], options: &[Word]) -> Result<Option<Word>, Fault> {
    for word in options {
        let parts = split(alloc, word.as_bytes())?;
        if parts.is_empty() {
            return Ok(Some(word.clone()?));
        }
        for option in parts.as_slice() {
            if !fits(alloc, text, option.as_bytes())? {
                return Ok(Some(option.clone()?));
            }
        }
    }
    Ok(None)
}

/// The key of these options by the lines of a text: the words that it has for some options come last,
/// and other options that could choose words are left out.
pub fn key_by(alloc: Global, text: &[u8], options: &[Word]) -> Result<Word, Fault> {
    let mut key = Word::empty(alloc);
    for option in options {
        if !is_chooser(option.as_bytes()) {
            add_option(&mut key, option.as_bytes())?;
        }
    }
    for line in values(alloc, b"key ", text)?.as_slice() {
        if let [option, first] = split(alloc, line.as_bytes())?.as_slice() {
            if has_word(options, option.as_bytes()) {
                add_option(&mut key, first.as_bytes())?;
            }
        }
    }
    Ok(key)
}

/// Adds the lines of these options.
pub fn push_choosers(text: &mut Word, choosers: &[Chooser]) -> Result<(), Fault> {
    for it in choosers {
        let (option, first) = (it.option.as_bytes(), it.first.as_bytes());
        add_all(text, &[b"key ", option, b" ", first, b"\n"])?;
    }
    Ok(())
}
