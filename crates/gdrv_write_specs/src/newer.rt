//! Options that newer gccs pass over or call by another name: an older one may take them as they are,
//! or lack them.

use crate::asking::{Gcc, commands};
use crate::fault::Fault;
use crate::finding::has_word;
use crate::refusing::Refusals;
use crate::texts::{add_all, joined};
use drv_options::{FEATURES, IGNORED, MACHINES, OptionRow, Takes, WARNINGS};
use drv_words::{Listing, Word, split};
use std::alloc::Global;

/// An option, and the name by which newer gccs call it; empty where they pass it over.
#[derive(Drop)]
struct Entry {
    option: Word,
    name: Word,
}

/// What follows the hyphen and the letter of options of a sign: a gcc takes one of two that differ
/// in it alone.
const SIGNS: [&[u8]; 2] = [b"", b"no-"];

/// Whether an option is of a sign.
fn is_of(option: &[u8], sign: &[u8]) -> bool {
    matches!(option, [_, _, b'n', b'o', b'-', ..]) != sign.is_empty()
}

/// Adds the options with a sign that newer gccs pass over.
fn add_ignored(alloc: Global, sign: &[u8], entries: &mut Listing<Entry>) -> Result<(), Fault> {
    for option in IGNORED {
        let (letter, name) = option.split_at(2.min(option.len()));
        entries.push(Entry {
            option: joined(alloc, &[letter, sign, name])?,
            name: Word::empty(alloc),
        })?;
    }
    Ok(())
}

/// Adds the options with a sign, of these rows, that newer gccs alone call by another name.
fn add_renamed(
    alloc: Global,
    rows: &[OptionRow],
    sign: &[u8],
    entries: &mut Listing<Entry>,
) -> Result<(), Fault> {
    for (option, takes, name, _, _) in rows {
        if matches!(takes, Takes::Newer) && is_of(option, sign) {
            entries.push(Entry {
                option: Word::from_bytes(alloc, option)?,
                name: Word::from_bytes(alloc, name)?,
            })?;
        }
    }
    Ok(())
}

/// The entries of all options with a sign.
fn entries(alloc: Global, sign: &[u8]) -> Result<Listing<Entry>, Fault> {
    let mut entries = Listing::new(alloc);
    add_ignored(alloc, sign, &mut entries)?;
    add_renamed(alloc, &WARNINGS, sign, &mut entries)?;
    add_renamed(alloc, &FEATURES, sign, &mut entries)?;
    add_renamed(alloc, &MACHINES, sign, &mut entries)?;
    Ok(entries)
}

/// The options of these entries.
fn options_of(alloc: Global, entries: &[Entry]) -> Result<Listing<Word>, Fault> {
    let mut options = Listing::new(alloc);
    for entry in entries {
        options.push(entry.option.clone()?)?;
    }
    Ok(options)
}

/// The words of the commands by which a gcc compiles with the options of these entries that it takes.
fn words_with(
    gcc: Gcc<'_>,
    entries: &[Entry],
    refusals: &Refusals,
) -> Result<Listing<Word>, Fault> {
    let alloc = gcc.alloc();
    let mut line = split(alloc, b"-### -S x.i -o made")?;
    for entry in entries {
        if !refusals.have(entry.option.as_bytes()) {
            line.push(entry.option.clone()?)?;
        }
    }
    let shown = gcc.ask_words(line.as_slice())?;
    let mut words = Listing::new(alloc);
    for command in commands(alloc, shown.err.as_bytes())?.into_vec() {
        for word in command.into_vec() {
            words.push(word)?;
        }
    }
    Ok(words)
}

/// Whether a gcc that gives its compiler these words takes the option of an entry as it is: it is
/// among them, or the other name is not.
fn is_own(words: &[Word], entry: &Entry) -> bool {
    let name = entry.name.as_bytes();
    has_word(words, entry.option.as_bytes()) || (!name.is_empty() && !has_word(words, name))
}

/// Adds the options of a sign, each behind a blank: those that a gcc takes as they are, and then, with
/// a mark, those that it refuses and newer gccs pass over.
fn add_signed(gcc: Gcc<'_>, sign: &[u8], line: &mut Word) -> Result<(), Fault> {
    let all = entries(gcc.alloc(), sign)?;
    let refusals = Refusals::of(gcc, options_of(gcc.alloc(), all.as_slice())?.as_slice())?;
    let words = words_with(gcc, all.as_slice(), &refusals)?;
    for entry in all.as_slice() {
        let option = entry.option.as_bytes();
        if !refusals.have(option) && is_own(words.as_slice(), entry) {
            add_all(line, &[b" ", option])?;
        }
    }
    for entry in all.as_slice() {
        let option = entry.option.as_bytes();
        if refusals.have(option) && entry.name.is_empty() {
            add_all(line, &[b" ", option, b"?"])?;
        }
    }
    Ok(())
}

/// The line of the options that a gcc takes as they are where newer ones pass them over or call them
/// by another name. Those that it refuses and newer ones pass over are in it too, with a mark. There
/// is no line where there are none.
pub fn own_line(gcc: Gcc<'_>) -> Result<Word, Fault> {
    let mut line = Word::empty(gcc.alloc());
    for sign in SIGNS {
        add_signed(gcc, sign, &mut line)?;
    }
    if !line.is_empty() {
        line.push(b'\n')?;
    }
    Ok(line)
}
