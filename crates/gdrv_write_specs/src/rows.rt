//! Rows: the options of a line that choose a machine, and the words that gcc makes of them. gdrv-cc
//! hands on the words of a row in the place of its options.

use crate::asking::Gcc;
use crate::choosing::{Chooser, is_chooser, keys_with};
use crate::devices::is_of_device;
use crate::fault::Fault;
use crate::finding::{command_named, has_word, word_after, words_between};
use crate::programs::is_folder;
use crate::texts::{add_all, joined, numbered};
use drv_gcc::{replace, values};
use drv_words::{Listing, Word, split};
use std::alloc::Global;

/// A row: the options of a line that choose a machine, and the words that gcc makes of them.
#[derive(Drop)]
pub struct Row {
    /// The options, as a line has them.
    pub key: Word,
    /// The words.
    pub words: Listing<Word>,
}

/// The line by which a gcc shows what it hands on, and the variables of its children.
pub const SHOWING: &[u8] = b"-### -c -x c /dev/null";

/// The switches that gcc makes of a line with its options; none where it refuses them.
pub fn switches_of(gcc: Gcc<'_>) -> Result<Option<Listing<Word>>, Fault> {
    let alloc = gcc.alloc();
    let said = gcc.ask(SHOWING)?;
    let lines = values(alloc, b"COLLECT_GCC_OPTIONS=", said.err.as_bytes())?;
    let ([line, ..], true) = (lines.as_slice(), said.is_done) else {
        return Ok(None);
    };
    let mut words = Listing::new(alloc);
    for word in split(alloc, line.as_bytes())?.into_vec() {
        if is_of_device(word.as_bytes()) {
            words.push(joined(alloc, &[b"--gdrv-child=".as_slice(), word.as_bytes()])?)?;
        } else if word.as_bytes() != b"-c".as_slice() && !is_chooser(word.as_bytes()) {
            words.push(word)?;
        }
    }
    Ok(Some(words))
}

/// The folder of the libraries for a gcc's options: `.` where it is its own.
pub fn library_of(gcc: Gcc<'_>) -> Result<Word, Fault> {
    gcc.answer(b"-print-multi-directory", b"")
}

/// The switch for libraries in a folder of this name, with commas for its slashes: no test has a
/// slash.
pub fn folder_switch(alloc: Global, name: &Word) -> Result<Word, Fault> {
    let name = replace(alloc, name.as_bytes(), b"/", b",")?;
    joined(alloc, &[b"-gdrv-multi=".as_slice(), name.as_bytes()])
}

/// Adds the words for the folder of the libraries, if they are in one of their own: its switch, and
/// each place that has it in one of these folders.
fn add_folder(gcc: Gcc<'_>, folders: &[Word], words: &mut Listing<Word>) -> Result<(), Fault> {
    let alloc = gcc.alloc();
    let name = library_of(gcc)?;
    if name.as_bytes() == b".".as_slice() {
        return Ok(());
    }
    let switch = folder_switch(alloc, &name)?;
    words.push(joined(alloc, &[b"-".as_slice(), switch.as_bytes()])?)?;
    for folder in folders {
        let place = joined(alloc, &[folder.as_bytes(), name.as_bytes(), b"/"])?;
        if is_folder(gcc.rt, place.as_bytes())? {
            words.push(joined(alloc, &[b"--gdrv-in=".as_slice(), place.as_bytes()])?)?;
        }
    }
    Ok(())
}

/// The command that shows what a function gives, which is asked by itself.
fn shown_by(gcc: Gcc<'_>, probe: &Word) -> Result<Listing<Listing<Word>>, Fault> {
    let line = [b"-### x.o -o x -specs=".as_slice(), probe.as_bytes()];
    gcc.plan(joined(gcc.alloc(), &line)?.as_bytes())
}

/// Adds a word for each that the function of this number gives: those behind a word of these
/// commands.
fn push_values(
    alloc: Global,
    number: usize,
    commands: &[Listing<Word>],
    from: &[u8],
    words: &mut Listing<Word>,
) -> Result<(), Fault> {
    let name = numbered(alloc, b"--gdrv-fn", number)?;
    for value in words_between(command_named(commands, from), from, b"PROBE-END") {
        words.push(joined(alloc, &[name.as_bytes(), b"=", value.as_bytes()])?)?;
    }
    Ok(())
}

/// Adds a word for each that a function gives. All are asked at once, and those by themselves that
/// show nothing so, since a function may end gcc.
fn add_values(gcc: Gcc<'_>, probes: &[Word], words: &mut Listing<Word>) -> Result<(), Fault> {
    let alloc = gcc.alloc();
    let all = gcc.all_shown(probes)?;
    for (number, probe) in probes.iter().enumerate() {
        let from = joined(alloc, &[b"PROBE-".as_slice(), probe.as_bytes()])?;
        if command_named(all.as_slice(), from.as_bytes()).is_empty() {
            let alone = shown_by(gcc, probe)?;
            push_values(alloc, number, alone.as_slice(), b"PROBE-V", words)?;
        } else {
            push_values(alloc, number, all.as_slice(), from.as_bytes(), words)?;
        }
    }
    Ok(())
}

/// The row of a gcc's options, for one with these folders; none where it refuses them.
pub fn row_of(gcc: Gcc<'_>, probes: &[Word], folders: &[Word]) -> Result<Option<Row>, Fault> {
    let Some(mut words) = switches_of(gcc)? else {
        return Ok(None);
    };
    add_folder(gcc, folders, &mut words)?;
    add_values(gcc, probes, &mut words)?;
    let key = Word::from_bytes(gcc.alloc(), gcc.options)?;
    Ok(Some(Row { key, words }))
}

/// The options of a library, as `-print-multi-lib` names them: each after an `@`.
fn multilib_options(alloc: Global, line: &[u8]) -> Result<Word, Fault> {
    let mut key = Word::empty(alloc);
    for option in line.split(|byte| *byte == b'@').skip(1) {
        let blank = if key.is_empty() { b"".as_slice() } else { b" " };
        add_all(&mut key, &[blank, b"-", option])?;
    }
    Ok(key)
}

/// The options of each library in a folder of its own.
pub fn multilibs(gcc: Gcc<'_>) -> Result<Listing<Word>, Fault> {
    let alloc = gcc.alloc();
    let said = gcc.ask(b"-print-multi-lib")?;
    let mut keys = Listing::new(alloc);
    for line in values(alloc, b"", said.out.as_bytes())?.as_slice() {
        let key = multilib_options(alloc, line.as_bytes())?;
        if !key.is_empty() {
            keys.push(key)?;
        }
    }
    Ok(keys)
}

/// Options of one library for which gdrv-cc reads the whole spec file.
const WHOLE: [&[u8]; 2] = [b"-m32", b"-mx32"];

/// The tests of libraries for whose options gdrv-cc reads the whole spec file, so that no part needs
/// them.
pub fn rare_libraries(gcc: Gcc<'_>) -> Result<Listing<Word>, Fault> {
    let mut tests = Listing::new(gcc.alloc());
    for option in multilibs(gcc)?.as_slice() {
        if WHOLE.iter().any(|it| *it == option.as_bytes()) {
            let name = library_of(gcc.with(option.as_bytes()))?;
            tests.push(folder_switch(gcc.alloc(), &name)?)?;
        }
    }
    Ok(tests)
}

/// The options of which rows are written: none, those of libraries in folders of their own, each of
/// these also with the options that choose words, and this key.
fn keys_of(gcc: Gcc<'_>, choosers: &[Chooser], key: &Word) -> Result<Listing<Word>, Fault> {
    let alloc = gcc.alloc();
    let mut keys = keys_with(&Word::empty(alloc), choosers, alloc)?;
    for library in multilibs(gcc)?.as_slice() {
        for whole in keys_with(library, choosers, alloc)?.into_vec() {
            keys.push(whole)?;
        }
    }
    if !has_word(keys.as_slice(), key.as_bytes()) {
        keys.push(key.clone()?)?;
    }
    Ok(keys)
}

/// The rows of a gcc with these folders, whose functions have these probes: also those of the options
/// that choose words, and that of this key.
pub fn rows_of(
    gcc: Gcc<'_>,
    probes: &[Word],
    folders: &[Word],
    choosers: &[Chooser],
    key: &Word,
) -> Result<Listing<Row>, Fault> {
    let mut rows = Listing::new(gcc.alloc());
    for key in keys_of(gcc, choosers, key)?.as_slice() {
        if let Some(row) = row_of(gcc.with(key.as_bytes()), probes, folders)? {
            rows.push(row)?;
        }
    }
    Ok(rows)
}

/// The suffix that gcc gives the name of a program; empty if none.
pub fn suffix_of(gcc: Gcc<'_>) -> Result<Word, Fault> {
    let output = word_after(gcc.alloc(), gcc.link(b"")?.as_slice(), b"-o")?;
    let suffix = output.as_bytes().strip_prefix(b"made".as_slice());
    Ok(Word::from_bytes(gcc.alloc(), suffix.unwrap_or(b""))?)
}

/// Adds the line of a row.
pub fn push_row(text: &mut Word, row: &Row) -> Result<(), Fault> {
    let blank = if row.key.is_empty() {
        b"".as_slice()
    } else {
        b" "
    };
    add_all(text, &[b"machine", blank, row.key.as_bytes()])?;
    if row.words.is_empty() {
        text.push(b'\t')?;
    }
    for word in row.words.as_slice() {
        add_all(text, &[b"\t", word.as_bytes()])?;
    }
    Ok(text.push(b'\n')?)
}

/// Adds the options of a row to a list of names.
pub fn push_names(names: &mut Word, row: &Row) -> Result<(), Fault> {
    for option in row.key.as_bytes().split(|byte| *byte == b' ') {
        if !option.is_empty() {
            add_all(names, &[option, b"\n"])?;
        }
    }
    Ok(())
}
