//! The options of a gcc by their names.

ghost use Rattle.drv_gcc.specs.Answers.{first_word, head, is_option, known_by, option_in};
ghost use Rattle.drv_gcc.specs.Answers.{option_lines, options};
ghost use Rattle.std.specs.List.{flat_map};
ghost use Rattle.std.specs.Prelude.{◌≡◌, ◌∷◌, ◌++◌, [], IfOk, OnOk};

use crate::answers::has_word;
use drv_words::{Listing, Word};
use std::alloc::{AllocError, Global};

/// Adds the first word of a line.
#[tactic(auto, using(crate::proofs::Naming::word_next))]
fn push_first(word: &mut Word, line: &[u8]) -> Result<(), AllocError>
    ensures { OnOk result (word.new ≡ word.old ++ first_word line.now) }
{
    let mut left = line;
    while let [byte, rest @ ..] = left {
        if *byte == b' ' {
            return Ok(());
        }
        word.push(*byte)?;
        left = rest;
    }
    Ok(())
}

/// An option by its name, and not one that the front knows by itself.
fn is_option(word: &[u8]) -> bool
    ensures { result ≡ is_option word.now }
{
    word.starts_with(b"-")
        && !word.starts_with(b"--")
        && !word.starts_with(b"-Wno-")
        && !word.starts_with(b"-save-temps=")
}

/// Adds the option that a line names, if it names one.
fn add_option(alloc: Global, line: &[u8], found: &mut Listing<Word>) -> Result<(), AllocError>
    ensures { OnOk result (found.new ≡ found.old ++ option_in line.now) }
{
    let mut word = Word::empty(alloc);
    push_first(&mut word, line)?;
    if is_option(word.as_bytes()) {
        found.push(word)?;
    }
    Ok(())
}

/// The options that `--completion=` lists.
pub fn options(alloc: Global, text: &[u8]) -> Result<Listing<Word>, AllocError>
    ensures { IfOk result (λ found. found ≡ options text.now) }
{
    let mut found = Listing::new(alloc);
    for line in text.split(|byte| *byte == b'\n') {
        add_option(alloc, line, &mut found)?;
    }
    Ok(found)
}

/// Adds a name up to its equals sign.
#[tactic(auto, using(crate::proofs::Naming::head_here, crate::proofs::Naming::head_next))]
fn push_head(name: &mut Word, word: &[u8]) -> Result<(), AllocError>
    ensures { OnOk result (name.new ≡ name.old ++ head word.now) }
{
    let mut left = word;
    while let [byte, rest @ ..] = left {
        name.push(*byte)?;
        if *byte == b'=' {
            return Ok(());
        }
        left = rest;
    }
    Ok(())
}

/// The name that an option is known by: up to the equals sign where it may have any value.
fn known_by(alloc: Global, all: &[Word], word: &Word) -> Result<Word, AllocError>
    ensures { IfOk result (λ name. name ≡ known_by all.now word.now) }
{
    let mut name = Word::empty(alloc);
    push_head(&mut name, word.as_bytes())?;
    if has_word(all, name.as_bytes()) {
        return Ok(name);
    }
    word.clone()
}

/// The names by which options are known, a line each.
pub fn option_lines(alloc: Global, all: &[Word]) -> Result<Word, AllocError>
    ensures { IfOk result (λ lines. lines ≡ option_lines all.now) }
{
    let mut lines = Word::empty(alloc);
    for word in all {
        let name = known_by(alloc, all, word)?;
        lines.extend_from_slice(name.as_bytes())?;
        lines.push(b'\n')?;
    }
    Ok(lines)
}
