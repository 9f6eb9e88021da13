//! What a gcc answers, and what its texts name.

ghost use Rattle.drv_gcc.specs.Answers.{gcc_file, line_of};
ghost use Rattle.drv_gcc.specs.Answers.{name_before, names_from};
ghost use Rattle.drv_gcc.specs.Answers.{value_in, values, with_mark, with_name, with_named};
ghost use Rattle.std.specs.Cmp.Lexicographic.{pointwise};
ghost use Rattle.std.specs.List.{flat_map, list_any};
ghost use Rattle.std.specs.Prelude.{◌≡◌, ◌++◌, [], IfOk, OnOk, nat_eq};

use drv_words::{Listing, Word, checksum};
use itoa::Buffer;
use std::alloc::{AllocError, Global};

/// A list has this word.
pub(crate) fn has_word(words: &[Word], word: &[u8]) -> bool
    ensures { result ≡ list_any (pointwise nat_eq word.now) words.now }
{
    words.iter().any(|it| word == it.as_bytes())
}

/// Adds the bytes before a parenthesis.
#[tactic(auto, using(crate::proofs::Naming::name_next))]
fn push_name(name: &mut Word, text: &[u8]) -> Result<(), AllocError>
    ensures { OnOk result (name.new ≡ name.old ++ name_before text.now) }
{
    let mut left = text;
    while let [byte, rest @ ..] = left {
        if *byte == b')' {
            return Ok(());
        }
        name.push(*byte)?;
        left = rest;
    }
    Ok(())
}

/// Adds a name that a list lacks.
fn add_name(names: &mut Listing<Word>, name: Word) -> Result<(), AllocError>
    ensures { OnOk result (names.new ≡ with_name names.old name) }
{
    if !has_word(names.as_slice(), name.as_bytes()) {
        names.push(name)?;
    }
    Ok(())
}

/// Adds the name that a text begins with, if it has this beginning.
fn add_name_after(
    alloc: Global,
    beginning: &[u8],
    names: &mut Listing<Word>,
    text: &[u8],
) -> Result<(), AllocError>
    ensures { OnOk result (names.new ≡ with_named beginning.now names.old text.now) }
{
    if text.starts_with(beginning) {
        let mut name = Word::empty(alloc);
        push_name(&mut name, text.get(beginning.len()..).unwrap_or(&[]))?;
        add_name(names, name)?;
    }
    Ok(())
}

/// The names that texts have after a beginning and before a parenthesis: each once, in their order.
#[tactic(auto, using(crate::proofs::Naming::next_byte))]
pub fn named_texts(
    alloc: Global,
    beginning: &[u8],
    texts: &[u8],
) -> Result<Listing<Word>, AllocError>
    ensures { IfOk result (λ names. names ≡ names_from beginning.now [] texts.now) }
{
    let mut names = Listing::new(alloc);
    let mut left = texts;
    while let [_, rest @ ..] = left {
        add_name_after(alloc, beginning, &mut names, left)?;
        left = rest;
    }
    Ok(names)
}

/// Adds the value that a line has for a key, if it has one.
fn add_value(
    alloc: Global,
    key: &[u8],
    line: &[u8],
    found: &mut Listing<Word>,
) -> Result<(), AllocError>
    ensures { OnOk result (found.new ≡ found.old ++ value_in key.now line.now) }
{
    if line.starts_with(key) {
        found.push(Word::from_bytes(alloc, &line[key.len()..])?)?;
    }
    Ok(())
}

/// The values of a key in a text, in its order: what follows the key in each line that begins with
/// it.
pub fn values(alloc: Global, key: &[u8], text: &[u8]) -> Result<Listing<Word>, AllocError>
    ensures { IfOk result (λ found. found ≡ values key.now text.now) }
{
    let mut found = Listing::new(alloc);
    for line in text.split(|byte| *byte == b'\n') {
        add_value(alloc, key, line, &mut found)?;
    }
    Ok(found)
}

/// Adds a text and this mark at its end: how many bytes precede it, and their sum.
pub fn with_mark(text: &Word) -> Result<Word, AllocError>
    ensures { IfOk result (λ file. file ≡ with_mark text.now) }
{
    let mut file = text.clone()?;
    file.extend_from_slice(b"# whole ")?;
    file.extend_from_slice(Buffer::new().format(text.len()).as_bytes())?;
    file.extend_from_slice(b" ")?;
    file.extend_from_slice(Buffer::new().format(checksum(text.as_bytes())).as_bytes())?;
    file.extend_from_slice(b"\n")?;
    Ok(file)
}

/// Adds a line of a key and a value.
fn push_line(text: &mut Word, key: &[u8], value: &[u8]) -> Result<(), AllocError>
    ensures { OnOk result (text.new ≡ text.old ++ line_of key.now value.now) }
{
    text.extend_from_slice(key)?;
    text.extend_from_slice(value)?;
    text.push(b'\n')
}

/// Adds a line of a key and each value.
fn push_lines(text: &mut Word, key: &[u8], values: &[Word]) -> Result<(), AllocError>
    ensures { OnOk result (text.new ≡ text.old ++ flat_map (line_of key.now) values.now) }
{
    for value in values {
        push_line(text, key, value.as_bytes())?;
    }
    Ok(())
}

/// The file beside a spec file that names the gcc that it was written for: its path, its folders,
/// and what it says of itself.
pub fn gcc_file(
    alloc: Global,
    path: &[u8],
    folders: &[Word],
    said: &[Word],
) -> Result<Word, AllocError>
    ensures { IfOk result (λ text. text ≡ gcc_file path.now folders.now said.now) }
{
    let mut text = Word::empty(alloc);
    push_line(&mut text, b"compiler ", path)?;
    push_lines(&mut text, b"folder ", folders)?;
    push_lines(&mut text, b"said ", said)?;
    Ok(text)
}
