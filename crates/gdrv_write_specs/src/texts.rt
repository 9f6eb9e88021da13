//! Small texts are made and cut.

use crate::fault::Fault;
use drv_gcc::values;
use drv_words::{Listing, Word};
use itoa::Buffer;
use std::alloc::Global;

/// These bytes one after another.
pub fn joined(alloc: Global, parts: &[&[u8]]) -> Result<Word, Fault> {
    let mut whole = Word::empty(alloc);
    add_all(&mut whole, parts)?;
    Ok(whole)
}

/// Adds these bytes, one after another.
pub fn add_all(text: &mut Word, parts: &[&[u8]]) -> Result<(), Fault> {
    for part in parts {
        text.extend_from_slice(part)?;
    }
    Ok(())
}

/// A name that ends in a number.
pub fn numbered(alloc: Global, name: &[u8], number: usize) -> Result<Word, Fault> {
    joined(alloc, &[name, Buffer::new().format(number).as_bytes()])
}

/// The bytes before the first of a kind and those after it; all of them and none if there is none.
pub fn cut_at(mark: u8, text: &[u8]) -> (&[u8], &[u8]) {
    match text.iter().position(|byte| *byte == mark) {
        Some(at) => (
            text.get(..at).unwrap_or(b""),
            text.get(at + 1..).unwrap_or(b""),
        ),
        None => (text, b""),
    }
}

/// Whether a text has these bytes.
pub fn has_bytes(text: &[u8], bytes: &[u8]) -> bool {
    (0..text.len()).any(|at| text.get(at..).unwrap_or(b"").starts_with(bytes))
}

/// A text with a line for each of these.
pub fn lines_of(alloc: Global, lines: &[Word]) -> Result<Word, Fault> {
    let mut text = Word::empty(alloc);
    for line in lines {
        add_all(&mut text, &[line.as_bytes(), b"\n"])?;
    }
    Ok(text)
}

/// The lines of a text, sorted by their bytes, each once. None is empty.
pub fn sorted_lines(alloc: Global, text: &[u8]) -> Result<Listing<Word>, Fault> {
    let mut lines = values(alloc, b"", text)?.into_vec();
    lines.sort_by(|one, other| one.as_bytes().cmp(other.as_bytes()))?;
    let mut sorted: Listing<Word> = Listing::new(alloc);
    for line in lines {
        let is_new = match sorted.as_slice().last() {
            Some(last) => last.as_bytes() != line.as_bytes(),
            None => !line.is_empty(),
        };
        if is_new {
            sorted.push(line)?;
        }
    }
    Ok(sorted)
}
