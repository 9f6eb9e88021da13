//! What a check prints of findings, as text.

use crate::escaping::is_control;
use drv_place::first_of;
use drv_words::{Listing, Word};
use itoa::Buffer;
use std::alloc::{AllocError, Global};

/// A byte of a file, by its line and its column, both from 1.
#[derive(Debug, Drop)]
pub struct Place {
    /// The file's path.
    pub file: Word,
    /// The line.
    pub line: usize,
    /// The column.
    pub column: usize,
}

/// What a check prints of one finding.
#[derive(Debug, Drop)]
pub struct Told {
    /// Where it is, if it is in a file.
    pub place: Option<Place>,
    /// Whether it is an error, and no warning.
    pub is_error: bool,
    /// The name of the warning, if it is one.
    pub name: Option<Word>,
    /// What it is.
    pub message: Word,
    /// Its line up to the place, as far as it is shown.
    pub before: Word,
    /// The rest of that line, as far as it is shown.
    pub after: Word,
    /// Where its file is included, and where that one is, and so on.
    pub from: Listing<Place>,
}

/// What a check prints.
#[derive(Debug, Drop)]
pub struct Report {
    /// The first findings.
    pub told: Listing<Told>,
    /// How many more there are; unknown where the check ended at `MOST_FAULTS` faults.
    pub unshown: Option<usize>,
}

/// The most bytes of a line that are shown before a place.
const MOST_BEFORE: usize = 60;
/// The most from it on.
const MOST_AFTER: usize = 40;

/// Adds what is shown of a line before a place.
pub fn push_front(text: &mut Word, line: &[u8]) -> Result<(), AllocError> {
    if line.len() <= MOST_BEFORE {
        return text.extend_from_slice(line);
    }
    text.extend_from_slice(b"..")?;
    text.extend_from_slice(&line[line.len() - MOST_BEFORE..])
}

/// Adds what is shown of a line from a place on.
pub fn push_back(text: &mut Word, line: &[u8]) -> Result<(), AllocError> {
    if line.len() <= MOST_AFTER {
        return text.extend_from_slice(line);
    }
    text.extend_from_slice(first_of(line, MOST_AFTER))?;
    text.extend_from_slice(b"..")
}

/// Adds a number in decimal digits.
fn push_number(text: &mut Word, number: usize) -> Result<(), AllocError> {
    text.extend_from_slice(Buffer::new().format(number).as_bytes())
}

/// Adds a place: the file, its line and its column.
pub(crate) fn push_place(text: &mut Word, place: &Place) -> Result<(), AllocError> {
    text.extend_from_slice(place.file.as_bytes())?;
    text.extend_from_slice(b":")?;
    push_number(text, place.line)?;
    text.extend_from_slice(b":")?;
    push_number(text, place.column)
}

/// What one finding is.
pub(crate) fn kind_text(is_error: bool) -> &'static str {
    if is_error { "error" } else { "warning" }
}

/// Adds bytes of a line, without carriage returns.
fn push_shown(text: &mut Word, line: &[u8]) -> Result<(), AllocError> {
    for &byte in line {
        if byte != b'\r' {
            text.push(byte)?;
        }
    }
    Ok(())
}

/// Adds what is below the bytes of a line before the caret, each by the columns that it takes: a byte
/// that goes on a character of UTF-8 has none (RFC 3629, section 3), and of a control byte the number is
/// shown.
fn push_padding(text: &mut Word, line: &[u8]) -> Result<(), AllocError> {
    for &byte in line {
        match byte {
            b'\r' | 0x80..=0xBF => {}
            b'\t' => text.push(b'\t')?,
            _ if is_control(byte) => text.extend_from_slice(b"    ")?,
            _ => text.push(b' ')?,
        }
    }
    Ok(())
}

/// Adds the line of a finding, a caret below its byte, and where its file is included.
fn push_excerpt(text: &mut Word, told: &Told) -> Result<(), AllocError> {
    let before = told.before.as_bytes();
    text.push(b' ')?;
    push_shown(text, before)?;
    push_shown(text, told.after.as_bytes())?;
    text.extend_from_slice(b"\n ")?;
    push_padding(text, before)?;
    text.extend_from_slice(b"^\n")?;
    for place in told.from.as_slice() {
        text.extend_from_slice(b"  included from ")?;
        push_place(text, place)?;
        text.push(b'\n')?;
    }
    Ok(())
}

/// Adds the text of one finding.
fn push_told(text: &mut Word, told: &Told) -> Result<(), AllocError> {
    match &told.place {
        Some(place) => push_place(text, place)?,
        None => text.extend_from_slice(b"gdrv-specs")?,
    }
    text.extend_from_slice(b": ")?;
    text.extend_from_slice(kind_text(told.is_error).as_bytes())?;
    text.extend_from_slice(b": ")?;
    text.extend_from_slice(told.message.as_bytes())?;
    text.push(b'\n')?;
    if told.place.is_some() {
        return push_excerpt(text, told);
    }
    Ok(())
}

/// The text of a report: for each finding its place and what it is, then its line with a caret below
/// its byte, and where its file is included; at the end how many more there are.
pub fn report_text(alloc: Global, report: &Report) -> Result<Word, AllocError> {
    let mut text = Word::empty(alloc);
    for told in report.told.as_slice() {
        push_told(&mut text, told)?;
    }
    match report.unshown {
        None => text.extend_from_slice(b"gdrv-specs: stopped at 100 errors\n")?,
        Some(0) => {}
        Some(more) => {
            text.extend_from_slice(b"gdrv-specs: ")?;
            push_number(&mut text, more)?;
            text.extend_from_slice(b" more not shown\n")?;
        }
    }
    Ok(text)
}
