//! Prints what differs between two plans of a command.

use crate::colouring::Style;
use crate::command_line::CommandLine;
use crate::outcome::{Outcome, line_of};
use crate::planning::plan_of;
use crate::printing::Printer;
use crate::reading::work_of;
use drv_check::texts_difference;
use drv_compile::Host;
use drv_forms::{Detail, difference_text};
use drv_run::Work;
use drv_system::System;
use drv_words::{Listing, Word};
use std::alloc::{AllocError, Global};

/// A command with one of two spec files.
#[derive(Drop)]
pub struct Side {
    /// The path of the file.
    pub path: Word,
    /// The command with it.
    pub command: CommandLine,
}

/// Two spec files, and a command whose plans are compared.
#[derive(Drop)]
pub struct Comparison {
    /// How much is printed of two commands that differ.
    pub detail: Detail,
    pub first: Side,
    pub second: Side,
}

/// A command with the spec file of this path, before its own words but a first `--c99`, which makes
/// the line one of c99.
pub fn side_of(alloc: Global, path: &Word, command: CommandLine) -> Result<Side, AllocError> {
    let mut option = Word::from_bytes(alloc, b"-specs=")?;
    option.extend_from_slice(path.as_bytes())?;
    let (front, rest) = match command.words.as_slice() {
        [first, rest @ ..] if first.as_bytes() == b"--c99".as_slice() => (Some(first), rest),
        words => (None, words),
    };
    let mut words = Listing::new(alloc);
    if let Some(word) = front {
        words.push(word.clone()?)?;
    }
    words.push(option)?;
    for word in rest {
        words.push(word.clone()?)?;
    }
    Ok(Side {
        path: path.clone()?,
        command: CommandLine { words, ..command },
    })
}

/// What a command does with one of the files.
///
/// # Errors
/// Why its line is refused, and with which file.
fn work_with<S: System, H: Host<S>>(
    alloc: Global,
    side: &Side,
    sys: &mut S,
    host: &mut H,
) -> Result<Work, Outcome> {
    match work_of(alloc, &side.command, sys, host) {
        Ok(work) => Ok(work),
        Err(outcome) => {
            let mut text = outcome.text(alloc)?;
            let note = line_of(
                alloc,
                &[b"note: refused with '", side.path.as_bytes(), b"'"],
            )?;
            text.extend_from_slice(note.as_bytes())?;
            Err(Outcome::Told(text))
        }
    }
}

/// What differs between two works: between their plans, or between the texts of two dumps.
fn difference_in(
    alloc: Global,
    detail: Detail,
    work: &Work,
    other: &Work,
) -> Result<Word, Outcome> {
    if let (Work::Dump(text), Work::Dump(other)) = (work, other) {
        return Ok(texts_difference(alloc, text.as_bytes(), other.as_bytes())?);
    }
    match (plan_of(work), plan_of(other)) {
        (Some(plan), Some(other)) => Ok(difference_text(alloc, plan, other, detail)?),
        _ => Err(Outcome::NoPlan),
    }
}

/// Writes to standard output what differs between the plan of a command with one spec file and that
/// with another, or between the two sets of texts for a line of the driver with `-dumpspecs`. It asks
/// what the plans need, and does nothing else. Answers the exit status: 1 where there is a difference.
///
/// # Errors
/// The first line that is refused, with the file of that; then nothing is written.
pub fn tell_difference<S: System, H: Host<S>>(
    alloc: Global,
    sys: &mut S,
    host: &mut H,
    printer: &Printer,
    comparison: &Comparison,
) -> Result<u8, Outcome> {
    let work = work_with(alloc, &comparison.first, sys, host)?;
    let other = work_with(alloc, &comparison.second, sys, host)?;
    let text = difference_in(alloc, comparison.detail, &work, &other)?;
    match printer.put(alloc, sys, Style::Difference, &text)? {
        0 if !text.is_empty() => Ok(1),
        status => Ok(status),
    }
}
