//! Prints a run of a command, in which some of its commands fail.

use crate::colouring::Style;
use crate::command_line::CommandLine;
use crate::outcome::Outcome;
use crate::printing::Printer;
use crate::reading::work_of;
use drv_after::{Failure, failure_of, story_over};
use drv_compile::Host;
use drv_run::Work;
use drv_system::System;
use drv_words::{Plan, Word};
use std::alloc::{AllocError, Global};

/// Adds a failure.
fn add(failures: &mut Vec<Failure>, failure: Failure) -> Result<(), AllocError> {
    failures.push(failure)?;
    Ok(())
}

/// The failures that these words name, or the first word that names none.
fn failures_of(alloc: Global, plan: &Plan, words: &[Word]) -> Result<Vec<Failure>, Outcome> {
    let mut failures = Vec::new(alloc);
    for word in words {
        match failure_of(plan, word.as_bytes()) {
            Ok(failure) => add(&mut failures, failure)?,
            Err(fault) => return Err(Outcome::NoFailure(word.clone()?, fault)),
        }
    }
    Ok(failures)
}

/// Writes to standard output what a command would start, make and remove, and what it would leave,
/// where these words name the commands that fail, and all else is well. It asks what the plan needs, and
/// does nothing else. Answers the exit status.
///
/// # Errors
/// The line is refused or carries no plan out, or a word names no failure: nothing is written.
pub fn tell_after<S: System, H: Host<S>>(
    alloc: Global,
    sys: &mut S,
    host: &mut H,
    printer: &Printer,
    words: &[Word],
    command: &CommandLine,
) -> Result<u8, Outcome> {
    match &work_of(alloc, command, sys, host)? {
        Work::Dump(_) => Err(Outcome::NoPlan),
        Work::Show(_) => Err(Outcome::NoRun),
        Work::CarryOut { plan, manner } => {
            let failures = failures_of(alloc, plan, words)?;
            let (pass_codes, window) = (manner.pass_codes, manner.window);
            let text = story_over(alloc, plan, pass_codes, window, failures.as_slice())?;
            Ok(printer.put(alloc, sys, Style::Plain, &text)?)
        }
    }
}
