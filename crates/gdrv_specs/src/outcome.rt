//! How a call of the program ends, and what is said of that.

use crate::calling::CallFault;
use drv_after::FailureFault;
use drv_compile::Stop;
use drv_run::{Ending, refusal_text};
use drv_words::Word;
use std::alloc::{AllocError, Global};

/// How a call of the program ends.
#[derive(Drop)]
pub enum Outcome {
    /// As a call of the driver ends.
    Ended(Ending),
    /// The line is refused with this text.
    Told(Word),
    /// The line asks for the specs, so it has no plan.
    NoPlan,
    /// The line asks for its plan alone, so nothing is carried out.
    NoRun,
    /// The line is a question, which the compiler answers.
    Question,
    /// This word names no failure.
    NoFailure(Word, FailureFault),
    /// The call asks for nothing.
    Misused(CallFault),
}

/// The exit status of a call that tells nothing.
pub const TROUBLE: u8 = 2;

impl From<AllocError> for Outcome {
    fn from(_error: AllocError) -> Outcome {
        Outcome::Ended(Ending::OutOfMemory)
    }
}

impl From<Ending> for Outcome {
    fn from(ending: Ending) -> Outcome {
        Outcome::Ended(ending)
    }
}

impl From<Stop> for Outcome {
    fn from(stop: Stop) -> Outcome {
        match stop {
            Stop::Told(text) => Outcome::Told(text),
            Stop::Undone(text, _line) => Outcome::Told(text),
            Stop::Memory => Outcome::Ended(Ending::OutOfMemory),
        }
    }
}

/// A line of these parts, in the name of the program.
pub fn line_of(alloc: Global, parts: &[&[u8]]) -> Result<Word, AllocError> {
    let mut line = Word::from_bytes(alloc, b"gdrv-specs: ")?;
    for part in parts {
        line.extend_from_slice(part)?;
    }
    line.push(b'\n')?;
    Ok(line)
}

/// The line about a word of a call that is unknown: with what was meant, or where what there is is listed.
#[rattlefmt::skip]
fn unknown_line(alloc: Global, fault: &CallFault) -> Result<Word, AllocError> {
    match fault {
        CallFault::UnknownTool { word, near: Some(near) } =>
            line_of(alloc, &[b"unknown tool '", word.as_bytes(), b"'; did you mean '", near.as_bytes(), b"'?"]),
        CallFault::UnknownTool { word, near: None } =>
            line_of(alloc, &[b"unknown tool '", word.as_bytes(), b"'; 'gdrv-specs --help' lists them"]),
        CallFault::UnknownOption { tool, word, near: Some(near) } =>
            line_of(alloc, &[b"'", tool.name(), b"' has no option '", word.as_bytes(), b"'; did you mean '", near.as_bytes(), b"'?"]),
        CallFault::UnknownOption { tool, word, near: None } => line_of(alloc,
            &[b"'", tool.name(), b"' has no option '", word.as_bytes(), b"'; 'gdrv-specs ", tool.name(), b" --help' lists them"]),
        CallFault::UnknownProgram(program) => line_of(alloc, &[b"unknown program '", program.as_bytes(),
            b"': the program is gdrv, gdrv-cc, gcc, cc, c99, TARGET-gdrv-cc or TARGET-gcc"]),
        _ => line_of(alloc, &[b"out of memory"]),
    }
}

/// The line about a call that asks for nothing.
#[rattlefmt::skip]
fn misuse_line(alloc: Global, fault: &CallFault) -> Result<Word, AllocError> {
    match fault {
        CallFault::NoTool => line_of(alloc, &[b"no tool; 'gdrv-specs --help' lists them"]),
        CallFault::NotTwoFiles => line_of(alloc, &[b"'diff' takes two files, and a command after '--'"]),
        CallFault::NoFiles => line_of(alloc, &[b"'check' takes one file or more"]),
        CallFault::NoCommand(tool) => line_of(alloc, &[b"'", tool.name(), b"' takes a command after '--'"]),
        CallFault::NoProgram => line_of(alloc, &[b"no program after '--'"]),
        CallFault::MissingArgument(option) => line_of(alloc, &[b"missing argument to '", option.as_bytes(), b"'"]),
        CallFault::StrayWord { tool, word } => line_of(alloc,
            &[b"'", tool.name(), b"' takes a command after '--', and no '", word.as_bytes(), b"' before it"]),
        _ => unknown_line(alloc, fault),
    }
}

/// The line about a word that names no failure.
fn failure_line(alloc: Global, word: &Word, fault: FailureFault) -> Result<Word, AllocError> {
    let why = match fault {
        FailureFault::NoForm => b"' is not PLACE=ANSWER".as_slice(),
        FailureFault::NoPlace => b"': the plan has no such command".as_slice(),
        FailureFault::NoAnswer => b"': no command ends so".as_slice(),
    };
    line_of(alloc, &[b"'", word.as_bytes(), why])
}

/// The text about how a call of the driver ends: no byte where the call itself said all.
fn ended_line(alloc: Global, ending: &Ending) -> Result<Word, AllocError> {
    match ending {
        Ending::Done(_) => Ok(Word::empty(alloc)),
        Ending::Refused(refusal) => {
            let text = refusal_text(alloc, refusal)?;
            line_of(alloc, &[text.as_bytes()])
        }
        Ending::OutOfMemory => line_of(alloc, &[b"out of memory"]),
    }
}

impl Outcome {
    /// The exit status.
    pub fn status(&self) -> u8 {
        match self {
            Outcome::Ended(Ending::Done(status)) => *status,
            _ => TROUBLE,
        }
    }

    /// The text on standard error: no byte where the call itself said all.
    pub fn text(&self, alloc: Global) -> Result<Word, AllocError> {
        match self {
            Outcome::Ended(ending) => ended_line(alloc, ending),
            Outcome::Told(text) => text.clone(),
            Outcome::NoPlan => line_of(alloc, &[b"a line with '-dumpspecs' has no plan"]),
            Outcome::NoRun => line_of(alloc, &[b"a line with '-###' has no run"]),
            Outcome::Question => line_of(alloc, &[b"the compiler itself answers this line"]),
            Outcome::NoFailure(word, fault) => failure_line(alloc, word, *fault),
            Outcome::Misused(fault) => misuse_line(alloc, fault),
        }
    }
}
