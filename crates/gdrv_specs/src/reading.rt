//! The line of a command, read by the very call that its program makes, up to its plan.

use crate::command_line::{CommandLine, Compiler, Program};
use crate::outcome::Outcome;
use drv_compile::{Host, Prepared, Request, prepare, settle};
use drv_run::{Work, work_of_call};
use drv_system::{FactTable, Outside, System};
use drv_words::Word;
use std::alloc::{AllocError, Global};

/// A compiler's line up to its plan, and the answers that it goes by.
#[derive(Drop)]
pub struct Reading {
    pub prepared: Prepared,
    pub facts: FactTable,
}

/// Reads a compiler's line up to its plan. It asks what `gdrv-cc` would ask, and does nothing else.
///
/// # Errors
/// What `gdrv-cc` would say in place of it.
pub fn read<S: System, H: Host<S>>(
    alloc: Global,
    compiler: &Compiler,
    command: &CommandLine,
    sys: &mut S,
    host: &mut H,
) -> Result<Reading, Outcome> {
    let mut facts = FactTable::new(alloc);
    settle(alloc, sys, &mut facts, host)?;
    let request = Request {
        calling: &compiler.calling,
        own: &compiler.own,
        args: &command.words,
        seed: command.seed,
    };
    let outside = &mut Outside {
        sys,
        facts: &mut facts,
    };
    let prepared = prepare(alloc, &request, outside, host)?;
    Ok(Reading { prepared, facts })
}

/// Says first what `gdrv-cc` says of a compiler that is another than when its spec file was written:
/// then no hint is left.
pub fn say_first<S: System>(sys: &mut S, prepared: &Prepared) -> Result<(), AllocError> {
    if prepared.hint.is_empty() && !prepared.said.is_empty() {
        sys.say(&prepared.said)?;
    }
    Ok(())
}

/// What a command does. What is said first of its compiler is said.
///
/// # Errors
/// Why its line is refused.
pub fn work_of<S: System, H: Host<S>>(
    alloc: Global,
    command: &CommandLine,
    sys: &mut S,
    host: &mut H,
) -> Result<Work, Outcome> {
    match &command.program {
        Program::Driver => {
            let words = command.words.clone()?;
            let facts = &mut FactTable::new(alloc);
            Ok(work_of_call(alloc, words, command.seed, sys, facts)?)
        }
        Program::Compiler(compiler) => {
            let reading = read(alloc, compiler, command, sys, host)?;
            let prepared = reading.prepared;
            say_first(sys, &prepared)?;
            Ok(prepared.work)
        }
    }
}
