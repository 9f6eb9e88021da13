//! Where the words of a command's plan are from, and what kept one away.

use crate::colouring::Style;
use crate::command_line::{CommandLine, Compiler, Program};
use crate::outcome::Outcome;
use crate::printing::Printer;
use crate::reading::{read, say_first};
use drv_args::{Line, Settings, line_of};
use drv_check::sources_of;
use drv_compile::Host;
use drv_plan::{Specified, plan_traced};
use drv_run::{Ending, line_of_call, load_specs};
use drv_search::Prefixes;
use drv_specs::{SpecSet, builtin, suffixes};
use drv_system::{FactTable, Outside, System};
use drv_why::{Asked, Explained, answer};
use drv_words::Word;
use std::alloc::Global;

/// A line of the driver that was read, and what is asked about it.
#[derive(Clone, Copy)]
struct Explaining<'a> {
    asked: &'a Asked,
    line: &'a Line,
    /// For the names of temporaries.
    seed: u32,
}

/// A set with the spec files of a line.
fn loaded<S: System>(
    alloc: Global,
    set: SpecSet,
    settings: &Settings,
    outside: &mut Outside<'_, S>,
) -> Result<SpecSet, Ending> {
    Ok(load_specs(alloc, set, settings, outside.sys, outside.facts)?)
}

/// The answer about a line whose spec files are loaded over a set.
fn text_over<S: System>(
    alloc: Global,
    explaining: Explaining<'_>,
    set: SpecSet,
    outside: &mut Outside<'_, S>,
) -> Result<Word, Ending> {
    let Explaining { asked, line, seed } = explaining;
    let settings = &line.settings;
    let folders = settings.prefixes.as_slice();
    let set = loaded(alloc, set, settings, outside)?;
    let prefixes = Prefixes::new(alloc, folders, outside.sys, outside.facts)?;
    let given = Specified {
        line,
        set: &set,
        seed,
    };
    let traced = plan_traced(alloc, &given, &prefixes, outside.sys, outside.facts)?;
    let names = settings.specs.as_slice();
    let sources = sources_of(alloc, folders, names, outside.sys, outside.facts)?;
    let explained = Explained {
        line,
        set: &set,
        plan: &traced.plan,
        traces: traced.traces.as_slice(),
        sources: sources.as_slice(),
    };
    Ok(answer(alloc, asked, &explained)?)
}

/// The answer about a line of the driver.
fn driver_text<S: System>(
    alloc: Global,
    asked: &Asked,
    command: &CommandLine,
    sys: &mut S,
) -> Result<Word, Outcome> {
    let facts = &mut FactTable::new(alloc);
    let outside = &mut Outside { sys, facts };
    let words = command.words.clone()?;
    let line = line_of_call(alloc, words, outside.sys, outside.facts)?;
    let set = builtin(alloc)?;
    if line.settings.dump {
        loaded(alloc, set, &line.settings, outside)?;
        return Err(Outcome::NoPlan);
    }
    let explaining = Explaining {
        asked,
        line: &line,
        seed: command.seed,
    };
    Ok(text_over(alloc, explaining, set, outside)?)
}

/// The answer about a compiler's line, by what its driver is called with.
fn compiler_text<S: System, H: Host<S>>(
    alloc: Global,
    asked: &Asked,
    compiler: &Compiler,
    command: &CommandLine,
    sys: &mut S,
    host: &mut H,
) -> Result<Word, Outcome> {
    let mut reading = read(alloc, compiler, command, sys, host)?;
    say_first(sys, &reading.prepared)?;
    let Some(driven) = &reading.prepared.line else {
        return Err(Outcome::Question);
    };
    let line = match line_of(alloc, driven.from_file, driven.items.as_slice()) {
        Ok(line) => line,
        Err(fault) => return Err(Outcome::Ended(Ending::from(fault))),
    };
    let explaining = Explaining {
        asked,
        line: &line,
        seed: command.seed,
    };
    let outside = &mut Outside {
        sys,
        facts: &mut reading.facts,
    };
    Ok(text_over(alloc, explaining, suffixes(alloc)?, outside)?)
}

/// Writes to standard output the answer about a command, by what the run of its plan noted. These are
/// its commands, and under each its words, each with the parts of texts that it has bytes of; or which
/// tests chose a word or kept it away. It asks what the plan needs, and does nothing else. Answers the
/// exit status.
///
/// # Errors
/// The line is refused or has no plan: nothing is written.
pub fn tell_why<S: System, H: Host<S>>(
    alloc: Global,
    sys: &mut S,
    host: &mut H,
    printer: &Printer,
    asked: &Asked,
    command: &CommandLine,
) -> Result<u8, Outcome> {
    let text = match &command.program {
        Program::Driver => driver_text(alloc, asked, command, sys)?,
        Program::Compiler(compiler) => compiler_text(alloc, asked, compiler, command, sys, host)?,
    };
    Ok(printer.put(alloc, sys, Style::Commands, &text)?)
}
