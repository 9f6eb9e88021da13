//! What a call does by what its words ask for.

// In clauses: `IfTold stop P` says that P holds of the text of a stop, if it has one.
ghost use Rattle.drv_compile.specs.Tasks.{Declines, IfTold, Leads};
ghost use Rattle.drv_compile.specs.declared.deciding.Decision.TheVariants.{NoSpecs, Read};
ghost use Rattle.std.specs.Prelude.{IfOk, MatchResult};

use crate::calling::Calling;
use crate::deciding::{Decision, SpecFile};
use crate::reading::Reading;
use crate::stop::Stop;
use crate::telling::refusals_text;
use crate::wording::{damaged_text, no_compiler_text, no_place_text, no_specs_text};
use drv_cc::{Answer, Call, Surroundings};
use drv_words::Word;
use std::alloc::{AllocError, Global};

/// What a line is read by: the spec file of the call, and what is known of its compiler.
#[derive(Drop)]
pub(crate) struct Toolchain {
    /// The spec file.
    pub(crate) specs: Word,
    /// The lines of the file beside it that is about the compiler.
    pub(crate) about: Word,
    /// The compiler that it was written for, and where that looks.
    pub(crate) around: Surroundings,
    /// The names of options that were taken to read the line, a line each.
    pub(crate) known: Word,
}

/// What a call does.
#[derive(Drop)]
pub(crate) enum Task {
    /// The compiler of a spec file is asked the line.
    Question(SpecFile, Word),
    /// The line is carried out.
    Compilation(Toolchain, Call),
}

/// The text where there is no spec file.
fn without_specs(alloc: Global, calling: &Calling, path: &Option<Word>) -> Result<Word, AllocError>
    ensures { IfOk result (λ text. Declines calling.now (NoSpecs path.now) text) }
{
    match path {
        Some(path) => no_specs_text(alloc, calling, path.as_bytes()),
        None => no_place_text(alloc, calling.name.as_bytes()),
    }
}

/// What a call does by what its line was read as.
fn task_by(
    alloc: Global,
    calling: &Calling,
    file: SpecFile,
    around: Surroundings,
    reading: Reading,
) -> Result<Task, Stop>
    ensures { MatchResult result (λ task. Leads (Read file around reading) task)
        (λ stop. IfTold stop (Declines calling.now (Read file around reading))) }
{
    let Reading { known, answer } = reading;
    match answer {
        Answer::Ask => Ok(Task::Question(file, around.compiler)),
        Answer::Run(call) => {
            let chain = Toolchain {
                specs: file.path,
                about: file.about,
                around,
                known,
            };
            Ok(Task::Compilation(chain, call))
        }
        Answer::Refuse(refusals) => {
            let name = calling.name.as_bytes();
            let text = refusals_text(alloc, name, known.as_bytes(), refusals.as_slice())?;
            Err(Stop::Told(text))
        }
    }
}

/// What a call does by what its words ask for.
///
/// # Errors
/// The text of its refusal.
pub(crate) fn task_of(alloc: Global, calling: &Calling, decision: Decision) -> Result<Task, Stop>
    ensures { MatchResult result (λ task. Leads decision task)
        (λ stop. IfTold stop (Declines calling.now decision)) }
{
    match decision {
        Decision::NoSpecs(path) => {
            let text = without_specs(alloc, calling, &path)?;
            Err(Stop::Told(text))
        }
        Decision::NoCompiler(specs) => {
            let text = no_compiler_text(alloc, calling, specs.as_bytes())?;
            Err(Stop::Told(text))
        }
        Decision::Damaged { specs, path } => {
            let text = damaged_text(alloc, calling, path.as_bytes(), specs.as_bytes())?;
            Err(Stop::Told(text))
        }
        Decision::Read {
            file,
            around,
            reading,
        } => task_by(alloc, calling, file, around, reading),
    }
}
