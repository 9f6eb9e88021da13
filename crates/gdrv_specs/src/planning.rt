//! Prints the plan of a command.

ghost use Rattle.gdrv_specs.specs.Plans.{TellsOf, TellsPlan, plan_in};
ghost use Rattle.gdrv_specs.specs.Told.{PutsText, TellsWork};
ghost use Rattle.drv_run.specs.declared.work.Work.{Work};
ghost use Rattle.gdrv_specs.specs.Forms.{form_text};
ghost use Rattle.gdrv_specs.specs.declared.command_line.Program.TheVariants.{Driver};
ghost use Rattle.std.specs.Option.{option_map};
ghost use Rattle.std.specs.Prelude.{◌≡◌, IfOk, OnErr, Some};

use crate::command_line::{CommandLine, Program};
use crate::forms::{Form, form_text};
use crate::outcome::Outcome;
use crate::printing::status_told;
use crate::reading::work_of;
use drv_compile::Host;
use drv_run::{Ending, Work, work_of_call};
use drv_system::{FactTable, System};
use drv_words::{Listing, Plan, Word};
use std::alloc::{AllocError, Global};

/// The plan of a work, which a dump of the specs has not.
pub(crate) fn plan_of(work: &Work) -> Option<&Plan>
    ensures { option_map (λ plan. plan.now) result ≡ plan_in work.now }
{
    match work {
        Work::Dump(_) => None,
        Work::Show(plan) => Some(plan),
        Work::CarryOut { plan, .. } => Some(plan),
    }
}

/// Writes a plan in a form to standard output, and answers the exit status.
fn put_plan<S: System>(
    alloc: Global,
    sys: &mut S,
    form: Form,
    plan: &Plan,
) -> Result<u8, AllocError>
    ensures puts { IfOk result
        (λ status. PutsText (S.events sys.old) (S.events sys.new) (form_text form plan.now) status) }
    ensures memory { OnErr result (S.events sys.new ≡ S.events sys.old) }
{
    let text = form_text(alloc, form, plan)?;
    Ok(status_told(sys.put(&text)?))
}

/// Tells the plan of a work that has this one.
#[tactic(auto, using(crate::proofs::Plans::tells_put, crate::proofs::Plans::tells_short))]
fn tell_planned<S: System>(alloc: Global, sys: &mut S, form: Form, plan: &Plan) -> Outcome
    ensures { (work : Work) → plan_in work ≡ Some plan.now
        → TellsWork (TellsOf form) (S.events sys.old) (S.events sys.new) work result }
{
    match put_plan(alloc, sys, form, plan) {
        Ok(status) => Outcome::Ended(Ending::Done(status)),
        Err(_) => Outcome::Ended(Ending::OutOfMemory),
    }
}

/// Tells the plan of a work, which a dump of the specs has not.
#[tactic(auto, using(crate::proofs::Plans::tells_dump))]
fn tell_work<S: System>(alloc: Global, sys: &mut S, form: Form, work: &Work) -> Outcome
    ensures { TellsWork (TellsOf form) (S.events sys.old) (S.events sys.new) work.now result }
{
    match work {
        Work::Dump(_) => Outcome::NoPlan,
        Work::Show(plan) => tell_planned(alloc, sys, form, plan),
        Work::CarryOut { plan, .. } => tell_planned(alloc, sys, form, plan),
    }
}

/// Writes the plan of a line of the driver in a form to standard output (GCC manual, "Overall
/// Options", `-###`). It asks what the plan needs, and does nothing else: it starts no program and
/// makes, changes and removes no file. A line that is refused, and one with `-dumpspecs`, which has
/// no plan, write nothing. The seed is for the names of temporaries.
fn tell_driver_plan<S: System>(
    alloc: Global,
    sys: &mut S,
    form: Form,
    line: Listing<Word>,
    seed: u32,
) -> Outcome
    ensures { TellsPlan (S.events sys.old) (S.events sys.new) form line seed result }
{
    let facts = &mut FactTable::new(alloc);
    match work_of_call(alloc, line, seed, sys, facts) {
        Ok(work) => tell_work(alloc, sys, form, &work),
        Err(ending) => Outcome::Ended(ending),
    }
}

/// Tells the plan of a compiler's line, which the call of that compiler has up to there.
fn tell_compiler_plan<S: System, H: Host<S>>(
    alloc: Global,
    sys: &mut S,
    host: &mut H,
    form: Form,
    command: &CommandLine,
) -> Outcome {
    match work_of(alloc, command, sys, host) {
        Ok(work) => tell_work(alloc, sys, form, &work),
        Err(outcome) => outcome,
    }
}

/// Writes the plan of a command in a form to standard output. It asks what the plan needs, and does
/// nothing else. A line that is refused, and one that has no plan, write nothing.
pub fn tell_plan<S: System, H: Host<S>>(
    alloc: Global,
    sys: &mut S,
    host: &mut H,
    form: Form,
    command: &CommandLine,
) -> Outcome
    ensures driver { (command.now.program ≡ Driver) → TellsPlan (S.events sys.old) (S.events sys.new)
        form command.now.words command.now.seed result }
{
    match &command.program {
        Program::Driver => match command.words.clone() {
            Ok(words) => tell_driver_plan(alloc, sys, form, words, command.seed),
            Err(_) => Outcome::Ended(Ending::OutOfMemory),
        },
        Program::Compiler(_) => tell_compiler_plan(alloc, sys, host, form, command),
    }
}
