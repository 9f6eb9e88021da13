//! A work is done.

// In clauses: `run_of` is the events of a run among those of a journal. `pipe_pending` says that a
// pipe is pending after events. `OnlySays` says that only texts were said.
ghost use Rattle.drv_run.specs.Calls.{DoesWork, OnlySays};
ghost use Rattle.drv_run.specs.declared.work.Work.TheVariants.{CarryOut, Dump};
ghost use Rattle.drv_system.specs.Running.{run_of};
ghost use Rattle.drv_words.specs.Stepping.{pipe_pending};
ghost use Rattle.std.specs.Prelude.{◌≡◌, IfOk, List, OnErr, false, ℕ};

use crate::executing::execute;
use crate::telling::{announce, say_plan, status_of};
use crate::work::{Manner, Work};
use drv_system::System;
use drv_words::{Plan, Word};
use std::alloc::{AllocError, Global};

/// Writes the dump of the specs, and answers the exit status: 0, or 1 where it could not be
/// written.
fn put_dump<S: System>(sys: &mut S, text: &Word) -> Result<u8, AllocError>
    ensures puts { (name : List ℕ) → IfOk result
        (λ status. DoesWork name (S.events sys.old) (S.events sys.new) (Dump text.now) status) }
    ensures memory { OnErr result (OnlySays (S.events sys.old) (S.events sys.new)) }
{
    Ok(status_of(sys.put(text)?))
}

/// Says the notices of a plan, and its commands if they are asked for, carries it out, and answers
/// the exit status.
fn run_plan<S: System>(
    alloc: Global,
    sys: &mut S,
    name: &[u8],
    plan: &Plan,
    manner: Manner,
) -> Result<u8, AllocError>
    requires pipe { pipe_pending (run_of (S.events sys.old)) ≡ false }
    ensures runs { IfOk result
        (λ status. DoesWork name.now (S.events sys.old) (S.events sys.new)
        (CarryOut plan.now manner) status) }
    ensures memory { OnErr result (OnlySays (S.events sys.old) (S.events sys.new)) }
    ensures pipe { pipe_pending (run_of (S.events sys.new)) ≡ false }
{
    announce(alloc, sys, name, plan, manner.telling)?;
    let window = manner.window.sources();
    let status = execute(alloc, sys, plan, manner.pass_codes, window)?;
    Ok(status)
}

/// Does a work, by a program of this name, and answers the exit status. Of a dump and of a plan
/// that is shown this is 0, or 1 where the text could not be written. Of a plan that is carried out
/// it is that of its run. No pipe is pending afterwards.
///
/// # Errors
/// Lack of memory, before anything is made or started.
pub fn do_work<S: System>(
    alloc: Global,
    sys: &mut S,
    name: &[u8],
    work: &Work,
) -> Result<u8, AllocError>
    requires pipe { pipe_pending (run_of (S.events sys.old)) ≡ false }
    ensures does { IfOk result
        (λ status. DoesWork name.now (S.events sys.old) (S.events sys.new) work.now status) }
    ensures memory { OnErr result (OnlySays (S.events sys.old) (S.events sys.new)) }
    ensures pipe { pipe_pending (run_of (S.events sys.new)) ≡ false }
{
    match work {
        Work::Dump(text) => put_dump(sys, text),
        Work::Show(plan) => say_plan(alloc, sys, name, plan),
        Work::CarryOut { plan, manner } => run_plan(alloc, sys, name, plan, *manner),
    }
}
