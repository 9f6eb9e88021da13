//! A plan is carried out.

// In clauses: `run_of` is the events of a run among those of a journal. `pipe_pending` says that a
// pipe is pending after events.
ghost use Rattle.drv_run.specs.Executed.{Executed};
ghost use Rattle.drv_system.specs.Running.{run_of};
ghost use Rattle.drv_words.specs.Stepping.{pipe_pending};
ghost use Rattle.std.specs.Prelude.{◌≡◌, ◌≤◌, IfOk, OnErr, false};

use crate::choosing::choose_source;
use crate::making::make;
use drv_core::{Action, Run};
use drv_system::System;
use drv_words::Plan;
use std::alloc::{AllocError, Global};

/// Carries out a plan, with at most `window` of its sources under way at once, and gives the exit
/// status: 0, or 1 where a command failed or something was not made or started, with `pass_codes`
/// the greatest code. Of several sources that may go on, one does that need not wait. No pipe is
/// pending afterwards.
///
/// # Errors
/// Lack of memory, before anything is made or started; after the first step it is no error any more.
pub fn execute<S: System>(
    alloc: Global,
    sys: &mut S,
    plan: &Plan,
    pass_codes: bool,
    window: usize,
) -> Result<u8, AllocError>
    requires pipe { pipe_pending (run_of (S.events sys.old)) ≡ false }
    requires some { 1 ≤ window }
    requires most { window ≤ 64 }
    ensures executed { IfOk result
        (λ status. Executed plan.now pass_codes window
        (S.events sys.old) (S.events sys.new) status) }
    ensures memory { OnErr result (S.events sys.new ≡ S.events sys.old) }
    ensures pipe { pipe_pending (run_of (S.events sys.new)) ≡ false }
{
    let mut run = Run::new(alloc, plan, pass_codes, window)?;
    sys.reserve_events(run.room())?;
    loop {
        match run.next() {
            Action::Done(status) => return Ok(status),
            Action::Make(step) => {
                let answer = make(sys, plan, step);
                run.answer(answer);
                choose_source(sys, &mut run);
            }
        }
    }
}
