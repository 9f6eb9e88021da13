//! A call of the driver.

// In clauses: `run_of` is the events of a run among those of a journal. `pipe_pending` says that a
// pipe is pending after events. `IsApart` says that lack of memory is no refusal.
ghost use Rattle.drv_run.specs.Calls.{Drove};
ghost use Rattle.drv_run.specs.Drives.{IsApart};
ghost use Rattle.drv_run.specs.Code.Telling.{EndsWork};
ghost use Rattle.drv_system.specs.Running.{run_of};
ghost use Rattle.drv_words.specs.Stepping.{pipe_pending};
ghost use Rattle.std.specs.Prelude.{◌≡◌, false};

use crate::deciding::work_of_call;
use crate::doing::do_work;
use crate::ending::Ending;
use crate::work::Work;
use drv_system::{FactTable, System};
use drv_words::{Listing, Word};
use std::alloc::Global;

/// Does a work, and gives how that ends the call.
fn ending_of<S: System>(alloc: Global, sys: &mut S, work: &Work) -> Ending
    requires pipe { pipe_pending (run_of (S.events sys.old)) ≡ false }
    ensures ends { EndsWork (S.events sys.old) (S.events sys.new) work.now result }
    ensures pipe { pipe_pending (run_of (S.events sys.new)) ≡ false }
{
    match do_work(alloc, sys, b"gdrv", work) {
        Ok(status) => Ending::Done(status),
        Err(_) => Ending::OutOfMemory,
    }
}

/// A call of the driver with these arguments (GCC manual, "Overall Options"; after a first
/// argument `--c99`, POSIX c99).
///
/// With `-dumpspecs` it writes the specs. Otherwise it plans the commands of the line and says the
/// plan's notices, and with `-v` or `-###` its commands too. With `-###` it starts nothing.
/// Otherwise it carries the plan out, with as many sources under way as `--jobs` says. The seed is
/// for the names of temporaries. A refused call, and one that lacks memory, makes and starts
/// nothing. No pipe is pending after a call, so the next one can be made.
#[tactic(auto, using(crate::proofs::Endings::no_pipe_after_questions))]
pub fn drive<S: System>(alloc: Global, sys: &mut S, args: Listing<Word>, seed: u32) -> Ending
    requires pipe { pipe_pending (run_of (S.events sys.old)) ≡ false }
    ensures drove { Drove (S.events sys.old) (S.events sys.new) args seed result }
    ensures apart { IsApart result }
    ensures pipe { pipe_pending (run_of (S.events sys.new)) ≡ false }
{
    let mut facts = FactTable::new(alloc);
    match work_of_call(alloc, args, seed, sys, &mut facts) {
        Ok(work) => ending_of(alloc, sys, &work),
        Err(ending) => ending,
    }
}
