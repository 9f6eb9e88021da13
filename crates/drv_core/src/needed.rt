//! The most events of a run.

ghost use Rattle.drv_core.specs.Needed.{fitting, job_events, needed};
ghost use Rattle.std.specs.Prelude.{◌≡◌, ◌+◌, ◌*◌};

use drv_words::{Job, Plan};

/// The most events that a run of this plan can have. A command has up to four, and a temporary two.
/// Each path of a temporary, of a marked file, or of a file that is removed after a failure has two
/// more. `None` if the number doesn't fit into `usize`.
pub fn events_needed(plan: &Plan) -> Option<usize>
    ensures { result ≡ fitting (needed plan.now) }
{
    let mut total: usize = 0;
    for job in plan.jobs.as_slice() {
        total = with_job(total, job)?;
    }
    match &plan.link {
        Some(link) => with_job(total, link),
        None => Some(total),
    }
}

/// The events so far plus those of one more job.
#[tactic(auto, using(crate::proofs::Needs::too_many, crate::proofs::Needs::one_more))]
fn with_job(before: usize, job: &Job) -> Option<usize>
    ensures { result ≡ fitting (before + job_events job.now) }
{
    let mut total = with(before, 4, job.temps.len())?;
    total = with(total, 2, job.marked.len())?;
    total = with(total, 2, job.on_failure.len())?;
    for group in job.groups.as_slice() {
        total = with(total, 4, group.as_slice().len())?;
    }
    Some(total)
}

/// The events so far plus `each` for each of `count`.
fn with(total: usize, each: usize, count: usize) -> Option<usize>
    ensures { result ≡ fitting (total + each * count) }
{
    let more = each.checked_mul(count)?;
    total.checked_add(more)
}
