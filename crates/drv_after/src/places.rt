//! What the places of a plan have.

use drv_words::{Command, Job, Place, Plan, Word};

/// The job of a number: those of the sources in order, then the link's.
pub(crate) fn job_at(plan: &Plan, number: usize) -> Option<&Job> {
    if number == plan.jobs.len() {
        return plan.link.as_ref();
    }
    plan.jobs.as_slice().get(number)
}

/// The command at a place.
pub(crate) fn command_at(plan: &Plan, place: Place) -> Option<&Command> {
    match place {
        Place::Command { job, group, index } => {
            let group = job_at(plan, job)?.groups.as_slice().get(group)?;
            group.as_slice().get(index)
        }
        _ => None,
    }
}

/// The path of the file at a place, or the program of the command there.
pub(crate) fn name_at(plan: &Plan, place: Place) -> Option<&Word> {
    match place {
        Place::Command { .. } => Some(&command_at(plan, place)?.program),
        Place::Temp { job, index } => Some(&job_at(plan, job)?.temps.as_slice().get(index)?.path),
        Place::Marked { job, index } => job_at(plan, job)?.marked.as_slice().get(index),
        Place::OnFailure { job, index } => job_at(plan, job)?.on_failure.as_slice().get(index),
    }
}
