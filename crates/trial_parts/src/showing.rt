//! Prints messages, and the steps of a run with their answers.

use crate::answers::add_answer;
use crate::transcript::Transcript;
use drv_system::{Event, TellAnswer};
use drv_words::{Job, Note, Place, Plan, RunEvent, Step, Word};
use std::alloc::AllocError;

/// The job of this number; the link's number is that of the jobs.
fn job_at(plan: &Plan, number: usize) -> Option<&Job> {
    match plan.jobs.as_slice().get(number) {
        Some(job) => Some(job),
        None => plan.link.as_ref(),
    }
}

/// The program of a command, or the path of a file.
fn name_of(plan: &Plan, place: Place) -> Option<&[u8]> {
    let name = match place {
        Place::Command { job, group, index } => {
            let group = job_at(plan, job)?.groups.as_slice().get(group)?;
            &group.as_slice().get(index)?.program
        }
        Place::Temp { job, index } => &job_at(plan, job)?.temps.as_slice().get(index)?.path,
        Place::Marked { job, index } => job_at(plan, job)?.marked.as_slice().get(index)?,
        Place::OnFailure { job, index } => job_at(plan, job)?.on_failure.as_slice().get(index)?,
    };
    Some(name.as_bytes())
}

/// Adds a kind of place, with the number of its job and its own.
fn add_numbers(
    kind: &[u8],
    job: usize,
    index: usize,
    out: &mut Transcript,
) -> Result<(), AllocError> {
    out.add(kind)?;
    out.add_count(job)?;
    out.add(b".")?;
    out.add_count(index)
}

/// Adds a place of a plan by its numbers.
fn add_place_numbers(place: Place, out: &mut Transcript) -> Result<(), AllocError> {
    match place {
        Place::Command { job, group, index } => {
            add_numbers(b"", job, group, out)?;
            out.add(b".")?;
            out.add_count(index)
        }
        Place::Temp { job, index } => add_numbers(b"temp ", job, index, out),
        Place::Marked { job, index } => add_numbers(b"marked ", job, index, out),
        Place::OnFailure { job, index } => add_numbers(b"on_failure ", job, index, out),
    }
}

/// Adds what is at a place of a plan, or the place's numbers if the plan isn't known.
fn add_place(place: Place, plan: Option<&Plan>, out: &mut Transcript) -> Result<(), AllocError> {
    match plan {
        Some(plan) => out.add(name_of(plan, place).unwrap_or(b"?")),
        None => add_place_numbers(place, out),
    }
}

/// The name of a step, with a bar for a start that reads a pipe.
fn step_text(step: Step) -> &'static [u8] {
    match step {
        Step::Claim(_) => b"claim ",
        Step::Start {
            from_pipe: true,
            ..
        } => b"start |",
        Step::Start { .. } => b"start ",
        Step::ClosePipe => b"close",
        Step::Wait { .. } => b"wait ",
        Step::Remove(_) => b"remove ",
        Step::Report(Note::NotClaimed(_)) => b"report unclaimed ",
        Step::Report(Note::NotStarted(_)) => b"report refused ",
        Step::Report(Note::Signalled(_)) => b"report signal ",
        Step::Report(Note::Lost(_)) => b"report lost ",
        Step::Report(Note::NotRemoved(_)) => b"report unremoved ",
    }
}

/// The place of a note.
fn place_of_note(note: Note) -> Place {
    match note {
        Note::NotClaimed(place)
        | Note::NotStarted(place)
        | Note::Signalled(place)
        | Note::Lost(place)
        | Note::NotRemoved(place) => place,
    }
}

/// The place of a step, if it has one.
fn place_of(step: Step) -> Option<Place> {
    match step {
        Step::Claim(place) | Step::Remove(place) => Some(place),
        Step::Start { place, .. } | Step::Wait { place, .. } => Some(place),
        Step::Report(note) => Some(place_of_note(note)),
        Step::ClosePipe => None,
    }
}

/// Adds a step, with a bar if it writes a pipe.
fn add_step(step: Step, plan: Option<&Plan>, out: &mut Transcript) -> Result<(), AllocError> {
    out.add(step_text(step))?;
    if let Some(place) = place_of(step) {
        add_place(place, plan, out)?;
    }
    if matches!(step, Step::Start { to_pipe: true, .. }) {
        out.add(b"|")?;
    }
    Ok(())
}

/// Whether a message was written.
fn told_text(answer: TellAnswer) -> &'static [u8] {
    match answer {
        TellAnswer::Told => b": told\n",
        TellAnswer::Failed => b": untold\n",
    }
}

/// Adds whether a message was written, followed by the message.
fn add_told(
    what: &[u8],
    told: &Word,
    answer: TellAnswer,
    out: &mut Transcript,
) -> Result<(), AllocError> {
    out.add(what)?;
    out.add(told_text(answer))?;
    out.add(told.as_bytes())
}

/// Adds a step and its answer, on a line.
pub fn add_made(
    made: RunEvent,
    plan: Option<&Plan>,
    out: &mut Transcript,
) -> Result<(), AllocError> {
    add_step(made.step, plan, out)?;
    out.add(b": ")?;
    add_answer(made.answer, out)?;
    out.add(b"\n")
}

/// Adds a step and its answer on a line, or a message. Questions are left out.
fn add_event(event: &Event, plan: Option<&Plan>, out: &mut Transcript) -> Result<(), AllocError> {
    match event {
        Event::Run(made) => add_made(*made, plan, out),
        Event::Say(told, answer) => add_told(b"say", told, *answer, out),
        Event::Put(told, answer) => add_told(b"put", told, *answer, out),
        _ => Ok(()),
    }
}

/// Adds the messages, and the steps with their answers. Without the plan, its parts are named by
/// their numbers.
///
/// # Errors
/// A lack of memory.
pub fn add_events(
    events: &[Event],
    plan: Option<&Plan>,
    out: &mut Transcript,
) -> Result<(), AllocError> {
    for event in events {
        add_event(event, plan, out)?;
    }
    Ok(())
}
