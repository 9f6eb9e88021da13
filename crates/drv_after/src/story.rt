//! A run as text.

use crate::failures::ANSWERS;
use crate::places::{command_at, job_at, name_at};
use drv_words::{
    Answer, Command, Place, Plan, RunEvent, StartAnswer, Step, WaitAnswer, Word, push_quoted,
};
use itoa::Buffer;
use std::alloc::{AllocError, Global};
use std::slice::from_ref;

/// Adds paths, each if it isn't there.
fn add(left: &mut Vec<Word>, paths: &[Word]) -> Result<(), AllocError> {
    for path in paths {
        if !left.iter().any(|other| path == other) {
            left.push(path.clone()?)?;
        }
    }
    Ok(())
}

/// Takes one more event into account: a command may write all files of its job that a failure or the
/// run's end removes.
fn follow(left: &mut Vec<Word>, plan: &Plan, event: RunEvent) -> Result<(), AllocError> {
    match (event.step, event.answer) {
        (Step::Claim(place), _) => {
            if let Some(path) = name_at(plan, place) {
                add(left, from_ref(path))?;
            }
        }
        (
            Step::Start {
                place: Place::Command { job, .. },
                ..
            },
            Answer::Start(StartAnswer::Started(_)),
        ) => {
            if let Some(job) = job_at(plan, job) {
                add(left, job.on_failure.as_slice())?;
                add(left, job.marked.as_slice())?;
            }
        }
        (Step::Remove(place), _) => {
            if let Some(path) = name_at(plan, place) {
                left.retain(|other| path != other);
            }
        }
        _ => {}
    }
    Ok(())
}

/// Adds what is done, and the name of what it is done to.
fn push_act(text: &mut Vec<u8>, what: &[u8], name: Option<&Word>) -> Result<(), AllocError> {
    text.extend_from_slice(what)?;
    if let Some(name) = name {
        text.push(b' ')?;
        push_quoted(text, name)?;
    }
    Ok(())
}

/// Adds the words of a command that is started, and a mark if it writes a pipe.
fn push_start(text: &mut Vec<u8>, command: &Command, to_pipe: bool) -> Result<(), AllocError> {
    push_act(text, b"start", Some(&command.program))?;
    for word in command.words.as_slice() {
        push_act(text, b"", Some(word))?;
    }
    text.extend_from_slice(if to_pipe { b" |" } else { b"" })
}

/// Adds how a command failed, after a colon.
fn push_failure(text: &mut Vec<u8>, answer: Answer) -> Result<(), AllocError> {
    if let Answer::Wait(WaitAnswer::Exit(status)) = answer {
        text.extend_from_slice(b": ")?;
        return text.extend_from_slice(Buffer::new().format(status).as_bytes());
    }
    for &(name, other) in ANSWERS.as_slice() {
        if other == answer {
            text.extend_from_slice(b": ")?;
            text.extend_from_slice(name)?;
        }
    }
    Ok(())
}

/// Adds the line of an event: none where a command ended well, a pipe was closed, or something was
/// said.
fn push_event(text: &mut Vec<u8>, plan: &Plan, event: RunEvent) -> Result<(), AllocError> {
    match event.step {
        Step::Claim(place) => push_act(text, b"claim", name_at(plan, place))?,
        Step::Remove(place) => push_act(text, b"remove", name_at(plan, place))?,
        Step::Start { place, to_pipe, .. } => {
            if let Some(command) = command_at(plan, place) {
                push_start(text, command, to_pipe)?;
            }
        }
        Step::Wait { place, .. } if event.answer != Answer::Wait(WaitAnswer::Exit(0)) => {
            push_act(text, b"end", name_at(plan, place))?;
        }
        Step::Wait { .. } | Step::ClosePipe | Step::Report(_) => return Ok(()),
    }
    push_failure(text, event.answer)?;
    text.push(b'\n')?;
    Ok(())
}

/// A run of these events and this status as text. There is a line for each step that makes, starts
/// or removes something, and for each command that failed. Then come the status, and the files that
/// are left: temporaries, and what commands may have written, each path once.
pub(crate) fn story(
    alloc: Global,
    plan: &Plan,
    events: &[RunEvent],
    status: u8,
) -> Result<Word, AllocError> {
    let mut text = Vec::new(alloc);
    let mut left = Vec::new(alloc);
    for event in events {
        push_event(&mut text, plan, *event)?;
        follow(&mut left, plan, *event)?;
    }
    text.extend_from_slice(b"status ")?;
    text.extend_from_slice(Buffer::new().format(status).as_bytes())?;
    text.push(b'\n')?;
    for path in left.as_slice() {
        push_act(&mut text, b"left", Some(path))?;
        text.push(b'\n')?;
    }
    Ok(Word::from_vec(text))
}
