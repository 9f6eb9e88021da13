//! A failure in words: `PLACE=ANSWER`.

use crate::answers::Failure;
use crate::places::command_at;
use drv_words::{Answer, NotStarted, Place, Plan, StartAnswer, WaitAnswer, split_at_last};
use std::str::from_utf8;

/// Why a word names no failure.
#[derive(Clone, Copy, Debug)]
pub enum FailureFault {
    /// It has no equals sign.
    NoForm,
    /// The plan has no such command.
    NoPlace,
    /// No command ends so.
    NoAnswer,
}

/// The words for how a command ends, or why it isn't started, beside exit statuses.
#[rattlefmt::skip]
pub(crate) const ANSWERS: [(&[u8], Answer); 6] = [
    (b"not-found", Answer::Start(StartAnswer::NotStarted(NotStarted::NotFound))),
    (b"denied", Answer::Start(StartAnswer::NotStarted(NotStarted::Denied))),
    (b"no-memory", Answer::Start(StartAnswer::NotStarted(NotStarted::NoMemory))),
    (b"not-started", Answer::Start(StartAnswer::NotStarted(NotStarted::Other))),
    (b"signal", Answer::Wait(WaitAnswer::Signal)),
    (b"lost", Answer::Wait(WaitAnswer::Lost)),
];

/// The number of decimal digits.
fn number_of(digits: &[u8]) -> Option<usize> {
    if !digits.iter().all(|byte| byte.is_ascii_digit()) {
        return None;
    }
    from_utf8(digits).ok()?.parse().ok()
}

/// The place of a command of the plan: `JOB.GROUP.COMMAND`.
fn place_of(plan: &Plan, word: &[u8]) -> Option<Place> {
    let (front, index) = split_at_last(b'.', word)?;
    let (job, group) = split_at_last(b'.', front)?;
    let job = if job == b"link".as_slice() {
        plan.jobs.len()
    } else {
        number_of(job)?
    };
    let place = Place::Command {
        job,
        group: number_of(group)?,
        index: number_of(index)?,
    };
    let _command = command_at(plan, place)?;
    Some(place)
}

/// The answer of this name, or an exit status.
fn answer_of(word: &[u8]) -> Option<Answer> {
    if let Some((_, answer)) = ANSWERS.as_slice().iter().find(|(name, _)| *name == word) {
        return Some(*answer);
    }
    let status = u8::try_from(number_of(word)?).ok()?;
    Some(Answer::Wait(WaitAnswer::Exit(status)))
}

/// The failure that a word names: `PLACE=ANSWER`.
///
/// # Errors
/// The first of these: it has no equals sign; the plan has no such command; no command ends so.
pub fn failure_of(plan: &Plan, word: &[u8]) -> Result<Failure, FailureFault> {
    let Some((place, answer)) = split_at_last(b'=', word) else {
        return Err(FailureFault::NoForm);
    };
    let Some(place) = place_of(plan, place) else {
        return Err(FailureFault::NoPlace);
    };
    match answer_of(answer) {
        Some(answer) => Ok(Failure { place, answer }),
        None => Err(FailureFault::NoAnswer),
    }
}
