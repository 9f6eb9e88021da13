//! How answers to the steps of a run are written: claimed, taken, unclaimed; started, refused; closed;
//! signal, lost; removed, missing, kept, unremoved; told, untold. A script writes an exit status as
//! its number, and each started child gets the next number.

use crate::names::look_up;
use crate::transcript::Transcript;
use drv_words::{Answer, ClaimAnswer, NotStarted, RemoveAnswer, StartAnswer, WaitAnswer};
use std::alloc::AllocError;
use std::str::from_utf8;

/// The words for answers other than an exit status.
const ANSWERS: [(&[u8], Answer); 14] = [
    (b"claimed", Answer::Claim(ClaimAnswer::Claimed)),
    (b"taken", Answer::Claim(ClaimAnswer::Taken)),
    (b"unclaimed", Answer::Claim(ClaimAnswer::Failed)),
    (b"started", Answer::Start(StartAnswer::Started(0))),
    (
        b"refused",
        Answer::Start(StartAnswer::NotStarted(NotStarted::NotFound)),
    ),
    (b"closed", Answer::Closed),
    (b"signal", Answer::Wait(WaitAnswer::Signal)),
    (b"lost", Answer::Wait(WaitAnswer::Lost)),
    (b"removed", Answer::Remove(RemoveAnswer::Removed)),
    (b"missing", Answer::Remove(RemoveAnswer::Missing)),
    (b"kept", Answer::Remove(RemoveAnswer::NotPlain)),
    (b"unremoved", Answer::Remove(RemoveAnswer::Failed)),
    (b"told", Answer::Reported(true)),
    (b"untold", Answer::Reported(false)),
];

/// The exit status of a decimal word.
fn status_of(word: &[u8]) -> Option<u8> {
    from_utf8(word).ok()?.parse().ok()
}

/// The answer of a word.
pub fn answer_of(word: &[u8]) -> Option<Answer> {
    match look_up(&ANSWERS, word) {
        Some(answer) => Some(answer),
        None => Some(Answer::Wait(WaitAnswer::Exit(status_of(word)?))),
    }
}

/// Why a command was not started.
fn refusal_text(why: NotStarted) -> &'static [u8] {
    match why {
        NotStarted::NotFound => b"refused: not found",
        NotStarted::Denied => b"refused: denied",
        NotStarted::NoMemory => b"refused: no memory",
        NotStarted::Other => b"refused: other",
    }
}

/// An answer, without the number that it may carry.
fn answer_text(answer: Answer) -> &'static [u8] {
    match answer {
        Answer::Claim(ClaimAnswer::Claimed) => b"claimed",
        Answer::Claim(ClaimAnswer::Taken) => b"taken",
        Answer::Claim(ClaimAnswer::Failed) => b"unclaimed",
        Answer::Start(StartAnswer::Started(_)) => b"started",
        Answer::Start(StartAnswer::NotStarted(why)) => refusal_text(why),
        Answer::Closed => b"closed",
        Answer::Wait(WaitAnswer::Exit(_)) => b"exit",
        Answer::Wait(WaitAnswer::Signal) => b"signal",
        Answer::Wait(WaitAnswer::Lost) => b"lost",
        Answer::Remove(RemoveAnswer::Removed) => b"removed",
        Answer::Remove(RemoveAnswer::Missing) => b"missing",
        Answer::Remove(RemoveAnswer::NotPlain) => b"kept",
        Answer::Remove(RemoveAnswer::Failed) => b"unremoved",
        Answer::Reported(true) => b"told",
        Answer::Reported(false) => b"untold",
    }
}

/// The number of a child, or the exit status.
fn number_of(answer: Answer) -> Option<u64> {
    match answer {
        Answer::Start(StartAnswer::Started(id)) => Some(id),
        Answer::Wait(WaitAnswer::Exit(status)) => Some(u64::from(status)),
        _ => None,
    }
}

/// Adds an answer.
pub fn add_answer(answer: Answer, out: &mut Transcript) -> Result<(), AllocError> {
    out.add(answer_text(answer))?;
    if let Some(number) = number_of(answer) {
        out.add(b" ")?;
        out.add_number(number)?;
    }
    Ok(())
}
