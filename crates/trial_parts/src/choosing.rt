//! Runs a plan block by block, with chosen sources. The lines of the plan are followed by the
//! blocks, one on each line:
//!
//! ```text
//! go CHOICE ANSWER    the source of this number among those that may go on makes a step with this answer
//! ```
//!
//! Prints the steps with their answers, before each the number of sources that may go on, and at the
//! end the status.

ghost use Rattle.drv_words.specs.Stepping.{fits, fits_start, is_child, is_new};
ghost use Rattle.std.specs.Prelude.{◌≡◌};

use crate::answers::answer_of;
use crate::running::Running;
use crate::showing::add_made;
use crate::transcript::Transcript;
use drv_core::{Action, Run};
use drv_words::{Answer, Listing, Plan, RunEvent, StartAnswer, Step, Word};
use std::alloc::{AllocError, Global};
use std::str::from_utf8;

/// Whether an answer says that the child of this number was started.
fn is_child(id: u64, answer: Answer) -> bool
    ensures { result ≡ is_child id answer }
{
    match answer {
        Answer::Start(StartAnswer::Started(new)) => id == new,
        _ => false,
    }
}

/// Whether no child has this number yet.
fn is_new(id: u64, events: &[RunEvent]) -> bool
    ensures { result ≡ is_new id events.now }
{
    for event in events {
        if is_child(id, event.answer) {
            return false;
        }
    }
    true
}

/// Whether an answer to a start has a new number.
fn start_fits(events: &[RunEvent], answer: StartAnswer) -> bool
    ensures { result ≡ fits_start events.now answer }
{
    match answer {
        StartAnswer::Started(id) => is_new(id, events),
        StartAnswer::NotStarted(_) => true,
    }
}

/// Whether an answer fits a step.
fn is_fitting(events: &[RunEvent], step: Step, answer: Answer) -> bool
    ensures { result ≡ fits events.now step answer }
{
    match (step, answer) {
        (Step::Claim(_), Answer::Claim(_)) => true,
        (Step::Start { .. }, Answer::Start(started)) => start_fits(events, started),
        (Step::ClosePipe, Answer::Closed) => true,
        (Step::Wait { .. }, Answer::Wait(_)) => true,
        (Step::Remove(_), Answer::Remove(_)) => true,
        (Step::Report(_), Answer::Reported(_)) => true,
        _ => false,
    }
}

/// Answers the next step, if the answer fits it. Returns whether it did.
fn answer(run: &mut Run, answer: Answer) -> bool {
    if let Action::Make(step) = run.next() {
        if is_fitting(run.events(), step, answer) {
            run.answer(answer);
            return true;
        }
    }
    false
}

/// Goes on with the source of this number, if so many may go on.
fn choose(run: &mut Run, choice: usize) {
    if choice < run.choices() {
        run.choose(choice);
    }
}

/// The answer, with the number of events as the number of a child, which is thus new.
fn with_new_number(answer: Answer, events: usize) -> Answer {
    match answer {
        Answer::Start(StartAnswer::Started(_)) => {
            Answer::Start(StartAnswer::Started(u64::try_from(events).unwrap_or(0)))
        }
        answer => answer,
    }
}

/// The choice and the answer of a line, if it has both.
fn block_of(line: &[Word]) -> Option<(usize, Answer)> {
    match line {
        [go, choice, answer] if go.as_bytes() == b"go".as_slice() => {
            let choice = from_utf8(choice.as_bytes()).ok()?.parse().ok()?;
            Some((choice, answer_of(answer.as_bytes())?))
        }
        _ => None,
    }
}

/// The newest step with its answer.
fn add_newest(run: &Run, plan: &Plan, out: &mut Transcript) -> Result<(), AllocError> {
    match run.events().last() {
        Some(event) => add_made(*event, Some(plan), out),
        None => Ok(()),
    }
}

/// Runs the block of a line.
fn go(run: &mut Run, plan: &Plan, line: &[Word], out: &mut Transcript) -> Result<(), AllocError> {
    let Some((choice, given)) = block_of(line) else {
        return Ok(());
    };
    out.add_count(run.choices())?;
    choose(run, choice);
    let given = with_new_number(given, run.events().len());
    if !answer(run, given) {
        return out.add(b": no such answer\n");
    }
    out.add(b": ")?;
    add_newest(run, plan, out)
}

/// The status, once the run is whole.
fn add_status(run: &Run, out: &mut Transcript) -> Result<(), AllocError> {
    match run.next() {
        Action::Make(_) => out.add(b"not whole\n"),
        Action::Done(status) => out.add_line(b"status ", usize::from(status)),
    }
}

/// Runs a plan as these lines say.
///
/// # Errors
/// A lack of memory.
pub fn choose_blocks(
    alloc: Global,
    plan: &Plan,
    lines: &[Listing<Word>],
    running: Running,
    out: &mut Transcript,
) -> Result<(), AllocError> {
    let mut run = Run::new(alloc, plan, running.pass_codes, running.window.number())?;
    for line in lines {
        go(&mut run, plan, line.as_slice(), out)?;
    }
    add_status(&run, out)
}
