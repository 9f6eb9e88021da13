//! What the steps of a run are answered.

ghost use Rattle.drv_words.specs.Stepping.{fits, fits_start, is_child, is_new};
ghost use Rattle.drv_words.specs.declared.steps.RunEvent.{RunEvent};
ghost use Rattle.std.specs.Prelude.{◌≡◌, IsTrue, List, true};

use drv_words::{
    Answer, ClaimAnswer, NotStarted, Place, RemoveAnswer, RunEvent, StartAnswer, Step, WaitAnswer,
};

/// How a command ends, or why it isn't started.
#[derive(Clone, Copy, Debug)]
pub struct Failure {
    /// Where in the plan the command is.
    pub place: Place,
    /// The answer to its wait or its start.
    pub answer: Answer,
}

/// Whether an answer says that the child of this number was started.
fn is_child(id: u64, answer: Answer) -> bool
    ensures { result ≡ is_child id answer }
{
    match answer {
        Answer::Start(StartAnswer::Started(new)) => id == new,
        _ => false,
    }
}

/// Whether no child has this number yet.
fn is_new(id: u64, events: &[RunEvent]) -> bool
    ensures { result ≡ is_new id events.now }
{
    for event in events {
        if is_child(id, event.answer) {
            return false;
        }
    }
    true
}

/// A child is started: its number is that of the events before it.
fn started(events: &[RunEvent]) -> StartAnswer
    ensures { fits_start events.now result ≡ true }
{
    let number = events.len() as u64;
    if is_new(number, events) {
        StartAnswer::Started(number)
    } else {
        StartAnswer::NotStarted(NotStarted::NoMemory)
    }
}

/// The answer that a step gets where all is well.
fn well(events: &[RunEvent], step: Step) -> Answer
    ensures { fits events.now step result ≡ true }
{
    match step {
        Step::Claim(_) => Answer::Claim(ClaimAnswer::Claimed),
        Step::Start { .. } => Answer::Start(started(events)),
        Step::ClosePipe => Answer::Closed,
        Step::Wait { .. } => Answer::Wait(WaitAnswer::Exit(0)),
        Step::Remove(_) => Answer::Remove(RemoveAnswer::Removed),
        Step::Report(_) => Answer::Reported(true),
    }
}

impl Failure {
    /// Whether it answers a step. No child is started by it.
    fn answers(self, step: Step) -> bool
        ensures { IsTrue result → (events : List RunEvent) → fits events step self.answer ≡ true }
    {
        match (step, self.answer) {
            (Step::Start { place, .. }, Answer::Start(StartAnswer::NotStarted(_))) => {
                place == self.place
            }
            (Step::Wait { place, .. }, Answer::Wait(_)) => place == self.place,
            _ => false,
        }
    }
}

/// What a step is answered after these events: by the first failure of its command, or else that
/// all is well.
pub(crate) fn answer_to(failures: &[Failure], events: &[RunEvent], step: Step) -> Answer
    ensures { fits events.now step result ≡ true }
{
    for failure in failures {
        if failure.answers(step) {
            return failure.answer;
        }
    }
    well(events, step)
}
