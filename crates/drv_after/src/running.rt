//! The run of a plan, in which nothing is made or started.

use crate::answers::{Failure, answer_to};
use crate::story::story;
use drv_core::{Action, Run, Window};
use drv_words::{Plan, Word};
use std::alloc::{AllocError, Global};

/// The text of the whole run of a plan, in which these commands fail, and all else is well. Of
/// several sources that may go on, the first one does. The text says which commands are started,
/// which files are made and removed, the exit status, and which files are left.
pub fn story_over(
    alloc: Global,
    plan: &Plan,
    pass_codes: bool,
    window: Window,
    failures: &[Failure],
) -> Result<Word, AllocError> {
    let mut run = Run::new(alloc, plan, pass_codes, window.sources())?;
    loop {
        match run.next() {
            Action::Done(status) => return story(alloc, plan, run.events(), status),
            Action::Make(step) => {
                let answer = answer_to(failures, run.events(), step);
                run.answer(answer);
            }
        }
    }
}
