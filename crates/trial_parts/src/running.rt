//! How a plan is run.

use drv_args::Jobs;
use drv_words::Word;
use std::str::from_utf8;

/// How a plan is run.
#[derive(Clone, Copy)]
pub struct Running {
    /// How many sources are under way at once, at most.
    pub window: Jobs,
    /// Whether the exit status is the greatest code where a command failed, otherwise 1.
    pub pass_codes: bool,
}

/// What these words say of a run: the first is its window, and with another it passes on exit codes.
pub fn running_of(words: &[Word]) -> Option<Running> {
    let [window, more @ ..] = words else {
        return None;
    };
    Some(Running {
        window: Jobs::new(from_utf8(window.as_bytes()).ok()?.parse().ok()?)?,
        pass_codes: !more.is_empty(),
    })
}
