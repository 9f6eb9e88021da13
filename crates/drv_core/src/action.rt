//! The next action of a run.

use drv_words::Step;

/// The next step of a run, or the status of a whole one.
#[derive(Clone, Copy, Debug, PartialEq, Eq)]
pub enum Action {
    /// Make this step and answer it.
    Make(Step),
    /// The run is whole and has this status.
    Done(u8),
}
