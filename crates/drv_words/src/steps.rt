//! The steps of a run: what is done with which part of a plan, and the answer.

use crate::Answer;

/// A part of a plan. Jobs are numbered from 0 in the order of the plan; the link's number is the
/// number of jobs. Groups, commands and files are numbered from 0 in their lists.
#[derive(Clone, Copy, Debug, PartialEq, Eq)]
pub enum Place {
    /// A command of a group.
    Command {
        job: usize,
        group: usize,
        index: usize,
    },
    /// A temporary file.
    Temp {
        job: usize,
        index: usize,
    },
    /// A file that is removed at the end of the run.
    Marked {
        job: usize,
        index: usize,
    },
    /// A file that is removed if the job fails.
    OnFailure {
        job: usize,
        index: usize,
    },
}

/// A message about a step that failed.
#[derive(Clone, Copy, Debug, PartialEq, Eq)]
pub enum Note {
    /// The temporary file could not be made.
    NotClaimed(Place),
    /// The command could not be started.
    NotStarted(Place),
    /// A signal ended the command.
    Signalled(Place),
    /// The end of the command is unknown.
    Lost(Place),
    /// The file could not be removed.
    NotRemoved(Place),
}

/// One step of a run.
#[derive(Clone, Copy, Debug, PartialEq, Eq)]
pub enum Step {
    /// Make a new file for a temporary.
    Claim(Place),
    /// Start a command, which reads the pending pipe and writes a new one.
    Start {
        place: Place,
        from_pipe: bool,
        to_pipe: bool,
    },
    /// Close the pending pipe.
    ClosePipe,
    /// Wait until the child of this number ends, which was started at this place.
    Wait {
        place: Place,
        id: u64,
    },
    /// Remove a file.
    Remove(Place),
    /// Report a failure to the user.
    Report(Note),
}

/// A step that was made, with its answer.
#[derive(Clone, Copy, Debug, PartialEq, Eq)]
pub struct RunEvent {
    pub step: Step,
    pub answer: Answer,
}
