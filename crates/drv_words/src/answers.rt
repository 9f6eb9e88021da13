//! The answers to the steps of a run.

/// Whether a new file was made for a temporary.
#[derive(Clone, Copy, Debug, PartialEq, Eq)]
pub enum ClaimAnswer {
    /// The file is new and belongs to this run.
    Claimed,
    /// A file has that name already.
    Taken,
    /// The file could not be made or written.
    Failed,
}

/// Why a program was not started.
#[derive(Clone, Copy, Debug, PartialEq, Eq)]
pub enum NotStarted {
    /// No file has the program's name.
    NotFound,
    /// The program may not be run.
    Denied,
    /// There was not enough memory.
    NoMemory,
    /// Any other reason.
    Other,
}

/// Whether a program was started.
#[derive(Clone, Copy, Debug, PartialEq, Eq)]
pub enum StartAnswer {
    /// It was started as the child of this number.
    Started(u64),
    /// It was not started.
    NotStarted(NotStarted),
}

/// How a child ended.
#[derive(Clone, Copy, Debug, PartialEq, Eq)]
pub enum WaitAnswer {
    /// It exited with this status.
    Exit(u8),
    /// A signal ended it.
    Signal,
    /// Its end is unknown.
    Lost,
}

/// Whether a file was removed.
#[derive(Clone, Copy, Debug, PartialEq, Eq)]
pub enum RemoveAnswer {
    /// The file was removed.
    Removed,
    /// No file has that name.
    Missing,
    /// It is not a plain file, and was kept.
    NotPlain,
    /// It could not be removed.
    Failed,
}

/// The answer to a step of a run: a claim, a start, the closing of a pipe, a wait, a removal, or a
/// report, with whether it was written.
#[derive(Clone, Copy, Debug, PartialEq, Eq)]
pub enum Answer {
    Claim(ClaimAnswer),
    Start(StartAnswer),
    Closed,
    Wait(WaitAnswer),
    Remove(RemoveAnswer),
    Reported(bool),
}
