//! What working a text gives.

use drv_words::{Job, Listing, Word};

/// The job of a text, and what goes on to the next text.
#[derive(Drop)]
pub struct Outcome {
    /// The plan says of which source it is.
    pub job: Job,
    /// What the user reads: each text of a `%n` after `note: `.
    pub notices: Listing<Word>,
    /// The outputs of the jobs before, as functions left them.
    pub outs: Listing<Word>,
    /// What `%x` has added so far.
    pub accumulated: Listing<Word>,
    /// The number of the next name that is drawn.
    pub next_number: usize,
    /// The number of items that were reached.
    pub cost: usize,
}
