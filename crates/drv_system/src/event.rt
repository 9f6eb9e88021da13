//! What was asked or written, with the answer.

ghost use Rattle.drv_system.specs.Running.{is_told};
ghost use Rattle.std.specs.Prelude.{◌≡◌};

use drv_words::{RunEvent, Word};
use std::alloc::AllocError;

/// The most bytes that a readable file may have: 16 MiB.
pub const MOST_BYTES: usize = 16_777_216;

/// The result of reading a whole file.
#[derive(Drop, PartialEq)]
pub enum ReadAnswer {
    /// The bytes of the file.
    Read(Word),
    /// No file has that path.
    Missing,
    /// The file could not be read to its end.
    Failed,
    /// It has more than 16,777,216 bytes.
    TooLarge,
}

impl Clone for ReadAnswer {
    ghost is_clone = { λ answer copy. copy ≡ answer };

    fn clone(&self) -> Result<ReadAnswer, AllocError> {
        match self {
            ReadAnswer::Read(bytes) => Ok(ReadAnswer::Read(bytes.clone()?)),
            ReadAnswer::Missing => Ok(ReadAnswer::Missing),
            ReadAnswer::Failed => Ok(ReadAnswer::Failed),
            ReadAnswer::TooLarge => Ok(ReadAnswer::TooLarge),
        }
    }
}

/// The kind of file that a path leads to. Links are followed.
#[derive(Clone, Copy, PartialEq, Eq)]
pub enum PathKind {
    /// A plain file.
    Plain,
    /// A folder.
    Dir,
    /// Something else, such as a device.
    Other,
    /// Nothing.
    Missing,
}

/// Whether a text could be written.
#[derive(Clone, Copy, PartialEq, Eq)]
pub enum TellAnswer {
    /// It was written.
    Told,
    /// It could not be written.
    Failed,
}

impl TellAnswer {
    /// Whether the text was written.
    pub fn is_told(self) -> bool
        ensures { result ≡ is_told self }
    {
        matches!(self, TellAnswer::Told)
    }
}

/// One call of the outside: its argument, then its answer. A step of a run has a fixed size.
#[derive(Drop, PartialEq)]
pub enum Event {
    /// The program asked for the bytes of a file.
    Read(Word, ReadAnswer),
    /// It asked for the kind of a path.
    Kind(Word, PathKind),
    /// It asked for the value of a variable of the environment, which may be unset.
    Variable(Word, Option<Word>),
    /// It wrote a text to standard error.
    Say(Word, TellAnswer),
    /// It wrote a text to standard output.
    Put(Word, TellAnswer),
    /// It made a step of a run.
    Run(RunEvent),
}
