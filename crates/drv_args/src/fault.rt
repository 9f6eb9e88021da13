//! Why arguments are refused.

use drv_words::Word;
use std::alloc::{AllocError, AllocFailed};
use thiserror::Error;

/// Why arguments are refused, with what is at fault.
#[derive(Debug, Drop, Error)]
pub enum ArgsFault {
    /// An allocation was refused.
    #[error("out of memory")]
    Memory,
    /// More than 2,000 words were replaced by response files.
    #[error("too many @-files")]
    TooManyFiles,
    /// The response file of this path has more than 16,777,216 bytes, or more words than a limit.
    #[error("response file of more than 16777216 bytes")]
    ResponseTooLarge(Word),
    /// There are more than 65,536 words.
    #[error("more than 65536 arguments")]
    TooManyArguments,
    /// This option takes the next word, but is the last word.
    #[error("option without its argument")]
    MissingArgument(Word),
    /// This word doesn't name a number of jobs from 1 to 64.
    #[error("no number of jobs from 1 to 64")]
    BadJobs(Word),
    /// There is no input.
    #[error("no input files")]
    NoInputs,
    /// Standard input is an input, and neither `-x` nor `-E` says how to read it.
    #[error("-E or -x required when input is from standard input")]
    StdinNeedsLanguage,
    /// `-o` is given with `-c`, `-S` or `-E` and more than one file.
    #[error("cannot specify -o with -c, -S or -E with multiple files")]
    OutputWithMany,
    /// This input is also the output.
    #[error("an input is the output too")]
    OutputIsInput(Word),
}

impl From<AllocError> for ArgsFault {
    ghost use Rattle.drv_args.specs.declared.fault.ArgsFault.TheVariants.{Memory};
    ghost use Rattle.std.specs.Prelude.{◌≡◌};

    ghost from_gives = { λ _ fault. fault ≡ Memory };

    /// `?` turns a refused allocation into `Memory`.
    fn from(_refused: AllocError) -> ArgsFault {
        ArgsFault::Memory
    }
}

impl<T: Drop> From<AllocFailed<T>> for ArgsFault {
    ghost use Rattle.drv_args.specs.declared.fault.ArgsFault.TheVariants.{Memory};
    ghost use Rattle.std.specs.Prelude.{◌≡◌};

    ghost from_gives = { λ _ fault. fault ≡ Memory };

    /// `?` turns a refused allocation into `Memory`, and drops what had no room.
    fn from(_refused: AllocFailed<T>) -> ArgsFault {
        ArgsFault::Memory
    }
}
