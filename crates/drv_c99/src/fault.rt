//! Why a line of `c99` is refused.

use drv_words::Word;
use std::alloc::{AllocError, AllocFailed};
use thiserror::Error;

/// Why a line of `c99` is refused, with what is at fault.
#[derive(Debug, Drop, Error)]
pub enum C99Fault {
    /// An allocation was refused.
    #[error("out of memory")]
    Memory,
    /// This word is not an option.
    #[error("no such option")]
    UnknownOption(Word),
    /// This option has no argument.
    #[error("option without its argument")]
    MissingArgument(Word),
    /// There is neither a file nor a library.
    #[error("c99: no operand")]
    NoOperand,
    /// This argument of `-O` is neither 0 nor 1.
    #[error("level that is neither 0 nor 1")]
    BadLevel(Word),
}

impl From<AllocError> for C99Fault {
    ghost use Rattle.drv_c99.specs.declared.fault.C99Fault.TheVariants.{Memory};
    ghost use Rattle.std.specs.Prelude.{◌≡◌};

    ghost from_gives = { λ _ fault. fault ≡ Memory };

    /// `?` turns a refused allocation into `Memory`.
    fn from(_refused: AllocError) -> C99Fault {
        C99Fault::Memory
    }
}

impl<T: Drop> From<AllocFailed<T>> for C99Fault {
    ghost use Rattle.drv_c99.specs.declared.fault.C99Fault.TheVariants.{Memory};
    ghost use Rattle.std.specs.Prelude.{◌≡◌};

    ghost from_gives = { λ _ fault. fault ≡ Memory };

    /// `?` turns a refused allocation into `Memory`, and drops what had no room.
    fn from(_refused: AllocFailed<T>) -> C99Fault {
        C99Fault::Memory
    }
}
