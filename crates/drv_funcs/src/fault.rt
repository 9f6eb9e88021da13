//! Why a function of a spec text is refused.

use crate::Function;
use drv_words::Word;
use std::alloc::{AllocError, AllocFailed};
use thiserror::Error;

/// Why a function of a spec text is refused, with what is at fault.
#[derive(Debug, Drop, Error)]
pub enum FuncsFault {
    /// An allocation was refused.
    #[error("out of memory")]
    Memory,
    /// The variable of this name is not set.
    #[error("variable that is not set")]
    VariableMissing(Word),
    /// This function takes another number of arguments.
    #[error("function with another number of arguments")]
    WrongCount(Function),
    /// This word is not a version.
    #[error("no version")]
    BadVersion(Word),
    /// This function is allowed only in the link.
    #[error("function for the link alone")]
    NotInLink(Function),
    /// This word is not a comparison.
    #[error("no such comparison")]
    BadOperator(Word),
}

impl From<AllocError> for FuncsFault {
    ghost use Rattle.drv_funcs.specs.declared.fault.FuncsFault.TheVariants.{Memory};
    ghost use Rattle.std.specs.Prelude.{◌≡◌};

    ghost from_gives = { λ _ fault. fault ≡ Memory };

    /// `?` turns a refused allocation into `Memory`.
    fn from(_refused: AllocError) -> FuncsFault {
        FuncsFault::Memory
    }
}

impl<T: Drop> From<AllocFailed<T>> for FuncsFault {
    ghost use Rattle.drv_funcs.specs.declared.fault.FuncsFault.TheVariants.{Memory};
    ghost use Rattle.std.specs.Prelude.{◌≡◌};

    ghost from_gives = { λ _ fault. fault ≡ Memory };

    /// `?` turns a refused allocation into `Memory`, and drops what had no room.
    fn from(_refused: AllocFailed<T>) -> FuncsFault {
        FuncsFault::Memory
    }
}
