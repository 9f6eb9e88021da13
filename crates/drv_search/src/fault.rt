//! Why a search fails.

use drv_words::Word;
use std::alloc::{AllocError, AllocFailed};
use thiserror::Error;

/// Why a search fails.
#[derive(Debug, Drop, Error)]
pub enum SearchFault {
    /// An allocation was refused.
    #[error("out of memory")]
    Memory,
    /// No linker script has this name.
    #[error("no such linker script")]
    ScriptMissing(Word),
}

impl From<AllocError> for SearchFault {
    ghost use Rattle.drv_search.specs.declared.fault.SearchFault.TheVariants.{Memory};
    ghost use Rattle.std.specs.Prelude.{◌≡◌};

    ghost from_gives = { λ _ fault. fault ≡ Memory };

    /// `?` turns a refused allocation into `Memory`.
    fn from(_refused: AllocError) -> SearchFault {
        SearchFault::Memory
    }
}

impl<T: Drop> From<AllocFailed<T>> for SearchFault {
    ghost use Rattle.drv_search.specs.declared.fault.SearchFault.TheVariants.{Memory};
    ghost use Rattle.std.specs.Prelude.{◌≡◌};

    ghost from_gives = { λ _ fault. fault ≡ Memory };

    /// `?` turns a refused allocation into `Memory`, and drops what had no room.
    fn from(_refused: AllocFailed<T>) -> SearchFault {
        SearchFault::Memory
    }
}
