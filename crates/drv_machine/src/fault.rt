//! Why a text has no job.

use drv_funcs::FuncsFault;
use drv_search::SearchFault;
use drv_words::Word;
use std::alloc::{AllocError, AllocFailed};
use thiserror::Error;

/// Why a spec text that is run has no job.
#[derive(Debug, Drop, Error)]
pub enum MachineFault {
    /// An allocation was refused.
    #[error("out of memory")]
    Memory,
    /// The text has an error for the user, with this text.
    #[error("error that the spec text says")]
    UserError(Word),
    /// More than 64 named texts, workings of an X with a `%*`, function arguments, `%W` and `%@`
    /// are open at one time.
    #[error("specs nested too deep")]
    SpecTooDeep,
    /// More than 1,000,000 items are reached.
    #[error("too many spec steps")]
    TooManySteps,
    /// The link's text has `%i`, `%b` or `%B`.
    #[error("no input file in this spec")]
    NoInput,
    /// A text other than the link's has `%o`.
    #[error("%o is for the link alone")]
    NotInLink,
    /// A `|` is not at the end of a command with a word, or no further command follows it.
    #[error("stray pipe")]
    StrayPipe,
    /// More than 16 commands form one pipe.
    #[error("more than 16 commands in one pipe")]
    PipeTooLong,
    /// A search failed.
    #[error("a search failed")]
    Search(SearchFault),
    /// A function is refused. The refusal isn't `Memory`, which is the machine's own.
    #[error("a function was refused")]
    Funcs(FuncsFault),
}

impl From<AllocError> for MachineFault {
    ghost use Rattle.drv_machine.specs.declared.fault.MachineFault.TheVariants.{Memory};
    ghost use Rattle.std.specs.Prelude.{◌≡◌};

    ghost from_gives = { λ _ fault. fault ≡ Memory };

    fn from(_refused: AllocError) -> MachineFault {
        MachineFault::Memory
    }
}

impl<T: Drop> From<AllocFailed<T>> for MachineFault {
    ghost use Rattle.drv_machine.specs.declared.fault.MachineFault.TheVariants.{Memory};
    ghost use Rattle.std.specs.Prelude.{◌≡◌};

    ghost from_gives = { λ _ fault. fault ≡ Memory };

    fn from(_refused: AllocFailed<T>) -> MachineFault {
        MachineFault::Memory
    }
}

impl From<SearchFault> for MachineFault {
    ghost use Rattle.drv_machine.specs.Working.{search_lifted};
    ghost use Rattle.std.specs.Prelude.{◌≡◌};

    ghost from_gives = { λ low high. high ≡ search_lifted low };

    fn from(low: SearchFault) -> MachineFault {
        match low {
            SearchFault::Memory => MachineFault::Memory,
            fault => MachineFault::Search(fault),
        }
    }
}

impl From<FuncsFault> for MachineFault {
    ghost use Rattle.drv_machine.specs.Working.{funcs_lifted};
    ghost use Rattle.std.specs.Prelude.{◌≡◌};

    ghost from_gives = { λ low high. high ≡ funcs_lifted low };

    fn from(low: FuncsFault) -> MachineFault {
        match low {
            FuncsFault::Memory => MachineFault::Memory,
            fault => MachineFault::Funcs(fault),
        }
    }
}
