//! Why a line has no plan.

use drv_machine::MachineFault;
use drv_words::Word;
use std::alloc::{AllocError, AllocFailed};
use thiserror::Error;

/// Why a line has no plan.
#[derive(Debug, Drop, Error)]
pub enum PlanFault {
    /// An allocation was refused.
    #[error("out of memory")]
    Memory,
    /// A spec text of the line has no job. The refusal is not `Memory`, which the plan reports
    /// itself.
    #[error("{0}")]
    Machine(MachineFault),
    /// No pair has this language.
    #[error("language not recognized")]
    UnknownLanguage(Word),
    /// The compiler of this name isn't installed.
    #[error("compiler not installed")]
    NotInstalled(Word),
}

impl From<AllocError> for PlanFault {
    ghost use Rattle.drv_plan.specs.declared.fault.PlanFault.TheVariants.{Memory};
    ghost use Rattle.std.specs.Prelude.{◌≡◌};

    ghost from_gives = { λ _ fault. fault ≡ Memory };

    /// `?` turns a refused allocation into `Memory`.
    fn from(_refused: AllocError) -> PlanFault {
        PlanFault::Memory
    }
}

impl<T: Drop> From<AllocFailed<T>> for PlanFault {
    ghost use Rattle.drv_plan.specs.declared.fault.PlanFault.TheVariants.{Memory};
    ghost use Rattle.std.specs.Prelude.{◌≡◌};

    ghost from_gives = { λ _ fault. fault ≡ Memory };

    /// `?` turns a refused allocation into `Memory`, and drops what had no room.
    fn from(_refused: AllocFailed<T>) -> PlanFault {
        PlanFault::Memory
    }
}

impl From<MachineFault> for PlanFault {
    ghost use Rattle.drv_plan.specs.Denoted.{lifted};
    ghost use Rattle.std.specs.Prelude.{◌≡◌};

    ghost from_gives = { λ refused fault. fault ≡ lifted refused };

    /// `?` turns the refusal of a text into that of the plan, and lack of memory into `Memory`.
    fn from(refused: MachineFault) -> PlanFault {
        match refused {
            MachineFault::Memory => PlanFault::Memory,
            refusal => PlanFault::Machine(refusal),
        }
    }
}
